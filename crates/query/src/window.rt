// Windows: all places between two corners, both ends included.
ghost use Rattle.zorder.specs.Sharing.{Under, Inside};
ghost use Rattle.kinds.specs.Kind.{Whether};
ghost use Rattle.query.specs.Windows.{Checked};

use kinds::kind::PointKind;
use kinds::points::inside;
use refusal::Refusal;

// A window, by its corners. Any two points can stand here; `check` tells whether they are the corners of a window.
#[derive(Clone, Copy)]
pub struct Window<K> {
    pub low: K,
    pub high: K,
}

impl<K: PointKind> Window<K> {
    // 3 if a corner is off an axis, then 2 if the low corner exceeds the high one on some axis.
    pub fn check(&self) -> Result<(), Refusal>
        ensures { Checked K.PointKind.kind self.now result }
    {
        if !self.low.on_axes() || !self.high.on_axes() {
            return Err(Refusal::OffAxis);
        }
        if !self.low.under(&self.high) {
            return Err(Refusal::Crossed);
        }
        Ok(())
    }

    // Whether a point lies in the window.
    pub fn holds(&self, p: &K) -> bool
        ensures { Whether result (Inside (K.PointKind.kind.coords self.now.low) (K.PointKind.kind.coords self.now.high) (K.PointKind.kind.coords p.now)) }
    {
        inside(p, &self.low, &self.high)
    }

    // The corners here and below are those of an entry, which may be crossed on a damaged card and so are no window.
    // Whether the window meets that of two corners: neither ends before the other begins, on any axis.
    pub fn meets(&self, low: &K, high: &K) -> bool
        ensures { Whether result (Under (K.PointKind.kind.coords self.now.low) (K.PointKind.kind.coords high.now) × Under (K.PointKind.kind.coords low.now) (K.PointKind.kind.coords self.now.high)) }
    {
        self.low.under(high) && low.under(&self.high)
    }

    // Whether the window covers that of two corners whole.
    pub fn covers(&self, low: &K, high: &K) -> bool
        ensures { Whether result (Under (K.PointKind.kind.coords self.now.low) (K.PointKind.kind.coords low.now) × Under (K.PointKind.kind.coords high.now) (K.PointKind.kind.coords self.now.high)) }
    {
        self.low.under(low) && high.under(&self.high)
    }
}
