// Windows that were checked.
ghost use Rattle.std.specs.Prelude.{◌≡◌, Err, MatchResult};
ghost use Rattle.zorder.specs.Props.{OnAxes-prop, Under-prop};
ghost use Rattle.zorder.specs.Sharing.{Under};
ghost use Rattle.kinds.specs.Kind.{On};
ghost use Rattle.query.specs.Windows.{Checked};

use kinds::kind::PointKind;
use query::window::Window;
use refusal::Refusal;

// A window whose corners lie on the axes and are not crossed.
#[derive(Drop)]
pub(crate) struct WholeWindow<K: PointKind> {
    pub(crate) corners: Window<K>,
    ghost low_on: { On K.PointKind.kind corners.low } by { OnAxes-prop K.PointKind.kind.axes (K.PointKind.kind.coords corners.low) },
    ghost high_on: { On K.PointKind.kind corners.high } by { OnAxes-prop K.PointKind.kind.axes (K.PointKind.kind.coords corners.high) },
    ghost uncrossed: { Under (K.PointKind.kind.coords corners.low) (K.PointKind.kind.coords corners.high) } by { Under-prop (K.PointKind.kind.coords corners.low) (K.PointKind.kind.coords corners.high) },
}

impl<K: PointKind> WholeWindow<K> {
    // Checks a window: 3 if a corner is off an axis, then 2 if the corners are crossed.
    pub(crate) fn new(window: &Window<K>) -> Result<WholeWindow<K>, Refusal>
        ensures { MatchResult result (λ w. w.corners ≡ window.now) (λ e. Checked K.PointKind.kind window.now (Err e)) }
    {
        window.check()?;
        Ok(WholeWindow { corners: *window })
    }
}
