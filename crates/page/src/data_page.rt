// Data pages: how many points, then the points in rising code.
ghost use Rattle.std.specs.Prelude.{◌≡◌, ℕ, ◌*◌, ◌<◌, ◌≤◌, List, [], ◌∷◌, length, take, drop, slice_index};
ghost use Rattle.kinds.specs.Kind.{On, size_of};
ghost use Rattle.page.specs.Form.{Point, data_view};
ghost use Rattle.page.specs.Fields.{Reads};
ghost use Rattle.page.specs.Checks.{Checked, DataRead, IsData, PointRead, PointAt, Cornered, Held};

use crate::fault::PageFault;
use crate::zeros::zeros;
use kinds::kind::PointKind;
use std::marker::PhantomData;

// A data page, whose points are shown as parts of its bytes.
#[derive(Clone, Copy)]
pub struct DataView<'a, K> {
    bytes: &'a [u8; 64],
    points: PhantomData<K>,
}

impl<'a, K: PointKind> DataView<'a, K> {
    // The data page with these bytes.
    pub fn new(page: usize, bytes: &'a [u8; 64]) -> Result<DataView<'a, K>, PageFault>
        ensures { Checked K.PointKind.kind page (K.PointKind.kind.data_kind ∷ []) bytes.now (λ v. (v.bytes.now ≡ bytes.now) × IsData K.PointKind.kind bytes.now) result }
    {
        if bytes[0] != K::DATA_PAGE {
            return Err(PageFault::Kind(page));
        }
        if !data_fields::<K>(bytes) {
            return Err(PageFault::Field(page));
        }
        Ok(DataView {
            bytes,
            points: PhantomData,
        })
    }

    // The view over bytes that may be those of a data page: what it tells holds where they are.
    pub fn over(bytes: &'a [u8; 64]) -> DataView<'a, K>
        ensures { result.bytes.now ≡ bytes.now }
    {
        DataView {
            bytes,
            points: PhantomData,
        }
    }

    // How many points the page has.
    pub fn count(&self) -> usize
        ensures { (ps : List Point) → Reads K.PointKind.kind self.now.bytes.now (data_view ps) → result ≡ length ps }
    {
        usize::from(self.bytes[1])
    }

    // The point at a place, none past the last one.
    pub fn point(&self, place: usize) -> Option<K>
        ensures { (ps : List Point) → Reads K.PointKind.kind self.now.bytes.now (data_view ps) → PointAt K.PointKind.kind ps place result }
    {
        if place >= self.count() || place >= K::CAPACITY {
            return None;
        }
        point_at::<K>(self.bytes, place)
    }

    // Both corners of the points, by a loop over their codes; none where the codes do not strictly rise. The first place is read where the count is 0 too, so bytes that claim no points have corners if a point stands there.
    pub fn corners(&self) -> Option<(K, K)>
        ensures { (ps : List Point) → Reads K.PointKind.kind self.now.bytes.now (data_view ps) → Cornered K.PointKind.kind ps result }
    {
        let bytes = self.bytes;
        let count = self.count();
        if count > K::CAPACITY {
            return None;
        }
        let mut parts = bytes[2..].chunks_exact(K::SIZE);
        let first = K::read(parts.next()?)?;
        let mut low = first;
        let mut high = first;
        let mut last = first.code();
        for part in parts.take(count.saturating_sub(1)) {
            let point = K::read(part)?;
            let code = point.code();
            if code <= last {
                return None;
            }
            last = code;
            low = low.lower(&point);
            high = high.upper(&point);
        }
        Some((low, high))
    }

    // Whether a point is on the page, by its code.
    pub fn holds(&self, p: &K) -> bool
        requires { On K.PointKind.kind p.now }
        ensures { (ps : List Point) → Reads K.PointKind.kind self.now.bytes.now (data_view ps) → Held K.PointKind.kind ps p.now result }
    {
        let bytes = self.bytes;
        let count = self.count();
        if count > K::CAPACITY {
            return false;
        }
        let sought = p.code();
        for part in bytes[2..].chunks_exact(K::SIZE).take(count) {
            let Some(point) = K::read(part) else {
                return false;
            };
            let code = point.code();
            if code >= sought {
                return code == sought;
            }
        }
        false
    }
}

// The point at a place of a data page, shown as a part of its bytes; none where these are the bytes of no point on the axes.
fn point_at<K: PointKind>(bytes: &[u8; 64], place: usize) -> Option<K>
    requires { place < K.PointKind.kind.capacity }
    ensures { PointRead K.PointKind.kind (take (size_of K.PointKind.kind) (drop (place * size_of K.PointKind.kind) (drop 2 bytes.now))) result }
{
    let size = K::SIZE;
    let at = 2 + place * size;
    K::read(&bytes[at..at + size])
}

// Whether the fields of a data page are right, given that its kind is.
pub(crate) fn data_fields<K: PointKind>(bytes: &[u8; 64]) -> bool
    requires { slice_index bytes.now 0 ≡ K.PointKind.kind.data_kind }
    ensures { DataRead K.PointKind.kind bytes.now result }
{
    let count = usize::from(bytes[1]);
    if count < 1 || count > K::CAPACITY {
        return false;
    }
    (0..count).all(|place| point_at::<K>(bytes, place).is_some())
        && zeros(&bytes[2 + count * K::SIZE..])
}
