// Entries: what a page says of a part of the tree.
ghost use Rattle.std.specs.Prelude.{◌≡◌, ⊤, ℕ, ◌^◌, ◌<◌, length, take, drop};
ghost use Rattle.kinds.specs.Kind.{size_of, entry_length};
ghost use Rattle.kinds.specs.Bytes.{bytes};
ghost use Rattle.page.specs.Checks.{PointRead, EntryRead, InEntry, PointIs, EntryIs};

use crate::numbers::{four_bytes, two_bytes};
use kinds::kind::PointKind;
use std::alloc::AllocError;
use std::marker::PhantomData;

// An entry as a value: the page at which a part of the tree begins, how many points it has, and its corners.
// That these lie on their axes is asked where it is needed: the encoder writes any entry, and would ask it too if it stood in the type.
#[derive(Clone, Copy)]
pub struct Entry<K> {
    pub page: u16,
    pub count: u32,
    pub low: K,
    pub high: K,
}

// How many bytes an entry has.
pub fn entry_size<K: PointKind>() -> usize
    ensures { result ≡ entry_length K.PointKind.kind }
{
    6 + 2 * K::SIZE
}

// An entry, shown as a part of its page: page number (2 bytes), number of points (4), low corner, high corner.
pub struct EntryView<'a, K: PointKind> {
    bytes: &'a [u8],
    points: PhantomData<K>,
    ghost long: { length bytes.now ≡ entry_length K.PointKind.kind },
}

// By hand, as `Clone` cannot be derived for a generic struct with a ghost field.
impl<'a, K: PointKind> Clone for EntryView<'a, K> {
    ghost is_clone = { λ view copy. copy ≡ view };

    ghost is_infallible = { λ _. ⊤ };

    fn clone(&self) -> Result<EntryView<'a, K>, AllocError> {
        Ok(*self)
    }
}

impl<K: PointKind> Copy for EntryView<'_, K> {}

impl<'a, K: PointKind> EntryView<'a, K> {
    // The entry over a part of a page.
    pub(crate) fn over(bytes: &'a [u8]) -> EntryView<'a, K>
        requires { length bytes.now ≡ entry_length K.PointKind.kind }
        ensures { result.bytes.now ≡ bytes.now }
    {
        EntryView {
            bytes,
            points: PhantomData,
        }
    }

    // The number of the page at which the part begins.
    pub fn page(&self) -> u16
        ensures form { bytes 2 result ≡ take 2 self.now.bytes.now }
        ensures fits { result < 65536 }
        ensures entry { InEntry K.PointKind.kind self.now.bytes.now (λ e. result ≡ e.page) }
    {
        two_bytes(self.bytes, 0)
    }

    // How many points the part has.
    pub fn count(&self) -> u32
        ensures form { bytes 4 result ≡ take 4 (drop 2 self.now.bytes.now) }
        ensures fits { result < 2 ^ 32 }
        ensures entry { InEntry K.PointKind.kind self.now.bytes.now (λ e. result ≡ e.count) }
    {
        four_bytes(self.bytes, 2)
    }

    // The low corner, none where its bytes are those of no point on the axes.
    pub fn low(&self) -> Option<K>
        ensures reads { PointRead K.PointKind.kind (take (size_of K.PointKind.kind) (drop 6 self.now.bytes.now)) result }
        ensures entry { InEntry K.PointKind.kind self.now.bytes.now (λ e. PointIs K.PointKind.kind e.low result) }
    {
        let end = 6 + K::SIZE;
        K::read(&self.bytes[6..end])
    }

    // The high corner, none where its bytes are those of no point on the axes.
    pub fn high(&self) -> Option<K>
        ensures reads { PointRead K.PointKind.kind (drop (size_of K.PointKind.kind) (drop 6 self.now.bytes.now)) result }
        ensures entry { InEntry K.PointKind.kind self.now.bytes.now (λ e. PointIs K.PointKind.kind e.high result) }
    {
        let start = 6 + K::SIZE;
        K::read(&self.bytes[start..])
    }

    // The entry as a value, none where a corner is off an axis or the corners are crossed.
    pub fn read(&self) -> Option<Entry<K>>
        ensures reads { EntryRead K.PointKind.kind self.now.bytes.now result }
        ensures entry { InEntry K.PointKind.kind self.now.bytes.now (λ e. EntryIs K.PointKind.kind e result) }
    {
        let low = self.low()?;
        let high = self.high()?;
        if !low.under(&high) {
            return None;
        }
        Some(Entry {
            page: self.page(),
            count: self.count(),
            low,
            high,
        })
    }
}
