// The head, always page 0: the free chain and the root entry.
ghost use Rattle.std.specs.Prelude.{◌≡◌, ℕ, ◌<◌, List, [], ◌∷◌, length, take, drop, IfSome, Some, slice_index};
ghost use Rattle.kinds.specs.Kind.{entry_length};
ghost use Rattle.kinds.specs.Bytes.{bytes};
ghost use Rattle.page.specs.Checks.{Checked, IsHead, HeadRead, RootShown, InHead, RootIs};

use crate::entry::{Entry, EntryView, entry_size};
use crate::fault::PageFault;
use crate::numbers::two_bytes;
use crate::zeros::zeros;
use kinds::kind::PointKind;
use std::marker::PhantomData;

// The head as a value: the first free page, 0 if none, how many pages are free, and the root entry, none in an empty draft.
#[derive(Clone, Copy)]
pub struct Head<K> {
    pub first: u16,
    pub free: u16,
    pub root: Option<Entry<K>>,
}

// The head, whose root entry is shown as a part of its bytes.
#[derive(Clone, Copy)]
pub struct HeadView<'a, K> {
    bytes: &'a [u8; 64],
    points: PhantomData<K>,
}

impl<'a, K: PointKind> HeadView<'a, K> {
    // The head with these bytes.
    pub fn new(page: usize, bytes: &'a [u8; 64]) -> Result<HeadView<'a, K>, PageFault>
        ensures { Checked K.PointKind.kind page (K.PointKind.kind.head_kind ∷ []) bytes.now (λ v. (v.bytes.now ≡ bytes.now) × IsHead K.PointKind.kind bytes.now) result }
    {
        let _head = read_head::<K>(page, bytes)?;
        Ok(HeadView {
            bytes,
            points: PhantomData,
        })
    }

    // The first free page, 0 if none.
    pub fn first(&self) -> u16
        ensures form { bytes 2 result ≡ take 2 (drop 1 self.now.bytes.now) }
        ensures fits { result < 65536 }
        ensures view { InHead K.PointKind.kind self.now.bytes.now (λ first free root. result ≡ first) }
    {
        let bytes = self.bytes;
        two_bytes(bytes, 1)
    }

    // How many pages are free.
    pub fn free(&self) -> u16
        ensures form { bytes 2 result ≡ take 2 (drop 3 self.now.bytes.now) }
        ensures fits { result < 65536 }
        ensures view { InHead K.PointKind.kind self.now.bytes.now (λ first free root. result ≡ free) }
    {
        let bytes = self.bytes;
        two_bytes(bytes, 3)
    }

    // The root entry, none where it is all zero bytes.
    pub fn root(&self) -> Option<EntryView<'a, K>>
        ensures part { RootShown (take (entry_length K.PointKind.kind) (drop 5 self.now.bytes.now)) (λ v. v.bytes.now) result }
        ensures whole { IfSome result (λ v. length v.bytes.now ≡ entry_length K.PointKind.kind) }
        ensures view { InHead K.PointKind.kind self.now.bytes.now (λ first free root. RootIs K.PointKind.kind (λ v. v.bytes.now) root result) }
    {
        let bytes = self.bytes;
        let end = 5 + entry_size::<K>();
        let part = &bytes[5..end];
        if zeros(part) {
            return None;
        }
        Some(EntryView::over(part))
    }
}

// The head with these bytes, given that their kind is; none where a field is wrong.
pub(crate) fn head_fields<K: PointKind>(bytes: &[u8; 64]) -> Option<Head<K>>
    requires { slice_index bytes.now 0 ≡ K.PointKind.kind.head_kind }
    ensures { HeadRead K.PointKind.kind bytes.now result }
{
    let first = u16::from_le_bytes([bytes[1], bytes[2]]);
    let free = u16::from_le_bytes([bytes[3], bytes[4]]);
    let size = entry_size::<K>();
    if !zeros(&bytes[5 + size..]) {
        return None;
    }
    let part = &bytes[5..5 + size];
    if zeros(part) {
        return Some(Head {
            first,
            free,
            root: None,
        });
    }
    let entry = EntryView::<K>::over(part).read()?;
    Some(Head {
        first,
        free,
        root: Some(entry),
    })
}

// Reads the head.
pub fn read_head<K: PointKind>(page: usize, bytes: &[u8; 64]) -> Result<Head<K>, PageFault>
    ensures { Checked K.PointKind.kind page (K.PointKind.kind.head_kind ∷ []) bytes.now (λ x. HeadRead K.PointKind.kind bytes.now (Some x)) result }
{
    if bytes[0] != K::HEAD_PAGE {
        return Err(PageFault::Kind(page));
    }
    head_fields::<K>(bytes).ok_or(PageFault::Field(page))
}
