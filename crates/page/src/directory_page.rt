// Directory pages: the depth, the low entry and the high entry.
ghost use Rattle.std.specs.Prelude.{◌≡◌, ℕ, ◌+◌, List, [], ◌∷◌, length, take, drop, slice_index};
ghost use Rattle.kinds.specs.Kind.{entry_length};
ghost use Rattle.page.specs.Form.{entry_bytes};
ghost use Rattle.page.specs.Checks.{Checked, IsDirectory, DirectoryRead, InDirectory};

use crate::entry::{Entry, EntryView, entry_size};
use crate::fault::PageFault;
use crate::zeros::zeros;
use kinds::kind::PointKind;
use std::marker::PhantomData;

// A directory page as a value.
#[derive(Clone, Copy)]
pub struct Fork<K> {
    pub depth: u32,
    pub low: Entry<K>,
    pub high: Entry<K>,
}

// A directory page, whose entries are shown as parts of its bytes.
#[derive(Clone, Copy)]
pub struct DirectoryView<'a, K> {
    bytes: &'a [u8; 64],
    points: PhantomData<K>,
}

impl<'a, K: PointKind> DirectoryView<'a, K> {
    // The directory page with these bytes. Each view says itself which kind and fields it asks for: a function for all would need a trait for views.
    pub fn new(page: usize, bytes: &'a [u8; 64]) -> Result<DirectoryView<'a, K>, PageFault>
        ensures { Checked K.PointKind.kind page (K.PointKind.kind.directory_kind ∷ []) bytes.now (λ v. (v.bytes.now ≡ bytes.now) × IsDirectory K.PointKind.kind bytes.now) result }
    {
        if bytes[0] != K::DIRECTORY_PAGE {
            return Err(PageFault::Kind(page));
        }
        let _fork = directory_fields::<K>(bytes).ok_or(PageFault::Field(page))?;
        Ok(DirectoryView {
            bytes,
            points: PhantomData,
        })
    }

    // How many first bits all codes below the page share.
    pub fn depth(&self) -> u32
        ensures byte { result ≡ slice_index self.now.bytes.now 1 }
        ensures view { InDirectory K.PointKind.kind self.now.bytes.now (λ n l h. result ≡ n) }
    {
        u32::from(self.bytes[1])
    }

    // The low entry.
    pub fn low(&self) -> EntryView<'a, K>
        ensures part { result.bytes.now ≡ take (entry_length K.PointKind.kind) (drop 2 self.now.bytes.now) }
        ensures whole { length result.bytes.now ≡ entry_length K.PointKind.kind }
        ensures view { InDirectory K.PointKind.kind self.now.bytes.now (λ n l h. result.bytes.now ≡ entry_bytes K.PointKind.kind l) }
    {
        let bytes = self.bytes;
        let end = 2 + entry_size::<K>();
        EntryView::over(&bytes[2..end])
    }

    // The high entry.
    pub fn high(&self) -> EntryView<'a, K>
        ensures part { result.bytes.now ≡ take (entry_length K.PointKind.kind) (drop (2 + entry_length K.PointKind.kind) self.now.bytes.now) }
        ensures whole { length result.bytes.now ≡ entry_length K.PointKind.kind }
        ensures view { InDirectory K.PointKind.kind self.now.bytes.now (λ n l h. result.bytes.now ≡ entry_bytes K.PointKind.kind h) }
    {
        let bytes = self.bytes;
        let size = entry_size::<K>();
        let start = 2 + size;
        EntryView::over(&bytes[start..start + size])
    }
}

// The directory page with these bytes, given that their kind is; none where a field is wrong.
pub(crate) fn directory_fields<K: PointKind>(bytes: &[u8; 64]) -> Option<Fork<K>>
    requires { slice_index bytes.now 0 ≡ K.PointKind.kind.directory_kind }
    ensures { DirectoryRead K.PointKind.kind bytes.now result }
{
    let depth = u32::from(bytes[1]);
    if depth >= K::BITS {
        return None;
    }
    let size = entry_size::<K>();
    let low = EntryView::<K>::over(&bytes[2..2 + size]).read()?;
    let high = EntryView::<K>::over(&bytes[2 + size..2 + 2 * size]).read()?;
    if !zeros(&bytes[2 + 2 * size..]) {
        return None;
    }
    Some(Fork { depth, low, high })
}
