// Free pages: kind 0, and the number of the next free page.
ghost use Rattle.std.specs.Prelude.{◌≡◌, ℕ, [], ◌∷◌, length, slice_index};
ghost use Rattle.page.specs.Form.{free_view};
ghost use Rattle.page.specs.Fields.{Reads};
ghost use Rattle.page.specs.Checks.{Checked, FreeRead};

use crate::fault::PageFault;
use crate::zeros::zeros;
use kinds::kind::PointKind;

// The number of the next free page on a free page, 0 for the last one.
pub fn next_free<K: PointKind>(page: usize, bytes: &[u8; 64]) -> Result<u16, PageFault>
    ensures { Checked K.PointKind.kind page (0 ∷ []) bytes.now (λ next. Reads K.PointKind.kind bytes.now (free_view next)) result }
{
    if bytes[0] != 0 {
        return Err(PageFault::Kind(page));
    }
    free_fields::<K>(bytes).ok_or(PageFault::Field(page))
}

// The next free page, given that the kind of the bytes is that of a free page; none where a byte that must be zero is not.
fn free_fields<K: PointKind>(bytes: &[u8; 64]) -> Option<u16>
    requires { slice_index bytes.now 0 ≡ 0 }
    ensures { FreeRead K.PointKind.kind bytes.now result }
{
    if !zeros(&bytes[3..]) {
        return None;
    }
    Some(u16::from_le_bytes([bytes[1], bytes[2]]))
}
