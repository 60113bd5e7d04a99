// What the hand holds.
ghost use Rattle.std.specs.Prelude.{◌≡◌, ◌≤◌, ⊤};

use crate::places::Four;
use std::alloc::AllocError;

mod calls;
mod iter;

// Some points in the hand: at most one more than a data page has room for. What asks for their codes says that they lie on their axes.
pub struct Hand<K> {
    points: Four<Four<K>>,
    count: usize,
    ghost few: { count ≤ 16 },
}

// By hand, as `Clone` cannot be derived for a generic struct with a ghost field.
impl<K: Copy> Clone for Hand<K> {
    ghost is_clone = { λ hand copy. copy ≡ hand };

    ghost is_infallible = { λ _. ⊤ };

    fn clone(&self) -> Result<Hand<K>, AllocError> {
        Ok(*self)
    }
}

impl<K: Copy> Copy for Hand<K> {}
