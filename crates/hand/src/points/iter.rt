// The points in the hand, one after another.
ghost use Rattle.std.specs.Iterator.{YieldsFirst, item_count};
ghost use Rattle.hand.specs.Hands.{left};

use crate::points::Hand;
use kinds::kind::PointKind;

// The points from a place on.
#[derive(Drop)]
pub(crate) struct Points<'a, K: PointKind> {
    pub(crate) hand: &'a Hand<K>,
    pub(crate) next: usize,
}

impl<'a, K: PointKind> Iterator for Points<'a, K> {
    type Item = K;

    ghost next_gives = { YieldsFirst left };

    ghost remaining = { item_count left };

    fn next(&mut self) -> Option<K> {
        if self.next >= self.hand.count {
            return None;
        }
        let point = self.hand.point(self.next);
        self.next += 1;
        Some(point)
    }
}
