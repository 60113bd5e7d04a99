// The two halves of a directory page, as one: their points, and their entry.
ghost use Rattle.std.specs.Prelude.{◌≡◌, ◌+◌, ◌-◌, ◌≤◌, ◌++◌, length};
ghost use Rattle.page.specs.Checks.{summary};
ghost use Rattle.hand.specs.Hands.{listed};
ghost use Rattle.access.specs.Reached.{chosen};
ghost use Rattle.take.specs.Shrinking.{above_both};

use hand::points::Hand;
use kinds::kind::PointKind;
use page::directory_page::Fork;
use page::entry::Entry;

// The points of the half of a bit and those of the other half, in rising code. One choice by a bit, as of entries in two other places: a function for all three would have a body no shorter than each.
pub(crate) fn in_order<K: PointKind>(bit: u64, own: &Hand<K>, other: &Hand<K>) -> Hand<K>
    requires { length (listed own.now) + length (listed other.now) ≤ 16 }
    ensures { listed result ≡ chosen bit (listed own.now ++ listed other.now) (listed other.now ++ listed own.now) }
{
    if bit == 0 {
        own.joined(other)
    } else {
        other.joined(own)
    }
}

// The entry of two halves, with one point less than before.
pub(crate) fn narrowed<K: PointKind>(at: &Entry<K>, fork: &Fork<K>) -> Entry<K>
    requires { 1 ≤ at.now.count }
    ensures { summary K.PointKind.kind result ≡ above_both at.now.page (at.now.count - 1) (summary K.PointKind.kind fork.now.low) (summary K.PointKind.kind fork.now.high) }
{
    Entry {
        page: at.page,
        count: at.count - 1,
        low: fork.low.low.lower(&fork.high.low),
        high: fork.low.high.upper(&fork.high.high),
    }
}
