// A point out of a part of the tree.
ghost use Rattle.std.specs.Prelude.{◌≤◌, List};
ghost use Rattle.kinds.specs.Kind.{On, wide};
ghost use Rattle.page.specs.Checks.{summary};
ghost use Rattle.tree.specs.Laid.{Laid};
ghost use Rattle.take.specs.Shrinking.{TakeEnd, AnyEnd, Shrinking};

use crate::leaf::take_here;
use crate::pair::take_pair;
use crate::sides::narrowed;
use crate::taken::{FreedPages, Taken};
use access::{fork_of, load_node, put_page, sides};
use kinds::kind::PointKind;
use kinds::points::{bit, depth};
use page::encode::directory_page;
use page::entry::Entry;
use page::tree_page::Node;
use refusal::Refusal;
use store::page_store::PageStore;

// Takes a point from the part of the tree that an entry leads to, whose codes share the first `above` bits.
// What can be refused is decided on the way down; pages are written on the way up.
pub(crate) fn take_below<K: PointKind, S: PageStore>(
    store: &mut S,
    at: Entry<K>,
    p: &K,
    above: u32,
) -> Result<Taken<K>, Refusal>
    requires on { On K.PointKind.kind p.now }
    requires low_on { On K.PointKind.kind at.low }
    requires short { above ≤ wide K.PointKind.kind }
    ensures lawful { (ps : List K) (t : Laid K) → Shrinking K.PointKind.kind (S.PageStore.pages store.old) ps (summary K.PointKind.kind at) above t → TakeEnd K.PointKind.kind (S.PageStore.pages store.old) ps p.now t result (S.PageStore.pages store.new) }
    ensures always { AnyEnd (S.PageStore.pages store.old) result (S.PageStore.pages store.new) }
{
    let (bytes, node) = load_node::<K, S>(store, at.page)?;
    let Node::Directory(fork) = node else {
        return take_here(store, at.page, &bytes, p);
    };
    if fork.depth < above {
        return Err(Refusal::Damaged);
    }
    if depth(&at.low, p) < fork.depth {
        return Err(Refusal::Absent);
    }
    let side = bit(p, fork.depth);
    // no `From` makes a `usize` of a `u32`
    if at.count as usize <= K::CAPACITY + 1 {
        return take_pair(store, &at, &fork, side, p);
    }
    let (own, other) = sides(&fork, side);
    match take_below(store, own, p, fork.depth + 1)? {
        Taken::Gone(leaf) => {
            let freed = FreedPages {
                fork: at.page,
                leaf,
            };
            Ok(Taken::Left(other, Some(freed)))
        }
        Taken::Left(half, freed) => {
            let next = fork_of(fork.depth, side, &half, &other);
            // a cast, as no code has more than 60 bits
            let written = directory_page::<K>(next.depth as u8, &next.low, &next.high);
            put_page(store, usize::from(at.page), &written);
            Ok(Taken::Left(narrowed(&at, &next), freed))
        }
    }
}
