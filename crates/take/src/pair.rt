// A point out of two data pages below one directory page.
ghost use Rattle.std.specs.Prelude.{ℕ, ◌+◌, ◌<◌, ◌≤◌, List, length};
ghost use Rattle.kinds.specs.Kind.{On};
ghost use Rattle.tree.specs.Laid.{Laid, directory_at};
ghost use Rattle.take.specs.Shrinking.{TakeEnd, AnyEnd, Divided};

use crate::leaf::points_at;
use crate::sides::in_order;
use crate::taken::{FreedPages, Taken};
use access::{put_page, sides};
use kinds::kind::PointKind;
use page::directory_page::Fork;
use page::entry::Entry;
use refusal::Refusal;
use store::page_store::PageStore;

// Takes a point from the data pages of a directory page that has at most one point more than a data page has room for.
// Where points are left in the point's own half, both halves become one data page; else the other half takes the directory page's place.
pub(crate) fn take_pair<K: PointKind, S: PageStore>(
    store: &mut S,
    at: &Entry<K>,
    fork: &Fork<K>,
    bit: u64,
    p: &K,
) -> Result<Taken<K>, Refusal>
    requires on { On K.PointKind.kind p.now }
    requires there { at.now.page < length (S.PageStore.pages store.old) }
    ensures lawful { (ps : List K) (above : ℕ) (q : ℕ) (l h : Laid K) → Divided K.PointKind.kind (S.PageStore.pages store.old) ps at.now above fork.now bit p.now q l h → length ps ≤ K.PointKind.kind.capacity + 1 → TakeEnd K.PointKind.kind (S.PageStore.pages store.old) ps p.now (directory_at q fork.now.depth l h) result (S.PageStore.pages store.new) }
    ensures always { AnyEnd (S.PageStore.pages store.old) result (S.PageStore.pages store.new) }
{
    let (own, other) = sides(fork, bit);
    let points = points_at::<K, S>(store, own.page)?;
    let beside = points_at::<K, S>(store, other.page)?;
    if !points.holds(p) {
        return Err(Refusal::Absent);
    }
    let rest = points.without(p);
    if rest.count() == 0 {
        let freed = FreedPages {
            fork: at.page,
            leaf: own.page,
        };
        return Ok(Taken::Left(other, Some(freed)));
    }
    if rest.count() + beside.count() > K::CAPACITY {
        return Err(Refusal::Damaged);
    }
    let all = in_order(bit, &rest, &beside);
    put_page(store, usize::from(own.page), &all.page());
    let freed = FreedPages {
        fork: at.page,
        leaf: other.page,
    };
    Ok(Taken::Left(all.entry(own.page), Some(freed)))
}
