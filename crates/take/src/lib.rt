// Take: a point out of a draft.
#![tactic(auto)]

ghost use Rattle.std.specs.Prelude.{List};
ghost use Rattle.tree.specs.Lawful.{Lawful};
ghost use Rattle.take.specs.Taking.{TakeStep, TakeAny};

use crate::below::take_below;
use crate::release::release;
use access::{load_head, put_page};
use kinds::kind::PointKind;
use page::encode::head_page;
use refusal::Refusal;
use store::page_store::PageStore;

mod below;
mod leaf;
mod pair;
mod release;
mod sides;
mod taken;

// Takes a point out of the draft. 3 if a coordinate is off its axis, then 9 if the card is damaged, then 5 if the point is not live.
// It changes the head, pages of the point's way and the page beside its last; pages that are free then stand before the free chain.
pub fn take<K: PointKind, S: PageStore>(store: &mut S, p: &K) -> Result<(), Refusal>
    ensures lawful { (set : List K) (w : Lawful K.PointKind.kind (S.PageStore.pages store.old) set) → TakeStep K.PointKind.kind (S.PageStore.pages store.old) set w p.now result (S.PageStore.pages store.new) }
    ensures always { TakeAny K.PointKind.kind p.now (S.PageStore.pages store.old) (S.PageStore.pages store.new) result }
{
    if !p.on_axes() {
        return Err(Refusal::OffAxis);
    }
    let head = load_head::<K, S>(store)?;
    let root = head.root.ok_or(Refusal::Absent)?;
    // two more pages may become free, and their number has two bytes
    if head.free > u16::MAX - 2 {
        return Err(Refusal::Damaged);
    }
    let taken = take_below(store, root, p, 0)?;
    let next = release(store, &taken, &head);
    put_page(store, 0, &head_page::<K>(&next));
    Ok(())
}
