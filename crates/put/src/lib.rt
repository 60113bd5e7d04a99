// Put: a point into a draft.
#![tactic(auto)]

ghost use Rattle.std.specs.Prelude.{◌≡◌, ◌<◌, List, length, Some, None};
ghost use Rattle.kinds.specs.Kind.{On};
ghost use Rattle.page.specs.Checks.{summary};
ghost use Rattle.tree.specs.Lawful.{Lawful, front, root_entry};
ghost use Rattle.put.specs.Spares.{HeadAfter};
ghost use Rattle.put.specs.Growing.{AnyEnd};
ghost use Rattle.put.specs.Putting.{PutStep, PutAny};

use crate::insert::{Grown, insert as insert_point};
use crate::spare::{next_page, spare_pages};
use access::{load_head, put_page};
use hand::lone::{lone_entry, lone_page};
use kinds::kind::PointKind;
use page::encode::head_page;
use page::entry::Entry;
use page::head_page::Head;
use refusal::Refusal;
use store::page_store::PageStore;

mod insert;
mod spare;

// The head after a put.
fn head_after<K: PointKind>(head: &Head<K>, grown: &Grown<K>) -> Head<K>
    ensures { HeadAfter head.now grown.now result }
{
    let root = Some(grown.entry);
    match grown.used {
        Some(pages) => Head {
            first: pages.rest,
            free: pages.left,
            root,
        },
        None => Head {
            first: head.first,
            free: head.free,
            root,
        },
    }
}

// The first point of a draft: the first free page becomes its data page.
fn put_first<K: PointKind, S: PageStore>(
    store: &mut S,
    head: &Head<K>,
    p: &K,
) -> Result<(), Refusal>
    requires on { On K.PointKind.kind p.now }
    requires some { 0 < length (S.PageStore.pages store.old) }
    ensures lawful { (set : List K) (w : Lawful K.PointKind.kind (S.PageStore.pages store.old) set) → front w.chain ≡ head.now.first → length w.chain ≡ head.now.free → root_entry K.PointKind.kind w.root ≡ None → PutStep K.PointKind.kind (S.PageStore.pages store.old) set w p.now result (S.PageStore.pages store.new) }
    ensures always { AnyEnd (S.PageStore.pages store.old) result (S.PageStore.pages store.new) }
{
    if head.free == 0 {
        return Err(Refusal::Full);
    }
    let rest = next_page::<K, S>(store, head.first)?;
    put_page(store, usize::from(head.first), &lone_page(p));
    let head = Head {
        first: rest,
        free: head.free - 1,
        root: Some(lone_entry(head.first, p)),
    };
    put_page(store, 0, &head_page(&head));
    Ok(())
}

// One point more in a draft that has points. The head is written last.
fn put_more<K: PointKind, S: PageStore>(
    store: &mut S,
    head: &Head<K>,
    root: Entry<K>,
    p: &K,
) -> Result<(), Refusal>
    requires on { On K.PointKind.kind p.now }
    requires low_on { On K.PointKind.kind root.low }
    requires some { 0 < length (S.PageStore.pages store.old) }
    ensures lawful { (set : List K) (w : Lawful K.PointKind.kind (S.PageStore.pages store.old) set) → front w.chain ≡ head.now.first → length w.chain ≡ head.now.free → root_entry K.PointKind.kind w.root ≡ Some (summary K.PointKind.kind root) → PutStep K.PointKind.kind (S.PageStore.pages store.old) set w p.now result (S.PageStore.pages store.new) }
    ensures always { AnyEnd (S.PageStore.pages store.old) result (S.PageStore.pages store.new) }
{
    let spare = spare_pages(store, head)?;
    let grown = insert_point(store, root, p, spare, 0)?;
    let head = head_after(head, &grown);
    put_page(store, 0, &head_page(&head));
    Ok(())
}

// Puts a point into a draft. 3 if a coordinate is off its axis, then 9 if the card is damaged, then 4 if the point is live, then 6 if the tree with the point needs more pages than the card has.
pub fn put<K: PointKind, S: PageStore>(store: &mut S, p: &K) -> Result<(), Refusal>
    ensures lawful { (set : List K) (w : Lawful K.PointKind.kind (S.PageStore.pages store.old) set) → PutStep K.PointKind.kind (S.PageStore.pages store.old) set w p.now result (S.PageStore.pages store.new) }
    ensures always { PutAny K.PointKind.kind p.now (S.PageStore.pages store.old) (S.PageStore.pages store.new) result }
{
    if !p.on_axes() {
        return Err(Refusal::OffAxis);
    }
    let head = load_head::<K, S>(store)?;
    let root = head.root;
    match root {
        Some(root) => put_more(store, &head, root, p),
        None => put_first(store, &head, p),
    }
}
