// The pages that a take makes free.
ghost use Rattle.std.specs.Prelude.{◌≡◌, ◌+◌, ◌<◌, length};
ghost use Rattle.std.specs.List.{AllByRecursion};
ghost use Rattle.page.specs.Checks.{root_summary};
ghost use Rattle.take.specs.Shrinking.{freed, front_of, linked, left_entry};

use crate::taken::{FreedPages, Taken};
use access::put_page;
use kinds::kind::PointKind;
use page::encode::free_page;
use page::head_page::Head;
use store::page_store::PageStore;

// Puts the pages that are free now before the chain of a head. Gives the head that the card then has.
pub(crate) fn release<K: PointKind, S: PageStore>(
    store: &mut S,
    taken: &Taken<K>,
    head: &Head<K>,
) -> Head<K>
    requires there { AllByRecursion (λ q. q < length (S.PageStore.pages store.old)) (freed taken.now) }
    requires room { head.now.free + 2 < 65536 }
    ensures first { result.first ≡ front_of (freed taken.now) head.now.first }
    ensures free { result.free ≡ length (freed taken.now) + head.now.free }
    ensures root { root_summary K.PointKind.kind result.root ≡ left_entry K.PointKind.kind taken.now }
    ensures pages { S.PageStore.pages store.new ≡ linked K.PointKind.kind (S.PageStore.pages store.old) (freed taken.now) head.now.first }
{
    match *taken {
        Taken::Gone(page) => {
            put_page(store, usize::from(page), &free_page::<K>(head.first));
            Head {
                first: page,
                free: head.free + 1,
                root: None,
            }
        }
        Taken::Left(entry, None) => Head {
            first: head.first,
            free: head.free,
            root: Some(entry),
        },
        Taken::Left(entry, Some(FreedPages { fork, leaf })) => {
            put_page(store, usize::from(leaf), &free_page::<K>(head.first));
            put_page(store, usize::from(fork), &free_page::<K>(leaf));
            Head {
                first: fork,
                free: head.free + 2,
                root: Some(entry),
            }
        }
    }
}
