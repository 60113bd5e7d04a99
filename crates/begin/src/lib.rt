// Begin: an empty draft on a card.
#![tactic(auto)]

ghost use Rattle.std.specs.Prelude.{◌≡◌, ℕ, ◌+◌, ◌<◌, ◌≤◌, length, if◌then◌else◌, nat_lt};
ghost use Rattle.begin.specs.Begins.{Begins};

use access::put_page;
use kinds::kind::PointKind;
use page::encode::{free_page, head_page};
use page::head_page::Head;
use refusal::Refusal;
use store::page_store::PageStore;

// Makes the card an empty draft whose free chain is 1, 2, up to the last page. Refused (1) if the store has fewer than 2 pages or more than 65,535.
pub fn begin<K: PointKind, S: PageStore>(store: &mut S) -> Result<(), Refusal>
    ensures { Begins K.PointKind.kind (S.PageStore.pages store.old) (S.PageStore.pages store.new) result }
{
    let count = store.count();
    if count < 2 || count > 65535 {
        return Err(Refusal::PageCount);
    }
    for page in 1..count {
        put_page(store, page, &free_page::<K>(next_page(page, count)));
    }
    let head = Head::<K> {
        first: 1,
        // a cast, as the number fits: `try_from` would add a refusal that never comes
        free: (count - 1) as u16,
        root: None,
    };
    put_page(store, 0, &head_page(&head));
    Ok(())
}

// The page after a page, 0 after the last.
fn next_page(page: usize, count: usize) -> u16
    requires some { 1 ≤ count }
    requires few { count ≤ 65535 }
    ensures { result ≡ (if nat_lt (page + 1) count then page + 1 else 0) }
{
    if page < count - 1 {
        // a cast, as the number fits
        (page + 1) as u16
    } else {
        0
    }
}
