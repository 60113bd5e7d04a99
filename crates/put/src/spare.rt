// The free pages that a put may use.
ghost use Rattle.std.specs.Prelude.{◌≡◌, ℕ, ◌<◌, List, length, MatchResult};
ghost use Rattle.std.specs.List.{AllByRecursion};
ghost use Rattle.refusal.specs.Numbers.{number};
ghost use Rattle.page.specs.Form.{free_view};
ghost use Rattle.page.specs.Fields.{Reads};
ghost use Rattle.tree.specs.Lawful.{page as page_of, front, Lawful};
ghost use Rattle.put.specs.Spares.{spares, SpareOf};

use access::load;
use kinds::kind::PointKind;
use page::free_page::next_free;
use page::head_page::Head;
use refusal::Refusal;
use store::page_store::PageStore;

// A put into a draft that has points uses this many free pages, or none.
const PAIR: u16 = 2;

// Two free pages at hand: one for a new directory page and one for a new data page.
#[derive(Clone, Copy)]
pub(crate) struct Spare {
    pub(crate) fork: u16,
    pub(crate) leaf: u16,
    // the first free page behind them, 0 if none
    pub(crate) rest: u16,
    // how many pages are free behind them
    pub(crate) left: u16,
}

// The page that follows a free page in the chain. 9 where the page is no free page.
pub(crate) fn next_page<K: PointKind, S: PageStore>(
    store: &mut S,
    page: u16,
) -> Result<u16, Refusal>
    ensures gives { MatchResult result (λ next. (page < length (S.PageStore.pages store.old)) × Reads K.PointKind.kind (page_of (S.PageStore.pages store.old) page) (free_view next)) (λ e. (number e ≡ 9) × ((next : ℕ) → Reads K.PointKind.kind (page_of (S.PageStore.pages store.old) page) (free_view next) → ⊥)) }
    ensures keeps { S.PageStore.pages store.new ≡ S.PageStore.pages store.old }
{
    let bytes = load(store, usize::from(page))?;
    Ok(next_free::<K>(usize::from(page), &bytes)?)
}

// The first two free pages, none where fewer than two are free.
pub(crate) fn spare_pages<K: PointKind, S: PageStore>(
    store: &mut S,
    head: &Head<K>,
) -> Result<Option<Spare>, Refusal>
    ensures lawful { (set : List K) (w : Lawful K.PointKind.kind (S.PageStore.pages store.old) set) → front w.chain ≡ head.now.first → length w.chain ≡ head.now.free → SpareOf w.chain result }
    ensures always { MatchResult result (λ o. AllByRecursion (λ q. q < length (S.PageStore.pages store.old)) (spares o)) (λ e. number e ≡ 9) }
    ensures keeps { S.PageStore.pages store.new ≡ S.PageStore.pages store.old }
{
    if head.free < PAIR {
        return Ok(None);
    }
    let leaf = next_page::<K, S>(store, head.first)?;
    let rest = next_page::<K, S>(store, leaf)?;
    Ok(Some(Spare {
        fork: head.first,
        leaf,
        rest,
        left: head.free - PAIR,
    }))
}
