// A point out of a data page.
ghost use Rattle.std.specs.Prelude.{◌≡◌, ◌<◌, ◌≤◌, List, map, length, MatchResult};
ghost use Rattle.std.specs.List.{AllByRecursion};
ghost use Rattle.refusal.specs.Numbers.{number};
ghost use Rattle.kinds.specs.Kind.{On};
ghost use Rattle.page.specs.Form.{data_view};
ghost use Rattle.page.specs.Fields.{Reads};
ghost use Rattle.tree.specs.Laid.{data_at};
ghost use Rattle.tree.specs.Lawful.{page as page_of};
ghost use Rattle.hand.specs.Hands.{listed};
ghost use Rattle.take.specs.Shrinking.{TakeEnd, AnyEnd};

use crate::taken::Taken;
use access::{load, put_page};
use hand::points::Hand;
use kinds::kind::PointKind;
use refusal::Refusal;
use store::page_store::PageStore;

// Takes a point from a data page with these bytes.
pub(crate) fn take_here<K: PointKind, S: PageStore>(
    store: &mut S,
    page: u16,
    bytes: &[u8; 64],
    p: &K,
) -> Result<Taken<K>, Refusal>
    requires on { On K.PointKind.kind p.now }
    requires there { page < length (S.PageStore.pages store.old) }
    ensures lawful { (ps : List K) → Reads K.PointKind.kind bytes.now (data_view (map K.PointKind.kind.coords ps)) → TakeEnd K.PointKind.kind (S.PageStore.pages store.old) ps p.now (data_at page ps) result (S.PageStore.pages store.new) }
    ensures always { AnyEnd (S.PageStore.pages store.old) result (S.PageStore.pages store.new) }
{
    let points = Hand::<K>::of_page(bytes).ok_or(Refusal::Damaged)?;
    if !points.holds(p) {
        return Err(Refusal::Absent);
    }
    let rest = points.without(p);
    if rest.count() == 0 {
        return Ok(Taken::Gone(page));
    }
    put_page(store, usize::from(page), &rest.page());
    Ok(Taken::Left(rest.entry(page), None))
}

// The points of a data page. 9 where the page is no data page.
pub(crate) fn points_at<K: PointKind, S: PageStore>(
    store: &mut S,
    page: u16,
) -> Result<Hand<K>, Refusal>
    ensures tells { (ps : List K) → Reads K.PointKind.kind (page_of (S.PageStore.pages store.old) page) (data_view (map K.PointKind.kind.coords ps)) → page < length (S.PageStore.pages store.old) → MatchResult result (λ h. listed h ≡ ps) (λ e. ⊥) }
    ensures sane { MatchResult result (λ h. (page < length (S.PageStore.pages store.old)) × (1 ≤ length (listed h)) × (length (listed h) ≤ K.PointKind.kind.capacity) × AllByRecursion (On K.PointKind.kind) (listed h)) (λ e. number e ≡ 9) }
    ensures keeps { S.PageStore.pages store.new ≡ S.PageStore.pages store.old }
{
    let bytes = load(store, usize::from(page))?;
    Hand::<K>::of_page(&bytes).ok_or(Refusal::Damaged)
}
