// A point into a part of the tree. On the way down pages are read and all that can be refused is decided; pages are written on the way up.
ghost use Rattle.std.specs.Prelude.{◌≡◌, ℕ, ◌+◌, ◌^◌, ◌<◌, ◌≤◌, List, length, Some};
ghost use Rattle.std.specs.List.{AllByRecursion};
ghost use Rattle.kinds.specs.Kind.{On, wide};
ghost use Rattle.page.specs.Form.{directory_view, encode};
ghost use Rattle.page.specs.Checks.{summary};
ghost use Rattle.tree.specs.Laid.{Laid, data_at};
ghost use Rattle.access.specs.Reached.{chosen};
ghost use Rattle.hand.specs.Hands.{listed};
ghost use Rattle.put.specs.Spares.{spares};
ghost use Rattle.put.specs.Growing.{widened, card_beside, Mixed, Split, Growing, PutEnd, AnyEnd};

use crate::spare::Spare;
use access::{fork_of, load_node, put_page, sides};
use hand::lone::{lone_entry, lone_page};
use hand::points::Hand;
use kinds::kind::PointKind;
use kinds::points::{bit as bit_of, depth};
use page::encode::directory_page;
use page::entry::Entry;
use page::tree_page::Node;
use refusal::Refusal;
use store::page_store::PageStore;

// What a part of the tree has become: its entry, and the two pages at hand if they are used.
#[derive(Clone, Copy)]
pub(crate) struct Grown<K> {
    pub(crate) entry: Entry<K>,
    pub(crate) used: Option<Spare>,
}

// The entry of a part with one point more, which begins at `page` now.
fn widen<K: PointKind>(page: u16, at: &Entry<K>, p: &K) -> Entry<K>
    requires { at.now.count + 1 < 2 ^ 32 }
    ensures { summary K.PointKind.kind result ≡ widened K.PointKind.kind page p.now (summary K.PointKind.kind at.now) }
{
    Entry {
        page,
        count: at.count + 1,
        low: p.lower(&at.low),
        high: p.upper(&at.high),
    }
}

// A directory page with an entry in the half of a bit, and another in the other half. A take needs the fork too, for the entry above.
fn fork_page<K: PointKind>(depth: u32, bit: u64, own: &Entry<K>, other: &Entry<K>) -> [u8; 64]
    requires { depth < wide K.PointKind.kind }
    ensures { result ≡ encode K.PointKind.kind (directory_view depth (chosen bit (summary K.PointKind.kind own.now) (summary K.PointKind.kind other.now)) (chosen bit (summary K.PointKind.kind other.now) (summary K.PointKind.kind own.now))) }
{
    let fork = fork_of(depth, bit, own, other);
    // a cast, as no code has more than 60 bits
    directory_page(fork.depth as u8, &fork.low, &fork.high)
}

// Splits points at their depth: `page` keeps the low half, and the pages at hand become the data page of the high half and the directory page of both.
fn split<K: PointKind, S: PageStore>(
    store: &mut S,
    points: &Hand<K>,
    page: u16,
    spare: Spare,
) -> Grown<K>
    requires on { AllByRecursion (On K.PointKind.kind) (listed points.now) }
    requires few { length (listed points.now) ≤ K.PointKind.kind.capacity + 1 }
    requires some { 1 ≤ length (listed points.now) }
    requires mixed { Mixed K.PointKind.kind (listed points.now) }
    requires there { page < length (S.PageStore.pages store.old) }
    requires fork_there { spare.fork < length (S.PageStore.pages store.old) }
    requires leaf_there { spare.leaf < length (S.PageStore.pages store.old) }
    ensures { Split K.PointKind.kind (S.PageStore.pages store.old) (listed points.now) page spare result (S.PageStore.pages store.new) }
{
    let whole = points.entry(spare.fork);
    let depth = depth(&whole.low, &whole.high);
    let low = points.half(depth, 0);
    let high = points.half(depth, 1);
    put_page(store, usize::from(page), &low.page());
    put_page(store, usize::from(spare.leaf), &high.page());
    let fork = fork_page(depth, 0, &low.entry(page), &high.entry(spare.leaf));
    put_page(store, usize::from(spare.fork), &fork);
    Grown {
        entry: whole,
        used: Some(spare),
    }
}

// Puts p into a data page with these points. A full page is split.
fn put_here<K: PointKind, S: PageStore>(
    store: &mut S,
    points: &Hand<K>,
    at: &Entry<K>,
    p: &K,
    spare: Option<Spare>,
) -> Result<Grown<K>, Refusal>
    requires on { On K.PointKind.kind p.now }
    requires all_on { AllByRecursion (On K.PointKind.kind) (listed points.now) }
    requires few { length (listed points.now) ≤ K.PointKind.kind.capacity }
    requires there { at.now.page < length (S.PageStore.pages store.old) }
    requires spare_there { AllByRecursion (λ q. q < length (S.PageStore.pages store.old)) (spares spare) }
    ensures lawful { (ps : List K) (above q : ℕ) → Growing K.PointKind.kind (S.PageStore.pages store.old) ps (summary K.PointKind.kind at.now) spare above (data_at q (listed points.now)) → PutEnd K.PointKind.kind (S.PageStore.pages store.old) ps p.now spare (data_at q (listed points.now)) result (S.PageStore.pages store.new) }
    ensures always { AnyEnd (S.PageStore.pages store.old) result (S.PageStore.pages store.new) }
{
    if points.holds(p) {
        return Err(Refusal::Live);
    }
    let all = points.with(p);
    if points.count() < K::CAPACITY {
        put_page(store, usize::from(at.page), &all.page());
        return Ok(Grown {
            entry: all.entry(at.page),
            used: None,
        });
    }
    let pages = spare.ok_or(Refusal::Full)?;
    Ok(split(store, &all, at.page, pages))
}

// Puts p beside a tree with which it shares `shared` first bits, fewer than the tree's own: a new directory page above both, and a new data page with p alone.
fn put_beside<K: PointKind, S: PageStore>(
    store: &mut S,
    at: &Entry<K>,
    shared: u32,
    p: &K,
    spare: Spare,
) -> Grown<K>
    requires on { On K.PointKind.kind p.now }
    requires few { at.now.count + 1 < 2 ^ 32 }
    requires short { shared < wide K.PointKind.kind }
    requires fork_there { spare.fork < length (S.PageStore.pages store.old) }
    requires leaf_there { spare.leaf < length (S.PageStore.pages store.old) }
    ensures entry { summary K.PointKind.kind result.entry ≡ widened K.PointKind.kind spare.fork p.now (summary K.PointKind.kind at.now) }
    ensures used { result.used ≡ Some spare }
    ensures written { S.PageStore.pages store.new ≡ card_beside K.PointKind.kind (S.PageStore.pages store.old) spare shared p.now (summary K.PointKind.kind at.now) }
{
    let alone = lone_entry(spare.leaf, p);
    let fork = fork_page(shared, bit_of(p, shared), &alone, at);
    put_page(store, usize::from(spare.leaf), &lone_page(p));
    put_page(store, usize::from(spare.fork), &fork);
    Grown {
        entry: widen(spare.fork, at, p),
        used: Some(spare),
    }
}

// Puts p into the part of the tree that an entry leads to, whose codes share the first `above` bits.
pub(crate) fn insert<K: PointKind, S: PageStore>(
    store: &mut S,
    at: Entry<K>,
    p: &K,
    spare: Option<Spare>,
    above: u32,
) -> Result<Grown<K>, Refusal>
    requires on { On K.PointKind.kind p.now }
    requires low_on { On K.PointKind.kind at.low }
    requires short { above ≤ wide K.PointKind.kind }
    requires spare_there { AllByRecursion (λ q. q < length (S.PageStore.pages store.old)) (spares spare) }
    ensures lawful { (ps : List K) (t : Laid K) → Growing K.PointKind.kind (S.PageStore.pages store.old) ps (summary K.PointKind.kind at) spare above t → PutEnd K.PointKind.kind (S.PageStore.pages store.old) ps p.now spare t result (S.PageStore.pages store.new) }
    ensures always { AnyEnd (S.PageStore.pages store.old) result (S.PageStore.pages store.new) }
{
    if at.count == u32::MAX {
        return Err(Refusal::Damaged);
    }
    let (bytes, node) = load_node::<K, S>(store, at.page)?;
    let Node::Directory(fork) = node else {
        let points = Hand::<K>::of_page(&bytes).ok_or(Refusal::Damaged)?;
        return put_here(store, &points, &at, p, spare);
    };
    if fork.depth < above {
        return Err(Refusal::Damaged);
    }
    let shared = depth(&at.low, p);
    if shared < fork.depth {
        let pages = spare.ok_or(Refusal::Full)?;
        return Ok(put_beside(store, &at, shared, p, pages));
    }
    let bit = bit_of(p, fork.depth);
    let (half, other) = sides(&fork, bit);
    let grown = insert(store, half, p, spare, fork.depth + 1)?;
    let page = fork_page(fork.depth, bit, &grown.entry, &other);
    put_page(store, usize::from(at.page), &page);
    Ok(Grown {
        entry: widen(at.page, &at, p),
        used: grown.used,
    })
}
