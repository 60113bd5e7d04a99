// The walk through a window: only pages whose entries meet it are read, each at most once.
ghost use Rattle.std.specs.Prelude.{◌≡◌, ℕ, ◌+◌, ◌^◌, ◌<◌, ◌≤◌, List, [], ◌++◌, map, length, IfOk, IfErr, MatchBool, MatchResult, OnOk};
ghost use Rattle.refusal.specs.Numbers.{number};
ghost use Rattle.page.specs.Checks.{IsData, NodeRead, summary};
ghost use Rattle.page.specs.Fields.{Reads};
ghost use Rattle.page.specs.Form.{data_view};
ghost use Rattle.tree.specs.Book.{windowed};
ghost use Rattle.tree.specs.Laid.{Laid, numbers};
ghost use Rattle.tree.specs.Lawful.{Lawful, page as page_of};
ghost use Rattle.tree.specs.Standing.{view_of};
ghost use Rattle.scan.specs.Walking.{Walked, Below};

use crate::gather::Gather;
use crate::whole::WholeWindow;
use access::{load_head, load_node};
use kinds::kind::PointKind;
use page::data_page::DataView;
use page::entry::Entry;
use page::tree_page::Node;
use refusal::Refusal;
use store::page_store::PageStore;

// The points of a data page that lie in the window. What is gathered and the caller's buffer are two loans here and below: one struct of both would only be taken apart again in each clause.
fn gather_page<K: PointKind, G: Gather<K>>(
    bytes: &[u8; 64],
    window: &WholeWindow<K>,
    gather: &mut G,
    buffer: &mut [K],
) -> Result<(), Refusal>
    requires { IsData K.PointKind.kind bytes.now }
    ensures lawful { (points : List K) → Reads K.PointKind.kind bytes.now (data_view (map K.PointKind.kind.coords points)) → (before xs : List K) → length (xs ++ windowed K.PointKind.kind window.now.corners.low window.now.corners.high points) < 2 ^ 32 → G.Gather.met gather.old before buffer.old xs → MatchResult result (λ _. G.Gather.met gather.new before buffer.new (xs ++ windowed K.PointKind.kind window.now.corners.low window.now.corners.high points)) (λ e. ⊥) }
    ensures always { (before : List K) → G.Gather.fair gather.old window.now.corners.low window.now.corners.high before buffer.old → OnOk result (G.Gather.fair gather.new window.now.corners.low window.now.corners.high before buffer.new) }
    ensures refused { IfErr result (λ e. number e ≡ 9) }
    ensures same { G.Gather.passes gather.new ≡ G.Gather.passes gather.old }
{
    let view = DataView::<K>::over(bytes);
    // by its place, as a view answers for one place: an iterator over its points would be one more type with its laws, for two loops
    for i in 0..view.count() {
        let p = view.point(i).ok_or(Refusal::Damaged)?;
        if window.corners.holds(&p) {
            gather.point(&p, buffer)?;
        }
    }
    Ok(())
}

// Whether the pages that an entry leads to can be passed over: no further point is wanted, none lies in the window, or all lie in it and their number is enough.
fn passed<K: PointKind, G: Gather<K>>(
    entry: &Entry<K>,
    window: &WholeWindow<K>,
    gather: &mut G,
    places: usize,
) -> Result<bool, Refusal>
    ensures lawful { (ps : List K) → Below K.PointKind.kind ps (summary K.PointKind.kind entry.now) → (before buffer xs : List K) → length buffer ≡ places → length (xs ++ windowed K.PointKind.kind window.now.corners.low window.now.corners.high ps) < 2 ^ 32 → G.Gather.met gather.old before buffer xs → MatchResult result (λ b. MatchBool b (G.Gather.met gather.new before buffer (xs ++ windowed K.PointKind.kind window.now.corners.low window.now.corners.high ps)) (G.Gather.met gather.new before buffer xs)) (λ e. ⊥) }
    ensures always { (before buffer : List K) → length buffer ≡ places → G.Gather.fair gather.old window.now.corners.low window.now.corners.high before buffer → IfOk result (λ b. G.Gather.fair gather.new window.now.corners.low window.now.corners.high before buffer) }
    ensures refused { IfErr result (λ e. number e ≡ 9) }
    ensures same { G.Gather.passes gather.new ≡ G.Gather.passes gather.old }
{
    if gather.done() || !window.corners.meets(&entry.low, &entry.high) {
        return Ok(true);
    }
    if window.corners.covers(&entry.low, &entry.high) {
        return gather.unread(entry.count, places);
    }
    Ok(false)
}

// A page of the tree with its bytes, for one of the reads that are left.
fn spend<K: PointKind, S: PageStore>(
    store: &mut S,
    page: u16,
    left: &mut usize,
) -> Result<([u8; 64], Node<K>), Refusal>
    ensures reads { MatchResult result (λ x. (x.0 ≡ page_of (S.PageStore.pages store.old) page) × NodeRead K.PointKind.kind x.0 x.1 × (left.old ≡ left.new + 1)) (λ e. number e ≡ 9) }
    ensures shown { (t : Laid K) → page < length (S.PageStore.pages store.old) → Reads K.PointKind.kind (page_of (S.PageStore.pages store.old) page) (view_of K.PointKind.kind t) → 1 ≤ left.old → MatchResult result (λ x. Unit {0}) (λ e. ⊥) }
    ensures keeps { S.PageStore.pages store.new ≡ S.PageStore.pages store.old }
{
    if *left == 0 {
        return Err(Refusal::Damaged);
    }
    *left -= 1;
    load_node::<K, S>(store, page)
}

// The points of the window below an entry. The depth rises from page to page, and no more pages are read than are left, else 9.
pub(crate) fn walk<K: PointKind, S: PageStore, G: Gather<K>>(
    store: &mut S,
    entry: Entry<K>,
    window: &WholeWindow<K>,
    gather: &mut G,
    buffer: &mut [K],
    above: u32,
    left: &mut usize,
) -> Result<(), Refusal>
    ensures lawful { (ps : List K) (t : Laid K) → Walked K.PointKind.kind (S.PageStore.pages store.old) ps t (summary K.PointKind.kind entry) above left.old → (before xs : List K) → length (xs ++ windowed K.PointKind.kind window.now.corners.low window.now.corners.high ps) < 2 ^ 32 → G.Gather.met gather.old before buffer.old xs → MatchResult result (λ _. G.Gather.met gather.new before buffer.new (xs ++ windowed K.PointKind.kind window.now.corners.low window.now.corners.high ps) × (left.old ≤ left.new + length (numbers t))) (λ e. ⊥) }
    ensures always { (before : List K) → G.Gather.fair gather.old window.now.corners.low window.now.corners.high before buffer.old → OnOk result (G.Gather.fair gather.new window.now.corners.low window.now.corners.high before buffer.new) }
    ensures refused { IfErr result (λ e. number e ≡ 9) }
    ensures same { G.Gather.passes gather.new ≡ G.Gather.passes gather.old }
    ensures keeps { S.PageStore.pages store.new ≡ S.PageStore.pages store.old }
{
    if passed(&entry, window, gather, buffer.len())? {
        return Ok(());
    }
    let (bytes, node) = spend::<K, S>(store, entry.page, left)?;
    let Node::Directory(fork) = node else {
        return gather_page(&bytes, window, gather, buffer);
    };
    if fork.depth < above {
        return Err(Refusal::Damaged);
    }
    let next = fork.depth + 1;
    walk(store, fork.low, window, gather, buffer, next, left)?;
    walk(store, fork.high, window, gather, buffer, next, left)
}

// The points of a window, from the root of a draft. With the head at most as many pages are read as the card has.
pub(crate) fn scan<K: PointKind, S: PageStore, G: Gather<K>>(
    store: &mut S,
    window: &WholeWindow<K>,
    gather: &mut G,
    buffer: &mut [K],
) -> Result<(), Refusal>
    ensures lawful { (set : List K) → Lawful K.PointKind.kind (S.PageStore.pages store.old) set → (before : List K) → G.Gather.met gather.old before buffer.old [] → MatchResult result (λ _. G.Gather.met gather.new before buffer.new (windowed K.PointKind.kind window.now.corners.low window.now.corners.high set)) (λ e. ⊥) }
    ensures always { (before : List K) → G.Gather.fair gather.old window.now.corners.low window.now.corners.high before buffer.old → OnOk result (G.Gather.fair gather.new window.now.corners.low window.now.corners.high before buffer.new) }
    ensures refused { IfErr result (λ e. number e ≡ 9) }
    ensures same { G.Gather.passes gather.new ≡ G.Gather.passes gather.old }
    ensures keeps { S.PageStore.pages store.new ≡ S.PageStore.pages store.old }
{
    let head = load_head::<K, S>(store)?;
    let Some(root) = head.root else {
        return Ok(());
    };
    let count = store.count();
    let mut left = count.saturating_sub(1);
    walk(store, root, window, gather, buffer, 0, &mut left)
}
