// Whole pages of a card: loading, reading and writing them.
#![tactic(auto)]

ghost use Rattle.std.specs.Prelude.{◌≡◌, ℕ, ◌<◌, List, length, Some, MatchResult, slice_set};
ghost use Rattle.refusal.specs.Numbers.{number};
ghost use Rattle.page.specs.Checks.{HeadRead, NodeRead};
ghost use Rattle.page.specs.Fields.{Reads};
ghost use Rattle.tree.specs.Laid.{Laid};
ghost use Rattle.tree.specs.Lawful.{Lawful, page as page_of};
ghost use Rattle.tree.specs.Standing.{view_of};
ghost use Rattle.access.specs.Loading.{HeadOf};
ghost use Rattle.access.specs.Reached.{chosen};

use kinds::kind::PointKind;
use page::directory_page::Fork;
use page::entry::Entry;
use page::head_page::{Head, read_head};
use page::tree_page::{Node, read_node};
use refusal::Refusal;
use store::page_store::PageStore;

// The bytes of a page. A number of no page is answered 9.
pub fn load<S: PageStore>(store: &mut S, page: usize) -> Result<[u8; 64], Refusal>
    ensures gives { MatchResult result (λ bytes. (page < length (S.PageStore.pages store.old)) × (bytes ≡ page_of (S.PageStore.pages store.old) page)) (λ e. (number e ≡ 9) × (page < length (S.PageStore.pages store.old) → ⊥)) }
    ensures keeps { S.PageStore.pages store.new ≡ S.PageStore.pages store.old }
{
    let mut bytes = [0; 64];
    store.read(page, &mut bytes).map_err(|_| Refusal::Damaged)?;
    Ok(bytes)
}

// The head of a card, which a lawful card has. 9 where page 0 is no head.
pub fn load_head<K: PointKind, S: PageStore>(store: &mut S) -> Result<Head<K>, Refusal>
    ensures reads { MatchResult result (λ head. (0 < length (S.PageStore.pages store.old)) × HeadRead K.PointKind.kind (page_of (S.PageStore.pages store.old) 0) (Some head)) (λ e. number e ≡ 9) }
    ensures lawful { (set : List K) (w : Lawful K.PointKind.kind (S.PageStore.pages store.old) set) → MatchResult result (HeadOf K.PointKind.kind (S.PageStore.pages store.old) set w) (λ e. ⊥) }
    ensures keeps { S.PageStore.pages store.new ≡ S.PageStore.pages store.old }
{
    let bytes = load(store, 0)?;
    Ok(read_head::<K>(0, &bytes)?)
}

// A page of the tree, with its bytes. 9 where it is none; a page that shows a part of the tree is one.
pub fn load_node<K: PointKind, S: PageStore>(
    store: &mut S,
    page: u16,
) -> Result<([u8; 64], Node<K>), Refusal>
    ensures reads { MatchResult result (λ x. (page < length (S.PageStore.pages store.old)) × (x.0 ≡ page_of (S.PageStore.pages store.old) page) × NodeRead K.PointKind.kind x.0 x.1) (λ e. number e ≡ 9) }
    ensures shown { (t : Laid K) → page < length (S.PageStore.pages store.old) → Reads K.PointKind.kind (page_of (S.PageStore.pages store.old) page) (view_of K.PointKind.kind t) → MatchResult result (λ x. Unit {0}) (λ e. ⊥) }
    ensures keeps { S.PageStore.pages store.new ≡ S.PageStore.pages store.old }
{
    let bytes = load(store, usize::from(page))?;
    let node = read_node::<K>(usize::from(page), &bytes)?;
    Ok((bytes, node))
}

// Writes a page that the store has.
pub fn put_page<S: PageStore>(store: &mut S, page: usize, bytes: &[u8; 64])
    requires { page < length (S.PageStore.pages store.old) }
    ensures { S.PageStore.pages store.new ≡ slice_set (S.PageStore.pages store.old) page bytes.now }
{
    let _ = store.write(page, bytes);
}

// The entry of the half of a bit, and that of the other half. The half is told by the bit of the code that chooses it: an enum would be made of that bit for the call.
pub fn sides<K: PointKind>(fork: &Fork<K>, bit: u64) -> (Entry<K>, Entry<K>)
    ensures own { result.0 ≡ chosen bit fork.now.low fork.now.high }
    ensures other { result.1 ≡ chosen bit fork.now.high fork.now.low }
{
    if bit == 0 {
        (fork.low, fork.high)
    } else {
        (fork.high, fork.low)
    }
}

// The directory page with an entry in the half of a bit, and another in the other half.
pub fn fork_of<K: PointKind>(depth: u32, bit: u64, own: &Entry<K>, other: &Entry<K>) -> Fork<K>
    ensures depth { result.depth ≡ depth }
    ensures low { result.low ≡ chosen bit own.now other.now }
    ensures high { result.high ≡ chosen bit other.now own.now }
{
    let (low, high) = if bit == 0 {
        (*own, *other)
    } else {
        (*other, *own)
    };
    Fork { depth, low, high }
}
