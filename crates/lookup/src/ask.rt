// Ask: whether a point is live. It reads the head and the way of the point, each page once.
ghost use Rattle.std.specs.Prelude.{◌≡◌, ℕ, ◌<◌, List, length, Ok};
ghost use Rattle.refusal.specs.Numbers.{number, numbered};
ghost use Rattle.zorder.specs.Code.{first, bit_at};
ghost use Rattle.kinds.specs.Kind.{On, wide, code_of};
ghost use Rattle.tree.specs.Sets.{live};
ghost use Rattle.tree.specs.Laid.{Laid, number as number_of};
ghost use Rattle.tree.specs.Lawful.{Lawful};
ghost use Rattle.tree.specs.Standing.{Standing};
ghost use Rattle.tree.specs.Book.{Asks};
ghost use Rattle.lookup.specs.Asking.{Leads, FoundOr9, AskAny};

use access::{load_head, load_node, sides};
use kinds::kind::PointKind;
use kinds::points::{bit, depth};
use page::data_page::DataView;
use page::directory_page::Fork;
use page::tree_page::Node;
use refusal::Refusal;
use store::page_store::PageStore;

// Where the way of a point goes from a directory page; none where the point does not share its first bits.
fn onward<K: PointKind>(fork: &Fork<K>, p: &K) -> Option<u16>
    requires on { On K.PointKind.kind p.now }
    requires corner_on { On K.PointKind.kind fork.now.low.low }
    requires shallow { fork.now.depth < wide K.PointKind.kind }
    ensures { Leads K.PointKind.kind fork.now p.now result }
{
    if depth(&fork.low.low, p) < fork.depth {
        return None;
    }
    let (own, _other) = sides(fork, bit(p, fork.depth));
    Some(own.page)
}

// The way of a point from a page on, at most one turn for each bit and one more.
fn walk<K: PointKind, S: PageStore>(store: &mut S, start: u16, p: &K) -> Result<bool, Refusal>
    requires { On K.PointKind.kind p.now }
    ensures lawful { (ps : List K) (t : Laid K) → Standing K.PointKind.kind (S.PageStore.pages store.old) ps t → number_of t ≡ start → result ≡ Ok (live (code_of K.PointKind.kind) p.now ps) }
    ensures always { FoundOr9 result }
    ensures keeps { S.PageStore.pages store.new ≡ S.PageStore.pages store.old }
{
    let mut page = start;
    for _turn in 0..K::BITS + 1 {
        let (bytes, node) = load_node::<K, S>(store, page)?;
        let Node::Directory(fork) = node else {
            return Ok(DataView::<K>::over(&bytes).holds(p));
        };
        let Some(next) = onward(&fork, p) else {
            return Ok(false);
        };
        page = next;
    }
    Err(Refusal::Damaged)
}

// Whether a point is live. 3 if a coordinate is off its axis, then 9 if the card is damaged.
pub fn ask<K: PointKind, S: PageStore>(store: &mut S, p: &K) -> Result<bool, Refusal>
    ensures lawful { (set : List K) → Lawful K.PointKind.kind (S.PageStore.pages store.old) set → Asks K.PointKind.kind (length (S.PageStore.pages store.old)) set p.now (numbered result) }
    ensures always { AskAny K.PointKind.kind p.now result }
    ensures keeps { S.PageStore.pages store.new ≡ S.PageStore.pages store.old }
{
    if !p.on_axes() {
        return Err(Refusal::OffAxis);
    }
    let head = load_head::<K, S>(store)?;
    let Some(root) = head.root else {
        return Ok(false);
    };
    walk(store, root.page, p)
}
