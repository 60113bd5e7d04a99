// Outline: a record for each page of a draft's tree.
#![tactic(auto)]

ghost use Rattle.std.specs.Prelude.{◌≡◌, ℕ, ◌+◌, ◌≤◌, List, length, drop, Ok, MatchResult};
ghost use Rattle.refusal.specs.Numbers.{number, numbered};
ghost use Rattle.kinds.specs.Kind.{On, wide};
ghost use Rattle.page.specs.Checks.{summary};
ghost use Rattle.tree.specs.Book.{Outlines, outline as outlineOf};
ghost use Rattle.tree.specs.Laid.{Laid, shape};
ghost use Rattle.tree.specs.Lawful.{Lawful};
ghost use Rattle.access.specs.Reached.{Reached};
ghost use Rattle.outlines.specs.Records.{Wrote};
ghost use Rattle.outlines.specs.Outlining.{TreePages, OutlineAny};

use access::{load_head, load_node};
use kinds::kind::PointKind;
use page::entry::{Entry, entry_size};
use page::head_page::Head;
use page::tree_page::Node;
use record::{Sort, put_record};
use refusal::Refusal;
use store::page_store::PageStore;

mod record;

// The records of the pages that an entry leads to, from a place of the buffer on: the page, its low half's pages, its high half's. It answers the place behind them.
// The depth rises from page to page, and no record stands past `end`, else 9. Buffer, place and end are three parameters: a struct of them would be taken apart by each clause on the bytes.
fn outline_below<K: PointKind, S: PageStore>(
    store: &mut S,
    entry: Entry<K>,
    buffer: &mut [u8],
    at: usize,
    end: usize,
    above: u32,
) -> Result<usize, Refusal>
    requires low_on { On K.PointKind.kind entry.low }
    requires high_on { On K.PointKind.kind entry.high }
    requires within { end ≤ length buffer.old }
    requires before { at ≤ end }
    ensures lawful { (ps : List K) (t : Laid K) → Reached K.PointKind.kind (S.PageStore.pages store.old) ps (summary K.PointKind.kind entry) above t → above ≤ wide K.PointKind.kind → at + length (outlineOf K.PointKind.kind (shape t)) ≤ end → (result ≡ Ok (at + length (outlineOf K.PointKind.kind (shape t)))) × Wrote buffer.old at (outlineOf K.PointKind.kind (shape t)) buffer.new }
    ensures always { MatchResult result (λ next. (next ≤ end) × (drop end buffer.new ≡ drop end buffer.old)) (λ e. number e ≡ 9) }
    ensures keeps { S.PageStore.pages store.new ≡ S.PageStore.pages store.old }
{
    let next = at + entry_size::<K>();
    if next > end {
        return Err(Refusal::Damaged);
    }
    let (_bytes, node) = load_node::<K, S>(store, entry.page)?;
    let Node::Directory(fork) = node else {
        put_record(buffer, at, Sort::Data, &entry);
        return Ok(next);
    };
    if fork.depth < above {
        return Err(Refusal::Damaged);
    }
    put_record(buffer, at, Sort::Directory, &entry);
    let deeper = fork.depth + 1;
    let middle = outline_below(store, fork.low, buffer, next, end, deeper)?;
    outline_below(store, fork.high, buffer, middle, end, deeper)
}

// How many pages the tree has: those that are neither the head nor free; none where the numbers do not add up.
fn tree_pages<K: PointKind>(head: &Head<K>, count: usize) -> Option<usize>
    ensures { TreePages head.now.free count result }
{
    let free = usize::from(head.free);
    if count > 65535 || count <= free {
        return None;
    }
    Some(count - 1 - free)
}

// Writes one record for each page of the tree, from the root on. It answers the bytes written; the rest of the buffer is kept. 9, then 7 if the buffer is too short.
pub fn outline<K: PointKind, S: PageStore>(
    store: &mut S,
    buffer: &mut [u8],
) -> Result<usize, Refusal>
    ensures lawful { (set : List K) → Lawful K.PointKind.kind (S.PageStore.pages store.old) set → Outlines K.PointKind.kind (length (S.PageStore.pages store.old)) set buffer.old (numbered result) buffer.new }
    ensures always { OutlineAny buffer.old buffer.new result }
    ensures keeps { S.PageStore.pages store.new ≡ S.PageStore.pages store.old }
{
    let head = load_head::<K, S>(store)?;
    let pages = tree_pages(&head, store.count()).ok_or(Refusal::Damaged)?;
    let end = pages * entry_size::<K>();
    let Some(root) = head.root else {
        return if end == 0 {
            Ok(0)
        } else {
            Err(Refusal::Damaged)
        };
    };
    if end > buffer.len() {
        return Err(Refusal::ShortBuffer);
    }
    let next = outline_below(store, root, buffer, 0, end, 0)?;
    if next == end {
        Ok(end)
    } else {
        Err(Refusal::Damaged)
    }
}
