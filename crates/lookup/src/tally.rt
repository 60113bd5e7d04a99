// Tally: points, data pages, directory pages and free pages, from the head alone.
ghost use Rattle.std.specs.Prelude.{◌≡◌, List, length};
ghost use Rattle.tree.specs.Lawful.{Lawful};
ghost use Rattle.lookup.specs.Tallying.{TallySays, TallyAny};

use crate::counts::Tally;
use access::load_head;
use kinds::kind::PointKind;
use refusal::Refusal;
use store::page_store::PageStore;

// Of the pages of a tree one more than half are data pages.
pub fn tally<K: PointKind, S: PageStore>(store: &mut S) -> Result<Tally, Refusal>
    ensures lawful { (set : List K) → Lawful K.PointKind.kind (S.PageStore.pages store.old) set → TallySays K.PointKind.kind (length (S.PageStore.pages store.old)) set result }
    ensures always { TallyAny result }
    ensures keeps { S.PageStore.pages store.new ≡ S.PageStore.pages store.old }
{
    let head = load_head::<K, S>(store)?;
    let count = store.count();
    // in 32 bits, as a tally tells them; an outline counts the same pages as places of a buffer
    let free_pages = u32::from(head.free);
    if count > 65535 || count <= usize::from(head.free) {
        return Err(Refusal::Damaged);
    }
    // a cast, as the number fits
    let tree_pages = count as u32 - 1 - free_pages;
    let points = head.root.map_or(0, |root| root.count);
    Ok(Tally {
        points,
        data_pages: (tree_pages + 1) / 2,
        directory_pages: tree_pages / 2,
        free_pages,
    })
}
