//! Work on whole pages of any store.
ghost use Rattle.store.specs.Copies.{Copied, Cleared};

use crate::fault::StoreFault;
use crate::page_store::{PAGE_BYTES, PageStore};

/// Copies one page over another. A page that is not there is refused, the page to read from before the page to write to, and then
/// every page is kept.
pub fn copy_page<S: PageStore>(store: &mut S, from: usize, to: usize) -> Result<(), StoreFault>
    ensures gives { Copied (S.PageStore.pages store.old) (S.PageStore.pages store.new) from to result }
{
    let mut page = [0u8; PAGE_BYTES];
    store.read(from, &mut page)?;
    store.write(to, &page)
}

/// Fills a page with zero bytes. A page that is not there is refused, and then every page is kept.
pub fn clear_page<S: PageStore>(store: &mut S, page: usize) -> Result<(), StoreFault>
    ensures gives { Cleared (S.PageStore.pages store.old) (S.PageStore.pages store.new) page result }
{
    store.write(page, &[0u8; PAGE_BYTES])
}
