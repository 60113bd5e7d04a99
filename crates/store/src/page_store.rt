//! What a page store is.
ghost use Rattle.std.specs.Prelude.{◌≡◌, ℕ, List, length};
ghost use Rattle.store.specs.Calls.{Whole, Admitted, Read, Written};

use crate::fault::StoreFault;

/// Every page has this many bytes.
pub const PAGE_BYTES: usize = 64;

/// Pages of 64 bytes, by number. A call is refused exactly if it is not admitted (see `admit`), and then changes nothing.
pub trait PageStore {
    // the pages, each the list of its bytes
    ghost pages: { Self → List (List ℕ) };

    /// The number of pages, which no call changes. Each of them has 64 bytes.
    fn count(&self) -> usize
        ensures gives { result ≡ length (pages self.now) }
        ensures whole { Whole (pages self.now) };

    /// Copies a page into the buffer. The store may change its own state, and no page.
    fn read(&mut self, page: usize, buf: &mut [u8]) -> Result<(), StoreFault>
        ensures gives { Read (pages self.old) page buf.old buf.new result }
        ensures keeps { pages self.new ≡ pages self.old };

    /// Writes the buffer over a page, and keeps every other page.
    fn write(&mut self, page: usize, buf: &[u8]) -> Result<(), StoreFault>
        ensures gives { Written (pages self.old) (pages self.new) page buf.now result };
}

/// The rule of every call, for a store of `count` pages and a buffer of `len` bytes: the page is below the count, and the
/// buffer has 64 bytes. Where neither holds, the missing page is told.
pub fn admit(count: usize, page: usize, len: usize) -> Result<(), StoreFault>
    ensures gives { Admitted count page len result }
{
    if page >= count {
        return Err(StoreFault::NoPage(page));
    }
    if len != PAGE_BYTES {
        return Err(StoreFault::BadBuffer(page));
    }
    Ok(())
}
