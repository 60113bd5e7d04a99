//! A page store on two boards.
ghost use Rattle.std.specs.Prelude.{◌≡◌, ◌/◌, length};
ghost use Rattle.store.specs.Calls.{Read, Written};
ghost use Rattle.store.specs.Stores.{on_boards, past_boards};
ghost use Rattle.store.specs.Twins.{twin_pages, weave};

use crate::fault::StoreFault;
use crate::page_store::{PageStore, admit};

/// A board holds half of every page.
const HALF_BYTES: usize = 32;

/// The even bytes of every page stand in a row on one board, the odd bytes on the other. A page is there if both boards have its
/// half. Bytes past the last such half are never written, whole halves of the longer board included.
#[derive(Drop)]
pub struct TwinBoards {
    even: Vec<u8>,
    odd: Vec<u8>,
}

impl TwinBoards {
    /// A store over any two boards, with as many pages as the shorter one has whole halves.
    pub fn new(even: Vec<u8>, odd: Vec<u8>) -> TwinBoards
        ensures evens { result.even ≡ even }
        ensures odds { result.odd ≡ odd }
        ensures pages { on_boards result ≡ twin_pages even.items odd.items }
    {
        TwinBoards { even, odd }
    }

    /// The two boards back, the one of the even bytes first.
    pub fn into_boards(self) -> (Vec<u8>, Vec<u8>)
        ensures evens { result.0 ≡ self.even }
        ensures odds { result.1 ≡ self.odd }
    {
        let TwinBoards { even, odd } = self;
        (even, odd)
    }
}

// Fills a page from its two halves.
fn gather(buf: &mut [u8], even: &[u8], odd: &[u8])
    requires { (length buf.old ≡ 64) × ((length even.now ≡ 32) × (length odd.now ≡ 32)) }
    ensures gives { buf.new ≡ weave even.now odd.now }
{
    // by index: tried as a zip of both halves with `enumerate`, and as `array::from_fn`; the proof did not close
    for i in 0..HALF_BYTES {
        buf[2 * i] = even[i];
        buf[2 * i + 1] = odd[i];
    }
}

// Parts a page into its two halves.
fn scatter(buf: &[u8], even: &mut [u8], odd: &mut [u8])
    requires { (length buf.now ≡ 64) × ((length even.old ≡ 32) × (length odd.old ≡ 32)) }
    ensures gives { weave even.new odd.new ≡ buf.now }
{
    // by index: tried as `chunks_exact` with `enumerate`; the proof did not close
    for i in 0..HALF_BYTES {
        even[i] = buf[2 * i];
        odd[i] = buf[2 * i + 1];
    }
}

// How many whole halves a board has.
fn halves(board: &[u8]) -> usize
    ensures gives { result ≡ length board.now / 32 }
{
    board.len() / HALF_BYTES
}

// Both calls keep the bytes of either board that belong to no page: their clause `rest`.
impl PageStore for TwinBoards {
    ghost pages = { on_boards };

    fn count(&self) -> usize {
        halves(&self.even).min(halves(&self.odd))
    }

    fn read(&mut self, page: usize, buf: &mut [u8]) -> Result<(), StoreFault>
        ensures gives { Read (on_boards self.old) page buf.old buf.new result }
        ensures keeps { on_boards self.new ≡ on_boards self.old }
        ensures rest { past_boards self.new ≡ past_boards self.old }
    {
        admit(self.count(), page, buf.len())?;
        let at = HALF_BYTES * page;
        let end = at + HALF_BYTES;
        gather(buf, &self.even[at..end], &self.odd[at..end]);
        Ok(())
    }

    fn write(&mut self, page: usize, buf: &[u8]) -> Result<(), StoreFault>
        ensures gives { Written (on_boards self.old) (on_boards self.new) page buf.now result }
        ensures rest { past_boards self.new ≡ past_boards self.old }
    {
        admit(self.count(), page, buf.len())?;
        let at = HALF_BYTES * page;
        let end = at + HALF_BYTES;
        scatter(buf, &mut self.even[at..end], &mut self.odd[at..end]);
        Ok(())
    }
}
