//! A page store in one buffer.
ghost use Rattle.std.specs.Prelude.{◌≡◌, ◌+◌, ◌≤◌, length};
ghost use Rattle.store.specs.Calls.{Read, Written};
ghost use Rattle.store.specs.Rows.{overwritten, row_pages};
ghost use Rattle.store.specs.Stores.{in_row, past_row};

use crate::fault::StoreFault;
use crate::page_store::{PAGE_BYTES, PageStore, admit};

/// The pages stand in a row in one buffer. Bytes past the last whole page are never written.
#[derive(Drop)]
pub struct RowStore {
    bytes: Vec<u8>,
}

impl RowStore {
    /// A store over any buffer, with as many pages as it has whole ones.
    pub fn new(bytes: Vec<u8>) -> RowStore
        ensures holds { result.bytes ≡ bytes }
        ensures pages { in_row result ≡ row_pages bytes.items }
    {
        RowStore { bytes }
    }

    /// The buffer back.
    pub fn into_bytes(self) -> Vec<u8>
        ensures gives { result ≡ self.bytes }
    {
        let RowStore { bytes } = self;
        bytes
    }
}

// Writes `bytes` over the part of a row that begins at `at`, and keeps the rest of the row.
fn overwrite(row: &mut [u8], at: usize, bytes: &[u8])
    requires { at + length bytes.now ≤ length row.old }
    ensures gives { row.new ≡ overwritten at bytes.now row.old }
{
    let end = at + bytes.len();
    row[at..end].copy_from_slice(bytes);
}

// Both calls keep the bytes of the buffer that belong to no page: their clause `rest`.
impl PageStore for RowStore {
    ghost pages = { in_row };

    fn count(&self) -> usize {
        self.bytes.len() / PAGE_BYTES
    }

    fn read(&mut self, page: usize, buf: &mut [u8]) -> Result<(), StoreFault>
        ensures gives { Read (in_row self.old) page buf.old buf.new result }
        ensures keeps { in_row self.new ≡ in_row self.old }
        ensures rest { past_row self.new ≡ past_row self.old }
    {
        admit(self.count(), page, buf.len())?;
        let at = PAGE_BYTES * page;
        let end = at + PAGE_BYTES;
        buf.copy_from_slice(&self.bytes[at..end]);
        Ok(())
    }

    fn write(&mut self, page: usize, buf: &[u8]) -> Result<(), StoreFault>
        ensures gives { Written (in_row self.old) (in_row self.new) page buf.now result }
        ensures rest { past_row self.new ≡ past_row self.old }
    {
        admit(self.count(), page, buf.len())?;
        let at = PAGE_BYTES * page;
        overwrite(&mut self.bytes, at, buf);
        Ok(())
    }
}
