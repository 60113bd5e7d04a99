//! A page store is a row of pages of 64 bytes, read and written by number. What lies below it is known to nobody above it:
//! the meaning of a store is the list of its pages, and a caller is proved against that list alone.
#![tactic(auto)]

pub mod copy;
pub mod fault;
pub mod lent;
pub mod page_store;
pub mod row;
pub mod twin;
pub mod watched;

pub use copy::{clear_page, copy_page};
pub use fault::StoreFault;
pub use lent::Lent;
pub use page_store::{PAGE_BYTES, PageStore, admit};
pub use row::RowStore;
pub use twin::TwinBoards;
pub use watched::Watched;
