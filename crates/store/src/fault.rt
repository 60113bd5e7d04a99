//! Why a page store refuses a call.
ghost use Rattle.std.specs.Prelude.{Some};
ghost use Rattle.store.specs.Words.{fault_text};

use std::fmt;

/// A refused call changes no page and no buffer. Each case has the number of the page that was asked for.
#[derive(Clone, Copy, PartialEq, Eq, Debug)]
pub enum StoreFault {
    /// the store has no page of this number
    NoPage(usize),
    /// the store has this page, and the buffer is not 64 bytes long
    BadBuffer(usize),
}

impl fmt::Display for StoreFault {
    ghost output = { λ e. Some (fault_text e) };

    fn fmt<W: fmt::Write>(&self, f: &mut fmt::Formatter<W>) -> fmt::Result {
        match self {
            StoreFault::NoPage(page) => write!(f, "there is no page {page}"),
            StoreFault::BadBuffer(page) => write!(
                f,
                "the buffer for page {page} is not 64 bytes long"
            ),
        }
    }
}
