// What can be wrong with a page.
ghost use Rattle.std.specs.Prelude.{◌≡◌, Some};
ghost use Rattle.page.specs.declared.fault.PageFault.TheVariants.{Store};
ghost use Rattle.page.specs.Words.{fault_text};
ghost use Rattle.refusal.specs.declared.Refusal.TheVariants.{Damaged};

use refusal::Refusal;
use std::fmt;
use store::fault::StoreFault;

// A page that cannot be read as what it should be. Each case has the number of a page, which readers take beside the bytes for this alone: a struct of both would be made for one call.
#[derive(Clone, Copy, PartialEq, Eq, Debug)]
pub enum PageFault {
    // the store refused
    Store(StoreFault),
    // the page is of another kind than expected
    Kind(usize),
    // the page is of the kind expected, and a field of it is wrong
    Field(usize),
}

impl From<StoreFault> for PageFault {
    ghost from_gives = { λ x y. y ≡ Store x };

    fn from(value: StoreFault) -> PageFault {
        PageFault::Store(value)
    }
}

// A page that cannot be read makes the card a damaged one.
impl From<PageFault> for Refusal {
    ghost from_gives = { λ x y. y ≡ Damaged };

    fn from(_: PageFault) -> Refusal {
        Refusal::Damaged
    }
}

impl fmt::Display for PageFault {
    ghost output = { λ e. Some (fault_text e) };

    fn fmt<W: fmt::Write>(&self, f: &mut fmt::Formatter<W>) -> fmt::Result {
        match self {
            PageFault::Store(fault) => write!(f, "{fault}"),
            PageFault::Kind(page) => write!(f, "page {page} is of another kind than expected"),
            PageFault::Field(page) => write!(f, "page {page} has a field that is wrong"),
        }
    }
}
