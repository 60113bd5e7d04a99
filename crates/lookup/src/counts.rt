// What a draft has.
use std::fmt;

// What a draft has: points, and pages of each sort. Together with the head these are all pages of the card.
#[derive(Clone, Copy, PartialEq, Eq, Debug)]
pub struct Tally {
    pub points: u32,
    pub data_pages: u32,
    pub directory_pages: u32,
    pub free_pages: u32,
}

impl fmt::Display for Tally {
    fn fmt<W: fmt::Write>(&self, f: &mut fmt::Formatter<W>) -> fmt::Result {
        write!(
            f,
            "points {}, data pages {}, directory pages {}, free pages {}",
            self.points, self.data_pages, self.directory_pages, self.free_pages
        )
    }
}
