// What a take leaves of a part of the tree.
use page::entry::Entry;

// The two pages of a directory page that is no longer needed: its own, and that of the half that is gone.
#[derive(Clone, Copy)]
pub(crate) struct FreedPages {
    pub(crate) fork: u16,
    pub(crate) leaf: u16,
}

// What is left of a part of the tree, and which of its pages are free now.
#[derive(Clone, Copy)]
pub(crate) enum Taken<K> {
    // no point is left, and its one page is free
    Gone(u16),
    // the entry of what is left, and the pages that are free, if any
    Left(Entry<K>, Option<FreedPages>),
}
