//! A page store that is lent.
ghost use Rattle.std.specs.Prelude.{◌≡◌};
ghost use Rattle.store.specs.Calls.{Read, Written};

use crate::fault::StoreFault;
use crate::page_store::PageStore;

/// A store lent by `&mut` is a store. What is written to it is written to the store that was lent.
#[derive(Drop)]
pub struct Lent<'a, S: PageStore> {
    store: &'a mut S,
}

impl<'a, S: PageStore> Lent<'a, S> {
    /// Lends a store until the result ends: it is that very store, as it stands.
    pub fn new(store: &'a mut S) -> Lent<'a, S>
        ensures lends { result.store.ghost_name ≡ store.entry.ghost_name }
        ensures holds { result.store.now ≡ store.old }
    {
        Lent { store }
    }
}

// Both calls keep the loan: it is still of the same store, their clause `loan`. So what a caller that holds the loan wrote by it is in
// the store that was lent once the loan has ended.
impl<'a, S: PageStore> PageStore for Lent<'a, S> {
    ghost pages = { λ s. S.PageStore.pages s.store.now };

    fn count(&self) -> usize {
        self.store.count()
    }

    fn read(&mut self, page: usize, buf: &mut [u8]) -> Result<(), StoreFault>
        ensures gives { Read (S.PageStore.pages self.old.store.now) page buf.old buf.new result }
        ensures keeps { S.PageStore.pages self.new.store.now ≡ S.PageStore.pages self.old.store.now }
        ensures loan { self.new.store.ghost_name ≡ self.old.store.ghost_name }
    {
        self.store.read(page, buf)
    }

    fn write(&mut self, page: usize, buf: &[u8]) -> Result<(), StoreFault>
        ensures gives { Written (S.PageStore.pages self.old.store.now) (S.PageStore.pages self.new.store.now) page buf.now result }
        ensures loan { self.new.store.ghost_name ≡ self.old.store.ghost_name }
    {
        self.store.write(page, buf)
    }
}
