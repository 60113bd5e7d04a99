//! A page store that counts its calls.
ghost use Rattle.std.specs.Prelude.{◌≡◌};
ghost use Rattle.store.specs.Calls.{Read, Written};
ghost use Rattle.store.specs.Counters.{one_more};

use crate::fault::StoreFault;
use crate::page_store::PageStore;

/// Any store, with counters of its reads and writes. Every call counts once, refused ones too.
#[derive(Drop)]
pub struct Watched<S: PageStore> {
    inner: S,
    reads: u64,
    writes: u64,
}

impl<S: PageStore> Watched<S> {
    /// Watches a store, with both counters at 0.
    pub fn new(inner: S) -> Watched<S>
        ensures holds { result.inner ≡ inner }
        ensures reads { result.reads ≡ 0 }
        ensures writes { result.writes ≡ 0 }
    {
        Watched {
            inner,
            reads: 0,
            writes: 0,
        }
    }

    /// How many reads were asked for since `new`.
    pub fn reads(&self) -> u64
        ensures gives { result ≡ self.now.reads }
    {
        self.reads
    }

    /// How many writes were asked for since `new`.
    pub fn writes(&self) -> u64
        ensures gives { result ≡ self.now.writes }
    {
        self.writes
    }

    /// The store back.
    pub fn into_inner(self) -> S
        ensures gives { result ≡ self.inner }
    {
        let Watched { inner, .. } = self;
        inner
    }
}

impl<S: PageStore> PageStore for Watched<S> {
    ghost pages = { λ s. S.PageStore.pages s.inner };

    fn count(&self) -> usize {
        self.inner.count()
    }

    fn read(&mut self, page: usize, buf: &mut [u8]) -> Result<(), StoreFault>
        ensures gives { Read (S.PageStore.pages self.old.inner) page buf.old buf.new result }
        ensures keeps { S.PageStore.pages self.new.inner ≡ S.PageStore.pages self.old.inner }
        ensures reads { self.new.reads ≡ one_more self.old.reads }
        ensures writes { self.new.writes ≡ self.old.writes }
    {
        self.reads = self.reads.saturating_add(1);
        self.inner.read(page, buf)
    }

    fn write(&mut self, page: usize, buf: &[u8]) -> Result<(), StoreFault>
        ensures gives { Written (S.PageStore.pages self.old.inner) (S.PageStore.pages self.new.inner) page buf.now result }
        ensures reads { self.new.reads ≡ self.old.reads }
        ensures writes { self.new.writes ≡ one_more self.old.writes }
    {
        self.writes = self.writes.saturating_add(1);
        self.inner.write(page, buf)
    }
}
