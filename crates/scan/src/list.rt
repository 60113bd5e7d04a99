// List: the live points of a window, in rising code.
ghost use Rattle.std.specs.Prelude.{◌≡◌, List, ◌++◌, length};
ghost use Rattle.refusal.specs.Numbers.{numbered};
ghost use Rattle.tree.specs.Book.{InWindow, ListsFrom};
ghost use Rattle.tree.specs.Lawful.{Lawful};
ghost use Rattle.scan.specs.Answers.{WindowAny};
ghost use Rattle.scan.specs.Listing.{Listed, ListFair, ListBuffer, ListAny};

use crate::gather::Gather;
use crate::walk::scan;
use crate::whole::WholeWindow;
use kinds::kind::PointKind;
use query::window::Window;
use refusal::Refusal;
use store::page_store::PageStore;

// How many points are passed over first, how many were met, and how many of them were written.
#[derive(Clone, Copy)]
pub(crate) struct Lister {
    skip: usize,
    seen: usize,
    written: usize,
}

impl<K: PointKind> Gather<K> for Lister {
    ghost met = { λ c before buffer xs. Listed c.skip c.seen c.written before buffer xs };

    ghost fair = { λ c low high before buffer. ListFair K.PointKind.kind c.skip c.seen c.written low high before buffer };

    ghost passes = { λ c. c.skip };

    fn done(&self) -> bool {
        false
    }

    fn unread(&mut self, count: u32, places: usize) -> Result<bool, Refusal> {
        // no `From` makes a `usize` of a `u32`
        let seen = self.seen.checked_add(count as usize);
        let seen = seen.ok_or(Refusal::Damaged)?;
        if seen > self.skip && self.written < places {
            return Ok(false);
        }
        self.seen = seen;
        Ok(true)
    }

    fn point(&mut self, p: &K, buffer: &mut [K]) -> Result<(), Refusal> {
        let at = self.written;
        let seen = self.seen.checked_add(1).ok_or(Refusal::Damaged)?;
        if self.seen >= self.skip && at < buffer.len() {
            buffer[at] = *p;
            self.written = at + 1;
        }
        self.seen = seen;
        Ok(())
    }
}

// Takes the window's live points in rising code, passes over the first `skip`, writes as many as the buffer has places for, and answers how many were written and how many are in the window.
// The rest of the buffer is kept. 3 if a corner is off an axis, then 2 if the corners are crossed, then 9.
pub fn list<K: PointKind, S: PageStore>(
    store: &mut S,
    window: &Window<K>,
    skip: usize,
    buffer: &mut [K],
) -> Result<(usize, usize), Refusal>
    ensures lawful { (set : List K) → Lawful K.PointKind.kind (S.PageStore.pages store.old) set → InWindow K.PointKind.kind (length (S.PageStore.pages store.old)) set window.now.low window.now.high (ListsFrom skip (length buffer.old)) (numbered result) × ListBuffer K.PointKind.kind set window.now.low window.now.high skip buffer.old buffer.new result }
    ensures always { WindowAny K.PointKind.kind window.now (λ x. Unit {0}) result × ListAny K.PointKind.kind window.now skip buffer.old buffer.new result }
    ensures keeps { S.PageStore.pages store.new ≡ S.PageStore.pages store.old }
{
    let window = WholeWindow::new(window)?;
    let mut lister = Lister {
        skip,
        seen: 0,
        written: 0,
    };
    scan(store, &window, &mut lister, buffer)?;
    Ok((lister.written, lister.seen))
}
