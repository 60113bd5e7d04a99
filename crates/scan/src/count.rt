// Count: how many live points lie in a window.
ghost use Rattle.std.specs.Prelude.{◌≡◌, List, length};
ghost use Rattle.refusal.specs.Numbers.{numbered};
ghost use Rattle.tree.specs.Book.{InWindow, CountsFrom};
ghost use Rattle.tree.specs.Lawful.{Lawful};
ghost use Rattle.scan.specs.Answers.{WindowAny};

use crate::gather::Gather;
use crate::walk::scan;
use crate::whole::WholeWindow;
use kinds::kind::PointKind;
use query::window::Window;
use refusal::Refusal;
use store::page_store::PageStore;

// The number of points met.
#[derive(Clone, Copy)]
struct Counter {
    total: usize,
}

impl<K: PointKind> Gather<K> for Counter {
    ghost met = { λ c before buffer xs. c.total ≡ length xs };

    ghost fair = { λ c low high before buffer. Unit {0} };

    ghost passes = { λ c. 0 };

    fn done(&self) -> bool {
        false
    }

    fn unread(&mut self, count: u32, places: usize) -> Result<bool, Refusal> {
        // no `From` makes a `usize` of a `u32`
        let total = self.total.checked_add(count as usize);
        self.total = total.ok_or(Refusal::Damaged)?;
        Ok(true)
    }

    fn point(&mut self, p: &K, buffer: &mut [K]) -> Result<(), Refusal> {
        let total = self.total.checked_add(1);
        self.total = total.ok_or(Refusal::Damaged)?;
        Ok(())
    }
}

// How many live points lie in the window. Here, in pick and in list what is gathered differs, and the two steps round it are no more than a call would be. 3 if a corner is off an axis, then 2 if the corners are crossed, then 9.
pub fn count<K: PointKind, S: PageStore>(
    store: &mut S,
    window: &Window<K>,
) -> Result<usize, Refusal>
    ensures lawful { (set : List K) → Lawful K.PointKind.kind (S.PageStore.pages store.old) set → InWindow K.PointKind.kind (length (S.PageStore.pages store.old)) set window.now.low window.now.high CountsFrom (numbered result) }
    ensures always { WindowAny K.PointKind.kind window.now (λ n. Unit {0}) result }
    ensures keeps { S.PageStore.pages store.new ≡ S.PageStore.pages store.old }
{
    let window = WholeWindow::new(window)?;
    let mut counter = Counter { total: 0 };
    let mut none: [K; 0] = [];
    scan(store, &window, &mut counter, &mut none)?;
    Ok(counter.total)
}
