// Pick: a live point of a window.
ghost use Rattle.std.specs.Prelude.{◌≡◌, List, length, MatchOption};
ghost use Rattle.refusal.specs.Numbers.{numbered};
ghost use Rattle.zorder.specs.Sharing.{Inside};
ghost use Rattle.kinds.specs.Kind.{On};
ghost use Rattle.tree.specs.Book.{InWindow, PicksFrom};
ghost use Rattle.tree.specs.Lawful.{Lawful};
ghost use Rattle.scan.specs.Answers.{WindowAny, InIt};

use crate::gather::Gather;
use crate::walk::scan;
use crate::whole::WholeWindow;
use kinds::kind::PointKind;
use query::window::Window;
use refusal::Refusal;
use store::page_store::PageStore;

// A point that was met, if any was.
#[derive(Clone, Copy)]
struct Picker<K> {
    found: Option<K>,
}

impl<K: PointKind> Gather<K> for Picker<K> {
    ghost met = { λ c before buffer xs. PicksFrom xs c.found };

    ghost fair = { λ c low high before buffer. InIt K.PointKind.kind low high c.found };

    ghost passes = { λ c. 0 };

    fn done(&self) -> bool {
        self.found.is_some()
    }

    fn unread(&mut self, count: u32, places: usize) -> Result<bool, Refusal> {
        Ok(false)
    }

    fn point(&mut self, p: &K, buffer: &mut [K]) -> Result<(), Refusal> {
        if self.found.is_none() {
            self.found = Some(*p);
        }
        Ok(())
    }
}

// A live point of the window, which one is open; none exactly if none lies there. 3 if a corner is off an axis, then 2 if the corners are crossed, then 9.
pub fn pick<K: PointKind, S: PageStore>(
    store: &mut S,
    window: &Window<K>,
) -> Result<Option<K>, Refusal>
    ensures lawful { (set : List K) → Lawful K.PointKind.kind (S.PageStore.pages store.old) set → InWindow K.PointKind.kind (length (S.PageStore.pages store.old)) set window.now.low window.now.high PicksFrom (numbered result) }
    ensures always { WindowAny K.PointKind.kind window.now (InIt K.PointKind.kind window.now.low window.now.high) result }
    ensures keeps { S.PageStore.pages store.new ≡ S.PageStore.pages store.old }
{
    let window = WholeWindow::new(window)?;
    let mut picker = Picker { found: None };
    let mut none: [K; 0] = [];
    scan(store, &window, &mut picker, &mut none)?;
    Ok(picker.found)
}
