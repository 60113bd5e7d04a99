// A draft: its card, in some page store, and an origin.
#![tactic(auto)]

ghost use Rattle.std.specs.Prelude.{◌≡◌, ℕ, ◌<◌, ◌⊎◌, List, length, pos, IfOk, Ok, MatchResult};
ghost use Rattle.std.specs.Borrow.{follows, sem};
ghost use Rattle.refusal.specs.Numbers.{number, numbered};
ghost use Rattle.tree.specs.Book.{Asks, InWindow, PicksFrom, ListsFrom, CountsFrom, Outlines};
ghost use Rattle.tree.specs.Lawful.{Lawful};
ghost use Rattle.begin.specs.Begins.{Begins};
ghost use Rattle.lookup.specs.Asking.{AskAny};
ghost use Rattle.outlines.specs.Outlining.{OutlineAny};
ghost use Rattle.put.specs.Putting.{PutStep, PutAny};
ghost use Rattle.take.specs.Taking.{TakeStep, TakeAny};
ghost use Rattle.scan.specs.Answers.{WindowAny, InIt};
ghost use Rattle.scan.specs.Listing.{ListBuffer, ListAny};
ghost use Rattle.draft.specs.Queried.{ByQuery, ByExactMatch};
ghost use Rattle.lookup.specs.Tallying.{TallySays, TallyAny};
ghost use Rattle.draft.specs.contracts.Draft.{the_row as draft-row};
ghost use Rattle.origin.specs.contracts.origin.Origin.{the_row as origin-row};

use begin::begin as begin_card;
use kinds::kind::PointKind;
use lookup::ask::ask as ask_card;
use lookup::counts::Tally;
use lookup::tally::tally as tally_card;
use origin::{Origin, Temporary};
use outlines::outline as outline_card;
use put::put as put_card;
use query::window::Window;
use refusal::Refusal;
use scan::count::count as count_card;
use scan::list::list as list_card;
use scan::pick::pick as pick_card;
use std::marker::PhantomData;
use store::page_store::PageStore;
use take::take as take_card;

pub mod calls;
pub mod run;

// A draft of points of a kind. Its meaning is its card: the pages of its store.
#[derive(Drop)]
pub struct Draft<K, S> {
    store: S,
    origin: Origin,
    points: PhantomData<K>,
}

impl<K: PointKind, S: PageStore> Draft<K, S> {
    // Opens a draft on a card as found. It is never refused.
    pub fn open(store: S) -> Draft<K, S>
        ensures store { result.store ≡ store }
        ensures course { result.origin.course ≡ 0 }
        ensures shog { result.origin.shog ≡ pos 0 }
    {
        Draft {
            store,
            origin: Origin::start(),
            points: PhantomData,
        }
    }

    // Begins an empty draft on a card. Refused (1), with the store handed back and no page changed, if it has fewer than 2 pages or more than 65,535.
    pub fn begin(mut store: S) -> Result<Draft<K, S>, (Refusal, S)>
        ensures card { MatchResult result (λ d. Begins K.PointKind.kind (S.PageStore.pages store) (S.PageStore.pages d.store) (Ok tt)) (λ e. (number e.0 ≡ 1) × ((length (S.PageStore.pages store) < 2) ⊎ (65535 < length (S.PageStore.pages store))) × (S.PageStore.pages e.1 ≡ S.PageStore.pages store)) }
        ensures origin { IfOk result (λ d. (d.origin.course ≡ 0) × (d.origin.shog ≡ pos 0)) }
    {
        match begin_card::<K, S>(&mut store) {
            Ok(()) => Ok(Draft::open(store)),
            Err(why) => Err((why, store)),
        }
    }

    // The store back, with the card as it stands.
    pub fn close(self) -> S
        ensures { result ≡ self.store }
    {
        let Draft { store, .. } = self;
        store
    }

    // The store, to look at.
    pub fn store(&self) -> &S
        ensures { result.now ≡ self.now.store }
    {
        &self.store
    }

    // Puts a point into the draft. 3 if a coordinate is off its axis, then 9, then 4 if the point is live, then 6 if the tree with the point needs more pages than follow the head.
    // Accepted, it changes only the head, the point's way and at most two free pages.
    pub fn put(&mut self, p: K) -> Result<(), Refusal>
        ensures lawful { (set : List K) (w : Lawful K.PointKind.kind (S.PageStore.pages self.old.store) set) → PutStep K.PointKind.kind (S.PageStore.pages self.old.store) set w p result (S.PageStore.pages self.new.store) }
        ensures always { PutAny K.PointKind.kind p (S.PageStore.pages self.old.store) (S.PageStore.pages self.new.store) result }
        ensures origin { self.new.origin ≡ self.old.origin }
    {
        put_card(&mut self.store, &p)
    }

    // Takes a point from the draft. 3 if a coordinate is off its axis, then 9, then 5 if the point is not live.
    // Accepted, it changes only the head, the point's way and the page beside its last.
    pub fn take(&mut self, p: K) -> Result<(), Refusal>
        ensures lawful { (set : List K) (w : Lawful K.PointKind.kind (S.PageStore.pages self.old.store) set) → TakeStep K.PointKind.kind (S.PageStore.pages self.old.store) set w p result (S.PageStore.pages self.new.store) }
        ensures always { TakeAny K.PointKind.kind p (S.PageStore.pages self.old.store) (S.PageStore.pages self.new.store) result }
        ensures origin { self.new.origin ≡ self.old.origin }
    {
        take_card(&mut self.store, &p)
    }

    // Whether a point is live.
    pub fn ask(&mut self, p: K) -> Result<bool, Refusal>
        ensures lawful { (set : List K) → Lawful K.PointKind.kind (S.PageStore.pages self.old.store) set → Asks K.PointKind.kind (length (S.PageStore.pages self.old.store)) set p (numbered result) }
        ensures exact { ByExactMatch K.PointKind.kind (S.PageStore.pages self.old.store) p result }
        ensures always { AskAny K.PointKind.kind p result }
        ensures keeps { S.PageStore.pages self.new.store ≡ S.PageStore.pages self.old.store }
        ensures origin { self.new.origin ≡ self.old.origin }
    {
        ask_card(&mut self.store, &p)
    }

    // A live point of the window, which one is open; none exactly if none lies there.
    pub fn pick(&mut self, window: Window<K>) -> Result<Option<K>, Refusal>
        ensures lawful { (set : List K) → Lawful K.PointKind.kind (S.PageStore.pages self.old.store) set → InWindow K.PointKind.kind (length (S.PageStore.pages self.old.store)) set window.low window.high PicksFrom (numbered result) }
        ensures query { ByQuery K.PointKind.kind (S.PageStore.pages self.old.store) window PicksFrom result }
        ensures always { WindowAny K.PointKind.kind window (InIt K.PointKind.kind window.low window.high) result }
        ensures keeps { S.PageStore.pages self.new.store ≡ S.PageStore.pages self.old.store }
        ensures origin { self.new.origin ≡ self.old.origin }
    {
        pick_card(&mut self.store, &window)
    }

    // Takes the window's live points in rising code, passes over the first `skip`, writes as many as the buffer has places for,
    // and answers how many were written and how many are in the window. The rest of the buffer is kept.
    pub fn list(
        &mut self,
        window: Window<K>,
        skip: usize,
        buffer: &mut [K],
    ) -> Result<(usize, usize), Refusal>
        ensures lawful { (set : List K) → Lawful K.PointKind.kind (S.PageStore.pages self.old.store) set → InWindow K.PointKind.kind (length (S.PageStore.pages self.old.store)) set window.low window.high (ListsFrom skip (length buffer.old)) (numbered result) × ListBuffer K.PointKind.kind set window.low window.high skip buffer.old buffer.new result }
        ensures query { ByQuery K.PointKind.kind (S.PageStore.pages self.old.store) window (ListsFrom skip (length buffer.old)) result }
        ensures always { WindowAny K.PointKind.kind window (λ x. Unit {0}) result × ListAny K.PointKind.kind window skip buffer.old buffer.new result }
        ensures keeps { S.PageStore.pages self.new.store ≡ S.PageStore.pages self.old.store }
        ensures origin { self.new.origin ≡ self.old.origin }
    {
        list_card(&mut self.store, &window, skip, buffer)
    }

    // How many live points lie in the window.
    pub fn count(&mut self, window: Window<K>) -> Result<usize, Refusal>
        ensures lawful { (set : List K) → Lawful K.PointKind.kind (S.PageStore.pages self.old.store) set → InWindow K.PointKind.kind (length (S.PageStore.pages self.old.store)) set window.low window.high CountsFrom (numbered result) }
        ensures query { ByQuery K.PointKind.kind (S.PageStore.pages self.old.store) window CountsFrom result }
        ensures always { WindowAny K.PointKind.kind window (λ n. Unit {0}) result }
        ensures keeps { S.PageStore.pages self.new.store ≡ S.PageStore.pages self.old.store }
        ensures origin { self.new.origin ≡ self.old.origin }
    {
        count_card(&mut self.store, &window)
    }

    // How many points, data pages, directory pages and free pages there are.
    pub fn tally(&mut self) -> Result<Tally, Refusal>
        ensures lawful { (set : List K) → Lawful K.PointKind.kind (S.PageStore.pages self.old.store) set → TallySays K.PointKind.kind (length (S.PageStore.pages self.old.store)) set result }
        ensures always { TallyAny result }
        ensures keeps { S.PageStore.pages self.new.store ≡ S.PageStore.pages self.old.store }
        ensures origin { self.new.origin ≡ self.old.origin }
    {
        tally_card::<K, S>(&mut self.store)
    }

    // Writes one record for each page of the tree: the page, its low half's pages, its high half's. It answers the bytes written; the rest of the buffer is kept. 9, then 7 if the buffer is too short.
    pub fn outline(&mut self, buffer: &mut [u8]) -> Result<usize, Refusal>
        ensures lawful { (set : List K) → Lawful K.PointKind.kind (S.PageStore.pages self.old.store) set → Outlines K.PointKind.kind (length (S.PageStore.pages self.old.store)) set buffer.old (numbered result) buffer.new }
        ensures always { OutlineAny buffer.old buffer.new result }
        ensures keeps { S.PageStore.pages self.new.store ≡ S.PageStore.pages self.old.store }
        ensures origin { self.new.origin ≡ self.old.origin }
    {
        outline_card::<K, S>(&mut self.store, buffer)
    }

    // The origin.
    pub fn origin(&self) -> Origin
        ensures { result ≡ self.now.origin }
    {
        self.origin
    }

    // Sets the origin; the card stays.
    pub fn set_origin(&mut self, origin: Origin)
        ensures origin { self.new.origin ≡ origin }
        ensures card { self.new.store ≡ self.old.store }
    {
        self.origin = origin;
    }

    // A temporary origin. When it has ended, the draft is as before.
    pub fn temporary(&mut self, other: Origin) -> Temporary<'_>
        ensures other { result.origin.now ≡ other }
        ensures old { result.old ≡ self.old.origin }
        ensures* follows { sem 𝓛 (follows (draft-row K.row S.row) origin-row self.entry.ghost_name result.origin.ghost_name (λ w. record { store = self.old.store; origin = w; points = self.old.points })) }
    {
        Temporary::set(&mut self.origin, other)
    }
}
