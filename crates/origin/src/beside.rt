// An origin beside something else.
ghost use Rattle.std.specs.Prelude.{◌≡◌, pos};
ghost use Rattle.std.specs.Borrow.{follows, sem};
ghost use Rattle.origin.specs.Placing.{PlaceSays};
ghost use Rattle.origin.specs.contracts.beside.WithOrigin.{the_row as both-row};
ghost use Rattle.origin.specs.contracts.origin.Origin.{the_row as origin-row};

use crate::origin::Origin;
use crate::temporary::Temporary;
use kinds::lay::LayPoint;
use refusal::Refusal;

// A record that holds an origin beside something else. A temporary origin borrows the origin alone, so the rest can be used while it stands.
#[derive(Drop)]
pub struct WithOrigin<T> {
    pub rest: T,
    pub origin: Origin,
}

impl<T> WithOrigin<T> {
    // The record with the origin at course 0 and shog 0.
    pub fn new(rest: T) -> WithOrigin<T>
        ensures rest { result.rest ≡ rest }
        ensures course { result.origin.course ≡ 0 }
        ensures shog { result.origin.shog ≡ pos 0 }
    {
        WithOrigin {
            rest,
            origin: Origin::start(),
        }
    }

    // A temporary origin; when it has ended, the record is as before.
    pub fn temporary(&mut self, other: Origin) -> Temporary<'_>
        ensures other { result.origin.now ≡ other }
        ensures old { result.old ≡ self.old.origin }
        ensures* follows { sem 𝓛 (follows (both-row T.row) origin-row self.entry.ghost_name result.origin.ghost_name (λ w. record { rest = self.old.rest; origin = w })) }
    {
        Temporary::set(&mut self.origin, other)
    }

    // Exchanges the rest while a temporary origin stands, and then places a point at that one.
    pub fn exchange(
        &mut self,
        other: Origin,
        rest: &mut T,
        point: LayPoint,
    ) -> Result<LayPoint, Refusal>
        ensures places { PlaceSays other point result }
        ensures origin { self.new.origin ≡ self.old.origin }
        ensures given { self.new.rest ≡ rest.old }
        ensures taken { rest.new ≡ self.old.rest }
    {
        let temporary = Temporary::set(&mut self.origin, other);
        std::mem::swap(&mut self.rest, rest);
        temporary.place(point)
    }
}

// Places a point at a temporary origin that a record lends.
pub fn place_beside<T>(
    both: &mut WithOrigin<T>,
    other: Origin,
    point: LayPoint,
) -> Result<LayPoint, Refusal>
    ensures places { PlaceSays other point result }
    ensures keeps { both.new ≡ both.old }
{
    let temporary = both.temporary(other);
    temporary.place(point)
}
