// Temporary origins.
ghost use Rattle.std.specs.Prelude.{◌≡◌};
ghost use Rattle.origin.specs.Placing.{PlaceSays};

use crate::origin::Origin;
use crate::place;
use kinds::lay::LayPoint;
use refusal::Refusal;

// An origin that is set for a while. While it stands, the origin that it borrows cannot be used; when it ends, on whatever way, that origin is the old one again.
pub struct Temporary<'a> {
    origin: &'a mut Origin,
    old: Origin,
}

impl<'a> Temporary<'a> {
    // Sets another origin, and keeps the old one to put it back.
    pub fn set(origin: &'a mut Origin, other: Origin) -> Temporary<'a>
        ensures other { result.origin.now ≡ other }
        ensures old { result.old ≡ origin.old }
        ensures same { result.origin.ghost_name ≡ origin.entry.ghost_name }
    {
        let old = *origin;
        *origin = other;
        Temporary { origin, old }
    }

    // The temporary origin.
    pub fn get(&self) -> Origin
        ensures { result ≡ self.entry.now.origin.now }
    {
        *self.origin
    }

    // The point placed at the temporary origin.
    pub fn place(&self, point: LayPoint) -> Result<LayPoint, Refusal>
        ensures { PlaceSays self.entry.now.origin.now point result }
    {
        place(self.get(), point)
    }

    // Ends it here: the old origin stands again.
    pub fn end(self)
        ensures { self.exit.0.now ≡ self.entry.old }
    {}
}

impl Drop for Temporary<'_> {
    // Puts the old origin back.
    fn drop(self)
        ensures { self.exit.0.now ≡ self.entry.old }
    {
        let Temporary { origin, old } = self;
        *origin = old;
    }
}
