// Motifs, placed point by point through a temporary origin. The origin at the end is the one at the start, on every way out.
ghost use Rattle.std.specs.Prelude.{◌≡◌};
ghost use Rattle.origin.specs.Motifs.{PlacesSays, FirstSays};

use crate::origin::Origin;
use crate::temporary::Temporary;
use kinds::lay::LayPoint;
use refusal::Refusal;

// Places every point of a motif at another origin, up to the first that is refused; that one and those after it stay as they were.
pub fn place_all(origin: &mut Origin, other: Origin, points: &mut [LayPoint]) -> Result<(), Refusal>
    ensures keeps { origin.new ≡ origin.old }
    ensures places { PlacesSays other points.old points.new result }
{
    let temporary = Temporary::set(origin, other);
    for point in points.iter_mut() {
        *point = temporary.place(*point)?;
    }
    Ok(())
}

// The first point of a motif that is refused at another origin.
pub fn first_refused(origin: &mut Origin, other: Origin, points: &[LayPoint]) -> Option<usize>
    ensures keeps { origin.new ≡ origin.old }
    ensures first { FirstSays other points.now result }
{
    let temporary = Temporary::set(origin, other);
    for (i, point) in points.iter().enumerate() {
        if temporary.place(*point).is_err() {
            return Some(i);
        }
    }
    None
}
