// Queries: what is asked of each axis.
ghost use Rattle.std.specs.Prelude.{◌≡◌, List};
ghost use Rattle.query.specs.Queries.{low_end, high_end, Queried};

use crate::coordinates::Coordinates;
use crate::window::Window;
use refusal::Refusal;

// What a query asks of one axis: any coordinate, one coordinate, or one between two ends, both included.
// A query is a slice of these, one for each axis.
#[derive(Clone, Copy, PartialEq, Eq, Debug)]
pub enum Choice {
    Any,
    One(i64),
    Range(i64, i64),
}

impl Choice {
    // The two ends of the choice on an axis with these smallest and greatest coordinates.
    fn ends(self, least: i64, greatest: i64) -> (i64, i64)
        ensures low { result.0 ≡ low_end least self }
        ensures high { result.1 ≡ high_end greatest self }
    {
        match self {
            Choice::Any => (least, greatest),
            Choice::One(at) => (at, at),
            Choice::Range(low, high) => (low, high),
        }
    }
}

// The window of a query: a free axis has its smallest and its greatest coordinate as corners. It holds exactly the points that the query selects.
// Refused (3) exactly if the query does not have one choice for each axis, or names a coordinate off its axis.
pub fn window<K: Coordinates>(query: &[Choice]) -> Result<Window<K>, Refusal>
    ensures { Queried K.PointKind.kind query.now result }
{
    let count = query.len();
    // no heap in a call of the library: the ends stand in arrays, with room for the axes of any kind
    let mut low = [0; 4];
    let mut high = [0; 4];
    if count > 4 {
        return Err(Refusal::OffAxis);
    }
    for (axis, choice) in query.iter().enumerate() {
        let (least, greatest) = K::span(axis).ok_or(Refusal::OffAxis)?;
        let (first, last) = choice.ends(least, greatest);
        low[axis] = first;
        high[axis] = last;
    }
    let lows = &low[..];
    let highs = &high[..];
    let low = K::at(&lows[..count]).ok_or(Refusal::OffAxis)?;
    let high = K::at(&highs[..count]).ok_or(Refusal::OffAxis)?;
    Ok(Window { low, high })
}
