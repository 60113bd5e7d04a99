// Points by their coordinates, axis by axis.
ghost use Rattle.query.specs.Queries.{SpanOf, PointOf};

use kinds::bar::{BARS, BarPoint};
use kinds::kind::PointKind;
use kinds::lay::LayPoint;
use needle::Shog;

// A kind whose points can be made from their coordinates.
pub trait Coordinates: PointKind {
    // The smallest and the greatest coordinate of an axis, none past the last axis.
    fn span(axis: usize) -> Option<(i64, i64)>
        ensures { SpanOf Self.PointKind.kind axis result };

    // The point with these coordinates, none where one is off its axis or there is not one for each axis.
    fn at(coordinates: &[i64]) -> Option<Self>
        ensures { PointOf Self.PointKind.kind coordinates.now result };
}

impl Coordinates for LayPoint {
    fn span(axis: usize) -> Option<(i64, i64)> {
        match axis {
            0 => Some((0, i64::from(u16::MAX))),
            1 => Some((i64::from(Shog::LEAST), i64::from(Shog::GREATEST))),
            _ => None,
        }
    }

    fn at(coordinates: &[i64]) -> Option<LayPoint> {
        let [course, shog] = coordinates else {
            return None;
        };
        let course = u16::try_from(*course).ok()?;
        let shog = i16::try_from(*shog).ok()?;
        let point = LayPoint { course, shog };
        if point.on_axes() { Some(point) } else { None }
    }
}

impl Coordinates for BarPoint {
    fn span(axis: usize) -> Option<(i64, i64)> {
        match axis {
            0 => Some((0, i64::from(u16::MAX))),
            1 => Some((0, i64::from(BARS) - 1)),
            2 => Some((i64::from(Shog::LEAST), i64::from(Shog::GREATEST))),
            _ => None,
        }
    }

    fn at(coordinates: &[i64]) -> Option<BarPoint> {
        let [course, bar, shog] = coordinates else {
            return None;
        };
        let course = u16::try_from(*course).ok()?;
        let bar = u16::try_from(*bar).ok()?;
        let shog = i16::try_from(*shog).ok()?;
        let point = BarPoint { course, bar, shog };
        if point.on_axes() { Some(point) } else { None }
    }
}
