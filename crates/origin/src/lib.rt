// Origins: placing motifs, and temporary origins that always come back.
#![tactic(auto)]

ghost use Rattle.origin.specs.Laws.{StartLaw, ApartLaw, OneLaw};
ghost use Rattle.origin.specs.Placing.{PlaceSays};

use kinds::kind::PointKind;
use kinds::lay::LayPoint;
use refusal::{Refusal, numbers_stand};

mod beside;
mod motifs;
mod origin;
mod temporary;

pub use beside::{WithOrigin, place_beside};
pub use motifs::{first_refused, place_all};
pub use origin::Origin;
pub use temporary::Temporary;

// The point moved by the origin on both axes. Refused where the point or the sum is off an axis.
pub fn place(origin: Origin, point: LayPoint) -> Result<LayPoint, Refusal>
    ensures { PlaceSays origin point result }
{
    if !point.on_axes() {
        return Err(Refusal::OffAxis);
    }
    let course = origin.course().checked_add(point.course);
    let course = course.ok_or(Refusal::OffAxis)?;
    // the sum of two shogs on their axis fits
    let placed = LayPoint {
        course,
        shog: origin.shog() + point.shog,
    };
    if !placed.on_axes() {
        return Err(Refusal::OffAxis);
    }
    Ok(placed)
}

// Placing at course 0 and shog 0 gives the point back, two points are never placed on one, and an origin and a point have no two answers.
pub fn laws_stand()
    ensures start { StartLaw }
    ensures apart { ApartLaw }
    ensures one { OneLaw }
{
    numbers_stand();
}

#[cfg(test)]
mod tests {
    use super::*;
    use std::test::Fail;

    // An origin, a point, and the point placed: course and shog of each.
    const PLACED: [(u16, i16, u16, i16, u16, i16); 8] = [
        (0, 0, 65535, 2047, 65535, 2047),
        (0, 0, 0, -2048, 0, -2048),
        (10, -5, 3, 7, 13, 2),
        (65535, 2047, 0, 0, 65535, 2047),
        (1, 1, 65534, 2046, 65535, 2047),
        (0, -1, 0, -2047, 0, -2048),
        (65535, -2048, 0, 2047, 65535, -1),
        (0, 2047, 7, -2048, 7, -1),
    ];

    // An origin and a point that is refused there.
    const REFUSED: [(u16, i16, u16, i16); 9] = [
        (1, 0, 65535, 0),
        (65535, 0, 65535, 0),
        (0, 1, 0, 2047),
        (0, -1, 0, -2048),
        (0, 0, 0, 2048),
        (0, -2048, 0, 2048),
        (0, 2047, 0, -2049),
        (0, 2047, 0, 32767),
        (0, -2048, 0, -32768),
    ];

    #[test]
    fn places_and_refuses(rt: HostRuntime) -> Result<(), Fail> {
        for (course, shog, c, s, placed_course, placed_shog) in PLACED {
            let origin = Origin::new(course, shog)?;
            let placed = LayPoint {
                course: placed_course,
                shog: placed_shog,
            };
            assert_eq!(rt; place(origin, LayPoint { course: c, shog: s }), Ok(placed));
        }
        for (course, shog, c, s) in REFUSED {
            let origin = Origin::new(course, shog)?;
            let answer = place(origin, LayPoint { course: c, shog: s });
            assert_eq!(rt; answer, Err(Refusal::OffAxis));
        }
        assert_eq!(rt; Refusal::OffAxis.number(), 3);
        Ok(())
    }

    #[test]
    fn makes_origins_on_the_axes_only(rt: HostRuntime) -> Result<(), Fail> {
        for (course, shog) in [(0, -2048), (65535, 2047), (0, 0)] {
            let origin = Origin::new(course, shog)?;
            assert_eq!(rt; origin.course(), course);
            assert_eq!(rt; origin.shog(), shog);
        }
        assert_eq!(rt; Origin::start(), Origin::new(0, 0)?);
        for shog in [2048, -2049, i16::MAX, i16::MIN] {
            assert_eq!(rt; Origin::new(0, shog), Err(Refusal::OffAxis));
        }
        Ok(())
    }

    #[test]
    fn brings_the_old_origin_back(rt: HostRuntime) -> Result<(), Fail> {
        let old = Origin::new(7, 7)?;
        let other = Origin::new(5, 1)?;
        let mut origin = old;
        let mut motif = [
            LayPoint { course: 1, shog: 1 },
            LayPoint {
                course: 0,
                shog: 2047,
            },
            LayPoint { course: 2, shog: 2 },
        ];
        assert_eq!(rt; first_refused(&mut origin, other, &motif), Some(1));
        assert_eq!(rt; origin, old);
        let answer = place_all(&mut origin, other, &mut motif);
        assert_eq!(rt; answer, Err(Refusal::OffAxis));
        assert_eq!(rt; origin, old);
        let left = [
            LayPoint { course: 6, shog: 2 },
            LayPoint {
                course: 0,
                shog: 2047,
            },
            LayPoint { course: 2, shog: 2 },
        ];
        assert_eq!(rt; motif, left);
        let temporary = Temporary::set(&mut origin, other);
        assert_eq!(rt; temporary.get(), other);
        temporary.end();
        assert_eq!(rt; origin, old);
        Ok(())
    }

    #[test]
    fn leaves_the_rest_usable(rt: HostRuntime) -> Result<(), Fail> {
        let other = Origin::new(5, 1)?;
        let mut both = WithOrigin::new(3u8);
        let mut rest = 4;
        let point = LayPoint { course: 1, shog: 1 };
        let placed = LayPoint { course: 6, shog: 2 };
        assert_eq!(rt; both.exchange(other, &mut rest, point), Ok(placed));
        assert_eq!(rt; both.rest, 4);
        assert_eq!(rt; rest, 3);
        assert_eq!(rt; both.origin, Origin::start());
        assert_eq!(rt; place_beside(&mut both, other, point), Ok(placed));
        assert_eq!(rt; both.origin, Origin::start());
        Ok(())
    }
}
