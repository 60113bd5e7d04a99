// Lay points.
ghost use Rattle.std.specs.Prelude.{◌≡◌};
ghost use Rattle.std.proofs.Common.{rules};
ghost use Rattle.zorder.specs.Code.{raise};
ghost use Rattle.kinds.specs.Kind.{On};
ghost use Rattle.kinds.specs.Lay.{lay_axes, lay_kind};
ghost use Rattle.kinds.specs.LaySound.{lay_sound};

use crate::kind::PointKind;
use needle::Shog;
use std::fmt;
use zorder::weave::{Raised, weave};

// A point of a lay: a course, and a shog in half needles.
#[derive(Clone, Copy, PartialEq, Eq, Debug)]
pub struct LayPoint {
    pub course: u16,
    pub shog: i16,
}

impl LayPoint {
    // The raised values: each coordinate minus the smallest one of its axis.
    pub fn raised(&self) -> [u32; 2]
        requires { On lay_kind self.now }
        ensures { result ≡ raise lay_axes (lay_kind.coords self.now) }
    {
        [
            u32::from(self.course),
            // a cast, as the difference is not negative on the axis
            (i32::from(self.shog) - i32::from(Shog::LEAST)) as u32,
        ]
    }
}

impl PointKind for LayPoint {
    ghost BITS = { 28 };

    const BITS: u32 = 28;

    ghost CAPACITY = { 15 };

    const CAPACITY: usize = 15;

    ghost SIZE = { 4 };

    const SIZE: usize = 4;

    ghost DATA_PAGE = { 1 };

    const DATA_PAGE: u8 = 1;

    ghost DIRECTORY_PAGE = { 3 };

    const DIRECTORY_PAGE: u8 = 3;

    ghost HEAD_PAGE = { 5 };

    const HEAD_PAGE: u8 = 5;

    ghost kind = { lay_kind };

    ghost sound = { lay_sound };

    ghost constants = { Prim.search rules };

    fn on_axes(&self) -> bool {
        let p = *self;
        Shog::new(p.shog).is_ok()
    }

    fn code(&self) -> u64 {
        let [course, shog] = self.raised();
        let course = Raised {
            width: 16,
            value: course,
        };
        let shog = Raised {
            width: 12,
            value: shog,
        };
        weave(&[course, shog])
    }

    fn under(&self, other: &LayPoint) -> bool {
        self.course <= other.course && self.shog <= other.shog
    }

    fn lower(&self, other: &LayPoint) -> LayPoint {
        LayPoint {
            course: self.course.min(other.course),
            shog: self.shog.min(other.shog),
        }
    }

    fn upper(&self, other: &LayPoint) -> LayPoint {
        LayPoint {
            course: self.course.max(other.course),
            shog: self.shog.max(other.shog),
        }
    }

    fn write(&self, out: &mut [u8]) {
        let [a, b] = self.course.to_le_bytes();
        let [c, d] = self.shog.to_le_bytes();
        out.copy_from_slice(&[a, b, c, d]);
    }

    fn read(bytes: &[u8]) -> Option<LayPoint> {
        let point = LayPoint {
            course: u16::from_le_bytes([bytes[0], bytes[1]]),
            shog: i16::from_le_bytes([bytes[2], bytes[3]]),
        };
        if point.on_axes() { Some(point) } else { None }
    }
}

impl fmt::Display for LayPoint {
    fn fmt<W: fmt::Write>(&self, f: &mut fmt::Formatter<W>) -> fmt::Result {
        write!(f, "course {}, shog {}", self.course, self.shog)
    }
}
