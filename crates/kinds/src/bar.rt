// Bar points.
ghost use Rattle.std.specs.Prelude.{◌≡◌};
ghost use Rattle.std.proofs.Common.{rules};
ghost use Rattle.zorder.specs.Code.{raise};
ghost use Rattle.kinds.specs.Kind.{On};
ghost use Rattle.kinds.specs.Bar.{bar_axes, bar_kind};
ghost use Rattle.kinds.specs.BarSound.{bar_sound};

use crate::kind::PointKind;
use needle::Shog;
use std::fmt;
use zorder::weave::{Raised, weave};

// The number of guide bars, 0 to 63.
pub const BARS: u16 = 64;

// A point of one guide bar: a course, the bar, and a shog in half needles.
#[derive(Clone, Copy, PartialEq, Eq, Debug)]
pub struct BarPoint {
    pub course: u16,
    pub bar: u16,
    pub shog: i16,
}

impl BarPoint {
    // The raised values: each coordinate minus the smallest one of its axis.
    pub fn raised(&self) -> [u32; 3]
        requires { On bar_kind self.now }
        ensures { result ≡ raise bar_axes (bar_kind.coords self.now) }
    {
        [
            u32::from(self.course),
            u32::from(self.bar),
            // a cast, as the difference is not negative on the axis
            (i32::from(self.shog) - i32::from(Shog::LEAST)) as u32,
        ]
    }
}

impl PointKind for BarPoint {
    ghost BITS = { 34 };

    const BITS: u32 = 34;

    ghost CAPACITY = { 10 };

    const CAPACITY: usize = 10;

    ghost SIZE = { 6 };

    const SIZE: usize = 6;

    ghost DATA_PAGE = { 2 };

    const DATA_PAGE: u8 = 2;

    ghost DIRECTORY_PAGE = { 4 };

    const DIRECTORY_PAGE: u8 = 4;

    ghost HEAD_PAGE = { 6 };

    const HEAD_PAGE: u8 = 6;

    ghost kind = { bar_kind };

    ghost sound = { bar_sound };

    ghost constants = { Prim.search rules };

    fn on_axes(&self) -> bool {
        let p = *self;
        p.bar < BARS && Shog::new(p.shog).is_ok()
    }

    fn code(&self) -> u64 {
        let [course, bar, shog] = self.raised();
        let course = Raised {
            width: 16,
            value: course,
        };
        let bar = Raised {
            width: 6,
            value: bar,
        };
        let shog = Raised {
            width: 12,
            value: shog,
        };
        weave(&[course, bar, shog])
    }

    fn under(&self, other: &BarPoint) -> bool {
        self.course <= other.course && self.bar <= other.bar && self.shog <= other.shog
    }

    fn lower(&self, other: &BarPoint) -> BarPoint {
        BarPoint {
            course: self.course.min(other.course),
            bar: self.bar.min(other.bar),
            shog: self.shog.min(other.shog),
        }
    }

    fn upper(&self, other: &BarPoint) -> BarPoint {
        BarPoint {
            course: self.course.max(other.course),
            bar: self.bar.max(other.bar),
            shog: self.shog.max(other.shog),
        }
    }

    fn write(&self, out: &mut [u8]) {
        let [a, b] = self.course.to_le_bytes();
        let [c, d] = self.bar.to_le_bytes();
        let [e, f] = self.shog.to_le_bytes();
        out.copy_from_slice(&[a, b, c, d, e, f]);
    }

    fn read(bytes: &[u8]) -> Option<BarPoint> {
        let point = BarPoint {
            course: u16::from_le_bytes([bytes[0], bytes[1]]),
            bar: u16::from_le_bytes([bytes[2], bytes[3]]),
            shog: i16::from_le_bytes([bytes[4], bytes[5]]),
        };
        if point.on_axes() { Some(point) } else { None }
    }
}

impl fmt::Display for BarPoint {
    fn fmt<W: fmt::Write>(&self, f: &mut fmt::Formatter<W>) -> fmt::Result {
        write!(
            f,
            "course {}, bar {}, shog {}",
            self.course, self.bar, self.shog
        )
    }
}
