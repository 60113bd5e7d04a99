// Origins.
ghost use Rattle.std.specs.Prelude.{◌≡◌, pos, MatchResult};
ghost use Rattle.refusal.specs.Numbers.{number};
ghost use Rattle.needle.specs.Shogs.{OnShogs};

use needle::Shog;
use refusal::Refusal;
use std::fmt;

// Where a motif is placed: a course, 0 to 65,535, and a shog that always lies on its axis.
#[derive(Clone, Copy, PartialEq, Eq, Debug)]
pub struct Origin {
    course: u16,
    shog: i16,
    ghost on_axis: { OnShogs shog },
}

impl Origin {
    // The origin of a course and a shog. Refused off the axes.
    pub fn new(course: u16, shog: i16) -> Result<Origin, Refusal>
        ensures { MatchResult result (λ o. (o.course ≡ course) × (o.shog ≡ shog) × OnShogs shog) (λ e. (OnShogs shog → ⊥) × (number e ≡ 3)) }
    {
        let shog = Shog::new(shog)?.half_needles();
        Ok(Origin { course, shog })
    }

    // The origin at course 0 and shog 0, which leaves a point where it is.
    pub fn start() -> Origin
        ensures course { result.course ≡ 0 }
        ensures shog { result.shog ≡ pos 0 }
    {
        Origin { course: 0, shog: 0 }
    }

    // Its course.
    pub fn course(&self) -> u16
        ensures { result ≡ self.now.course }
    {
        self.course
    }

    // Its shog, which lies on the axis.
    pub fn shog(&self) -> i16
        ensures value { result ≡ self.now.shog }
        ensures on_axis { OnShogs result }
    {
        self.shog
    }
}

impl fmt::Display for Origin {
    fn fmt<W: fmt::Write>(&self, f: &mut fmt::Formatter<W>) -> fmt::Result {
        write!(f, "course {}, shog {}", self.course, self.shog)
    }
}
