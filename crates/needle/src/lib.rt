// Shogs in half needles, and whole needles with the half left over.
#![tactic(auto)]

ghost use Rattle.std.specs.Prelude.{◌≡◌, ℤ};
ghost use Rattle.needle.specs.Shogs.{SplitSays, JoinSays, BackLaw, AgainLaw, GreatestLaw};

use refusal::Refusal;
use std::fmt;

mod shog;

pub use shog::Shog;

// Whole needles, and the half needle left over: 0 or 1.
#[derive(Clone, Copy, PartialEq, Eq, Debug)]
pub struct Needles {
    pub whole: i16,
    pub half: u8,
}

impl fmt::Display for Needles {
    fn fmt<W: fmt::Write>(&self, f: &mut fmt::Formatter<W>) -> fmt::Result {
        write!(f, "whole {}, half {}", self.whole, self.half)
    }
}

// The greatest whole number of needles not above the shog, and the half left over. Refused off the axis.
pub fn split(shog: i16) -> Result<Needles, Refusal>
    ensures { SplitSays shog result }
{
    let half_needles = Shog::new(shog)?.half_needles();
    Ok(Needles {
        whole: half_needles.div_euclid(2),
        // a cast, as the rest is 0 or 1
        half: half_needles.rem_euclid(2) as u8,
    })
}

// Twice the whole plus the half. Refused where the half is neither 0 nor 1, or the shog is off the axis.
pub fn join(whole: i16, half: u8) -> Result<i16, Refusal>
    ensures { JoinSays whole half result }
{
    if half > 1 {
        return Err(Refusal::OffAxis);
    }
    let twice = whole.checked_mul(2).ok_or(Refusal::OffAxis)?;
    // twice an even number of at most 32,766 leaves room for the half
    let shog = Shog::new(twice + i16::from(half))?;
    Ok(shog.half_needles())
}

// Joining what was split gives the shog back, splitting what was joined gives whole and half back, and the whole of a split is the greatest one not above half the shog.
pub fn laws_stand()
    ensures back { BackLaw }
    ensures again { AgainLaw }
    ensures greatest { GreatestLaw }
{}

#[cfg(test)]
mod tests {
    use super::*;

    // A shog, and its whole and half.
    const SPLITS: [(i16, i16, u8); 8] = [
        (-2048, -1024, 0),
        (-2047, -1024, 1),
        (-2, -1, 0),
        (-1, -1, 1),
        (0, 0, 0),
        (1, 0, 1),
        (2046, 1023, 0),
        (2047, 1023, 1),
    ];

    #[test]
    fn splits_and_joins(rt: HostRuntime) {
        for (shog, whole, half) in SPLITS {
            assert_eq!(rt; split(shog), Ok(Needles { whole, half }));
            assert_eq!(rt; join(whole, half), Ok(shog));
        }
    }

    #[test]
    fn refuses_off_the_axis(rt: HostRuntime) {
        for shog in [2048, -2049, i16::MAX, i16::MIN] {
            assert_eq!(rt; split(shog), Err(Refusal::OffAxis));
        }
        for (whole, half) in [
            (0, 2),
            (0, 255),
            (1024, 0),
            (-1025, 1),
            (i16::MAX, 0),
            (i16::MAX, 1),
            (i16::MIN, 0),
            (i16::MIN, 1),
        ] {
            assert_eq!(rt; join(whole, half), Err(Refusal::OffAxis));
        }
        assert_eq!(rt; Refusal::OffAxis.number(), 3);
    }
}
