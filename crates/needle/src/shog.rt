ghost use Rattle.std.specs.Prelude.{◌≡◌, ℤ, pos, negsuc, ◌≤ℤ◌, MatchResult};
ghost use Rattle.refusal.specs.Numbers.{number};

use refusal::Refusal;

// A shog: an offset of a guide bar in half needles, which always lies on its axis, -2048 to 2047.
#[derive(Clone, Copy)]
pub struct Shog {
    half_needles: i16,
    ghost low: { negsuc 2047 ≤ℤ half_needles },
    ghost high: { half_needles ≤ℤ pos 2047 },
}

impl Shog {
    pub const LEAST: i16 = -2048;

    pub const GREATEST: i16 = 2047;

    // The shog of so many half needles. Refused off the axis.
    pub fn new(half_needles: i16) -> Result<Shog, Refusal>
        ensures { MatchResult result (λ s. s.half_needles ≡ half_needles) (λ e. ((negsuc 2047 ≤ℤ half_needles) × (half_needles ≤ℤ pos 2047) → ⊥) × (number e ≡ 3)) }
    {
        if !(Shog::LEAST..=Shog::GREATEST).contains(&half_needles) {
            return Err(Refusal::OffAxis);
        }
        Ok(Shog { half_needles })
    }

    pub fn half_needles(self) -> i16
        ensures value { result ≡ self.half_needles }
        ensures on_axis { (negsuc 2047 ≤ℤ result) × (result ≤ℤ pos 2047) }
    {
        self.half_needles
    }
}
