// Why a call on a draft is refused. Each refusal has a number by which the outside world knows it.
#![tactic(auto)]

ghost use Rattle.std.specs.Prelude.{◌≡◌};
ghost use Rattle.refusal.specs.Numbers.{number, NumbersLaw};

use std::fmt;

// A refused call changes no page of the card.
#[derive(Clone, Copy, PartialEq, Eq, Debug)]
pub enum Refusal {
    // 1: a card has 2 to 65,535 pages
    PageCount,
    // 2: the low corner of a window exceeds the high one on some axis
    Crossed,
    // 3: a coordinate is off its axis
    OffAxis,
    // 4: the point is live already
    Live,
    // 5: the point is not live
    Absent,
    // 6: the tree with the point needs more pages than the card has
    Full,
    // 7: the buffer is too short for the outline
    ShortBuffer,
    // 8: the survey has fewer marks than the card has pages
    FewMarks,
    // 9: the card is damaged
    Damaged,
}

impl Refusal {
    // The number of a refusal. Each case is named beside its number, and not numbered by its place among the others.
    pub fn number(self) -> u8
        ensures { result ≡ number self }
    {
        match self {
            Refusal::PageCount => 1,
            Refusal::Crossed => 2,
            Refusal::OffAxis => 3,
            Refusal::Live => 4,
            Refusal::Absent => 5,
            Refusal::Full => 6,
            Refusal::ShortBuffer => 7,
            Refusal::FewMarks => 8,
            Refusal::Damaged => 9,
        }
    }

    // Why, in words.
    fn reason(self) -> &'static str {
        match self {
            Refusal::PageCount => "a card has 2 to 65,535 pages",
            Refusal::Crossed => "the low corner exceeds the high one",
            Refusal::OffAxis => "off its axis",
            Refusal::Live => "the point is live already",
            Refusal::Absent => "the point is not live",
            Refusal::Full => "the card is full",
            Refusal::ShortBuffer => "the buffer is too short",
            Refusal::FewMarks => "too few marks",
            Refusal::Damaged => "the card is damaged",
        }
    }
}

impl fmt::Display for Refusal {
    fn fmt<W: fmt::Write>(&self, f: &mut fmt::Formatter<W>) -> fmt::Result {
        write!(f, "refused {}: {}", self.number(), self.reason())
    }
}

// Two refusals with one number are one refusal.
pub fn numbers_stand()
    ensures { NumbersLaw }
{}
