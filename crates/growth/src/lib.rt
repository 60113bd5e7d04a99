// What a put and a take make of a laid tree: relations, and the laws that both keep the halving rule and change few pages.
#![tactic(auto)]

ghost use Rattle.growth.specs.Laws.{PutLaw, TakeLaw};

// The laws of growing and shrinking trees, for every kind of points.
pub fn growth_stands<P>()
    ensures put { PutLaw P }
    ensures take { TakeLaw P }
{}
