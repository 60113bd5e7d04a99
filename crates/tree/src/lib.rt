// What a draft's tree is, and what a lawful card is: definitions and laws.
#![tactic(auto)]

ghost use Rattle.tree.specs.Example.{Example};
ghost use Rattle.tree.specs.Laws.{OneTreeLaw, PointsLaw, PageLaw, CountLaw, DepthLaw, SetLaw, WayLaw, ShortWayLaw, OneSetLaw, WholeCardLaw};

// The laws of sets and trees, for every kind of points.
pub fn trees_stand<P>()
    ensures one { OneTreeLaw P }
    ensures points { PointsLaw P }
    ensures pages { PageLaw P }
    ensures count { CountLaw P }
    ensures depth { DepthLaw P }
    ensures sets { SetLaw P }
{}

// The laws of ways and of lawful cards, for every kind of points.
pub fn cards_stand<P>()
    ensures way { WayLaw P }
    ensures short { ShortWayLaw P }
    ensures one { OneSetLaw P }
    ensures whole { WholeCardLaw P }
{}

// The worked example: sixteen lay points, their tree and a lawful card of four pages.
pub fn example_stands()
    ensures { Example }
{}
