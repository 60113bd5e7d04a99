// The code that orders points, as numbers and lists of coordinates: interleaved bits, shared first bits, corners and halves.
#![tactic(auto)]

ghost use Rattle.zorder.specs.Laws.{TakenLaw, BelowLaw, EveryCodeLaw, OnePointLaw, OrderLaw, ZerosLaw};
ghost use Rattle.zorder.specs.Laws.{WindowLaw, BoundsLaw, DepthLaw, CornerLaw, PartsLaw};
ghost use Rattle.zorder.specs.Laws.{HalvesLaw, JoinLaw, ApartLaw};

pub mod weave;

// The laws of codes, for every list of axes of at most 32 bits each.
pub fn codes_stand()
    ensures taken { TakenLaw }
    ensures below { BelowLaw }
    ensures every_code { EveryCodeLaw }
    ensures one_point { OnePointLaw }
    ensures order { OrderLaw }
    ensures zeros { ZerosLaw }
{}

// The laws of corners, for every list of axes of at most 32 bits each.
pub fn corners_stand()
    ensures window { WindowLaw }
    ensures bounds { BoundsLaw }
    ensures depth { DepthLaw }
    ensures corner { CornerLaw }
    ensures parts { PartsLaw }
{}

// The laws of halves, for every list of axes of at most 32 bits each.
pub fn halves_stand()
    ensures halves { HalvesLaw }
    ensures join { JoinLaw }
    ensures apart { ApartLaw }
{}
