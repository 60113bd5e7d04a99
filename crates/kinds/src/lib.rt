// Point kinds: what a kind must show, and the kinds there are.
#![tactic(auto)]

ghost use Rattle.kinds.specs.Bar.{bar_kind};
ghost use Rattle.kinds.specs.Edges.{Edges};
ghost use Rattle.kinds.specs.Lay.{lay_kind};
ghost use Rattle.kinds.specs.Numbers.{Numbers};

pub mod bar;
pub mod kind;
pub mod lay;
pub mod points;

// The numbers of each kind: W, capacity, bytes of a point, kinds of its data, directory and head pages, and the lengths of their bodies.
pub fn numbers_stand()
    ensures lay { Numbers lay_kind 28 15 4 1 3 5 61 29 18 }
    ensures bar { Numbers bar_kind 34 10 6 2 4 6 61 37 22 }
{}

// The codes at the edges of the axes, the bit that shogs -1 and 0 share, and the splits of -1 and -2048: one fact.
pub fn edges_stand()
    ensures { Edges }
{}
