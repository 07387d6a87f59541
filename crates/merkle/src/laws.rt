// What holds of trees, climbs and layouts, each a clause that every hash meets. The functions do nothing.
ghost use Rattle.merkle.specs.Binding.{Any, Binds, Digest, NodesBind};
ghost use Rattle.merkle.specs.Climb.{plain_rule};
ghost use Rattle.merkle.specs.Laws.{ClimbsBoth, ClimbsOwn, FirstInParts, FirstIs, FrontStands, LayoutsStand, Lengths, Parts, TwoBind};

use hash::digest::Hash;

// A tree's own path leads to its root, and climbs can be taken in parts.
pub fn trees_climb<H: Hash>()
    ensures own { ClimbsOwn H.Hash.meaning }
    ensures lengths { Lengths H.Hash.meaning }
    ensures parts { Parts H.Hash.meaning }
{}

// Climbs that end alike show their first collision.
pub fn climbs_bind<H: Hash>()
    ensures leaves { Binds plain_rule H.Hash.meaning Any Digest }
    ensures nodes { NodesBind plain_rule H.Hash.meaning Digest }
    ensures through { TwoBind H.Hash.meaning }
    ensures first { FirstIs H.Hash.meaning }
    ensures parts { FirstInParts H.Hash.meaning }
{}

// Whole trees, laid out level by level.
pub fn layouts_stand<H: Hash>()
    ensures stand { LayoutsStand H.Hash.meaning }
    ensures front { FrontStands H.Hash.meaning }
    ensures both { ClimbsBoth H.Hash.meaning }
{}
