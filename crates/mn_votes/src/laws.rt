ghost use Rattle.mn_votes.specs.Laws.{FreshIsSound, HeldPartsApart, DecidedOneWay};

// Each law is the contract of a function that does nothing: what it says is proved, and may be
// used, by calling it.

// Votes and decisions

/// The records of fresh nodes fit together.
pub fn fresh_is_sound()
    ensures { FreshIsSound }
{}

/// The parts that a node holds do not conflict, at every place of every run.
pub fn held_parts_apart()
    ensures { HeldPartsApart }
{}

/// No id is decided both ways.
pub fn decided_one_way()
    ensures { DecidedOneWay }
{}
