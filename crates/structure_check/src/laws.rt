//! What the definition of the first broken place implies. The function does nothing: its contract
//! states laws that hold of all automata.
ghost use Rattle.structure_check.specs.Laws.{BrokenRefutes, OneFirstBroken};

/// An automaton has one first broken place at most, and none where it meets all conditions.
pub fn first_broken_law()
    ensures refuted { BrokenRefutes }
    ensures one { OneFirstBroken }
{}
