//! What the expansion is to the handed kinds, and what their faults are. The functions do nothing:
//! their contracts state laws that hold of all lists of handed kinds, types and walks.

ghost use Rattle.handed_kinds.specs.Laws.{FlatIsOneToOne, OneValidity, MovesAreFlat, WalksAreFlat, LoopsAreFlat, RelationIsFlat};
ghost use Rattle.handed_kinds.specs.Laws.{FaultsRefute, OneHandedFault};

/// Handed types and the types of the expansion are one to one, a list of handed kinds is valid
/// exactly where its expansion is, and the moves, the measures, the walks, the loops and the related
/// walks of both are the same.
pub fn expansion_laws()
    ensures one_to_one { FlatIsOneToOne }
    ensures validity { OneValidity }
    ensures moves { MovesAreFlat }
    ensures walks { WalksAreFlat }
    ensures loops { LoopsAreFlat }
    ensures related { RelationIsFlat }
{}

/// Handed kinds have one fault at most, and none where they are valid.
pub fn fault_laws()
    ensures refuted { FaultsRefute }
    ensures one { OneHandedFault }
{}
