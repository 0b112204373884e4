// One change of a log.
use std::marker::Model;

/// A change of a walk. Behind its first `at` letters the loop of number `which`, 1 to 5, is
/// inserted, or follows and is deleted: 1 is there and back (XX), 2 is left and right (LR), 3 is
/// right and left (RL), 4 is a full turn in the tile, 5 is once round the corner. Any numbers may
/// stand here; a change whose loop is none of these is allowed nowhere.
#[derive(Clone, Copy, Debug, PartialEq, Eq)]
pub struct Change {
    pub at: u64,
    pub which: u8,
    pub insert: bool,
}

impl Model for Change {
    ghost use Rattle.tile_model.specs.Relation.{Change as Entry};

    ghost Value = { Entry };

    ghost view = { λ c. record { at = c.at; loop = c.which; insert = c.insert } };

    ghost inverse = { λ c. record { at = c.at; which = c.loop; insert = c.insert } };
}
