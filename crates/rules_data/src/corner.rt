//! A corner type: the tiles round a corner, and the corner at the other end of its key edge.
ghost use Rattle.std.specs.Prelude.{◌≡◌, IfOk};

use std::alloc::{AllocError, Global};
use std::marker::Model;
use tree_model::Claim;

/// A corner type: for each place the depth of its tile less that of the tile at place 0 (so the
/// valence is the length of this list), and the corner at the other end of the key edge with the
/// place at which it has the tile that is at place 0 here.
#[derive(Debug, Drop)]
pub struct Corner {
    pub offsets: Vec<i8>,
    pub outer: Claim,
}

impl Model for Corner {
    ghost use Rattle.tree_model.specs.Automata.{CornerType};

    ghost Value = { CornerType };

    ghost view = { λ g. record { offsets = g.offsets.items; outer = g.outer } };
}

impl Corner {
    /// An equal corner type. Only want of memory refuses it.
    pub fn copy(&self, alloc: Global) -> Result<Corner, AllocError>
        ensures equal { IfOk result (λ g. g ≡ self.now) }
    {
        Ok(Corner {
            offsets: Vec::from_slice(alloc, &self.offsets)?,
            outer: self.outer,
        })
    }
}
