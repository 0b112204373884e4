//! A state: what it says of each side and of each corner of a tile.
ghost use Rattle.std.specs.Prelude.{◌≡◌, IfOk};

use std::alloc::{AllocError, Global};
use std::marker::Model;
use tree_model::{Claim, Rule};

/// A state of a tile: its kind, the residue of its side 0, a rule for each side, and for each
/// corner what it claims of it. Corner `i` lies between sides `i` and `i + 1`.
#[derive(Debug, Drop)]
pub struct State {
    pub kind: u8,
    pub off: u8,
    pub rules: Vec<Rule>,
    pub claims: Vec<Claim>,
}

impl Model for State {
    ghost use Rattle.tree_model.specs.Automata.{TreeState};

    ghost Value = { TreeState };

    ghost view = { λ s. record {
      kind = s.kind;
      off = s.off;
      rules = s.rules.items;
      claims = s.claims.items;
    } };
}

impl State {
    /// An equal state. Only want of memory refuses it.
    pub fn copy(&self, alloc: Global) -> Result<State, AllocError>
        ensures equal { IfOk result (λ s. s ≡ self.now) }
    {
        Ok(State {
            kind: self.kind,
            off: self.off,
            rules: Vec::from_slice(alloc, &self.rules)?,
            claims: Vec::from_slice(alloc, &self.claims)?,
        })
    }
}
