//! `Ring`: the names of one ring, one by one in order.
ghost use Rattle.std.specs.Prelude.{◌≡◌, ◌<◌, ◌≤◌, ◌∷◌, [], length, drop, IfOk, MatchOption};
ghost use Rattle.tree_model.specs.Names.{IsRing};

use crate::trail::Trail;
use cell_names::Name;
use std::alloc::{AllocError, Global};
use std::marker::Model;
use structure_check::Rules;

/// The names of a ring that are still to be given, in order. It borrows the rules.
#[derive(Debug, Drop)]
pub struct Ring<'r> {
    rules: &'r Rules,
    kind: u8,
    trail: Trail,
}

impl<'r> Model for Ring<'r> {
    ghost use Rattle.std.specs.Prelude.{length};
    ghost use Rattle.ring_listing.specs.Rings.{Listing};

    ghost Value = { Listing };

    ghost use Rattle.ring_listing.specs.Trails.{IsTrail, names_left};

    ghost view = { λ r. record {
      rules = r.rules.now;
      kind = r.kind;
      sides = length r.trail.name;
      rest = names_left r.rules.now r.kind r.trail;
    } };

    ghost invariant = { λ r. IsTrail r.rules.now r.kind r.trail };
}

impl<'r> Ring<'r> {
    ghost use Rattle.std.specs.Borrow.{sem};
    ghost use Rattle.ring_listing.specs.Stepping.{GoesOn};

    /// All names of ring `d` of a kind, which is one of the tessellation. Nothing is counted: who asks
    /// for a ring far out may get more names than can ever be listed. All room is taken here.
    pub fn of(alloc: Global, r: &'r Rules, kind: u8, d: u32) -> Result<Ring<'r>, AllocError>
        requires kind { kind < length r.now.kinds }
        ensures names { IfOk result (λ ring. IsRing r.now.kinds r.now.automaton kind d ring.rest) }
        ensures rules { IfOk result (λ ring. ring.rules ≡ r.now) }
        ensures kind { IfOk result (λ ring. ring.kind ≡ kind) }
        ensures sides { IfOk result (λ ring. ring.sides ≡ d) }
    {
        Ok(Ring {
            rules: r,
            kind,
            trail: Trail::start(alloc, r, kind, d)?,
        })
    }

    /// The next name, or None where all were given, also at each later call. Takes no memory.
    ///
    /// It tries all children of the tiles on the way. Where no tile at this distance descends from
    /// many of them, a step takes as long as going through them.
    pub fn step(&mut self) -> Option<&Name>
        ensures gives { MatchOption result (self.old.rest ≡ [])
            (λ name. self.old.rest ≡ name.now ∷ drop 1 self.old.rest) }
        ensures* after { sem 𝓛 (GoesOn self.entry) }
    {
        if self.trail.advance(self.rules, self.kind) {
            Some(self.trail.name())
        } else {
            None
        }
    }
}
