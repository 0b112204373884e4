// Reading the tables of a state whose kind, rules and claims are there.
ghost use Rattle.std.specs.Prelude.{◌≡◌, ◌<◌, ◌≤◌, ◌↔◌, suc, length, IsTrue, pos, ◌+ℤ◌};
ghost use Rattle.tile_model.specs.Tessellations.{IsType};
ghost use Rattle.tree_model.specs.Automata.{claim_at, side_count, type_at, offset, corner_valence, next, previous};
ghost use Rattle.tree_model.specs.Conditions.{HasTables, IsClosedTable};
ghost use Rattle.structure_check.specs.Search.{IsClaim};

use rules_data::{Automaton, Claim, left_side, right_side};
use tile_kinds::{DartType, Tessellation};

/// The number of sides of a tile in state `s`.
#[tactic(auto, unfolding(tree_model::specs::Automata::side_count))]
pub fn sides_of(tess: &Tessellation, a: &Automaton, s: u32) -> u8
    requires state { s < length a.now.states }
    requires tables { HasTables tess.now a.now s }
    ensures value { result ≡ side_count tess.now a.now s }
    ensures at_least { 3 ≤ result }
    ensures at_most { result ≤ 64 }
{
    tess.sides(tess.start(a.state(s).kind))
}

/// The type of side `i` of a tile in state `s`.
#[tactic(auto, unfolding(tree_model::specs::Automata::type_at))]
pub fn type_of(tess: &Tessellation, a: &Automaton, s: u32, i: u8) -> DartType
    requires state { s < length a.now.states }
    requires tables { HasTables tess.now a.now s }
    ensures value { result ≡ type_at tess.now a.now s i }
    ensures is_type { IsType tess.now result }
{
    let state = a.state(s);
    let kind = tess.kind(state.kind);
    let residue = (state.off as u16 + i as u16) % kind.repeat as u16;
    DartType {
        kind: state.kind,
        residue: residue as u8,
    }
}

/// The side behind side `i`, at its left.
pub fn side_behind(tess: &Tessellation, a: &Automaton, s: u32, i: u8) -> u8
    requires state { s < length a.now.states }
    requires tables { HasTables tess.now a.now s }
    requires side { i < side_count tess.now a.now s }
    ensures value { result ≡ next (side_count tess.now a.now s) i }
    ensures side { result < side_count tess.now a.now s }
{
    left_side(sides_of(tess, a, s), i)
}

/// The claim of the corner before side `i`, at its right end.
pub fn claim_before(tess: &Tessellation, a: &Automaton, s: u32, i: u8) -> Claim
    requires closed { IsClosedTable tess.now a.now }
    requires state { s < length a.now.states }
    requires side { i < side_count tess.now a.now s }
    ensures value { result ≡ claim_at a.now s (previous (side_count tess.now a.now s) i) }
    ensures known { IsClaim a.now result }
{
    a.claim(s, right_side(sides_of(tess, a, s), i))
}

/// Whether the tile at place `t` of a corner lies one level deeper than the one at place `u`.
pub fn is_deeper(a: &Automaton, g: u32, t: u8, u: u8) -> bool
    requires corner { g < length a.now.corners }
    requires deeper { t < corner_valence a.now g }
    requires other { u < corner_valence a.now g }
    ensures { IsTrue result ↔ (offset a.now g t ≡ offset a.now g u +ℤ pos 1) }
{
    a.offset(g, t) as i16 == a.offset(g, u) as i16 + 1
}
