// The first condition: whatever a table names is there.
ghost use Rattle.std.specs.Prelude.{◌≡◌, ◌<◌, ◌≤◌, ◌↔◌, ℕ, suc, length, IsTrue, OnOk, IfErr};
ghost use Rattle.tree_model.specs.Conditions.{HasLimits, HasRootState, HasOffsets, HasOuter, HasTables, HasTargets};
ghost use Rattle.structure_check.specs.Broken.{IsFirstBroken, PartHolds, part_size};
ghost use Rattle.tree_model.specs.Automata.{state_at};
ghost use Rattle.structure_check.specs.Search.{PartsBelow, IsPartReady, part_number, AreSmall, HasTargetsAt};

use crate::broken::Broken;
use crate::reading::sides_of;
use rules_data::{Automaton, Rule};
use tile_kinds::Tessellation;

/// A part of the first condition.
#[derive(Clone, Copy, Debug, PartialEq, Eq)]
pub enum TablePart {
    Limits,
    Roots,
    Offsets,
    Outers,
    Sizes,
    Targets,
}

/// The number of the part.
fn number(part: TablePart) -> u8
    ensures { result ≡ part_number part }
{
    match part {
        TablePart::Limits => 0,
        TablePart::Roots => 1,
        TablePart::Offsets => 2,
        TablePart::Outers => 3,
        TablePart::Sizes => 4,
        TablePart::Targets => 5,
    }
}

/// The number of indices at which the part is read.
fn size(part: TablePart, tess: &Tessellation, a: &Automaton) -> u32
    requires { IsPartReady part tess.now a.now }
    ensures { result ≡ part_size tess.now a.now (part_number part) }
{
    match part {
        TablePart::Limits => 1,
        TablePart::Roots => tess.kinds() as u32,
        TablePart::Offsets | TablePart::Outers => a.corners.len() as u32,
        TablePart::Sizes | TablePart::Targets => a.states.len() as u32,
    }
}

/// Whether the numbers of states, corner types and roots are within their limits.
fn has_limits(tess: &Tessellation, a: &Automaton) -> bool
    ensures { IsTrue result ↔ HasLimits tess.now a.now }
{
    1 <= a.states.len()
        && a.states.len() <= 100_000
        && 1 <= a.corners.len()
        && a.corners.len() <= 20_000
        && a.roots.len() == tess.kinds() as usize
}

/// Whether the root of kind `k` is a state.
#[tactic(auto, using(std::proofs::lemmas::List::get_or_default), unfolding(tree_model::specs::Automata::root_at))]
fn has_root_state(a: &Automaton, k: u32) -> bool
    requires { k < length a.now.roots }
    ensures { IsTrue result ↔ HasRootState a.now k }
{
    (a.roots[k as usize] as usize) < a.states.len()
}

/// Whether no offset is over 64 in absolute value.
fn are_small(offsets: &[i8]) -> bool
    ensures { IsTrue result ↔ AreSmall offsets.now }
{
    for h in offsets {
        if *h < -64 || *h > 64 {
            return false;
        }
    }
    true
}

/// Whether a corner type has 3 to 64 offsets, the first 0 and none over 64 in absolute value.
#[tactic(auto, unfolding(tree_model::specs::Automata::offset, tree_model::specs::Automata::corner_valence))]
fn has_offsets(a: &Automaton, g: u32) -> bool
    requires { g < length a.now.corners }
    ensures { IsTrue result ↔ HasOffsets a.now g }
{
    let offsets = a.corner(g).offsets.as_slice();
    3 <= offsets.len() && offsets.len() <= 64 && offsets[0] == 0 && are_small(offsets)
}

/// Whether the outer of a corner type is a corner type, with one more place behind the place that
/// it names.
fn has_outer(a: &Automaton, g: u32) -> bool
    requires { g < length a.now.corners }
    ensures { IsTrue result ↔ HasOuter a.now g }
{
    let outer = a.outer(g);
    (outer.corner as usize) < a.corners.len()
        && (outer.place as usize) + 1 < a.valence(outer.corner)
}

/// Whether the kind and the residue of a state are there, and a rule and a claim for each side.
#[tactic(auto, unfolding(tree_model::specs::Automata::side_count))]
fn has_tables(tess: &Tessellation, a: &Automaton, s: u32) -> bool
    requires { s < length a.now.states }
    ensures { IsTrue result ↔ HasTables tess.now a.now s }
{
    let state = a.state(s);
    if (state.kind as u16) >= tess.kinds() {
        return false;
    }
    let kind = tess.kind(state.kind);
    let sides = kind.sides as usize;
    state.off < kind.repeat && state.rules.len() == sides && state.claims.len() == sides
}

/// Whether the rule and the claim of side `i` name states, corner types and places that are there.
fn has_targets_at(a: &Automaton, s: u32, i: u8) -> bool
    requires state { s < length a.now.states }
    requires rule { i < length (state_at a.now s).rules }
    requires claim { i < length (state_at a.now s).claims }
    ensures { IsTrue result ↔ HasTargetsAt a.now s i }
{
    let child_is_state = match a.rule(s, i) {
        Rule::Child(c) => (c as usize) < a.states.len(),
        _ => true,
    };
    let claim = a.claim(s, i);
    child_is_state
        && (claim.corner as usize) < a.corners.len()
        && (claim.place as usize) < a.valence(claim.corner)
}

/// Whether all rules and claims of a state name what is there.
fn has_targets(tess: &Tessellation, a: &Automaton, s: u32) -> bool
    requires state { s < length a.now.states }
    requires tables { HasTables tess.now a.now s }
    ensures { IsTrue result ↔ HasTargets tess.now a.now s }
{
    for i in 0..sides_of(tess, a, s) {
        if !has_targets_at(a, s, i) {
            return false;
        }
    }
    true
}

/// Whether a part holds at an index.
#[tactic(auto, unfolding(crate::specs::Broken::PartHolds))]
fn holds(part: TablePart, tess: &Tessellation, a: &Automaton, index: u32) -> bool
    requires ready { IsPartReady part tess.now a.now }
    requires index { index < part_size tess.now a.now (part_number part) }
    ensures { IsTrue result ↔ PartHolds tess.now a.now (part_number part) index }
{
    match part {
        TablePart::Limits => has_limits(tess, a),
        TablePart::Roots => has_root_state(a, index),
        TablePart::Offsets => has_offsets(a, index),
        TablePart::Outers => has_outer(a, index),
        TablePart::Sizes => has_tables(tess, a, index),
        TablePart::Targets => has_targets(tess, a, index),
    }
}

/// Looks for the first index at which a part fails.
pub fn check_part(part: TablePart, tess: &Tessellation, a: &Automaton) -> Result<(), Broken>
    requires { PartsBelow tess.now a.now (part_number part) }
    ensures ok { OnOk result (PartsBelow tess.now a.now (suc (part_number part))) }
    ensures err { IfErr result (λ b. IsFirstBroken tess.now a.now b.condition b.first b.second) }
{
    for index in 0..size(part, tess, a) {
        if !holds(part, tess, a, index) {
            return Err(Broken {
                condition: 1,
                first: index,
                second: number(part),
            });
        }
    }
    Ok(())
}
