//! The first path that tells two states apart.
ghost use Rattle.std.specs.Prelude.{◌≡◌, ◌<◌, ◌≤◌, ◌↔◌, ℕ, List, length, IfOk, IfSome, IsNone};
ghost use Rattle.tile_model.specs.Validity.{IsValid};
ghost use Rattle.tree_model.specs.Conditions.{IsAccepted};
ghost use Rattle.merge_model.specs.Telling.{TellsApart, IsFirstTelling};
ghost use Rattle.rules_tools.specs.Classes.{AreFaces};

use crate::numbers::zeros;
use crate::rounds::round;
use crate::search::{begin, differ, pass_entry, path};
use cell_names::Name;
use rules_data::Automaton;
use std::alloc::{AllocError, Global};
use structure_check::Rules;
use tile_kinds::Tessellation;

/// The numbers of the faces of all states.
fn faces(alloc: Global, a: &Automaton) -> Result<Vec<u32>, AllocError>
    requires { length a.now.states ≤ 100000 }
    ensures { IfOk result (λ v. AreFaces a.now v.items) }
{
    let start = zeros(alloc, 0)?;
    let (faces, _) = round(alloc, a, &start)?;
    Ok(faces)
}

/// The first path that tells two states apart, None where no path does.
fn find(
    alloc: Global,
    tess: &Tessellation,
    automaton: &Automaton,
    a: u32,
    b: u32,
) -> Result<Option<Name>, AllocError>
    requires valid { IsValid tess.now }
    requires accepted { IsAccepted tess.now automaton.now }
    requires first { a < length automaton.now.states }
    requires second { b < length automaton.now.states }
    ensures none { IfOk result (λ o. IsNone o
        ↔ ((path : List ℕ) → ¬ (TellsApart tess.now automaton.now a b path))) }
    ensures some { IfOk result (λ o. IfSome o (IsFirstTelling tess.now automaton.now a b)) }
{
    let faces = faces(alloc, automaton)?;
    let mut search = begin(alloc, tess, automaton, a, b)?;
    let mut next = 0;
    while (next as usize) < search.queue.len() {
        if differ(&search, &faces, next) {
            return Ok(Some(path(alloc, tess, automaton, &search, next)?));
        }
        pass_entry(&mut search, tess, automaton, next)?;
        next += 1;
    }
    Ok(None)
}

/// The least path that tells two states apart, by length and then in the order of names; None where
/// no path does. Both are states of the rules. Only want of memory refuses it.
pub fn telling(alloc: Global, r: &Rules, a: u32, b: u32) -> Result<Option<Name>, AllocError>
    requires first { a < length r.now.automaton.states }
    requires second { b < length r.now.automaton.states }
    ensures none { IfOk result (λ o. IsNone o
        ↔ ((path : List ℕ) → ¬ (TellsApart r.now.kinds r.now.automaton a b path))) }
    ensures some { IfOk result
        (λ o. IfSome o (IsFirstTelling r.now.kinds r.now.automaton a b)) }
{
    find(alloc, r.tessellation(), r.automaton(), a, b)
}
