//! Whether classes are stable: states of one class have one key by the classes.
ghost use Rattle.std.specs.Prelude.{◌≡◌, ◌<◌, ◌≤◌, List, ℕ, length, true, IfOk};
ghost use Rattle.tile_model.specs.Tessellations.{TileKind};
ghost use Rattle.tree_model.specs.Conditions.{IsAccepted};
ghost use Rattle.rules_tools.specs.Keys.{key_of};
ghost use Rattle.rules_tools.specs.Classes.{AreStable};
ghost use Rattle.rules_tools.specs.Firsts.{first_at, HasFirst, AreFirsts, KeepsFirsts};

use crate::children::count;
use crate::keys::{class_of, key};
use rules_data::Automaton;
use std::alloc::{AllocError, Global};

/// Whether two states have one key.
fn same_key(alloc: Global, a: &Automaton, class: &[u32], s: u32, t: u32) -> Result<bool, AllocError>
    requires first { s < length a.now.states }
    requires second { t < length a.now.states }
    ensures { IfOk result
        (λ b. b ≡ true → key_of a.now class.now s ≡ key_of a.now class.now t) }
{
    let first = key(alloc, a, class, s)?;
    let second = key(alloc, a, class, t)?;
    Ok(first.as_slice() == second.as_slice())
}

/// The first state that was met of a class.
fn first_of(firsts: &[Option<u32>], number: u32) -> Option<u32>
    ensures { result ≡ first_at firsts.now number }
{
    match firsts.get(number as usize) {
        Some(first) => *first,
        None => None,
    }
}

/// Whether a state has the key of the first state of its class, which it is where none was met.
fn agrees(
    alloc: Global,
    a: &Automaton,
    class: &[u32],
    firsts: &mut Vec<Option<u32>>,
    s: u32,
) -> Result<bool, AllocError>
    requires state { s < length a.now.states }
    requires firsts { AreFirsts a.now firsts.old.items }
    ensures firsts { AreFirsts a.now firsts.new.items }
    ensures kept { KeepsFirsts firsts.old.items firsts.new.items }
    ensures has { IfOk result (λ b. b ≡ true → HasFirst a.now class.now firsts.new.items s) }
{
    let number = class_of(class, s);
    if let Some(first) = first_of(firsts, number) {
        return same_key(alloc, a, class, first, s);
    }
    if number as usize >= firsts.len() {
        return Ok(false);
    }
    firsts[number as usize] = Some(s);
    Ok(true)
}

/// Whether classes are stable. Answers false too where a number is not below that of the states.
pub(crate) fn is_stable(alloc: Global, a: &Automaton, class: &[u32]) -> Result<bool, AllocError>
    requires { length a.now.states ≤ 100000 }
    ensures { (kinds : List TileKind) → IsAccepted kinds a.now
        → IfOk result (λ b. b ≡ true → AreStable kinds a.now class.now) }
{
    let mut firsts = vec![in alloc; None; a.states.len()]?;
    for s in 0..count(a) {
        if !agrees(alloc, a, class, &mut firsts, s)? {
            return Ok(false);
        }
    }
    Ok(true)
}
