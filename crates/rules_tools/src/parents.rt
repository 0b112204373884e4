//! The parents of states: which states have a state as their child, and at which sides.
ghost use Rattle.std.specs.Prelude.{◌≡◌, ◌⊎◌, ◌<◌, ◌≤◌, ℕ, List, length, true, IfOk, IfSome};
ghost use Rattle.tree_model.specs.Automata.{TreeAutomaton};
ghost use Rattle.rules_tools.specs.declared.parents.Parent.{Parent};
ghost use Rattle.rules_tools.specs.Searches.{IsChild};
ghost use Rattle.rules_tools.specs.Parents.{AreRising, IsSpaced, HasParent, AreTrue, AreAll};

use crate::children::{child, count};
use crate::keys::class_of;
use crate::numbers::zeros;
use rules_data::{Automaton, Rule};
use std::alloc::{AllocError, Global};

/// A state, and a side at which it has some state as its child.
#[derive(Clone, Copy, Debug, PartialEq, Eq)]
pub(crate) struct Parent {
    pub(crate) state: u32,
    pub(crate) side: u8,
}

/// The parents of all states in one list: those of state `c` are the entries from `starts[c]` up to
/// `ends[c]`, and there is room for them up to `starts[c + 1]`.
#[derive(Debug, Drop)]
pub(crate) struct Parents {
    pub(crate) starts: Vec<u32>,
    pub(crate) ends: Vec<u32>,
    pub(crate) entries: Vec<Parent>,
}

/// Counts the children that rules name.
fn count_children(counts: &mut Vec<u32>, rules: &[Rule]) {
    for rule in rules {
        if let Rule::Child(child) = rule {
            let child = *child as usize;
            if child < counts.len() {
                counts[child] = counts[child].saturating_add(1);
            }
        }
    }
}

/// How often each state is a child.
fn child_counts(alloc: Global, a: &Automaton) -> Result<Vec<u32>, AllocError>
    requires { length a.now.states ≤ 100000 }
{
    let mut counts = zeros(alloc, a.states.len())?;
    for s in 0..count(a) {
        count_children(&mut counts, &a.state(s).rules);
    }
    Ok(counts)
}

/// Where the room for each state begins, and behind the last one where it ends.
fn room_starts(alloc: Global, counts: &[u32]) -> Result<Vec<u32>, AllocError>
    ensures { IfOk result (λ v. AreRising v.items) }
{
    let mut starts = Vec::new(alloc);
    let mut next: u32 = 0;
    starts.push(next)?;
    for count in counts {
        next = next.saturating_add(*count);
        starts.push(next)?;
    }
    Ok(starts)
}

/// Room for the parents of all states, with none in it.
fn room(alloc: Global, a: &Automaton) -> Result<Parents, AllocError>
    requires { length a.now.states ≤ 100000 }
    ensures spaced { IfOk result (λ p. IsSpaced p) }
    ensures none { IfOk result (λ p. (c : ℕ) (x : Parent) → HasParent p c x → ⊥) }
{
    let counts = child_counts(alloc, a)?;
    let starts = room_starts(alloc, &counts)?;
    let ends = Vec::from_slice(alloc, &starts)?;
    let none = Parent { state: 0, side: 0 };
    let entries = vec![in alloc; none; class_of(&starts, count(a)) as usize]?;
    Ok(Parents {
        starts,
        ends,
        entries,
    })
}

/// Puts a parent behind those of its child. Answers whether there was room.
fn put(p: &mut Parents, child: u32, parent: Parent) -> bool
    requires { IsSpaced p.old }
    ensures spaced { IsSpaced p.new }
    ensures put { result ≡ true → HasParent p.new child parent }
    ensures kept { (c : ℕ) (x : Parent) → HasParent p.old c x → HasParent p.new c x }
    ensures only { (c : ℕ) (x : Parent) → HasParent p.new c x
        → HasParent p.old c x ⊎ ((c ≡ child) × (x ≡ parent)) }
{
    let c = child as usize;
    if c >= p.ends.len() || c + 1 >= p.starts.len() {
        return false;
    }
    let at = p.ends[c];
    if at >= p.starts[c + 1] || at as usize >= p.entries.len() {
        return false;
    }
    p.entries[at as usize] = parent;
    p.ends[c] = at + 1;
    true
}

/// Puts a state behind the parents of its child at a side, where it has one. Answers whether there
/// was room.
fn put_side(p: &mut Parents, a: &Automaton, s: u32, side: u8) -> bool
    requires state { s < length a.now.states }
    requires spaced { IsSpaced p.old }
    requires sound { AreTrue a.now p.old }
    ensures spaced { IsSpaced p.new }
    ensures sound { AreTrue a.now p.new }
    ensures kept { (c : ℕ) (x : Parent) → HasParent p.old c x → HasParent p.new c x }
    ensures put { result ≡ true → (c : ℕ) → IsChild a.now s side c
        → HasParent p.new c (record { state = s; side = side }) }
{
    match child(a, s, side as usize) {
        Some(child) => put(p, child, Parent { state: s, side }),
        None => true,
    }
}

/// Puts a state behind the parents of its children. Answers whether there was room.
fn put_state(p: &mut Parents, a: &Automaton, s: u32) -> bool
    requires state { s < length a.now.states }
    requires spaced { IsSpaced p.old }
    requires sound { AreTrue a.now p.old }
    ensures spaced { IsSpaced p.new }
    ensures sound { AreTrue a.now p.new }
    ensures kept { (c : ℕ) (x : Parent) → HasParent p.old c x → HasParent p.new c x }
    ensures all { result ≡ true → (i c : ℕ) → i < 64 → IsChild a.now s i c
        → HasParent p.new c (record { state = s; side = i }) }
{
    for side in 0..64 {
        if !put_side(p, a, s, side) {
            return false;
        }
    }
    true
}

/// The parents of all states. None where they find no room, which is never.
pub(crate) fn parents_of(alloc: Global, a: &Automaton) -> Result<Option<Parents>, AllocError>
    requires { length a.now.states ≤ 100000 }
    ensures sound { IfOk result (λ o. IfSome o (AreTrue a.now)) }
    ensures all { IfOk result (λ o. IfSome o (λ p. AreAll a.now p (length a.now.states))) }
{
    let mut parents = room(alloc, a)?;
    for s in 0..count(a) {
        if !put_state(&mut parents, a, s) {
            return Ok(None);
        }
    }
    Ok(Some(parents))
}
