//! The states that the tree reaches.
ghost use Rattle.std.specs.Prelude.{◌≡◌, ◌<◌, ◌≤◌, ℕ, List, length, slice_index_or, true, IfOk, OnOk};
ghost use Rattle.tile_model.specs.Tessellations.{TileKind};
ghost use Rattle.tree_model.specs.declared.Rule.TheVariants.{Parent, Child};
ghost use Rattle.tree_model.specs.Automata.{TreeAutomaton, state_at, root_at};
ghost use Rattle.tree_model.specs.Conditions.{IsAccepted};
ghost use Rattle.merge_model.specs.Merging.{IsReachable};
ghost use Rattle.rules_tools.specs.Reached.{AreReached, IsSearch, Grows, ChildrenMarked, mark_at, queued_at};

use crate::children::child;
use rules_data::Automaton;
use std::alloc::{AllocError, Global};
use tile_kinds::Tessellation;

/// Whether a state is marked.
fn is_marked(marks: &[bool], s: u32) -> bool
    ensures { result ≡ mark_at marks.now s }
{
    match marks.get(s as usize) {
        Some(mark) => *mark,
        None => false,
    }
}

/// Marks a state and puts it behind the queue, where it was not marked.
#[tactic(auto, using(crate::proofs::Searching::marked_search, crate::proofs::Searching::marked_grows, crate::proofs::Searching::same_grows, crate::proofs::Searching::set_marked))]
fn mark(marks: &mut Vec<bool>, queue: &mut Vec<u32>, s: u32) -> Result<(), AllocError>
    requires { s < length marks.old.items }
    ensures search { (kinds : List TileKind) (a : TreeAutomaton)
        → IsSearch kinds a marks.old.items queue.old.items → IsReachable kinds a s
        → OnOk result (IsSearch kinds a marks.new.items queue.new.items) }
    ensures grows { OnOk result
        (Grows marks.old.items queue.old.items marks.new.items queue.new.items) }
    ensures marked { OnOk result (mark_at marks.new.items s ≡ true) }
{
    if is_marked(marks, s) {
        return Ok(());
    }
    queue.push(s)?;
    marks[s as usize] = true;
    Ok(())
}

/// Marks the roots.
fn mark_roots(
    marks: &mut Vec<bool>,
    queue: &mut Vec<u32>,
    tess: &Tessellation,
    a: &Automaton,
) -> Result<(), AllocError>
    requires accepted { IsAccepted tess.now a.now }
    requires search { IsSearch tess.now a.now marks.old.items queue.old.items }
    ensures search { OnOk result (IsSearch tess.now a.now marks.new.items queue.new.items) }
    ensures marked { OnOk result ((k : ℕ) → k < length tess.now
        → mark_at marks.new.items (root_at a.now k) ≡ true) }
{
    for k in 0..tess.kinds() {
        mark(marks, queue, a.root(k as u8))?;
    }
    Ok(())
}

/// Marks the child of a state that is reachable at a side, if it is a Child.
fn mark_child(
    marks: &mut Vec<bool>,
    queue: &mut Vec<u32>,
    tess: &Tessellation,
    a: &Automaton,
    s: u32,
    i: usize,
) -> Result<(), AllocError>
    requires accepted { IsAccepted tess.now a.now }
    requires search { IsSearch tess.now a.now marks.old.items queue.old.items }
    requires reachable { IsReachable tess.now a.now s }
    ensures search { OnOk result (IsSearch tess.now a.now marks.new.items queue.new.items) }
    ensures grows { OnOk result
        (Grows marks.old.items queue.old.items marks.new.items queue.new.items) }
    ensures marked { OnOk result ((c : ℕ)
        → slice_index_or (state_at a.now s).rules i Parent ≡ Child c
        → mark_at marks.new.items c ≡ true) }
{
    let Some(child) = child(a, s, i) else {
        return Ok(());
    };
    mark(marks, queue, child)
}

/// Marks the children of a state that is reachable.
fn mark_children(
    marks: &mut Vec<bool>,
    queue: &mut Vec<u32>,
    tess: &Tessellation,
    a: &Automaton,
    s: u32,
) -> Result<(), AllocError>
    requires accepted { IsAccepted tess.now a.now }
    requires search { IsSearch tess.now a.now marks.old.items queue.old.items }
    requires reachable { IsReachable tess.now a.now s }
    ensures search { OnOk result (IsSearch tess.now a.now marks.new.items queue.new.items) }
    ensures grows { OnOk result
        (Grows marks.old.items queue.old.items marks.new.items queue.new.items) }
    ensures marked { OnOk result ((i c : ℕ) → i < length (state_at a.now s).rules
        → slice_index_or (state_at a.now s).rules i Parent ≡ Child c
        → mark_at marks.new.items c ≡ true) }
{
    for i in 0..a.state(s).rules.len() {
        mark_child(marks, queue, tess, a, s, i)?;
    }
    Ok(())
}

/// Whether each state is reachable.
pub(crate) fn reached(
    alloc: Global,
    tess: &Tessellation,
    a: &Automaton,
) -> Result<Vec<bool>, AllocError>
    requires { IsAccepted tess.now a.now }
    ensures { IfOk result (λ v. AreReached tess.now a.now v.items) }
{
    let mut marks = vec![in alloc; false; a.states.len()]?;
    let mut queue = Vec::with_capacity(alloc, a.states.len())?;
    mark_roots(&mut marks, &mut queue, tess, a)?;
    let mut next = 0;
    while next < queue.len() {
        let s = queue[next];
        mark_children(&mut marks, &mut queue, tess, a, s)?;
        next += 1;
    }
    Ok(marks)
}
