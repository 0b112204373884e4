//! The automaton that has a state for each class.
ghost use Rattle.std.specs.Prelude.{◌≡◌, ◌+◌, ◌<◌, ◌≤◌, ℕ, List, length, map, Some, true, false, IfOk, OnOk};
ghost use Rattle.tile_model.specs.Tessellations.{TileKind};
ghost use Rattle.tree_model.specs.Conditions.{IsAccepted};
ghost use Rattle.merge_model.specs.Faces.{with_child, with_children};
ghost use Rattle.merge_model.specs.Merging.{class_at, class_number, AreClasses, IsMerged};
ghost use Rattle.rules_tools.specs.Reducing.{AreOrdered, AreFirstStates};

use crate::children::count;
use rules_data::{Automaton, Corner, Rule, State};
use std::alloc::{AllocError, Global};

/// The number of the class of a state, 0 where it has none.
#[tactic(auto, unfolding(merge_model::specs::Merging::class_at))]
fn class_number(classes: &[Option<u32>], s: u32) -> u32
    ensures { result ≡ class_number classes.now s }
{
    match classes.get(s as usize) {
        Some(Some(number)) => *number,
        _ => 0,
    }
}

/// Whether the class of a state has another number, or none.
#[tactic(auto, unfolding(merge_model::specs::Merging::class_at))]
fn is_other(classes: &[Option<u32>], s: u32, number: usize) -> bool
    ensures other { result ≡ true → class_at classes.now s ≡ Some number → ⊥ }
    ensures this { result ≡ false → class_at classes.now s ≡ Some number }
{
    match classes.get(s as usize) {
        Some(Some(class)) => *class as usize != number,
        _ => true,
    }
}

/// A rule with the class of the child in the place of the child.
fn with_class(rule: Rule, classes: &[Option<u32>]) -> Rule
    ensures { result ≡ with_child (class_number classes.now) rule }
{
    match rule {
        Rule::Child(child) => Rule::Child(class_number(classes, child)),
        Rule::Parent => Rule::Parent,
        Rule::Left => Rule::Left,
        Rule::Right => Rule::Right,
    }
}

/// Rules with the classes of the children in their places.
fn rules_with_classes(
    alloc: Global,
    rules: &[Rule],
    classes: &[Option<u32>],
) -> Result<Vec<Rule>, AllocError>
    ensures { IfOk result (λ v. v.items ≡ map (with_child (class_number classes.now)) rules.now) }
{
    let mut copies = Vec::with_capacity(alloc, rules.len())?;
    for rule in rules {
        copies.push(with_class(*rule, classes))?;
    }
    Ok(copies)
}

/// A state with the classes of its children in their places.
fn with_classes(alloc: Global, state: &State, classes: &[Option<u32>]) -> Result<State, AllocError>
    ensures { IfOk result (λ u. u ≡ with_children (class_number classes.now) state.now) }
{
    Ok(State {
        kind: state.kind,
        off: state.off,
        rules: rules_with_classes(alloc, &state.rules, classes)?,
        claims: Vec::from_slice(alloc, &state.claims)?,
    })
}

/// Puts the state of the class of a state behind the others, where it is not among them.
fn add_state(
    alloc: Global,
    a: &Automaton,
    classes: &[Option<u32>],
    states: &mut Vec<State>,
    s: u32,
) -> Result<(), AllocError>
    requires state { s < length a.now.states }
    requires ordered { AreOrdered classes.now }
    requires before { AreFirstStates a.now classes.now s states.old.items }
    ensures { OnOk result (AreFirstStates a.now classes.now (s + 1) states.new.items) }
{
    if is_other(classes, s, states.len()) {
        return Ok(());
    }
    states.push(with_classes(alloc, a.state(s), classes)?)?;
    Ok(())
}

/// The states of the classes.
#[tactic(auto, using(crate::proofs::Reduced::no_states))]
fn states(alloc: Global, a: &Automaton, classes: &[Option<u32>]) -> Result<Vec<State>, AllocError>
    requires few { length a.now.states ≤ 100000 }
    requires ordered { AreOrdered classes.now }
    ensures { IfOk result
        (λ v. AreFirstStates a.now classes.now (length a.now.states) v.items) }
{
    let mut states = Vec::new(alloc);
    for s in 0..count(a) {
        add_state(alloc, a, classes, &mut states, s)?;
    }
    Ok(states)
}

/// The same corner types.
fn same_corners(alloc: Global, corners: &[Corner]) -> Result<Vec<Corner>, AllocError>
    ensures { IfOk result (λ v. v.items ≡ corners.now) }
{
    let mut copies = Vec::with_capacity(alloc, corners.len())?;
    for corner in corners {
        copies.push(corner.copy(alloc)?)?;
    }
    Ok(copies)
}

/// The classes of the roots.
fn roots(alloc: Global, roots: &[u32], classes: &[Option<u32>]) -> Result<Vec<u32>, AllocError>
    ensures { IfOk result (λ v. v.items ≡ map (class_number classes.now) roots.now) }
{
    let mut numbers = Vec::with_capacity(alloc, roots.len())?;
    for root in roots {
        numbers.push(class_number(classes, *root))?;
    }
    Ok(numbers)
}

/// The automaton of the classes.
pub(crate) fn reduced(
    alloc: Global,
    a: &Automaton,
    classes: &[Option<u32>],
) -> Result<Automaton, AllocError>
    requires few { length a.now.states ≤ 100000 }
    requires ordered { AreOrdered classes.now }
    ensures { (kinds : List TileKind) (count : ℕ)
        → IsAccepted kinds a.now → AreClasses kinds a.now classes.now count
        → IfOk result (λ b. IsMerged kinds a.now classes.now b) }
{
    Ok(Automaton {
        states: states(alloc, a, classes)?,
        corners: same_corners(alloc, &a.corners)?,
        roots: roots(alloc, &a.roots, classes)?,
    })
}
