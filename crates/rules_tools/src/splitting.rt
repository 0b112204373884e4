//! Classes of states by splitting (after J. Hopcroft, "An n log n algorithm for minimizing states in
//! a finite automaton", 1971). A class with a side splits other classes: into the states whose child
//! at the side is in the class, and the others. Of the parts of a class the lesser one splits others
//! again, so each state is looked at as often as its part has halved.
ghost use Rattle.std.specs.Prelude.{◌≡◌, ◌≢◌, ◌⊎◌, ◌<◌, ◌≤◌, ℕ, List, length, map, Contains, IfOk, OnOk};
ghost use Rattle.tile_model.specs.Tessellations.{TileKind};
ghost use Rattle.tree_model.specs.Automata.{TreeAutomaton};
ghost use Rattle.tree_model.specs.Conditions.{IsAccepted};
ghost use Rattle.rules_tools.specs.declared.parents.Parent.{Parent};
ghost use Rattle.rules_tools.specs.Keys.{class_of};
ghost use Rattle.rules_tools.specs.Classes.{AreApart};
ghost use Rattle.rules_tools.specs.Rows.{row};
ghost use Rattle.rules_tools.specs.Parents.{HasParent, entry_at};
ghost use Rattle.rules_tools.specs.Splitting.{HasMembers, HasParents, IsApart, KeepsRows, AreFound, IsCut};

use crate::children::count;
use crate::keys::class_of;
use crate::ledger::Ledger;
use crate::parents::{Parent, Parents, parents_of};
use crate::rows::{add_to, clear, empty_rows, push_to};
use rules_data::Automaton;
use std::alloc::{AllocError, Global};

/// The class of each state, and for each class its states, maybe with others that have left it.
#[derive(Debug, Drop)]
pub(crate) struct Classes {
    pub(crate) class: Vec<u32>,
    pub(crate) members: Vec<Vec<u32>>,
}

/// Classes with their members.
fn with_members(alloc: Global, class: Vec<u32>) -> Result<Classes, AllocError>
    requires { length class.items ≤ 100000 }
    ensures class { IfOk result (λ x. x.class.items ≡ class.items) }
    ensures members { IfOk result HasMembers }
{
    let mut members = Vec::new(alloc);
    for s in 0..class.len() as u32 {
        add_to(alloc, &mut members, class[s as usize], s)?;
    }
    Ok(Classes { class, members })
}

/// An entry of the list of parents, state 0 at side 0 where there is none.
fn entry(parents: &Parents, at: u32) -> Parent
    ensures { result ≡ entry_at parents.now at }
{
    match parents.entries.get(at as usize) {
        Some(parent) => *parent,
        None => Parent { state: 0, side: 0 },
    }
}

/// Puts a parent into the row of its side.
fn add_parent(found: &mut Vec<Vec<u32>>, parent: Parent) -> Result<(), AllocError>
    requires { length found.old.items ≡ 64 }
    ensures long { length found.new.items ≡ 64 }
    ensures added { OnOk result
        (parent.side < 64 → Contains (row found.new.items parent.side) parent.state) }
    ensures kept { OnOk result (KeepsRows found.old.items found.new.items) }
    ensures only { OnOk result ((i s : ℕ) → Contains (row found.new.items i) s
        → Contains (row found.old.items i) s ⊎ ((i ≡ parent.side) × (s ≡ parent.state))) }
{
    if parent.side >= 64 {
        return Ok(());
    }
    push_to(found, parent.side as usize, parent.state)?;
    Ok(())
}

/// Puts the parents of a state into the rows of their sides.
fn add_parents(found: &mut Vec<Vec<u32>>, parents: &Parents, u: u32) -> Result<(), AllocError>
    requires { length found.old.items ≡ 64 }
    ensures long { length found.new.items ≡ 64 }
    ensures added { OnOk result ((x : Parent) → HasParent parents.now u x → x.side < 64
        → Contains (row found.new.items x.side) x.state) }
    ensures kept { OnOk result (KeepsRows found.old.items found.new.items) }
    ensures only { OnOk result ((i s : ℕ) → Contains (row found.new.items i) s
        → Contains (row found.old.items i) s
        ⊎ HasParent parents.now u (record { state = s; side = i })) }
{
    if u as usize + 1 >= parents.starts.len() {
        return Ok(());
    }
    for at in class_of(&parents.starts, u)..class_of(&parents.ends, u) {
        add_parent(found, entry(parents, at))?;
    }
    Ok(())
}

/// The states of a row.
fn states_of(rows: &Vec<Vec<u32>>, k: u32) -> &[u32]
    ensures { result.now ≡ row rows.now.items k }
{
    match rows.get(k as usize) {
        Some(states) => states.as_slice(),
        None => &[],
    }
}

/// Puts the parents of a member of a class into the rows of their sides, where it has not left it.
fn add_parents_of(
    found: &mut Vec<Vec<u32>>,
    class: &[u32],
    parents: &Parents,
    number: u32,
    u: u32,
) -> Result<(), AllocError>
    requires { length found.old.items ≡ 64 }
    ensures long { length found.new.items ≡ 64 }
    ensures added { OnOk result ((x : Parent) → class_of class.now u ≡ number
        → HasParent parents.now u x → x.side < 64
        → Contains (row found.new.items x.side) x.state) }
    ensures kept { OnOk result (KeepsRows found.old.items found.new.items) }
    ensures only { OnOk result ((i s : ℕ) → Contains (row found.new.items i) s
        → Contains (row found.old.items i) s ⊎ ((class_of class.now u ≡ number)
        × HasParent parents.now u (record { state = s; side = i }))) }
{
    if class_of(class, u) != number {
        return Ok(());
    }
    add_parents(found, parents, u)?;
    Ok(())
}

/// Finds the states with a child in a class, each in the row of the side.
fn find_parents(
    found: &mut Vec<Vec<u32>>,
    x: &Classes,
    parents: &Parents,
    number: u32,
) -> Result<(), AllocError>
    requires { length found.old.items ≡ 64 }
    ensures long { length found.new.items ≡ 64 }
    ensures found { OnOk result (AreFound x.now parents.now number found.new.items) }
{
    clear(found);
    for u in states_of(&x.members, number) {
        add_parents_of(found, &x.class, parents, number, *u)?;
    }
    Ok(())
}

/// What the classes of states that were found are to become.
fn renumber(
    numbers: &mut Vec<u32>,
    targets: &[u32],
    class: &[u32],
    found: &[u32],
) -> Result<(), AllocError>
    ensures { OnOk result (numbers.new.items
        ≡ map (λ s. class_of targets.now (class_of class.now s)) found.now) }
{
    numbers.clear();
    for s in found {
        numbers.push(class_of(targets, class_of(class, *s)))?;
    }
    Ok(())
}

/// Gives a state a class.
fn set_class(alloc: Global, x: &mut Classes, s: u32, number: u32) -> Result<(), AllocError>
    ensures long { length x.new.class.items ≡ length x.old.class.items }
    ensures this { OnOk result (s < length x.old.class.items → class_of x.new.class.items s ≡ number) }
    ensures others { (t : ℕ) → t ≢ s → class_of x.new.class.items t ≡ class_of x.old.class.items t }
    ensures members { HasMembers x.old → OnOk result (HasMembers x.new) }
{
    if s as usize >= x.class.len() || x.class[s as usize] == number {
        return Ok(());
    }
    add_to(alloc, &mut x.members, number, s)?;
    x.class[s as usize] = number;
    Ok(())
}

/// Gives the states that were found their classes.
fn set_classes(
    alloc: Global,
    x: &mut Classes,
    targets: &[u32],
    found: &[u32],
    numbers: &[u32],
) -> Result<(), AllocError>
    requires { numbers.now
        ≡ map (λ s. class_of targets.now (class_of x.old.class.items s)) found.now }
    ensures long { length x.new.class.items ≡ length x.old.class.items }
    ensures cut { OnOk result (IsCut found.now x.old.class.items x.new.class.items) }
    ensures members { HasMembers x.old → OnOk result (HasMembers x.new) }
{
    for j in 0..found.len() {
        set_class(alloc, x, found[j], numbers[j])?;
    }
    Ok(())
}

/// Moves the states that were found into the classes that are to be theirs, where there are any.
fn move_found(
    alloc: Global,
    x: &mut Classes,
    parted: bool,
    targets: &[u32],
    numbers: &mut Vec<u32>,
    found: &[u32],
) -> Result<(), AllocError>
    ensures long { length x.new.class.items ≡ length x.old.class.items }
    ensures cut { OnOk result (IsCut found.now x.old.class.items x.new.class.items) }
    ensures members { HasMembers x.old → OnOk result (HasMembers x.new) }
{
    if !parted {
        return Ok(());
    }
    renumber(numbers, targets, &x.class, found)?;
    set_classes(alloc, x, targets, found, numbers)?;
    Ok(())
}

/// Meets the classes of states.
fn meet_all(ledger: &mut Ledger, class: &[u32], found: &[u32]) -> Result<(), AllocError> {
    for s in found {
        ledger.meet(class_of(class, *s))?;
    }
    Ok(())
}

/// Cuts classes into the states that were found and the others.
fn cut(
    alloc: Global,
    x: &mut Classes,
    ledger: &mut Ledger,
    numbers: &mut Vec<u32>,
    found: &[u32],
) -> Result<(), AllocError>
    ensures long { length x.new.class.items ≡ length x.old.class.items }
    ensures cut { OnOk result (IsCut found.now x.old.class.items x.new.class.items) }
    ensures members { HasMembers x.old → OnOk result (HasMembers x.new) }
{
    meet_all(ledger, &x.class, found)?;
    let parted = ledger.part_all()?;
    move_found(alloc, x, parted, &ledger.targets, numbers, found)?;
    ledger.close();
    Ok(())
}

/// Splits classes by one of them with each side.
fn split_by(
    alloc: Global,
    x: &mut Classes,
    parents: &Parents,
    ledger: &mut Ledger,
    found: &mut Vec<Vec<u32>>,
    number: u32,
) -> Result<(), AllocError>
    requires { length found.old.items ≡ 64 }
    ensures rows { length found.new.items ≡ 64 }
    ensures long { length x.new.class.items ≡ length x.old.class.items }
    ensures members { HasMembers x.old → OnOk result (HasMembers x.new) }
    ensures apart { (kinds : List TileKind) (a : TreeAutomaton) → IsAccepted kinds a
        → HasParents a parents.now → IsApart kinds a x.old → OnOk result (IsApart kinds a x.new) }
{
    find_parents(found, x, parents, number)?;
    let mut numbers = Vec::new(alloc);
    for side in 0..64 {
        cut(alloc, x, ledger, &mut numbers, states_of(found, side))?;
    }
    Ok(())
}

/// Classes that paths tell apart, of classes that paths tell apart: split as far as it goes.
/// A class waits once for each time that it is new, so there are no more turns than states.
pub(crate) fn refined(alloc: Global, a: &Automaton, start: Vec<u32>) -> Result<Vec<u32>, AllocError>
    requires few { length a.now.states ≤ 100000 }
    requires long { length start.items ≡ length a.now.states }
    ensures long { IfOk result (λ v. length v.items ≡ length a.now.states) }
    ensures apart { (kinds : List TileKind) → IsAccepted kinds a.now
        → AreApart kinds a.now start.items
        → IfOk result (λ v. AreApart kinds a.now v.items) }
{
    let Some(parents) = parents_of(alloc, a)? else {
        return Ok(start);
    };
    let mut ledger = Ledger::new(alloc, &start)?;
    let mut x = with_members(alloc, start)?;
    let mut found = empty_rows(alloc, 64)?;
    for _turn in 0..count(a) {
        let Some(number) = ledger.next() else {
            return Ok(x.class);
        };
        split_by(alloc, &mut x, &parents, &mut ledger, &mut found, number)?;
    }
    Ok(x.class)
}
