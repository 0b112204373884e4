//! Merging the states of rules.
ghost use Rattle.std.specs.Prelude.{◌≡◌, ◌≢◌, ◌<◌, ◌≤◌, ◌↔◌, ℕ, List, length, Some, None, IfOk, MatchOption};
ghost use Rattle.tile_model.specs.Tessellations.{TileKind};
ghost use Rattle.tree_model.specs.Conditions.{IsAccepted};
ghost use Rattle.merge_model.specs.Telling.{TellsApart, AreTold};
ghost use Rattle.merge_model.specs.Merging.{IsReachable, class_at, AreClasses, IsMerged};
ghost use Rattle.structure_check.specs.Rules.{AreSound};
ghost use Rattle.rules_tools.specs.Reached.{AreReached};
ghost use Rattle.rules_tools.specs.Keys.{class_key};
ghost use Rattle.rules_tools.specs.Classes.{AreApart, AreStable};
ghost use Rattle.rules_tools.specs.Reducing.{AreOrdered};

use crate::children::count;
use crate::keys::class_of;
use crate::reached::reached;
use crate::reducing::reduced;
use crate::rounds::settled;
use key_numbers::Numbering;
use rules_data::Automaton;
use std::alloc::{AllocError, Global};
use structure_check::Rules;
use tile_kinds::Tessellation;

/// Rules with their states merged, and of each state that the rules had the state that it has
/// become a part of: None where the tree did not reach it.
#[derive(Debug, Drop)]
pub struct Merged {
    pub rules: Rules,
    pub class: Vec<Option<u32>>,
}

/// The key of a state by its class, None where it is not marked.
fn class_key(
    alloc: Global,
    marks: &[bool],
    class: &[u32],
    s: u32,
) -> Result<Option<Vec<u32>>, AllocError>
    requires { s < length marks.now }
    ensures { IfOk result (λ o. MatchOption o (class_key marks.now class.now s ≡ None)
        (λ v. class_key marks.now class.now s ≡ Some v.items)) }
{
    if marks[s as usize] {
        Ok(Some(vec![in alloc; class_of(class, s)]?))
    } else {
        Ok(None)
    }
}

/// The classes of the states that are marked, numbered in the order of their first states.
fn number_classes(
    alloc: Global,
    a: &Automaton,
    marks: &[bool],
    class: &[u32],
) -> Result<Vec<Option<u32>>, AllocError>
    requires few { length a.now.states ≤ 100000 }
    requires long { length marks.now ≡ length a.now.states }
    ensures { (kinds : List TileKind) → IsAccepted kinds a.now
        → AreReached kinds a.now marks.now → AreApart kinds a.now class.now
        → AreStable kinds a.now class.now
        → IfOk result (λ v. (count : ℕ) × AreClasses kinds a.now v.items count) }
{
    let mut numbering = Numbering::new(alloc);
    for s in 0..count(a) {
        numbering.add(class_key(alloc, marks, class, s)?)?;
    }
    let (numbers, _) = numbering.finish()?;
    Ok(numbers)
}

/// The classes of the states, where no path tells states of one class apart.
fn classes(
    alloc: Global,
    tess: &Tessellation,
    a: &Automaton,
) -> Result<Vec<Option<u32>>, AllocError>
    requires { IsAccepted tess.now a.now }
    ensures { IfOk result (λ v. (count : ℕ) × AreClasses tess.now a.now v.items count) }
{
    let marks = reached(alloc, tess, a)?;
    let class = settled(alloc, a)?;
    number_classes(alloc, a, &marks, &class)
}

/// The merged automaton, and the classes of the states.
fn merge_states(
    alloc: Global,
    tess: &Tessellation,
    a: &Automaton,
) -> Result<(Automaton, Vec<Option<u32>>), AllocError>
    requires { IsAccepted tess.now a.now }
    ensures { IfOk result (λ x. IsMerged tess.now a.now x.1.items x.0) }
{
    let class = classes(alloc, tess, a)?;
    let automaton = reduced(alloc, a, &class)?;
    Ok((automaton, class))
}

/// The rules in which states that no path tells apart are one, and in which the tree reaches every
/// state. The classes are numbered in the order of the least state of each, and their numbers are
/// those of the new states. Only want of memory refuses it.
pub fn merge(alloc: Global, r: &Rules) -> Result<Merged, AllocError>
    ensures merged { IfOk result
        (λ m. IsMerged r.now.kinds r.now.automaton m.class.items m.rules.automaton) }
    ensures tessellation { IfOk result (λ m. m.rules.kinds ≡ r.now.kinds) }
    ensures sound { IfOk result (λ m. AreSound m.rules) }
{
    let tess = r.tessellation();
    let (automaton, class) = merge_states(alloc, tess, r.automaton())?;
    Ok(Merged {
        rules: Rules::of_accepted(tess.copy(alloc)?, automaton),
        class,
    })
}
