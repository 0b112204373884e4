//! The coarsest base automaton with the same tree.
ghost use Rattle.std.specs.Prelude.{◌≡◌, ◌<◌, ◌≤◌, ℕ, length, map, IfOk};
ghost use Rattle.cone_types.specs.Partitions.{class_of, KeepsLow};
ghost use Rattle.cone_types.specs.Cones.{renamed_rule, renamed_cone, IsCoarser};

use crate::cone_type::ConeType;
use crate::look::ConeLook;
use crate::partition::{Table, class_number, coarsest_partition};
use std::alloc::{AllocError, Global};
use tree_model::Rule;

/// A base automaton, as a table of cone types that name each other as children.
#[derive(Clone, Copy)]
struct Cones<'a> {
    types: &'a [ConeType],
}

impl Table for Cones<'_> {
    type Look = Option<ConeLook>;

    fn look(
        &self,
        alloc: Global,
        entry: usize,
        classes: &[usize],
    ) -> Result<Option<ConeLook>, AllocError> {
        match self.types.get(entry) {
            Some(cone) => {
                let look = ConeLook::of(alloc, cone.kind, cone.off, &cone.rules, classes)?;
                Ok(Some(look))
            }
            None => Ok(None),
        }
    }
}

/// A rule, with the child's class as its number. A child whose number is out of range keeps it.
fn renamed(rule: Rule, classes: &[usize]) -> Rule
    requires { KeepsLow classes.now }
    ensures { result ≡ renamed_rule classes.now rule }
{
    match rule {
        Rule::Child(c) => Rule::Child(class_number(c, classes)),
        _ => rule,
    }
}

/// The rules, with the classes of the children as their numbers. Children whose numbers are out of
/// range keep them.
///
/// # Errors
///
/// `AllocError` where there is no memory, and only there.
pub fn renamed_rules(
    alloc: Global,
    rules: &[Rule],
    classes: &[usize],
) -> Result<Vec<Rule>, AllocError>
    requires { KeepsLow classes.now }
    ensures { IfOk result (λ v. v.items ≡ map (renamed_rule classes.now) rules.now) }
{
    let mut renamed_all = Vec::with_capacity(alloc, rules.len())?;
    for rule in rules {
        renamed_all.push(renamed(*rule, classes))?;
    }
    Ok(renamed_all)
}

/// The cone type with the classes of the children as their numbers.
fn renamed_type(alloc: Global, cone: &ConeType, classes: &[usize]) -> Result<ConeType, AllocError>
    requires { KeepsLow classes.now }
    ensures { IfOk result (λ c. c ≡ renamed_cone classes.now cone.now) }
{
    Ok(ConeType {
        kind: cone.kind,
        off: cone.off,
        rules: renamed_rules(alloc, &cone.rules, classes)?,
    })
}

/// The same tree with the fewest cone types: those with one kind, one off and rules that lead to
/// alike cone types become one. The first `kinds` cone types, the roots, stay apart.
///
/// # Errors
///
/// `AllocError` where there is no memory, and only there.
#[tactic(auto, using(crate::specs::Representatives::none_stands, crate::specs::Representatives::one_more_stands))]
pub fn coarsest(
    alloc: Global,
    types: &[ConeType],
    kinds: usize,
) -> Result<Vec<ConeType>, AllocError>
    ensures fewer { IfOk result (λ v. length v.items ≤ length types.now) }
    ensures roots { IfOk result (λ v. kinds ≤ length types.now → kinds ≤ length v.items) }
    ensures classes { IfOk result (λ v. IsCoarser types.now kinds v.items) }
{
    let classes = coarsest_partition(alloc, &Cones { types }, types.len(), kinds)?;
    let mut coarse = Vec::new(alloc);
    for entry in 0..types.len() {
        if classes[entry] == coarse.len() {
            coarse.push(renamed_type(alloc, &types[entry], &classes)?)?;
        }
    }
    Ok(coarse)
}
