//! What a cone type shows where only the classes of its children are known.
ghost use Rattle.std.specs.Prelude.{◌≡◌, map, IfOk};
ghost use Rattle.cone_types.specs.Looks.{seen_rule};

use std::alloc::{AllocError, Global};
use tree_model::Rule;

/// A rule, with the class of the child in place of its number. A child whose number is out of range
/// keeps it.
#[derive(Clone, Copy, Debug, PartialEq, Eq, Hash)]
pub enum SeenRule {
    Parent,
    Child(usize),
    Left,
    Right,
}

/// The kind, the off and the rules of a cone type, with the classes of its children.
#[derive(Debug, PartialEq, Eq, Hash, Drop)]
pub struct ConeLook {
    pub kind: u8,
    pub off: u8,
    pub rules: Vec<SeenRule>,
}

/// A rule as it is seen over the classes of all cone types.
fn seen(rule: Rule, classes: &[usize]) -> SeenRule
    ensures { result ≡ seen_rule classes.now rule }
{
    match rule {
        Rule::Parent => SeenRule::Parent,
        Rule::Child(c) => SeenRule::Child(classes.get(c as usize).copied().unwrap_or(c as usize)),
        Rule::Left => SeenRule::Left,
        Rule::Right => SeenRule::Right,
    }
}

/// The rules as they are seen over the classes of all cone types.
fn seen_rules(alloc: Global, rules: &[Rule], classes: &[usize]) -> Result<Vec<SeenRule>, AllocError>
    ensures { IfOk result (λ v. v.items ≡ map (seen_rule classes.now) rules.now) }
{
    let mut all = Vec::with_capacity(alloc, rules.len())?;
    for rule in rules {
        all.push(seen(*rule, classes))?;
    }
    Ok(all)
}

impl ConeLook {
    /// What a cone type of this kind and off with these rules shows over the classes of all cone
    /// types.
    ///
    /// # Errors
    ///
    /// `AllocError` where there is no memory, and only there.
    pub fn of(
        alloc: Global,
        kind: u8,
        off: u8,
        rules: &[Rule],
        classes: &[usize],
    ) -> Result<ConeLook, AllocError>
        ensures kind { IfOk result (λ look. look.kind ≡ kind) }
        ensures off { IfOk result (λ look. look.off ≡ off) }
        ensures rules { IfOk result
            (λ look. look.rules.items ≡ map (seen_rule classes.now) rules.now) }
    {
        Ok(ConeLook {
            kind,
            off,
            rules: seen_rules(alloc, rules, classes)?,
        })
    }
}
