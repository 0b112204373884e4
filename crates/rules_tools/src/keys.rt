//! Keys of states whose children are given by their classes.
ghost use Rattle.std.specs.Prelude.{◌≡◌, ◌++◌, ◌<◌, length, IfOk, OnOk, map};
ghost use Rattle.tree_model.specs.Automata.{state_at};
ghost use Rattle.merge_model.specs.Faces.{with_child};
ghost use Rattle.rules_tools.specs.Keys.{class_of, rule_code, rules_code, claims_code, key_of};

use rules_data::{Automaton, Claim, Rule};
use std::alloc::{AllocError, Global};

/// The class of a state, 0 where the list has none.
pub(crate) fn class_of(class: &[u32], s: u32) -> u32
    ensures { result ≡ class_of class.now s }
{
    match class.get(s as usize) {
        Some(number) => *number,
        None => 0,
    }
}

/// Puts the code of a rule behind a key.
fn push_rule(key: &mut Vec<u32>, rule: Rule, class: &[u32]) -> Result<(), AllocError>
    ensures { OnOk result
        (key.new.items ≡ key.old.items ++ rule_code (with_child (class_of class.now) rule)) }
{
    match rule {
        Rule::Parent => key.push(1)?,
        Rule::Left => key.push(2)?,
        Rule::Right => key.push(3)?,
        Rule::Child(child) => {
            key.push(4)?;
            key.push(class_of(class, child))?;
        }
    }
    Ok(())
}

/// Puts the codes of rules behind a key.
fn push_rules(key: &mut Vec<u32>, rules: &[Rule], class: &[u32]) -> Result<(), AllocError>
    ensures { OnOk result
        (key.new.items
        ≡ key.old.items ++ rules_code (map (with_child (class_of class.now)) rules.now)) }
{
    for rule in rules {
        push_rule(key, *rule, class)?;
    }
    Ok(())
}

/// Puts the codes of claims behind a key.
fn push_claims(key: &mut Vec<u32>, claims: &[Claim]) -> Result<(), AllocError>
    ensures { OnOk result (key.new.items ≡ key.old.items ++ claims_code claims.now) }
{
    for claim in claims {
        key.push(claim.corner)?;
        key.push(u32::from(claim.place))?;
    }
    Ok(())
}

/// The key of a state.
#[tactic(auto, unfolding(crate::specs::Keys::key_of))]
pub(crate) fn key(
    alloc: Global,
    a: &Automaton,
    class: &[u32],
    s: u32,
) -> Result<Vec<u32>, AllocError>
    requires { s < length a.now.states }
    ensures { IfOk result (λ k. k.items ≡ key_of a.now class.now s) }
{
    let state = a.state(s);
    let mut key = Vec::new(alloc);
    key.push(class_of(class, s))?;
    key.push(u32::from(state.kind))?;
    key.push(u32::from(state.off))?;
    push_rules(&mut key, &state.rules, class)?;
    key.push(0)?;
    push_claims(&mut key, &state.claims)?;
    Ok(key)
}
