//! Children of states, and how many states there are.
ghost use Rattle.std.specs.Prelude.{◌≡◌, ◌<◌, ◌≤◌, ℕ, length, slice_index_or, IfSome, IfNone};
ghost use Rattle.tree_model.specs.declared.Rule.TheVariants.{Parent, Child};
ghost use Rattle.tree_model.specs.Automata.{state_at};

use rules_data::{Automaton, Rule};

/// How many states there are.
pub(crate) fn count(a: &Automaton) -> u32
    requires { length a.now.states ≤ 100000 }
    ensures { result ≡ length a.now.states }
{
    a.states.len() as u32
}

/// The child of a state at a side, None where the side is no Child or is not there.
pub(crate) fn child(a: &Automaton, s: u32, i: usize) -> Option<u32>
    requires { s < length a.now.states }
    ensures some { IfSome result
        (λ c. slice_index_or (state_at a.now s).rules i Parent ≡ Child c) }
    ensures within { IfSome result (λ _. i < length (state_at a.now s).rules) }
    ensures none { IfNone result
        ((c : ℕ) → slice_index_or (state_at a.now s).rules i Parent ≡ Child c → ⊥) }
{
    match a.state(s).rules.get(i) {
        Some(Rule::Child(child)) => Some(*child),
        _ => None,
    }
}
