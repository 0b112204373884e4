// The states of a regular tessellation.
ghost use Rattle.std.specs.Prelude.{◌≡◌, ◌<◌, ◌≤◌, List, length, All, IfOk};
ghost use Rattle.regular_maker.specs.Automaton.{pair_rule, root_state, pair_state, all_states};
ghost use Rattle.regular_maker.specs.Pairs.{IsPair};
ghost use Rattle.regular_maker.specs.Regular.{IsSymbol};

use crate::numbering::index_of;
use crate::symbol::{Pair, Symbol};
use rules_data::{Rule, State};
use std::alloc::{AllocError, Global};

/// The rule of a side of the state of a pair.
#[tactic(auto, unfolding(crate::specs::Automaton::pair_rule, crate::specs::Automaton::number_of))]
fn pair_rule(symbol: Symbol, pairs: &[Pair], pair: Pair, side: u8) -> Rule
    requires symbol { IsSymbol symbol.p symbol.q }
    requires few { length pairs.now ≤ 16384 }
    requires pair { IsPair symbol.p symbol.q pair }
    requires side { side < symbol.p }
    ensures { result ≡ pair_rule symbol.p symbol.q pairs.now pair side }
{
    if side == 0 {
        Rule::Parent
    } else if side <= symbol.rights(pair) {
        Rule::Right
    } else if symbol.p <= side + symbol.lefts(pair) {
        Rule::Left
    } else {
        Rule::Child(index_of(pairs, symbol.child_pair(pair, side)) as u32 + 1)
    }
}

/// The root: each side leads to a child in state 1.
#[tactic(auto, unfolding(crate::specs::Automaton::root_state))]
fn root_state(alloc: Global, symbol: Symbol) -> Result<State, AllocError>
    requires { IsSymbol symbol.p symbol.q }
    ensures { IfOk result (λ s. s ≡ root_state symbol.p symbol.q) }
{
    let sides = symbol.p as usize;
    Ok(State {
        kind: 0,
        off: 0,
        rules: vec![in alloc; Rule::Child(1); sides]?,
        claims: vec![in alloc; symbol.lowest(); sides]?,
    })
}

/// The state of a pair.
#[tactic(auto, unfolding(crate::specs::Automaton::pair_state))]
fn pair_state(
    alloc: Global,
    symbol: Symbol,
    pairs: &[Pair],
    pair: Pair,
) -> Result<State, AllocError>
    requires symbol { IsSymbol symbol.p symbol.q }
    requires few { length pairs.now ≤ 16384 }
    requires pair { IsPair symbol.p symbol.q pair }
    ensures { IfOk result (λ s. s ≡ pair_state symbol.p symbol.q pairs.now pair) }
{
    let sides = symbol.p as usize;
    let mut rules = Vec::with_capacity(alloc, sides)?;
    let mut claims = Vec::with_capacity(alloc, sides)?;
    for side in 0..symbol.p {
        rules.push(pair_rule(symbol, pairs, pair, side))?;
        claims.push(symbol.claim(pair, side))?;
    }
    Ok(State {
        kind: 0,
        off: 0,
        rules,
        claims,
    })
}

/// All states: the root, and behind it those of the pairs.
#[tactic(auto, unfolding(crate::specs::Automaton::all_states))]
pub fn all_states(alloc: Global, symbol: Symbol, pairs: &[Pair]) -> Result<Vec<State>, AllocError>
    requires symbol { IsSymbol symbol.p symbol.q }
    requires few { length pairs.now ≤ 16384 }
    requires pairs { All (IsPair symbol.p symbol.q) pairs.now }
    ensures { IfOk result (λ states. states.items ≡ all_states symbol.p symbol.q pairs.now) }
{
    let mut states = vec![in alloc; root_state(alloc, symbol)?]?;
    for n in 0..pairs.len() {
        states.push(pair_state(alloc, symbol, pairs, pairs[n])?)?;
    }
    Ok(states)
}
