// The pairs of all states, in the order in which they are first met.
ghost use Rattle.std.specs.Prelude.{◌≡◌, ◌<◌, ◌≤◌, List, length, All, OnOk, IfOk};
ghost use Rattle.regular_maker.specs.Automaton.{index_in, with_pair, with_pairs, all_pairs};
ghost use Rattle.regular_maker.specs.States.{child_pairs};
ghost use Rattle.regular_maker.specs.Regular.{IsSymbol};
ghost use Rattle.regular_maker.specs.Pairs.{IsPair};

use crate::symbol::{Pair, Symbol};
use std::alloc::{AllocError, Global};

/// The number of entries before the first that is the pair, or of all where none is.
#[tactic(auto, unfolding(crate::specs::Automaton::index_in, crate::specs::Automaton::same_pair))]
pub fn index_of(pairs: &[Pair], pair: Pair) -> usize
    ensures { result ≡ index_in pairs.now pair }
{
    for (i, other) in pairs.iter().enumerate() {
        if *other == pair {
            return i;
        }
    }
    pairs.len()
}

/// Adds a pair where it is not there yet.
#[tactic(auto, unfolding(crate::specs::Automaton::with_pair))]
fn add(pairs: &mut Vec<Pair>, pair: Pair) -> Result<(), AllocError>
    ensures { OnOk result (pairs.new.items ≡ with_pair pairs.old.items pair) }
{
    if index_of(pairs, pair) == pairs.len() {
        pairs.push(pair)?;
    }
    Ok(())
}

/// Adds the pairs of the children of the state of a pair, by increasing side.
#[tactic(auto, using(crate::proofs::Growing::with_push), unfolding(crate::specs::Automaton::with_pairs, crate::specs::States::child_pairs))]
fn meet(symbol: Symbol, pairs: &mut Vec<Pair>, pair: Pair) -> Result<(), AllocError>
    requires symbol { IsSymbol symbol.p symbol.q }
    requires pair { IsPair symbol.p symbol.q pair }
    ensures { OnOk result (pairs.new.items
        ≡ with_pairs pairs.old.items (child_pairs symbol.p symbol.q pair symbol.p)) }
{
    for side in 0..symbol.p {
        if symbol.is_child(pair, side) {
            add(pairs, symbol.child_pair(pair, side))?;
        }
    }
    Ok(())
}

/// The pairs of all states behind the root, in the order in which they are first met.
pub fn all_pairs(alloc: Global, symbol: Symbol) -> Result<Vec<Pair>, AllocError>
    requires symbol { IsSymbol symbol.p symbol.q }
    ensures { IfOk result (λ pairs. pairs.items ≡ all_pairs symbol.p symbol.q) }
{
    let mut pairs = vec![in alloc; symbol.first_pair()]?;
    let mut next = 0;
    while next < pairs.len() {
        let pair = pairs[next];
        meet(symbol, &mut pairs, pair)?;
        next += 1;
    }
    Ok(pairs)
}
