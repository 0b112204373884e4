// The rules of a regular tessellation.
ghost use Rattle.std.specs.Prelude.{◌≡◌, ◌↔◌, ℕ, IfOk, IfErr, IsErrOf};
ghost use Rattle.structure_check.specs.Rules.{AreSound};
ghost use Rattle.regular_maker.specs.Automaton.{regular_automaton};
ghost use Rattle.regular_maker.specs.Rules.{AreRegular};
ghost use Rattle.regular_maker.specs.Regular.{IsRegular, IsInfinite, IsSpherical, IsSymbol, p_of, q_of};

use crate::corners::corner_types;
use crate::fault::RegFault;
use crate::numbering::all_pairs;
use crate::states::all_states;
use crate::symbol::Symbol;
use rules_data::Automaton;
use std::alloc::{AllocError, Global};
use structure_check::Rules;
use tile_kinds::Tessellation;

/// The automaton of an infinite regular tessellation.
fn automaton(alloc: Global, symbol: Symbol) -> Result<Automaton, AllocError>
    requires symbol { IsSymbol symbol.p symbol.q }
    ensures { IfOk result (λ a. a ≡ regular_automaton symbol.p symbol.q) }
{
    let pairs = all_pairs(alloc, symbol)?;
    Ok(Automaton {
        states: all_states(alloc, symbol, &pairs)?,
        corners: corner_types(alloc, symbol)?,
        roots: vec![in alloc; 0]?,
    })
}

/// The rules of a regular tessellation {p,q} that has infinitely many tiles, that is of which
/// (p - 2)(q - 2) is at least 4: a copy of the tessellation, and the automaton whose states are the
/// pairs of claims at both sides of the parent side, numbered in the order in which they are first
/// met. For each such tessellation they come, or memory runs out. NotRegular comes exactly where
/// there are two or more kinds or a repeat over 1. Spherical, with p and q, comes exactly where the
/// tessellation is regular and has finitely many tiles.
pub fn regular(alloc: Global, t: &Tessellation) -> Result<Rules, RegFault>
    ensures rules { IfOk result (AreRegular t.now) }
    ensures sound { IfOk result (λ r. AreSound r) }
    ensures complete { IsRegular t.now → IsInfinite (p_of t.now) (q_of t.now)
        → IfErr result (λ fault. fault ≡ RegFault.Memory) }
    ensures not_regular { IsErrOf result RegFault.NotRegular ↔ (¬ (IsRegular t.now)) }
    ensures spherical { (p q : ℕ) → IsErrOf result (RegFault.Spherical p q)
        ↔ (IsRegular t.now × (p ≡ p_of t.now) × (q ≡ q_of t.now) × IsSpherical p q) }
{
    if t.kinds() != 1 || t.kind(0).repeat != 1 {
        return Err(RegFault::NotRegular);
    }
    let start = t.start(0);
    let p = t.sides(start);
    let q = t.valence(start);
    if (p as u16 - 2) * (q as u16 - 2) < 4 {
        return Err(RegFault::Spherical { p, q });
    }
    let tess = t.copy(alloc)?;
    let automaton = automaton(alloc, Symbol { p, q })?;
    Ok(Rules::of_accepted(tess, automaton))
}
