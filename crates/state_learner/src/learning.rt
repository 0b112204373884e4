//! `learn`: rules for a tessellation, or why there are none.
ghost use Rattle.std.specs.Prelude.{◌≡◌, ◌≤◌, ◌↔◌, ℕ, IfOk, IfErr, IsErrOf};
ghost use Rattle.cell_patches.specs.Patches.{KeepsBudget};
ghost use Rattle.regular_maker.specs.Regular.{IsRegular, IsInfinite, p_of, q_of};
ghost use Rattle.state_learner.specs.Learning.{AreLearnt, IsFault, IsSphere};

use crate::by_regions::learn_by_regions;
use crate::fault::LearnFault;
use cell_patches::Patches;
use cone_learner::learn_cones;
use regular_maker::{RegFault, regular};
use std::alloc::Global;
use structure_check::Rules;
use tile_kinds::Tessellation;

/// Rules for a tessellation, with at most `budget` cells, 1 to 1,000,000, in each of two ways. A
/// regular tessellation that has infinitely many tiles gets exactly the rules of {p,q}, whatever
/// the budget. For any other one rules are looked for by cone types, in patches with at most
/// `budget` cells together; where none are found, a region is grown round a tile of each kind, or
/// of as many kinds as the budget, in turns, with at most `budget` cells together, and candidates
/// over them are handed to the checker.
///
/// # Errors
///
/// `Spherical`, with p and q, exactly where the tessellation is regular and has finitely many
/// tiles. `Closed` and `GaveUp` come only where it is not regular: `Closed` where all sides of the
/// tiles of a region are joined, with their number, and `GaveUp` where the budget is spent and each
/// candidate to the horizons 0 to 8 is missing or refused. `Memory` where there is none.
pub fn learn<'t>(alloc: Global, t: &'t Tessellation, budget: u32) -> Result<Rules, LearnFault<'t>>
    requires at_least { 1 ≤ budget }
    requires at_most { budget ≤ 1000000 }
    ensures rules { IfOk result (AreLearnt t.now) }
    ensures fault { IfErr result (IsFault t.now budget) }
    ensures complete { IsRegular t.now → IsInfinite (p_of t.now) (q_of t.now)
        → IfErr result (λ fault. fault ≡ LearnFault.Memory) }
    ensures spherical { (p q : ℕ) → IsErrOf result (LearnFault.Spherical p q) ↔ IsSphere t.now p q }
{
    match regular(alloc, t) {
        Ok(rules) => Ok(rules),
        Err(RegFault::Spherical { p, q }) => Err(LearnFault::Spherical { p, q }),
        Err(RegFault::Memory) => Err(LearnFault::Memory),
        Err(RegFault::NotRegular) => learn_irregular(alloc, t, budget),
    }
}

/// Rules for a tessellation that is not regular: by cone types, in patches with at most `budget`
/// cells, or else by regions.
fn learn_irregular<'t>(
    alloc: Global,
    t: &'t Tessellation,
    budget: u32,
) -> Result<Rules, LearnFault<'t>>
    requires irregular { ¬ (IsRegular t.now) }
    requires at_least { 1 ≤ budget }
    requires at_most { budget ≤ 1000000 }
    ensures rules { IfOk result (AreLearnt t.now) }
    ensures fault { IfErr result (IsFault t.now budget) }
{
    match Patches::start(alloc, t, budget)? {
        Some(mut patches) => learn_in(alloc, t, &mut patches, budget),
        None => learn_by_regions(alloc, t, budget),
    }
}

/// Rules for a tessellation that is not regular: by cone types, in patches that may have `budget`
/// cells, or else by regions with `budget` cells of their own.
fn learn_in<'t>(
    alloc: Global,
    t: &'t Tessellation,
    patches: &mut Patches<'t>,
    budget: u32,
) -> Result<Rules, LearnFault<'t>>
    requires irregular { ¬ (IsRegular t.now) }
    requires at_least { 1 ≤ budget }
    requires at_most { budget ≤ 1000000 }
    requires most { patches.old.most ≡ budget }
    ensures rules { IfOk result (AreLearnt t.now) }
    ensures fault { IfErr result (IsFault t.now budget) }
    ensures cells { KeepsBudget patches.old patches.new }
{
    match learn_cones(alloc, t, patches)? {
        Some(rules) => Ok(rules),
        None => learn_by_regions(alloc, t, budget),
    }
}
