//! Learning by regions: one is grown for each kind, and candidates are read off them.
ghost use Rattle.std.specs.Prelude.{◌≡◌, ◌≤◌, ◌<◌, ◌+◌, ℕ, length, IfOk, IfErr, IfSome};
ghost use Rattle.regular_maker.specs.Regular.{IsRegular};
ghost use Rattle.structure_check.specs.Rules.{AreSound};
ghost use Rattle.state_learner.specs.Learning.{AreLearnt, IsFault};
ghost use Rattle.state_learner.specs.Growing.{AreGrowing, IsOutcome};

use crate::attempts::attempt;
use crate::fault::LearnFault;
use crate::rounds::{Round, grow_round, start_regions};
use region_grower::Region;
use std::alloc::{AllocError, Global};
use structure_check::Rules;
use tile_kinds::Tessellation;

/// What growing regions came to.
#[derive(Debug, Drop)]
enum Outcome {
    /// A candidate was accepted on the way.
    Learnt(Rules),
    /// A region is closed, with so many tiles.
    Finite(u32),
    /// All cells of the budget were made.
    Spent,
}

/// Rules for a tessellation that is not regular, by candidates over regions alone, with at most
/// `budget` cells in all regions together, 1 to 1,000,000.
///
/// # Errors
///
/// `Closed` where all sides of the tiles of a region are joined, with their number; `GaveUp` where
/// the budget is spent and each candidate to the horizons 0 to 8 is missing or refused; `Memory`
/// where there is none.
pub fn learn_by_regions<'t>(
    alloc: Global,
    t: &'t Tessellation,
    budget: u32,
) -> Result<Rules, LearnFault<'t>>
    requires irregular { ¬ (IsRegular t.now) }
    requires at_least { 1 ≤ budget }
    requires at_most { budget ≤ 1000000 }
    ensures rules { IfOk result (AreLearnt t.now) }
    ensures fault { IfErr result (IsFault t.now budget) }
{
    let mut regions = start_regions(alloc, t, budget)?;
    match grow_regions(alloc, t, &mut regions, budget)? {
        Outcome::Learnt(rules) => Ok(rules),
        Outcome::Finite(tiles) => Err(LearnFault::Closed(tiles)),
        Outcome::Spent => match attempt(alloc, t, &regions)? {
            Some(rules) => Ok(rules),
            None => Err(LearnFault::GaveUp(regions)),
        },
    }
}

/// Grows regions in rounds until all cells of the budget are made.
fn grow_regions(
    alloc: Global,
    t: &Tessellation,
    regions: &mut [Region<'_>],
    budget: u32,
) -> Result<Outcome, AllocError>
    requires at_least { 1 ≤ budget }
    requires at_most { budget ≤ 1000000 }
    requires some { 0 < length regions.old }
    requires few { length regions.old ≤ budget }
    requires growing { (left : ℕ) → length regions.old + left ≡ budget
        → AreGrowing t.now budget left 0 0 regions.old }
    ensures { IfOk result (IsOutcome t.now budget regions.new) }
{
    let mut left = budget - regions.len() as u32;
    let mut tried = budget - left;
    loop {
        match grow_round(regions, &mut left)? {
            Round::Closed(tiles) => return Ok(Outcome::Finite(tiles)),
            Round::Full => return Ok(Outcome::Spent),
            Round::Layer => {}
        }
        if let Some(rules) = attempt_if_due(alloc, t, regions, budget - left, &mut tried)? {
            return Ok(Outcome::Learnt(rules));
        }
    }
}

/// Tries the candidates over regions if twice as many cells were made as when they were last tried.
/// So the trials on the way look at about as many cells as the last one.
fn attempt_if_due(
    alloc: Global,
    t: &Tessellation,
    regions: &[Region<'_>],
    made: u32,
    tried: &mut u32,
) -> Result<Option<Rules>, AllocError>
    ensures kinds { IfOk result (λ rules. IfSome rules (λ r. r.kinds ≡ t.now)) }
    ensures sound { IfOk result (λ rules. IfSome rules AreSound) }
{
    if made / 2 < *tried {
        return Ok(None);
    }
    *tried = made;
    attempt(alloc, t, regions)
}
