//! Growing one region for each kind, in turns.
ghost use Rattle.std.specs.Prelude.{◌≡◌, ◌≤◌, ◌<◌, ◌+◌, ℕ, List, length, sum_by, IfOk};
ghost use Rattle.tile_model.specs.Tessellations.{TileKind};
ghost use Rattle.state_learner.specs.Learning.{made};
ghost use Rattle.state_learner.specs.Growing.{AreGrowing, IsRound};

use region_grower::{Grown, Region};
use std::alloc::{AllocError, Global};
use tile_kinds::Tessellation;

/// What a round of turns came to.
#[derive(Clone, Copy, Debug, PartialEq, Eq)]
pub(crate) enum Round {
    /// Each region has finished a layer.
    Layer,
    /// All cells that may be made were made.
    Full,
    /// A region is closed, with so many tiles.
    Closed(u32),
}

/// Regions of one cell, one for each kind, or as many as the budget where that is smaller.
pub(crate) fn start_regions<'t>(
    alloc: Global,
    t: &'t Tessellation,
    budget: u32,
) -> Result<Vec<Region<'t>>, AllocError>
    requires { 1 ≤ budget }
    ensures some { IfOk result (λ regions. 0 < length regions.items) }
    ensures few { IfOk result (λ regions. length regions.items ≤ budget) }
    ensures growing { IfOk result (λ regions. (left : ℕ) → length regions.items + left ≡ budget
        → AreGrowing t.now budget left 0 0 regions.items) }
{
    let mut regions = Vec::new(alloc);
    for kind in 0..budget.min(t.kinds() as u32) {
        regions.push(Region::start(alloc, t, kind as u8)?)?;
    }
    Ok(regions)
}

/// Grows each region by one layer, one after the other, until all cells that are left were made or
/// a region is closed.
pub(crate) fn grow_round(regions: &mut [Region<'_>], left: &mut u32) -> Result<Round, AllocError>
    requires some { 0 < length regions.old }
    requires room { sum_by made regions.old + left.old ≤ 1000000 }
    ensures { IfOk result (λ round. (tess : List TileKind) (budget layers : ℕ)
        → AreGrowing tess budget left.old layers 0 regions.old
        → IsRound tess budget left.new layers regions.new round) }
{
    for region in regions.iter_mut() {
        let most = region.made() + *left;
        let grown = region.grow(most)?;
        *left = most - region.made();
        match grown {
            Grown::Layer(_) => {}
            Grown::Full(_) => return Ok(Round::Full),
            Grown::Closed(tiles) => return Ok(Round::Closed(tiles)),
        }
    }
    Ok(Round::Layer)
}
