//! Where the corners of each cell stand, by cell and then by the number of the side.
ghost use Rattle.std.specs.Prelude.{IfOk};
ghost use Rattle.state_candidates.specs.Readers.{AreStarts};

use crate::darts::sides;
use region_grower::Region;
use std::alloc::{AllocError, Global};

/// How many sides the cells before each cell have.
pub(crate) fn corner_starts(alloc: Global, region: &Region<'_>) -> Result<Vec<u32>, AllocError>
    ensures { IfOk result (λ v. AreStarts region.now v.items) }
{
    let joins = region.joins();
    let mut starts = Vec::with_capacity(alloc, joins.made() as usize)?;
    let mut before = 0;
    for cell in 0..joins.made() {
        starts.push(before)?;
        before += sides(region, cell) as u32;
    }
    Ok(starts)
}
