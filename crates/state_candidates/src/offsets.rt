//! The distances round a corner.
ghost use Rattle.std.specs.Prelude.{◌≡◌, ◌+◌, ◌≤◌, pos, ◌-ℤ◌, IfOk};
ghost use Rattle.std.specs.Option.{option_map};
ghost use Rattle.region_grower.specs.Ways.{IsDart};
ghost use Rattle.look_classes.specs.Looks.{distances_from};

use crate::darts::Stop;
use coincidence::Dart;
use region_grower::Region;
use std::alloc::{AllocError, Global};

/// How much farther one cell lies than another one, by less than 64.
fn offset(near: u32, distance: u32) -> i8
    requires few { near ≤ 1000000 }
    requires more { distance ≤ near + 63 }
    requires less { near ≤ distance + 63 }
    ensures { result ≡ pos distance -ℤ pos near }
{
    (distance as i32 - near as i32) as i8
}

/// The distances of the cells round the corner at the left end of a dart, as LX leads from one to
/// the next, less that of its own cell; None where a join is missing.
pub(crate) fn distances(
    alloc: Global,
    region: &Region<'_>,
    base: Dart,
) -> Result<Option<Vec<i8>>, AllocError>
    requires { IsDart region.now.table base }
    ensures { IfOk result (λ o. option_map (λ v. v.items) o ≡ distances_from region.now base) }
{
    let joins = region.joins();
    let valence = joins.tessellation().valence(joins.type_of(base));
    let first = Stop::at(region, base);
    let near = first.distance;
    let mut offsets = Vec::new(alloc);
    let mut at = Some(first);
    for time in 0..valence {
        let Some(stop) = at else {
            return Ok(None);
        };
        let distance = stop.distance;
        offsets.push(offset(near, distance))?;
        at = stop.further(region);
    }
    Ok(Some(offsets))
}
