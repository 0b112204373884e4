//! `classes`: the classes of the cells and of the corners of a region.
ghost use Rattle.std.specs.Prelude.{IfOk};
ghost use Rattle.look_classes.specs.Classes.{AreClasses};

use crate::lists::Classes;
use crate::looks::Looks;
use region_grower::Region;
use std::alloc::{AllocError, Global};

/// The classes of the cells and of the corners of a region by their looks to a horizon. Only want
/// of memory refuses them.
pub fn classes(alloc: Global, g: &Region<'_>, horizon: u32) -> Result<Classes, AllocError>
    ensures { IfOk result (AreClasses horizon g.now) }
{
    let mut looks = Looks::start(alloc, g)?;
    for step in 0..horizon {
        looks.farther()?;
    }
    Ok(looks.into_classes())
}
