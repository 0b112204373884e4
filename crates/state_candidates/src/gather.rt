//! The readers of regions, and the tables that are read with them.
ghost use Rattle.std.specs.Prelude.{◌≡◌, ◌+◌, ◌≤◌, ◌↔◌, length, IsTrue, IfOk, IfSome, IfNone};
ghost use Rattle.state_candidates.specs.Gathered.{AreReadersOf, HasTooMany};

use crate::reader::Reader;
use look_classes::{Classes, Looks};
use std::alloc::{AllocError, Global};

/// The most states of a candidate.
const MOST_STATES: u32 = 100_000;

/// The most corner types of a candidate.
const MOST_CORNERS: u32 = 20_000;

/// Whether so many states and corner types, and those of classes, are 100,000 and 20,000 at most.
fn fits(classes: &Classes, states: u32, corners: u32) -> bool
    requires few_states { states ≤ 100000 }
    requires few_corners { corners ≤ 20000 }
    ensures { IsTrue result ↔ ((states + classes.now.cell_count ≤ 100000)
        × (corners + classes.now.corner_count ≤ 20000)) }
{
    classes.cell_count <= MOST_STATES - states && classes.corner_count <= MOST_CORNERS - corners
}

/// The readers of the regions of looks, each with the number of its first state and corner type;
/// None where there are more than 100,000 states or 20,000 corner types.
pub(crate) fn readers<'a, 'g, 't>(
    alloc: Global,
    looks: &'a [Looks<'g, 't>],
) -> Result<Option<Vec<Reader<'a, 'g, 't>>>, AllocError>
    ensures some { IfOk result (λ o. IfSome o
        (λ v. (length v.items ≡ length looks.now) × AreReadersOf looks.now v.items)) }
    ensures none { IfOk result (λ o. IfNone o (HasTooMany looks.now)) }
{
    let mut readers = Vec::new(alloc);
    let mut states = 0;
    let mut corners = 0;
    for x in looks {
        let classes = x.classes();
        if !fits(classes, states, corners) {
            return Ok(None);
        }
        readers.push(Reader::of(alloc, x, classes, states, corners)?)?;
        states += classes.cell_count;
        corners += classes.corner_count;
    }
    Ok(Some(readers))
}
