//! What a side of a cell is in the tree that the cells make.
ghost use Rattle.std.specs.Prelude.{◌≡◌};

use crate::fault::AskFault;
use crate::steps::{across, close_side, parent, settle, side_of};
use cell_patches::{PatchDart, Patches};
use std::alloc::Global;

/// What a side of a cell is: the parent side, the side of a child, a side whose inner corner lies
/// at its left or at its right end, or one across which there is no cell.
#[derive(Clone, Copy, Debug, PartialEq, Eq, Hash)]
pub(crate) enum Side {
    Parent,
    Child,
    Left,
    Right,
    Open,
}

/// Whether the cell across a side is a child: it lies one farther out, and this is its parent side.
fn is_child(patches: &mut Patches, z: PatchDart, side: u8) -> Result<bool, AskFault>
    ensures most { patches.new.most ≡ patches.old.most }
{
    let Some(over) = across(patches, z, side) else {
        return Ok(false);
    };
    let here = patches.named(z);
    if patches.distance(over) as u64 != patches.distance(here) as u64 + 1 {
        return Ok(false);
    }
    let parent = settle(patches, over)?;
    Ok(parent.is_some() && parent == across(patches, z, side))
}

/// Left where the branch that leaves through this side comes before the one that leaves through the
/// side across, else Right.
fn turning(patches: &mut Patches, z: PatchDart, side: u8) -> Side
    ensures most { patches.new.most ≡ patches.old.most }
{
    let here = side_of(patches, z, side);
    let Some(over) = patches.joined(here) else {
        return Side::Open;
    };
    if patches.is_before(here, over) {
        Side::Left
    } else {
        Side::Right
    }
}

/// What one side of a cell is, counted to the left from a side of it. Both corners of the side are
/// closed.
pub(crate) fn side_at(patches: &mut Patches, z: PatchDart, side: u8) -> Result<Side, AskFault>
    ensures most { patches.new.most ≡ patches.old.most }
{
    close_side(patches, z, side)?;
    let before = if side > 0 { side } else { patches.sides(z) };
    close_side(patches, z, before.saturating_sub(1))?;
    if across(patches, z, side).is_none() {
        return Ok(Side::Open);
    }
    if is_child(patches, z, side)? {
        return Ok(Side::Child);
    }
    if parent(patches, z) == Some(side_of(patches, z, side)) {
        return Ok(Side::Parent);
    }
    Ok(turning(patches, z, side))
}

/// Closes all corners of a cell.
pub(crate) fn close_all(patches: &mut Patches, z: PatchDart) -> Result<(), AskFault>
    ensures most { patches.new.most ≡ patches.old.most }
{
    for side in 0..patches.sides(z) {
        close_side(patches, z, side)?;
    }
    Ok(())
}

/// What all sides of a cell are, from its parent side on, or from side 0 on of a start cell.
pub(crate) fn all_sides(
    alloc: Global,
    patches: &mut Patches,
    z: PatchDart,
) -> Result<Vec<Side>, AskFault>
    ensures most { patches.new.most ≡ patches.old.most }
{
    let is_start = parent(patches, z).is_none();
    close_all(patches, z)?;
    let mut sides = Vec::new(alloc);
    for side in 0..patches.sides(z) {
        if side == 0 && !is_start {
            sides.push(Side::Parent)?;
        } else if is_child(patches, z, side)? {
            sides.push(Side::Child)?;
        } else {
            sides.push(turning(patches, z, side))?;
        }
    }
    Ok(sides)
}
