//! Codes: what a cell looks like from its parent side, by the distances round its corners.
ghost use Rattle.std.specs.Prelude.{◌≡◌};

use crate::fault::AskFault;
use crate::limits::READINGS;
use crate::steps::{across, close, close_side, parent, settle, side_of};
use cell_patches::{PatchDart, Patches};
use std::alloc::{AllocError, Global};

/// How much a code takes in.
#[derive(Clone, Copy, Debug, PartialEq, Eq)]
pub enum Level {
    /// The corners from the parent side on, to the left and to the right, as far as one is generic:
    /// the tile `j` steps round it, of `v`, lies `j` or `v - j` farther out, whichever is less.
    Near,
    /// All corners, and those of the neighbours that are not farther out.
    Ring,
}

/// The corners of a neighbour, and how much farther out it lies than the cell.
#[derive(Debug, PartialEq, Eq, Hash, Drop)]
pub(crate) struct Neighbour {
    farther: i8,
    corners: Vec<i8>,
}

/// The type of the parent side, and, corner by corner, how much farther out the tiles round it lie
/// than the cell: going left from the parent side, and then going right.
#[derive(Debug, PartialEq, Eq, Hash, Drop)]
pub(crate) struct Code {
    kind: u8,
    residue: u8,
    left: Vec<i8>,
    right: Vec<i8>,
    neighbours: Vec<Neighbour>,
}

/// What a look at a corner came to.
#[derive(Clone, Copy, Debug, PartialEq, Eq)]
enum Corner {
    /// The dart that was the parent side is so no more.
    Moved,
    Generic,
    Other,
}

/// How much farther out one distance is than another, between -100 and 100.
fn farther(distance: u32, than: u32) -> i8 {
    (distance as i64 - than as i64).clamp(-100, 100) as i8
}

/// Writes down how much farther out than its cell the tiles round the corner at the left end of a
/// dart lie, under its own name, as far as they are there. Answers whether the corner is generic;
/// None where not all tiles are there, or they do not lead back to the dart.
fn write_corner(
    patches: &Patches,
    d: PatchDart,
    corner: &mut Vec<i8>,
) -> Result<Option<bool>, AllocError> {
    let valence = patches.valence(d);
    let distance = patches.distance(d);
    let mut generic = true;
    let mut at = d;
    for step in 1..valence {
        let Some(over) = patches.joined(next_left(at)) else {
            return Ok(None);
        };
        at = over;
        let farther = farther(patches.distance(at), distance);
        corner.push(farther)?;
        generic = generic && farther as i16 == step.min(valence - step) as i16;
    }
    if patches.joined(next_left(at)) != Some(d) {
        return Ok(None);
    }
    Ok(Some(generic))
}

/// The next side to the left, as a dart that `joined` takes.
fn next_left(d: PatchDart) -> PatchDart {
    PatchDart {
        side: d.side.saturating_add(1),
        ..d
    }
}

/// Whether a dart is the parent side of its cell still, under its own name.
fn stands(patches: &mut Patches, d: PatchDart) -> bool
    ensures most { patches.new.most ≡ patches.old.most }
{
    if patches.named(d) != d {
        return false;
    }
    parent(patches, d) == Some(d)
}

/// Closes the corner so many sides to the left of a parent side, and writes it down. Mostly it is
/// whole already, and nothing changes.
fn look(
    patches: &mut Patches,
    z: PatchDart,
    side: u8,
    corner: &mut Vec<i8>,
) -> Result<Corner, AskFault>
    ensures most { patches.new.most ≡ patches.old.most }
{
    let written = corner.len();
    let at = side_of(patches, z, side);
    let mut generic = write_corner(patches, at, corner)?;
    if generic.is_none() {
        corner.truncate(written);
        close_side(patches, z, side)?;
        if !stands(patches, z) {
            return Ok(Corner::Moved);
        }
        let at = side_of(patches, z, side);
        generic = write_corner(patches, at, corner)?;
    }
    if generic == Some(true) {
        Ok(Corner::Generic)
    } else {
        Ok(Corner::Other)
    }
}

/// Closes a corner of the neighbour across a side, and writes it down.
fn look_across(
    patches: &mut Patches,
    z: PatchDart,
    side: u8,
    over: u8,
    corner: &mut Vec<i8>,
) -> Result<Corner, AskFault>
    ensures most { patches.new.most ≡ patches.old.most }
{
    if let Some(neighbour) = across(patches, z, side) {
        close_side(patches, neighbour, over)?;
    }
    if !stands(patches, z) {
        return Ok(Corner::Moved);
    }
    if let Some(neighbour) = across(patches, z, side) {
        let at = side_of(patches, neighbour, over);
        let _generic = write_corner(patches, at, corner)?;
    }
    Ok(Corner::Other)
}

/// Writes down the corners to the left of a parent side. Answers how many of them; None where the
/// parent side is another one now.
fn write_left(
    patches: &mut Patches,
    z: PatchDart,
    level: Level,
    corners: &mut Vec<i8>,
) -> Result<Option<u8>, AskFault>
    ensures most { patches.new.most ≡ patches.old.most }
{
    let sides = patches.sides(z);
    for side in 0..sides {
        match look(patches, z, side, corners)? {
            Corner::Moved => return Ok(None),
            Corner::Generic => {
                if level == Level::Near {
                    return Ok(Some(side + 1));
                }
            }
            Corner::Other => {}
        }
    }
    Ok(Some(sides))
}

/// Writes down the corners to the right of a parent side, of which so many are written down from
/// the left. Answers false where the parent side is another one now.
fn write_right(
    patches: &mut Patches,
    z: PatchDart,
    level: Level,
    written: u8,
    corners: &mut Vec<i8>,
) -> Result<bool, AskFault>
    ensures most { patches.new.most ≡ patches.old.most }
{
    let sides = patches.sides(z);
    for side in (written..sides).rev() {
        match look(patches, z, side, corners)? {
            Corner::Moved => return Ok(false),
            Corner::Generic => {
                if level == Level::Near {
                    return Ok(true);
                }
            }
            Corner::Other => {}
        }
    }
    Ok(true)
}

/// The corners of the neighbour across a side; None where the parent side is another one now.
fn neighbour_corners(
    alloc: Global,
    patches: &mut Patches,
    z: PatchDart,
    side: u8,
    sides: u8,
) -> Result<Option<Vec<i8>>, AskFault>
    ensures most { patches.new.most ≡ patches.old.most }
{
    let mut corners = Vec::new(alloc);
    for over in 0..sides {
        if look_across(patches, z, side, over, &mut corners)? == Corner::Moved {
            return Ok(None);
        }
    }
    Ok(Some(corners))
}

/// Writes down the neighbours of a cell that are not farther out. Answers false where the parent
/// side is another one now.
fn write_neighbours(
    alloc: Global,
    patches: &mut Patches,
    z: PatchDart,
    neighbours: &mut Vec<Neighbour>,
) -> Result<bool, AskFault>
    ensures most { patches.new.most ≡ patches.old.most }
{
    for side in 0..patches.sides(z) {
        let Some(over) = across(patches, z, side) else {
            continue;
        };
        if patches.distance(over) > patches.distance(z) {
            continue;
        }
        let sides = patches.sides(over);
        let Some(corners) = neighbour_corners(alloc, patches, z, side, sides)? else {
            return Ok(false);
        };
        let over = across(patches, z, side).unwrap_or(over);
        neighbours.push(Neighbour {
            farther: farther(patches.distance(over), patches.distance(z)),
            corners,
        })?;
    }
    Ok(true)
}

/// The code of a cell by its parent side; None where the parent side is another one now.
fn read(
    alloc: Global,
    patches: &mut Patches,
    z: PatchDart,
    level: Level,
) -> Result<Option<Code>, AskFault>
    ensures most { patches.new.most ≡ patches.old.most }
{
    let dart_type = patches.type_of(z);
    let mut left = Vec::new(alloc);
    let mut right = Vec::new(alloc);
    let mut neighbours = Vec::new(alloc);
    let Some(written) = write_left(patches, z, level, &mut left)? else {
        return Ok(None);
    };
    if !write_right(patches, z, level, written, &mut right)? {
        return Ok(None);
    }
    if level == Level::Ring && !write_neighbours(alloc, patches, z, &mut neighbours)? {
        return Ok(None);
    }
    Ok(Some(Code {
        kind: dart_type.kind,
        residue: dart_type.residue,
        left,
        right,
        neighbours,
    }))
}

/// The parent side of the cell of a dart, and the code of the cell; None for a start cell.
pub(crate) fn code_of(
    alloc: Global,
    patches: &mut Patches,
    d: PatchDart,
    level: Level,
) -> Result<Option<(PatchDart, Code)>, AskFault>
    ensures most { patches.new.most ≡ patches.old.most }
{
    for turn in 0..READINGS {
        let Some(z) = settle(patches, d)? else {
            return Ok(None);
        };
        if let Some(code) = read(alloc, patches, z, level)? {
            return Ok(Some((z, code)));
        }
    }
    Ok(None)
}
