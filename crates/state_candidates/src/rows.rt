//! The states of a region, and its corner types, in the order of their numbers.
ghost use Rattle.std.specs.Prelude.{◌≡◌, ◌+◌, ◌<◌, ◌≤◌, length, IfOk, true, false};
ghost use Rattle.tree_model.specs.Automata.{no_state, no_corner};
ghost use Rattle.look_classes.specs.Tree.{sides_of};
ghost use Rattle.state_candidates.specs.Reading.{corner_index};
ghost use Rattle.state_candidates.specs.Readers.{AreStates, AreStatesTo, AreCorners, AreCornersTo, IsLacking, GoesOn, state_read, corner_read};

use crate::reader::Reader;
use coincidence::Dart;
use rules_data::{Corner, State};
use std::alloc::{AllocError, Global};

/// Adds the state of a cell, where its number is a new one. Answers whether all that is to be read
/// is there.
fn push_state(
    alloc: Global,
    reader: &Reader,
    cell: u32,
    states: &mut Vec<State>,
) -> Result<bool, AllocError>
    requires made { cell < length reader.now.region.table.origins }
    requires before { AreStatesTo reader.now states.old.items cell }
    ensures read { IfOk result (λ b. b ≡ true
        → AreStatesTo reader.now states.new.items (cell + 1)) }
    ensures kept { IfOk result (λ b. b ≡ true → GoesOn no_state states.old.items states.new.items) }
    ensures lacking { IfOk result
        (λ b. b ≡ false → IsLacking reader.now.lists.cells (state_read reader.now)) }
{
    // The classes of the reader are those of its region.
    let _made = reader.made();
    let Some(number) = reader.cell_number(cell) else {
        return Ok(true);
    };
    if (reader.first_state() + number) as usize != states.len() {
        return Ok(true);
    }
    let Some(state) = reader.state(alloc, cell)? else {
        return Ok(false);
    };
    states.push(state)?;
    Ok(true)
}

/// Adds the states of a region, that of the least cell with each number. Answers whether all that
/// is to be read is there.
pub(crate) fn push_states(
    alloc: Global,
    reader: &Reader,
    states: &mut Vec<State>,
) -> Result<bool, AllocError>
    requires { length states.old.items ≡ reader.now.first_state }
    ensures read { IfOk result (λ b. b ≡ true → AreStates reader.now states.new.items) }
    ensures kept { IfOk result (λ b. b ≡ true → GoesOn no_state states.old.items states.new.items) }
    ensures lacking { IfOk result
        (λ b. b ≡ false → IsLacking reader.now.lists.cells (state_read reader.now)) }
{
    for cell in 0..reader.made() {
        if !push_state(alloc, reader, cell, states)? {
            return Ok(false);
        }
    }
    Ok(true)
}

/// Adds the corner type of a side, where its number is a new one. Answers whether all that is to be
/// read is there.
fn push_corner(
    alloc: Global,
    reader: &Reader,
    cell: u32,
    side: u8,
    corners: &mut Vec<Corner>,
) -> Result<bool, AllocError>
    requires made { cell < length reader.now.region.table.origins }
    requires side { side < sides_of reader.now.region cell }
    requires before { AreCornersTo reader.now corners.old.items
        (corner_index reader.now.region cell side) }
    ensures read { IfOk result (λ b. b ≡ true
        → AreCornersTo reader.now corners.new.items
        (corner_index reader.now.region cell (side + 1))) }
    ensures kept { IfOk result
        (λ b. b ≡ true → GoesOn no_corner corners.old.items corners.new.items) }
    ensures lacking { IfOk result
        (λ b. b ≡ false → IsLacking reader.now.lists.corners (corner_read reader.now)) }
{
    // The classes of the reader are those of its region.
    let _made = reader.made();
    let Some(number) = reader.corner_number(Dart { cell, side }) else {
        return Ok(true);
    };
    if (reader.first_corner() + number) as usize != corners.len() {
        return Ok(true);
    }
    let Some(corner) = reader.corner(alloc, cell, side)? else {
        return Ok(false);
    };
    corners.push(corner)?;
    Ok(true)
}

/// Adds the corner types of the sides of a cell, where their numbers are new ones. Answers whether
/// all that is to be read is there.
fn push_cell(
    alloc: Global,
    reader: &Reader,
    cell: u32,
    corners: &mut Vec<Corner>,
) -> Result<bool, AllocError>
    requires made { cell < length reader.now.region.table.origins }
    requires before { AreCornersTo reader.now corners.old.items
        (corner_index reader.now.region cell 0) }
    ensures read { IfOk result (λ b. b ≡ true
        → AreCornersTo reader.now corners.new.items (corner_index reader.now.region (cell + 1) 0)) }
    ensures kept { IfOk result
        (λ b. b ≡ true → GoesOn no_corner corners.old.items corners.new.items) }
    ensures lacking { IfOk result
        (λ b. b ≡ false → IsLacking reader.now.lists.corners (corner_read reader.now)) }
{
    for side in 0..reader.sides(cell) {
        if !push_corner(alloc, reader, cell, side, corners)? {
            return Ok(false);
        }
    }
    Ok(true)
}

/// Adds the corner types of a region, that of the least side with each number, by cell and then by
/// the number of the side. Answers whether all that is to be read is there.
pub(crate) fn push_corners(
    alloc: Global,
    reader: &Reader,
    corners: &mut Vec<Corner>,
) -> Result<bool, AllocError>
    requires { length corners.old.items ≡ reader.now.first_corner }
    ensures read { IfOk result (λ b. b ≡ true → AreCorners reader.now corners.new.items) }
    ensures kept { IfOk result
        (λ b. b ≡ true → GoesOn no_corner corners.old.items corners.new.items) }
    ensures lacking { IfOk result
        (λ b. b ≡ false → IsLacking reader.now.lists.corners (corner_read reader.now)) }
{
    for cell in 0..reader.made() {
        if !push_cell(alloc, reader, cell, corners)? {
            return Ok(false);
        }
    }
    Ok(true)
}
