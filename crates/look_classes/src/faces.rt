//! Numbers of the looks of cells, to horizon 0 and to one farther.
ghost use Rattle.std.specs.Prelude.{◌≡◌, ◌<◌, ℕ, List, ◌++◌, length, map, Some, None, IfOk, OnOk, MatchOption};
ghost use Rattle.coincidence.specs.Cells.{IsLive};
ghost use Rattle.look_classes.specs.Tree.{sides_of};
ghost use Rattle.look_classes.specs.Looks.{has_child};
ghost use Rattle.look_classes.specs.Classes.{below, sides_below, made};
ghost use Rattle.look_classes.specs.Numbers.{AreNumbers};
ghost use Rattle.look_classes.specs.Codes.{rule_code, side_code, face_code, child_code, child_codes, cell_code};

use crate::numbering::Numbering;
use crate::places::Places;
use crate::rule::SideRule;
use crate::tree::{over, sides};
use std::alloc::{AllocError, Global};

/// A rule in a number.
fn rule_number(rule: SideRule) -> u32
    ensures { result ≡ rule_code rule }
{
    match rule {
        SideRule::Parent => 0,
        SideRule::Child => 1,
        SideRule::Left => 2,
        SideRule::Right => 3,
    }
}

/// What the look at a live cell says of its side `j`, counted from its parent side, by the numbers
/// of corners; None where it leaves the finished part.
#[tactic(auto, unfolding(crate::specs::Codes::side_code))]
fn side_numbers(
    places: &Places<'_, '_>,
    corners: &[Option<u32>],
    cell: u32,
    j: u8,
) -> Option<(u32, u32, u32)>
    requires live { IsLive places.now.table.cells cell }
    requires side { j < sides_of places.now cell }
    requires corners { length corners.now ≡ length (sides_below (made places.now) places.now) }
    ensures { result ≡ side_code places.now corners.now cell j }
{
    let side = places.counted(cell, j);
    let rule = places.rule(cell, j)?;
    let place = places.place(side)?;
    let corner = places.number(corners, side)?;
    Some((rule_number(rule), u32::from(place), corner))
}

/// The look at a live cell itself, by the numbers of corners; None where it leaves the finished
/// part.
#[tactic(auto, unfolding(crate::specs::Codes::face_code))]
fn face_key(
    alloc: Global,
    places: &Places<'_, '_>,
    corners: &[Option<u32>],
    cell: u32,
) -> Result<Option<Vec<u32>>, AllocError>
    requires live { IsLive places.now.table.cells cell }
    requires corners { length corners.now ≡ length (sides_below (made places.now) places.now) }
    ensures { IfOk result (λ o. MatchOption o (face_code places.now corners.now cell ≡ None)
        (λ v. face_code places.now corners.now cell ≡ Some v.items)) }
{
    let region = places.region();
    let counted = region.joins().type_of(places.counted(cell, 0));
    let mut key = Vec::new(alloc);
    key.push(u32::from(counted.kind))?;
    key.push(u32::from(counted.residue))?;
    for j in 0..sides(region, cell) {
        let Some((rule, place, corner)) = side_numbers(places, corners, cell, j) else {
            return Ok(None);
        };
        key.push(rule)?;
        key.push(place)?;
        key.push(corner)?;
    }
    Ok(Some(key))
}

/// Whether side `j` of a live cell, counted from its parent side, is that of a child.
fn is_child(places: &Places<'_, '_>, cell: u32, j: u8) -> bool
    requires live { IsLive places.now.table.cells cell }
    requires side { j < sides_of places.now cell }
    ensures { result ≡ has_child places.now cell j }
{
    match places.rule(cell, j) {
        Some(SideRule::Child) => true,
        _ => false,
    }
}

/// The number of the cell across side `j` of a live cell, counted from its parent side.
#[tactic(auto, unfolding(crate::specs::Codes::child_code))]
fn child_number(places: &Places<'_, '_>, cells: &[Option<u32>], cell: u32, j: u8) -> Option<u32>
    requires live { IsLive places.now.table.cells cell }
    requires side { j < sides_of places.now cell }
    requires cells { length cells.now ≡ made places.now }
    ensures { result ≡ child_code places.now cells.now cell j }
{
    let over = over(places.region(), places.counted(cell, j))?;
    cells[over.cell as usize]
}

/// The numbers of the cells across the sides of the children of a live cell, behind a key; None
/// where one is not there.
fn with_children(
    places: &Places<'_, '_>,
    cells: &[Option<u32>],
    cell: u32,
    mut key: Vec<u32>,
) -> Result<Option<Vec<u32>>, AllocError>
    requires live { IsLive places.now.table.cells cell }
    requires cells { length cells.now ≡ made places.now }
    ensures { IfOk result (λ o. MatchOption o (child_codes places.now cells.now cell ≡ None)
        (λ v. (cs : List ℕ) × (child_codes places.now cells.now cell ≡ Some cs)
        × (v.items ≡ key.items ++ cs))) }
{
    for j in 0..sides(places.region(), cell) {
        if is_child(places, cell, j) {
            let Some(child) = child_number(places, cells, cell, j) else {
                return Ok(None);
            };
            key.push(child)?;
        }
    }
    Ok(Some(key))
}

/// The look at a cell to horizon 0; None where it leaves the finished part.
fn first_key(
    alloc: Global,
    places: &Places<'_, '_>,
    corners: &[Option<u32>],
    cell: u32,
) -> Result<Option<Vec<u32>>, AllocError>
    requires made { cell < length places.now.table.origins }
    requires corners { length corners.now ≡ length (sides_below (made places.now) places.now) }
    ensures { IfOk result (λ o. MatchOption o (face_code places.now corners.now cell ≡ None)
        (λ v. face_code places.now corners.now cell ≡ Some v.items)) }
{
    if places.region().joins().alive(cell) {
        return face_key(alloc, places, corners, cell);
    }
    Ok(None)
}

/// The look at a cell to a horizon one farther, by the numbers of cells to the horizon; None where
/// it leaves the finished part.
#[tactic(auto, unfolding(crate::specs::Codes::cell_code))]
fn next_key(
    alloc: Global,
    places: &Places<'_, '_>,
    corners: &[Option<u32>],
    cells: &[Option<u32>],
    cell: u32,
) -> Result<Option<Vec<u32>>, AllocError>
    requires made { cell < length places.now.table.origins }
    requires corners { length corners.now ≡ length (sides_below (made places.now) places.now) }
    requires cells { length cells.now ≡ made places.now }
    ensures { IfOk result (λ o. MatchOption o (cell_code places.now corners.now cells.now cell
        ≡ None)
        (λ v. cell_code places.now corners.now cells.now cell ≡ Some v.items)) }
{
    if places.region().joins().alive(cell) {
        let Some(key) = face_key(alloc, places, corners, cell)? else {
            return Ok(None);
        };
        return with_children(places, cells, cell, key);
    }
    Ok(None)
}

/// The numbers of the looks of all cells to horizon 0, and how many there are.
pub(crate) fn first_cells(
    alloc: Global,
    places: &Places<'_, '_>,
    corners: &[Option<u32>],
) -> Result<(Vec<Option<u32>>, u32), AllocError>
    requires { length corners.now ≡ length (sides_below (made places.now) places.now) }
    ensures { IfOk result
        (λ x. AreNumbers (map (face_code places.now corners.now) (below (made places.now)))
        x.0.items x.1) }
{
    let mut numbering = Numbering::new(alloc);
    for cell in 0..places.region().made() {
        numbering.add(first_key(alloc, places, corners, cell)?)?;
    }
    numbering.finish()
}

/// The numbers of the looks of all cells to a horizon one farther, and how many there are.
pub(crate) fn next_cells(
    alloc: Global,
    places: &Places<'_, '_>,
    corners: &[Option<u32>],
    cells: &[Option<u32>],
) -> Result<(Vec<Option<u32>>, u32), AllocError>
    requires corners { length corners.now ≡ length (sides_below (made places.now) places.now) }
    requires cells { length cells.now ≡ made places.now }
    ensures { IfOk result
        (λ x. AreNumbers (map (cell_code places.now corners.now cells.now)
        (below (made places.now)))
        x.0.items x.1) }
{
    let mut numbering = Numbering::new(alloc);
    for cell in 0..places.region().made() {
        numbering.add(next_key(alloc, places, corners, cells, cell)?)?;
    }
    numbering.finish()
}
