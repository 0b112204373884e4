//! Numbers of the looks of corners, to horizon 0 and to one farther.
ghost use Rattle.std.specs.Prelude.{◌≡◌, ℕ, ◌+◌, ◌<◌, ◌≤◌, length, map, Some, None, IfOk, OnOk, MatchOption};
ghost use Rattle.coincidence.specs.Cells.{IsLive};
ghost use Rattle.region_grower.specs.Ways.{IsDart};
ghost use Rattle.look_classes.specs.Tree.{dart_of, sides_of};
ghost use Rattle.look_classes.specs.Classes.{sides_below, made};
ghost use Rattle.look_classes.specs.Numbers.{AreNumbers};
ghost use Rattle.look_classes.specs.Codes.{difference_code, distance_codes, first_code, next_code, first_codes, next_codes, sides_at, HasNumberedMore};

use crate::numbering::Numbering;
use crate::places::{Places, valence};
use crate::tree::{dart, distance, made_sides, over, right};
use coincidence::Dart;
use std::alloc::{AllocError, Global};

/// The difference of two distances, in a number: twice it where it is 0 or more, else twice its
/// amount, less 1.
fn difference(far: u32, near: u32) -> u32
    requires far { far ≤ 1000000 }
    requires near { near ≤ 1000000 }
    ensures { result ≡ difference_code far near }
{
    if near <= far {
        2 * (far - near)
    } else {
        2 * (near - far) - 1
    }
}

/// How far the cells round the corner of a dart lie from the first one, less how far its own cell
/// lies; None where a join is missing.
#[tactic(auto, unfolding(crate::specs::Looks::each_below))]
fn distances(
    alloc: Global,
    places: &Places<'_, '_>,
    base: Dart,
) -> Result<Option<Vec<u32>>, AllocError>
    requires { IsDart places.now.table base }
    ensures { IfOk result (λ o. MatchOption o (distance_codes places.now base ≡ None)
        (λ v. distance_codes places.now base ≡ Some v.items)) }
{
    let region = places.region();
    let mut codes = Vec::new(alloc);
    let mut at = Some(base);
    for tile in 0..valence(region, base) {
        let Some(here) = at else {
            return Ok(None);
        };
        codes.push(difference(distance(region, here.cell), distance(region, base.cell)))?;
        at = over(
            region,
            Dart {
                cell: here.cell,
                side: here.side + 1,
            },
        );
    }
    Ok(Some(codes))
}

/// The look to horizon 0 of the corner of a dart of a live cell; None where it leaves the finished
/// part.
#[tactic(auto, unfolding(crate::specs::Codes::first_code, crate::specs::Codes::look_code))]
fn first_key(
    alloc: Global,
    places: &Places<'_, '_>,
    d: Dart,
) -> Result<Option<Vec<u32>>, AllocError>
    requires { IsDart places.now.table d }
    ensures { IfOk result (λ o. MatchOption o (first_code places.now d ≡ None)
        (λ v. first_code places.now d ≡ Some v.items)) }
{
    let Some((_, base)) = places.placed(d) else {
        return Ok(None);
    };
    let Some(place) = places.place(right(places.region(), base)) else {
        return Ok(None);
    };
    let Some(mut codes) = distances(alloc, places, base)? else {
        return Ok(None);
    };
    codes.push(u32::from(place))?;
    Ok(Some(codes))
}

/// The look to a horizon one farther of the corner of a dart of a live cell, by the numbers of
/// looks to horizon 0 and of looks to the horizon; None where it leaves the finished part.
#[tactic(auto, unfolding(crate::specs::Codes::next_code))]
fn next_key(
    alloc: Global,
    places: &Places<'_, '_>,
    firsts: &[Option<u32>],
    corners: &[Option<u32>],
    d: Dart,
) -> Result<Option<Vec<u32>>, AllocError>
    requires dart { IsDart places.now.table d }
    requires firsts { length firsts.now ≡ length (sides_below (made places.now) places.now) }
    requires corners { length corners.now ≡ length (sides_below (made places.now) places.now) }
    ensures { IfOk result
        (λ o. MatchOption o (next_code places.now firsts.now corners.now d ≡ None)
        (λ v. next_code places.now firsts.now corners.now d ≡ Some v.items)) }
{
    let Some(first) = places.number(firsts, d) else {
        return Ok(None);
    };
    let Some(outer) = places.outer_side(d) else {
        return Ok(None);
    };
    let Some(next) = places.number(corners, outer) else {
        return Ok(None);
    };
    let mut key = Vec::with_capacity(alloc, 2)?;
    key.push(first)?;
    key.push(next)?;
    Ok(Some(key))
}

/// The look to horizon 0 of the corner of a side of a cell that was made; None where it leaves the
/// finished part.
fn first_key_at(
    alloc: Global,
    places: &Places<'_, '_>,
    cell: u32,
    side: u8,
) -> Result<Option<Vec<u32>>, AllocError>
    ensures { IfOk result
        (λ o. MatchOption o (first_code places.now (dart_of places.now cell side) ≡ None)
        (λ v. first_code places.now (dart_of places.now cell side) ≡ Some v.items)) }
{
    let region = places.region();
    if region.joins().alive(cell) {
        return first_key(alloc, places, dart(region, cell, side));
    }
    Ok(None)
}

/// Numbers the looks to horizon 0 of the corners of a cell.
fn number_first(
    alloc: Global,
    places: &Places<'_, '_>,
    cell: u32,
    numbering: &mut Numbering,
) -> Result<(), AllocError>
    requires { cell < length places.now.table.origins }
    ensures { OnOk result (HasNumberedMore numbering.old numbering.new
        (first_codes places.now (sides_at places.now cell))) }
{
    for side in 0..made_sides(places.region(), cell) {
        numbering.add(first_key_at(alloc, places, cell, side)?)?;
    }
    Ok(())
}

/// The numbers of the looks of all corners to horizon 0, and how many there are.
pub(crate) fn first_corners(
    alloc: Global,
    places: &Places<'_, '_>,
) -> Result<(Vec<Option<u32>>, u32), AllocError>
    ensures { IfOk result
        (λ x. AreNumbers (first_codes places.now (sides_below (made places.now) places.now))
        x.0.items x.1) }
{
    let mut numbering = Numbering::new(alloc);
    for cell in 0..places.region().made() {
        number_first(alloc, places, cell, &mut numbering)?;
    }
    numbering.finish()
}

/// The look to a horizon one farther of the corner of a side of a cell that was made; None where it
/// leaves the finished part.
fn next_key_at(
    alloc: Global,
    places: &Places<'_, '_>,
    firsts: &[Option<u32>],
    corners: &[Option<u32>],
    cell: u32,
    side: u8,
) -> Result<Option<Vec<u32>>, AllocError>
    requires firsts { length firsts.now ≡ length (sides_below (made places.now) places.now) }
    requires corners { length corners.now ≡ length (sides_below (made places.now) places.now) }
    ensures { IfOk result
        (λ o. MatchOption o
        (next_code places.now firsts.now corners.now (dart_of places.now cell side) ≡ None)
        (λ v. next_code places.now firsts.now corners.now (dart_of places.now cell side)
        ≡ Some v.items)) }
{
    let region = places.region();
    if region.joins().alive(cell) {
        return next_key(alloc, places, firsts, corners, dart(region, cell, side));
    }
    Ok(None)
}

/// Numbers the looks to a horizon one farther of the corners of a cell.
fn number_next(
    alloc: Global,
    places: &Places<'_, '_>,
    firsts: &[Option<u32>],
    corners: &[Option<u32>],
    cell: u32,
    numbering: &mut Numbering,
) -> Result<(), AllocError>
    requires cell { cell < length places.now.table.origins }
    requires firsts { length firsts.now ≡ length (sides_below (made places.now) places.now) }
    requires corners { length corners.now ≡ length (sides_below (made places.now) places.now) }
    ensures { OnOk result (HasNumberedMore numbering.old numbering.new
        (next_codes places.now firsts.now corners.now (sides_at places.now cell))) }
{
    for side in 0..made_sides(places.region(), cell) {
        numbering.add(next_key_at(alloc, places, firsts, corners, cell, side)?)?;
    }
    Ok(())
}

/// The numbers of the looks of all corners to a horizon one farther, and how many there are.
pub(crate) fn next_corners(
    alloc: Global,
    places: &Places<'_, '_>,
    firsts: &[Option<u32>],
    corners: &[Option<u32>],
) -> Result<(Vec<Option<u32>>, u32), AllocError>
    requires firsts { length firsts.now ≡ length (sides_below (made places.now) places.now) }
    requires corners { length corners.now ≡ length (sides_below (made places.now) places.now) }
    ensures { IfOk result
        (λ x. AreNumbers
        (next_codes places.now firsts.now corners.now (sides_below (made places.now) places.now))
        x.0.items x.1) }
{
    let mut numbering = Numbering::new(alloc);
    for cell in 0..places.region().made() {
        number_next(alloc, places, firsts, corners, cell, &mut numbering)?;
    }
    numbering.finish()
}
