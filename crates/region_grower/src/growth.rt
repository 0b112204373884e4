// What is left to do for a layer, and the cells that are made for it.
ghost use Rattle.std.specs.Prelude.{◌≡◌, ◌≢◌, ℕ, List, ◌+◌, ◌<◌, ◌≤◌, ◌↔◌, length, slice_index, true, false, Option, None, IfNone, IfSome, IfOk, OnOk, vec_len, IsTrue};
ghost use Rattle.coincidence.specs.Cells.{IsLive, live_count};
ghost use Rattle.coincidence.specs.Tables.{joined_to};
ghost use Rattle.coincidence.specs.Joined.{IsTable};
ghost use Rattle.region_grower.specs.Ways.{IsDart, IsJoined};
ghost use Rattle.region_grower.specs.Growth.{HasGrown, AreWhole};
ghost use Rattle.region_grower.specs.Regions.{AreLevel, AreRadii, IsGrowing, IsRelaxed, StayLevel};
ghost use Rattle.region_grower.specs.Answers.{IsAnswer, IsOpenDart, IsReady, IsWanted};

use crate::corners::{close_corners, close_new, is_dart, turn_of, whole_until};
use crate::radii::{FAR, correct};
use coincidence::{Dart, Joins};
use std::alloc::AllocError;

/// What the next step is.
#[derive(Clone, Copy, Debug, PartialEq, Eq)]
pub(crate) enum Answer {
    Closed,
    Layer,
    Full,
    Open(Dart),
}

/// Whether a dart is not joined.
fn is_open(joins: &Joins, d: Dart) -> bool
    ensures opened { result ≡ true → joined_to joins.now d ≡ None }
    ensures joined { result ≡ false → IsJoined joins.now d }
{
    match joins.joined(d) {
        Some(over) => false,
        None => true,
    }
}

/// A dart of a cell that is live and not joined.
fn open_side(joins: &Joins, cell: u32) -> Option<Dart>
    ensures none { IfNone result ((i : ℕ) → IsDart joins.now (cell, i)
        → IsJoined joins.now (cell, i)) }
    ensures dart { IfSome result (IsDart joins.now) }
    ensures unjoined { IfSome result (λ d. joined_to joins.now d ≡ None) }
    ensures cell { IfSome result (λ d. d.0 ≡ cell) }
{
    if joins.alive(cell) {
        for side in 0..joins.turn(cell) {
            let d = Dart { cell, side };
            if is_open(joins, d) {
                return Some(d);
            }
        }
    }
    None
}

/// A dart of a cell that is live and not joined, if the radius of the cell is at most so much.
fn open_near(joins: &Joins, radii: &[u32], cell: u32, within: u32) -> Option<Dart>
    requires { cell < length radii.now }
    ensures none { IfNone result ((i : ℕ) → IsDart joins.now (cell, i)
        → slice_index radii.now cell ≤ within → IsJoined joins.now (cell, i)) }
    ensures dart { IfSome result (IsDart joins.now) }
    ensures unjoined { IfSome result (λ d. joined_to joins.now d ≡ None) }
    ensures near { IfSome result (λ d. slice_index radii.now d.0 ≤ within) }
{
    if radii[cell as usize] <= within {
        return open_side(joins, cell);
    }
    None
}

/// A dart that is not joined, of a live cell whose radius is at most so much. It is looked for
/// among the cells from one on, where the corners of those before are whole.
fn open_dart(joins: &Joins, radii: &[u32], whole: u32, within: u32) -> Option<Dart>
    requires table { IsTable joins.now }
    requires long { length joins.now.origins ≤ length radii.now }
    requires whole { AreWhole joins.now whole }
    ensures none { IfNone result ((d : ℕ × ℕ) → IsDart joins.now d
        → slice_index radii.now d.0 ≤ within → IsJoined joins.now d) }
    ensures dart { IfSome result (IsDart joins.now) }
    ensures unjoined { IfSome result (λ d. joined_to joins.now d ≡ None) }
    ensures near { IfSome result (λ d. slice_index radii.now d.0 ≤ within) }
{
    for cell in whole..joins.made() {
        if let Some(d) = open_near(joins, radii, cell, within) {
            return Some(d);
        }
    }
    None
}

/// The answer, or a dart across which a cell is to be made, where some dart is not joined.
fn near_answer(
    joins: &Joins,
    radii: &[u32],
    far: Dart,
    whole: u32,
    within: u32,
    most: u32,
) -> Answer
    requires table { IsTable joins.now }
    requires long { length joins.now.origins ≤ length radii.now }
    requires radii { AreRadii joins.now radii.now }
    requires whole { AreWhole joins.now whole }
    requires most { length joins.now.origins ≤ most }
    requires far { IsDart joins.now far }
    requires opened { joined_to joins.now far ≡ None }
    ensures { IsAnswer joins.now within most result }
{
    match open_dart(joins, radii, whole, within) {
        None => Answer::Layer,
        Some(d) => {
            if joins.made() < most {
                Answer::Open(d)
            } else {
                Answer::Full
            }
        }
    }
}

/// The answer, or a dart across which a cell is to be made.
fn answer_of(joins: &Joins, radii: &[u32], whole: u32, within: u32, most: u32) -> Answer
    requires table { IsTable joins.now }
    requires long { length joins.now.origins ≤ length radii.now }
    requires radii { AreRadii joins.now radii.now }
    requires whole { AreWhole joins.now whole }
    requires most { length joins.now.origins ≤ most }
    ensures { IsAnswer joins.now within most result }
{
    match open_dart(joins, radii, whole, FAR) {
        None => Answer::Closed,
        Some(far) => near_answer(joins, radii, far, whole, within, most),
    }
}

/// Makes a cell across a dart that is not joined, of a cell that is near, and closes its corners.
fn make(joins: &mut Joins, radii: &mut Vec<u32>, d: Dart, within: u32) -> Result<(), AllocError>
    requires growing { IsGrowing joins.old radii.old.items within }
    requires wanted { IsWanted joins.old radii.old.items within d }
    requires few { within < 1000000 }
    requires room { length joins.old.origins < 1000000 }
    ensures growing { IsGrowing joins.new radii.new.items within }
    ensures grown { HasGrown joins.old joins.new }
    ensures level { StayLevel joins.old radii.old.items joins.new radii.new.items }
    ensures more { OnOk result (length joins.new.origins ≡ length joins.old.origins + 1) }
    ensures at_most { length joins.new.origins ≤ length joins.old.origins + 1 }
{
    radii.push(FAR)?;
    let cell = joins.make_across(d)?;
    radii[cell as usize] = radii[d.cell as usize] + 1;
    close_new(joins, cell);
    Ok(())
}

/// Whether a cell is to be made across a side of a cell: it is a dart of a live cell that is near,
/// and is not joined.
fn is_wanted(joins: &Joins, radii: &[u32], d: Dart, within: u32) -> bool
    requires table { IsTable joins.now }
    requires long { length joins.now.origins ≤ length radii.now }
    ensures { result ≡ true → IsWanted joins.now radii.now within d }
{
    if is_dart(joins, d) {
        if radii[d.cell as usize] <= within {
            return is_open(joins, d);
        }
    }
    false
}

/// Makes a cell across a side of a cell, if one is to be made there and fewer cells were made than
/// may be.
fn make_side(
    joins: &mut Joins,
    radii: &mut Vec<u32>,
    d: Dart,
    within: u32,
    most: u32,
) -> Result<(), AllocError>
    requires growing { IsGrowing joins.old radii.old.items within }
    requires few { within < 1000000 }
    requires most { most ≤ 1000000 }
    requires made { length joins.old.origins ≤ most }
    ensures growing { IsGrowing joins.new radii.new.items within }
    ensures grown { HasGrown joins.old joins.new }
    ensures level { StayLevel joins.old radii.old.items joins.new radii.new.items }
    ensures at_most { length joins.new.origins ≤ most }
{
    if joins.made() < most {
        if is_wanted(joins, radii, d, within) {
            return make(joins, radii, d, within);
        }
    }
    Ok(())
}

/// Makes a cell across each side of a cell where one is to be made, as long as fewer cells were
/// made than may be.
fn make_round(
    joins: &mut Joins,
    radii: &mut Vec<u32>,
    cell: u32,
    within: u32,
    most: u32,
) -> Result<(), AllocError>
    requires growing { IsGrowing joins.old radii.old.items within }
    requires few { within < 1000000 }
    requires most { most ≤ 1000000 }
    requires made { length joins.old.origins ≤ most }
    ensures growing { IsGrowing joins.new radii.new.items within }
    ensures grown { HasGrown joins.old joins.new }
    ensures level { StayLevel joins.old radii.old.items joins.new radii.new.items }
    ensures at_most { length joins.new.origins ≤ most }
{
    for side in 0..turn_of(joins, cell) {
        make_side(joins, radii, Dart { cell, side }, within, most)?;
    }
    Ok(())
}

/// Makes a cell across a dart, and then across each other dart of the cells from one on where one
/// is to be made.
fn make_cells(
    joins: &mut Joins,
    radii: &mut Vec<u32>,
    d: Dart,
    from: u32,
    within: u32,
    most: u32,
) -> Result<(), AllocError>
    requires growing { IsGrowing joins.old radii.old.items within }
    requires wanted { IsWanted joins.old radii.old.items within d }
    requires few { within < 1000000 }
    requires most { most ≤ 1000000 }
    requires room { length joins.old.origins < most }
    ensures growing { IsGrowing joins.new radii.new.items within }
    ensures grown { HasGrown joins.old joins.new }
    ensures level { StayLevel joins.old radii.old.items joins.new radii.new.items }
    ensures at_most { length joins.new.origins ≤ most }
    ensures more { OnOk result (length joins.old.origins < length joins.new.origins) }
{
    let made = joins.made();
    make(joins, radii, d, within)?;
    for cell in from..made {
        make_round(joins, radii, cell, within, most)?;
    }
    Ok(())
}

/// The number of a cell before which no radius is over one more than that across a dart: the one
/// handed in, if so many cells were renamed as when the radii were exact.
fn level_until(joins: &Joins, whole: u32, gone: u32) -> u32
    requires table { IsTable joins.now }
    requires no_fewer { live_count joins.now.cells + gone ≤ length joins.now.origins }
    ensures { (radii : List ℕ) → AreLevel joins.now radii whole gone → (c : ℕ) → c < result
        → IsLive joins.now.cells c → IsRelaxed joins.now radii c }
{
    if joins.live() + gone == joins.made() {
        return whole;
    }
    0
}

/// Closes all corners, where those of the cells before one are whole, and makes the radii exact,
/// which they were when so many cells were renamed. Answers before which cell all corners are whole
/// now.
fn settle(joins: &mut Joins, radii: &mut [u32], whole: u32, gone: u32, within: u32) -> u32
    requires growing { IsGrowing joins.old radii.old within }
    requires level { AreLevel joins.old radii.old whole gone }
    ensures ready { IsReady joins.new radii.new within result }
    ensures grown { HasGrown joins.old joins.new }
    ensures made { joins.new.origins ≡ joins.old.origins }
{
    close_corners(joins, whole);
    let level = level_until(joins, whole, gone);
    correct(joins, radii, level);
    whole_until(joins, whole)
}

/// Makes cells, and closes the corners, until there is an answer other than a dart that is open.
/// Out of memory the region is settled.
pub(crate) fn advance(
    joins: &mut Joins,
    radii: &mut Vec<u32>,
    whole: &mut u32,
    within: u32,
    most: u32,
) -> Result<Answer, AllocError>
    requires ready { IsReady joins.old radii.old.items within whole.old }
    requires few { within < 1000000 }
    requires most { most ≤ 1000000 }
    requires made { length joins.old.origins ≤ most }
    ensures ready { IsReady joins.new radii.new.items within whole.new }
    ensures answer { IfOk result (IsAnswer joins.new within most) }
    ensures done { IfOk result (λ a. (d : ℕ × ℕ) → a ≢ Answer.Open d) }
    ensures at_most { length joins.new.origins ≤ most }
    ensures grown { HasGrown joins.old joins.new }
{
    let mut answer = answer_of(joins, radii, *whole, within, most);
    while let Answer::Open(d) = answer {
        let gone = renamed(joins);
        let made = make_cells(joins, radii, d, *whole, within, most);
        *whole = settle(joins, radii, *whole, gone, within);
        made?;
        answer = answer_of(joins, radii, *whole, within, most);
    }
    Ok(answer)
}

/// The number of cells that were renamed.
fn renamed(joins: &Joins) -> u32
    requires { IsTable joins.now }
    ensures { live_count joins.now.cells + result ≡ length joins.now.origins }
{
    joins.made() - joins.live()
}
