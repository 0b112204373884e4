// Corners are closed: where all tiles but one step round a corner are there, the last step leads
// back.
ghost use Rattle.std.specs.Prelude.{◌≡◌, ℕ, ◌<◌, ◌≤◌, ◌||◌, ◌↔◌, length, Option, Some, None, IsTrue};
ghost use Rattle.coincidence.specs.Cells.{IsLive, turn_at};
ghost use Rattle.coincidence.specs.Tables.{JoinTable, joined_to};
ghost use Rattle.coincidence.specs.Joined.{IsTable};
ghost use Rattle.region_grower.specs.Ways.{IsDart};
ghost use Rattle.region_grower.specs.Corners.{left_of, rounds, IsClosed, AllClosed, IsWhole};
ghost use Rattle.region_grower.specs.Growth.{AreWhole};
ghost use Rattle.region_grower.specs.Regions.{HasClosedOn};
ghost use Rattle.region_grower.specs.Passes.{HasPassed};

use coincidence::{Dart, Joins};

/// Whether one of two holds.
pub(crate) fn either(a: bool, b: bool) -> bool
    ensures { result ≡ (a || b) }
{
    a || b
}

/// The next side to the left.
pub(crate) fn left(d: Dart) -> Dart
    requires { d.1 < 64 }
    ensures { result ≡ left_of d }
{
    Dart {
        cell: d.cell,
        side: d.side + 1,
    }
}

/// LX so many times, through joined darts only.
fn round(joins: &Joins, d: Dart, times: u8) -> Option<Dart>
    requires { d.1 < 64 }
    ensures { result ≡ rounds times joins.now d }
{
    let mut at = d;
    for time in 0..times {
        match joins.joined(left(at)) {
            Some(over) => at = over,
            None => return None,
        }
    }
    Some(at)
}

/// Whether the one dart is joined to the other.
fn is_joined(joins: &Joins, a: Dart, b: Dart) -> bool
    ensures { IsTrue result ↔ (joined_to joins.now a ≡ Some b) }
{
    match joins.joined(a) {
        Some(over) => over == b,
        None => false,
    }
}

/// Closes the corner at the left end of a dart. Answers whether darts were joined.
pub fn close(joins: &mut Joins, d: Dart) -> bool
    requires table { IsTable joins.old }
    requires dart { IsDart joins.old d }
    ensures { HasPassed joins.old joins.new result (λ t. IsClosed t d) }
{
    let valence = joins.tessellation().valence(joins.type_of(d));
    let Some(last) = round(joins, d, valence - 1) else {
        return false;
    };
    let over = left(last);
    if is_joined(joins, over, d) {
        return false;
    }
    joins.join(over, d);
    true
}

/// The next side to the right.
fn right(joins: &Joins, d: Dart) -> Dart
    requires { IsDart joins.now d }
    ensures { IsDart joins.now result }
{
    let side = if d.side > 0 {
        d.side
    } else {
        joins.turn(d.cell)
    };
    Dart {
        cell: d.cell,
        side: side - 1,
    }
}

/// The dart come to by going back round the corner of a dart, so many times or to where a join is
/// missing.
pub fn back(joins: &Joins, d: Dart, times: u8) -> Dart
    requires table { IsTable joins.now }
    requires dart { IsDart joins.now d }
    ensures { IsDart joins.now result }
{
    let mut at = d;
    for time in 0..times {
        match joins.joined(at) {
            Some(over) => at = right(joins, over),
            None => return at,
        }
    }
    at
}

/// Whether a side of a cell is a dart of a live cell.
pub fn is_dart(joins: &Joins, d: Dart) -> bool
    ensures { IsTrue result ↔ IsDart joins.now d }
{
    if joins.alive(d.cell) {
        return d.side < joins.turn(d.cell);
    }
    false
}

/// Closes the corner of a dart of a live cell, from where its joins begin. Answers whether darts
/// were joined.
fn close_whole(joins: &mut Joins, d: Dart) -> bool
    requires { IsTable joins.old }
    ensures { HasPassed joins.old joins.new result IsTable }
{
    if is_dart(joins, d) {
        let valence = joins.tessellation().valence(joins.type_of(d));
        let first = back(joins, d, valence - 1);
        return close(joins, first);
    }
    false
}

/// Closes the corners of a cell, each from where its joins begin. Answers whether darts were
/// joined.
fn close_round(joins: &mut Joins, cell: u32) -> bool
    requires { IsTable joins.old }
    ensures { HasPassed joins.old joins.new result IsTable }
{
    let mut changed = false;
    for side in 0..turn_of(joins, cell) {
        let now = close_whole(joins, Dart { cell, side });
        changed = either(changed, now);
    }
    changed
}

/// Closes the corners of a new cell, as long as there are some that can be closed.
pub(crate) fn close_new(joins: &mut Joins, cell: u32)
    requires { IsTable joins.old }
    ensures table { IsTable joins.new }
    ensures moved { HasClosedOn joins.old joins.new }
{
    while close_round(joins, cell) {}
}

/// The turn of a cell, 0 of a cell that is not live.
pub fn turn_of(joins: &Joins, cell: u32) -> u8
    ensures { result ≡ turn_at joins.now.cells cell }
{
    if joins.alive(cell) {
        joins.turn(cell)
    } else {
        0
    }
}

/// Closes the corner of a side of a cell, if it is a dart of a live cell. Answers whether darts
/// were joined.
fn close_side(joins: &mut Joins, d: Dart) -> bool
    requires { IsTable joins.old }
    ensures { HasPassed joins.old joins.new result (λ t. IsDart t d → IsClosed t d) }
{
    if is_dart(joins, d) {
        return close(joins, d);
    }
    false
}

/// Closes the corners of a cell. Answers whether darts were joined.
fn close_cell(joins: &mut Joins, cell: u32) -> bool
    requires { IsTable joins.old }
    ensures { HasPassed joins.old joins.new result (λ t. (i : ℕ) → IsDart t (cell, i)
        → IsClosed t (cell, i)) }
{
    let mut changed = false;
    for side in 0..turn_of(joins, cell) {
        let now = close_side(joins, Dart { cell, side });
        changed = either(changed, now);
    }
    changed
}

/// Closes the corners of the cells from one on, one after the other. Answers whether darts were
/// joined.
fn close_each(joins: &mut Joins, from: u32) -> bool
    requires { IsTable joins.old }
    ensures { HasPassed joins.old joins.new result (λ t. (c i : ℕ) → from ≤ c → IsDart t (c, i)
        → IsClosed t (c, i)) }
{
    let mut changed = false;
    for cell in from..joins.made() {
        let now = close_cell(joins, cell);
        changed = either(changed, now);
    }
    changed
}

/// Closes all corners, where those of the cells before one are whole.
pub(crate) fn close_corners(joins: &mut Joins, from: u32)
    requires table { IsTable joins.old }
    requires whole { AreWhole joins.old from }
    ensures table { IsTable joins.new }
    ensures moved { HasClosedOn joins.old joins.new }
    ensures closed { AllClosed joins.new }
{
    while close_each(joins, from) {}
}

/// Whether LX so many times, through joined darts only, leads back.
fn comes_back(joins: &Joins, d: Dart, times: u8) -> bool
    requires { d.1 < 64 }
    ensures { IsTrue result ↔ (rounds times joins.now d ≡ Some d) }
{
    match round(joins, d, times) {
        Some(over) => over == d,
        None => false,
    }
}

/// Whether the corner of a dart is whole.
pub fn is_whole(joins: &Joins, d: Dart) -> bool
    requires table { IsTable joins.now }
    requires dart { IsDart joins.now d }
    ensures { IsTrue result → IsWhole joins.now d }
{
    let valence = joins.tessellation().valence(joins.type_of(d));
    comes_back(joins, d, valence)
}

/// Whether all corners of a cell are whole.
fn is_cell_whole(joins: &Joins, cell: u32) -> bool
    requires table { IsTable joins.now }
    ensures { IsTrue result → (i : ℕ) → IsDart joins.now (cell, i) → IsWhole joins.now (cell, i) }
{
    for side in 0..turn_of(joins, cell) {
        if !is_whole(joins, Dart { cell, side }) {
            return false;
        }
    }
    true
}

/// The number of a cell before which the corners of all cells are whole, where they are so before
/// another one.
pub(crate) fn whole_until(joins: &Joins, from: u32) -> u32
    requires table { IsTable joins.now }
    requires whole { AreWhole joins.now from }
    ensures { AreWhole joins.now result }
{
    let mut until = from;
    while until < joins.made() {
        if is_cell_whole(joins, until) {
            until += 1;
        } else {
            return until;
        }
    }
    until
}
