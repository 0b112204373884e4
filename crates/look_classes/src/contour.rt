//! Pieces of the contour of the tree. Each dart is met once, backwards along the contour, and so it
//! is known how many steps on the first dart lies that is not joined.
ghost use Rattle.std.specs.Prelude.{◌≡◌, ◌*◌, ◌<◌, ◌⊎◌, length, None, is_some, IfOk, IfSome, IfNone};
ghost use Rattle.coincidence.specs.Darts.{pack, unpack};
ghost use Rattle.coincidence.specs.Tables.{joined_to};
ghost use Rattle.coincidence.specs.Joined.{IsTable};
ghost use Rattle.region_grower.specs.Ways.{IsDart};
ghost use Rattle.look_classes.specs.Places.{is_key};
ghost use Rattle.look_classes.specs.Contours.{AreMet, AllOpenMet, AllMet, AreKeys, StayMet, steps_at, met_before, comes_over};

use crate::tree::{Tree, WIDTH, number, numbered, over};
use coincidence::Dart;
use std::alloc::{AllocError, Global};

/// What is known of a dart: `steps` is one more than the number of steps of the contour from it to
/// a dart, packed, before which all darts are joined; 0 of a dart that was not met.
#[derive(Clone, Copy, Debug)]
pub struct Met {
    pub end: u32,
    pub steps: u32,
}

/// How many numbers of darts there are.
fn darts(tree: &Tree<'_, '_>) -> u32
    ensures value { result ≡ 64 * length tree.now.table.origins }
    ensures table { IsTable tree.now.table }
{
    WIDTH * tree.region().joins().made()
}

/// The dart of a number, if it is one of a live cell.
pub(crate) fn dart_at(tree: &Tree<'_, '_>, number: u32) -> Option<Dart>
    ensures some { IfSome result (λ d. (d ≡ unpack number) × IsDart tree.now.table d) }
    ensures none { IfNone result (IsDart tree.now.table (unpack number) → ⊥) }
{
    let d = numbered(number);
    let joins = tree.region().joins();
    if joins.alive(d.cell) && d.side < joins.turn(d.cell) {
        Some(d)
    } else {
        None
    }
}

/// Whether a dart of a live cell is joined.
fn is_joined(tree: &Tree<'_, '_>, d: Dart) -> bool
    ensures { result ≡ is_some (joined_to tree.now.table d) }
{
    over(tree.region(), d).is_some()
}

/// What is known of a dart of a live cell, where `last` is known of the one that follows it on the
/// contour.
fn meeting(tree: &Tree<'_, '_>, d: Dart, last: Met) -> Met
    requires dart { IsDart tree.now.table d }
    requires few { last.steps < 64000000 }
    ensures { result ≡ met_before tree.now d last }
{
    if is_joined(tree, d) {
        Met {
            end: last.end,
            steps: last.steps + 1,
        }
    } else {
        Met {
            end: number(tree.region(), d),
            steps: 1,
        }
    }
}

/// Meets the darts that lie before one on the contour, itself first, as far as they were not met.
fn walk(tree: &Tree<'_, '_>, met: &mut [Met], start: Dart)
    requires dart { IsDart tree.now.table start }
    requires met { AreMet tree.now met.old }
    requires new { steps_at met.old start ≡ 0 }
    requires start { (joined_to tree.now.table start ≡ None) ⊎ AllOpenMet tree.now met.old }
    ensures met { AreMet tree.now met.new }
    ensures stay { StayMet met.old met.new }
    ensures start { 0 < steps_at met.new start }
{
    let mut at = start;
    let mut last = Met {
        end: number(tree.region(), start),
        steps: 0,
    };
    while met[number(tree.region(), at) as usize].steps == 0 {
        last = meeting(tree, at, last);
        met[number(tree.region(), at) as usize] = last;
        at = tree.before(at);
    }
}

/// Meets the piece before a dart of a number, if it is one that is not joined.
fn meet_if_open(tree: &Tree<'_, '_>, met: &mut [Met], number: u32)
    requires met { AreMet tree.now met.old }
    requires number { number < 64 * length tree.now.table.origins }
    ensures met { AreMet tree.now met.new }
    ensures stay { StayMet met.old met.new }
    ensures meets { IsDart tree.now.table (unpack number)
        → joined_to tree.now.table (unpack number) ≡ None → 0 < steps_at met.new (unpack number) }
{
    if let Some(d) = dart_at(tree, number) {
        if !is_joined(tree, d) && met[number as usize].steps == 0 {
            walk(tree, met, d);
        }
    }
}

/// Meets the contour of a dart of a number, if it is one that was not met; all that are not joined
/// were met.
fn meet_if_new(tree: &Tree<'_, '_>, met: &mut [Met], number: u32)
    requires met { AreMet tree.now met.old }
    requires opened { AllOpenMet tree.now met.old }
    requires number { number < 64 * length tree.now.table.origins }
    ensures met { AreMet tree.now met.new }
    ensures stay { StayMet met.old met.new }
    ensures meets { IsDart tree.now.table (unpack number) → 0 < steps_at met.new (unpack number) }
{
    if let Some(d) = dart_at(tree, number) {
        if met[number as usize].steps == 0 {
            walk(tree, met, d);
        }
    }
}

/// Meets the pieces before all darts that are not joined, and then the closed contours, of which
/// all darts are joined.
fn meet(tree: &Tree<'_, '_>, met: &mut [Met])
    requires { AreMet tree.now met.old }
    ensures met { AreMet tree.now met.new }
    ensures all { AllMet tree.now met.new }
{
    for number in 0..darts(tree) {
        meet_if_open(tree, met, number);
    }
    for number in 0..darts(tree) {
        meet_if_new(tree, met, number);
    }
}

/// Whether the contour of a dart comes to another one before it comes to a dart that is not joined.
/// Both are joined.
fn comes_to(tree: &Tree<'_, '_>, met: &[Met], d: Dart, over: Dart) -> bool
    requires dart { IsDart tree.now.table d }
    requires over_dart { IsDart tree.now.table over }
    requires long { length met.now ≡ 64 * length tree.now.table.origins }
    ensures { result ≡ comes_over tree.now met.now d over }
{
    let near = met[number(tree.region(), d) as usize];
    let far = met[number(tree.region(), over) as usize];
    near.end == far.end && (far.steps < near.steps || is_joined(tree, numbered(near.end)))
}

/// Whether a dart of a live cell is at place 0.
fn is_key(tree: &Tree<'_, '_>, met: &[Met], d: Dart) -> bool
    requires dart { IsDart tree.now.table d }
    requires met { AreMet tree.now met.now }
    requires all { AllMet tree.now met.now }
    ensures { result ≡ is_key tree.now d }
{
    match over(tree.region(), d) {
        Some(over) => !tree.holds(d) && comes_to(tree, met, d, over),
        None => false,
    }
}

/// What is known of each dart, from walks along all pieces of the contour.
fn meet_all(alloc: Global, tree: &Tree<'_, '_>) -> Result<Vec<Met>, AllocError>
    ensures met { IfOk result (λ met. AreMet tree.now met.items) }
    ensures all { IfOk result (λ met. AllMet tree.now met.items) }
{
    let mut met = Vec::with_capacity(alloc, darts(tree) as usize)?;
    for dart in 0..darts(tree) {
        met.push(Met { end: 0, steps: 0 })?;
    }
    meet(tree, &mut met);
    Ok(met)
}

/// Whether a number is that of a dart of a live cell at place 0.
fn is_key_number(tree: &Tree<'_, '_>, met: &[Met], number: u32) -> bool
    requires met { AreMet tree.now met.now }
    requires all { AllMet tree.now met.now }
    ensures { IsDart tree.now.table (unpack number) → result ≡ is_key tree.now (unpack number) }
{
    match dart_at(tree, number) {
        Some(d) => is_key(tree, met, d),
        None => false,
    }
}

/// Whether each dart is at place 0, by its number.
pub(crate) fn keys(alloc: Global, tree: &Tree<'_, '_>) -> Result<Vec<bool>, AllocError>
    ensures { IfOk result (λ keys. AreKeys tree.now keys.items) }
{
    let met = meet_all(alloc, tree)?;
    let mut keys = Vec::with_capacity(alloc, met.len())?;
    for number in 0..darts(tree) {
        keys.push(is_key_number(tree, &met, number))?;
    }
    Ok(keys)
}
