// The distances of the cells from the first one.
ghost use Rattle.std.specs.Prelude.{◌≡◌, ℕ, ◌+◌, ◌<◌, ◌≤◌, length, slice_index, Some, true, false};
ghost use Rattle.coincidence.specs.Cells.{IsLive};
ghost use Rattle.coincidence.specs.Tables.{joined_to};
ghost use Rattle.coincidence.specs.Joined.{IsTable};
ghost use Rattle.region_grower.specs.Regions.{AreNear, AreRadii, IsRelaxed, IsRelaxedAt};
ghost use Rattle.region_grower.specs.Passes.{HasLowered};

use crate::corners::{either, turn_of};
use coincidence::{Dart, Joins};

/// The radius of a cell that was not reached yet.
pub(crate) const FAR: u32 = 1_000_000;

/// Lowers the radius of the cell across a dart. Answers whether it fell.
fn relax_dart(joins: &Joins, radii: &mut [u32], d: Dart) -> bool
    requires table { IsTable joins.now }
    requires long { length joins.now.origins ≤ length radii.old }
    requires live { IsLive joins.now.cells d.0 }
    ensures { HasLowered joins.now radii.old radii.new result (λ rs. IsRelaxedAt joins.now rs d) }
{
    let radius = radii[d.cell as usize];
    if radius < FAR {
        if let Some(over) = joins.joined(d) {
            if radii[over.cell as usize] > radius + 1 {
                radii[over.cell as usize] = radius + 1;
                return true;
            }
        }
    }
    false
}

/// Lowers the radii of the cells next to a live cell. Answers whether one fell.
fn relax_cell(joins: &Joins, radii: &mut [u32], cell: u32) -> bool
    requires table { IsTable joins.now }
    requires long { length joins.now.origins ≤ length radii.old }
    requires live { IsLive joins.now.cells cell }
    ensures { HasLowered joins.now radii.old radii.new result (λ rs. IsRelaxed joins.now rs cell) }
{
    let mut changed = false;
    for side in 0..joins.turn(cell) {
        let now = relax_dart(joins, radii, Dart { cell, side });
        changed = either(changed, now);
    }
    changed
}

/// Lowers the radii next to a cell, if it is live. Answers whether one fell.
fn relax_live(joins: &Joins, radii: &mut [u32], cell: u32) -> bool
    requires table { IsTable joins.now }
    requires long { length joins.now.origins ≤ length radii.old }
    ensures { HasLowered joins.now radii.old radii.new result (λ rs. IsLive joins.now.cells cell
        → IsRelaxed joins.now rs cell) }
{
    if joins.alive(cell) {
        return relax_cell(joins, radii, cell);
    }
    false
}

/// Lowers the radii next to each live cell. Answers whether one fell.
fn relax_each(joins: &Joins, radii: &mut [u32]) -> bool
    requires table { IsTable joins.now }
    requires long { length joins.now.origins ≤ length radii.old }
    ensures { HasLowered joins.now radii.old radii.new result (λ rs. (c : ℕ)
        → IsLive joins.now.cells c → IsRelaxed joins.now rs c) }
{
    let mut changed = false;
    for cell in 0..joins.made() {
        let now = relax_live(joins, radii, cell);
        changed = either(changed, now);
    }
    changed
}

/// Makes all radii but the first one far.
fn forget(radii: &mut [u32])
    requires { 0 < length radii.old }
    ensures first { slice_index radii.new 0 ≡ 0 }
    ensures others { (c : ℕ) → 0 < c → c < length radii.new → slice_index radii.new c ≡ 1000000 }
{
    for radius in radii.iter_mut() {
        *radius = FAR;
    }
    radii[0] = 0;
}

/// Measures the distances anew.
fn measure(joins: &Joins, radii: &mut [u32])
    requires table { IsTable joins.now }
    requires long { length joins.now.origins ≤ length radii.old }
    ensures { AreRadii joins.now radii.new }
{
    forget(radii);
    while relax_each(joins, radii) {}
}

/// Whether the radius across a dart is over one more.
fn is_over(joins: &Joins, radii: &[u32], d: Dart) -> bool
    requires table { IsTable joins.now }
    requires long { length joins.now.origins ≤ length radii.now }
    requires live { IsLive joins.now.cells d.0 }
    ensures { result ≡ false → IsRelaxedAt joins.now radii.now d }
{
    let radius = radii[d.cell as usize];
    if radius < FAR {
        if let Some(over) = joins.joined(d) {
            return radii[over.cell as usize] > radius + 1;
        }
    }
    false
}

/// Whether the radius across a dart of a cell is over one more.
fn has_over(joins: &Joins, radii: &[u32], cell: u32) -> bool
    requires table { IsTable joins.now }
    requires long { length joins.now.origins ≤ length radii.now }
    ensures { result ≡ false → IsLive joins.now.cells cell → IsRelaxed joins.now radii.now cell }
{
    for side in 0..turn_of(joins, cell) {
        if is_over(joins, radii, Dart { cell, side }) {
            return true;
        }
    }
    false
}

/// Whether no radius is over one more than that across a dart, which is known of the cells before
/// one. So radii are exact of which each is the number of some crossings that lead to its cell, or
/// more.
fn is_measured(joins: &Joins, radii: &[u32], level: u32) -> bool
    requires table { IsTable joins.now }
    requires long { length joins.now.origins ≤ length radii.now }
    requires first { slice_index radii.now 0 ≡ 0 }
    requires near { AreNear joins.now radii.now }
    requires level { (c : ℕ) → c < level → IsLive joins.now.cells c
        → IsRelaxed joins.now radii.now c }
    ensures { result ≡ true → AreRadii joins.now radii.now }
{
    for cell in level..joins.made() {
        if has_over(joins, radii, cell) {
            return false;
        }
    }
    true
}

/// Makes radii exact of which each is the number of some crossings that lead to its cell, or more.
/// They are measured anew only where some are not exact, which is looked for from one cell on.
pub(crate) fn correct(joins: &Joins, radii: &mut [u32], level: u32)
    requires table { IsTable joins.now }
    requires long { length joins.now.origins ≤ length radii.old }
    requires first { slice_index radii.old 0 ≡ 0 }
    requires near { AreNear joins.now radii.old }
    requires level { (c : ℕ) → c < level → IsLive joins.now.cells c
        → IsRelaxed joins.now radii.old c }
    ensures { AreRadii joins.now radii.new }
{
    if is_measured(joins, radii, level) {
        return;
    }
    measure(joins, radii);
}
