//! Rows: for each number a list of states.
ghost use Rattle.std.specs.Prelude.{◌≡◌, ◌≢◌, ◌++◌, ◌∷◌, [], ◌<◌, ◌≤◌, ℕ, length, Contains, IfOk, OnOk};
ghost use Rattle.rules_tools.specs.Rows.{row};

use std::alloc::{AllocError, Global};

/// So many empty rows.
pub(crate) fn empty_rows(alloc: Global, count: usize) -> Result<Vec<Vec<u32>>, AllocError>
    ensures long { IfOk result (λ v. length v.items ≡ count) }
    ensures empty { IfOk result (λ v. (k : ℕ) → row v.items k ≡ []) }
{
    let mut rows = Vec::with_capacity(alloc, count)?;
    for _row in 0..count {
        rows.push(Vec::new(alloc))?;
    }
    Ok(rows)
}

/// Puts a state at the end of a row.
pub(crate) fn push_to(rows: &mut Vec<Vec<u32>>, k: usize, x: u32) -> Result<(), AllocError>
    requires { k < length rows.old.items }
    ensures long { length rows.new.items ≡ length rows.old.items }
    ensures row { OnOk result (row rows.new.items k ≡ row rows.old.items k ++ x ∷ []) }
    ensures others { (m : ℕ) → m ≢ k → row rows.new.items m ≡ row rows.old.items m }
{
    rows[k].push(x)?;
    Ok(())
}

/// Makes rows up to a number.
fn reach(alloc: Global, rows: &mut Vec<Vec<u32>>, k: usize) -> Result<(), AllocError>
    ensures long { OnOk result (k < length rows.new.items) }
    ensures rows { (m : ℕ) → row rows.new.items m ≡ row rows.old.items m }
{
    while rows.len() <= k {
        rows.push(Vec::new(alloc))?;
    }
    Ok(())
}

/// Puts a state into the row of a number.
pub(crate) fn add_to(
    alloc: Global,
    rows: &mut Vec<Vec<u32>>,
    k: u32,
    x: u32,
) -> Result<(), AllocError>
    ensures added { OnOk result (Contains (row rows.new.items k) x) }
    ensures kept { OnOk result ((m y : ℕ) → Contains (row rows.old.items m) y
        → Contains (row rows.new.items m) y) }
{
    reach(alloc, rows, k as usize)?;
    push_to(rows, k as usize, x)?;
    Ok(())
}

/// Empties all rows.
pub(crate) fn clear(rows: &mut Vec<Vec<u32>>)
    ensures long { length rows.new.items ≡ length rows.old.items }
    ensures empty { (k : ℕ) → row rows.new.items k ≡ [] }
{
    for k in 0..rows.len() {
        rows[k].clear();
    }
}
