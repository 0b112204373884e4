//! Numbers without options.
ghost use Rattle.std.specs.Prelude.{◌≡◌, IfOk, map, replicate};
ghost use Rattle.merge_model.specs.Merging.{number};

use std::alloc::{AllocError, Global};

/// The number itself, 0 for None.
fn number(entry: Option<u32>) -> u32
    ensures { result ≡ number entry }
{
    match entry {
        Some(number) => number,
        None => 0,
    }
}

/// The numbers themselves, 0 for None.
pub(crate) fn plain(alloc: Global, entries: &[Option<u32>]) -> Result<Vec<u32>, AllocError>
    ensures { IfOk result (λ v. v.items ≡ map number entries.now) }
{
    let mut numbers = Vec::with_capacity(alloc, entries.len())?;
    for entry in entries {
        numbers.push(number(*entry))?;
    }
    Ok(numbers)
}

/// The number 0, so many times.
pub(crate) fn zeros(alloc: Global, count: usize) -> Result<Vec<u32>, AllocError>
    ensures { IfOk result (λ v. v.items ≡ replicate count 0) }
{
    vec![in alloc; 0; count]
}
