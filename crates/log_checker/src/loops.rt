//! The five loops at a type.
ghost use Rattle.std.specs.Prelude.{◌≡◌, List, replicate, IfOk, IfSome, IfNone};
ghost use Rattle.tile_model.specs.declared.Letter.{Letter};
ghost use Rattle.tile_model.specs.declared.Letter.TheVariants.{L};
ghost use Rattle.tile_model.specs.Tessellations.{IsType};
ghost use Rattle.tile_model.specs.Walks.{times};
ghost use Rattle.tile_model.specs.Relation.{IsLoop};

use std::alloc::{AllocError, Global};
use tile_kinds::{DartType, Tessellation};
use tile_model::Letter;

/// The letters of the loop of a number at a type. None comes where the number is not 1 to 5.
pub(crate) fn loop_at(
    alloc: Global,
    t: &Tessellation,
    at: DartType,
    which: u8,
) -> Result<Option<Vec<Letter>>, AllocError>
    requires { IsType t.now at }
    ensures some { IfOk result (λ found.
        IfSome found (λ letters. IsLoop t.now at which letters.items)) }
    ensures none { IfOk result (λ found.
        IfNone found ((letters : List Letter) → ¬ (IsLoop t.now at which letters))) }
{
    match which {
        1 => Ok(Some(repeated(alloc, 1, &[Letter::X, Letter::X])?)),
        2 => Ok(Some(repeated(alloc, 1, &[Letter::L, Letter::R])?)),
        3 => Ok(Some(repeated(alloc, 1, &[Letter::R, Letter::L])?)),
        4 => Ok(Some(lefts(alloc, t.sides(at))?)),
        5 => Ok(Some(repeated(alloc, t.valence(at), &[Letter::L, Letter::X])?)),
        _ => Ok(None),
    }
}

/// So many letters L.
fn lefts(alloc: Global, count: u8) -> Result<Vec<Letter>, AllocError>
    ensures { IfOk result (λ letters. letters.items ≡ replicate count L) }
{
    let mut letters = Vec::new(alloc);
    letters.resize(count as usize, Letter::L)?;
    Ok(letters)
}

/// A walk, repeated so often.
fn repeated(alloc: Global, count: u8, walk: &[Letter]) -> Result<Vec<Letter>, AllocError>
    ensures { IfOk result (λ letters. letters.items ≡ times count walk.now) }
{
    let mut letters = Vec::new(alloc);
    for turn in 0..count {
        letters.extend_from_slice(walk)?;
    }
    Ok(letters)
}
