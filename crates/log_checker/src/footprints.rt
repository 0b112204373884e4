//! Letters of walks, each with the type at which it stands.
ghost use Rattle.std.specs.Prelude.{◌≡◌, IfOk};
ghost use Rattle.tile_model.specs.Tessellations.{IsType};
ghost use Rattle.tile_model.specs.Walks.{step};
ghost use Rattle.log_checker.specs.Footprints.{typed};

use std::alloc::{AllocError, Global};
use std::marker::Model;
use tile_kinds::{DartType, Tessellation};
use tile_model::Letter;

/// A letter of a walk, and the type at which it stands.
#[derive(Clone, Copy, Debug, PartialEq, Eq)]
pub(crate) struct Footprint {
    pub(crate) letter: Letter,
    pub(crate) at: DartType,
}

impl Model for Footprint {
    ghost use Rattle.std.specs.Prelude.{ℕ};
    ghost use Rattle.tile_model.specs.declared.Letter.{Letter};

    ghost Value = { Letter × (ℕ × ℕ) };

    ghost view = { λ m. (m.letter, m.at) };

    ghost inverse = { λ m. record { letter = m.0; at = m.1 } };
}

/// The type behind a letter that stands at a type.
pub(crate) fn after(t: &Tessellation, at: DartType, letter: Letter) -> DartType
    requires { IsType t.now at }
    ensures value { result ≡ step t.now at letter }
    ensures is_type { IsType t.now result }
{
    match letter {
        Letter::L => t.left(at),
        Letter::R => t.right(at),
        Letter::X => t.cross(at),
    }
}

/// The letters of a walk from a type, each with the type at which it stands.
pub(crate) fn with_types(
    alloc: Global,
    t: &Tessellation,
    from: DartType,
    letters: &[Letter],
) -> Result<Vec<Footprint>, AllocError>
    requires { IsType t.now from }
    ensures { IfOk result (λ footprints. footprints.items ≡ typed t.now from letters.now) }
{
    let mut footprints = Vec::with_capacity(alloc, letters.len())?;
    let mut at = from;
    for x in letters {
        footprints.push(Footprint { letter: *x, at })?;
        at = after(t, at, *x);
    }
    Ok(footprints)
}
