// Kinds of tile, and the types of their sides.
ghost use Rattle.std.specs.Prelude.{◌≡◌, IfOk};

use std::alloc::{AllocError, Global};
use std::marker::Model;

/// A kind of tile. `sides` is the number of its sides. Sides whose numbers are equal modulo
/// `repeat` are alike, so both lists hold one entry for each residue below `repeat`: the kind and
/// the residue of the side across, and the number of tiles round the corner at the left end of the
/// side. Any numbers may stand here; `Tessellation::make` checks them.
#[derive(Debug, Drop)]
pub struct Kind {
    pub sides: u8,
    pub repeat: u8,
    pub partner: Vec<(u8, u8)>,
    pub valence: Vec<u8>,
}

impl Model for Kind {
    ghost use Rattle.tile_model.specs.Tessellations.{TileKind};

    ghost Value = { TileKind };

    ghost view = { λ k. record {
      sides = k.sides;
      repeat = k.repeat;
      partner = k.partner.items;
      valence = k.valence.items;
    } };
}

impl Kind {
    /// A copy of the kind, in memory of its own.
    pub(crate) fn copy(&self, alloc: Global) -> Result<Kind, AllocError>
        ensures { IfOk result (λ kind. kind ≡ self.now) }
    {
        Ok(Kind {
            sides: self.sides,
            repeat: self.repeat,
            partner: Vec::from_slice(alloc, &self.partner)?,
            valence: Vec::from_slice(alloc, &self.valence)?,
        })
    }
}

/// The type of a side: a kind, and a residue below the repeat of that kind.
#[derive(Clone, Copy, Debug, PartialEq, Eq)]
pub struct DartType {
    pub kind: u8,
    pub residue: u8,
}

impl Model for DartType {
    ghost use Rattle.std.specs.Prelude.{ℕ};

    ghost Value = { ℕ × ℕ };

    ghost view = { λ d. (d.kind, d.residue) };

    ghost inverse = { λ d. record { kind = d.0; residue = d.1 } };
}
