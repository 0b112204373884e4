// Handed kinds of tile, and the types of their sides.
use std::marker::Model;

/// A kind of tile whose joins may be mirrored. `sides` is the number of its sides. Sides whose
/// numbers are equal modulo `repeat` are alike, so both lists hold one entry for each residue below
/// `repeat`: the kind and the residue of the side across, with a mark that is true where the tile
/// across is seen with the other hand, and the number of tiles round the corner at the left end of
/// the side. Any numbers may stand here; `Handed::make` checks them.
#[derive(Debug, Drop)]
pub struct HandKind {
    pub sides: u8,
    pub repeat: u8,
    pub partner: Vec<(u8, u8, bool)>,
    pub valence: Vec<u8>,
}

impl Model for HandKind {
    ghost use Rattle.handed_kinds.specs.Handed.{HandedKind};

    ghost Value = { HandedKind };

    ghost view = { λ k. record {
      sides = k.sides;
      repeat = k.repeat;
      partner = k.partner.items;
      valence = k.valence.items;
    } };
}

/// The type of a side as it is seen with a hand: a kind, a residue below the repeat of that kind,
/// and whether the tile is seen mirrored.
#[derive(Clone, Copy, Debug, PartialEq, Eq)]
pub struct HandType {
    pub kind: u8,
    pub residue: u8,
    pub mirrored: bool,
}

impl Model for HandType {
    ghost use Rattle.std.specs.Prelude.{ℕ, Bool};

    ghost Value = { ℕ × ℕ × Bool };

    ghost view = { λ t. (t.kind, t.residue, t.mirrored) };

    ghost inverse = { λ t. record { kind = t.0; residue = t.1; mirrored = t.2 } };
}
