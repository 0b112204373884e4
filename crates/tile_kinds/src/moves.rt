// The moves from type to type in a list of kinds whose sides and repeats are right.
ghost use Rattle.std.specs.Prelude.{◌≡◌, IsTrue, ◌↔◌};
ghost use Rattle.tile_model.specs.Tessellations.{IsType, left, right, cross, valence};
ghost use Rattle.tile_model.specs.Faults.{IsSized};

use crate::kinds::{DartType, Kind};

/// Whether a pair is a type.
pub fn has_type(kinds: &[Kind], t: DartType) -> bool
    ensures { IsTrue result ↔ IsType kinds.now t }
{
    match kinds.get(t.kind as usize) {
        Some(kind) => t.residue < kind.repeat,
        None => false,
    }
}

/// The type of the next side to the left.
#[tactic(auto, using(tile_model::proofs::Types::left_is, crate::proofs::Types::repeat_at_most))]
pub fn left_of(kinds: &[Kind], t: DartType) -> DartType
    requires sized { IsSized kinds.now }
    requires is_type { IsType kinds.now t }
    ensures value { result ≡ left kinds.now t }
    ensures is_type { IsType kinds.now result }
{
    let kind = &kinds[t.kind as usize];
    DartType {
        kind: t.kind,
        residue: (t.residue + 1) % kind.repeat,
    }
}

/// The type of the next side to the right.
#[tactic(auto, using(tile_model::proofs::Types::right_is, crate::proofs::Types::repeat_at_most))]
pub fn right_of(kinds: &[Kind], t: DartType) -> DartType
    requires sized { IsSized kinds.now }
    requires is_type { IsType kinds.now t }
    ensures value { result ≡ right kinds.now t }
    ensures is_type { IsType kinds.now result }
{
    let kind = &kinds[t.kind as usize];
    DartType {
        kind: t.kind,
        residue: (t.residue + (kind.repeat - 1)) % kind.repeat,
    }
}

/// The type of the side across.
#[tactic(auto, using(tile_model::proofs::Types::cross_is))]
pub fn cross_of(kinds: &[Kind], t: DartType) -> DartType
    requires sized { IsSized kinds.now }
    requires is_type { IsType kinds.now t }
    ensures { result ≡ cross kinds.now t }
{
    let kind = &kinds[t.kind as usize];
    let (kind, residue) = kind.partner[t.residue as usize];
    DartType { kind, residue }
}

/// The number of tiles round the corner at the left end.
pub fn valence_of(kinds: &[Kind], t: DartType) -> u8
    requires sized { IsSized kinds.now }
    requires is_type { IsType kinds.now t }
    ensures { result ≡ valence kinds.now t }
{
    let kind = &kinds[t.kind as usize];
    kind.valence[t.residue as usize]
}
