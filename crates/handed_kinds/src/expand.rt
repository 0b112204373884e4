// The expansion of a list of handed kinds that is valid.
ghost use Rattle.std.specs.Prelude.{◌≡◌, ◌<◌, ◌≤◌, ◌*◌, ◌+◌, length, IfOk};
ghost use Rattle.tile_model.specs.Tessellations.{IsType};
ghost use Rattle.handed_kinds.specs.Handed.{IsHandedType, handed_at, cross};
ghost use Rattle.handed_kinds.specs.HandedValidity.{IsHandedValid};
ghost use Rattle.handed_kinds.specs.HandedFaults.{IsSized};
ghost use Rattle.handed_kinds.specs.Expansion.{opposite, turned, number, flat, as_seen, seen, expanded};

use crate::kinds::{HandKind, HandType};
use crate::moves::{cross_of, valence_of};
use std::alloc::{AllocError, Global};
use tile_kinds::{DartType, Kind};

/// Minus the residue, modulo the repeat.
fn opposite(repeat: u8, residue: u8) -> u8
    ensures { result ≡ opposite repeat residue }
{
    if residue > 0 && residue < repeat {
        repeat - residue
    } else {
        residue
    }
}

/// The residue by which a hand counts a residue of the file, and back.
fn turned(repeat: u8, mirrored: bool, residue: u8) -> u8
    ensures { result ≡ turned repeat mirrored residue }
{
    if mirrored {
        opposite(repeat, residue)
    } else {
        residue
    }
}

/// The type of the expansion that a handed type is.
pub fn flat_of(kinds: &[HandKind], t: HandType) -> DartType
    requires few { length kinds.now ≤ 128 }
    requires is_type { IsHandedType kinds.now t }
    ensures { result ≡ flat kinds.now t }
{
    let kind = &kinds[t.kind as usize];
    DartType {
        kind: if t.mirrored {
            2 * t.kind + 1
        } else {
            2 * t.kind
        },
        residue: turned(kind.repeat, t.mirrored, t.residue),
    }
}

/// The handed type whose residue in the expansion is `j`.
#[tactic(auto, using(crate::proofs::Residues::turned_below))]
fn as_seen(kinds: &[HandKind], k: u8, mirrored: bool, j: u8) -> HandType
    requires is_kind { k < length kinds.now }
    requires inside { j < (handed_at kinds.now k).repeat }
    ensures value { result ≡ as_seen kinds.now k mirrored j }
    ensures is_type { IsHandedType kinds.now result }
{
    let kind = &kinds[k as usize];
    HandType {
        kind: k,
        residue: turned(kind.repeat, mirrored, j),
        mirrored,
    }
}

/// The partner in the expansion of residue `j` of kind `k` as it is seen with a hand.
#[tactic(auto, using(crate::proofs::Valid::cross_type))]
fn seen_partner(kinds: &[HandKind], k: u8, mirrored: bool, j: u8) -> (u8, u8)
    requires valid { IsHandedValid kinds.now }
    requires is_kind { k < length kinds.now }
    requires inside { j < (handed_at kinds.now k).repeat }
    ensures { result ≡ flat kinds.now (cross kinds.now (as_seen kinds.now k mirrored j)) }
{
    let across = flat_of(kinds, cross_of(kinds, as_seen(kinds, k, mirrored, j)));
    (across.kind, across.residue)
}

/// Kind `k` as it is seen with a hand.
#[tactic(auto, using(crate::proofs::Expanding::one_partner, crate::proofs::Expanding::one_valence, crate::proofs::Expanding::all_partners, crate::proofs::Expanding::all_valences))]
fn seen_kind(alloc: Global, kinds: &[HandKind], k: u8, mirrored: bool) -> Result<Kind, AllocError>
    requires valid { IsHandedValid kinds.now }
    requires is_kind { k < length kinds.now }
    ensures { IfOk result (λ kind. kind ≡ seen kinds.now k mirrored) }
{
    let kind = &kinds[k as usize];
    let mut partner = Vec::with_capacity(alloc, kind.repeat as usize)?;
    let mut valence = Vec::with_capacity(alloc, kind.repeat as usize)?;
    for j in 0..kind.repeat {
        partner.push(seen_partner(kinds, k, mirrored, j))?;
        valence.push(valence_of(kinds, as_seen(kinds, k, mirrored, j)))?;
    }
    Ok(Kind {
        sides: kind.sides,
        repeat: kind.repeat,
        partner,
        valence,
    })
}

/// The kinds of the expansion, in their order.
#[tactic(auto, using(crate::proofs::Expanding::one_kind, crate::proofs::Expanding::all_kinds))]
pub fn expanded_kinds(alloc: Global, kinds: &[HandKind]) -> Result<Vec<Kind>, AllocError>
    requires { IsHandedValid kinds.now }
    ensures { IfOk result (λ all. all.items ≡ expanded kinds.now) }
{
    let mut all = Vec::with_capacity(alloc, 2 * kinds.len())?;
    for n in 0..2 * kinds.len() {
        all.push(seen_kind(alloc, kinds, (n / 2) as u8, n % 2 == 1)?)?;
    }
    Ok(all)
}
