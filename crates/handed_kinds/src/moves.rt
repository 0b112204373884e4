// The moves from handed type to handed type in a list of kinds whose sides and repeats are right.
ghost use Rattle.std.specs.Prelude.{◌≡◌, ◌<◌, ◌≤◌, IsTrue, ◌↔◌};
ghost use Rattle.handed_kinds.specs.Handed.{IsSide, IsHandedType, left, right, cross, valence, partner_at, valence_at, next_residue, last_residue, hand_across};
ghost use Rattle.handed_kinds.specs.HandedFaults.{IsSized};

use crate::kinds::{HandKind, HandType};

/// Whether there is a side of such a kind and residue.
pub fn has_side(kinds: &[HandKind], kind: u8, residue: u8) -> bool
    ensures { IsTrue result ↔ IsSide kinds.now (kind, residue) }
{
    match kinds.get(kind as usize) {
        Some(kind) => residue < kind.repeat,
        None => false,
    }
}

/// The residue of the next side.
fn next_residue(repeat: u8, residue: u8) -> u8
    requires few { repeat ≤ 64 }
    requires inside { residue < repeat }
    ensures { result ≡ next_residue repeat residue }
{
    (residue + 1) % repeat
}

/// The residue of the side before.
fn last_residue(repeat: u8, residue: u8) -> u8
    requires few { repeat ≤ 64 }
    requires inside { residue < repeat }
    ensures { result ≡ last_residue repeat residue }
{
    (residue + (repeat - 1)) % repeat
}

/// The hand that is seen across a join with this mark.
fn hand_across(mark: bool, hand: bool) -> bool
    ensures { result ≡ hand_across mark hand }
{
    if mark { !hand } else { hand }
}

/// The handed type of the next side to the left.
#[tactic(auto, using(crate::proofs::Flat::handed_left_is, crate::proofs::Flat::left_type, crate::proofs::Sized::repeat_at_most))]
pub fn left_of(kinds: &[HandKind], t: HandType) -> HandType
    requires sized { IsSized kinds.now }
    requires is_type { IsHandedType kinds.now t }
    ensures value { result ≡ left kinds.now t }
    ensures is_type { IsHandedType kinds.now result }
{
    let kind = &kinds[t.kind as usize];
    HandType {
        kind: t.kind,
        residue: if t.mirrored {
            last_residue(kind.repeat, t.residue)
        } else {
            next_residue(kind.repeat, t.residue)
        },
        mirrored: t.mirrored,
    }
}

/// The handed type of the next side to the right.
#[tactic(auto, using(crate::proofs::Flat::handed_right_is, crate::proofs::Flat::right_type, crate::proofs::Sized::repeat_at_most))]
pub fn right_of(kinds: &[HandKind], t: HandType) -> HandType
    requires sized { IsSized kinds.now }
    requires is_type { IsHandedType kinds.now t }
    ensures value { result ≡ right kinds.now t }
    ensures is_type { IsHandedType kinds.now result }
{
    let kind = &kinds[t.kind as usize];
    HandType {
        kind: t.kind,
        residue: if t.mirrored {
            next_residue(kind.repeat, t.residue)
        } else {
            last_residue(kind.repeat, t.residue)
        },
        mirrored: t.mirrored,
    }
}

/// The kind, the residue and the mark that stand for the partner of a side.
pub fn partner_of(kinds: &[HandKind], kind: u8, residue: u8) -> (u8, u8, bool)
    requires sized { IsSized kinds.now }
    requires is_side { IsSide kinds.now (kind, residue) }
    ensures { result ≡ partner_at kinds.now (kind, residue) }
{
    let kind = &kinds[kind as usize];
    kind.partner[residue as usize]
}

/// The valence that stands for the corner at the left end of a side.
pub fn valence_there(kinds: &[HandKind], kind: u8, residue: u8) -> u8
    requires sized { IsSized kinds.now }
    requires is_side { IsSide kinds.now (kind, residue) }
    ensures { result ≡ valence_at kinds.now (kind, residue) }
{
    let kind = &kinds[kind as usize];
    kind.valence[residue as usize]
}

/// The handed type of the side across.
#[tactic(auto, using(crate::proofs::Flat::handed_cross_is))]
pub fn cross_of(kinds: &[HandKind], t: HandType) -> HandType
    requires sized { IsSized kinds.now }
    requires is_type { IsHandedType kinds.now t }
    ensures { result ≡ cross kinds.now t }
{
    let (kind, residue, mark) = partner_of(kinds, t.kind, t.residue);
    HandType {
        kind,
        residue,
        mirrored: hand_across(mark, t.mirrored),
    }
}

/// The number of tiles round the corner at the left end.
#[tactic(auto, using(crate::proofs::Residues::last_below, crate::proofs::Sized::repeat_at_most))]
pub fn valence_of(kinds: &[HandKind], t: HandType) -> u8
    requires sized { IsSized kinds.now }
    requires is_type { IsHandedType kinds.now t }
    ensures { result ≡ valence kinds.now t }
{
    if !t.mirrored {
        return valence_there(kinds, t.kind, t.residue);
    }
    let kind = &kinds[t.kind as usize];
    valence_there(kinds, t.kind, last_residue(kind.repeat, t.residue))
}
