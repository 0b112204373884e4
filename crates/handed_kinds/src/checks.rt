// The checks of a list of handed kinds, in the order in which their failures are answered.
ghost use Rattle.std.specs.Prelude.{◌≡◌, ◌<◌, ◌≤◌, length, IsTrue, ◌↔◌, IfSome, IfNone, ℕ};
ghost use Rattle.handed_kinds.specs.Handed.{IsSide, IsHandedType, around, around_times, handed_at};
ghost use Rattle.handed_kinds.specs.HandedValidity.{HasCount, HasSides, HasRepeat, HasPartner, IsInvolution, IsClosed, HasCorner, IsHandedValid};
ghost use Rattle.handed_kinds.specs.HandedFaults.{AllKinds, AllSides, IsHandedFault, IsFirstKind, IsFirstSide, IsSized};
ghost use Rattle.handed_kinds.specs.Checks.{IsReady, Passes};

use crate::kinds::{HandKind, HandType};
use crate::moves::{cross_of, has_side, left_of, partner_of, valence_of, valence_there};
use tile_model::KindFault;

/// A check of each side.
#[derive(Clone, Copy, Debug, PartialEq, Eq)]
pub enum Check {
    Partner,
    Valence,
    Involution,
    Corner,
}

/// The handed type of the same corner, one tile further round it.
#[tactic(auto, using(crate::proofs::Valid::cross_type))]
fn around_of(kinds: &[HandKind], t: HandType) -> HandType
    requires sized { IsSized kinds.now }
    requires partners { AllSides HasPartner kinds.now }
    requires is_type { IsHandedType kinds.now t }
    ensures value { result ≡ around kinds.now t }
    ensures is_type { IsHandedType kinds.now result }
{
    cross_of(kinds, left_of(kinds, t))
}

/// The handed type of the same corner, so many tiles further round it.
fn around_by(kinds: &[HandKind], t: HandType, tiles: u8) -> HandType
    requires sized { IsSized kinds.now }
    requires partners { AllSides HasPartner kinds.now }
    requires is_type { IsHandedType kinds.now t }
    ensures { result ≡ around_times kinds.now tiles t }
{
    let mut at = t;
    for tile in 0..tiles {
        at = around_of(kinds, at);
    }
    at
}

/// Whether the corner of a handed type has one valence and closes.
fn is_closed(kinds: &[HandKind], t: HandType) -> bool
    requires sized { IsSized kinds.now }
    requires partners { AllSides HasPartner kinds.now }
    requires is_type { IsHandedType kinds.now t }
    ensures { IsTrue result ↔ IsClosed kinds.now t }
{
    let tiles = valence_of(kinds, t);
    valence_of(kinds, around_of(kinds, t)) == tiles && around_by(kinds, t, tiles) == t
}

/// Whether the corner of a side closes as it is seen plain, and as it is seen mirrored.
fn has_corner(kinds: &[HandKind], kind: u8, residue: u8) -> bool
    requires sized { IsSized kinds.now }
    requires partners { AllSides HasPartner kinds.now }
    requires is_side { IsSide kinds.now (kind, residue) }
    ensures { IsTrue result ↔ HasCorner kinds.now (kind, residue) }
{
    let plain = HandType {
        kind,
        residue,
        mirrored: false,
    };
    let mirrored = HandType {
        kind,
        residue,
        mirrored: true,
    };
    is_closed(kinds, plain) && is_closed(kinds, mirrored)
}

/// Whether the partner of the partner is the side itself, with the same mark.
fn is_involution(kinds: &[HandKind], kind: u8, residue: u8) -> bool
    requires sized { IsSized kinds.now }
    requires partners { AllSides HasPartner kinds.now }
    requires is_side { IsSide kinds.now (kind, residue) }
    ensures { IsTrue result ↔ IsInvolution kinds.now (kind, residue) }
{
    let (other, at, mark) = partner_of(kinds, kind, residue);
    let back = partner_of(kinds, other, at);
    back == (kind, residue, mark)
}

/// Whether the partner of a side is a side.
fn has_partner(kinds: &[HandKind], kind: u8, residue: u8) -> bool
    requires sized { IsSized kinds.now }
    requires is_side { IsSide kinds.now (kind, residue) }
    ensures { IsTrue result ↔ HasPartner kinds.now (kind, residue) }
{
    let (other, at, _) = partner_of(kinds, kind, residue);
    has_side(kinds, other, at)
}

/// Whether a side passes a check.
fn passes(check: Check, kinds: &[HandKind], kind: u8, residue: u8) -> bool
    requires sized { IsSized kinds.now }
    requires ready { IsReady check kinds.now }
    requires is_side { IsSide kinds.now (kind, residue) }
    ensures { IsTrue result ↔ Passes check kinds.now (kind, residue) }
{
    match check {
        Check::Partner => has_partner(kinds, kind, residue),
        Check::Valence => (3..=64).contains(&valence_there(kinds, kind, residue)),
        Check::Involution => is_involution(kinds, kind, residue),
        Check::Corner => has_corner(kinds, kind, residue),
    }
}

/// The least residue of a kind at which a check fails.
fn failing_residue(check: Check, kinds: &[HandKind], k: u8) -> Option<u8>
    requires sized { IsSized kinds.now }
    requires ready { IsReady check kinds.now }
    requires is_kind { k < length kinds.now }
    ensures none { IfNone result ((s : ℕ) → s < (handed_at kinds.now k).repeat
        → Passes check kinds.now (k, s)) }
    ensures is_side { IfSome result (λ s. IsSide kinds.now (k, s)) }
    ensures fails { IfSome result (λ s. ¬ (Passes check kinds.now (k, s))) }
    ensures lower { IfSome result (λ s. (r : ℕ) → r < s → Passes check kinds.now (k, r)) }
{
    let kind_k = &kinds[k as usize];
    for residue in 0..kind_k.repeat {
        if !passes(check, kinds, k, residue) {
            return Some(residue);
        }
    }
    None
}

/// The least kind and residue at which a check fails.
fn failing_side(check: Check, kinds: &[HandKind]) -> Option<(u8, u8)>
    requires sized { IsSized kinds.now }
    requires ready { IsReady check kinds.now }
    ensures none { IfNone result (AllSides (Passes check) kinds.now) }
    ensures some { IfSome result (IsFirstSide kinds.now (Passes check)) }
{
    for k in 0..kinds.len() {
        let kind = k as u8;
        if let Some(residue) = failing_residue(check, kinds, kind) {
            return Some((kind, residue));
        }
    }
    None
}

/// The first kind whose number of sides is out of range.
fn failing_sides(kinds: &[HandKind]) -> Option<u8>
    requires { HasCount kinds.now }
    ensures none { IfNone result (AllKinds HasSides kinds.now) }
    ensures some { IfSome result (IsFirstKind kinds.now HasSides) }
{
    for k in 0..kinds.len() {
        let kind = &kinds[k];
        if kind.sides < 3 || kind.sides > 64 {
            return Some(k as u8);
        }
    }
    None
}

/// Whether the repeat of a kind is right.
fn has_repeat(kind: &HandKind) -> bool
    ensures { IsTrue result ↔ HasRepeat kind.now }
{
    kind.repeat > 0
        && kind.sides % kind.repeat == 0
        && kind.partner.len() == kind.repeat as usize
        && kind.valence.len() == kind.repeat as usize
}

/// The first kind whose repeat is wrong.
fn failing_repeat(kinds: &[HandKind]) -> Option<u8>
    requires { HasCount kinds.now }
    ensures none { IfNone result (AllKinds HasRepeat kinds.now) }
    ensures some { IfSome result (IsFirstKind kinds.now HasRepeat) }
{
    for k in 0..kinds.len() {
        if !has_repeat(&kinds[k]) {
            return Some(k as u8);
        }
    }
    None
}

/// The fault of a list of handed kinds, where it has one: the checks run in their order, each over
/// all kinds and residues.
pub fn fault(kinds: &[HandKind]) -> Option<KindFault>
    ensures none { IfNone result (IsHandedValid kinds.now) }
    ensures some { IfSome result (IsHandedFault kinds.now) }
{
    if kinds.is_empty() || kinds.len() > 128 {
        return Some(KindFault::Count);
    }
    if let Some(kind) = failing_sides(kinds) {
        return Some(KindFault::Sides { kind, residue: 0 });
    }
    if let Some(kind) = failing_repeat(kinds) {
        return Some(KindFault::Repeat { kind, residue: 0 });
    }
    if let Some((kind, residue)) = failing_side(Check::Partner, kinds) {
        return Some(KindFault::Partner { kind, residue });
    }
    if let Some((kind, residue)) = failing_side(Check::Valence, kinds) {
        return Some(KindFault::Valence { kind, residue });
    }
    if let Some((kind, residue)) = failing_side(Check::Involution, kinds) {
        return Some(KindFault::Involution { kind, residue });
    }
    if let Some((kind, residue)) = failing_side(Check::Corner, kinds) {
        return Some(KindFault::Corner { kind, residue });
    }
    None
}
