// The checks of a list of kinds, in the order in which their failures are answered.
ghost use Rattle.std.specs.Prelude.{◌≡◌, ◌<◌, ◌≤◌, length, IsTrue, ◌↔◌, IfSome, IfNone, ℕ};
ghost use Rattle.tile_model.specs.Tessellations.{IsType, around, around_times, kind_at};
ghost use Rattle.tile_model.specs.Validity.{HasCount, HasSides, HasRepeat, HasPartner, HasCorner, IsValid};
ghost use Rattle.tile_model.specs.Faults.{AllKinds, AllTypes, IsFault, IsFirstKind, IsFirstType, IsSized};
ghost use Rattle.tile_kinds.specs.Checks.{IsReady, Passes};

use crate::kinds::{DartType, Kind};
use crate::moves::{cross_of, has_type, left_of, valence_of};
use tile_model::KindFault;

/// A check of each type.
#[derive(Clone, Copy, Debug, PartialEq, Eq)]
pub enum Check {
    Partner,
    Valence,
    Involution,
    Corner,
}

/// The type of the same corner, one tile further round it.
fn around_of(kinds: &[Kind], t: DartType) -> DartType
    requires sized { IsSized kinds.now }
    requires partners { AllTypes HasPartner kinds.now }
    requires is_type { IsType kinds.now t }
    ensures value { result ≡ around kinds.now t }
    ensures is_type { IsType kinds.now result }
{
    cross_of(kinds, left_of(kinds, t))
}

/// The type of the same corner, so many tiles further round it.
fn around_by(kinds: &[Kind], t: DartType, tiles: u8) -> DartType
    requires sized { IsSized kinds.now }
    requires partners { AllTypes HasPartner kinds.now }
    requires is_type { IsType kinds.now t }
    ensures { result ≡ around_times kinds.now tiles t }
{
    let mut at = t;
    for tile in 0..tiles {
        at = around_of(kinds, at);
    }
    at
}

/// Whether the corner of a type has one valence and closes.
fn has_corner(kinds: &[Kind], t: DartType) -> bool
    requires sized { IsSized kinds.now }
    requires partners { AllTypes HasPartner kinds.now }
    requires is_type { IsType kinds.now t }
    ensures { IsTrue result ↔ HasCorner kinds.now t }
{
    let tiles = valence_of(kinds, t);
    valence_of(kinds, around_of(kinds, t)) == tiles && around_by(kinds, t, tiles) == t
}

/// Whether a type passes a check.
fn passes(check: Check, kinds: &[Kind], t: DartType) -> bool
    requires sized { IsSized kinds.now }
    requires ready { IsReady check kinds.now }
    requires is_type { IsType kinds.now t }
    ensures { IsTrue result ↔ Passes check kinds.now t }
{
    match check {
        Check::Partner => has_type(kinds, cross_of(kinds, t)),
        Check::Valence => (3..=64).contains(&valence_of(kinds, t)),
        Check::Involution => cross_of(kinds, cross_of(kinds, t)) == t,
        Check::Corner => has_corner(kinds, t),
    }
}

/// The least residue of a kind at which a check fails.
fn failing_residue(check: Check, kinds: &[Kind], k: u8) -> Option<u8>
    requires sized { IsSized kinds.now }
    requires ready { IsReady check kinds.now }
    requires is_kind { k < length kinds.now }
    ensures none { IfNone result ((s : ℕ) → s < (kind_at kinds.now k).repeat
        → Passes check kinds.now (k, s)) }
    ensures is_type { IfSome result (λ s. IsType kinds.now (k, s)) }
    ensures fails { IfSome result (λ s. ¬ (Passes check kinds.now (k, s))) }
    ensures lower { IfSome result (λ s. (r : ℕ) → r < s → Passes check kinds.now (k, r)) }
{
    let kind_k = &kinds[k as usize];
    for residue in 0..kind_k.repeat {
        if !passes(check, kinds, DartType { kind: k, residue }) {
            return Some(residue);
        }
    }
    None
}

/// The least type at which a check fails.
fn failing_type(check: Check, kinds: &[Kind]) -> Option<DartType>
    requires sized { IsSized kinds.now }
    requires ready { IsReady check kinds.now }
    ensures none { IfNone result (AllTypes (Passes check) kinds.now) }
    ensures some { IfSome result (IsFirstType kinds.now (Passes check)) }
{
    for k in 0..kinds.len() {
        let kind = k as u8;
        if let Some(residue) = failing_residue(check, kinds, kind) {
            return Some(DartType { kind, residue });
        }
    }
    None
}

/// The first kind whose number of sides is out of range.
fn failing_sides(kinds: &[Kind]) -> Option<u8>
    requires { HasCount kinds.now }
    ensures none { IfNone result (AllKinds HasSides kinds.now) }
    ensures some { IfSome result (IsFirstKind kinds.now HasSides) }
{
    for k in 0..kinds.len() {
        let kind = &kinds[k];
        if kind.sides < 3 || kind.sides > 64 {
            return Some(k as u8);
        }
    }
    None
}

/// Whether the repeat of a kind is right.
fn has_repeat(kind: &Kind) -> bool
    ensures { IsTrue result ↔ HasRepeat kind.now }
{
    kind.repeat > 0
        && kind.sides % kind.repeat == 0
        && kind.partner.len() == kind.repeat as usize
        && kind.valence.len() == kind.repeat as usize
}

/// The first kind whose repeat is wrong.
fn failing_repeat(kinds: &[Kind]) -> Option<u8>
    requires { HasCount kinds.now }
    ensures none { IfNone result (AllKinds HasRepeat kinds.now) }
    ensures some { IfSome result (IsFirstKind kinds.now HasRepeat) }
{
    for k in 0..kinds.len() {
        if !has_repeat(&kinds[k]) {
            return Some(k as u8);
        }
    }
    None
}

/// The fault of a list of kinds, where it has one: the checks run in their order, each over all
/// kinds and residues.
pub fn fault(kinds: &[Kind]) -> Option<KindFault>
    ensures none { IfNone result (IsValid kinds.now) }
    ensures some { IfSome result (IsFault kinds.now) }
{
    if kinds.is_empty() || kinds.len() > 256 {
        return Some(KindFault::Count);
    }
    if let Some(kind) = failing_sides(kinds) {
        return Some(KindFault::Sides { kind, residue: 0 });
    }
    if let Some(kind) = failing_repeat(kinds) {
        return Some(KindFault::Repeat { kind, residue: 0 });
    }
    if let Some(DartType { kind, residue }) = failing_type(Check::Partner, kinds) {
        return Some(KindFault::Partner { kind, residue });
    }
    if let Some(DartType { kind, residue }) = failing_type(Check::Valence, kinds) {
        return Some(KindFault::Valence { kind, residue });
    }
    if let Some(DartType { kind, residue }) = failing_type(Check::Involution, kinds) {
        return Some(KindFault::Involution { kind, residue });
    }
    if let Some(DartType { kind, residue }) = failing_type(Check::Corner, kinds) {
        return Some(KindFault::Corner { kind, residue });
    }
    None
}
