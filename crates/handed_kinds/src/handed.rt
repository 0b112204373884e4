// Valid tessellations of handed kinds.
ghost use Rattle.std.specs.Prelude.{◌≡◌, ◌<◌, ◌≤◌, length, IsTrue, IsOk, IfOk, IfErr, ◌↔◌};
ghost use Rattle.tile_model.specs.Tessellations.{IsType};
ghost use Rattle.tile_model.specs.Validity.{IsValid};
ghost use Rattle.handed_kinds.specs.Handed.{IsHandedType, left, right, cross, valence};
ghost use Rattle.handed_kinds.specs.HandedValidity.{IsHandedValid};
ghost use Rattle.handed_kinds.specs.Expansion.{flat, expanded};

use crate::checks::fault;
use crate::expand::{expanded_kinds, flat_of};
use crate::kinds::{HandKind, HandType};
use crate::moves::{cross_of, has_side, left_of, right_of, valence_of};
use std::alloc::{AllocError, Global};
use std::marker::Model;
use tile_kinds::{DartType, Tessellation};
use tile_model::KindFault;

/// A tessellation whose joins may be mirrored: a list of kinds that has passed all checks.
#[derive(Debug, Drop)]
pub struct Handed {
    kinds: Vec<HandKind>,
}

impl Model for Handed {
    ghost use Rattle.std.specs.Prelude.{List};
    ghost use Rattle.handed_kinds.specs.Handed.{HandedKind};
    ghost use Rattle.handed_kinds.specs.HandedValidity.{IsHandedValid};

    ghost Value = { List HandedKind };

    ghost view = { λ h. h.kinds.items };

    ghost invariant = { λ h. IsHandedValid h.kinds.items };
}

impl Handed {
    ghost use Rattle.tile_model.specs.declared.fault.KindFault.{KindFault};
    ghost use Rattle.handed_kinds.specs.HandedFaults.{IsHandedFault};

    /// Makes a tessellation of 1 to 128 kinds. A list that is not valid is handed back as it was,
    /// with its first fault in the order of `KindFault`, at its least kind and residue. Takes no
    /// memory.
    pub fn make(kinds: Vec<HandKind>) -> Result<Handed, (Vec<HandKind>, KindFault)>
        ensures exactly { IsOk result ↔ IsHandedValid kinds.items }
        ensures kept { IfOk result (λ h. h ≡ kinds.items) }
        ensures handed_back { IfErr result (λ e. e.0 ≡ kinds) }
        ensures first_fault { IfErr result (λ e. IsHandedFault kinds.items e.1) }
        ensures no_other_fault { IfErr result
            (λ e. (fault : KindFault) → IsHandedFault kinds.items fault → fault ≡ e.1) }
    {
        match fault(&kinds) {
            None => Ok(Handed { kinds }),
            Some(fault) => Err((kinds, fault)),
        }
    }

    /// The number of kinds, 1 to 128.
    pub fn kinds(&self) -> u8
        ensures value { result ≡ length self.now }
        ensures valid { IsHandedValid self.now }
    {
        self.kinds.len() as u8
    }

    /// Whether `t` is a type here: its kind is there, and its residue is below the repeat of that
    /// kind.
    pub fn has(&self, t: HandType) -> bool
        ensures { IsTrue result ↔ IsHandedType self.now t }
    {
        has_side(&self.kinds, t.kind, t.residue)
    }

    /// The type of the next side to the left.
    pub fn left(&self, t: HandType) -> HandType
        requires { IsHandedType self.now t }
        ensures value { result ≡ left self.now t }
        ensures is_type { IsHandedType self.now result }
    {
        left_of(&self.kinds, t)
    }

    /// The type of the next side to the right.
    pub fn right(&self, t: HandType) -> HandType
        requires { IsHandedType self.now t }
        ensures value { result ≡ right self.now t }
        ensures is_type { IsHandedType self.now result }
    {
        right_of(&self.kinds, t)
    }

    /// The type of the side at the other side of the edge, with the hand that is seen there.
    #[tactic(auto, using(crate::proofs::Valid::cross_type))]
    pub fn cross(&self, t: HandType) -> HandType
        requires { IsHandedType self.now t }
        ensures value { result ≡ cross self.now t }
        ensures is_type { IsHandedType self.now result }
    {
        cross_of(&self.kinds, t)
    }

    /// The number of tiles round the corner at the left end of the side, 3 to 64.
    #[tactic(auto, using(crate::proofs::Valid::valence_bounds))]
    pub fn valence(&self, t: HandType) -> u8
        requires { IsHandedType self.now t }
        ensures value { result ≡ valence self.now t }
        ensures at_least { 3 ≤ result }
        ensures at_most { result ≤ 64 }
    {
        valence_of(&self.kinds, t)
    }

    /// The type of the expansion that `t` is: `(2k, s)` for residue s of kind k as it is seen
    /// plain, and `(2k + 1, r)` as it is seen mirrored, where r is minus s modulo the repeat.
    #[tactic(auto, using(crate::proofs::Flat::type_there))]
    pub fn flat(&self, t: HandType) -> DartType
        requires { IsHandedType self.now t }
        ensures value { result ≡ flat self.now t }
        ensures is_type { IsType (expanded self.now) result }
    {
        flat_of(&self.kinds, t)
    }

    /// The expansion: the tessellation of twice the kinds, of which kind 2k is kind k as it is seen
    /// plain, and kind 2k + 1 as it is seen mirrored.
    #[tactic(auto, using(crate::proofs::Valid::expanded_valid))]
    pub fn expand(&self, alloc: Global) -> Result<Tessellation, AllocError>
        ensures value { IfOk result (λ t. t ≡ expanded self.now) }
        ensures valid { IfOk result IsValid }
    {
        let kinds = expanded_kinds(alloc, &self.kinds)?;
        match Tessellation::make(kinds) {
            Ok(t) => Ok(t),
            Err(_) => unreachable!(),
        }
    }
}
