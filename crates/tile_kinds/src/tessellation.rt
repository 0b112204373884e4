// Valid tessellations.
ghost use Rattle.std.specs.Prelude.{◌≡◌, ◌<◌, ◌≤◌, length, IsTrue, IsOk, IfOk, IfErr, ◌↔◌};
ghost use Rattle.tile_model.specs.Tessellations.{IsType, kind_at, left, right, cross, sides, valence};
ghost use Rattle.tile_model.specs.Validity.{IsValid};

use crate::checks::fault;
use crate::kinds::{DartType, Kind};
use crate::moves::{cross_of, has_type, left_of, right_of, valence_of};
use std::alloc::{AllocError, Global};
use std::marker::Model;
use tile_model::KindFault;

/// A tessellation: a list of kinds that has passed all checks.
#[derive(Debug, Drop)]
pub struct Tessellation {
    kinds: Vec<Kind>,
}

impl Model for Tessellation {
    ghost use Rattle.std.specs.Prelude.{List};
    ghost use Rattle.tile_model.specs.Tessellations.{TileKind};
    ghost use Rattle.tile_model.specs.Validity.{IsValid};

    ghost Value = { List TileKind };

    ghost view = { λ t. t.kinds.items };

    ghost invariant = { λ t. IsValid t.kinds.items };
}

impl Tessellation {
    ghost use Rattle.tile_model.specs.declared.fault.KindFault.{KindFault};
    ghost use Rattle.tile_model.specs.Faults.{IsFault};

    /// Makes a tessellation of 1 to 256 kinds. A list that is not valid is handed back as it was,
    /// with its first fault in the order of `KindFault`, at its least kind and residue. Takes no
    /// memory.
    pub fn make(kinds: Vec<Kind>) -> Result<Tessellation, (Vec<Kind>, KindFault)>
        ensures exactly { IsOk result ↔ IsValid kinds.items }
        ensures kept { IfOk result (λ t. t ≡ kinds.items) }
        ensures handed_back { IfErr result (λ e. e.0 ≡ kinds) }
        ensures first_fault { IfErr result (λ e. IsFault kinds.items e.1) }
        ensures no_other_fault { IfErr result
            (λ e. (fault : KindFault) → IsFault kinds.items fault → fault ≡ e.1) }
    {
        match fault(&kinds) {
            None => Ok(Tessellation { kinds }),
            Some(fault) => Err((kinds, fault)),
        }
    }

    /// All kinds, in their order.
    pub fn all_kinds(&self) -> &[Kind]
        ensures value { result.now ≡ self.now }
        ensures valid { IsValid self.now }
    {
        &self.kinds
    }

    /// The number of kinds, 1 to 256.
    pub fn kinds(&self) -> u16
        ensures value { result ≡ length self.now }
        ensures valid { IsValid self.now }
    {
        self.kinds.len() as u16
    }

    /// The kind of number `k`, counted from 0.
    pub fn kind(&self, k: u8) -> &Kind
        requires { k < length self.now }
        ensures { result.now ≡ kind_at self.now k }
    {
        &self.kinds[k as usize]
    }

    /// Whether `t` is a type here: its kind is there, and its residue is below the repeat of that
    /// kind.
    pub fn has(&self, t: DartType) -> bool
        ensures { IsTrue result ↔ IsType self.now t }
    {
        has_type(&self.kinds, t)
    }

    /// The type of side 0 of kind `k`.
    pub fn start(&self, k: u8) -> DartType
        requires { k < length self.now }
        ensures value { result ≡ (k, 0) }
        ensures is_type { IsType self.now result }
    {
        let _ = &self.kinds;
        DartType {
            kind: k,
            residue: 0,
        }
    }

    /// The type of the next side to the left.
    pub fn left(&self, t: DartType) -> DartType
        requires { IsType self.now t }
        ensures value { result ≡ left self.now t }
        ensures is_type { IsType self.now result }
    {
        left_of(&self.kinds, t)
    }

    /// The type of the next side to the right.
    pub fn right(&self, t: DartType) -> DartType
        requires { IsType self.now t }
        ensures value { result ≡ right self.now t }
        ensures is_type { IsType self.now result }
    {
        right_of(&self.kinds, t)
    }

    /// The type of the side at the other side of the edge.
    pub fn cross(&self, t: DartType) -> DartType
        requires { IsType self.now t }
        ensures value { result ≡ cross self.now t }
        ensures is_type { IsType self.now result }
    {
        cross_of(&self.kinds, t)
    }

    /// The number of sides of a tile of this type, 3 to 64.
    pub fn sides(&self, t: DartType) -> u8
        requires { IsType self.now t }
        ensures value { result ≡ sides self.now t }
        ensures at_least { 3 ≤ result }
        ensures at_most { result ≤ 64 }
    {
        let kind = &self.kinds[t.kind as usize];
        kind.sides
    }

    /// The number of tiles round the corner at the left end of the side, 3 to 64.
    pub fn valence(&self, t: DartType) -> u8
        requires { IsType self.now t }
        ensures value { result ≡ valence self.now t }
        ensures at_least { 3 ≤ result }
        ensures at_most { result ≤ 64 }
    {
        valence_of(&self.kinds, t)
    }
    /// A copy of the tessellation, in memory of its own.
    pub fn copy(&self, alloc: Global) -> Result<Tessellation, AllocError>
        ensures { IfOk result (λ t. t ≡ self.now) }
    {
        let mut kinds = Vec::with_capacity(alloc, self.kinds.len())?;
        for kind in &self.kinds {
            kinds.push(kind.copy(alloc)?)?;
        }
        Ok(Tessellation { kinds })
    }
}
