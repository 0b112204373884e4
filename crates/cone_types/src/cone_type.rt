//! Cone types.
ghost use Rattle.std.specs.Prelude.{◌≡◌, IfOk};

use std::alloc::{AllocError, Global};
use std::marker::Model;
pub use tree_model::Rule;

/// A cone type: what a tile of a tree is, seen from the side of its parent on. Its kind, the
/// residue of its side 0, and a rule for each side; `Child(c)` names the cone type of the child by
/// its number in the base automaton. The same cone type means the same tree below. After
/// J. W. Cannon, "The combinatorial structure of cocompact discrete hyperbolic groups", Geometriae
/// Dedicata 16 (1984), where groups have finitely many.
///
/// A base automaton is a list of cone types. The one with number `k`, below the number of kinds, is
/// that of the root of kind `k`.
#[derive(Debug, Drop)]
pub struct ConeType {
    pub kind: u8,
    pub off: u8,
    pub rules: Vec<Rule>,
}

impl Model for ConeType {
    ghost use Rattle.cone_types.specs.Cones.{Cone};

    ghost Value = { Cone };

    ghost view = { λ c. record { kind = c.kind; off = c.off; rules = c.rules.items } };
}

impl ConeType {
    /// An equal cone type.
    ///
    /// # Errors
    ///
    /// `AllocError` where there is no memory, and only there.
    pub fn copy(&self, alloc: Global) -> Result<ConeType, AllocError>
        ensures equal { IfOk result (λ c. c ≡ self.now) }
    {
        Ok(ConeType {
            kind: self.kind,
            off: self.off,
            rules: Vec::from_slice(alloc, &self.rules)?,
        })
    }
}
