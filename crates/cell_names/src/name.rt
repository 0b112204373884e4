//! `Name`: the list of child sides on the way from the root of the tree to a tile.
ghost use Rattle.std.specs.Prelude.{◌≡◌, ◌<◌, ◌≤◌, ◌↔◌, [], ◌∷◌, ◌++◌, length, take, nat_eq, refl, Some, IsTrue, IsNone, IfSome, IfNone, IfOk, OnOk, OnErr, slice_set};
ghost use Rattle.std.specs.Cmp.{partial_equiv_from_equiv};
ghost use Rattle.std.specs.Cmp.Lexicographic.{pointwise, slice_cmp, nat_list_eq_equiv, nat_list_cmp_total, bytes_decides, texts_ties, texts_po};
ghost use Rattle.std.specs.Ordering.{nat_cmp};
ghost use Rattle.tree_model.specs.Names.{IsBefore};
ghost use Rattle.cell_names.specs.Name.{IsName};

use smallvec::SmallVec;
use std::alloc::{AllocError, Global};
use std::cmp::Ordering;
use std::hash::{Hash, Hasher};
use std::marker::Model;

/// How many sides a name keeps without an allocation.
const INLINE: usize = 16;

/// A list of sides, each below 64, from the root on. The root's name is empty.
///
/// Names compare as lists do: the first side that differs decides, else the shorter is the lesser.
#[derive(Debug, Drop)]
pub struct Name {
    sides: SmallVec<u8, INLINE>,
}

impl Model for Name {
    ghost use Rattle.std.specs.Prelude.{ℕ, List};
    ghost use Rattle.cell_names.specs.Name.{IsName};

    ghost Value = { List ℕ };

    ghost view = { λ name. name.sides.items };

    ghost invariant = { λ name. IsName name.sides.items };
}

impl Name {
    /// The empty name. It takes no memory.
    pub fn root(alloc: Global) -> Name
        ensures { result ≡ [] }
    {
        Name {
            sides: SmallVec::new(alloc),
        }
    }

    /// Appends a side, from 0 to 63. Out of memory the name is as it was.
    pub fn push(&mut self, side: u8) -> Result<(), AllocError>
        requires { side < 64 }
        ensures ok { OnOk result (self.new ≡ self.old ++ side ∷ []) }
        ensures err { OnErr result (self.new ≡ self.old) }
    {
        self.sides.push(side)?;
        Ok(())
    }

    /// Takes the last side away and answers it, or None where the name is empty.
    pub fn pop(&mut self) -> Option<u8>
        ensures empty { IsNone result ↔ (self.old ≡ []) }
        ensures last { IfSome result (λ side. self.old ≡ self.new ++ side ∷ []) }
        ensures below { IfSome result (λ side. side < 64) }
        ensures unchanged { IfNone result (self.new ≡ self.old) }
    {
        self.sides.pop()
    }

    /// How many sides the name has.
    pub fn len(&self) -> usize
        ensures { result ≡ length self.now }
    {
        self.sides.len()
    }

    /// Whether this is the root's name.
    pub fn is_empty(&self) -> bool
        ensures { IsTrue result ↔ (self.now ≡ []) }
    {
        self.sides.is_empty()
    }

    /// The sides, from the root on.
    pub fn sides(&self) -> &[u8]
        ensures value { result.now ≡ self.now }
        ensures below { IsName result.now }
    {
        self.sides.as_slice()
    }

    /// Puts a side, from 0 to 63, at a place below `len`. All other places keep theirs. It takes no
    /// memory.
    pub fn set(&mut self, at: usize, side: u8)
        requires place { at < length self.old }
        requires below { side < 64 }
        ensures { self.new ≡ slice_set self.old at side }
    {
        self.sides.as_mut_slice()[at] = side;
    }

    /// Keeps the first `kept` sides, at most `len` of them, and puts other sides behind them, each
    /// from 0 to 63. Out of memory the name is as it was.
    pub fn rejoin(&mut self, kept: usize, sides: &[u8]) -> Result<(), AllocError>
        requires kept { kept ≤ length self.old }
        requires below { IsName sides.now }
        ensures ok { OnOk result (self.new ≡ take kept self.old ++ sides.now) }
        ensures err { OnErr result (self.new ≡ self.old) }
    {
        self.sides.reserve(sides.len())?;
        self.sides.truncate(kept);
        self.sides.extend_from_slice(sides)
    }

    /// An equal name.
    pub fn copy(&self, alloc: Global) -> Result<Name, AllocError>
        ensures { IfOk result (λ copy. copy ≡ self.now) }
    {
        let sides = SmallVec::from_slice(alloc, self.sides.as_slice())?;
        Ok(Name { sides })
    }
}

impl PartialEq for Name {
    ghost eq = { pointwise nat_eq };

    ghost laws = { partial_equiv_from_equiv nat_list_eq_equiv };

    fn eq(&self, other: &Name) -> bool {
        self.sides() == other.sides()
    }
}

impl Eq for Name {
    ghost laws = { nat_list_eq_equiv };
}

impl PartialOrd for Name {
    ghost partial_cmp = { λ name other. Some (slice_cmp nat_cmp name other) };

    ghost laws = { texts_po };

    fn partial_cmp(&self, other: &Name) -> Option<Ordering> {
        Some(self.cmp(other))
    }
}

impl Ord for Name {
    ghost cmp = { slice_cmp nat_cmp };

    ghost total = { nat_list_cmp_total };

    ghost matches_partial_cmp = { λ _ _. refl };

    ghost matches_eq = { texts_ties };

    fn cmp(&self, other: &Name) -> Ordering
        ensures value { result ≡ slice_cmp nat_cmp self.now other.now }
        ensures before { (result ≡ Ordering.Less) ↔ IsBefore self.now other.now }
    {
        self.sides().cmp(other.sides())
    }
}

impl Hash for Name {
    ghost use Rattle.std.specs.Prelude.{[], ◌∷◌};
    ghost use Rattle.std.proofs.Common.{ap};

    ghost hash_input = { λ name. name ∷ [] };

    ghost respects_eq = { λ name other same. ap (λ n. n ∷ []) ((bytes_decides name other).0 same) };

    // All sides in one write, since hashers take many bytes at once: names may be long.
    fn hash<H: Hasher>(&self, state: &mut H) {
        state.write(self.sides());
    }
}
