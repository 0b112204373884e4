// Walks, the types that they lead to, and the way back.
ghost use Rattle.std.specs.Prelude.{◌≡◌, ℕ, List, [], ◌∷◌, ◌++◌, length, IsTrue, ◌↔◌, IfOk, OnOk, OnErr};
ghost use Rattle.tile_model.specs.Relation.{AreRelated};
ghost use Rattle.tile_model.specs.Tessellations.{TileKind, IsType};
ghost use Rattle.tile_model.specs.Walks.{crossings, inverse, opposite, type_of as type_along};

use std::alloc::{AllocError, Global};
use std::marker::Model;
use tile_kinds::{DartType, Tessellation};
use tile_model::Letter;

/// A walk: a list of letters, the first letter first.
#[derive(Debug, Drop)]
pub struct Walk {
    letters: Vec<Letter>,
}

impl Model for Walk {
    ghost use Rattle.std.specs.Prelude.{List};
    ghost use Rattle.tile_model.specs.declared.Letter.{Letter};

    ghost Value = { List Letter };

    ghost view = { λ w. w.letters.items };
}

impl Walk {
    /// The empty walk. Takes no memory.
    pub fn new(alloc: Global) -> Walk
        ensures { result ≡ [] }
    {
        Walk {
            letters: Vec::new(alloc),
        }
    }

    /// The empty walk, with memory for so many letters.
    pub(crate) fn with_capacity(alloc: Global, capacity: usize) -> Result<Walk, AllocError>
        ensures { IfOk result (λ w. w ≡ []) }
    {
        let letters = Vec::with_capacity(alloc, capacity)?;
        Ok(Walk { letters })
    }

    /// Adds a letter at the end. Without memory the walk stays as it was.
    pub fn push(&mut self, x: Letter) -> Result<(), AllocError>
        ensures added { OnOk result (self.new ≡ self.old ++ x ∷ []) }
        ensures unchanged { OnErr result (self.new ≡ self.old) }
    {
        self.letters.push(x)?;
        Ok(())
    }

    /// Makes the walk empty, and keeps its memory for the letters to come.
    pub fn clear(&mut self)
        ensures { self.new ≡ [] }
    {
        self.letters.clear();
    }

    /// The number of letters.
    pub fn len(&self) -> usize
        ensures { result ≡ length self.now }
    {
        self.letters.len()
    }

    /// Whether the walk has no letters.
    pub fn is_empty(&self) -> bool
        ensures { IsTrue result ↔ (self.now ≡ []) }
    {
        self.letters.is_empty()
    }

    /// The letters, in their order.
    pub fn letters(&self) -> &[Letter]
        ensures { result.now ≡ self.now }
    {
        &self.letters
    }

    /// How often the walk crosses a side: the number of its letters X.
    pub fn crossings(&self) -> u64
        ensures { result ≡ crossings self.now }
    {
        let mut count = 0;
        for x in &self.letters {
            if *x == Letter::X {
                count += 1;
            }
        }
        count
    }

    /// The way back: the letters in reverse order, L and R exchanged. From every type, the walk
    /// followed by the way back comes to nothing.
    pub fn inverse(&self, alloc: Global) -> Result<Walk, AllocError>
        ensures value { IfOk result (λ w. w ≡ inverse self.now) }
        ensures cancels { IfOk result
            (λ w. (kinds : List TileKind) (d : ℕ × ℕ) → AreRelated kinds d (self.now ++ w) []) }
    {
        let mut letters = Vec::with_capacity(alloc, self.letters.len())?;
        for x in &self.letters {
            letters.push(opposite_of(*x))?;
        }
        letters.reverse();
        Ok(Walk { letters })
    }
}

/// The letter that undoes a letter.
fn opposite_of(x: Letter) -> Letter
    ensures { result ≡ opposite x }
{
    match x {
        Letter::L => Letter::R,
        Letter::R => Letter::L,
        Letter::X => Letter::X,
    }
}

/// The type that a walk leads to from the type `from`. Takes no memory.
pub fn type_of(t: &Tessellation, from: DartType, w: &Walk) -> DartType
    requires { IsType t.now from }
    ensures value { result ≡ type_along t.now from w.now }
    ensures is_type { IsType t.now result }
{
    let mut at = from;
    for x in w.letters() {
        at = match x {
            Letter::L => t.left(at),
            Letter::R => t.right(at),
            Letter::X => t.cross(at),
        };
    }
    at
}
