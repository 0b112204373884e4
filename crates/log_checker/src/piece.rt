//! A piece of a walk, in which letters are put and from which they are taken.
ghost use Rattle.std.specs.Prelude.{◌≡◌, ◌≢◌, ◌≤◌, ◌++◌, false, length, take, drop};
ghost use Rattle.std.specs.Prelude.{IsTrue, IfOk, OnOk};
ghost use Rattle.log_checker.specs.Trails.{IsWith};

use crate::footprints::Footprint;
use std::alloc::{AllocError, Global};
use std::marker::Model;

/// A piece of a walk.
#[derive(Debug, Drop)]
pub(crate) struct Piece {
    footprints: Vec<Footprint>,
}

impl Model for Piece {
    ghost use Rattle.std.specs.Prelude.{List};
    ghost use Rattle.log_checker.specs.Footprints.{TypedLetter};

    ghost Value = { List TypedLetter };

    ghost view = { λ p. p.footprints.items };
}

impl Piece {
    /// A copy of letters.
    pub(crate) fn copied(alloc: Global, footprints: &[Footprint]) -> Result<Piece, AllocError>
        ensures { IfOk result (λ piece. piece ≡ footprints.now) }
    {
        let footprints = Vec::from_slice(alloc, footprints)?;
        Ok(Piece { footprints })
    }

    /// The letters.
    pub(crate) fn footprints(&self) -> &[Footprint]
        ensures { result.now ≡ self.now }
    {
        &self.footprints
    }

    /// The number of letters.
    pub(crate) fn len(&self) -> usize
        ensures { result ≡ length self.now }
    {
        self.footprints.len()
    }

    /// Adds letters at the end.
    pub(crate) fn extend(&mut self, footprints: &[Footprint]) -> Result<(), AllocError>
        ensures { OnOk result (self.new ≡ self.old ++ footprints.now) }
    {
        self.footprints.extend_from_slice(footprints)?;
        Ok(())
    }

    /// Keeps so many letters, at most as many as there are, and hands out those behind.
    pub(crate) fn cut(&mut self, alloc: Global, keep: usize) -> Result<Piece, AllocError>
        requires { keep ≤ length self.old }
        ensures kept { IfOk result (λ rest. self.new ≡ take keep self.old) }
        ensures rest { IfOk result (λ rest. rest ≡ drop keep self.old) }
    {
        let rest = Piece::copied(alloc, &self.footprints[keep..])?;
        self.footprints.truncate(keep);
        Ok(rest)
    }

    /// Puts letters in behind so many, at most as many as there are.
    pub(crate) fn put(
        &mut self,
        alloc: Global,
        offset: usize,
        middle: &[Footprint],
    ) -> Result<(), AllocError>
        requires { offset ≤ length self.old }
        ensures { OnOk result (IsWith offset middle.now self.old self.new) }
    {
        let rest = self.cut(alloc, offset)?;
        self.extend(middle)?;
        self.extend(&rest.footprints)?;
        Ok(())
    }

    /// Takes letters out that stand behind so many, at most as many as there are. It answers whether
    /// they stand there.
    pub(crate) fn take_out(
        &mut self,
        alloc: Global,
        offset: usize,
        middle: &[Footprint],
    ) -> Result<bool, AllocError>
        requires { offset ≤ length self.old }
        ensures out { IfOk result (λ done. IsTrue done
            → IsWith offset middle.now self.new self.old) }
        ensures not_there { IfOk result (λ done. done ≡ false
            → take (length middle.now) (drop offset self.old) ≢ middle.now) }
    {
        let mut behind = self.cut(alloc, offset)?;
        if !behind.footprints.starts_with(middle) {
            return Ok(false);
        }
        let rest = behind.cut(alloc, middle.len())?;
        self.extend(&rest.footprints)?;
        Ok(true)
    }
}
