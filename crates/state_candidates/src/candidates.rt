//! `Candidates`: automata that are read off regions, to one horizon after the other.
ghost use Rattle.std.specs.Prelude.{◌≡◌, ℕ, ◌+◌, ◌<◌, IfOk, IfSome, IfNone, OnOk, OnErr, length};
ghost use Rattle.tree_model.specs.Automata.{TreeAutomaton};
ghost use Rattle.state_candidates.specs.Candidates.{IsCandidate, looks_at, one_farther};

use crate::assemble::assemble;
use crate::gather::readers;
use look_classes::Looks;
use region_grower::Region;
use rules_data::Automaton;
use std::alloc::{AllocError, Global};
use std::marker::Model;
use tile_kinds::Tessellation;

/// Goes on with each of the looks to a horizon one farther.
fn all_farther(looks: &mut [Looks]) -> Result<(), AllocError>
    requires { (k : ℕ) → k < length looks.old → (looks_at looks.old k).horizon < 4294967295 }
    ensures { OnOk result ((k : ℕ) → k < length looks.old
        → looks_at looks.new k ≡ one_farther (looks_at looks.old k)) }
{
    for x in looks.iter_mut() {
        x.farther()?;
    }
    Ok(())
}

/// The candidates over regions, which it borrows, to a horizon. After want of memory there are no
/// looks, and each later call answers want of memory.
#[derive(Drop)]
pub struct Candidates<'g, 't> {
    regions: &'g [Region<'t>],
    looks: Vec<Looks<'g, 't>>,
    horizon: u32,
}

impl<'g, 't> Model for Candidates<'g, 't> {
    ghost use Rattle.state_candidates.specs.Candidates.{CandidatesState};
    ghost use Rattle.state_candidates.specs.Candidates.{AreLooks};

    ghost Value = { CandidatesState };

    ghost view = { λ x. record { regions = x.regions.now; horizon = x.horizon } };

    ghost invariant = { λ x. AreLooks x.regions.now x.horizon x.looks.items };
}

impl<'g, 't> Candidates<'g, 't> {
    /// The candidates over regions to horizon 0.
    ///
    /// # Errors
    ///
    /// Only want of memory.
    pub fn over(alloc: Global, regions: &'g [Region<'t>]) -> Result<Candidates<'g, 't>, AllocError>
        ensures regions { IfOk result (λ x. x.regions ≡ regions.now) }
        ensures horizon { IfOk result (λ x. x.horizon ≡ 0) }
    {
        let mut looks = Vec::new(alloc);
        for region in regions {
            looks.push(Looks::start(alloc, region)?)?;
        }
        Ok(Candidates {
            regions,
            looks,
            horizon: 0,
        })
    }

    /// Goes on to a horizon one farther, where it is below 4,294,967,295.
    ///
    /// # Errors
    ///
    /// Only want of memory, and each later call answers it too.
    pub fn farther(&mut self) -> Result<(), AllocError>
        requires { self.old.horizon < 4294967295 }
        ensures regions { self.new.regions ≡ self.old.regions }
        ensures horizon { OnOk result (self.new.horizon ≡ self.old.horizon + 1) }
        ensures unchanged { OnErr result (self.new ≡ self.old) }
    {
        if self.looks.len() != self.regions.len() {
            return Err(AllocError);
        }
        if let Err(e) = all_farther(&mut self.looks) {
            self.looks.clear();
            return Err(e);
        }
        self.horizon += 1;
        Ok(())
    }

    /// The candidate over the regions, one for each kind of a tessellation, to the horizon: None
    /// where there is none.
    ///
    /// # Errors
    ///
    /// Only want of memory.
    pub fn candidate(
        &self,
        alloc: Global,
        t: &Tessellation,
    ) -> Result<Option<Automaton>, AllocError>
        ensures some { IfOk result
            (λ o. IfSome o (IsCandidate t.now self.now.regions self.now.horizon)) }
        ensures only { IfOk result (λ o. IfSome o (λ a. (b : TreeAutomaton)
            → IsCandidate t.now self.now.regions self.now.horizon b → b ≡ a)) }
        ensures none { IfOk result (λ o. IfNone o ((a : TreeAutomaton)
            → IsCandidate t.now self.now.regions self.now.horizon a → ⊥)) }
    {
        if self.looks.len() != self.regions.len() {
            return Err(AllocError);
        }
        if self.regions.len() != t.kinds() as usize {
            return Ok(None);
        }
        let Some(readers) = readers(alloc, &self.looks)? else {
            return Ok(None);
        };
        assemble(alloc, &readers)
    }
}
