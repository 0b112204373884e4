//! A spot that knows how long the word of its name is.
ghost use Rattle.std.specs.Prelude.{◌≡◌, ◌≢◌, ◌<◌, ◌+◌, [], length, IfOk, OnOk, IsErrOf};
ghost use Rattle.structure_check.specs.Rules.{AreSound};
ghost use Rattle.tree_model.specs.Names.{word};
ghost use Rattle.tree_model.specs.Places.{position_word};
ghost use Rattle.tree_model.specs.Positions.{root, turn_left as left_of, turn_right as right_of};
ghost use Rattle.spot_laws.specs.Spots.{IsSpot, IsAt, IsAtChild, IsAtParent, FacesChild};
ghost use Rattle.spot_laws.specs.Spots.{position, root_kind, faced_rule};
ghost use Rattle.step_engine.specs.Crossings.{IsAcross, CrossesDeep};

use std::alloc::{AllocError, Global};
use std::marker::Model;
use step_engine::{DEEPEST, StepFault, cross, turn_left, turn_right};
use structure_check::Rules;
use tree_model::Rule;
use turn_rules::Spot;

/// A spot, with the number of letters of the word of its name.
#[derive(Drop)]
pub(crate) struct Place {
    spot: Spot,
    letters: u64,
}

impl Model for Place {
    ghost use Rattle.std.specs.Prelude.{◌≡◌, length};
    ghost use Rattle.tree_model.specs.Names.{word};
    ghost use Rattle.spot_laws.specs.Spots.{TreeSpot};

    ghost Value = { TreeSpot };

    ghost view = { λ place. place.spot };

    ghost invariant = { λ place. place.letters ≡ length (word place.spot.name) };
}

impl Place {
    /// Side 0 of the root of a kind, which is one of the tessellation.
    pub(crate) fn root(alloc: Global, r: &Rules, kind: u8) -> Result<Place, AllocError>
        requires { kind < length r.now.kinds }
        ensures { IfOk result (λ place. IsAt r.now kind root place) }
    {
        let spot = Spot::root(alloc, r, kind)?;
        Place::measured(spot)
    }

    /// A spot, the word of whose name is counted.
    fn measured(spot: Spot) -> Result<Place, AllocError>
        ensures { IfOk result (λ place. place ≡ spot) }
    {
        let letters = count_letters(spot.name().sides())?;
        Ok(Place { spot, letters })
    }

    /// What lies across the faced side. This place stays where it is.
    ///
    /// # Errors
    ///
    /// As those of a crossing.
    pub(crate) fn across(&self, alloc: Global, r: &Rules) -> Result<Place, StepFault>
        requires { IsSpot r.now self.now }
        ensures spot { IfOk result (λ place. IsSpot r.now place) }
        ensures tree { IfOk result (λ place. root_kind r.now place ≡ root_kind r.now self.now) }
        ensures across { IfOk result (λ place. IsAcross r.now self.now (position place)) }
        ensures deep { IsErrOf result StepFault.Deep → CrossesDeep r.now self.now DEEPEST }
    {
        let mut spot = self.spot.copy(alloc)?;
        cross(&mut spot, r)?;
        Ok(Place::measured(spot)?)
    }

    /// An equal place.
    pub(crate) fn copy(&self, alloc: Global) -> Result<Place, AllocError>
        ensures { IfOk result (λ place. place ≡ self.now) }
    {
        Ok(Place {
            spot: self.spot.copy(alloc)?,
            letters: self.letters,
        })
    }

    /// The side that is faced.
    pub(crate) fn spin(&self) -> u8
        ensures { result ≡ self.now.spin }
    {
        self.spot.spin()
    }

    /// The number of letters of the word of the name.
    pub(crate) fn letters(&self) -> u64
        ensures { result ≡ length (word self.now.name) }
    {
        self.letters
    }

    /// The number of letters of the word of the position.
    pub(crate) fn end(&self) -> Result<u64, AllocError>
        ensures { IfOk result (λ end. end ≡ length (position_word (position self.now))) }
    {
        longer(self.letters, self.spot.spin())
    }

    /// The number of sides of the name.
    pub(crate) fn level(&self) -> usize
        ensures { result ≡ length self.now.name }
    {
        self.spot.level()
    }

    /// The rule of the faced side.
    pub(crate) fn rule(&self, r: &Rules) -> Rule
        requires { IsSpot r.now self.now }
        ensures rule { result ≡ faced_rule r.now self.now }
        ensures sound { AreSound r.now }
    {
        r.automaton().rule(self.spot.state(), self.spot.spin())
    }

    /// Faces the side to the left.
    pub(crate) fn turn_left(&mut self, r: &Rules)
        requires { IsSpot r.now self.old }
        ensures { IsAt r.now (root_kind r.now self.old)
            (left_of r.now.kinds r.now.automaton (root_kind r.now self.old) (position self.old))
            self.new }
    {
        turn_left(&mut self.spot, r);
    }

    /// Faces the side to the right.
    pub(crate) fn turn_right(&mut self, r: &Rules)
        requires { IsSpot r.now self.old }
        ensures { IsAt r.now (root_kind r.now self.old)
            (right_of r.now.kinds r.now.automaton (root_kind r.now self.old) (position self.old))
            self.new }
    {
        turn_right(&mut self.spot, r);
    }

    /// Goes to side 0 of the child across the faced side.
    pub(crate) fn down(&mut self, r: &Rules) -> Result<(), AllocError>
        requires spot { IsSpot r.now self.old }
        requires child { FacesChild r.now self.old }
        ensures { OnOk result (IsAtChild r.now self.old self.new) }
    {
        let letters = longer(self.end()?, 1)?;
        self.spot.down(r)?;
        self.letters = letters;
        Ok(())
    }

    /// Goes to the parent, and faces the side across which this tile lies. The tile is no root.
    pub(crate) fn up(&mut self, r: &Rules)
        requires spot { IsSpot r.now self.old }
        requires no_root { self.old.name ≢ [] }
        ensures { IsAtParent r.now self.old self.new }
    {
        self.spot.up(r);
        self.letters -= self.spot.spin() as u64 + 1;
    }
}

/// The number of letters of the word of a name.
fn count_letters(sides: &[u8]) -> Result<u64, AllocError>
    ensures { IfOk result (λ count. count ≡ length (word sides.now)) }
{
    let mut count = 0;
    for side in sides {
        count = longer(longer(count, *side)?, 1)?;
    }
    Ok(count)
}

/// So many letters more. What is not below 2^64 is want of memory.
fn longer(count: u64, more: u8) -> Result<u64, AllocError>
    ensures { IfOk result (λ sum. sum ≡ count + more) }
{
    count.checked_add(more as u64).ok_or(AllocError)
}
