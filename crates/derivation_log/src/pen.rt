//! A pen: a place in the tree, and the log of the walk that has led there.
ghost use Rattle.std.specs.Prelude.{◌≡◌, ◌<◌, ◌≤◌, ◌^◌, [], ◌∷◌, ◌++◌, true, length, IfOk, OnOk};
ghost use Rattle.std.specs.Prelude.{IsErrOf};
ghost use Rattle.tile_model.specs.declared.Letter.TheVariants.{X};
ghost use Rattle.tile_model.specs.Relation.{Lead};
ghost use Rattle.tree_model.specs.Contours.{Tree, Opens, Closes};
ghost use Rattle.tree_model.specs.Positions.{Position, root, Leads};
ghost use Rattle.tree_model.specs.Places.{position_word};
ghost use Rattle.structure_check.specs.Rules.{AreSound};
ghost use Rattle.spot_laws.specs.Spots.{IsSpot};
ghost use Rattle.step_engine.specs.Crossings.{CrossesDeep};
ghost use Rattle.derivation_log.specs.Passing.{PassesFar};
ghost use Rattle.derivation_log.specs.Drafts.{IsWritten};
ghost use Rattle.derivation_log.specs.Pens.{at, mark_at, open_log, HasTurnedLeft, HasTurnedRight};
ghost use Rattle.derivation_log.specs.Pens.{HasHopped};
ghost use Rattle.derivation_log.specs.Pens.{HasMoved, HasRounded, HasCrossed, HasStepped};
ghost use Rattle.derivation_log.specs.Pens.{most_open_at};

use crate::draft::{Draft, FULL_TURN, LEFT_AND_RIGHT, ROUND_CORNER, THERE_AND_BACK};
use crate::place::Place;
use std::alloc::{AllocError, Global};
use step_engine::{DEEPEST, StepFault};
use structure_check::Rules;
use tree_model::Rule;
use turn_rules::brackets_fit;
use walk_words::{Letter, Walk};

/// A place in the tree, and the log of the walk that has led there: it leads from that walk to the
/// word of the place.
#[derive(Drop)]
pub(crate) struct Pen {
    pub(crate) place: Place,
    pub(crate) log: Draft,
}

impl Pen {
    /// Faces the side to the left. Past the last side a full turn is deleted.
    fn turn_left(&mut self, r: &Rules) -> Result<(), AllocError>
        requires { IsSpot r.now self.old.place }
        ensures { OnOk result (HasTurnedLeft r.now self.old self.new) }
    {
        self.place.turn_left(r);
        if self.place.spin() == 0 {
            self.log.delete(self.place.letters(), FULL_TURN)?;
        }
        Ok(())
    }

    /// Faces the side to the right. Past the first side a full turn is inserted, and then left and
    /// right is deleted.
    fn turn_right(&mut self, r: &Rules) -> Result<(), AllocError>
        requires { IsSpot r.now self.old.place }
        ensures { OnOk result (HasTurnedRight r.now self.old self.new) }
    {
        self.open_turn()?;
        self.place.turn_right(r);
        self.log.delete(self.place.end()?, LEFT_AND_RIGHT)?;
        Ok(())
    }

    /// Before a turn to the right: where it passes the first side, a full turn is inserted.
    fn open_turn(&mut self) -> Result<(), AllocError>
        ensures place { OnOk result (self.new.place ≡ self.old.place) }
        ensures log { OnOk result
            (IsWritten self.old.log (open_log (at self.old)) self.new.log) }
    {
        if self.place.spin() == 0 {
            self.log.insert(self.place.letters(), FULL_TURN)?;
        }
        Ok(())
    }

    /// Goes across the faced side, which is one of the tree. On the way to the parent there and
    /// back is deleted.
    fn hop(&mut self, r: &Rules) -> Result<(), AllocError>
        requires spot { IsSpot r.now self.old.place }
        requires tree { mark_at r.now self.old ≡ Tree }
        ensures { OnOk result (HasHopped r.now self.old self.new) }
    {
        if let Rule::Child(_) = self.place.rule(r) {
            self.place.down(r)?;
            return Ok(());
        }
        self.place.up(r);
        self.log.delete(self.place.end()?, THERE_AND_BACK)?;
        Ok(())
    }

    /// One move along the contour: a turn to the left, and then across a side of the tree, or past
    /// a bracket, which is counted.
    /// Where one opens, a way round the corner is inserted; where one closes, there and back is
    /// deleted.
    /// It answers whether no bracket is left open.
    fn go_on(&mut self, r: &Rules, brackets: &mut u128) -> Result<bool, AllocError>
        requires spot { IsSpot r.now self.old.place }
        requires some { 1 ≤ brackets.old }
        requires few { brackets.old < 2 ^ 127 }
        ensures { IfOk result (λ done.
            HasMoved r.now self.old brackets.old done self.new brackets.new) }
    {
        self.turn_left(r)?;
        match self.place.rule(r) {
            Rule::Parent | Rule::Child(_) => {
                self.hop(r)?;
                Ok(false)
            }
            Rule::Left => {
                self.log.insert(self.place.end()?, ROUND_CORNER)?;
                *brackets += 1;
                Ok(false)
            }
            Rule::Right => {
                self.log.delete(self.place.end()?, THERE_AND_BACK)?;
                *brackets -= 1;
                Ok(*brackets == 0)
            }
        }
    }

    /// Along the contour from a Left side to the Right side that is matched with it.
    fn go_round(&mut self, r: &Rules) -> Result<(), AllocError>
        requires spot { IsSpot r.now self.old.place }
        requires opens { mark_at r.now self.old ≡ Opens }
        ensures { OnOk result (HasRounded r.now self.old self.new) }
    {
        self.counter_fits(r);
        self.log.insert(self.place.end()?, ROUND_CORNER)?;
        let mut brackets: u128 = 1;
        while !self.go_on(r, &mut brackets)? {}
        Ok(())
    }

    /// Fewer than 2^127 brackets are ever open on the way from here.
    /// The call does nothing but read what tells this.
    fn counter_fits(&self, r: &Rules)
        ensures fits { most_open_at r.now self.now < 2 ^ 127 }
        ensures sound { AreSound r.now }
    {
        brackets_fit(r, true);
        let _automaton = r.automaton();
        let _level = self.place.level();
    }

    /// Goes across the faced side, which is Right.
    /// The log of the crossing the other way is written apart and turned round, and then there and
    /// back is deleted.
    fn go_back(&mut self, alloc: Global, r: &Rules) -> Result<(), StepFault>
        requires spot { IsSpot r.now self.old.place }
        requires closes { mark_at r.now self.old ≡ Closes }
        ensures crossed { OnOk result (HasCrossed r.now self.old self.new) }
        ensures deep { IsErrOf result StepFault.Deep
            → CrossesDeep r.now self.old.place DEEPEST }
    {
        accepted(r);
        let across = self.place.across(alloc, r)?;
        let mut forwards = Pen {
            place: across.copy(alloc)?,
            log: Draft::new(alloc),
        };
        forwards.go_round(r)?;
        self.log.write_back(&forwards.log)?;
        self.place = across;
        self.log.delete(self.place.end()?, THERE_AND_BACK)?;
        Ok(())
    }

    /// Goes across the faced side.
    fn cross(&mut self, alloc: Global, r: &Rules) -> Result<(), StepFault>
        requires { IsSpot r.now self.old.place }
        ensures crossed { OnOk result (HasCrossed r.now self.old self.new) }
        ensures deep { IsErrOf result StepFault.Deep
            → CrossesDeep r.now self.old.place DEEPEST }
    {
        match self.place.rule(r) {
            Rule::Parent | Rule::Child(_) => {
                self.hop(r)?;
                Ok(())
            }
            Rule::Left => {
                self.go_round(r)?;
                Ok(())
            }
            Rule::Right => self.go_back(alloc, r),
        }
    }

    /// On by one letter.
    fn step(&mut self, alloc: Global, r: &Rules, x: Letter) -> Result<(), StepFault>
        requires { IsSpot r.now self.old.place }
        ensures stepped { OnOk result (HasStepped r.now self.old x self.new) }
        ensures only_crossings { IsErrOf result StepFault.Deep → x ≡ Letter.X }
        ensures deep { IsErrOf result StepFault.Deep
            → CrossesDeep r.now self.old.place DEEPEST }
    {
        accepted(r);
        match x {
            Letter::L => {
                self.turn_left(r)?;
                Ok(())
            }
            Letter::R => {
                self.turn_right(r)?;
                Ok(())
            }
            Letter::X => self.cross(alloc, r),
        }
    }
}

/// The log that leads from a walk, from side 0 of a kind of the tessellation, to the word of the
/// position to which the walk leads.
///
/// # Errors
///
/// `Deep` comes only where a beginning of the walk ends at a tile that lies more than 4,000
/// crossings from the first one.
pub(crate) fn log_to_word(alloc: Global, r: &Rules, kind: u8, w: &Walk) -> Result<Draft, StepFault>
    requires { kind < length r.now.kinds }
    ensures leads { IfOk result (λ log. (p : Position)
        → Leads r.now.kinds r.now.automaton kind root w.now p
        → Lead r.now.kinds (kind, 0) log w.now (position_word p)) }
    ensures deep { IsErrOf result StepFault.Deep → PassesFar r.now.kinds kind w.now }
{
    accepted(r);
    let mut pen = Pen {
        place: Place::root(alloc, r, kind)?,
        log: Draft::new(alloc),
    };
    for x in w.letters() {
        pen.step(alloc, r, *x)?;
    }
    Ok(pen.log)
}

/// The rules are accepted.
/// A body that reads nothing of them does not know this of its argument, so those that need it call
/// this one, which does nothing else.
pub(crate) fn accepted(r: &Rules)
    ensures { AreSound r.now }
{
    let _automaton = r.automaton();
}
