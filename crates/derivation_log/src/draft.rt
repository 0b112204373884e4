//! A log that is being written.
ghost use Rattle.std.specs.Prelude.{◌≡◌, ◌≤◌, All, [], ◌∷◌, ◌++◌, OnOk, IsTrue, List};
ghost use Rattle.tile_model.specs.Relation.{Change as Entry};
ghost use Rattle.log_model.specs.LogTexts.{HasText};
ghost use Rattle.log_laws.specs.Logs.{inserted, deleted};
ghost use Rattle.derivation_log.specs.Drafts.{undoing, IsWritten, IsWrittenBack};

use log_model::Change;
use std::alloc::{AllocError, Global};
use std::marker::Model;

/// The numbers of the loops that are written.
pub(crate) const THERE_AND_BACK: u8 = 1;

pub(crate) const LEFT_AND_RIGHT: u8 = 2;

pub(crate) const FULL_TURN: u8 = 4;

pub(crate) const ROUND_CORNER: u8 = 5;

/// A log whose changes all have texts. A change that undoes the last one takes it away, so that
/// neither is kept.
#[derive(Drop)]
pub(crate) struct Draft {
    changes: Vec<Change>,
}

impl Model for Draft {
    ghost use Rattle.std.specs.Prelude.{List, All};
    ghost use Rattle.tile_model.specs.Relation.{Change};
    ghost use Rattle.log_model.specs.LogTexts.{HasText};

    ghost Value = { List Change };

    ghost view = { λ draft. draft.changes.items };

    ghost invariant = { λ draft. All HasText draft.changes.items };
}

impl Draft {
    /// The empty log.
    pub(crate) fn new(alloc: Global) -> Draft
        ensures { result ≡ [] }
    {
        Draft {
            changes: Vec::new(alloc),
        }
    }

    /// Writes that a loop of this number, 1 to 5, is inserted behind so many letters.
    pub(crate) fn insert(&mut self, at: u64, which: u8) -> Result<(), AllocError>
        requires least { 1 ≤ which }
        requires most { which ≤ 5 }
        ensures { OnOk result (IsWritten self.old (inserted at which ∷ []) self.new) }
    {
        self.write(Change {
            at,
            which,
            insert: true,
        })
    }

    /// Writes that a loop of this number, 1 to 5, is deleted behind so many letters.
    pub(crate) fn delete(&mut self, at: u64, which: u8) -> Result<(), AllocError>
        requires least { 1 ≤ which }
        requires most { which ≤ 5 }
        ensures { OnOk result (IsWritten self.old (deleted at which ∷ []) self.new) }
    {
        self.write(Change {
            at,
            which,
            insert: false,
        })
    }

    /// Writes the changes of another log turned round, the last one first, so that they lead back.
    pub(crate) fn write_back(&mut self, log: &Draft) -> Result<(), AllocError>
        ensures { OnOk result (IsWrittenBack self.old log.now self.new) }
    {
        let mut rest = log.changes.as_slice();
        while let Some((last, before)) = rest.split_last() {
            self.write(turned_round(*last))?;
            rest = before;
        }
        Ok(())
    }

    /// The changes.
    pub(crate) fn into_changes(self) -> Vec<Change>
        ensures value { result.items ≡ self }
        ensures texts { All HasText result.items }
    {
        self.changes
    }

    /// Writes a change, or takes the last one away where this one undoes it.
    fn write(&mut self, change: Change) -> Result<(), AllocError>
        requires { HasText change }
        ensures { OnOk result (IsWritten self.old (change ∷ []) self.new) }
    {
        if self.ends_with(turned_round(change)) {
            self.changes.pop();
            return Ok(());
        }
        self.changes.push(change)?;
        Ok(())
    }

    /// Whether the last change is this one.
    fn ends_with(&self, change: Change) -> bool
        ensures { IsTrue result
            → (before : List Entry) × (self.now ≡ before ++ change ∷ []) }
    {
        self.changes.last() == Some(&change)
    }
}

/// The change that takes a change back.
fn turned_round(change: Change) -> Change
    ensures { result ≡ undoing change }
{
    Change {
        at: change.at,
        which: change.which,
        insert: !change.insert,
    }
}
