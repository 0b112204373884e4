//! Experiments on cells, and the answers to them.
ghost use Rattle.std.specs.Prelude.{◌≡◌, ◌<◌, [], ◌++◌, length, IfOk};

use crate::codes::{Code, Level, code_of};
use crate::fault::AskFault;
use crate::sides::{Side, side_at};
use crate::steps::{across, close_side, settle};
use cell_patches::{PatchDart, Patches};
use indexmap::IndexSet;
use std::alloc::{AllocError, Global};

/// What is asked at the end of a path.
#[derive(Clone, Copy, Debug, PartialEq, Eq)]
pub(crate) enum Question {
    /// The code of the cell there.
    Code,
    /// What a side of that cell is, counted to the left from its parent side.
    Side(u8),
}

/// A question to the cell at the end of a path, whose sides are each counted from a parent side and
/// lead to a child.
#[derive(Debug, Drop)]
pub(crate) struct Experiment {
    pub path: Vec<u8>,
    pub question: Question,
}

impl Experiment {
    /// A question to the cell itself.
    pub fn here(alloc: Global, question: Question) -> Experiment
        ensures path { result.path.items ≡ [] }
        ensures question { result.question ≡ question }
    {
        Experiment {
            path: Vec::new(alloc),
            question,
        }
    }

    /// This experiment, at the end of a path.
    pub fn behind(&self, alloc: Global, path: &[u8]) -> Result<Experiment, AllocError>
        ensures path { IfOk result (λ e. e.path.items ≡ path.now ++ self.now.path.items) }
        ensures question { IfOk result (λ e. e.question ≡ self.now.question) }
    {
        let mut whole = Vec::from_slice(alloc, path)?;
        whole.extend_from_slice(&self.path)?;
        Ok(Experiment {
            path: whole,
            question: self.question,
        })
    }
}

/// What a cell answers.
#[derive(Debug, PartialEq, Eq, Hash, Drop)]
pub(crate) enum Answer {
    /// Its code.
    Code(Code),
    /// It is a start cell.
    Start,
    /// What the side is.
    Side(Side),
    /// A side of the path leads to no cell.
    Open,
    /// A side of the path leads to no child.
    NoChild,
}

/// The answers given so far: two answers are the same where their numbers are.
#[derive(Drop)]
pub(crate) struct Answers {
    alloc: Global,
    level: Level,
    given: IndexSet<Answer>,
}

/// Where a step of a path leads.
#[derive(Clone, Copy, Debug, PartialEq, Eq)]
pub(crate) enum Step {
    Child(PatchDart),
    Open,
    NoChild,
}

/// Steps through a side of a cell, counted from its parent side, or from side 0 of a start cell.
pub(crate) fn go_through(patches: &mut Patches, z: PatchDart, side: u8) -> Result<Step, AskFault>
    ensures most { patches.new.most ≡ patches.old.most }
{
    close_side(patches, z, side)?;
    let Some(over) = across(patches, z, side) else {
        return Ok(Step::Open);
    };
    match settle(patches, over)? {
        Some(parent) => {
            if parent == patches.named(over) {
                Ok(Step::Child(parent))
            } else {
                Ok(Step::NoChild)
            }
        }
        None => Ok(Step::NoChild),
    }
}

impl Answers {
    /// No answers yet.
    pub fn new(alloc: Global, level: Level) -> Answers
        ensures level { result.level ≡ level }
        ensures none { result.given.keys ≡ [] }
    {
        Answers {
            alloc,
            level,
            given: IndexSet::new(alloc),
        }
    }

    /// The number of an answer.
    pub fn number(&mut self, answer: Answer) -> Result<u32, AskFault>
        ensures { IfOk result (λ n. n < length self.new.given.keys) }
    {
        let (number, _) = self.given.insert_full(answer)?;
        if number > u32::MAX as usize {
            return Err(AskFault::Memory);
        }
        Ok(number as u32)
    }

    /// The parent side of the cell of a dart, None for a start cell, and the number of its code.
    pub fn code(
        &mut self,
        patches: &mut Patches,
        d: PatchDart,
    ) -> Result<(Option<PatchDart>, u32), AskFault>
        ensures most { patches.new.most ≡ patches.old.most }
    {
        match code_of(self.alloc, patches, d, self.level)? {
            Some((parent, code)) => Ok((Some(parent), self.number(Answer::Code(code))?)),
            None => Ok((None, self.number(Answer::Start)?)),
        }
    }

    /// The number of the answer of a cell, by its parent side, to an experiment.
    pub fn ask(
        &mut self,
        patches: &mut Patches,
        z: PatchDart,
        experiment: &Experiment,
    ) -> Result<u32, AskFault>
        ensures most { patches.new.most ≡ patches.old.most }
    {
        let mut at = z;
        for side in &experiment.path {
            match go_through(patches, at, *side)? {
                Step::Child(child) => at = child,
                Step::Open => return self.number(Answer::Open),
                Step::NoChild => return self.number(Answer::NoChild),
            }
        }
        match experiment.question {
            Question::Code => Ok(self.code(patches, at)?.1),
            Question::Side(side) => {
                let found = side_at(patches, at, side)?;
                self.number(Answer::Side(found))
            }
        }
    }
}
