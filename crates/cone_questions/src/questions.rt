//! The discrimination tree: which experiments tell cells apart.
ghost use Rattle.std.specs.Prelude.{◌≡◌};
ghost use Rattle.cone_questions.specs.Comparisons.{experiment_count};

use crate::answers::{Answers, Experiment, Question};
use crate::codes::Level;
use crate::fault::AskFault;
use cell_patches::{PatchDart, Patches};
use indexmap::{IndexMap, IndexSet};
use std::alloc::{AllocError, Global};

/// The node at which a cell is asked for its code.
const FIRST: u32 = 0;

/// An answer at a node of the discrimination tree, which leads to a node below.
#[derive(Clone, Copy, Debug, PartialEq, Eq, Hash)]
pub(crate) struct Branch {
    pub(crate) node: u32,
    pub(crate) answer: u32,
}

/// The discrimination tree. A cell is first asked for its code. Each node below has at most one
/// experiment, which is asked next of the cells that come to it; where it has none, the node stands
/// for the cone type of the cell. Branch `k` leads to node `k + 1`.
#[derive(Drop)]
pub struct Questions {
    pub(crate) alloc: Global,
    pub(crate) answers: Answers,
    branches: IndexSet<Branch>,
    pub(crate) experiments: IndexMap<u32, Experiment>,
}

impl Questions {
    /// No experiments yet: cells are told apart by their codes of a level.
    pub fn new(alloc: Global, level: Level) -> Questions
        ensures { experiment_count result ≡ 0 }
    {
        Questions {
            alloc,
            answers: Answers::new(alloc, level),
            branches: IndexSet::new(alloc),
            experiments: IndexMap::new(alloc),
        }
    }

    /// The node that the cell of a dart comes to by its code and the experiments that follow.
    pub(crate) fn sift(&mut self, patches: &mut Patches, d: PatchDart) -> Result<u32, AskFault>
        ensures most { patches.new.most ≡ patches.old.most }
    {
        let (parent, code) = self.answers.code(patches, d)?;
        let node = self.below(FIRST, code)?;
        match parent {
            Some(parent) => self.sift_on(patches, parent, node),
            None => Ok(node),
        }
    }

    /// The node that a cell, by its parent side, comes to from a node on.
    pub(crate) fn sift_on(
        &mut self,
        patches: &mut Patches,
        z: PatchDart,
        node: u32,
    ) -> Result<u32, AskFault>
        ensures most { patches.new.most ≡ patches.old.most }
    {
        let mut at = node;
        for turn in 0..self.experiments.len() {
            let Some(experiment) = self.experiments.get(&at) else {
                break;
            };
            let answer = self.answers.ask(patches, z, experiment)?;
            at = self.below(at, answer)?;
        }
        Ok(at)
    }

    /// The node below a node by an answer.
    fn below(&mut self, node: u32, answer: u32) -> Result<u32, AskFault> {
        let (branch, _is_new) = self.branches.insert_full(Branch { node, answer })?;
        match u32::try_from(branch.saturating_add(1)) {
            Ok(below) => Ok(below),
            Err(_) => Err(AskFault::Memory),
        }
    }

    /// The branch that leads to a node; to the first one and to those that are not there none does.
    fn above(&self, node: u32) -> Branch {
        match self.branches.get_index((node as usize).saturating_sub(1)) {
            Some(branch) if node > FIRST => *branch,
            _ => Branch {
                node: FIRST,
                answer: u32::MAX,
            },
        }
    }

    /// The node where the ways to two nodes part, and the answer there on the way to the second; no
    /// answer's number where the second lies on the way to the first.
    pub(crate) fn parting(&self, first: u32, second: u32) -> Branch {
        let mut here = first;
        let mut there = Branch {
            node: second,
            answer: u32::MAX,
        };
        for step in 0..self.branches.len().saturating_mul(2) {
            if here == there.node {
                break;
            }
            if here > there.node {
                here = self.above(here).node;
            } else {
                there = self.above(there.node);
            }
        }
        there
    }

    /// A copy of the experiment at a node; the question for the code where there is none.
    pub(crate) fn experiment_at(&self, node: u32) -> Result<Experiment, AllocError> {
        match self.experiments.get(&node) {
            Some(experiment) => experiment.behind(self.alloc, &[]),
            None => Ok(Experiment::here(self.alloc, Question::Code)),
        }
    }

    /// Adds an experiment for the cells that come to a node.
    pub(crate) fn add(&mut self, node: u32, experiment: Experiment) -> Result<(), AskFault> {
        self.experiments.insert(node, experiment)?;
        Ok(())
    }
}
