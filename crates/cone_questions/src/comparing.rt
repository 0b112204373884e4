//! Counterexamples: where the cells along a way differ from the base automaton, an experiment is
//! found that tells two cells of one cone type apart.
ghost use Rattle.std.specs.Prelude.{◌≡◌, ◌∷◌, ◌+◌, IfOk};
ghost use Rattle.cone_questions.specs.Comparisons.{cell_at, split_count, splits};

use crate::answers::{Answer, Experiment, Question, Step, go_through};
use crate::cones::Cones;
use crate::fault::AskFault;
use crate::questions::Questions;
use crate::sides::{Side, side_at};
use crate::steps::across;
use cell_patches::{PatchDart, Patches};
use cone_types::Rule;
use indexmap::{IndexMap, IndexSet};
use std::alloc::{AllocError, Global};
use tree_looks::TreeDart;

/// What a comparison came to.
#[derive(Clone, Copy, Debug, PartialEq, Eq)]
pub enum Found {
    /// The cells do as the base automaton says.
    Nothing,
    /// A new experiment splits this cone type.
    New(u32),
    /// The cone type that would be split is split already, or new.
    Known,
    /// The child across this side of the cell of this cone type is of another cone type by now.
    Moved(u32, u8),
}

/// Comparisons of base automata with the cells. While one sweep lasts, each cone type that there
/// was at its beginning is split at most once. The cells that were come to are kept by the numbers
/// of their roots and the sides of their names, each with the node of the discrimination tree that
/// it came to.
#[derive(Drop)]
pub struct Comparison {
    alloc: Global,
    split: IndexSet<u32>,
    types: usize,
    cells: IndexMap<Vec<u8>, Come>,
}

/// A cell by its parent side, and the node that it came to.
#[derive(Clone, Copy, Debug)]
pub(crate) struct Come {
    pub(crate) cell: PatchDart,
    pub(crate) node: u32,
}

/// A cell that answers an experiment otherwise than its cone type: how many sides its name has, the
/// experiment, and the number of the answer of the cone type.
#[derive(Drop)]
struct Difference {
    length: usize,
    experiment: Experiment,
    wanted: u32,
}

/// A way through the tree and the cells: a root and the sides of a name, the cone types that the
/// automaton has along it, and the cell at its end.
#[derive(Drop)]
struct Way {
    /// The root, and then the sides.
    word: Vec<u8>,
    types: Vec<u32>,
    cell: PatchDart,
}

/// What following a way came to.
#[derive(Drop)]
enum Followed {
    Whole,
    Lost,
    Differs(Difference),
}

/// The side that a rule says.
fn side_of_rule(rule: Rule) -> Side {
    match rule {
        Rule::Parent => Side::Parent,
        Rule::Child(_) => Side::Child,
        Rule::Left => Side::Left,
        Rule::Right => Side::Right,
    }
}

impl Way {
    /// The way of no sides in the tree of a root.
    fn start(alloc: Global, patches: &Patches, dart: &TreeDart) -> Result<Way, AllocError> {
        Ok(Way {
            word: word_of(alloc, dart)?,
            types: vec![in alloc; dart.root as u32]?,
            cell: patches.start_of(dart.root),
        })
    }

    /// The cone type at the end.
    fn last_type(&self) -> u32 {
        self.types.last().copied().unwrap_or(0)
    }

    /// The root and the first so many sides.
    fn beginning(&self, sides: usize) -> &[u8] {
        self.word.get(..sides.saturating_add(1)).unwrap_or(&[])
    }

    /// The sides from one on, up to where the name has so many.
    fn sides(&self, from: usize, length: usize) -> &[u8] {
        self.beginning(length)
            .get(from.saturating_add(1)..)
            .unwrap_or(&[])
    }
}

/// The root of a dart, and the sides of its name.
fn word_of(alloc: Global, dart: &TreeDart) -> Result<Vec<u8>, AllocError>
    ensures { IfOk result (λ word. word.items ≡ dart.now.root ∷ dart.now.name.items) }
{
    let mut word = vec![in alloc; dart.root]?;
    word.extend_from_slice(&dart.name)?;
    Ok(word)
}

impl Comparison {
    /// No comparisons yet. Takes no memory.
    pub fn new(alloc: Global) -> Comparison
        ensures { split_count result ≡ 0 }
    {
        Comparison {
            alloc,
            split: IndexSet::new(alloc),
            types: 0,
            cells: IndexMap::new(alloc),
        }
    }

    /// Begins a sweep: each cone type that there is by now may be split once.
    pub fn begin_sweep(&mut self, cones: &Cones)
        ensures { split_count self.new ≡ 0 }
    {
        self.split.clear();
        self.types = cones.types.len();
    }

    /// The cell at the end of the name of a dart, where a comparison came to it.
    ///
    /// # Errors
    ///
    /// `AllocError` where there is no memory.
    pub fn cell(&self, dart: &TreeDart) -> Result<Option<PatchDart>, AllocError>
        ensures { IfOk result (λ cell. cell
            ≡ cell_at self.now (dart.now.root ∷ dart.now.name.items)) }
    {
        let word = word_of(self.alloc, dart)?;
        match self.cells.get(word.as_slice()) {
            Some(come) => Ok(Some(come.cell)),
            None => Ok(None),
        }
    }

    /// Follows the name of a dart through the cells, and looks at the side there. At the first cell
    /// that does not do as the base automaton says, a cone type is split, or its cell was read too
    /// early.
    ///
    /// # Errors
    ///
    /// `Full` where cells are wanted and as many are made as may be, `Memory` where there is none.
    pub fn compare(
        &mut self,
        questions: &mut Questions,
        patches: &mut Patches,
        cones: &Cones,
        dart: &TreeDart,
    ) -> Result<Found, AskFault>
        ensures splits { IfOk result (λ found. split_count self.new
            ≡ split_count self.old + splits found) }
        ensures most { patches.new.most ≡ patches.old.most }
    {
        let mut way = Way::start(questions.alloc, patches, dart)?;
        for (length, side) in dart.name.iter().enumerate() {
            match self.go_on(questions, patches, cones, &mut way, length, *side)? {
                Followed::Whole => {}
                Followed::Lost => return Ok(Found::Nothing),
                Followed::Differs(difference) => {
                    return self.split(questions, patches, cones, &way, &difference);
                }
            }
        }
        match self.last_side(questions, patches, cones, &way, dart)? {
            Followed::Differs(difference) => {
                self.split(questions, patches, cones, &way, &difference)
            }
            _ => Ok(Found::Nothing),
        }
    }

    /// Goes through one more side of a way, of which so many are behind.
    fn go_on(
        &mut self,
        questions: &mut Questions,
        patches: &mut Patches,
        cones: &Cones,
        way: &mut Way,
        length: usize,
        side: u8,
    ) -> Result<Followed, AskFault>
        ensures splits { split_count self.new ≡ split_count self.old }
        ensures most { patches.new.most ≡ patches.old.most }
    {
        let Some(Rule::Child(child_type)) = cones.rule(way.last_type() as usize, side) else {
            return Ok(Followed::Lost);
        };
        way.types.push(child_type)?;
        let beginning = way.beginning(length.saturating_add(1));
        if let Some(come) = self.cells.get(beginning) {
            let come = *come;
            if come.node == cones.node(child_type) {
                way.cell = patches.named(come.cell);
                return Ok(Followed::Whole);
            }
            let cell = patches.named(come.cell);
            let node = questions.sift_on(patches, cell, come.node)?;
            return self.come_to(questions, patches, cones, way, length, Come { cell, node });
        }
        match go_through(patches, way.cell, side)? {
            Step::Open => Ok(Followed::Lost),
            Step::NoChild => Ok(Followed::Differs(Difference {
                length,
                experiment: Experiment::here(questions.alloc, Question::Side(side)),
                wanted: questions.answers.number(Answer::Side(Side::Child))?,
            })),
            Step::Child(cell) => {
                let node = questions.sift(patches, cell)?;
                self.come_to(questions, patches, cones, way, length, Come { cell, node })
            }
        }
    }

    /// Compares a child at the end of a way, whose name has one side more than so many, with its
    /// cone type. One that was split in this sweep says nothing.
    fn come_to(
        &mut self,
        questions: &mut Questions,
        patches: &mut Patches,
        cones: &Cones,
        way: &mut Way,
        length: usize,
        child: Come,
    ) -> Result<Followed, AskFault>
        ensures splits { split_count self.new ≡ split_count self.old }
        ensures most { patches.new.most ≡ patches.old.most }
    {
        let length = length.saturating_add(1);
        way.cell = patches.named(child.cell);
        let cell = way.cell;
        let come = Come { cell, ..child };
        let beginning = Vec::from_slice(questions.alloc, way.beginning(length))?;
        self.cells.insert(beginning, come)?;
        let node = cones.node(way.last_type());
        if come.node == node {
            return Ok(Followed::Whole);
        }
        let parting = questions.parting(come.node, node);
        if parting.node == node {
            return Ok(Followed::Lost);
        }
        Ok(Followed::Differs(Difference {
            length,
            experiment: questions.experiment_at(parting.node)?,
            wanted: parting.answer,
        }))
    }

    /// Looks at the side of a dart, from the cell at the end of its name.
    fn last_side(
        &self,
        questions: &mut Questions,
        patches: &mut Patches,
        cones: &Cones,
        way: &Way,
        dart: &TreeDart,
    ) -> Result<Followed, AskFault>
        ensures most { patches.new.most ≡ patches.old.most }
    {
        let cone_type = way.last_type() as usize;
        if cone_type < cones.kinds {
            return Ok(Followed::Lost);
        }
        let Some(rule) = cones.rule(cone_type, dart.side) else {
            return Ok(Followed::Lost);
        };
        let wanted = side_of_rule(rule);
        if side_at(patches, way.cell, dart.side)? == wanted {
            return Ok(Followed::Whole);
        }
        Ok(Followed::Differs(Difference {
            length: dart.name.len(),
            experiment: Experiment::here(questions.alloc, Question::Side(dart.side)),
            wanted: questions.answers.number(Answer::Side(wanted))?,
        }))
    }

    /// Looks for the last cone type along a way whose own cell, followed by the rest of the way,
    /// answers otherwise than is wanted, and splits the cone type of its child.
    fn split(
        &mut self,
        questions: &mut Questions,
        patches: &mut Patches,
        cones: &Cones,
        way: &Way,
        difference: &Difference,
    ) -> Result<Found, AskFault>
        ensures splits { IfOk result (λ found. split_count self.new
            ≡ split_count self.old + splits found) }
        ensures most { patches.new.most ≡ patches.old.most }
    {
        for from in (0..difference.length).rev() {
            let Some(cell) = way.types.get(from).and_then(|t| cones.cell(*t)) else {
                return Ok(Found::Nothing);
            };
            let path = way.sides(from, difference.length);
            let asked = difference.experiment.behind(questions.alloc, path)?;
            let cell = patches.named(cell);
            if questions.answers.ask(patches, cell, &asked)? != difference.wanted {
                return self.split_behind(questions, patches, cones, way, from, difference);
            }
        }
        Ok(Found::Nothing)
    }

    /// Splits the cone type of the child of the cone type behind so many sides of a way, if it is
    /// one of those that may be split, and the child is of it still.
    fn split_behind(
        &mut self,
        questions: &mut Questions,
        patches: &mut Patches,
        cones: &Cones,
        way: &Way,
        from: usize,
        difference: &Difference,
    ) -> Result<Found, AskFault>
        ensures splits { IfOk result (λ found. split_count self.new
            ≡ split_count self.old + splits found) }
        ensures most { patches.new.most ≡ patches.old.most }
    {
        let behind = from.saturating_add(1);
        let (Some(parent), Some(child)) = (way.types.get(from), way.types.get(behind)) else {
            return Ok(Found::Nothing);
        };
        if *child as usize >= self.types || self.split.contains(child) {
            return Ok(Found::Known);
        }
        let side = way.word.get(behind).copied().unwrap_or(0);
        if let Some(cell) = cones
            .cell(*parent)
            .and_then(|cell| across(patches, cell, side))
        {
            if questions.sift(patches, cell)? != cones.node(*child) {
                return Ok(Found::Moved(*parent, side));
            }
        }
        let path = way.sides(behind, difference.length);
        let experiment = difference.experiment.behind(questions.alloc, path)?;
        questions.add(cones.node(*child), experiment)?;
        self.split.insert(*child)?;
        Ok(Found::New(*child))
    }
}
