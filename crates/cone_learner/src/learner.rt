//! The loop of the learner.
ghost use Rattle.std.specs.Prelude.{◌≡◌, IfOk, IfSome};
ghost use Rattle.cell_patches.specs.Patches.{KeepsBudget};
ghost use Rattle.cone_learner.specs.Candidates.{AreAccepted};

use crate::candidates::try_types;
use crate::limits::{MOST_PASSES, MOST_RING_TYPES, MOST_ROUNDS};
use crate::refining::{Open, Outcome, Refinement};
use cell_patches::Patches;
use cone_questions::{AskFault, Cones, Level, Questions};
use std::alloc::{AllocError, Global};
use structure_check::Rules;
use tile_kinds::Tessellation;

/// What was learnt at one level: rules, or how many cone types there were at last.
#[derive(Drop)]
struct Attempt {
    rules: Option<Rules>,
    types: usize,
}

/// A base automaton, how many changes and how many cells there were when it was read off the cells,
/// and whether it is as it was read.
#[derive(Drop)]
struct Reading {
    cones: Cones,
    changes: u64,
    made: u32,
    is_fresh: bool,
}

/// What to do next.
#[derive(Clone, Copy, Debug, PartialEq, Eq)]
enum Next {
    TryAgain,
    ReadAgain,
    Stop,
}

/// A base automaton that is read off the cells while they stay as they are. None where the
/// tessellation has finitely many tiles, or there are too many cone types.
fn read(
    questions: &mut Questions,
    patches: &mut Patches,
    kinds: u16,
) -> Result<Option<Reading>, AskFault>
    ensures most { patches.new.most ≡ patches.old.most }
{
    for turn in 0..MOST_PASSES {
        let changes = patches.changes();
        let Some(cones) = questions.pass(patches, kinds)? else {
            return Ok(None);
        };
        if patches.changes() == changes {
            return Ok(Some(Reading {
                cones,
                changes,
                made: patches.made(),
                is_fresh: true,
            }));
        }
    }
    Ok(None)
}

/// The base automaton that is held, or else one that is read.
fn held_or_read(
    questions: &mut Questions,
    patches: &mut Patches,
    kinds: u16,
    held: Option<Reading>,
) -> Result<Option<Reading>, AskFault>
    ensures most { patches.new.most ≡ patches.old.most }
{
    match held {
        Some(reading) => Ok(Some(reading)),
        None => read(questions, patches, kinds),
    }
}

/// Refines a base automaton by corners that do not close. Where nothing is found, it is read again
/// if it may have changed; if not, cells are made round the open corners.
fn refine(
    alloc: Global,
    questions: &mut Questions,
    patches: &mut Patches,
    reading: &mut Reading,
    open: &Open,
) -> Result<Next, AskFault>
    ensures most { patches.new.most ≡ patches.old.most }
{
    let mut refinement = Refinement::new(alloc, open)?;
    match refinement.refine(questions, patches, &mut reading.cones, open)? {
        Outcome::Stopped => return Ok(Next::Stop),
        Outcome::Split => return Ok(Next::ReadAgain),
        Outcome::WentAlong => {
            reading.is_fresh = false;
            if patches.made() == reading.made {
                return Ok(Next::TryAgain);
            }
            return Ok(Next::ReadAgain);
        }
        Outcome::Same => {}
    }
    if !reading.is_fresh || patches.changes() != reading.changes {
        return Ok(Next::ReadAgain);
    }
    refinement.widen(patches)?;
    if patches.changes() == reading.changes {
        return Ok(Next::Stop);
    }
    Ok(Next::ReadAgain)
}

/// Learns by codes of one level. There are no rules where nothing new is found, or too much is
/// tried.
fn learn_at(
    alloc: Global,
    tess: &Tessellation,
    patches: &mut Patches,
    level: Level,
) -> Result<Attempt, AskFault>
    ensures rules { IfOk result (λ a. IfSome a.rules (AreAccepted tess.now)) }
    ensures most { patches.new.most ≡ patches.old.most }
{
    let kinds = tess.kinds();
    let mut questions = Questions::new(alloc, level);
    let mut held = None;
    let mut types = 0;
    for round in 0..MOST_ROUNDS {
        let Some(mut reading) = held_or_read(&mut questions, patches, kinds, held)? else {
            return Ok(Attempt { rules: None, types });
        };
        types = reading.cones.types.len();
        let candidate = try_types(alloc, tess, &reading.cones.types)?;
        if candidate.rules.is_some() {
            let rules = candidate.rules;
            return Ok(Attempt { rules, types });
        }
        match refine(
            alloc,
            &mut questions,
            patches,
            &mut reading,
            &candidate.open,
        )? {
            Next::Stop => return Ok(Attempt { rules: None, types }),
            Next::TryAgain => held = Some(reading),
            Next::ReadAgain => held = None,
        }
    }
    Ok(Attempt { rules: None, types })
}

/// Rules that are learnt by codes of the one level or, where there are not too many cone types, of
/// the other.
fn learn(
    alloc: Global,
    tess: &Tessellation,
    patches: &mut Patches,
) -> Result<Option<Rules>, AskFault>
    ensures rules { IfOk result (λ o. IfSome o (AreAccepted tess.now)) }
    ensures most { patches.new.most ≡ patches.old.most }
{
    let near = learn_at(alloc, tess, patches, Level::Near)?;
    if near.rules.is_some() || near.types > MOST_RING_TYPES {
        return Ok(near.rules);
    }
    let ring = learn_at(alloc, tess, patches, Level::Ring)?;
    Ok(ring.rules)
}

/// Learns rules of a tessellation by its cone types, in patches of it. They may have as many cells
/// as before, and no more are made in them. Rules that are answered are those of this tessellation,
/// and the checker accepted them. That there are none says nothing: they would take more cells, or
/// the learner found nothing new. Where there are finitely many tiles, there are none.
///
/// # Errors
///
/// `AllocError` where there is no memory.
pub fn learn_cones<'t>(
    alloc: Global,
    tess: &'t Tessellation,
    patches: &mut Patches<'t>,
) -> Result<Option<Rules>, AllocError>
    ensures rules { IfOk result (λ o. IfSome o (AreAccepted tess.now)) }
    ensures cells { KeepsBudget patches.old patches.new }
{
    let learnt = learn(alloc, tess, patches);
    // That there are no more cells than may be is told with their number: it is read for the proof
    // alone.
    let _made = patches.made();
    match learnt {
        Ok(rules) => Ok(rules),
        Err(AskFault::Full) => Ok(None),
        Err(AskFault::Memory) => Err(AllocError),
    }
}
