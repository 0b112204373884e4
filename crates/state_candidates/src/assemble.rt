//! The automaton that is read with readers.
ghost use Rattle.std.specs.Prelude.{length, IfOk, IfSome, IfNone};
ghost use Rattle.tree_model.specs.Automata.{TreeAutomaton};
ghost use Rattle.state_candidates.specs.Gathered.{AreReaders, HaveStates, HaveCorners, HaveRoots, LackStates, LackCorners, LackRoots, IsAssembled};

use crate::reader::Reader;
use crate::rows::{push_corners, push_states};
use rules_data::{Automaton, Corner, State};
use std::alloc::{AllocError, Global};

/// The states of all readers; None where one is not there.
fn states_of(alloc: Global, readers: &[Reader]) -> Result<Option<Vec<State>>, AllocError>
    requires { AreReaders readers.now }
    ensures some { IfOk result
        (λ o. IfSome o (λ v. HaveStates readers.now v.items (length readers.now))) }
    ensures none { IfOk result (λ o. IfNone o (LackStates readers.now)) }
{
    let mut states = Vec::new(alloc);
    for reader in readers {
        if !push_states(alloc, reader, &mut states)? {
            return Ok(None);
        }
    }
    Ok(Some(states))
}

/// The corner types of all readers; None where one is not there.
fn corners_of(alloc: Global, readers: &[Reader]) -> Result<Option<Vec<Corner>>, AllocError>
    requires { AreReaders readers.now }
    ensures some { IfOk result
        (λ o. IfSome o (λ v. HaveCorners readers.now v.items (length readers.now))) }
    ensures none { IfOk result (λ o. IfNone o (LackCorners readers.now)) }
{
    let mut corners = Vec::new(alloc);
    for reader in readers {
        if !push_corners(alloc, reader, &mut corners)? {
            return Ok(None);
        }
    }
    Ok(Some(corners))
}

/// The roots of all readers; None where one is not there.
fn roots_of(alloc: Global, readers: &[Reader]) -> Result<Option<Vec<u32>>, AllocError>
    ensures some { IfOk result
        (λ o. IfSome o (λ v. HaveRoots readers.now v.items (length readers.now))) }
    ensures none { IfOk result (λ o. IfNone o (LackRoots readers.now)) }
{
    let mut roots = Vec::new(alloc);
    for reader in readers {
        let Some(root) = reader.root() else {
            return Ok(None);
        };
        roots.push(root)?;
    }
    Ok(Some(roots))
}

/// The automaton that is read with readers; None where there is none.
pub(crate) fn assemble(alloc: Global, readers: &[Reader]) -> Result<Option<Automaton>, AllocError>
    requires { AreReaders readers.now }
    ensures some { IfOk result (λ o. IfSome o (IsAssembled readers.now)) }
    ensures none { IfOk result (λ o. IfNone o ((a : TreeAutomaton)
        → IsAssembled readers.now a → ⊥)) }
{
    let Some(roots) = roots_of(alloc, readers)? else {
        return Ok(None);
    };
    let Some(states) = states_of(alloc, readers)? else {
        return Ok(None);
    };
    let Some(corners) = corners_of(alloc, readers)? else {
        return Ok(None);
    };
    Ok(Some(Automaton {
        states,
        corners,
        roots,
    }))
}
