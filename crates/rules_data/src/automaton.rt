//! The automaton, and the entries of its tables by number.
ghost use Rattle.std.specs.Prelude.{◌≡◌, ◌<◌, ◌++◌, length, drop, IfOk};
ghost use Rattle.tree_model.specs.Automata.{TreeAutomaton, state_at, corner_at, root_at, rule_at, claim_at, offset as offset_at, outer as outer_of, corner_valence};

use crate::corner::Corner;
use crate::state::State;
use std::alloc::{AllocError, Global};
use std::marker::Model;
use tree_model::{Claim, Rule};

/// An automaton: its states, its corner types, and for each kind the state of a root of this kind.
/// Any tables are allowed: the numbers of states and corner types that they name may be
/// out of range.
#[derive(Debug, Drop)]
pub struct Automaton {
    pub states: Vec<State>,
    pub corners: Vec<Corner>,
    pub roots: Vec<u32>,
}

impl Model for Automaton {
    ghost use Rattle.tree_model.specs.Automata.{TreeAutomaton};

    ghost Value = { TreeAutomaton };

    ghost view = { λ a. record {
      states = a.states.items;
      corners = a.corners.items;
      roots = a.roots.items;
    } };
}

impl Automaton {
    /// State `s`, below the number of states.
    #[tactic(auto, using(std::proofs::lemmas::List::get_or_default), unfolding(tree_model::specs::Automata::state_at))]
    pub fn state(&self, s: u32) -> &State
        requires { s < length self.now.states }
        ensures { result.now ≡ state_at self.now s }
    {
        &self.states[s as usize]
    }

    /// Corner type `g`, below the number of corner types.
    #[tactic(auto, using(std::proofs::lemmas::List::get_or_default), unfolding(tree_model::specs::Automata::corner_at))]
    pub fn corner(&self, g: u32) -> &Corner
        requires { g < length self.now.corners }
        ensures { result.now ≡ corner_at self.now g }
    {
        &self.corners[g as usize]
    }

    /// The state of a root of kind `k`, below the number of roots.
    #[tactic(auto, using(std::proofs::lemmas::List::get_or_default), unfolding(tree_model::specs::Automata::root_at))]
    pub fn root(&self, k: u8) -> u32
        requires { k < length self.now.roots }
        ensures { result ≡ root_at self.now k }
    {
        self.roots[k as usize]
    }

    /// The rule of side `i` in state `s`, both in range.
    #[tactic(auto, using(std::proofs::lemmas::List::get_or_default), unfolding(tree_model::specs::Automata::rule_at))]
    pub fn rule(&self, s: u32, i: u8) -> Rule
        requires state { s < length self.now.states }
        requires side { i < length (state_at self.now s).rules }
        ensures { result ≡ rule_at self.now s i }
    {
        self.state(s).rules[i as usize]
    }

    /// The claim of corner `i` in state `s`, both in range.
    #[tactic(auto, using(std::proofs::lemmas::List::get_or_default), unfolding(tree_model::specs::Automata::claim_at))]
    pub fn claim(&self, s: u32, i: u8) -> Claim
        requires state { s < length self.now.states }
        requires corner { i < length (state_at self.now s).claims }
        ensures { result ≡ claim_at self.now s i }
    {
        self.state(s).claims[i as usize]
    }

    /// The number of tiles round a corner of type `g`, below the number of corner types.
    #[tactic(auto, using(std::proofs::lemmas::List::get_or_default), unfolding(tree_model::specs::Automata::corner_valence))]
    pub fn valence(&self, g: u32) -> usize
        requires { g < length self.now.corners }
        ensures { result ≡ corner_valence self.now g }
    {
        self.corner(g).offsets.len()
    }

    /// The offset of corner type `g` at place `t`, both in range.
    #[tactic(auto, using(std::proofs::lemmas::List::get_or_default), unfolding(tree_model::specs::Automata::offset, tree_model::specs::Automata::corner_valence))]
    pub fn offset(&self, g: u32, t: u8) -> i8
        requires corner { g < length self.now.corners }
        requires place { t < corner_valence self.now g }
        ensures { result ≡ offset_at self.now g t }
    {
        self.corner(g).offsets[t as usize]
    }

    /// The corner at the other end of the key edge of corner type `g`, below the number of corner
    /// types.
    #[tactic(auto, using(std::proofs::lemmas::List::get_or_default), unfolding(tree_model::specs::Automata::outer))]
    pub fn outer(&self, g: u32) -> Claim
        requires { g < length self.now.corners }
        ensures { result ≡ outer_of self.now g }
    {
        self.corner(g).outer
    }

    /// An equal automaton. Only want of memory refuses it.
    pub fn copy(&self, alloc: Global) -> Result<Automaton, AllocError>
        ensures equal { IfOk result (λ a. a ≡ self.now) }
    {
        Ok(Automaton {
            states: copy_states(alloc, &self.states)?,
            corners: copy_corners(alloc, &self.corners)?,
            roots: Vec::from_slice(alloc, &self.roots)?,
        })
    }
}

fn copy_states(alloc: Global, states: &[State]) -> Result<Vec<State>, AllocError>
    ensures equal { IfOk result (λ v. v.items ≡ states.now) }
{
    let mut copies = Vec::with_capacity(alloc, states.len())?;
    for state in states {
        copies.push(state.copy(alloc)?)?;
    }
    Ok(copies)
}

fn copy_corners(alloc: Global, corners: &[Corner]) -> Result<Vec<Corner>, AllocError>
    ensures equal { IfOk result (λ v. v.items ≡ corners.now) }
{
    let mut copies = Vec::with_capacity(alloc, corners.len())?;
    for corner in corners {
        copies.push(corner.copy(alloc)?)?;
    }
    Ok(copies)
}
