//! `Trail`: the way through the tree along all names of one length, in order.
ghost use Rattle.std.specs.Prelude.{◌≡◌, suc, ◌-◌, ◌<◌, ◌≤◌, ◌∷◌, [], length, slice_set, slice_index_or, true, false, IfOk, IfSome, IfNone};
ghost use Rattle.tree_model.specs.Automata.{root_at, side_count};
ghost use Rattle.tree_model.proofs.Rings.{names_below};
ghost use Rattle.ring_listing.specs.Trails.{IsTrail, IsNextSide, IsDone, HasNoChild, tile_state, names_left, moves_left};

use cell_names::Name;
use rules_data::Rule;
use std::alloc::{AllocError, Global};
use structure_check::Rules;

/// A tile on the way through the tree, and the side from which the way goes on. Its name are the
/// first sides of `name`, as many as the level; behind them stand sides of earlier names.
#[derive(Debug, Drop)]
pub(crate) struct Trail {
    name: Name,
    /// The states from that of the root to that of the tile, and then those of earlier tiles.
    states: Vec<u32>,
    level: usize,
    /// The side from which a child is sought. At the last level, 0 where the name was not yet given,
    /// and 1 where it was.
    side: u8,
}

impl Trail {
    /// In front of the first name of `d` sides. All room is taken here.
    pub(crate) fn start(alloc: Global, r: &Rules, kind: u8, d: u32) -> Result<Trail, AllocError>
        requires kind { kind < length r.now.kinds }
        ensures trail { IfOk result (IsTrail r.now kind) }
        ensures sides { IfOk result (λ t. length t.name ≡ d) }
        ensures all { IfOk result (λ t. names_left r.now kind t
            ≡ names_below r.now.kinds r.now.automaton d (root_at r.now.automaton kind)) }
    {
        let mut name = Name::root(alloc);
        for side in 0..d {
            name.push(0)?;
        }
        let states = vec![in alloc; r.automaton().root(kind); d as usize + 1]?;
        Ok(Trail {
            name,
            states,
            level: 0,
            side: 0,
        })
    }

    /// Goes to the next name and answers it, or None where there is none.
    pub(crate) fn advance(&mut self, r: &Rules, kind: u8) -> bool
        requires { IsTrail r.now kind self.old }
        ensures trail { IsTrail r.now kind self.new }
        ensures sides { length self.new.name ≡ length self.old.name }
        ensures next { result ≡ true
            → names_left r.now kind self.old ≡ self.new.name ∷ names_left r.now kind self.new }
        ensures end { result ≡ false → names_left r.now kind self.old ≡ [] }
        ensures ended { result ≡ false → names_left r.now kind self.new ≡ [] }
    {
        while self.level < self.name.len() || self.side > 0 {
            if !self.move_on(r, kind) {
                return false;
            }
        }
        self.side = 1;
        true
    }

    /// The name.
    pub(crate) fn name(&self) -> &Name
        ensures { result.now ≡ self.now.name }
    {
        &self.name
    }

    /// Goes down to the next child, or back to the parent where there is none. False where the tile
    /// is the root and has no further child.
    fn move_on(&mut self, r: &Rules, kind: u8) -> bool
        requires trail { IsTrail r.now kind self.old }
        requires given { self.old.level ≡ length self.old.name → 0 < self.old.side }
        ensures trail { IsTrail r.now kind self.new }
        ensures sides { length self.new.name ≡ length self.old.name }
        ensures same { names_left r.now kind self.new ≡ names_left r.now kind self.old }
        ensures fewer { result ≡ true → moves_left self.new < moves_left self.old }
        ensures end { result ≡ false → names_left r.now kind self.new ≡ [] }
    {
        match self.next_side(r, kind) {
            Some((side, child)) => self.go_down(side, child),
            None if self.level == 0 => return false,
            None => self.go_back(),
        }
        true
    }

    /// The next side that leads to a child, and the child's state. None at the last level.
    fn next_side(&self, r: &Rules, kind: u8) -> Option<(u8, u32)>
        requires trail { IsTrail r.now kind self.now }
        requires given { self.now.level ≡ length self.now.name → 0 < self.now.side }
        ensures next { IfSome result (λ found.
            IsNextSide r.now.kinds r.now.automaton (tile_state r.now kind self.now) self.now.side
            found.0 found.1) }
        ensures level { IfSome result (λ _. self.now.level < length self.now.name) }
        ensures below { IfSome result (λ found. found.0 < 64) }
        ensures none { IfNone result (IsDone r.now.kinds r.now.automaton
            (length self.now.name - self.now.level) (tile_state r.now kind self.now)
            self.now.side) }
    {
        if self.level == self.name.len() {
            return None;
        }
        next_child(r, self.states[self.level], self.side)
    }

    /// Goes down across a side, below 64, to a child in a state.
    fn go_down(&mut self, side: u8, child: u32)
        requires level { self.old.level < length self.old.name }
        requires room { length self.old.states.items ≡ suc (length self.old.name) }
        requires side { side < 64 }
        ensures name { self.new.name ≡ slice_set self.old.name self.old.level side }
        ensures states { self.new.states.items
            ≡ slice_set self.old.states.items (suc self.old.level) child }
        ensures level { self.new.level ≡ suc self.old.level }
        ensures first { self.new.side ≡ 0 }
    {
        self.name.set(self.level, side);
        self.level += 1;
        self.states[self.level] = child;
        self.side = 0;
    }

    /// Goes back to the parent, to the side behind that of this tile.
    fn go_back(&mut self)
        requires below { 0 < self.old.level }
        requires level { self.old.level ≤ length self.old.name }
        ensures name { self.new.name ≡ self.old.name }
        ensures states { self.new.states ≡ self.old.states }
        ensures level { self.old.level ≡ suc self.new.level }
        ensures behind { self.new.side ≡ suc (slice_index_or self.old.name self.new.level 0) }
        ensures small { self.new.side ≤ 64 }
    {
        self.level -= 1;
        self.side = self.name.sides()[self.level] + 1;
    }
}

/// The first side from `side` on of a tile in a state that leads to a child, and the child's state.
fn next_child(r: &Rules, state: u32, side: u8) -> Option<(u8, u32)>
    requires { state < length r.now.automaton.states }
    ensures next { IfSome result (λ found.
        IsNextSide r.now.kinds r.now.automaton state side found.0 found.1) }
    ensures below { IfSome result (λ found. found.0 < 64) }
    ensures none { IfNone result (HasNoChild r.now.automaton state side
        (side_count r.now.kinds r.now.automaton state)) }
{
    let automaton = r.automaton();
    let sides = automaton.state(state).rules.len() as u8;
    for i in side..sides {
        if let Rule::Child(child) = automaton.rule(state, i) {
            return Some((i, child));
        }
    }
    None
}
