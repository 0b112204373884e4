//! `Spot`: a tile of the tree by its name, with the states on the way to it, and one of its sides.
ghost use Rattle.std.specs.Prelude.{◌≡◌, ◌≢◌, ◌<◌, ◌≤◌, suc, All, [], length, slice_index};
ghost use Rattle.std.specs.Prelude.{IfOk, OnOk, OnErr};
ghost use Rattle.structure_check.specs.Rules.{AreSound, TreeRules};
ghost use Rattle.tile_model.specs.Tessellations.{IsType};
ghost use Rattle.tree_model.specs.Automata.{state_at};
ghost use Rattle.tree_model.specs.Positions.{root, type_of_side};
ghost use Rattle.spot_laws.specs.Spots.{position, root_kind, tile_state, tile_sides, facing, rejoined};
ghost use Rattle.spot_laws.specs.Spots.{IsSpot, IsAt, FacesChild, IsAtChild, IsAtParent};

use cell_names::Name;
use smallvec::SmallVec;
use std::alloc::{AllocError, Global};
use std::marker::Model;
use structure_check::{Rules, side_type};
use tile_kinds::DartType;
use tree_model::Rule;

/// A tile of the tree by its name, the states on the path from the root to it, and the number of the side that is
/// faced.
/// Calls that take rules ask for a spot of these rules: its path is that of its name, and its side is one of its tile.
#[derive(Debug, Drop)]
pub struct Spot {
    name: Name,
    path: Vec<u32>,
    spin: u8,
}

impl Model for Spot {
    ghost use Rattle.std.specs.Prelude.{◌≡◌, suc, length};
    ghost use Rattle.spot_laws.specs.Spots.{TreeSpot};

    ghost Value = { TreeSpot };

    ghost view = { λ s. record { name = s.name; path = s.path.items; spin = s.spin } };

    ghost invariant = { λ s. length s.path.items ≡ suc (length s.name) };
}

impl Spot {
    /// Side 0 of the root of a kind, which is one of the tessellation.
    pub fn root(alloc: Global, r: &Rules, kind: u8) -> Result<Spot, AllocError>
        requires { kind < length r.now.kinds }
        ensures { IfOk result (λ s. IsAt r.now kind root s) }
    {
        let path = vec![in alloc; r.automaton().root(kind)]?;
        Ok(Spot {
            name: Name::root(alloc),
            path,
            spin: 0,
        })
    }

    /// Goes to side 0 of the child across the faced side. Out of memory the spot is as it was.
    pub fn down(&mut self, r: &Rules) -> Result<(), AllocError>
        requires spot { IsSpot r.now self.old }
        requires child { FacesChild r.now self.old }
        ensures child { OnOk result (IsAtChild r.now self.old self.new) }
        ensures unchanged { OnErr result (self.new ≡ self.old) }
    {
        let automaton = r.automaton();
        let Rule::Child(child) = automaton.rule(self.state(), self.spin) else {
            unreachable!()
        };
        self.rejoin(self.level(), &[self.spin], &[child], 0)
    }

    /// Goes to the parent, and faces the side across which this tile lies. The tile is no root.
    pub fn up(&mut self, r: &Rules)
        requires spot { IsSpot r.now self.old }
        requires no_root { self.old.name ≢ [] }
        ensures { IsAtParent r.now self.old self.new }
    {
        if let Some(side) = self.name.pop() {
            self.path.pop();
            self.spin = side;
        }
    }

    /// Faces this side of the tile. The name and the path are as before.
    pub fn face(&mut self, r: &Rules, spin: u8)
        requires spot { IsSpot r.now self.old }
        requires side { spin < tile_sides r.now self.old }
        ensures faces { self.new ≡ facing self.old spin }
        ensures spot { IsAt r.now (root_kind r.now self.old)
            (position (facing self.old spin)) self.new }
    {
        self.spin = spin;
    }

    /// Keeps the first `kept` sides of the name, goes on by other sides, each below 64, through these states, and faces
    /// a side.
    /// Out of memory the spot is as it was.
    pub fn rejoin(
        &mut self,
        kept: usize,
        sides: &[u8],
        states: &[u32],
        faced: u8,
    ) -> Result<(), AllocError>
        requires kept { kept ≤ length self.old.name }
        requires below { All (λ side. side < 64) sides.now }
        requires states { length states.now ≡ length sides.now }
        ensures rejoined { OnOk result
            (self.new ≡ rejoined self.old kept sides.now states.now faced) }
        ensures unchanged { OnErr result (self.new ≡ self.old) }
    {
        self.path.reserve(states.len())?;
        self.name.rejoin(kept, sides)?;
        self.path.truncate(kept + 1);
        self.spin = faced;
        self.path.extend_from_slice(states)
    }

    /// An equal spot.
    pub fn copy(&self, alloc: Global) -> Result<Spot, AllocError>
        ensures { IfOk result (λ s. s ≡ self.now) }
    {
        Ok(Spot {
            name: self.name.copy(alloc)?,
            path: Vec::from_slice(alloc, &self.path)?,
            spin: self.spin,
        })
    }

    /// The name of the tile.
    pub fn name(&self) -> &Name
        ensures { result.now ≡ self.now.name }
    {
        &self.name
    }

    /// The side that is faced.
    pub fn spin(&self) -> u8
        ensures { result ≡ self.now.spin }
    {
        self.spin
    }

    /// The number of sides of the name.
    pub fn level(&self) -> usize
        ensures { result ≡ length self.now.name }
    {
        self.name.len()
    }

    /// The states on the path, that of the root first and that of the tile last.
    pub fn path(&self) -> &[u32]
        ensures value { result.now ≡ self.now.path }
        ensures length { length result.now ≡ suc (length self.now.name) }
    {
        &self.path
    }

    /// The state of the tile, the last one on the path.
    pub fn state(&self) -> u32
        ensures last { result ≡ slice_index self.now.path (length self.now.name) }
        ensures reached { (rules : TreeRules) → IsSpot rules self.now
            → result ≡ tile_state rules self.now }
    {
        self.path[self.name.len()]
    }

    /// The kind of the tile.
    #[tactic(auto, using(spot_laws::proofs::Spots::tile_known))]
    pub fn kind(&self, r: &Rules) -> u8
        requires { IsSpot r.now self.now }
        ensures value { result ≡ (state_at r.now.automaton (tile_state r.now self.now)).kind }
        ensures known { result < length r.now.kinds }
    {
        r.automaton().state(self.state()).kind
    }

    /// The type of the faced side.
    pub fn faced_type(&self, r: &Rules) -> DartType
        requires { IsSpot r.now self.now }
        ensures value { result ≡ type_of_side r.now.kinds r.now.automaton (root_kind r.now self.now)
            (position self.now) }
        ensures is_type { IsType r.now.kinds result }
        ensures sound { AreSound r.now }
    {
        side_type(r.tessellation(), r.automaton(), self.state(), self.spin)
    }

    /// An empty list, which takes the memory that it comes to need from where the spot has its own.
    pub fn empty_list<T: Default + Drop, const N: usize>(&self) -> SmallVec<T, N>
        ensures { result.items ≡ [] }
    {
        SmallVec::new(*self.path.allocator())
    }
}
