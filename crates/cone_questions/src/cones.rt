//! The base automaton that the answers of some cells make.
ghost use Rattle.std.specs.Prelude.{◌≡◌, ◌+◌, ◌≤◌, length, IfOk, IfSome, IsTrue};

use crate::fault::AskFault;
use crate::limits::MOST_TYPES;
use crate::questions::Questions;
use crate::sides::{Side, all_sides};
use crate::steps::across;
use cell_patches::{PatchDart, Patches};
use cone_types::{ConeType, Rule};
use indexmap::IndexMap;
use std::alloc::{AllocError, Global};

/// The node of a root, which no cell comes to.
const NO_NODE: u32 = u32::MAX;

/// A base automaton, and for each of its cone types a cell, by its parent side, and the node of the
/// discrimination tree that stands for it. The start cells are those of the first cone types, and
/// are not asked.
#[derive(Drop)]
pub struct Cones {
    pub types: Vec<ConeType>,
    pub(crate) kinds: usize,
    pub(crate) cells: Vec<PatchDart>,
    nodes: Vec<u32>,
    numbers: IndexMap<u32, u32>,
}

impl Cones {
    /// The start cells, before they are asked anything.
    fn start(alloc: Global, patches: &Patches, kinds: u16) -> Result<Cones, AllocError>
        ensures types { IfOk result (λ c. length c.types.items ≡ 0) }
        ensures cells { IfOk result (λ c. length c.cells.items ≡ kinds) }
    {
        let mut cells = Vec::new(alloc);
        for kind in 0..kinds {
            cells.push(patches.start_of(kind.min(255) as u8))?;
        }
        Ok(Cones {
            types: Vec::new(alloc),
            kinds: kinds as usize,
            cells,
            nodes: vec![in alloc; NO_NODE; kinds as usize]?,
            numbers: IndexMap::new(alloc),
        })
    }

    /// The node that stands for a cone type.
    pub(crate) fn node(&self, cone_type: u32) -> u32 {
        let node = self.nodes.get(cone_type as usize);
        node.copied().unwrap_or(NO_NODE)
    }

    /// The cell of a cone type.
    pub(crate) fn cell(&self, cone_type: u32) -> Option<PatchDart> {
        self.cells.get(cone_type as usize).copied()
    }

    /// The rule of a side of a cone type.
    pub(crate) fn rule(&self, cone_type: usize, side: u8) -> Option<Rule> {
        let cone_type = self.types.get(cone_type)?;
        cone_type.rules.get(side as usize).copied()
    }

    /// The number of the cone type that a node stands for, that of a new one with its cell where
    /// none is known.
    pub(crate) fn number(&mut self, node: u32, cell: PatchDart) -> Result<u32, AskFault>
        ensures types { self.new.types ≡ self.old.types }
        ensures cells { length self.old.cells.items ≤ length self.new.cells.items }
    {
        if let Some(known) = self.numbers.get(&node) {
            return Ok(*known);
        }
        let Ok(number) = u32::try_from(self.cells.len()) else {
            return Err(AskFault::Memory);
        };
        self.numbers.insert(node, number)?;
        self.nodes.push(node)?;
        self.cells.push(cell)?;
        Ok(number)
    }

    /// From now on another node stands for a cone type.
    pub(crate) fn rename(&mut self, cone_type: u32, node: u32) -> Result<(), AskFault>
        ensures types { self.new.types ≡ self.old.types }
        ensures cells { self.new.cells ≡ self.old.cells }
    {
        self.numbers.insert(node, cone_type)?;
        if let Some(name) = self.nodes.get_mut(cone_type as usize) {
            *name = node;
        }
        Ok(())
    }

    /// Notes that a side of a cone type leads to a child of another one.
    pub(crate) fn set_child(&mut self, cone_type: usize, side: u8, child: u32)
        ensures types { length self.new.types.items ≡ length self.old.types.items }
        ensures cells { self.new.cells ≡ self.old.cells }
    {
        if let Some(cone_type) = self.types.get_mut(cone_type) {
            if let Some(rule) = cone_type.rules.get_mut(side as usize) {
                *rule = Rule::Child(child);
            }
        }
    }
}

impl Questions {
    /// The base automaton that is read off the cells: first the start cells, and then, for each
    /// list of answers that is met, the first cell that gave it. None where a cell has less than a
    /// full turn, so that there are finitely many tiles, or where there are over 20,000 cone types.
    ///
    /// # Errors
    ///
    /// `Full` where cells are wanted and as many are made as may be, `Memory` where there is none.
    pub fn pass(&mut self, patches: &mut Patches, kinds: u16) -> Result<Option<Cones>, AskFault>
        ensures most { patches.new.most ≡ patches.old.most }
        ensures types { IfOk result (λ o. IfSome o (λ cones.
            length cones.types.items ≤ 20000)) }
    {
        let mut cones = Cones::start(self.alloc, patches, kinds)?;
        if self.read_rest(patches, &mut cones)? {
            Ok(Some(cones))
        } else {
            Ok(None)
        }
    }

    /// Reads the cone types that have a cell and were not read. Answers false where a cell has less
    /// than a full turn, or there are over 20,000 cone types.
    pub(crate) fn read_rest(
        &mut self,
        patches: &mut Patches,
        cones: &mut Cones,
    ) -> Result<bool, AskFault>
        ensures most { patches.new.most ≡ patches.old.most }
        ensures types { IfOk result (λ whole. IsTrue whole
            → length cones.new.types.items ≤ 20000) }
        ensures kept { length cones.old.types.items ≤ length cones.new.types.items }
    {
        for number in cones.types.len()..=MOST_TYPES {
            let Some(cell) = cones.cells.get(number).copied() else {
                return Ok(true);
            };
            if !self.read_type(patches, cones, cell)? {
                return Ok(false);
            }
        }
        Ok(false)
    }

    /// Reads the next cone type off its cell. Answers false where the cell has less than a full
    /// turn.
    fn read_type(
        &mut self,
        patches: &mut Patches,
        cones: &mut Cones,
        cell: PatchDart,
    ) -> Result<bool, AskFault>
        ensures types { IfOk result (λ whole. IsTrue whole
            → length cones.new.types.items ≡ length cones.old.types.items + 1) }
        ensures kept { length cones.old.types.items ≤ length cones.new.types.items }
        ensures cells { length cones.old.cells.items ≤ length cones.new.cells.items }
        ensures most { patches.new.most ≡ patches.old.most }
    {
        let sides = all_sides(self.alloc, patches, cell)?;
        if patches.turn(patches.named(cell)) != patches.sides(cell) {
            return Ok(false);
        }
        let mut rules = Vec::with_capacity(self.alloc, sides.len())?;
        for (i, side) in (0..u8::MAX).zip(&sides) {
            let rule = match *side {
                Side::Parent => Rule::Parent,
                Side::Left => Rule::Left,
                Side::Right | Side::Open => Rule::Right,
                Side::Child => self.read_child(patches, cones, cell, i)?,
            };
            rules.push(rule)?;
        }
        let dart_type = patches.type_of(patches.named(cell));
        cones.types.push(ConeType {
            kind: dart_type.kind,
            off: dart_type.residue,
            rules,
        })?;
        Ok(true)
    }

    /// The rule of a side that leads to a child.
    fn read_child(
        &mut self,
        patches: &mut Patches,
        cones: &mut Cones,
        cell: PatchDart,
        side: u8,
    ) -> Result<Rule, AskFault>
        ensures types { cones.new.types ≡ cones.old.types }
        ensures cells { length cones.old.cells.items ≤ length cones.new.cells.items }
        ensures most { patches.new.most ≡ patches.old.most }
    {
        let Some(child) = across(patches, cell, side) else {
            return Ok(Rule::Right);
        };
        let node = self.sift(patches, child)?;
        let child = across(patches, cell, side).unwrap_or(child);
        Ok(Rule::Child(cones.number(node, child)?))
    }
}
