//! Cone types are split where the looks of their corners differ.
ghost use Rattle.std.specs.Prelude.{length, IfOk};
ghost use Rattle.tree_looks.specs.Splits.{IsWithin};

use crate::dart::{NodeDart, TreeDart};
use crate::limits::Limits;
use crate::looks::Looks;
use crate::scout::Scout;
use crate::stuck::Stuck;
use crate::tree::Tree;
use cone_types::ConeType;
use indexmap::IndexSet;
use std::alloc::{AllocError, Global};
use tile_kinds::Tessellation;
use tree_model::Rule;

/// What looks at all corners came to.
#[derive(Debug, Drop)]
pub enum Split {
    /// The cone types, split where looks differ.
    Types(Vec<ConeType>),
    /// Corners that do not close, each by a dart whose left end it is. None where there are too
    /// many cone types and no open corner was met.
    Open(Vec<TreeDart>),
}

/// Splits the cone types of a base automaton by looks: tiles of one new cone type have one old cone
/// type and corners that look alike, so far as the first of them shows in the tree. The look of a
/// corner is the tile's place there, the depths of the tiles round it, and likewise for so many
/// corners outside it as the horizon says. Cone type `k`, below the number of kinds, is the root of
/// kind `k`, before and after; the others are numbered in the order in which they are first met.
///
/// There are at least the roots and at most `limits.types` cone types. Or no more than
/// `limits.open` corners are told; none where the limits were met before an open corner, or a root
/// has no cone type.
///
/// # Errors
///
/// `AllocError` where there is no memory.
pub fn split_by_looks(
    alloc: Global,
    tess: &Tessellation,
    types: &[ConeType],
    horizon: u32,
    limits: Limits,
) -> Result<Split, AllocError>
    ensures { IfOk result (IsWithin (length tess.now) limits) }
{
    let kinds = tess.kinds();
    let mut splitter = Splitter::new(alloc, Tree::new(alloc, tess, types), horizon, limits);
    match splitter.split_all(kinds) {
        Ok(split) if split.len() >= kinds as usize && split.len() <= limits.types => {
            Ok(Split::Types(split))
        }
        Ok(_) | Err(Stuck::Open) => {
            let mut open = splitter.open;
            open.truncate(limits.open);
            Ok(Split::Open(open))
        }
        Err(Stuck::Memory) => Err(AllocError),
    }
}

/// The splitting of cone types. Each new cone type has a node of the tree that stands for it.
#[derive(Drop)]
struct Splitter<'a> {
    alloc: Global,
    horizon: u32,
    limits: Limits,
    scout: Scout<'a>,
    looks: Looks,
    /// The nodes that stand for the new cone types, by their numbers; first the roots.
    nodes: Vec<u32>,
    /// The old cone type and the looks of all corners, of each new cone type but for the roots.
    keys: IndexSet<Vec<u32>>,
    /// The open corners.
    open: Vec<TreeDart>,
}

impl<'a> Splitter<'a> {
    /// Nothing is split yet.
    fn new(alloc: Global, tree: Tree<'a>, horizon: u32, limits: Limits) -> Splitter<'a> {
        Splitter {
            alloc,
            horizon,
            limits,
            scout: Scout::new(alloc, tree),
            looks: Looks::new(alloc),
            nodes: Vec::new(alloc),
            keys: IndexSet::new(alloc),
            open: Vec::new(alloc),
        }
    }

    /// The new cone types, those of the roots first. They are open where a corner is, or where they
    /// are more than may be.
    fn split_all(&mut self, kinds: u16) -> Result<Vec<ConeType>, Stuck> {
        for kind in 0..kinds {
            let root = self.scout.tree.make_root(kind as u32)?;
            self.nodes.push(root)?;
        }
        let mut split = Vec::new(self.alloc);
        for number in 0..self.limits.types {
            let Some(&node) = self.nodes.get(number) else {
                break;
            };
            split.push(self.split_node(node)?)?;
            if self.nodes.len() > self.limits.types {
                break;
            }
        }
        if !self.open.is_empty() || split.len() < self.nodes.len() {
            return Err(Stuck::Open);
        }
        Ok(split)
    }

    /// The new cone type that a node stands for.
    fn split_node(&mut self, node: u32) -> Result<ConeType, Stuck> {
        let cone = self.scout.tree.cone(node).ok_or(Stuck::Open)?;
        let mut rules = Vec::with_capacity(self.alloc, cone.rules.len())?;
        for (side, rule) in (0..=u8::MAX).zip(cone.rules.iter()) {
            let d = NodeDart { node, side };
            rules.push(self.split_rule(d, *rule)?)?;
        }
        Ok(ConeType {
            kind: cone.kind,
            off: cone.off,
            rules,
        })
    }

    /// The rule of a side of a new cone type. A child that is seen for the first time stands for a
    /// further one.
    fn split_rule(&mut self, d: NodeDart, rule: Rule) -> Result<Rule, Stuck> {
        let Rule::Child(old) = rule else {
            return Ok(rule);
        };
        let child = self.scout.tree.child(d, old)?;
        let Some(key) = self.key_of(child, old)? else {
            return Ok(rule);
        };
        let roots = self.nodes.len().saturating_sub(self.keys.len());
        let (number, is_new) = self.keys.insert_full(key)?;
        if is_new {
            self.nodes.push(child)?;
        }
        let number = number.checked_add(roots).ok_or(Stuck::Open)?;
        Ok(Rule::Child(u32::try_from(number).ok().ok_or(Stuck::Open)?))
    }

    /// The old cone type of a node and the looks of its corners, or None where one is open.
    fn key_of(&mut self, node: u32, old: u32) -> Result<Option<Vec<u32>>, Stuck> {
        let mut key = vec![in self.alloc; old]?;
        let mut is_whole = true;
        for side in 0..self.scout.tree.sides(node).ok_or(Stuck::Open)? {
            let d = NodeDart { node, side };
            if !self.is_closed(d, &mut key)? {
                self.tell(d)?;
                is_whole = false;
            }
        }
        Ok(if is_whole { Some(key) } else { None })
    }

    /// Whether the corner at the left end of a dart closes. Its look is added to a key.
    fn is_closed(&mut self, d: NodeDart, key: &mut Vec<u32>) -> Result<bool, Stuck> {
        match self.looks.add_look(&mut self.scout, d, self.horizon, key) {
            Ok(()) => Ok(true),
            Err(Stuck::Open) => Ok(false),
            Err(Stuck::Memory) => Err(Stuck::Memory),
        }
    }

    /// Tells an open corner. Gets stuck where enough of them were told.
    fn tell(&mut self, d: NodeDart) -> Result<(), Stuck> {
        if let Some(corner) = self.scout.tree.named(self.alloc, d)? {
            self.open.push(corner)?;
        }
        if self.open.len() >= self.limits.open || self.scout.tree.is_full() {
            return Err(Stuck::Open);
        }
        Ok(())
    }
}
