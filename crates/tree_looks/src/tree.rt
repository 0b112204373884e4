//! The tree that a base automaton generates, with the nodes that were looked at.
use crate::dart::{NodeDart, TreeDart};
use crate::limits::MOST_NODES;
use crate::stuck::Stuck;
use cone_types::ConeType;
use std::alloc::{AllocError, Global};
use tile_kinds::{DartType, Tessellation};
use tree_model::Rule;

/// A node of the tree: a tile.
#[derive(Clone, Copy, Debug)]
struct Node {
    /// The number of its cone type.
    cone_type: u32,
    /// The dart of its parent that leads to it, or None for a root.
    above: Option<NodeDart>,
    /// How many crossings it is from the root.
    depth: u32,
    /// How many sides it has.
    sides: u8,
    /// Where its children stand in the list of all children, one entry a side.
    children: usize,
}

/// The part of the tree that was looked at. Nodes are numbered in the order in which they are made.
/// Darts and cone types that are not there are answered None.
#[derive(Drop)]
pub(crate) struct Tree<'a> {
    tess: &'a Tessellation,
    types: &'a [ConeType],
    nodes: Vec<Node>,
    /// For each side of each node the child across, where it is made.
    children: Vec<Option<u32>>,
}

impl<'a> Tree<'a> {
    /// A tree of which no node is made yet.
    pub(crate) fn new(alloc: Global, tess: &'a Tessellation, types: &'a [ConeType]) -> Tree<'a> {
        Tree {
            tess,
            types,
            nodes: Vec::new(alloc),
            children: Vec::new(alloc),
        }
    }

    /// Whether no more nodes are made.
    pub(crate) fn is_full(&self) -> bool {
        self.nodes.len() >= MOST_NODES
    }

    /// Makes the root of a kind. The roots are made first, in their order, so that each has the
    /// number of its kind.
    pub(crate) fn make_root(&mut self, kind: u32) -> Result<u32, Stuck> {
        self.make_node(kind, None, 0)
    }

    /// Makes a node.
    fn make_node(
        &mut self,
        cone_type: u32,
        above: Option<NodeDart>,
        depth: u32,
    ) -> Result<u32, Stuck> {
        let made = self.nodes.len();
        if made >= MOST_NODES {
            return Err(Stuck::Open);
        }
        let cone = self.types.get(cone_type as usize).ok_or(Stuck::Open)?;
        let sides = u8::try_from(cone.rules.len()).ok().ok_or(Stuck::Open)?;
        let children = self.children.len();
        for _side in 0..sides {
            self.children.push(None)?;
        }
        self.nodes.push(Node {
            cone_type,
            above,
            depth,
            sides,
            children,
        })?;
        Ok(made as u32)
    }

    /// The cone type of a node.
    pub(crate) fn cone(&self, node: u32) -> Option<&'a ConeType> {
        let node = self.nodes.get(node as usize)?;
        self.types.get(node.cone_type as usize)
    }

    /// The number of sides of a node.
    pub(crate) fn sides(&self, node: u32) -> Option<u8> {
        Some(self.nodes.get(node as usize)?.sides)
    }

    /// How many crossings a node is from its root.
    pub(crate) fn depth(&self, node: u32) -> Option<u32> {
        Some(self.nodes.get(node as usize)?.depth)
    }

    /// The rule of a dart.
    pub(crate) fn rule(&self, d: NodeDart) -> Option<Rule> {
        self.cone(d.node)?.rules.get(d.side as usize).copied()
    }

    /// The next side to the left.
    pub(crate) fn left(&self, d: NodeDart) -> Option<NodeDart> {
        let sides = self.sides(d.node)?;
        let next = d.side.checked_add(1)?;
        let side = if next == sides { 0 } else { next };
        Some(NodeDart { side, ..d })
    }

    /// The next side to the right.
    pub(crate) fn right(&self, d: NodeDart) -> Option<NodeDart> {
        let from = if d.side == 0 {
            self.sides(d.node)?
        } else {
            d.side
        };
        let side = from.checked_sub(1)?;
        Some(NodeDart { side, ..d })
    }

    /// The dart of the parent that leads to a node.
    pub(crate) fn above(&self, node: u32) -> Option<NodeDart> {
        self.nodes.get(node as usize)?.above
    }

    /// The child across a dart, which is made where it is not there yet.
    pub(crate) fn child(&mut self, d: NodeDart, cone_type: u32) -> Result<u32, Stuck> {
        let node = *self.nodes.get(d.node as usize).ok_or(Stuck::Open)?;
        let entry = node
            .children
            .checked_add(d.side as usize)
            .ok_or(Stuck::Open)?;
        let known = *self.children.get(entry).ok_or(Stuck::Open)?;
        if let Some(child) = known {
            return Ok(child);
        }
        let child = self.make_node(cone_type, Some(d), node.depth.saturating_add(1))?;
        *self.children.get_mut(entry).ok_or(Stuck::Open)? = Some(child);
        Ok(child)
    }

    /// The number of tiles round the corner at the left end of a dart.
    pub(crate) fn valence(&self, d: NodeDart) -> Option<u8> {
        let cone = self.cone(d.node)?;
        let kind = self.tess.all_kinds().get(cone.kind as usize)?;
        let residue = (cone.off as u16 + d.side as u16).checked_rem(kind.repeat as u16)?;
        kind.valence.get(residue as usize).copied()
    }

    /// A dart by its root and its name.
    pub(crate) fn named(&self, alloc: Global, d: NodeDart) -> Result<Option<TreeDart>, AllocError> {
        let mut name = Vec::new(alloc);
        let mut node = d.node;
        for _step in 0..self.depth(d.node).unwrap_or(0) {
            if let Some(above) = self.above(node) {
                name.push(above.side)?;
                node = above.node;
            }
        }
        name.as_mut_slice().reverse();
        let Ok(root) = u8::try_from(node) else {
            return Ok(None);
        };
        Ok(Some(TreeDart {
            root,
            name,
            side: d.side,
        }))
    }
}
