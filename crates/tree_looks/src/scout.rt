//! Crossings of the sides of the tree. Sides outside the tree are crossed by brackets, at no cost
//! in cells.
use crate::dart::NodeDart;
use crate::limits::MOST_STEPS;
use crate::stuck::Stuck;
use crate::trail::Trail;
use crate::tree::Tree;
use std::alloc::Global;
use tree_model::Rule;

/// One that walks in the tree, and notes the darts that it comes by.
#[derive(Drop)]
pub(crate) struct Scout<'a> {
    pub(crate) tree: Tree<'a>,
    pub(crate) trail: Trail,
}

impl<'a> Scout<'a> {
    /// A scout that notes nothing.
    pub(crate) fn new(alloc: Global, tree: Tree<'a>) -> Scout<'a> {
        Scout {
            tree,
            trail: Trail::of(alloc, 0),
        }
    }

    /// The dart across.
    pub(crate) fn cross(&mut self, d: NodeDart) -> Result<NodeDart, Stuck> {
        self.trail.note(d)?;
        let rule = self.tree.rule(d).ok_or(Stuck::Open)?;
        match rule {
            Rule::Left | Rule::Right => self.matching(d, rule),
            _ => self.cross_in_tree(d, rule),
        }
    }

    /// The dart across a Parent or a Child side.
    fn cross_in_tree(&mut self, d: NodeDart, rule: Rule) -> Result<NodeDart, Stuck> {
        match rule {
            Rule::Parent => self.tree.above(d.node).ok_or(Stuck::Open),
            Rule::Child(cone_type) => {
                let node = self.tree.child(d, cone_type)?;
                Ok(NodeDart { node, side: 0 })
            }
            Rule::Left | Rule::Right => Err(Stuck::Open),
        }
    }

    /// The dart that matches a Left or a Right side as brackets match, along the contour of the
    /// tree: to the left from a Left side, to the right from a Right side.
    fn matching(&mut self, d: NodeDart, opening: Rule) -> Result<NodeDart, Stuck> {
        let mut at = d;
        let mut brackets: u32 = 1;
        for _step in 0..MOST_STEPS {
            let next = if opening == Rule::Left {
                self.tree.left(at)
            } else {
                self.tree.right(at)
            };
            at = next.ok_or(Stuck::Open)?;
            self.trail.note(at)?;
            match self.tree.rule(at).ok_or(Stuck::Open)? {
                rule if rule == opening => brackets = brackets.saturating_add(1),
                Rule::Left | Rule::Right => brackets = brackets.saturating_sub(1),
                rule => at = self.cross_in_tree(at, rule)?,
            }
            if brackets == 0 {
                return Ok(at);
            }
        }
        Err(Stuck::Open)
    }
}
