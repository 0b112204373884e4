//! The darts that a look at an open corner comes by.
ghost use Rattle.std.specs.Prelude.{◌≤◌, length, IfOk, IfSome};

use crate::dart::{NodeDart, TreeDart};
use crate::limits::MOST_NOTED;
use crate::looks::Looks;
use crate::scout::Scout;
use crate::stuck::Stuck;
use crate::trail::Trail;
use crate::tree::Tree;
use cone_types::ConeType;
use std::alloc::{AllocError, Global};
use tile_kinds::Tessellation;
use tree_model::Rule;

/// The darts that a look at a corner comes by, in order, each once: one of them, or one next to
/// them, shows why the corner does not close. The corner is that at the left end of a dart, and is
/// looked at to a horizon as `split_by_looks` does. None where the corner closes, or the tree has
/// no such dart. There are at most 8,000.
///
/// # Errors
///
/// `AllocError` where there is no memory.
pub fn way_of_look(
    alloc: Global,
    tess: &Tessellation,
    types: &[ConeType],
    corner: &TreeDart,
    horizon: u32,
) -> Result<Option<Vec<TreeDart>>, AllocError>
    ensures { IfOk result (λ o. IfSome o (λ way. length way.items ≤ 8000)) }
{
    let mut scout = Scout::new(alloc, Tree::new(alloc, tess, types));
    match find(&mut scout, tess.kinds(), corner) {
        Ok(d) => look(alloc, scout, d, horizon),
        Err(Stuck::Open) => Ok(None),
        Err(Stuck::Memory) => Err(AllocError),
    }
}

/// The dart of the tree with a name, once the nodes of the name are made.
fn find(scout: &mut Scout<'_>, kinds: u16, named: &TreeDart) -> Result<NodeDart, Stuck> {
    for kind in 0..kinds {
        scout.tree.make_root(kind as u32)?;
    }
    let mut node = named.root as u32;
    for side in named.name.iter() {
        let d = NodeDart { node, side: *side };
        let Some(Rule::Child(cone_type)) = scout.tree.rule(d) else {
            return Err(Stuck::Open);
        };
        node = scout.tree.child(d, cone_type)?;
    }
    let d = NodeDart {
        node,
        side: named.side,
    };
    match scout.tree.rule(d) {
        Some(_) => Ok(d),
        None => Err(Stuck::Open),
    }
}

/// Looks at the corner at the left end of a dart, and tells the darts that it comes by where the
/// corner does not close.
fn look(
    alloc: Global,
    scout: Scout<'_>,
    d: NodeDart,
    horizon: u32,
) -> Result<Option<Vec<TreeDart>>, AllocError>
    ensures { IfOk result (λ o. IfSome o (λ way. length way.items ≤ 8000)) }
{
    let mut scout = scout;
    scout.trail = Trail::of(alloc, MOST_NOTED);
    match Looks::new(alloc).add_look(&mut scout, d, horizon, &mut Vec::new(alloc)) {
        Ok(()) => return Ok(None),
        Err(Stuck::Open) => {}
        Err(Stuck::Memory) => return Err(AllocError),
    }
    let mut way = Vec::with_capacity(alloc, scout.trail.darts().len())?;
    for noted in scout.trail.darts() {
        if let Some(dart) = scout.tree.named(alloc, *noted)? {
            way.push(dart)?;
        }
    }
    way.truncate(MOST_NOTED as usize);
    Ok(Some(way))
}
