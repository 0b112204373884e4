//! The search for the first path that tells two states apart: pairs of states breadth first, where
//! those of one set are passed over.
ghost use Rattle.std.specs.Prelude.{◌≡◌, ◌∷◌, [], ◌<◌, ◌≤◌, ◌+◌, ℕ, List, length, reverse, true, false, IfOk, OnOk, IfSome, IfNone};
ghost use Rattle.tile_model.specs.Validity.{IsValid};
ghost use Rattle.tree_model.specs.Conditions.{IsAccepted};
ghost use Rattle.merge_model.specs.Telling.{IsFirstTelling};
ghost use Rattle.cell_names.specs.Name.{IsName};
ghost use Rattle.rules_tools.specs.Keys.{class_of as face_of};
ghost use Rattle.rules_tools.specs.Pairs.{pair_at, path_at};
ghost use Rattle.rules_tools.specs.Searches.{IsSearching, HasOneFace, AreChildren, AreNone, Keeps};

use crate::children::{child, count};
use crate::joined::{alone, join};
use crate::keys::class_of;
use crate::pairs::Pair;
use cell_names::Name;
use rules_data::Automaton;
use std::alloc::{AllocError, Global};
use tile_kinds::Tessellation;

/// Two states, the sets of states that were joined, and the pairs of states in the order of the
/// paths that lead to them.
#[derive(Debug, Drop)]
pub(crate) struct Search {
    pub(crate) first: u32,
    pub(crate) second: u32,
    pub(crate) above: Vec<Option<u32>>,
    pub(crate) queue: Vec<Pair>,
}

/// A queue of one pair.
fn queue_of(alloc: Global, pair: Pair) -> Result<Vec<Pair>, AllocError>
    ensures { IfOk result (λ v. v.items ≡ pair ∷ []) }
{
    let mut queue = Vec::new(alloc);
    queue.push(pair)?;
    Ok(queue)
}

/// Begins with the pair of two states.
pub(crate) fn begin(
    alloc: Global,
    tess: &Tessellation,
    a: &Automaton,
    first: u32,
    second: u32,
) -> Result<Search, AllocError>
    requires accepted { IsAccepted tess.now a.now }
    requires first { first < length a.now.states }
    requires second { second < length a.now.states }
    ensures searching { IfOk result (λ x. IsSearching tess.now a.now x 0 0) }
    ensures first { IfOk result (λ x. x.first ≡ first) }
    ensures second { IfOk result (λ x. x.second ≡ second) }
{
    let mut above = alone(alloc, count(a) as usize)?;
    join(&mut above, first, second);
    let pair = Pair {
        first,
        second,
        from: 0,
        side: 0,
    };
    Ok(Search {
        first,
        second,
        above,
        queue: queue_of(alloc, pair)?,
    })
}

/// The pair of an entry.
fn pair(x: &Search, entry: u32) -> Pair
    requires { entry < length x.now.queue.items }
    ensures { result ≡ pair_at x.now.queue.items entry }
{
    x.queue[entry as usize]
}

/// The pair of the children of an entry at a side, None where not both states have one.
fn children(x: &Search, a: &Automaton, entry: u32, side: u8) -> Option<Pair>
    requires entry { entry < length x.now.queue.items }
    requires first { (pair_at x.now.queue.items entry).first < length a.now.states }
    requires second { (pair_at x.now.queue.items entry).second < length a.now.states }
    ensures some { IfSome result (AreChildren a.now x.now entry side) }
    ensures none { IfNone result (AreNone a.now x.now entry side) }
{
    let pair = pair(x, entry);
    let first = child(a, pair.first, side as usize)?;
    let second = child(a, pair.second, side as usize)?;
    Some(Pair {
        first,
        second,
        from: entry,
        side,
    })
}

/// Whether the states of an entry have two faces, given by their numbers.
pub(crate) fn differ(x: &Search, faces: &[u32], entry: u32) -> bool
    requires { entry < length x.now.queue.items }
    ensures yes { result ≡ true → face_of faces.now (pair_at x.now.queue.items entry).first
        ≡ face_of faces.now (pair_at x.now.queue.items entry).second → ⊥ }
    ensures no { result ≡ false → face_of faces.now (pair_at x.now.queue.items entry).first
        ≡ face_of faces.now (pair_at x.now.queue.items entry).second }
{
    let pair = pair(x, entry);
    class_of(faces, pair.first) != class_of(faces, pair.second)
}

/// Goes through one side of an entry whose states have one face.
fn pass_side(
    x: &mut Search,
    tess: &Tessellation,
    a: &Automaton,
    next: u32,
    side: u8,
) -> Result<(), AllocError>
    requires accepted { IsAccepted tess.now a.now }
    requires first { x.old.first < length a.now.states }
    requires second { x.old.second < length a.now.states }
    requires within { next < length x.old.queue.items }
    requires face { HasOneFace a.now x.old next }
    requires side { side < 64 }
    requires searching { IsSearching tess.now a.now x.old next side }
    ensures searching { OnOk result (IsSearching tess.now a.now x.new next (side + 1)) }
    ensures kept { OnOk result (Keeps x.old x.new) }
{
    let Some(pair) = children(x, a, next, side) else {
        return Ok(());
    };
    if join(&mut x.above, pair.first, pair.second) {
        return Ok(());
    }
    x.queue.push(pair)?;
    Ok(())
}

/// Goes through an entry whose states have one face.
pub(crate) fn pass_entry(
    x: &mut Search,
    tess: &Tessellation,
    a: &Automaton,
    next: u32,
) -> Result<(), AllocError>
    requires valid { IsValid tess.now }
    requires accepted { IsAccepted tess.now a.now }
    requires first { x.old.first < length a.now.states }
    requires second { x.old.second < length a.now.states }
    requires within { next < length x.old.queue.items }
    requires face { HasOneFace a.now x.old next }
    requires searching { IsSearching tess.now a.now x.old next 0 }
    ensures searching { OnOk result (IsSearching tess.now a.now x.new (next + 1) 0) }
    ensures kept { OnOk result (Keeps x.old x.new) }
{
    for side in 0..64 {
        pass_side(x, tess, a, next, side)?;
    }
    Ok(())
}

/// The sides of the path of an entry, the last one first.
fn sides_back(
    alloc: Global,
    tess: &Tessellation,
    a: &Automaton,
    x: &Search,
    entry: u32,
) -> Result<Vec<u8>, AllocError>
    requires within { entry < length x.now.queue.items }
    requires searching { IsSearching tess.now a.now x.now entry 0 }
    ensures path { (h : IsSearching tess.now a.now x.now entry 0)
        → IfOk result (λ v. reverse v.items ≡ path_at h.paths entry) }
    ensures below { IfOk result (λ v. IsName v.items) }
{
    let mut sides = Vec::new(alloc);
    let mut at = entry;
    while at > 0 {
        let pair = pair(x, at);
        sides.push(pair.side)?;
        at = pair.from;
    }
    Ok(sides)
}

/// The path of an entry whose states have two faces.
pub(crate) fn path(
    alloc: Global,
    tess: &Tessellation,
    a: &Automaton,
    x: &Search,
    entry: u32,
) -> Result<Name, AllocError>
    requires within { entry < length x.now.queue.items }
    requires searching { IsSearching tess.now a.now x.now entry 0 }
    requires differ { HasOneFace a.now x.now entry → ⊥ }
    ensures { IfOk result (IsFirstTelling tess.now a.now x.now.first x.now.second) }
{
    let mut sides = sides_back(alloc, tess, a, x, entry)?;
    sides.reverse();
    let mut name = Name::root(alloc);
    name.rejoin(0, &sides)?;
    Ok(name)
}
