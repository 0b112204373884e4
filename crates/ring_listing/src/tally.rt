//! `Tally`: the sizes of the first rings of a tree, and what is needed to count on.
ghost use Rattle.std.specs.Prelude.{◌≡◌, ◌≢◌, ℕ, ◌+◌, ◌*◌, ◌<◌, ◌≤◌, ◌⊎◌, All, [], length, IfOk, OnOk, OnErr, IfSome, IfNone, IsTrue, false, slice_index_or};
ghost use Rattle.tree_model.specs.Limits.{deepest, most_counted};
ghost use Rattle.ring_listing.specs.Populations.{children_sum, tiles_sum, offspring_sum, AreFamilies};
ghost use Rattle.ring_listing.specs.Rings.{RingsAreCounted, IsFirstTooBigRing};
ghost use Rattle.ring_listing.specs.Tallies.{IsTally};

use crate::family::{Children, Family};
use crate::fault::CountFault;
use std::alloc::{AllocError, Global};
use std::mem;
use structure_check::Rules;

/// The sizes of the first rings of the tree of a kind, as far as they were counted.
#[derive(Debug, Drop)]
pub(crate) struct Tally<'r> {
    pub(crate) rules: &'r Rules,
    pub(crate) kind: u8,
    /// The sizes, from ring 0 on.
    pub(crate) sizes: Vec<u128>,
    /// Whether the next ring has more than 2^128 - 1 names.
    pub(crate) is_full: bool,
    /// For each state the children of a tile in it. As what follows, it is empty where no ring was
    /// counted.
    families: Vec<Family>,
    /// For each state how many tiles of the last ring that was counted are in it.
    tiles: Vec<u128>,
    /// Room for as many numbers.
    room: Vec<u128>,
}

impl<'r> Tally<'r> {
    /// No ring is counted. It takes no memory.
    pub(crate) fn empty(alloc: Global, rules: &'r Rules, kind: u8) -> Tally<'r>
        requires { kind < length rules.now.kinds }
        ensures rules { result.rules.now ≡ rules.now }
        ensures kind { result.kind ≡ kind }
        ensures tally { IsTally result }
    {
        Tally {
            rules,
            kind,
            sizes: Vec::new(alloc),
            is_full: false,
            families: Vec::new(alloc),
            tiles: Vec::new(alloc),
            room: Vec::new(alloc),
        }
    }

    /// Ring 0 is counted.
    fn first(alloc: Global, rules: &'r Rules, kind: u8) -> Result<Tally<'r>, AllocError>
        requires { kind < length rules.now.kinds }
        ensures rules { IfOk result (λ t. t.rules.now ≡ rules.now) }
        ensures kind { IfOk result (λ t. t.kind ≡ kind) }
        ensures tally { IfOk result IsTally }
        ensures one { IfOk result (λ t. length t.sizes.items ≡ 1) }
    {
        let families = families(alloc, rules)?;
        let mut tiles = vec![in alloc; 0; families.len()]?;
        tiles[rules.automaton().root(kind) as usize] = 1;
        Ok(Tally {
            rules,
            kind,
            sizes: vec![in alloc; 1]?,
            is_full: false,
            tiles,
            room: vec![in alloc; 0; families.len()]?,
            families,
        })
    }

    /// Counts on until ring `d` is counted, or the next ring is too big. Out of memory it is as far
    /// as it came.
    pub(crate) fn count_to(&mut self, d: u32) -> Result<(), AllocError>
        requires { IsTally self.old }
        ensures rules { self.new.rules.now ≡ self.old.rules.now }
        ensures kind { self.new.kind ≡ self.old.kind }
        ensures tally { IsTally self.new }
        ensures counted { OnOk result
            ((d < length self.new.sizes.items) ⊎ IsTrue self.new.is_full) }
    {
        if self.sizes.is_empty() {
            *self = Tally::first(*self.sizes.allocator(), self.rules, self.kind)?;
        }
        while !self.is_full && self.sizes.len() <= d as usize {
            self.count_next()?;
        }
        Ok(())
    }

    /// The size of ring `d`, at most 4,000, where it is counted or the next ring is too big.
    ///
    /// # Errors
    ///
    /// `TooBig` with the first ring up to `d` that has more than 2^128 - 1 names, exactly where there
    /// is one.
    pub(crate) fn size(&self, d: u32) -> Result<u128, CountFault>
        requires tally { IsTally self.now }
        requires near { d ≤ deepest }
        requires known { (d < length self.now.sizes.items) ⊎ IsTrue self.now.is_full }
        ensures counted { IfOk result (λ n. RingsAreCounted self.now.rules.now.kinds
            self.now.rules.now.automaton self.now.kind d n) }
        ensures told { (n : ℕ) → RingsAreCounted self.now.rules.now.kinds
            self.now.rules.now.automaton self.now.kind d n → result ≡ Ok n }
        ensures too_big { (r : ℕ) → result ≡ Err (CountFault.TooBig r)
            → IsFirstTooBigRing self.now.rules.now.kinds self.now.rules.now.automaton
            self.now.kind d r }
        ensures big { (r : ℕ) → IsFirstTooBigRing self.now.rules.now.kinds
            self.now.rules.now.automaton self.now.kind d r
            → result ≡ Err (CountFault.TooBig r) }
        ensures near { result ≢ Err CountFault.Far }
    {
        let counted = self.sizes.len();
        if (d as usize) < counted {
            return Ok(self.sizes[d as usize]);
        }
        Err(CountFault::TooBig(counted as u32))
    }

    /// Counts the next ring. Out of memory it is as before.
    fn count_next(&mut self) -> Result<(), AllocError>
        requires tally { IsTally self.old }
        requires started { 0 < length self.old.sizes.items }
        requires not_full { self.old.is_full ≡ false }
        ensures rules { self.new.rules.now ≡ self.old.rules.now }
        ensures kind { self.new.kind ≡ self.old.kind }
        ensures tally { IsTally self.new }
        ensures further { OnOk result
            ((IsTrue self.new.is_full × (length self.new.sizes.items ≡ length self.old.sizes.items))
            ⊎ (length self.new.sizes.items ≡ length self.old.sizes.items + 1)) }
    {
        self.sizes.reserve(1)?;
        match next_tiles(&self.families, &self.tiles, &mut self.room) {
            Some(size) => {
                mem::swap(&mut self.tiles, &mut self.room);
                self.sizes.push_reserved(size);
            }
            None => self.is_full = true,
        }
        Ok(())
    }
}

/// The children of a tile in each state of the rules.
fn families(alloc: Global, r: &Rules) -> Result<Vec<Family>, AllocError>
    ensures { IfOk result (λ v. AreFamilies r.now.kinds r.now.automaton v.items) }
{
    let count = r.automaton().states.len() as u32;
    let mut families = Vec::new(alloc);
    for state in 0..count {
        families.push(Family::of(alloc, r, state)?)?;
    }
    Ok(families)
}

/// The number of all children of tiles, of which `tiles` tells how many are in each state, or None
/// where that is over 2^128 - 1. `next` is then how many children are in each state.
fn next_tiles(families: &[Family], tiles: &[u128], next: &mut [u128]) -> Option<u128>
    requires each { length families.now ≡ length tiles.now }
    requires known { (s : ℕ) → s < length families.now
        → All (λ c. c.state < length next.old) (slice_index_or families.now s []) }
    ensures sums { IfSome result (λ _. (f : ℕ → ℕ) → tiles_sum f 0 next.new
        ≡ tiles_sum (λ s. children_sum f (slice_index_or families.now s [])) 0 tiles.now) }
    ensures all { IfSome result (λ all. tiles_sum (λ _. 1) 0 next.new ≡ all) }
    ensures few { IfSome result (λ all. all ≤ most_counted) }
    ensures too_many { IfNone result (most_counted
        < tiles_sum (λ s. children_sum (λ _. 1) (slice_index_or families.now s [])) 0 tiles.now) }
{
    next.fill(0);
    let mut all = 0;
    for (state, family) in families.iter().enumerate() {
        all = add_children(next, all, tiles[state], family.children())?;
    }
    Some(all)
}

/// Adds the children of so many tiles, and answers the number of all children, which was `all`
/// before. None where that is over 2^128 - 1.
fn add_children(next: &mut [u128], all: u128, tiles: u128, children: &[Children]) -> Option<u128>
    requires all { tiles_sum (λ _. 1) 0 next.old ≡ all }
    requires known { All (λ c. c.state < length next.old) children.now }
    ensures sums { IfSome result (λ _. (f : ℕ → ℕ)
        → tiles_sum f 0 next.new ≡ tiles_sum f 0 next.old + tiles * children_sum f children.now) }
    ensures all { IfSome result (λ all. tiles_sum (λ _. 1) 0 next.new ≡ all) }
    ensures few { IfSome result (λ all. all ≤ most_counted) }
    ensures too_many { IfNone result
        (most_counted < all + tiles * children_sum (λ _. 1) children.now) }
{
    if tiles == 0 {
        return Some(all);
    }
    let mut sum = all;
    for child in children {
        let more = tiles.checked_mul(child.sides as u128)?;
        sum = sum.checked_add(more)?;
        add_tiles(next, child.state, more);
    }
    Some(sum)
}

/// Adds so many tiles in a state. With them there are at most 2^128 - 1.
fn add_tiles(next: &mut [u128], state: u32, more: u128)
    requires state { state < length next.old }
    requires few { tiles_sum (λ _. 1) 0 next.old + more ≤ most_counted }
    ensures { (f : ℕ → ℕ) → tiles_sum f 0 next.new ≡ tiles_sum f 0 next.old + more * f state }
{
    next[state as usize] += more;
}
