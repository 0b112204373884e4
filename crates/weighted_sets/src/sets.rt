// The sets, and the differences in them.
ghost use Rattle.std.specs.Prelude.{◌≡◌, ◌<◌, ◌≤◌, ◌↔◌, ◌+◌, ℕ, ℤ, length, IfOk, IfSome, OnOk, OnErr, OnSome, IsNone, IsErrOf, ◌⊎◌, if◌then◌else◌};
ghost use Rattle.weighted_sets.specs.Sets.{Keep, AreApart, IsKnown, IsRoot, KeepRoots, KeepSame, KeepMore, IsContradiction, link_at};

use crate::fault::TieFault;
use crate::shift::Shift;
use std::alloc::{AllocError, Global};
use std::marker::Model;

/// A link of an element to one before it, and its place and depth less those of that one; or to
/// itself, with no difference.
#[derive(Clone, Copy, Debug, PartialEq, Eq)]
struct Link {
    above: u32,
    shift: Shift,
}

impl Model for Link {
    ghost use Rattle.weighted_sets.specs.Sets.{Link};

    ghost Value = { Link };

    ghost view = { λ l. record { above = l.above; shift = l.shift } };

    ghost inverse = { λ l. record { above = l.above; shift = l.shift } };
}

/// The root of the set of an element, and the place and the depth of the element less those of the
/// root.
#[derive(Clone, Copy, Debug, PartialEq, Eq)]
pub struct Found {
    pub root: u32,
    pub shift: Shift,
}

/// Sets of elements, numbered from 0. Of the places and the depths of two elements of one set the
/// differences are known, of others nothing is. The root of a set is its first element. (Union-find
/// with path halving: R. E. Tarjan and J. van Leeuwen, "Worst-case analysis of set union
/// algorithms", Journal of the ACM 31, 1984.)
#[derive(Debug, Drop)]
pub struct WeightedSets {
    links: Vec<Link>,
    count: u32,
}

impl Model for WeightedSets {
    ghost use Rattle.weighted_sets.specs.Sets.{Sets, AreSets};

    ghost Value = { Sets };

    ghost view = { λ s. record { links = s.links.items; count = s.count } };

    ghost invariant = { λ s. AreSets (record { links = s.links.items; count = s.count }) };
}

impl WeightedSets {
    /// Each of so many elements in a set of its own.
    ///
    /// # Errors
    ///
    /// `AllocError` where there is no memory, and only there.
    #[tactic(auto, using(crate::proofs::Alone::one_more, crate::proofs::Alone::alone_sets, crate::proofs::Alone::alone_free))]
    pub fn alone(alloc: Global, elements: u32) -> Result<WeightedSets, AllocError>
        ensures elements { IfOk result (λ s. length s.links ≡ elements) }
        ensures count { IfOk result (λ s. s.count ≡ elements) }
        ensures free { IfOk result (λ s. (places depths : ℕ → ℤ) → Keep places depths s.links) }
    {
        let mut links = Vec::with_capacity(alloc, elements as usize)?;
        for element in 0..elements {
            links.push(Link {
                above: element,
                shift: Shift::NONE,
            })?;
        }
        Ok(WeightedSets {
            links,
            count: elements,
        })
    }

    /// The number of sets.
    pub fn count(&self) -> u32
        ensures { result ≡ self.now.count }
    {
        self.count
    }

    /// The link of an element.
    #[tactic(auto, using(std::proofs::lemmas::List::get_or_default), unfolding(crate::specs::Sets::link_at))]
    fn link(&self, x: u32) -> Link
        requires { x < length self.now.links }
        ensures link { result ≡ link_at self.now.links x }
        ensures before { result.above ≤ x }
    {
        self.links[x as usize]
    }

    /// Links an element that is no root to what the one above it is linked to. Answers that link,
    /// or None where a difference is out of range, and then nothing has changed.
    #[tactic(auto, using(crate::proofs::Halving::halved_same, crate::proofs::Halving::halved_roots, crate::proofs::Halving::halved_sets, crate::proofs::Halving::at_it, crate::proofs::Apart::same_of, crate::proofs::Apart::roots_of))]
    fn halve(&mut self, at: u32) -> Option<Link>
        requires element { at < length self.old.links }
        requires below { (link_at self.old.links at).above < at }
        ensures length { length self.new.links ≡ length self.old.links }
        ensures same { KeepSame self.old.links self.new.links }
        ensures count { self.new.count ≡ self.old.count }
        ensures roots { KeepRoots self.old.links self.new.links }
        ensures link { IfSome result (λ l. l ≡ link_at self.new.links at) }
        ensures before { IfSome result (λ l. l.above < at) }
    {
        let link = self.link(at);
        let over = self.link(link.above);
        let halved = Link {
            above: over.above,
            shift: over.shift.plus(link.shift)?,
        };
        self.links[at as usize] = halved;
        Some(halved)
    }

    /// The root of the set of an element, and how far the element is from it. Which differences are
    /// known stays the same.
    ///
    /// # Errors
    ///
    /// - `Unknown` where there is no such element, and only there.
    /// - `Overflow` where a difference on the way is out of range.
    #[tactic(auto, using(crate::proofs::Apart::same_trans, crate::proofs::Apart::same_of, crate::proofs::Apart::roots_of, crate::proofs::Apart::roots_trans, crate::proofs::Apart::known_self, crate::proofs::Apart::known_up))]
    pub fn find(&mut self, x: u32) -> Result<Found, TieFault>
        ensures elements { length self.new.links ≡ length self.old.links }
        ensures count { self.new.count ≡ self.old.count }
        ensures same { KeepSame self.old.links self.new.links }
        ensures roots { KeepRoots self.old.links self.new.links }
        ensures root { IfOk result (λ f. IsRoot self.new.links f.root) }
        ensures element { IfOk result (λ f. f.root < length self.new.links) }
        ensures shift { IfOk result (λ f. IsKnown self.new.links f.root x f.shift) }
        ensures unknown { IsErrOf result TieFault.Unknown ↔ (length self.old.links ≤ x) }
        ensures contradiction { IsErrOf result TieFault.Contradiction → ⊥ }
    {
        if x as usize >= self.links.len() {
            return Err(TieFault::Unknown);
        }
        let mut at = x;
        let mut shift = Shift::NONE;
        while self.link(at).above < at {
            let link = self.halve(at).ok_or(TieFault::Overflow)?;
            shift = link.shift.plus(shift).ok_or(TieFault::Overflow)?;
            at = link.above;
        }
        Ok(Found { root: at, shift })
    }

    /// Links a root to an element before it.
    fn hang(&mut self, root: u32, above: u32, shift: Shift)
        requires element { root < length self.old.links }
        requires root { IsRoot self.old.links root }
        requires before { above < root }
        ensures elements { length self.new.links ≡ length self.old.links }
        ensures more { KeepMore self.old.links self.new.links above root shift }
        ensures count { self.new.count + 1 ≡ self.old.count }
    {
        self.count -= 1;
        self.links[root as usize] = Link { above, shift };
    }

    /// The roots of the sets of two elements, and how far the elements are from them. Which
    /// differences are known stays the same.
    #[tactic(auto, using(crate::proofs::Apart::same_trans, crate::proofs::Apart::known_same, crate::proofs::Apart::root_kept))]
    fn find_both(&mut self, x: u32, y: u32) -> Result<(Found, Found), TieFault>
        ensures elements { length self.new.links ≡ length self.old.links }
        ensures count { self.new.count ≡ self.old.count }
        ensures same { KeepSame self.old.links self.new.links }
        ensures first_root { IfOk result (λ f. IsRoot self.new.links f.0.root) }
        ensures second_root { IfOk result (λ f. IsRoot self.new.links f.1.root) }
        ensures first { IfOk result (λ f. f.0.root < length self.new.links) }
        ensures second { IfOk result (λ f. f.1.root < length self.new.links) }
        ensures unknown { IsErrOf result TieFault.Unknown
            → (length self.old.links ≤ x) ⊎ (length self.old.links ≤ y) }
        ensures first_shift { IfOk result (λ f. IsKnown self.new.links f.0.root x f.0.shift) }
        ensures second_shift { IfOk result (λ f. IsKnown self.new.links f.1.root y f.1.shift) }
        ensures contradiction { IsErrOf result TieFault.Contradiction → ⊥ }
    {
        let first = self.find(x)?;
        let second = self.find(y)?;
        Ok((first, second))
    }

    /// Makes one set of the sets of two roots, of which the second one lies by a shift from the
    /// first one. None where a difference is out of range, and then nothing has changed.
    #[tactic(auto, using(crate::proofs::Apart::more_reversed))]
    fn unite(&mut self, first: u32, second: u32, shift: Shift) -> Option<()>
        requires first { first < length self.old.links }
        requires second { second < length self.old.links }
        requires first_root { IsRoot self.old.links first }
        requires second_root { IsRoot self.old.links second }
        requires two { ¬ (first ≡ second) }
        ensures elements { length self.new.links ≡ length self.old.links }
        ensures more { OnSome result (KeepMore self.old.links self.new.links first second shift) }
        ensures count { OnSome result (self.new.count + 1 ≡ self.old.count) }
        ensures unchanged { IsNone result → self.new ≡ self.old }
    {
        if first < second {
            self.hang(second, first, shift);
        } else {
            let back = Shift::NONE.minus(shift)?;
            self.hang(first, second, back);
        }
        Some(())
    }

    /// Takes over that the second element lies by a shift from the first one, and makes one set of
    /// theirs. Answers whether they were in two sets. After an error the same differences are known
    /// as before.
    ///
    /// # Errors
    ///
    /// - `Unknown` only where one of the elements is not there.
    /// - `Contradiction` only where another difference of the two is known.
    /// - `Overflow` where a difference is out of range.
    #[tactic(auto, using(crate::proofs::Apart::more_of_roots, crate::proofs::Apart::already, crate::proofs::Apart::contradicted))]
    pub fn tie(&mut self, x: u32, y: u32, shift: Shift) -> Result<bool, TieFault>
        ensures elements { length self.new.links ≡ length self.old.links }
        ensures more { OnOk result (KeepMore self.old.links self.new.links x y shift) }
        ensures count { IfOk result (λ two. self.new.count + (if two then 1 else 0)
            ≡ self.old.count) }
        ensures contradiction { IsErrOf result TieFault.Contradiction
            → IsContradiction self.old.links x y shift }
        ensures unknown { IsErrOf result TieFault.Unknown
            → (length self.old.links ≤ x) ⊎ (length self.old.links ≤ y) }
        ensures same { OnErr result (KeepSame self.old.links self.new.links) }
        ensures same_count { OnErr result (self.new.count ≡ self.old.count) }
    {
        let (first, second) = self.find_both(x, y)?;
        let wanted = first.shift.plus(shift).ok_or(TieFault::Overflow)?;
        if first.root == second.root {
            if second.shift == wanted {
                return Ok(false);
            }
            return Err(TieFault::Contradiction);
        }
        let over = wanted.minus(second.shift).ok_or(TieFault::Overflow)?;
        self.unite(first.root, second.root, over)
            .ok_or(TieFault::Overflow)?;
        Ok(true)
    }
}
