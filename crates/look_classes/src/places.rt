//! Places of darts round corners, their bases and outer sides, and the rules of sides.
ghost use Rattle.std.specs.Prelude.{◌≡◌, ℕ, ◌<◌, length, IfOk, IfSome};
ghost use Rattle.coincidence.specs.Cells.{IsLive};
ghost use Rattle.region_grower.specs.Ways.{IsDart};
ghost use Rattle.region_grower.specs.Corners.{valence_at};
ghost use Rattle.coincidence.specs.Tables.{joined_to};
ghost use Rattle.coincidence.specs.Joined.{IsTable};
ghost use Rattle.look_classes.specs.Tree.{holds, sides_of, counted};
ghost use Rattle.look_classes.specs.Places.{is_key, placed, place, outer_side, rule_of, other_rule};
ghost use Rattle.look_classes.specs.Classes.{sides_below, made};
ghost use Rattle.look_classes.specs.Codes.{AreStarts, number_at};

use crate::contour::keys;
use crate::rule::SideRule;
use crate::tree::{Tree, made_sides, number, over, right};
use coincidence::Dart;
use region_grower::Region;
use std::alloc::{AllocError, Global};
use std::marker::Model;

/// The valence of the corner at the left end of a dart, 3 to 64.
pub(crate) fn valence(region: &Region<'_>, d: Dart) -> u8
    requires { IsDart region.now.table d }
    ensures { result ≡ valence_at region.now.table d }
{
    let joins = region.joins();
    joins.tessellation().valence(joins.type_of(d))
}

/// The number of the sides of the cells before each one.
fn starts(alloc: Global, region: &Region<'_>) -> Result<Vec<u32>, AllocError>
    ensures { IfOk result (λ starts. AreStarts region.now starts.items) }
{
    let _joins = region.joins();
    let made = region.made();
    let mut starts = Vec::with_capacity(alloc, made as usize)?;
    let mut start = 0;
    for cell in 0..made {
        starts.push(start)?;
        start += u32::from(made_sides(region, cell));
    }
    Ok(starts)
}

/// A region with its tree, which darts are at place 0, and at what index the sides of each cell
/// begin in a list of the sides of all cells.
#[derive(Debug, Drop)]
pub(crate) struct Places<'g, 't> {
    tree: Tree<'g, 't>,
    keys: Vec<bool>,
    starts: Vec<u32>,
}

impl<'g, 't> Model for Places<'g, 't> {
    ghost use Rattle.region_grower.specs.Regions.{RegionState};
    ghost use Rattle.look_classes.specs.Contours.{AreKeys};
    ghost use Rattle.look_classes.specs.Codes.{AreStarts};

    ghost Value = { RegionState };

    ghost view = { λ p. p.tree };

    ghost invariant = { λ p. AreKeys p.tree p.keys.items × AreStarts p.tree p.starts.items };
}

impl<'g, 't> Places<'g, 't> {
    /// The places of a region.
    pub(crate) fn of(alloc: Global, region: &'g Region<'t>) -> Result<Places<'g, 't>, AllocError>
        ensures { IfOk result (λ p. p ≡ region.now) }
    {
        let tree = Tree::of(alloc, region)?;
        let keys = keys(alloc, &tree)?;
        let starts = starts(alloc, region)?;
        Ok(Places { tree, keys, starts })
    }

    /// The region.
    pub(crate) fn region(&self) -> &'g Region<'t>
        ensures value { result.now ≡ self.now }
        ensures table { IsTable self.now.table }
    {
        self.tree.region()
    }

    /// Side `j` of a live cell, counted from its parent side, or from side 0 of the first cell.
    pub(crate) fn counted(&self, cell: u32, j: u8) -> Dart
        requires live { IsLive self.now.table.cells cell }
        requires side { j < sides_of self.now cell }
        ensures value { result ≡ counted self.now cell j }
        ensures dart { IsDart self.now.table result }
    {
        self.tree.counted(cell, j)
    }

    /// Whether a dart of a live cell is at place 0.
    fn is_key(&self, d: Dart) -> bool
        requires { IsDart self.now.table d }
        ensures { result ≡ is_key self.now d }
    {
        self.keys[number(self.region(), d) as usize]
    }

    /// The place of a dart of a live cell and its base; None where it has none.
    pub(crate) fn placed(&self, d: Dart) -> Option<(u8, Dart)>
        requires { IsDart self.now.table d }
        ensures value { result ≡ placed self.now d }
        ensures dart { IfSome result (λ b. IsDart self.now.table b.1) }
    {
        let region = self.region();
        let mut at = d;
        for place in 0..valence(region, d) {
            if self.is_key(at) {
                return Some((place, at));
            }
            match over(region, at) {
                Some(over) => at = right(region, over),
                None => return None,
            }
        }
        None
    }

    /// The place of a dart of a live cell; None where it has none.
    pub(crate) fn place(&self, d: Dart) -> Option<u8>
        requires { IsDart self.now.table d }
        ensures { result ≡ place self.now d }
    {
        match self.placed(d) {
            Some((place, _)) => Some(place),
            None => None,
        }
    }

    /// The side next to the right of the base of a dart of a live cell; None where it has no place.
    pub(crate) fn outer_side(&self, d: Dart) -> Option<Dart>
        requires { IsDart self.now.table d }
        ensures value { result ≡ outer_side self.now d }
        ensures dart { IfSome result (IsDart self.now.table) }
    {
        match self.placed(d) {
            Some((_, base)) => Some(right(self.region(), base)),
            None => None,
        }
    }

    /// Whether the dart joined to a dart of a live cell is at place 0.
    fn is_key_over(&self, d: Dart) -> bool
        requires { IsDart self.now.table d }
        ensures { result ≡ holds (is_key self.now) (joined_to self.now.table d) }
    {
        match over(self.region(), d) {
            Some(over) => self.is_key(over),
            None => false,
        }
    }

    /// The rule of a dart of a live cell that is not counted as 0.
    fn other_rule(&self, d: Dart) -> Option<SideRule>
        requires { IsDart self.now.table d }
        ensures { result ≡ other_rule self.now d }
    {
        if self.tree.is_child(d) {
            Some(SideRule::Child)
        } else if self.is_key(d) {
            Some(SideRule::Left)
        } else if self.is_key_over(d) {
            Some(SideRule::Right)
        } else {
            None
        }
    }

    /// The rule of side `j` of a live cell, counted from its parent side; None where it has none.
    pub(crate) fn rule(&self, cell: u32, j: u8) -> Option<SideRule>
        requires live { IsLive self.now.table.cells cell }
        requires side { j < sides_of self.now cell }
        ensures { result ≡ rule_of self.now cell j }
    {
        if j == 0 && self.tree.parent(cell).is_some() {
            return Some(SideRule::Parent);
        }
        self.other_rule(self.tree.counted(cell, j))
    }

    /// The number of the corner of a dart of a live cell in a list of those of all sides.
    pub(crate) fn number(&self, numbers: &[Option<u32>], d: Dart) -> Option<u32>
        requires dart { IsDart self.now.table d }
        requires long { length numbers.now ≡ length (sides_below (made self.now) self.now) }
        ensures { result ≡ number_at self.now numbers.now d }
    {
        let _region = self.region();
        numbers[(self.starts[d.cell as usize] + u32::from(d.side)) as usize]
    }
}
