//! The tree in a region: the parent side of each cell, and the contour of the tree.
ghost use Rattle.std.specs.Prelude.{◌≡◌, ◌*◌, ◌<◌, ◌≤◌, length, IfOk, IfSome};
ghost use Rattle.coincidence.specs.Cells.{IsLive};
ghost use Rattle.coincidence.specs.Darts.{pack, unpack};
ghost use Rattle.coincidence.specs.Tables.{joined_to};
ghost use Rattle.coincidence.specs.Joined.{IsTable};
ghost use Rattle.region_grower.specs.Ways.{IsDart};
ghost use Rattle.look_classes.specs.Tree.{distance, sides_of, dart_of, left_of, right_of, leads_nearer, is_last, least_below, parent_side, is_parent, is_child, in_tree, counted};
ghost use Rattle.look_classes.specs.Contours.{contour_back};

use coincidence::Dart;
use region_grower::Region;
use std::alloc::{AllocError, Global};
use std::marker::Model;

/// The number of darts for which each cell has room in a list of all darts.
pub(crate) const WIDTH: u32 = 64;

/// The distance of a live cell from the first one, at most 1,000,000.
pub(crate) fn distance(region: &Region<'_>, cell: u32) -> u32
    requires { IsLive region.now.table.cells cell }
    ensures value { result ≡ distance region.now cell }
    ensures at_most { result ≤ 1000000 }
{
    match region.radius(cell) {
        Some(radius) => radius,
        None => 0,
    }
}

/// The number of sides of a cell that was made, 3 to 64.
pub(crate) fn made_sides(region: &Region<'_>, cell: u32) -> u8
    requires { cell < length region.now.table.origins }
    ensures value { result ≡ sides_of region.now cell }
    ensures at_least { 3 ≤ result }
    ensures at_most { result ≤ 64 }
{
    let joins = region.joins();
    joins
        .tessellation()
        .sides(joins.type_of(Dart { cell, side: 0 }))
}

/// The number of sides of a live cell, 3 to 64.
pub(crate) fn sides(region: &Region<'_>, cell: u32) -> u8
    requires { IsLive region.now.table.cells cell }
    ensures value { result ≡ sides_of region.now cell }
    ensures at_least { 3 ≤ result }
    ensures at_most { result ≤ 64 }
{
    let _joins = region.joins();
    made_sides(region, cell)
}

/// The number of a dart of a live cell, of which each cell has 64.
pub(crate) fn number(region: &Region<'_>, d: Dart) -> u32
    requires { IsDart region.now.table d }
    ensures value { result ≡ pack d }
    ensures below { result < 64 * length region.now.table.origins }
    ensures few { result < 64000000 }
{
    let _joins = region.joins();
    d.cell * WIDTH + u32::from(d.side)
}

/// The dart of a number.
pub(crate) fn numbered(number: u32) -> Dart
    ensures { result ≡ unpack number }
{
    Dart {
        cell: number / WIDTH,
        side: (number % WIDTH) as u8,
    }
}

/// The dart that a dart is joined to, which is one of a live cell.
pub(crate) fn over(region: &Region<'_>, d: Dart) -> Option<Dart>
    ensures value { result ≡ joined_to region.now.table d }
    ensures dart { IfSome result (IsDart region.now.table) }
{
    region.joins().joined(d)
}

/// The dart that side `side` of a live cell is.
pub(crate) fn dart(region: &Region<'_>, cell: u32, side: u8) -> Dart
    requires { IsLive region.now.table.cells cell }
    ensures value { result ≡ dart_of region.now cell side }
    ensures dart { IsDart region.now.table result }
{
    let turn = region.joins().turn(cell);
    Dart {
        cell,
        side: side % turn,
    }
}

/// The next dart to the left.
fn left(region: &Region<'_>, d: Dart) -> Dart
    requires { IsDart region.now.table d }
    ensures value { result ≡ left_of region.now d }
    ensures dart { IsDart region.now.table result }
{
    let _joins = region.joins();
    dart(region, d.cell, d.side + 1)
}

/// The next dart to the right.
pub(crate) fn right(region: &Region<'_>, d: Dart) -> Dart
    requires { IsDart region.now.table d }
    ensures value { result ≡ right_of region.now d }
    ensures dart { IsDart region.now.table result }
{
    let _joins = region.joins();
    let sides = sides(region, d.cell);
    dart(region, d.cell, d.side + (sides - 1))
}

/// Whether a dart is joined to a cell that is one nearer to the first one.
fn leads_nearer(region: &Region<'_>, d: Dart) -> bool
    requires { IsDart region.now.table d }
    ensures { result ≡ leads_nearer region.now d }
{
    match over(region, d) {
        Some(over) => distance(region, over.cell) + 1 == distance(region, d.cell),
        None => false,
    }
}

/// Whether a dart leads nearer, and the next one to its left does not.
fn is_last(region: &Region<'_>, d: Dart) -> bool
    requires { IsDart region.now.table d }
    ensures { result ≡ is_last region.now d }
{
    leads_nearer(region, d) && !leads_nearer(region, left(region, d))
}

/// The last side of a live cell with the least number.
fn last_side(region: &Region<'_>, cell: u32) -> Option<u8>
    requires { IsLive region.now.table.cells cell }
    ensures { result
        ≡ least_below (sides_of region.now cell)
        (λ i. is_last region.now (dart_of region.now cell i)) }
{
    for side in 0..sides(region, cell) {
        if is_last(region, dart(region, cell, side)) {
            return Some(side);
        }
    }
    None
}

/// The side of a live cell with the least number that leads nearer.
fn near_side(region: &Region<'_>, cell: u32) -> Option<u8>
    requires { IsLive region.now.table.cells cell }
    ensures { result
        ≡ least_below (sides_of region.now cell)
        (λ i. leads_nearer region.now (dart_of region.now cell i)) }
{
    for side in 0..sides(region, cell) {
        if leads_nearer(region, dart(region, cell, side)) {
            return Some(side);
        }
    }
    None
}

/// The parent side of a live cell; None for the first one.
fn parent_of(region: &Region<'_>, cell: u32) -> Option<u8>
    requires { IsLive region.now.table.cells cell }
    ensures { result ≡ parent_side region.now cell }
{
    match last_side(region, cell) {
        Some(side) => Some(side),
        None => near_side(region, cell),
    }
}

/// The parent side of a cell, if it is live.
fn parent_if_live(region: &Region<'_>, cell: u32) -> Option<u8>
    ensures { IsLive region.now.table.cells cell → result ≡ parent_side region.now cell }
{
    if region.joins().alive(cell) {
        return parent_of(region, cell);
    }
    None
}

/// A region, which is borrowed, and the parent side of each of its live cells.
#[derive(Debug, Drop)]
pub(crate) struct Tree<'g, 't> {
    region: &'g Region<'t>,
    parents: Vec<Option<u8>>,
}

impl<'g, 't> Model for Tree<'g, 't> {
    ghost use Rattle.region_grower.specs.Regions.{RegionState};
    ghost use Rattle.look_classes.specs.Contours.{AreParents};

    ghost Value = { RegionState };

    ghost view = { λ t. t.region.now };

    ghost invariant = { λ t. AreParents t.region.now t.parents.items };
}

impl<'g, 't> Tree<'g, 't> {
    /// The tree of a region.
    pub(crate) fn of(alloc: Global, region: &'g Region<'t>) -> Result<Tree<'g, 't>, AllocError>
        ensures { IfOk result (λ t. t ≡ region.now) }
    {
        let _joins = region.joins();
        let made = region.made();
        let mut parents = Vec::with_capacity(alloc, made as usize)?;
        for cell in 0..made {
            parents.push(parent_if_live(region, cell))?;
        }
        Ok(Tree { region, parents })
    }

    /// The region.
    pub(crate) fn region(&self) -> &'g Region<'t>
        ensures value { result.now ≡ self.now }
        ensures table { IsTable self.now.table }
    {
        let _joins = self.region.joins();
        self.region
    }

    /// The parent side of a live cell; None for the first one.
    pub(crate) fn parent(&self, cell: u32) -> Option<u8>
        requires { IsLive self.now.table.cells cell }
        ensures { result ≡ parent_side self.now cell }
    {
        let _joins = self.region.joins();
        self.parents[cell as usize]
    }

    /// Whether a dart is the parent side of its cell.
    pub(crate) fn is_parent(&self, d: Dart) -> bool
        requires { IsDart self.now.table d }
        ensures { result ≡ is_parent self.now d }
    {
        match self.parent(d.cell) {
            Some(side) => side == d.side,
            None => false,
        }
    }

    /// Whether a dart is joined to the parent side of another cell.
    pub(crate) fn is_child(&self, d: Dart) -> bool
        requires { IsDart self.now.table d }
        ensures { result ≡ is_child self.now d }
    {
        match over(self.region, d) {
            Some(over) => self.is_parent(over),
            None => false,
        }
    }

    /// Whether a dart is the parent side of its cell, or joined to that of another one.
    pub(crate) fn holds(&self, d: Dart) -> bool
        requires { IsDart self.now.table d }
        ensures { result ≡ in_tree self.now d }
    {
        self.is_parent(d) || self.is_child(d)
    }

    /// Side `j` of a live cell, counted from its parent side, or from side 0 of the first cell.
    pub(crate) fn counted(&self, cell: u32, j: u8) -> Dart
        requires live { IsLive self.now.table.cells cell }
        requires side { j < sides_of self.now cell }
        ensures value { result ≡ counted self.now cell j }
        ensures dart { IsDart self.now.table result }
    {
        let _joins = self.region.joins();
        let parent = match self.parent(cell) {
            Some(side) => side,
            None => 0,
        };
        dart(self.region, cell, parent + j)
    }

    /// The dart from which one step of the leftward contour leads to this one.
    pub(crate) fn before(&self, d: Dart) -> Dart
        requires { IsDart self.now.table d }
        ensures value { result ≡ contour_back self.now d }
        ensures dart { IsDart self.now.table result }
    {
        if self.holds(d) {
            if let Some(over) = over(self.region, d) {
                return right(self.region, over);
            }
        }
        right(self.region, d)
    }
}
