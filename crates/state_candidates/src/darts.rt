//! Darts of a region, and how far their cells lie from the first one.
ghost use Rattle.std.specs.Prelude.{◌≡◌, ◌+◌, ◌<◌, ◌≤◌, length, slice_index, IfSome, IfNone, None};
ghost use Rattle.coincidence.specs.Cells.{IsLive};
ghost use Rattle.coincidence.specs.Tables.{joined_to};
ghost use Rattle.coincidence.specs.Joined.{IsTable};
ghost use Rattle.region_grower.specs.Ways.{IsDart, IsRadius};
ghost use Rattle.region_grower.specs.Corners.{further as further_of};
ghost use Rattle.look_classes.specs.Tree.{sides_of, dart_of, left_of, distance as distance_of};
ghost use Rattle.state_candidates.specs.Stops.{IsStop, IsNextStop};

use coincidence::Dart;
use region_grower::Region;

/// The number of sides of a cell that was made, 3 to 64.
pub(crate) fn sides(region: &Region<'_>, cell: u32) -> u8
    requires { cell < length region.now.table.origins }
    ensures value { result ≡ sides_of region.now cell }
    ensures at_least { 3 ≤ result }
    ensures at_most { result ≤ 64 }
{
    let joins = region.joins();
    joins
        .tessellation()
        .sides(joins.type_of(Dart { cell, side: 0 }))
}

/// The dart that side `side` of a live cell is.
pub(crate) fn dart(region: &Region<'_>, cell: u32, side: u8) -> Dart
    requires { IsLive region.now.table.cells cell }
    ensures value { result ≡ dart_of region.now cell side }
    ensures dart { IsDart region.now.table result }
{
    Dart {
        cell,
        side: side % region.joins().turn(cell),
    }
}

/// The next dart to the left.
#[tactic(auto, using(crate::proofs::Joined::dart_few))]
pub(crate) fn left(region: &Region<'_>, d: Dart) -> Dart
    requires { IsDart region.now.table d }
    ensures value { result ≡ left_of region.now d }
    ensures dart { IsDart region.now.table result }
{
    let turn = region.joins().turn(d.cell);
    Dart {
        cell: d.cell,
        side: (d.side + 1) % turn,
    }
}

/// The distance of a live cell from the first one, at most 1,000,000.
fn distance(region: &Region<'_>, cell: u32) -> u32
    requires { IsLive region.now.table.cells cell }
    ensures value { result ≡ distance_of region.now cell }
    ensures radius { IsRadius region.now.table cell result }
    ensures at_most { result ≤ 1000000 }
{
    match region.radius(cell) {
        Some(radius) => radius,
        None => 0,
    }
}

/// The dart one tile further round the corner at the left end of a dart.
fn further(region: &Region<'_>, d: Dart) -> Option<Dart>
    requires { d.1 < 64 }
    ensures value { result ≡ further_of region.now.table d }
    ensures live { IfSome result (λ e. IsLive region.now.table.cells e.0) }
    ensures side { IfSome result (λ e. e.1 < 64) }
    ensures table { IsTable region.now.table }
{
    region.joins().joined(Dart {
        cell: d.cell,
        side: d.side + 1,
    })
}

/// A dart on the way round a corner, and the distance of its cell.
#[derive(Clone, Copy)]
pub(crate) struct Stop {
    pub dart: Dart,
    pub distance: u32,
}

impl Stop {
    /// The first stop, at a dart of a live cell.
    #[tactic(auto, using(crate::proofs::Joined::dart_few))]
    pub(crate) fn at(region: &Region<'_>, d: Dart) -> Stop
        requires table { IsTable region.now.table }
        requires dart { IsDart region.now.table d }
        ensures dart { result.dart ≡ d }
        ensures stop { IsStop region.now result.dart result.distance }
    {
        Stop {
            dart: d,
            distance: distance(region, d.cell),
        }
    }

    /// The stop one tile further round the corner; None where the dart there is not joined.
    pub(crate) fn further(self, region: &Region<'_>) -> Option<Stop>
        requires { IsStop region.now self.dart self.distance }
        ensures some { IfSome result (λ s.
            IsNextStop region.now self.dart self.distance s.dart s.distance) }
        ensures none { IfNone result (further_of region.now.table self.dart ≡ None) }
    {
        let next = further(region, self.dart)?;
        Some(Stop {
            dart: next,
            distance: distance(region, next.cell),
        })
    }
}
