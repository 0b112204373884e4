//! Why no rules are learnt.
use region_grower::Region;
use std::alloc::AllocError;

/// Why no rules are learnt for a tessellation. It carries regions, so it is no `Error`.
#[derive(Debug, Drop)]
pub enum LearnFault<'t> {
    /// The tessellation is {p,q} with (p - 2)(q - 2) below 4, and so has finitely many tiles.
    Spherical { p: u8, q: u8 },
    /// So many tiles are all that walks from a tile of some kind lead to.
    Closed(u32),
    /// The learner made as many cells as it may, and none of its candidates was accepted. These are
    /// the regions that it grew, one for each kind, or as many as the budget where that is smaller.
    GaveUp(Vec<Region<'t>>),
    /// Memory ran out.
    Memory,
}

impl<'t> From<AllocError> for LearnFault<'t> {
    ghost use Rattle.state_learner.specs.declared.fault.LearnFault.TheVariants.{Memory};
    ghost use Rattle.std.specs.Prelude.{◌≡◌};

    ghost from_gives = { λ _ fault. fault ≡ Memory };

    fn from(_refused: AllocError) -> LearnFault<'t> {
        LearnFault::Memory
    }
}
