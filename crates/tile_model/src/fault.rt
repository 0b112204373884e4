// Why a list of kinds is no tessellation.
use thiserror::Error;

/// Why a list of kinds is no tessellation: the first check that fails, at its least kind and
/// residue. The variants stand in the order of the checks. Where a check speaks of a whole kind,
/// the residue is 0.
#[derive(Clone, Copy, Debug, PartialEq, Eq, Error)]
pub enum KindFault {
    /// There are no kinds, or more than 256.
    #[error("there are no kinds or more than 256")]
    Count,
    /// The number of sides is not 3 to 64.
    #[error("kind {kind} has not 3 to 64 sides")]
    Sides { kind: u8, residue: u8 },
    /// The repeat is 0, does not divide the number of sides, or is not the length of both lists.
    #[error("the repeat of kind {kind} is 0, does not divide its sides or is not the length of its lists")]
    Repeat { kind: u8, residue: u8 },
    /// The partner is not a kind and a residue below its repeat.
    #[error("the partner of side {residue} of kind {kind} is no side of a kind")]
    Partner { kind: u8, residue: u8 },
    /// The valence is not 3 to 64.
    #[error("the valence at side {residue} of kind {kind} is not 3 to 64")]
    Valence { kind: u8, residue: u8 },
    /// The partner of the partner is not the side itself.
    #[error("the partner of the partner of side {residue} of kind {kind} is another side")]
    Involution { kind: u8, residue: u8 },
    /// Round the corner the valences differ, or going round as often as the valence says does not
    /// lead back.
    #[error("the corner at side {residue} of kind {kind} does not close")]
    Corner { kind: u8, residue: u8 },
}
