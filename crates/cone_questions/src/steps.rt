//! Steps among the cells: corners are closed before they are looked at.
ghost use Rattle.std.specs.Prelude.{◌≡◌};

use crate::fault::AskFault;
use cell_patches::{PatchDart, Patches, Settled};

/// Makes and closes all tiles round the corner at the left end of a dart.
pub(crate) fn close(patches: &mut Patches, d: PatchDart) -> Result<(), AskFault>
    ensures most { patches.new.most ≡ patches.old.most }
{
    if patches.close_corner(d)? {
        Ok(())
    } else {
        Err(AskFault::Full)
    }
}

/// The dart so many sides to the left of another one, as both are named now.
pub(crate) fn side_of(patches: &Patches, d: PatchDart, side: u8) -> PatchDart {
    patches.turned(d, side)
}

/// Closes the corner so many sides to the left of a dart.
pub(crate) fn close_side(patches: &mut Patches, d: PatchDart, side: u8) -> Result<(), AskFault>
    ensures most { patches.new.most ≡ patches.old.most }
{
    let at = side_of(patches, d, side);
    close(patches, at)
}

/// The dart across the side so many sides to the left of a dart.
pub(crate) fn across(patches: &Patches, d: PatchDart, side: u8) -> Option<PatchDart> {
    patches.joined(side_of(patches, d, side))
}

/// The parent side of the cell of a dart, as far as it is known; None for a start cell.
pub(crate) fn parent(patches: &mut Patches, d: PatchDart) -> Option<PatchDart>
    ensures most { patches.new.most ≡ patches.old.most }
{
    let at = patches.named(d);
    patches.parent(at)
}

/// The parent side of the cell of a dart, once the corners from which it is chosen are closed; None
/// for a start cell.
pub(crate) fn settle(patches: &mut Patches, d: PatchDart) -> Result<Option<PatchDart>, AskFault>
    ensures most { patches.new.most ≡ patches.old.most }
{
    match patches.settle(d)? {
        Settled::Start => Ok(None),
        Settled::Parent(parent) => Ok(Some(parent)),
        Settled::Full => Err(AskFault::Full),
    }
}
