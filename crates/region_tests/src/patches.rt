//! Heptagons that lie three round each corner, and triangles seven.
use crate::samples::regular;
use cell_patches::{PatchDart, Patches, Settled};
use std::alloc::AllocError;
use std::test::Fail;
use tile_kinds::Tessellation;

/// Closes the corners of the start cell; false where the budget ends before.
fn close_all(patches: &mut Patches<'_>, sides: u8) -> Result<bool, AllocError> {
    for side in 0..sides {
        let corner = patches.turned(patches.start_of(0), side);
        if !patches.close_corner(corner)? {
            return Ok(false);
        }
    }
    Ok(true)
}

#[test]
fn closes_the_corners_of_a_heptagon(rt: HostRuntime) -> Result<(), Fail> {
    let alloc = rt.alloc();
    let Ok(t) = Tessellation::make(regular(alloc, 7, 3)?) else {
        panic!(rt; "refused");
    };
    let Some(mut patches) = Patches::start(alloc, &t, 100)? else {
        panic!(rt; "no cells");
    };
    let start = patches.start_of(0);
    assert!(rt; patches.joined(start).is_none() && patches.parent(start).is_none());
    assert_eq!(rt; patches.settle(start)?, Settled::Start);
    assert!(rt; close_all(&mut patches, 7)?);
    let (made, changes) = (patches.made(), patches.changes());
    assert_eq!(rt; made, 8);
    assert!(rt; close_all(&mut patches, 7)?);
    assert_eq!(rt; (patches.made(), patches.changes()), (made, changes));
    Ok(())
}

/// What is told of a dart that stands at the parent side of a heptagon next to the first one.
fn is_a_child(patches: &mut Patches<'_>, over: PatchDart) -> Result<bool, AllocError> {
    let counts = [
        patches.sides(over),
        patches.turn(over),
        patches.valence(over),
    ];
    let turned = patches.turned(over, 3);
    Ok(
        counts == [7, 7, 3]
            && patches.distance(over) == 1
            && patches.type_of(over).residue == 0
            && patches.lasts(over).has(over.side)
            && patches.named(over) == over
            && patches.parent(over) == Some(over)
            && patches.settle(over)? == Settled::Parent(over)
            && patches.settle(turned)? == Settled::Parent(over),
    )
}

/// Whether the tiles at both sides of the way down are as near as this one, and one of the two
/// sides of the first of them is before the other.
fn has_both_sides(patches: &mut Patches<'_>, over: PatchDart) -> bool {
    let left = patches.turned(over, 1);
    let right = patches.turned(over, 6);
    let (Some(on_left), Some(on_right)) = (patches.joined(left), patches.joined(right)) else {
        return false;
    };
    patches.distance(on_left) == 1
        && patches.distance(on_right) == 1
        && patches.is_before(left, on_left) != patches.is_before(on_left, left)
}

#[test]
fn settles_the_heptagons_round_the_first_one(rt: HostRuntime) -> Result<(), Fail> {
    let alloc = rt.alloc();
    let Ok(t) = Tessellation::make(regular(alloc, 7, 3)?) else {
        panic!(rt; "refused");
    };
    let Some(mut patches) = Patches::start(alloc, &t, 100)? else {
        panic!(rt; "no cells");
    };
    assert!(rt; close_all(&mut patches, 7)?);
    for side in 0..7 {
        let d = patches.turned(patches.start_of(0), side);
        let Some(over) = patches.joined(d) else {
            panic!(rt; "open");
        };
        assert_eq!(rt; patches.joined(over), Some(d));
        assert!(rt; is_a_child(&mut patches, over)?);
        assert!(rt; has_both_sides(&mut patches, over));
    }
    Ok(())
}

#[test]
fn makes_no_more_than_it_may(rt: HostRuntime) -> Result<(), Fail> {
    let alloc = rt.alloc();
    let Ok(t) = Tessellation::make(regular(alloc, 3, 7)?) else {
        panic!(rt; "refused");
    };
    assert!(rt; Patches::start(alloc, &t, 0)?.is_none());
    let Some(mut patches) = Patches::start(alloc, &t, 9)? else {
        panic!(rt; "no cells");
    };
    assert!(rt; !close_all(&mut patches, 3)?);
    assert_eq!(rt; (patches.most(), patches.made()), (9, 9));
    let Some(child) = patches.joined(patches.start_of(0)) else {
        panic!(rt; "no cell across");
    };
    assert_eq!(rt; patches.settle(child)?, Settled::Full);
    assert_eq!(rt; patches.tessellation().kinds(), 1);
    Ok(())
}

#[test]
fn answers_darts_that_are_not_there(rt: HostRuntime) -> Result<(), Fail> {
    let alloc = rt.alloc();
    let Ok(t) = Tessellation::make(regular(alloc, 3, 7)?) else {
        panic!(rt; "refused");
    };
    let Some(mut patches) = Patches::start(alloc, &t, 9)? else {
        panic!(rt; "no cells");
    };
    let nowhere = PatchDart {
        patch: 3,
        cell: 5,
        side: 200,
    };
    assert!(rt; !patches.close_corner(nowhere)?);
    assert!(rt; patches.joined(nowhere).is_none());
    assert_eq!(rt; patches.turned(nowhere, 1), nowhere);
    assert!(rt; !patches.is_before(nowhere, nowhere));
    Ok(())
}
