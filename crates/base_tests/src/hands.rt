// Handed kinds made, walked over and expanded, with values reckoned by hand.
use handed_kinds::{HandKind, HandType, Handed, KindFault, handed_type};
use std::alloc::{AllocError, Global};
use std::test::Fail;
use tile_kinds::DartType;
use walk_words::read_walk;

// One kind of square, whose sides 0 and 2 meet plain, and whose sides 1 and 3 are mirrors.
fn wall(alloc: Global, valence: u8) -> Result<Vec<HandKind>, AllocError> {
    let mut kinds = Vec::new(alloc);
    kinds.push(HandKind {
        sides: 4,
        repeat: 4,
        partner: Vec::from_slice(
            alloc,
            &[(0, 2, false), (0, 1, true), (0, 0, false), (0, 3, true)],
        )?,
        valence: Vec::from_slice(alloc, &[valence, 4, 4, 4])?,
    })?;
    Ok(kinds)
}

#[test]
fn moves_and_expands(rt: HostRuntime) -> Result<(), Fail> {
    let alloc = rt.alloc();
    let Ok(walls) = Handed::make(wall(alloc, 4)?) else {
        panic!(rt; "refused");
    };
    assert_eq!(rt; walls.kinds(), 1);
    let start = HandType {
        kind: 0,
        residue: 1,
        mirrored: true,
    };
    if !walls.has(start) {
        panic!(rt; "no such type");
    }
    assert_eq!(rt; walls.left(start).residue, 0);
    assert_eq!(rt; walls.right(start).residue, 2);
    assert!(rt; !walls.cross(start).mirrored);
    assert_eq!(rt; walls.valence(start), 4);
    let flat = DartType {
        kind: 1,
        residue: 3,
    };
    assert_eq!(rt; walls.flat(start), flat);
    let Ok(walk) = read_walk(alloc, b"LXRX") else {
        panic!(rt; "no walk");
    };
    let end = HandType {
        kind: 0,
        residue: 3,
        mirrored: false,
    };
    assert_eq!(rt; handed_type(&walls, start, &walk), end);
    let expansion = walls.expand(alloc)?;
    assert_eq!(rt; expansion.kinds(), 2);
    Ok(())
}

#[test]
fn names_the_fault(rt: HostRuntime) -> Result<(), Fail> {
    let Err((_, fault)) = Handed::make(wall(rt.alloc(), 5)?) else {
        panic!(rt; "made");
    };
    let corner = KindFault::Corner {
        kind: 0,
        residue: 0,
    };
    assert_eq!(rt; fault, corner);
    Ok(())
}
