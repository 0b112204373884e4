//! Walks read, turned back, printed and followed, with values reckoned by hand.
use crate::samples::{heptagons_and, kind};
use std::test::Fail;
use tile_kinds::{DartType, Tessellation};
use walk_words::{Letter, Walk, WalkFault, print_walk, read_walk, type_of};

#[test]
fn walks_there_and_back(rt: HostRuntime) -> Result<(), Fail> {
    let alloc = rt.alloc();
    let cases = [
        ("-", "-", 0),
        ("L", "R", 0),
        ("LX", "XR", 1),
        ("LXR", "LXR", 1),
        ("XXLRX", "XLRXX", 3),
    ];
    for (text, back, crossings) in cases {
        let Ok(walk) = read_walk(alloc, text.as_bytes()) else {
            panic!(rt; "{text} was not read");
        };
        assert_eq!(rt; walk.crossings(), crossings, "crossings of {text}");
        assert_eq!(rt;
            print_walk(alloc, &walk)?.as_slice(),
            text.as_bytes(),
            "{text} printed"
        );
        let inverse = walk.inverse(alloc)?;
        assert_eq!(rt;
            print_walk(alloc, &inverse)?.as_slice(),
            back.as_bytes(),
            "the way back of {text}"
        );
    }
    Ok(())
}

#[test]
fn refuses_other_texts(rt: HostRuntime) -> Result<(), Fail> {
    let alloc = rt.alloc();
    for text in ["", "lx", "LXl", "--", "L-", "L X", "Y"] {
        let Err(fault) = read_walk(alloc, text.as_bytes()) else {
            panic!(rt; "{text} was read");
        };
        assert_eq!(rt; fault, WalkFault::Text, "{text}");
    }
    Ok(())
}

#[test]
fn goes_round_the_corner(rt: HostRuntime) -> Result<(), Fail> {
    let alloc = rt.alloc();
    let hexagon = kind(alloc, 6, 2, &[(0, 0), (1, 1)], &[3, 3])?;
    let Ok(t) = Tessellation::make(heptagons_and(alloc, hexagon)?) else {
        panic!(rt; "refused");
    };
    let start = DartType {
        kind: 0,
        residue: 0,
    };
    if !t.has(start) {
        panic!(rt; "no type");
    }
    let mut walk = Walk::new(alloc);
    for (kind, residue) in [(1, 0), (1, 1), (0, 0)] {
        walk.push(Letter::L)?;
        walk.push(Letter::X)?;
        assert_eq!(rt; type_of(&t, start, &walk), DartType { kind, residue });
    }
    assert_eq!(rt; walk.len(), 6);
    walk.clear();
    assert!(rt; walk.is_empty());
    Ok(())
}
