// Texts read and printed, with values reckoned by hand.
ghost use Rattle.std.specs.Prelude.{◌<◌, ◌-◌, ◌^◌, length};

use std::alloc::Global;
use std::test::Fail;
use tess_text::{TessFault, print_tess, read_tess};
use tile_kinds::{DartType, KindFault};
use walk_words::{read_walk, type_of};

// pentagons, four round each corner
const PENTAGONS: &[u8] = b"tess 1\nkind 0 5 1\njoin 0 0 0 0\ncorner 0 0 4\n";

// heptagons and hexagons, three tiles round each corner
const HEPTAGONS: &[u8] =
    b"tess 1\nkind 0 7 1\nkind 1 6 2\njoin 0 0 1 0\njoin 1 1 1 1\ncorner 0 0 3\ncorner 1 0 3\ncorner 1 1 3\n";

// Whether a text is read and printed as this one.
fn prints_as(alloc: Global, text: &[u8], printed: &[u8]) -> bool
    requires { length text.now < 2 ^ 32 - 1 }
{
    let Ok(t) = read_tess(alloc, text) else {
        return false;
    };
    let Ok(out) = print_tess(alloc, &t) else {
        return false;
    };
    out.as_slice() == printed
}

#[test]
fn reads_and_prints(rt: HostRuntime) -> Result<(), Fail> {
    let alloc = rt.alloc();
    assert!(rt; prints_as(alloc, PENTAGONS, PENTAGONS));
    assert!(rt; prints_as(alloc, HEPTAGONS, HEPTAGONS));
    let spelling = b"tess 1\n\n\tkind 0 005 1 # one kind\r\njoin 0 0 0 0\ncorner 0 0 4".as_slice();
    assert!(rt; prints_as(alloc, spelling, PENTAGONS));
    Ok(())
}

#[test]
fn gives_the_kinds(rt: HostRuntime) -> Result<(), Fail> {
    let Ok(t) = read_tess(rt.alloc(), HEPTAGONS) else {
        panic!(rt; "refused");
    };
    assert_eq!(rt; t.kinds(), 2);
    let side = DartType {
        kind: 1,
        residue: 1,
    };
    if !t.has(side) {
        panic!(rt; "no such side");
    }
    assert_eq!(rt; t.sides(side), 6);
    assert_eq!(rt; t.valence(side), 3);
    assert_eq!(rt; t.cross(side), side);
    Ok(())
}

// What a text is refused for, if it is.
fn fault_of(alloc: Global, text: &[u8]) -> Option<TessFault>
    requires { length text.now < 2 ^ 32 - 1 }
{
    read_tess(alloc, text).err()
}

#[test]
fn names_the_fault(rt: HostRuntime) -> Result<(), Fail> {
    let alloc = rt.alloc();
    let no_corner = b"tess 1\nkind 0 5 1\njoin 0 0 0 0\n".as_slice();
    let two_joins = b"tess 1\nkind 0 5 1\njoin 0 0 0 0\njoin 0 0 0 0\ncorner 0 0 4\n".as_slice();
    let many_sides = b"tess 1\nkind 0 65 1\njoin 0 0 0 0\ncorner 0 0 4\n".as_slice();
    let zeros = b"# a line\ntess 01\n".as_slice();
    let large = b"tess 1\nkind 0 256 1\n".as_slice();
    let sides = KindFault::Sides {
        kind: 0,
        residue: 0,
    };
    assert_eq!(rt; fault_of(alloc, b""), Some(TessFault::Line(1)));
    assert_eq!(rt; fault_of(alloc, no_corner), Some(TessFault::Line(4)));
    assert_eq!(rt; fault_of(alloc, two_joins), Some(TessFault::Line(4)));
    assert_eq!(rt; fault_of(alloc, many_sides), Some(TessFault::Kinds(sides)));
    assert_eq!(rt; fault_of(alloc, zeros), Some(TessFault::Line(2)));
    assert_eq!(rt; fault_of(alloc, large), Some(TessFault::Line(2)));
    Ok(())
}

// pentagons, four round each corner, each seen mirrored from the next
const MIRRORED: &[u8] = b"tess 2\nkind 0 5 1\nmirror 0 0 0 0\ncorner 0 0 4\n";

// the same in version 1
const BOTH_HANDS: &[u8] =
    b"tess 1\nkind 0 5 1\nkind 1 5 1\njoin 0 0 1 0\ncorner 0 0 4\ncorner 1 0 4\n";

// squares whose four sides are mirrors
const FOUR_MIRRORS: &[u8] =
    b"tess 2\nkind 0 4 4\nmirror 0 0 0 0\nmirror 0 1 0 1\nmirror 0 2 0 2\nmirror 0 3 0 3\ncorner 0 0 4\ncorner 0 1 4\ncorner 0 2 4\ncorner 0 3 4\n";

#[test]
fn expands_version_two(rt: HostRuntime) -> Result<(), Fail> {
    let alloc = rt.alloc();
    assert!(rt; prints_as(alloc, MIRRORED, BOTH_HANDS));
    let Ok(t) = read_tess(alloc, FOUR_MIRRORS) else {
        panic!(rt; "refused");
    };
    assert_eq!(rt; t.kinds(), 2);
    let side = DartType {
        kind: 0,
        residue: 1,
    };
    if !t.has(side) {
        panic!(rt; "no such side");
    }
    let across = DartType {
        kind: 1,
        residue: 3,
    };
    assert_eq!(rt; t.cross(side), across);
    Ok(())
}

// The type that a walk from side 0 of kind 0 of a text leads to.
fn end_of(alloc: Global, text: &[u8], letters: &[u8]) -> Option<DartType>
    requires { length text.now < 2 ^ 32 - 1 }
{
    let t = read_tess(alloc, text).ok()?;
    let walk = read_walk(alloc, letters).ok()?;
    Some(type_of(&t, t.start(0), &walk))
}

#[test]
fn walks_in_the_expansion(rt: HostRuntime) -> Result<(), Fail> {
    let alloc = rt.alloc();
    let cases = [
        (MIRRORED, b"LX".as_slice(), 1, 0),
        (MIRRORED, b"LXLX".as_slice(), 0, 0),
        (FOUR_MIRRORS, b"LX".as_slice(), 1, 3),
        (FOUR_MIRRORS, b"LXL".as_slice(), 1, 0),
    ];
    for (text, letters, kind, residue) in cases {
        if text.len() > 1000 {
            panic!(rt; "a long text");
        }
        assert_eq!(rt;
            end_of(alloc, text, letters),
            Some(DartType { kind, residue })
        );
    }
    Ok(())
}

#[test]
fn names_the_faults_of_version_two(rt: HostRuntime) -> Result<(), Fail> {
    let alloc = rt.alloc();
    // an odd number of mirrored tiles round a corner does not close
    let odd = b"tess 2\nkind 0 7 1\nmirror 0 0 0 0\ncorner 0 0 3\n".as_slice();
    // only the mirrored corner of side 0 fails
    let one_hand =
        b"tess 2\nkind 0 4 4\nmirror 0 0 0 1\nmirror 0 2 0 3\ncorner 0 0 4\ncorner 0 1 8\ncorner 0 2 8\ncorner 0 3 4\n".as_slice();
    // the expansion, and the same file in version 1, fail elsewhere first
    let by_place =
        b"tess 2\nkind 0 3 3\njoin 0 0 0 1\njoin 0 2 0 2\ncorner 0 0 3\ncorner 0 1 4\ncorner 0 2 8\n".as_slice();
    let in_first = b"tess 1\nkind 0 5 1\nmirror 0 0 0 0\ncorner 0 0 4\n".as_slice();
    let two_lines = b"tess 2\nkind 0 5 1\njoin 0 0 0 0\nmirror 0 0 0 0\ncorner 0 0 4\n".as_slice();
    let third = b"tess 3\n".as_slice();
    let corner = KindFault::Corner {
        kind: 0,
        residue: 0,
    };
    assert_eq!(rt; fault_of(alloc, odd), Some(TessFault::Kinds(corner)));
    assert_eq!(rt; fault_of(alloc, one_hand), Some(TessFault::Kinds(corner)));
    assert_eq!(rt; fault_of(alloc, by_place), Some(TessFault::Kinds(corner)));
    assert_eq!(rt; fault_of(alloc, in_first), Some(TessFault::Line(3)));
    assert_eq!(rt; fault_of(alloc, two_lines), Some(TessFault::Line(4)));
    assert_eq!(rt; fault_of(alloc, third), Some(TessFault::Line(1)));
    Ok(())
}
