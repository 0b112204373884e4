// A distance and a shortest walk in the tree of pentagons, found by hand.
ghost use Rattle.std.specs.Prelude.{◌<◌, length, IfSome};

use cell_distance::{distance, shortest};
use sample_tilings::pentagons;
use std::alloc::{AllocError, Global};
use std::test::Fail;
use structure_check::Rules;
use walk_words::{Walk, print_walk, read_walk};

// The walk with this text.
fn along(alloc: Global, text: &str) -> Option<Walk> {
    read_walk(alloc, text.as_bytes()).ok()
}

// The distance of the ends of two walks, and the shortest walk between them.
fn way(
    alloc: Global,
    r: &Rules,
    first: &str,
    second: &str,
) -> Result<Option<(u32, Vec<u8>)>, AllocError>
    requires { 0 < length r.now.kinds }
{
    let (Some(u), Some(w)) = (along(alloc, first), along(alloc, second)) else {
        return Ok(None);
    };
    let (Ok(crossings), Ok(way)) = (distance(alloc, r, 0, &u, &w), shortest(alloc, r, 0, &u, &w))
    else {
        return Ok(None);
    };
    Ok(Some((crossings, print_walk(alloc, &way)?)))
}

#[test]
fn walks_have_their_distances(rt: HostRuntime) -> Result<(), Fail> {
    let alloc = rt.alloc();
    let Some(r) = pentagons(alloc) else {
        panic!(rt; "no rules");
    };
    let Some((crossings, text)) = way(alloc, &r, "X", "LX")? else {
        panic!(rt; "no way");
    };
    assert_eq!(rt; crossings, 2);
    assert_eq!(rt; text.as_slice(), b"LLLLXLLLLX".as_slice());
    Ok(())
}
