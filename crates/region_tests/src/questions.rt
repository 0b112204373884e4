//! Triangles and heptagons, two of each at each corner. How many cone types there are at first, and
//! once they are split, was found by another program.
use cell_patches::Patches;
use cone_questions::{AskFault, Comparison, Cones, Found, Level, Questions};
use std::alloc::{AllocError, Global};
use std::test::Fail;
use tile_kinds::{Kind, Tessellation};
use tree_looks::{Limits, Split, TreeDart, split_by_looks, way_of_look};

const LIMITS: Limits = Limits {
    types: 100,
    open: 10,
};

/// Tiles with so many sides, all alike, with tiles of another kind across them, four at a corner.
fn kind(alloc: Global, sides: u8, across: u8) -> Result<Kind, AllocError> {
    Ok(Kind {
        sides,
        repeat: 1,
        partner: Vec::from_slice(alloc, &[(across, 0)])?,
        valence: Vec::from_slice(alloc, &[4])?,
    })
}

fn kinds(alloc: Global) -> Result<Vec<Kind>, AllocError> {
    let mut kinds = vec![in alloc; kind(alloc, 3, 1)?]?;
    kinds.push(kind(alloc, 7, 0)?)?;
    Ok(kinds)
}

/// The cone types that are read off the cells, once these stay as they are.
fn settled(
    questions: &mut Questions,
    patches: &mut Patches<'_>,
    kinds: u16,
) -> Result<Option<Cones>, AskFault> {
    for turn in 0..10 {
        let before = patches.changes();
        let cones = questions.pass(patches, kinds)?;
        if patches.changes() == before {
            return Ok(cones);
        }
    }
    Ok(None)
}

/// The first thing that is found where the darts of a way are compared with the cells.
fn first_found(
    questions: &mut Questions,
    patches: &mut Patches<'_>,
    cones: &Cones,
    comparison: &mut Comparison,
    way: &[TreeDart],
) -> Result<Found, AskFault> {
    for dart in way {
        let found = comparison.compare(questions, patches, cones, dart)?;
        if found != Found::Nothing {
            return Ok(found);
        }
    }
    Ok(Found::Nothing)
}

/// Follows all open corners once, and lets the base automaton go along if it is to. Answers how
/// many splits there were.
fn follow(
    alloc: Global,
    t: &Tessellation,
    questions: &mut Questions,
    patches: &mut Patches<'_>,
    cones: &mut Cones,
    goes_along: bool,
) -> Result<u64, AskFault> {
    let Split::Open(open) = split_by_looks(alloc, t, &cones.types, 0, LIMITS)? else {
        return Ok(0);
    };
    let mut comparison = Comparison::new(alloc);
    comparison.begin_sweep(cones);
    let mut splits = 0u64;
    for corner in &open {
        if let Some(way) = way_of_look(alloc, t, &cones.types, corner, 0)? {
            let found = first_found(questions, patches, cones, &mut comparison, &way)?;
            match found {
                Found::New(_) => splits = splits.saturating_add(1),
                _ => {}
            }
            if goes_along && !questions.go_along(patches, cones, found)? {
                return Ok(0);
            }
        }
    }
    Ok(splits)
}

/// How many cone types there are before all open corners are followed, after that, and once they
/// stay as they are again; none where nothing was split.
fn counts(
    alloc: Global,
    t: &Tessellation,
    goes_along: bool,
) -> Result<Option<[usize; 3]>, AskFault> {
    let Some(mut patches) = Patches::start(alloc, t, 1_000)? else {
        return Ok(None);
    };
    let mut questions = Questions::new(alloc, Level::Near);
    let Some(mut cones) = settled(&mut questions, &mut patches, t.kinds())? else {
        return Ok(None);
    };
    let before = cones.types.len();
    let splits = follow(
        alloc,
        t,
        &mut questions,
        &mut patches,
        &mut cones,
        goes_along,
    )?;
    let Some(last) = settled(&mut questions, &mut patches, t.kinds())? else {
        return Ok(None);
    };
    if splits == 0 {
        return Ok(None);
    }
    Ok(Some([before, cones.types.len(), last.types.len()]))
}

#[test]
fn splits_cone_types_where_corners_are_open(rt: HostRuntime) -> Result<(), Fail> {
    let alloc = rt.alloc();
    let Ok(t) = Tessellation::make(kinds(alloc)?) else {
        panic!(rt; "refused");
    };
    assert_eq!(rt; counts(alloc, &t, false)?, Some([6, 6, 8]));
    assert_eq!(rt; counts(alloc, &t, true)?, Some([6, 8, 8]));
    Ok(())
}

/// How far the tile across side 1 of the root is, and how many sides it has, where a comparison
/// comes to it and finds nothing.
fn child_of_the_root(alloc: Global, t: &Tessellation) -> Result<Option<(u32, u8)>, AskFault> {
    let Some(mut patches) = Patches::start(alloc, t, 1_000)? else {
        return Ok(None);
    };
    let mut questions = Questions::new(alloc, Level::Ring);
    let Some(cones) = settled(&mut questions, &mut patches, t.kinds())? else {
        return Ok(None);
    };
    let dart = TreeDart {
        root: 0,
        name: vec![in alloc; 0]?,
        side: 1,
    };
    let mut comparison = Comparison::new(alloc);
    comparison.begin_sweep(&cones);
    if comparison.cell(&dart)?.is_some()
        || comparison.compare(&mut questions, &mut patches, &cones, &dart)? != Found::Nothing
    {
        return Ok(None);
    }
    let cell = comparison.cell(&dart)?;
    Ok(cell.map(|cell| (patches.distance(cell), patches.sides(cell))))
}

#[test]
fn follows_a_child_of_the_root(rt: HostRuntime) -> Result<(), Fail> {
    let alloc = rt.alloc();
    let Ok(t) = Tessellation::make(kinds(alloc)?) else {
        panic!(rt; "refused");
    };
    assert_eq!(rt; child_of_the_root(alloc, &t)?, Some((1, 7)));
    Ok(())
}

#[test]
fn makes_no_more_cells_than_it_may(rt: HostRuntime) -> Result<(), Fail> {
    let alloc = rt.alloc();
    let Ok(t) = Tessellation::make(kinds(alloc)?) else {
        panic!(rt; "refused");
    };
    let Some(mut patches) = Patches::start(alloc, &t, 20)? else {
        panic!(rt; "no cells");
    };
    let mut questions = Questions::new(alloc, Level::Near);
    let passed = questions.pass(&mut patches, t.kinds());
    assert_eq!(rt; passed.err(), Some(AskFault::Full));
    assert_eq!(rt; patches.made(), 20);
    Ok(())
}
