// Pentagons, four at each corner, with a state more, or with states that only a path tells apart.
use rules_data::Rule::{Child, Left, Parent, Right};
use rules_data::{Automaton, Claim, Corner, Rule, State};
use rules_tools::{merge, telling};
use std::alloc::{AllocError, Global};
use std::test::Fail;
use structure_check::{Rules, check};
use tile_kinds::{Kind, Tessellation};

fn state(alloc: Global, rules: &[Rule], claims: &[(u32, u8)]) -> Result<State, AllocError> {
    let mut list = Vec::new(alloc);
    for (corner, place) in claims {
        list.push(Claim {
            corner: *corner,
            place: *place,
        })?;
    }
    Ok(State {
        kind: 0,
        off: 0,
        rules: Vec::from_slice(alloc, rules)?,
        claims: list,
    })
}

fn corner(alloc: Global) -> Result<Corner, AllocError> {
    Ok(Corner {
        offsets: Vec::from_slice(alloc, &[0, -1, -2, -1])?,
        outer: Claim {
            corner: 0,
            place: 1,
        },
    })
}

fn accepted(alloc: Global, states: Vec<State>) -> Result<Option<Rules>, AllocError> {
    let kind = Kind {
        sides: 5,
        repeat: 1,
        partner: vec![in alloc; (0, 0)]?,
        valence: vec![in alloc; 4]?,
    };
    let Ok(tess) = Tessellation::make(vec![in alloc; kind]?) else {
        return Ok(None);
    };
    let mut corners = Vec::new(alloc);
    corners.push(corner(alloc)?)?;
    corners.push(corner(alloc)?)?;
    let automaton = Automaton {
        states,
        corners,
        roots: vec![in alloc; 0]?,
    };
    Ok(check(tess, automaton).ok())
}

// The rules of the pentagons, where the child at side 0 of the root has this state, and state 3 is a
// copy of state 1.
fn with_copy(alloc: Global, first: u32) -> Result<Option<Rules>, AllocError> {
    let root = [Child(first), Child(1), Child(1), Child(1), Child(1)];
    let one = [Parent, Right, Child(1), Child(1), Child(2)];
    let claims = [(0, 3), (0, 2), (0, 2), (0, 2), (0, 1)];
    let two = [Parent, Right, Child(1), Child(2), Left];
    let mut states = Vec::new(alloc);
    states.push(state(alloc, &root, &[(0, 2); 5])?)?;
    states.push(state(alloc, &one, &claims)?)?;
    states.push(state(alloc, &two, &[(0, 3), (0, 2), (0, 2), (0, 1), (0, 0)])?)?;
    states.push(state(alloc, &one, &claims)?)?;
    accepted(alloc, states)
}

fn rules_of(a: &Automaton, s: usize) -> Option<&[Rule]> {
    match a.states.get(s) {
        Some(state) => Some(state.rules.as_slice()),
        None => None,
    }
}

// A copy that the tree reaches becomes one with its state, and one that it does not reach is left out.
#[test]
fn merges_a_copy(rt: HostRuntime) -> Result<(), Fail> {
    let alloc = rt.alloc();
    for (first, last) in [(3, Some(1)), (1, None)] {
        let rules = with_copy(alloc, first)?;
        assert!(rt; rules.is_some());
        let Some(rules) = rules else {
            return Ok(());
        };
        let merged = merge(alloc, &rules)?;
        assert_eq!(rt;
            merged.class.as_slice(),
            [Some(0), Some(1), Some(2), last].as_slice()
        );
        let a = merged.rules.automaton();
        assert_eq!(rt; a.states.len(), 3);
        let one = [Parent, Right, Child(1), Child(1), Child(2)];
        let two = [Parent, Right, Child(1), Child(2), Left];
        assert!(rt; rules_of(a, 0).is_some_and(|r| r == [Child(1); 5].as_slice()));
        assert!(rt; rules_of(a, 1).is_some_and(|r| r == one.as_slice()));
        assert!(rt; rules_of(a, 2).is_some_and(|r| r == two.as_slice()));
    }
    Ok(())
}

// The path that tells two states apart, where there are so many.
fn told(alloc: Global, rules: &Rules, a: u32, b: u32) -> Result<Option<Vec<u8>>, AllocError> {
    let count = rules.automaton().states.len();
    if a as usize >= count || b as usize >= count {
        return Ok(None);
    }
    match telling(alloc, rules, a, b)? {
        Some(path) => Ok(Some(Vec::from_slice(alloc, path.sides())?)),
        None => Ok(None),
    }
}

// States 1 and 2 differ in their faces, and nothing tells state 1 from its copy.
#[test]
fn tells_states_apart(rt: HostRuntime) -> Result<(), Fail> {
    let alloc = rt.alloc();
    let rules = with_copy(alloc, 1)?;
    assert!(rt; rules.is_some());
    let Some(rules) = rules else {
        return Ok(());
    };
    let path = told(alloc, &rules, 1, 2)?;
    assert!(rt; path.is_some_and(|p| p.is_empty()));
    assert!(rt; told(alloc, &rules, 1, 3)?.is_none());
    Ok(())
}

// States 1 and 2 have one face, and their children at side 3 have two.
fn with_label(alloc: Global) -> Result<Option<Rules>, AllocError> {
    let plain = [(0, 3), (0, 2), (0, 2), (0, 2), (0, 1)];
    let last = [(0, 3), (0, 2), (0, 2), (0, 1), (0, 0)];
    let table = [
        (
            [Child(1), Child(2), Child(2), Child(2), Child(2)],
            [(0, 2); 5],
        ),
        ([Parent, Right, Child(2), Child(3), Child(4)], plain),
        ([Parent, Right, Child(2), Child(2), Child(4)], plain),
        (
            [Parent, Right, Child(5), Child(6), Child(4)],
            [(0, 3), (0, 2), (1, 2), (0, 2), (0, 1)],
        ),
        ([Parent, Right, Child(2), Child(4), Left], last),
        (
            [Parent, Right, Child(2), Child(2), Child(7)],
            [(0, 3), (0, 2), (0, 2), (0, 2), (1, 1)],
        ),
        (
            [Parent, Right, Child(2), Child(2), Child(4)],
            [(1, 3), (0, 2), (0, 2), (0, 2), (0, 1)],
        ),
        (
            [Parent, Right, Child(2), Child(4), Left],
            [(0, 3), (0, 2), (0, 2), (0, 1), (1, 0)],
        ),
    ];
    let mut states = Vec::new(alloc);
    for (rules, claims) in table {
        states.push(state(alloc, &rules, &claims)?)?;
    }
    accepted(alloc, states)
}

#[test]
fn tells_states_apart_by_their_children(rt: HostRuntime) -> Result<(), Fail> {
    let alloc = rt.alloc();
    let rules = with_label(alloc)?;
    assert!(rt; rules.is_some());
    let Some(rules) = rules else {
        return Ok(());
    };
    let path = told(alloc, &rules, 1, 2)?;
    assert!(rt; path.is_some_and(|p| p.as_slice() == [3].as_slice()));
    let merged = merge(alloc, &rules)?;
    assert_eq!(rt; merged.rules.automaton().states.len(), 8);
    Ok(())
}
