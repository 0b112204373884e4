//! Names and their texts, compared with values from outside.
use cell_names::{Name, NameFault, print_name, read_name, write_name};
use std::alloc::Global;
use std::collections::{BTreeMap, HashMap};
use std::test::Fail;

/// Whether a text spells a name of these sides, and is what is printed for it.
fn spells(alloc: Global, text: &str, sides: &[u8]) -> Result<bool, NameFault> {
    let name = read_name(alloc, text.as_bytes())?;
    let printed = print_name(alloc, &name)?;
    Ok(name.sides() == sides && printed.as_slice() == text.as_bytes())
}

#[test]
fn texts_are_read_and_printed(rt: HostRuntime) -> Result<(), Fail> {
    let alloc = rt.alloc();
    let cases: [(&str, &[u8]); 5] = [
        ("-", &[]),
        ("0.4", [0, 4].as_slice()),
        ("63", &[63]),
        ("10.0.9.50", &[10, 0, 9, 50]),
        ("0.0.0", &[0, 0, 0]),
    ];
    for (text, sides) in cases {
        assert!(rt; spells(alloc, text, sides)?, "{text}");
    }
    Ok(())
}

#[test]
fn other_texts_are_refused(rt: HostRuntime) -> Result<(), Fail> {
    let alloc = rt.alloc();
    for text in [
        "", "0.", "00", ".0", "0..4", "0.04", "64", "100", "-0", "-.0", "0.-", "--", "0 ", "+1",
    ] {
        let fault = read_name(alloc, text.as_bytes()).err();
        assert_eq!(rt; fault, Some(NameFault::Text), "{text}");
    }
    Ok(())
}

#[test]
fn texts_are_appended(rt: HostRuntime) -> Result<(), Fail> {
    let alloc = rt.alloc();
    let mut out = Vec::from_slice(alloc, b"at ")?;
    for (text, want) in [
        ("-", "at -"),
        ("9", "at -9"),
        ("10.63.0.9.60", "at -910.63.0.9.60"),
    ] {
        write_name(&mut out, &read_name(alloc, text.as_bytes())?)?;
        assert_eq!(rt; out.as_slice(), want.as_bytes(), "{text}");
    }
    Ok(())
}

/// How many sides the name has that a text spells.
fn depth(alloc: Global, text: &[u8]) -> Result<usize, NameFault> {
    Ok(read_name(alloc, text)?.len())
}

#[test]
fn names_of_more_than_4000_sides_are_too_deep(rt: HostRuntime) -> Result<(), Fail> {
    let alloc = rt.alloc();
    let mut text = Vec::from_slice(alloc, b"0")?;
    for _ in 1..4_000 {
        text.extend_from_slice(b".0")?;
    }
    assert_eq!(rt; depth(alloc, text.as_slice()), Ok(4_000));
    text.extend_from_slice(b".0")?;
    assert_eq!(rt; depth(alloc, text.as_slice()), Err(NameFault::Deep));
    text.push(b'.')?;
    assert_eq!(rt; depth(alloc, text.as_slice()), Err(NameFault::Text));
    Ok(())
}

#[test]
fn sides_come_and_go(rt: HostRuntime) -> Result<(), Fail> {
    let alloc = rt.alloc();
    let mut name = Name::root(alloc);
    assert!(rt; name.is_empty());
    assert_eq!(rt; name.pop(), None);
    name.push(0)?;
    name.push(4)?;
    let mut copy = name.copy(alloc)?;
    copy.set(1, 63);
    assert_eq!(rt; copy.sides(), [0, 63].as_slice());
    assert_eq!(rt; name.sides(), [0, 4].as_slice());
    assert_eq!(rt; name.pop(), Some(4));
    assert_eq!(rt; name.len(), 1);
    Ok(())
}

#[test]
fn more_sides_come_than_are_kept_without_an_allocation(rt: HostRuntime) -> Result<(), Fail> {
    let mut name = Name::root(rt.alloc());
    for side in 0..40 {
        name.push(side)?;
    }
    assert_eq!(rt; name.len(), 40);
    assert_eq!(rt; name.pop(), Some(39));
    Ok(())
}

#[test]
fn names_are_ordered(rt: HostRuntime) -> Result<(), Fail> {
    let alloc = rt.alloc();
    let mut ordered = BTreeMap::new(alloc);
    for text in ["1", "0.4", "-", "0", "10", "0.4.2", "0.10"] {
        ordered.insert(read_name(alloc, text.as_bytes())?, text)?;
    }
    let mut wanted = ["-", "0", "0.4", "0.4.2", "0.10", "1", "10"].iter();
    for text in ordered.values() {
        assert_eq!(rt; Some(text), wanted.next());
    }
    assert_eq!(rt; wanted.next(), None);
    Ok(())
}

#[test]
fn names_are_keys(rt: HostRuntime) -> Result<(), Fail> {
    let alloc = rt.alloc();
    let mut hashed = HashMap::new(alloc);
    for text in ["1", "0.4", "-", "0", "10", "0.4.2", "0.10"] {
        hashed.insert(read_name(alloc, text.as_bytes())?, text)?;
    }
    for text in ["0.4", "-", "0.10"] {
        let name = read_name(alloc, text.as_bytes())?;
        assert_eq!(rt; hashed.get(&name).copied(), Some(text));
    }
    Ok(())
}
