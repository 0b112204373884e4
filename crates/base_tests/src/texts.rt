//! Texts that were put, compared with a plain list of names and texts.
use cell_names::{Name, read_name};
use lazy_map::{LONGEST_TEXT, LazyMap, PutFault};
use std::alloc::{AllocError, Global};
use std::test::Fail;

/// Puts a text into a map that has room for one more name, as every map in these tests has.
fn put(map: &mut LazyMap, name: &Name, text: &[u8]) -> Result<(), PutFault> {
    if map.len() == u32::MAX {
        return Err(PutFault::Memory);
    }
    map.put(name, text)
}

#[test]
fn new_maps_have_no_text(rt: HostRuntime) -> Result<(), Fail> {
    let alloc = rt.alloc();
    let map = LazyMap::new(alloc)?;
    assert_eq!(rt; map.len(), 0);
    assert_eq!(rt; map.get(&Name::root(alloc)), None);
    Ok(())
}

#[test]
fn the_last_text_of_each_name_stands(rt: HostRuntime) -> Result<(), Fail> {
    let alloc = rt.alloc();
    let long = "9.8.7.6.5.4.3.2.1.0.9.8.7.6.5.4.3.2.1.0";
    let longer = "9.8.7.6.5.4.3.2.1.0.9.8.7.6.5.4.3.2.1.0.0";
    let writings = [
        ("-", "root"),
        ("0", "zero"),
        ("0.0", ""),
        (long, "a text with more than sixteen bytes"),
        ("-", "the root again, with more than sixteen bytes"),
        (longer, "short"),
        ("0", ""),
        ("63.0.63", "last"),
        (long, "x"),
    ];
    // The names with a text after each writing.
    let counts = [1, 2, 3, 4, 4, 5, 5, 6, 6];

    let mut map = LazyMap::new(alloc)?;
    for ((name, text), count) in writings.into_iter().zip(counts) {
        put(
            &mut map,
            &read_name(alloc, name.as_bytes())?,
            text.as_bytes(),
        )?;
        assert_eq!(rt; map.len(), count, "{name}");
    }
    for (name, text) in [
        ("-", Some("the root again, with more than sixteen bytes")),
        ("0", Some("")),
        ("0.0", Some("")),
        (long, Some("x")),
        (longer, Some("short")),
        ("63.0.63", Some("last")),
        ("63.0", None),
        ("0.0.0", None),
        ("63", None),
    ] {
        let found = map.get(&read_name(alloc, name.as_bytes())?);
        assert_eq!(rt; found, text.map(|text| text.as_bytes()), "{name}");
    }
    Ok(())
}

/// Whether a text is put under the only name of a map, and stays there when a longer one is refused.
fn is_kept(map: &mut LazyMap, name: &Name, text: &[u8]) -> bool {
    put(map, name, text) == Ok(())
        && put(map, name, &[b'b'; 65]) == Err(PutFault::Long)
        && map.get(name) == Some(text)
        && map.len() == 1
}

#[test]
fn texts_have_at_most_64_bytes(rt: HostRuntime) -> Result<(), Fail> {
    let alloc = rt.alloc();
    let name = read_name(alloc, b"3.1.4")?;
    let mut map = LazyMap::new(alloc)?;
    assert_eq!(rt; put(&mut map, &name, &[b'b'; 65]), Err(PutFault::Long));
    assert_eq!(rt; (map.get(&name), map.len()), (None, 0));
    assert!(rt; is_kept(&mut map, &name, &[b'b'; 64]));
    for text in ["", "seventeen bytes..", "sixteen bytes..."] {
        assert!(rt; is_kept(&mut map, &name, text.as_bytes()), "{text}");
    }
    assert_eq!(rt; LONGEST_TEXT, 64);
    Ok(())
}

/// The name of two sides below 64.
fn two_sides(alloc: Global, first: u8, second: u8) -> Result<Name, AllocError> {
    let mut name = Name::root(alloc);
    name.push(first % 64)?;
    name.push(second % 64)?;
    Ok(name)
}

/// Puts texts under 64 names with the same first side: the two sides of each.
fn put_row(alloc: Global, map: &mut LazyMap, first: u8) -> Result<(), PutFault> {
    for second in 0..64 {
        put(map, &two_sides(alloc, first, second)?, &[first, second])?;
    }
    Ok(())
}

#[test]
fn many_names_keep_their_texts(rt: HostRuntime) -> Result<(), Fail> {
    let alloc = rt.alloc();
    let mut map = LazyMap::new(alloc)?;
    for first in 0..64 {
        put_row(alloc, &mut map, first)?;
    }
    assert_eq!(rt; map.len(), 4_096);
    for (first, second) in [(0, 0), (0, 63), (63, 0), (31, 32), (63, 63)] {
        let name = two_sides(alloc, first, second)?;
        assert_eq!(rt; map.get(&name), Some([first, second].as_slice()));
    }
    Ok(())
}
