// Lines read and printed, compared with values from outside. Lines in no form, and the replies that
// a session gives, stand in the rows of `played_rows`.
use cell_names::read_name;
use command_text::{
    Bytes, Command, CommandFault, LONGEST_LINE, LineFault, Reply, bad_line, cut_at, laws,
    print_reply, read_command, read_line, too_long_line, write_reply,
};
use std::alloc::{AllocError, Global};
use std::test::Fail;

// A line, and its command: the number of its form, a number, and another one or the length of what it
// says.
static LINES: [(&str, (u8, u8, usize)); 14] = [
    ("new 0", (0, 0, 0)),
    ("new 000000063", (0, 63, 0)),
    ("go 7 LXR", (1, 7, 3)),
    ("go 07 -", (1, 7, 0)),
    ("at 12", (2, 12, 0)),
    ("same 3 40", (3, 3, 40)),
    ("level 5", (4, 5, 0)),
    ("dist 1 0", (5, 1, 0)),
    ("path 0 063", (6, 0, 63)),
    ("put 9 a  b ", (7, 9, 5)),
    ("get 063", (8, 63, 0)),
    ("ring 000000020", (9, 0, 20)),
    ("ring 999999999", (9, 0, 999_999_999)),
    ("count 4001", (10, 0, 4_001)),
];

#[test]
fn lines_of_each_form_are_read(rt: HostRuntime) -> Result<(), Fail> {
    let alloc = rt.alloc();
    laws::spelling();
    for (line, want) in &LINES {
        let read = match read_line(alloc, line.as_bytes()) {
            Ok(Command::New(w)) => Some((0, w, 0)),
            Ok(Command::Go(w, walk)) => Some((1, w, walk.len())),
            Ok(Command::At(w)) => Some((2, w, 0)),
            Ok(Command::Same(w, v)) => Some((3, w, usize::from(v))),
            Ok(Command::Level(w)) => Some((4, w, 0)),
            Ok(Command::Dist(w, v)) => Some((5, w, usize::from(v))),
            Ok(Command::Path(w, v)) => Some((6, w, usize::from(v))),
            Ok(Command::Put(w, text)) => Some((7, w, text.as_slice().len())),
            Ok(Command::Get(w)) => Some((8, w, 0)),
            Ok(Command::Ring(d)) => Some((9, 0, d as usize)),
            Ok(Command::Count(d)) => Some((10, 0, d as usize)),
            Err(_) => None,
        };
        assert_eq!(rt; read, Some(*want), "{line}");
    }
    Ok(())
}

#[test]
fn texts_are_all_that_stands_behind_one_space(rt: HostRuntime) -> Result<(), Fail> {
    let alloc = rt.alloc();
    let mut every = Vec::new(alloc);
    for byte in 0..=255 {
        every.push(byte)?;
    }
    let mut line_of_every = Vec::from_slice(alloc, b"put 0 ")?;
    line_of_every.extend_from_slice(&every)?;
    for (line, want) in [
        (b"put 0 ".as_slice(), b"".as_slice()),
        (b"put 0  ", b" "),
        (b"put 0  x", b" x"),
        (b"put 0 x y", b"x y"),
        (b"put 0 put 0 ", b"put 0 "),
        (&line_of_every, &every),
    ] {
        let Ok(Command::Put(0, text)) = read_line(alloc, line) else {
            return Err(Fail::new("no text was read"));
        };
        assert_eq!(rt; text.as_slice(), want);
    }
    Ok(())
}

// A line that tells a walker to go by so many letters, all the same.
fn go_line(alloc: Global, letter: u8, count: usize) -> Result<Vec<u8>, AllocError> {
    let mut line = Vec::from_slice(alloc, b"go 0 ")?;
    for _ in 0..count {
        line.push(letter)?;
    }
    Ok(line)
}

#[test]
fn lines_of_over_8192_bytes_are_too_long(rt: HostRuntime) -> Result<(), Fail> {
    let alloc = rt.alloc();
    let longest = go_line(alloc, b'Y', LONGEST_LINE - 5)?;
    assert_eq!(rt; read_line(alloc, &longest).err(), Some(LineFault::Bad));
    let longer = go_line(alloc, b'Y', LONGEST_LINE - 4)?;
    assert_eq!(rt; read_line(alloc, &longer).err(), Some(LineFault::TooLong));
    // Where nothing is measured, lines of any length are read.
    assert_eq!(rt; read_command(alloc, &longer).err(), Some(CommandFault::Bad));
    let good = go_line(alloc, b'X', LONGEST_LINE)?;
    assert!(rt; read_command(alloc, &good).is_ok());
    assert_eq!(rt; read_line(alloc, &good).err(), Some(LineFault::TooLong));
    Ok(())
}

#[test]
fn replies_are_lines(rt: HostRuntime) -> Result<(), Fail> {
    let alloc = rt.alloc();
    let name = read_name(alloc, b"0.14")?;
    for (reply, want) in [
        (
            Reply::At {
                name,
                spin: 4,
                kind: 10,
            },
            "at 0.14 4 10\n",
        ),
        (Reply::Dist(4_000), "dist 4000\n"),
        (Reply::Count(0), "count 0\n"),
        (
            Reply::Count(u128::MAX),
            "count 340282366920938463463374607431768211455\n",
        ),
    ] {
        let mut text = Vec::new(alloc);
        write_reply(&mut text, &reply)?;
        assert_eq!(rt; text.as_slice(), want.as_bytes());
        assert_eq!(rt; print_reply(alloc, &reply)?.as_slice(), want.as_bytes());
    }
    assert_eq!(rt; too_long_line(), b"too long\n".as_slice());
    assert_eq!(rt; bad_line(), b"bad\n".as_slice());
    Ok(())
}

#[test]
fn bytes_are_cut_at_the_first_separator(rt: HostRuntime) -> Result<(), Fail> {
    let parts = cut_at(b"go 0 LX", b' ');
    assert_eq!(rt; parts, Some((b"go".as_slice(), b"0 LX".as_slice())));
    assert_eq!(rt; cut_at(b"go", b' '), None);
    Ok(())
}
