//! Each call once with ample memory, and failing calls in mid-stream.
use std::alloc::Global;
use std::io;
use std::io::Cursor;
use std::test::Fail;
use way_io::{
    FetchFault, Files, FillSource, HostFiles, MemFiles, MemSink, MemSource, ReadFault, Sink,
    Source, StdSink, StdSource, StoreFault, WriteFault, write_piece,
};

/// Whether reads into so many bytes, at most 6, give these texts; None is a read that fails.
fn gives_texts<S: Source>(source: &mut S, wanted: &[(usize, Option<&str>)]) -> bool {
    for (most, text) in wanted {
        let mut buf = [0u8; 6];
        let Some(room) = buf.get_mut(..*most) else {
            return false;
        };
        let count = source.read(room).ok();
        if count.and_then(|count| buf.get(..count)) != text.map(|text| text.as_bytes()) {
            return false;
        }
    }
    true
}

#[test]
fn a_source_goes_on_after_a_fault(rt: HostRuntime) -> Result<(), Fail> {
    let mut source = MemSource::new(rt.alloc(), b"new 0\ngo 0", 4, &[2])?;
    let mut buf = [0u8; 6];
    assert_eq!(rt; source.read(&mut buf), Ok(4));
    assert_eq!(rt; buf.as_slice(), b"new \0\0".as_slice());
    assert_eq!(rt; source.read(&mut buf), Err(ReadFault));
    let wanted = [(3, Some("0\ng")), (6, Some("o 0")), (6, Some(""))];
    assert!(rt; gives_texts(&mut source, &wanted));
    Ok(())
}

#[test]
fn sources_give_their_count(rt: HostRuntime) -> Result<(), Fail> {
    let wanted = [(3, Some("xxx")), (3, Some("xx")), (3, Some(""))];
    assert!(rt; gives_texts(&mut FillSource::new(b'x', 5), &wanted));
    let wanted = [(3, Some("new")), (3, Some(" 0")), (3, Some(""))];
    let mut source = StdSource::new(Cursor::new(*b"new 0"));
    assert!(rt; gives_texts(&mut source, &wanted));
    Ok(())
}

#[test]
fn a_sink_takes_a_prefix(rt: HostRuntime) -> Result<(), Fail> {
    let mut sink = MemSink::new(rt.alloc(), 12, 4, &[3])?;
    for (piece, want, taken) in [
        ("count 1\ncount 7\n", Err(WriteFault), "count 1\n"),
        ("ok\n", Ok(()), "count 1\nok\n"),
    ] {
        assert_eq!(rt; write_piece(&mut sink, piece.as_bytes()), want);
        assert_eq!(rt; sink.taken(), taken.as_bytes());
    }
    assert_eq!(rt; sink.write(b"no"), Ok(1));
    assert_eq!(rt; sink.write(b"o"), Err(WriteFault));
    assert_eq!(rt; sink.taken(), b"count 1\nok\nn".as_slice());
    Ok(())
}

fn holds(files: &MemFiles, name: &str, want: &[u8]) -> bool {
    match files.content(name) {
        Some(bytes) => bytes == want,
        None => false,
    }
}

/// Whether a fetch of a file of at most so many bytes answers so.
fn answers<F: Files>(
    files: &mut F,
    alloc: Global,
    name: &str,
    limit: u32,
    want: Result<&str, FetchFault>,
) -> bool {
    match &files.fetch(alloc, name, limit) {
        Ok(bytes) => want.map(|text| text.as_bytes()) == Ok(bytes.as_slice()),
        Err(fault) => want.err() == Some(*fault),
    }
}

#[test]
fn files_go_on_after_faults(rt: HostRuntime) -> Result<(), Fail> {
    let alloc = rt.alloc();
    let mut files = MemFiles::new(alloc, &[2, 4])?;
    files.add("hr.tess", b"tess 1\n")?;
    assert!(rt; holds(&files, "hr.tess", b"tess 1\n") && files.content("hr").is_none());
    for (text, want, held) in [
        ("{}", Ok(()), "{}"),
        ("[]", Err(StoreFault::Failed), "{}"),
        ("[]", Ok(()), "[]"),
    ] {
        assert_eq!(rt; files.store("x.json", text.as_bytes()), want);
        assert!(rt; holds(&files, "x.json", held.as_bytes()));
    }
    for (name, limit, want) in [
        ("x.json", 2, Err(FetchFault::Failed)),
        ("x.json", 2, Ok("[]")),
        ("x.json", 1, Err(FetchFault::TooLong)),
        ("y.json", 9, Err(FetchFault::Failed)),
    ] {
        assert!(rt;
            answers(&mut files, alloc, name, limit, want),
            "{name} {limit}"
        );
    }
    Ok(())
}

#[test]
fn the_machine_keeps_a_file(rt: HostRuntime) -> Result<(), Fail> {
    let alloc = rt.alloc();
    let mut files = HostFiles::new(&rt);
    assert_eq!(rt; files.store("way_io.kept", b"tess 1\n"), Ok(()));
    for (name, limit, want) in [
        ("way_io.kept", 7, Ok("tess 1\n")),
        ("way_io.kept", 6, Err(FetchFault::TooLong)),
        ("way_io.none", 7, Err(FetchFault::Failed)),
    ] {
        assert!(rt;
            answers(&mut files, alloc, name, limit, want),
            "{name} {limit}"
        );
    }
    let stored = files.store("way_io.none/way_io.kept", b"tess 1\n");
    assert_eq!(rt; stored, Err(StoreFault::Failed));
    Ok(())
}

#[test]
fn standard_output_is_reached(rt: HostRuntime) -> Result<(), Fail> {
    let mut sink = StdSink::new(io::writer(&rt));
    let written = write_piece(&mut sink, b"standard output is reached\n");
    assert_eq!(rt; written, Ok(()));
    Ok(())
}
