// Files and streams of a byte too many.
use crate::call::{SESSION, code, files};
use std::test::Fail;
use way_io::{FillSource, MemSink, MemSource};

#[test]
fn too_much_is_refused(rt: HostRuntime) -> Result<(), Fail> {
    let alloc = rt.alloc();
    // A rules file of a byte too many.
    let long = vec![in alloc; b' '; 134_217_729]?;
    let mut held = files(alloc, &long)?;
    let mut input = MemSource::new(alloc, b"", 10, &[])?;
    let mut out = MemSink::new(alloc, 50, 3, &[])?;
    let words = "run p54.tess 0 --rules x";
    assert_eq!(rt; code(alloc, words, &mut held, &mut input, &mut out)?, 4);
    assert!(rt; out.taken() == "file too long rules\n".as_bytes());
    // A stream of a byte too many, and one of as many as may be.
    for (count, end, line) in [
        (268_435_457, 15, "input too long\n"),
        (268_435_456, 0, "too long\n"),
    ] {
        let mut held = files(alloc, b"")?;
        let mut input = FillSource::new(b'x', count);
        let mut out = MemSink::new(alloc, 50, 3, &[])?;
        assert_eq!(rt; code(alloc, SESSION, &mut held, &mut input, &mut out)?, end);
        assert!(rt; out.taken() == line.as_bytes());
    }
    Ok(())
}
