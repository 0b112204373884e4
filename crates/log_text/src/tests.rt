// Texts of logs, with changes and first bad lines that are known from outside.
use crate::{LogTextFault, print_log, read_log};
use log_model::Change;
use std::test::Fail;

static TEXT: &str = "ins 0 1\ndel 18446744073709551615 5\nins 10 2\ndel 907 4\nins 3 3\n";

/// What the text says: whether a loop is inserted, behind how many letters, and which.
static LOG: [(bool, u64, u8); 5] = [
    (true, 0, 1),
    (false, 18_446_744_073_709_551_615, 5),
    (true, 10, 2),
    (false, 907, 4),
    (true, 3, 3),
];

/// Texts with their first bad lines.
static BAD: [(&str, u64); 24] = [
    ("del 00 5\n", 1),
    ("ins 01 1\n", 1),
    ("del 18446744073709551616 5\n", 1),
    ("ins 99999999999999999999 1\n", 1),
    ("ins 0 1", 1),
    ("ins 0 1\ndel 0 1", 2),
    ("ins 1 6\n", 1),
    ("ins 1 0\n", 1),
    ("ins 0 12\n", 1),
    ("ins 1\n", 1),
    ("ins  1\n", 1),
    ("ins  0 1\n", 1),
    ("ins 0  1\n", 1),
    (" ins 0 1\n", 1),
    ("ins 0 1 \n", 1),
    ("ins 0 1\r\n", 1),
    ("ins\t0 1\n", 1),
    ("ins +1 1\n", 1),
    ("ins -1 1\n", 1),
    ("Ins 0 1\n", 1),
    ("inx 0 1\n", 1),
    ("\n", 1),
    ("ins 0 1\n\n", 2),
    ("ins 0 1\ndel 0 1\nins x 1\nins 0 9", 3),
];

#[test]
fn reads_and_prints(rt: HostRuntime) -> Result<(), Fail> {
    let alloc = rt.alloc();
    let log = read_log(alloc, TEXT.as_bytes())?;
    let mut said = LOG.iter();
    for change in &log {
        let here = said
            .next()
            .map(|&(insert, at, which)| Change { at, which, insert });
        assert_eq!(rt; Some(*change), here);
    }
    assert_eq!(rt; said.next(), None);
    assert_eq!(rt; print_log(alloc, &log)?.as_slice(), TEXT.as_bytes());
    let empty = read_log(alloc, b"")?;
    assert!(rt; empty.is_empty());
    assert!(rt; print_log(alloc, &empty)?.is_empty());
    Ok(())
}

#[test]
fn names_the_first_bad_line(rt: HostRuntime) -> Result<(), Fail> {
    for (text, line) in &BAD {
        let fault = read_log(rt.alloc(), text.as_bytes()).err();
        assert_eq!(rt; fault, Some(LogTextFault::Line(*line)), "{text}");
    }
    Ok(())
}
