//! Numbers of one to nine digits.
use short_numbers::read_number;
use std::test::Fail;

static CASES: [(&str, Option<u32>); 10] = [
    ("0", Some(0)),
    ("63", Some(63)),
    ("000000063", Some(63)),
    ("999999999", Some(999_999_999)),
    ("0000000063", None),
    ("", None),
    ("+1", None),
    ("-1", None),
    ("1 ", None),
    ("12a", None),
];

#[test]
fn reads_up_to_nine_digits(rt: HostRuntime) -> Result<(), Fail> {
    for (text, number) in &CASES {
        assert_eq!(rt; read_number(text.as_bytes()), *number, "{text}");
    }
    Ok(())
}
