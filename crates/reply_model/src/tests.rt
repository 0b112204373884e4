// Bytes are copied whole.
use crate::Bytes;
use std::test::Fail;

#[test]
fn bytes_are_copied(rt: HostRuntime) -> Result<(), Fail> {
    for text in [b"".as_slice(), b"camp", b"two words", b"\0\xff"] {
        let copy = Bytes::copy_of(rt.alloc(), text)?;
        assert_eq!(rt; copy.as_slice(), text);
    }
    Ok(())
}
