// Lines of what came.
use std::alloc::{AllocError, Global};

/// Outputs of more bytes are told by their number and their end.
const SHOWN: usize = 20_000;

pub(crate) fn tell(said: &mut Vec<u8>, text: &str) -> Result<(), AllocError> {
    said.extend_from_slice(text.as_bytes())
}

/// An output, and `(cut)` where its last line has no end.
pub(crate) fn tell_output(
    alloc: Global,
    said: &mut Vec<u8>,
    output: &[u8],
) -> Result<(), AllocError> {
    let mut shown = output;
    if output.len() > SHOWN {
        let count = output.len();
        tell(
            said,
            format!(in alloc; "{count} bytes, of which the last are\n")?.as_str(),
        )?;
        shown = output.get(count.saturating_sub(5)..).unwrap_or(output);
    }
    said.extend_from_slice(shown)?;
    if !shown.is_empty() && !shown.ends_with(b"\n") {
        tell(said, "(cut)\n")?;
    }
    Ok(())
}

/// Adds a text in which `\n` and `\r` stand for the ends of lines, and `\` before another byte
/// for that byte.
pub(crate) fn add_text(bytes: &mut Vec<u8>, text: &str) -> Result<(), AllocError> {
    let mut escaped = false;
    for byte in text.as_bytes() {
        if *byte == b'\\' && !escaped {
            escaped = true;
            continue;
        }
        bytes.push(match *byte {
            b'n' if escaped => b'\n',
            b'r' if escaped => b'\r',
            other => other,
        })?;
        escaped = false;
    }
    Ok(())
}

/// The number that a word spells, and 0 where it spells none.
pub(crate) fn number(word: &str) -> u32 {
    word.parse::<u32>().unwrap_or(0)
}

/// The numbers in words that are separated by spaces.
pub(crate) fn numbers(alloc: Global, words: &str) -> Result<Vec<u32>, AllocError> {
    let mut list = Vec::new(alloc);
    for word in words.split(' ') {
        list.push(number(word))?;
    }
    Ok(list)
}

/// What stands before the first of some text, and what stands behind it; all, where there is none.
pub(crate) fn halves<'a>(text: &'a str, at: &'static str) -> (&'a str, &'a str) {
    text.split_once(at).unwrap_or((text, ""))
}
