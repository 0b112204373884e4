//! The lines of replies, printed.
ghost use Rattle.std.specs.Prelude.{◌≡◌, ◌∷◌, ◌++◌, codes, decimal, IfOk, OnOk, OnErr};
ghost use Rattle.tile_model.specs.WalkTexts.{letter_code, walk_text};
ghost use Rattle.cell_names.specs.Text.{name_text};
ghost use Rattle.command_text.specs.Replies.{StandsInFront, line_feed, number_words, path_words, place_words, reply_text, text_words};

use cell_names::{Name, write_name};
use itoa::Buffer;
use reply_model::{Bytes, Reply};
use std::alloc::{AllocError, Global};
use walk_words::{Letter, Walk};

/// The line that answers a line of over 8,192 bytes, with its line feed.
pub fn too_long_line() -> &'static [u8]
    ensures { result.now ≡ codes "too long" ++ line_feed }
{
    b"too long\n"
}

/// The line that answers a line in no form, with its line feed.
pub fn bad_line() -> &'static [u8]
    ensures { result.now ≡ codes "bad" ++ line_feed }
{
    b"bad\n"
}

/// The line of a reply, with its line feed.
/// Of `Tiles` this is the line that tells how many names follow.
pub fn print_reply(alloc: Global, x: &Reply) -> Result<Vec<u8>, AllocError>
    ensures { IfOk result (λ text. text.items ≡ reply_text x.now) }
{
    let mut text = Vec::new(alloc);
    write_reply(&mut text, x)?;
    Ok(text)
}

/// Appends the line of a reply, with its line feed. Out of memory the bytes are as they were.
///
/// Of `Tiles` this is the line that tells how many names follow. The names are not appended.
pub fn write_reply(out: &mut Vec<u8>, x: &Reply) -> Result<(), AllocError>
    ensures written { OnOk result (out.new.items ≡ out.old.items ++ reply_text x.now) }
    ensures unchanged { OnErr result (out.new.items ≡ out.old.items) }
{
    let start = out.len();
    let written = append_reply(out, x);
    if written.is_err() {
        out.truncate(start);
    }
    written
}

/// Appends the line of a reply, or some bytes.
fn append_reply(out: &mut Vec<u8>, x: &Reply) -> Result<(), AllocError>
    ensures written { OnOk result (out.new.items ≡ out.old.items ++ reply_text x.now) }
    ensures kept { OnErr result (StandsInFront out.new.items out.old.items) }
{
    match x {
        Reply::Done => out.extend_from_slice(b"ok\n"),
        Reply::At { name, spin, kind } => append_place(out, name, *spin, *kind),
        Reply::Yes => out.extend_from_slice(b"yes\n"),
        Reply::No => out.extend_from_slice(b"no\n"),
        Reply::Level(crossings) => append_counted(out, b"level", u128::from(*crossings)),
        Reply::Dist(crossings) => append_counted(out, b"dist", u128::from(*crossings)),
        Reply::Path(walk) => append_path(out, walk),
        Reply::NoWalker => out.extend_from_slice(b"no walker\n"),
        Reply::Taken => out.extend_from_slice(b"taken\n"),
        Reply::Deep => out.extend_from_slice(b"deep\n"),
        Reply::Text(text) => append_text(out, text),
        Reply::NoText => out.extend_from_slice(b"none\n"),
        Reply::Tiles { size, .. } => append_counted(out, b"tiles", *size),
        Reply::Count(size) => append_counted(out, b"count", *size),
        Reply::Long => out.extend_from_slice(b"long\n"),
        Reply::Far => out.extend_from_slice(b"far\n"),
        Reply::TooBig(ring) => append_counted(out, b"too big", u128::from(*ring)),
        Reply::TooMany(size) => append_counted(out, b"too many", *size),
    }
}

/// Appends the line of a word, or of two, and a number, or some bytes.
fn append_counted(out: &mut Vec<u8>, word: &[u8], number: u128) -> Result<(), AllocError>
    ensures written { OnOk result
        (out.new.items ≡ out.old.items ++ number_words word.now number ++ line_feed) }
    ensures kept { OnErr result (StandsInFront out.new.items out.old.items) }
{
    out.extend_from_slice(word)?;
    append_number(out, b' ', number)?;
    out.push(b'\n')?;
    Ok(())
}

/// Appends the line of a walk, or some bytes.
fn append_path(out: &mut Vec<u8>, walk: &Walk) -> Result<(), AllocError>
    ensures written { OnOk result
        (out.new.items ≡ out.old.items ++ path_words walk.now ++ line_feed) }
    ensures kept { OnErr result (StandsInFront out.new.items out.old.items) }
{
    out.extend_from_slice(b"path ")?;
    write_walk(out, walk)?;
    out.push(b'\n')?;
    Ok(())
}

/// Appends the text of a walk, letter by letter, or nothing.
fn write_walk(out: &mut Vec<u8>, walk: &Walk) -> Result<(), AllocError>
    ensures written { OnOk result (out.new.items ≡ out.old.items ++ walk_text walk.now) }
    ensures unchanged { OnErr result (out.new.items ≡ out.old.items) }
{
    if walk.is_empty() {
        return out.extend_from_slice(b"-");
    }
    // All the room is taken here, so that no letter below has to ask for more.
    out.reserve(walk.len())?;
    for x in walk.letters() {
        out.push_reserved(byte_of(*x));
    }
    Ok(())
}

/// The byte of a letter.
fn byte_of(x: Letter) -> u8
    ensures { result ≡ letter_code x }
{
    match x {
        Letter::L => b'L',
        Letter::R => b'R',
        Letter::X => b'X',
    }
}

/// Appends the line of a text, or some bytes.
fn append_text(out: &mut Vec<u8>, text: &Bytes) -> Result<(), AllocError>
    ensures written { OnOk result
        (out.new.items ≡ out.old.items ++ text_words text.now ++ line_feed) }
    ensures kept { OnErr result (StandsInFront out.new.items out.old.items) }
{
    out.extend_from_slice(b"text ")?;
    out.extend_from_slice(text.as_slice())?;
    out.push(b'\n')?;
    Ok(())
}

/// Appends the line of a place, or some bytes.
fn append_place(out: &mut Vec<u8>, name: &Name, spin: u8, kind: u8) -> Result<(), AllocError>
    ensures written { OnOk result
        (out.new.items ≡ out.old.items ++ place_words name.now spin kind ++ line_feed) }
    ensures kept { OnErr result (StandsInFront out.new.items out.old.items) }
{
    out.extend_from_slice(b"at ")?;
    write_name(out, name)?;
    append_number(out, b' ', u128::from(spin))?;
    append_number(out, b' ', u128::from(kind))?;
    out.push(b'\n')?;
    Ok(())
}

/// Appends a byte and a number, or some bytes.
fn append_number(out: &mut Vec<u8>, separator: u8, number: u128) -> Result<(), AllocError>
    ensures written { OnOk result (out.new.items ≡ out.old.items ++ separator ∷ decimal number) }
    ensures kept { OnErr result (StandsInFront out.new.items out.old.items) }
{
    let mut buffer = Buffer::new();
    out.push(separator)?;
    out.extend_from_slice(buffer.format(number).as_bytes())
}
