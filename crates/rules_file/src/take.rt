//! Taking JSON values from a reader, with no tree built.
ghost use Rattle.std.specs.Prelude.{◌≡◌, None, Ok, Err, IfOk, OnOk, true, false};
ghost use Rattle.serde_json.specs.Data.{no_members};
ghost use Rattle.serde_json.specs.Find.{as_array, as_object};
ghost use Rattle.rules_file.specs.Taking.{value_read, items_read, members_read, value_at, HasValue, HasItems, HasMembers, OpensArray, OpensObject, Begins, IsScalar};

use crate::number::number;
use json::{Reader, Token};
use serde_json::Number;
use std::alloc::{AllocError, AllocFailed};

/// Why nothing was taken: the text is no JSON text, or memory ran out.
#[derive(Clone, Copy, Debug, PartialEq, Eq, Drop)]
pub(crate) enum Unread {
    Syntax,
    Memory,
}

impl From<AllocError> for Unread {
    ghost use Rattle.rules_file.specs.declared.take.Unread.TheVariants.{Memory};
    ghost use Rattle.std.specs.Prelude.{◌≡◌};

    ghost from_gives = { λ _ e. e ≡ Memory };

    fn from(_refused: AllocError) -> Unread {
        Unread::Memory
    }
}

impl<T: Drop> From<AllocFailed<T>> for Unread {
    ghost use Rattle.rules_file.specs.declared.take.Unread.TheVariants.{Memory};
    ghost use Rattle.std.specs.Prelude.{◌≡◌};

    ghost from_gives = { λ _ e. e ≡ Memory };

    fn from(_refused: AllocFailed<T>) -> Unread {
        Unread::Memory
    }
}

/// What a value begins with. Of an array or an object the rest is still to come.
#[derive(Clone, Copy, Drop)]
pub(crate) enum Begun<'a> {
    Number(Number),
    Text(&'a str),
    Plain,
    Array,
    Object,
}

/// The number or the string that a value is.
#[derive(Clone, Copy, Drop)]
pub(crate) enum Scalar<'a> {
    Number(Number),
    Text(&'a str),
    Other,
}

/// Takes the first token of a value. Arrays and objects may nest `depth` deep.
fn begin<'a>(reader: &mut Reader<'a>, depth: usize) -> Result<Begun<'a>, Unread>
    ensures begun { IfOk result (λ b. Begins depth reader.old b reader.new) }
    ensures err { result ≡ Err Unread.Syntax → value_read depth reader.old ≡ None }
{
    let token = reader.next().ok_or(Unread::Syntax)?;
    match token {
        Token::Number(text) => match number(text) {
            Some(number) => Ok(Begun::Number(number)),
            None => Err(Unread::Syntax),
        },
        Token::String(text) => Ok(Begun::Text(text)),
        Token::Bool(_) => Ok(Begun::Plain),
        Token::Null => Ok(Begun::Plain),
        Token::BeginArray => if depth == 0 {
            Err(Unread::Syntax)
        } else {
            Ok(Begun::Array)
        },
        Token::BeginObject => if depth == 0 {
            Err(Unread::Syntax)
        } else {
            Ok(Begun::Object)
        },
        Token::EndObject | Token::EndArray | Token::Key(_) | Token::Bad => Err(Unread::Syntax),
    }
}

/// Passes over a value.
#[cycle(pass)]
pub(crate) fn pass(reader: &mut Reader<'_>, depth: usize) -> Result<(), Unread>
    ensures passed { OnOk result (HasValue depth reader.old reader.new) }
    ensures err { result ≡ Err Unread.Syntax → value_read depth reader.old ≡ None }
{
    match begin(reader, depth)? {
        Begun::Number(_) | Begun::Text(_) | Begun::Plain => Ok(()),
        Begun::Array => pass_items(reader, depth - 1),
        Begun::Object => pass_members(reader, depth - 1),
    }
}

/// Passes over what is left of an array.
#[cycle(pass)]
pub(crate) fn pass_items(reader: &mut Reader<'_>, depth: usize) -> Result<(), Unread>
    ensures passed { OnOk result (HasItems depth reader.old reader.new) }
    ensures err { result ≡ Err Unread.Syntax → items_read depth reader.old ≡ None }
{
    'items: while !reader.take_end_array() {
        pass(reader, depth)?;
    }
    Ok(())
}

/// Passes over what is left of an object.
#[cycle(pass)]
pub(crate) fn pass_members(reader: &mut Reader<'_>, depth: usize) -> Result<(), Unread>
    ensures passed { OnOk result (HasMembers depth reader.old reader.new) }
    ensures err { result ≡ Err Unread.Syntax → members_read depth no_members reader.old ≡ None }
{
    'members: loop {
        match reader.next_key() {
            Err(_) => return Err(Unread::Syntax),
            Ok(None) => return Ok(()),
            Ok(Some(_)) => pass(reader, depth)?,
        }
    }
}

/// Takes a value, and gives the number or the string that it is.
pub(crate) fn take_scalar<'a>(reader: &mut Reader<'a>, depth: usize) -> Result<Scalar<'a>, Unread>
    ensures passed { OnOk result (HasValue depth reader.old reader.new) }
    ensures kind { IfOk result (λ s. IsScalar s (value_at depth reader.old)) }
    ensures err { result ≡ Err Unread.Syntax → value_read depth reader.old ≡ None }
{
    match begin(reader, depth)? {
        Begun::Number(number) => Ok(Scalar::Number(number)),
        Begun::Text(text) => Ok(Scalar::Text(text)),
        Begun::Plain => Ok(Scalar::Other),
        Begun::Array => {
            pass_items(reader, depth - 1)?;
            Ok(Scalar::Other)
        }
        Begun::Object => {
            pass_members(reader, depth - 1)?;
            Ok(Scalar::Other)
        }
    }
}

/// Takes the bracket that opens an array. Where another value stands it is passed over, and the
/// answer is false.
pub(crate) fn opens_array(reader: &mut Reader<'_>, depth: usize) -> Result<bool, Unread>
    ensures opens { result ≡ Ok true → OpensArray depth reader.old reader.new }
    ensures other { result ≡ Ok false → HasValue depth reader.old reader.new
        × (as_array (value_at depth reader.old) ≡ None) }
    ensures err { result ≡ Err Unread.Syntax → value_read depth reader.old ≡ None }
{
    match begin(reader, depth)? {
        Begun::Array => Ok(true),
        Begun::Number(_) | Begun::Text(_) | Begun::Plain => Ok(false),
        Begun::Object => {
            pass_members(reader, depth - 1)?;
            Ok(false)
        }
    }
}

/// Takes the brace that opens an object. Where another value stands it is passed over, and the
/// answer is false.
pub(crate) fn opens_object(reader: &mut Reader<'_>, depth: usize) -> Result<bool, Unread>
    ensures opens { result ≡ Ok true → OpensObject depth reader.old reader.new }
    ensures other { result ≡ Ok false → HasValue depth reader.old reader.new
        × (as_object (value_at depth reader.old) ≡ None) }
    ensures err { result ≡ Err Unread.Syntax → value_read depth reader.old ≡ None }
{
    match begin(reader, depth)? {
        Begun::Object => Ok(true),
        Begun::Number(_) | Begun::Text(_) | Begun::Plain => Ok(false),
        Begun::Array => {
            pass_items(reader, depth - 1)?;
            Ok(false)
        }
    }
}
