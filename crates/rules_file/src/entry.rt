//! The values of a rules file, each taken from a reader of JSON.
ghost use Rattle.std.specs.Prelude.{◌≡◌, Bool, ℕ, List, vec_items, Some, None, Err, IfOk, OnOk, IfSome, IfNone, IfErr, option_and_then};
ghost use Rattle.serde_json.specs.Data.{Data, array as json_array, object, Members, no_members, put};
ghost use Rattle.serde_json.specs.Find.{as_number, as_u64, as_i64};
ghost use Rattle.serde_json.specs.View.{number_view};
ghost use Rattle.rules_file.specs.Parts.{HasCornerParts, HasStateParts};
ghost use Rattle.rules_file.specs.Spelling.{offset_json, SpellsByte, SpellsWord, SpellsOffset, SpellsRule, SpellsPair, SpellEach, SpellsArray, SpellsCorner, SpellsState, IsFirstMisfit};
ghost use Rattle.rules_file.specs.Taking.{value_read, items_read, members_read, value_at, items_at, members_at, HasValue, HasItems, HasMembers};

use crate::take::{Scalar, Unread, opens_array, opens_object, pass, pass_items, take_scalar};
use json::Reader;
use rules_data::{Claim, Corner, Rule, State};
use serde_json::Number;
use std::alloc::Global;

/// A value that a rules file has as JSON.
pub(crate) trait Entry: Sized + Drop {
    /// Which JSON spells which value, in a file with ranks or without.
    ghost spells: { Bool → Data → Self → Type 0 };

    /// Takes a JSON value, and gives what it spells; None where it spells nothing. Arrays and
    /// objects may nest `depth` deep.
    fn take(
        alloc: Global,
        reader: &mut Reader<'_>,
        depth: usize,
        ranked: bool,
    ) -> Result<Option<Self>, Unread>
        ensures passed { OnOk result (HasValue depth reader.old reader.new) }
        ensures some { IfOk result
            (λ o. IfSome o (λ x. spells ranked (value_at depth reader.old) x)) }
        ensures none { IfOk result
            (λ o. IfNone o ((x : Self) → ¬ spells ranked (value_at depth reader.old) x)) }
        ensures err { result ≡ Err Unread.Syntax → value_read depth reader.old ≡ None };
}

impl Entry for u8 {
    ghost spells = { λ _. SpellsByte };

    fn take(
        _alloc: Global,
        reader: &mut Reader<'_>,
        depth: usize,
        _ranked: bool,
    ) -> Result<Option<u8>, Unread> {
        match take_whole(reader, depth)? {
            Some(n) if n < 1 << 8 => Ok(Some(n as u8)),
            _ => Ok(None),
        }
    }
}

impl Entry for u32 {
    ghost spells = { λ _. SpellsWord };

    fn take(
        _alloc: Global,
        reader: &mut Reader<'_>,
        depth: usize,
        _ranked: bool,
    ) -> Result<Option<u32>, Unread> {
        match take_whole(reader, depth)? {
            Some(n) if n < 1 << 32 => Ok(Some(n as u32)),
            _ => Ok(None),
        }
    }
}

impl Entry for i8 {
    ghost spells = { λ _. SpellsOffset };

    fn take(
        _alloc: Global,
        reader: &mut Reader<'_>,
        depth: usize,
        _ranked: bool,
    ) -> Result<Option<i8>, Unread> {
        match take_integer(reader, depth)? {
            Some(z) if -128 <= z && z <= 127 => Ok(Some(z as i8)),
            _ => Ok(None),
        }
    }
}

impl Entry for Rule {
    ghost spells = { λ _. SpellsRule };

    fn take(
        _alloc: Global,
        reader: &mut Reader<'_>,
        depth: usize,
        _ranked: bool,
    ) -> Result<Option<Rule>, Unread> {
        match take_scalar(reader, depth)? {
            Scalar::Number(number) => match number.as_u64() {
                Some(state) if state < 1 << 32 => Ok(Some(Rule::Child(state as u32))),
                _ => Ok(None),
            },
            Scalar::Text("P") => Ok(Some(Rule::Parent)),
            Scalar::Text("L") => Ok(Some(Rule::Left)),
            Scalar::Text("R") => Ok(Some(Rule::Right)),
            Scalar::Text(_) | Scalar::Other => Ok(None),
        }
    }
}

impl Entry for Claim {
    ghost spells = { λ _. SpellsPair };

    fn take(
        alloc: Global,
        reader: &mut Reader<'_>,
        depth: usize,
        ranked: bool,
    ) -> Result<Option<Claim>, Unread> {
        if opens_array(reader, depth)? {
            take_pair(alloc, reader, depth - 1, ranked)
        } else {
            Ok(None)
        }
    }
}

impl Entry for Corner {
    ghost spells = { SpellsCorner };

    fn take(
        alloc: Global,
        reader: &mut Reader<'_>,
        depth: usize,
        ranked: bool,
    ) -> Result<Option<Corner>, Unread> {
        if !opens_object(reader, depth)? {
            return Ok(None);
        }
        let parts: CornerParts = take_parts(alloc, reader, depth - 1, ranked)?;
        let (Some(offsets), Some(outer)) = (parts.offsets, parts.outer) else {
            return Ok(None);
        };
        if ranked && parts.rank.is_none() {
            return Ok(None);
        }
        Ok(Some(Corner { offsets, outer }))
    }
}

impl Entry for State {
    ghost spells = { λ _. SpellsState };

    fn take(
        alloc: Global,
        reader: &mut Reader<'_>,
        depth: usize,
        ranked: bool,
    ) -> Result<Option<State>, Unread> {
        if !opens_object(reader, depth)? {
            return Ok(None);
        }
        let parts: StateParts = take_parts(alloc, reader, depth - 1, ranked)?;
        let (Some(kind), Some(off)) = (parts.kind, parts.off) else {
            return Ok(None);
        };
        let (Some(rules), Some(claims)) = (parts.rules, parts.claims) else {
            return Ok(None);
        };
        Ok(Some(State {
            kind,
            off,
            rules,
            claims,
        }))
    }
}

/// Takes a value, and gives the whole number that it is.
fn take_whole(reader: &mut Reader<'_>, depth: usize) -> Result<Option<u64>, Unread>
    ensures passed { OnOk result (HasValue depth reader.old reader.new) }
    ensures value { IfOk result
        (λ o. o ≡ option_and_then as_u64 (as_number (value_at depth reader.old))) }
    ensures err { result ≡ Err Unread.Syntax → value_read depth reader.old ≡ None }
{
    match take_scalar(reader, depth)? {
        Scalar::Number(number) => Ok(number.as_u64()),
        Scalar::Text(_) => Ok(None),
        Scalar::Other => Ok(None),
    }
}

/// Takes a value, and gives the integer that it is.
fn take_integer(reader: &mut Reader<'_>, depth: usize) -> Result<Option<i64>, Unread>
    ensures passed { OnOk result (HasValue depth reader.old reader.new) }
    ensures value { IfOk result
        (λ o. o ≡ option_and_then as_i64 (as_number (value_at depth reader.old))) }
    ensures spelt { IfOk result (λ o. IfSome o (λ z. value_at depth reader.old ≡ offset_json z)) }
    ensures err { result ≡ Err Unread.Syntax → value_read depth reader.old ≡ None }
{
    match take_scalar(reader, depth)? {
        Scalar::Number(number) => Ok(number.as_i64()),
        Scalar::Text(_) => Ok(None),
        Scalar::Other => Ok(None),
    }
}

/// Takes the items of a pair, a corner type and a place; None where they are no such pair.
fn take_pair(
    alloc: Global,
    reader: &mut Reader<'_>,
    depth: usize,
    ranked: bool,
) -> Result<Option<Claim>, Unread>
    ensures passed { OnOk result (HasItems depth reader.old reader.new) }
    ensures some { IfOk result
        (λ o. IfSome o (λ c. SpellsPair (json_array (items_at depth reader.old)) c)) }
    ensures none { IfOk result
        (λ o. IfNone o ((c : Claim) → ¬ SpellsPair (json_array (items_at depth reader.old)) c)) }
    ensures err { result ≡ Err Unread.Syntax → items_read depth reader.old ≡ None }
{
    if reader.take_end_array() {
        return Ok(None);
    }
    let corner = u32::take(alloc, reader, depth, ranked)?;
    if reader.take_end_array() {
        return Ok(None);
    }
    let place = u8::take(alloc, reader, depth, ranked)?;
    if !reader.take_end_array() {
        pass_items(reader, depth)?;
        return Ok(None);
    }
    match (corner, place) {
        (Some(corner), Some(place)) => Ok(Some(Claim { corner, place })),
        _ => Ok(None),
    }
}

/// Takes the items of an array, and gives the values that they spell, or the place of the first
/// item that spells none.
pub(crate) fn take_entries<T: Entry>(
    alloc: Global,
    reader: &mut Reader<'_>,
    depth: usize,
    ranked: bool,
) -> Result<Result<Vec<T>, usize>, Unread>
    ensures passed { OnOk result (HasItems depth reader.old reader.new) }
    ensures found { IfOk result
        (λ r. IfOk r (λ v. SpellEach (T.spells ranked) (items_at depth reader.old) v.items)) }
    ensures misfit { IfOk result
        (λ r. IfErr r (IsFirstMisfit (T.spells ranked) (items_at depth reader.old))) }
    ensures err { result ≡ Err Unread.Syntax → items_read depth reader.old ≡ None }
{
    let mut found = Vec::new(alloc);
    'entries: while !reader.take_end_array() {
        match T::take(alloc, reader, depth, ranked)? {
            Some(value) => found.push(value)?,
            None => {
                pass_items(reader, depth)?;
                return Ok(Err(found.len()));
            }
        }
    }
    Ok(Ok(found))
}

/// Takes a value, and gives the values that its items spell; None where it is no array or an item
/// spells none.
fn take_list<T: Entry>(
    alloc: Global,
    reader: &mut Reader<'_>,
    depth: usize,
    ranked: bool,
) -> Result<Option<Vec<T>>, Unread>
    ensures passed { OnOk result (HasValue depth reader.old reader.new) }
    ensures some { IfOk result
        (λ o. IfSome o
        (λ v. SpellsArray (T.spells ranked) (value_at depth reader.old) v.items)) }
    ensures none { IfOk result
        (λ o. IfNone o ((xs : List T)
        → ¬ SpellsArray (T.spells ranked) (value_at depth reader.old) xs)) }
    ensures err { result ≡ Err Unread.Syntax → value_read depth reader.old ≡ None }
{
    if !opens_array(reader, depth)? {
        return Ok(None);
    }
    match take_entries(alloc, reader, depth - 1, ranked)? {
        Ok(values) => Ok(Some(values)),
        Err(_) => Ok(None),
    }
}

/// The parts of an object that are kept. Of a name that comes twice the last value counts.
pub(crate) trait Parts: Sized + Drop {
    /// What an object says of the parts, in a file with ranks or without.
    ghost fits: { Bool → Data → Self → Type 0 };

    /// The parts of an object with no member.
    fn none() -> Self
        ensures { (ranked : Bool) → fits ranked (object no_members) result };

    /// Takes the value of a member, and keeps what it says.
    fn take_member(
        &mut self,
        alloc: Global,
        name: &str,
        reader: &mut Reader<'_>,
        depth: usize,
        ranked: bool,
    ) -> Result<(), Unread>
        ensures passed { OnOk result (HasValue depth reader.old reader.new) }
        ensures kept { OnOk result ((ms : Members) → fits ranked (object ms) self.old
            → fits ranked (object (put name.now (value_at depth reader.old) ms)) self.new) }
        ensures err { result ≡ Err Unread.Syntax → value_read depth reader.old ≡ None };
}

/// Takes the members of an object, and gives its parts.
pub(crate) fn take_parts<P: Parts>(
    alloc: Global,
    reader: &mut Reader<'_>,
    depth: usize,
    ranked: bool,
) -> Result<P, Unread>
    ensures passed { OnOk result (HasMembers depth reader.old reader.new) }
    ensures fits { IfOk result
        (λ p. P.fits ranked (object (members_at depth reader.old)) p) }
    ensures err { result ≡ Err Unread.Syntax → members_read depth no_members reader.old ≡ None }
{
    let mut parts = P::none();
    'members: loop {
        match reader.next_key() {
            Err(_) => return Err(Unread::Syntax),
            Ok(None) => return Ok(parts),
            Ok(Some(name)) => parts.take_member(alloc, name, reader, depth, ranked)?,
        }
    }
}

#[derive(Drop)]
struct CornerParts {
    offsets: Option<Vec<i8>>,
    outer: Option<Claim>,
    rank: Option<u32>,
}

impl Parts for CornerParts {
    ghost fits = { λ _ d p. HasCornerParts vec_items d p.offsets p.outer p.rank };

    fn none() -> CornerParts {
        CornerParts {
            offsets: None,
            outer: None,
            rank: None,
        }
    }

    fn take_member(
        &mut self,
        alloc: Global,
        name: &str,
        reader: &mut Reader<'_>,
        depth: usize,
        ranked: bool,
    ) -> Result<(), Unread> {
        match name {
            "h" => {
                self.offsets = take_list(alloc, reader, depth, ranked)?;
                Ok(())
            }
            "outer" => {
                self.outer = Claim::take(alloc, reader, depth, ranked)?;
                Ok(())
            }
            "rank" => {
                self.rank = u32::take(alloc, reader, depth, ranked)?;
                Ok(())
            }
            _ => pass(reader, depth),
        }
    }
}

#[derive(Drop)]
struct StateParts {
    kind: Option<u8>,
    off: Option<u8>,
    rules: Option<Vec<Rule>>,
    claims: Option<Vec<Claim>>,
}

impl Parts for StateParts {
    ghost fits = { λ _ d p. HasStateParts vec_items vec_items d p.kind p.off p.rules
        p.claims };

    fn none() -> StateParts {
        StateParts {
            kind: None,
            off: None,
            rules: None,
            claims: None,
        }
    }

    fn take_member(
        &mut self,
        alloc: Global,
        name: &str,
        reader: &mut Reader<'_>,
        depth: usize,
        ranked: bool,
    ) -> Result<(), Unread> {
        match name {
            "kind" => {
                self.kind = u8::take(alloc, reader, depth, ranked)?;
                Ok(())
            }
            "off" => {
                self.off = u8::take(alloc, reader, depth, ranked)?;
                Ok(())
            }
            "rules" => {
                self.rules = take_list(alloc, reader, depth, ranked)?;
                Ok(())
            }
            "claims" => {
                self.claims = take_list(alloc, reader, depth, ranked)?;
                Ok(())
            }
            _ => pass(reader, depth),
        }
    }
}
