//! Reading a rules file.
ghost use Rattle.std.specs.Prelude.{◌≡◌, ◌-◌, ◌^◌, ◌<◌, ◌⊎◌, ℕ, true, length, vec_items, Some, None, Err, IsUtf8, IfSome, IfNone, IfOk, IfErr, OnOk, MatchResult};
ghost use Rattle.tree_model.specs.Automata.{TreeAutomaton};
ghost use Rattle.serde_json.specs.Data.{Data};
ghost use Rattle.serde_json.specs.Read.{read};
ghost use Rattle.rules_file.specs.Spelling.{HasVersion, SpellsTables, IsTextOf, IsRulesFile};
ghost use Rattle.rules_file.specs.Faults.{IsFirstFault, IsNoObject, Refuses};
ghost use Rattle.rules_file.specs.Parts.{HasTables, HasEntries, IsSmall, RefusesText, table_result};
ghost use Rattle.rules_file.specs.Taking.{value_read, value_at, text_value, HasValue};

use crate::entry::{Entry, Parts, take_entries, take_parts};
use crate::fault::{Part, RulesFault};
use crate::take::{Unread, opens_array, opens_object, pass};
use json::{Reader, Scratch};
use rules_data::{Automaton, Corner, State};
use std::alloc::Global;

/// How deep arrays and objects may nest.
const MAX_DEPTH: usize = 127;

/// Reads a rules file of fewer than 2^32 - 1 bytes. `Syntax` where the bytes are no JSON text as
/// `serde_json` reads it; `Shape` where the value of the text is none of an automaton, with the
/// first part that fails, in the order of `Part`, and its index; `Memory` at any point.
pub fn read_rules(alloc: Global, bytes: &[u8]) -> Result<Automaton, RulesFault>
    requires { length bytes.now < 2 ^ 32 - 1 }
    ensures ok { IfOk result (λ a. IsRulesFile bytes.now a) }
    ensures complete { (a : TreeAutomaton) → IsRulesFile bytes.now a
        → MatchResult result (λ b. b ≡ a) (λ e. e ≡ RulesFault.Memory) }
    ensures syntax { result ≡ Err RulesFault.Syntax → (d : Data) → ¬ IsTextOf bytes.now d }
    ensures no_text { ((d : Data) → ¬ IsTextOf bytes.now d)
        → (result ≡ Err RulesFault.Syntax) ⊎ (result ≡ Err RulesFault.Memory) }
    ensures shape { (part : Part) (i : ℕ) → result ≡ Err (RulesFault.Shape part i)
        → (d : Data) × IsTextOf bytes.now d × IsFirstFault d part i }
    ensures misshapen { (d : Data) (part : Part) (i : ℕ) → IsTextOf bytes.now d
        → IsFirstFault d part i
        → (result ≡ Err (RulesFault.Shape part i)) ⊎ (result ≡ Err RulesFault.Memory) }
{
    match std::str::from_utf8(bytes) {
        Ok(text) => read_text(alloc, text),
        Err(_) => Err(RulesFault::Syntax),
    }
}

/// The automaton of a text. A text of version 1 is read twice, since its corner types have ranks,
/// and the version may stand behind them.
fn read_text(alloc: Global, text: &str) -> Result<Automaton, RulesFault>
    requires { length text.now < 2 ^ 32 - 1 }
    ensures text { OnOk result (read text.now ≡ Some (text_value text.now)) }
    ensures ok { IfOk result (λ a. SpellsTables (text_value text.now) a) }
    ensures err { IfErr result (λ e. RefusesText text.now e) }
{
    let Some(tables) = scan(alloc, text, false)? else {
        return Err(misshapen(Part::Whole));
    };
    match tables.version {
        Some(1) => {
            drop(tables);
            read_ranked(alloc, text)
        }
        Some(2) => finish(tables, false),
        _ => Err(misshapen(Part::Version)),
    }
}

/// The automaton of a text of version 1.
fn read_ranked(alloc: Global, text: &str) -> Result<Automaton, RulesFault>
    requires short { length text.now < 2 ^ 32 - 1 }
    requires version { HasVersion true (text_value text.now) }
    ensures text { OnOk result (read text.now ≡ Some (text_value text.now)) }
    ensures ok { IfOk result (λ a. SpellsTables (text_value text.now) a) }
    ensures err { IfErr result (λ e. RefusesText text.now e) }
{
    match scan(alloc, text, true)? {
        Some(tables) => finish(tables, true),
        None => Err(misshapen(Part::Whole)),
    }
}

/// The automaton of tables that were read as those of a file with ranks or without.
fn finish(tables: Tables, ranked: bool) -> Result<Automaton, RulesFault>
    requires roots { IsSmall tables.roots }
    requires corners { IsSmall tables.corners }
    requires states { IsSmall tables.states }
    ensures ok { IfOk result (λ a. (d : Data) → HasVersion ranked d
        → HasTables vec_items vec_items vec_items ranked d tables.version tables.scale tables.roots
        tables.corners tables.states → SpellsTables d a) }
    ensures err { IfErr result (λ e. (d : Data) → HasVersion ranked d
        → HasTables vec_items vec_items vec_items ranked d tables.version tables.scale tables.roots
        tables.corners tables.states → Refuses d e) }
{
    if ranked && tables.scale.is_none() {
        return Err(misshapen(Part::Scale));
    }
    let roots = entries(tables.roots, Part::Roots, Part::Roots)?;
    let corners = entries(tables.corners, Part::Corners, Part::Corner)?;
    let states = entries(tables.states, Part::States, Part::State)?;
    Ok(Automaton {
        states,
        corners,
        roots,
    })
}

/// The entries of a table. It fails as `whole_part` where there is no array, and as `entry_part` at
/// its first bad entry.
fn entries<T: Drop>(
    table: Option<Result<Vec<T>, usize>>,
    whole_part: Part,
    entry_part: Part,
) -> Result<Vec<T>, RulesFault>
    requires { IsSmall table }
    ensures { result ≡ table_result table whole_part entry_part }
{
    match table {
        Some(Ok(values)) => Ok(values),
        Some(Err(at)) => Err(RulesFault::Shape {
            part: entry_part,
            index: at as u32,
        }),
        None => Err(misshapen(whole_part)),
    }
}

/// The tables of a text, None where its value is no object.
fn scan(alloc: Global, text: &str, ranked: bool) -> Result<Option<Tables>, Unread>
    ensures text { OnOk result (read text.now ≡ Some (text_value text.now)) }
    ensures some { IfOk result (λ o. IfSome o
        (λ t. HasTables vec_items vec_items vec_items ranked (text_value text.now) t.version t.scale
        t.roots t.corners t.states)) }
    ensures object { IfOk result (λ o. IfSome o (λ _. ¬ IsNoObject (text_value text.now))) }
    ensures none { IfOk result (λ o. IfNone o (IsNoObject (text_value text.now))) }
    ensures err { result ≡ Err Unread.Syntax → read text.now ≡ None }
{
    let mut scratch = Scratch::new(alloc);
    let mut reader = Reader::new(text, &mut scratch)?;
    let tables = take_tables(alloc, &mut reader, ranked)?;
    if reader.next().is_some() {
        return Err(Unread::Syntax);
    }
    Ok(tables)
}

/// Takes a value, and gives its tables, None where it is no object.
fn take_tables(
    alloc: Global,
    reader: &mut Reader<'_>,
    ranked: bool,
) -> Result<Option<Tables>, Unread>
    ensures passed { OnOk result (HasValue 127 reader.old reader.new) }
    ensures some { IfOk result (λ o. IfSome o
        (λ t. HasTables vec_items vec_items vec_items ranked (value_at 127 reader.old) t.version
        t.scale t.roots t.corners t.states)) }
    ensures object { IfOk result (λ o. IfSome o (λ _. ¬ IsNoObject (value_at 127 reader.old))) }
    ensures none { IfOk result (λ o. IfNone o (IsNoObject (value_at 127 reader.old))) }
    ensures err { result ≡ Err Unread.Syntax → value_read 127 reader.old ≡ None }
{
    if !opens_object(reader, MAX_DEPTH)? {
        return Ok(None);
    }
    let tables = take_parts(alloc, reader, MAX_DEPTH - 1, ranked)?;
    Ok(Some(tables))
}

/// Takes a value, and gives the values that its items spell, or the place of the first item that
/// spells none; None where it is no array.
fn take_table<T: Entry>(
    alloc: Global,
    reader: &mut Reader<'_>,
    depth: usize,
    ranked: bool,
) -> Result<Option<Result<Vec<T>, usize>>, Unread>
    ensures passed { OnOk result (HasValue depth reader.old reader.new) }
    ensures entries { IfOk result
        (λ t. HasEntries vec_items (T.spells ranked) (value_at depth reader.old) t) }
    ensures err { result ≡ Err Unread.Syntax → value_read depth reader.old ≡ None }
{
    if !opens_array(reader, depth)? {
        return Ok(None);
    }
    let entries = take_entries(alloc, reader, depth - 1, ranked)?;
    Ok(Some(entries))
}

/// The parts of a rules file: of each table its entries, or the place of its first bad entry.
#[derive(Drop)]
struct Tables {
    version: Option<u32>,
    scale: Option<u32>,
    roots: Option<Result<Vec<u32>, usize>>,
    corners: Option<Result<Vec<Corner>, usize>>,
    states: Option<Result<Vec<State>, usize>>,
}

impl Parts for Tables {
    ghost fits = { λ ranked d t. HasTables vec_items vec_items vec_items ranked d t.version t.scale
        t.roots t.corners t.states };

    fn none() -> Tables {
        Tables {
            version: None,
            scale: None,
            roots: None,
            corners: None,
            states: None,
        }
    }

    fn take_member(
        &mut self,
        alloc: Global,
        name: &str,
        reader: &mut Reader<'_>,
        depth: usize,
        ranked: bool,
    ) -> Result<(), Unread> {
        match name {
            "version" => {
                self.version = u32::take(alloc, reader, depth, ranked)?;
                Ok(())
            }
            "scale" => {
                self.scale = u32::take(alloc, reader, depth, ranked)?;
                Ok(())
            }
            "roots" => {
                self.roots = take_table(alloc, reader, depth, ranked)?;
                Ok(())
            }
            "corners" => {
                self.corners = take_table(alloc, reader, depth, ranked)?;
                Ok(())
            }
            "states" => {
                self.states = take_table(alloc, reader, depth, ranked)?;
                Ok(())
            }
            _ => pass(reader, depth),
        }
    }
}

fn misshapen(part: Part) -> RulesFault
    ensures { result ≡ RulesFault.Shape part 0 }
{
    RulesFault::Shape { part, index: 0 }
}
