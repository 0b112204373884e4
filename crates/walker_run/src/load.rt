//! The files that the words name: fetched, read and checked; and the rules of a teacher.
ghost use Rattle.std.specs.Prelude.{◌≡◌, ◌⊎◌, ◌<◌, ◌≤◌, ℕ, List, length, IsTrue, IfOk, Err};
ghost use Rattle.tile_model.specs.Validity.{IsValid};
ghost use Rattle.tree_model.specs.Conditions.{IsAccepted};
ghost use Rattle.call_words.specs.Tasks.{AreCells};
ghost use Rattle.walker_run.specs.Held.{Loaded, Refused, Holds, HoldsTooMany, IsTess, IsRules};
ghost use Rattle.walker_run.specs.Held.{IsMade, IsLog};
ghost use Rattle.walker_run.specs.Effects.{files_seen, teacher_seen, line_of, lesson_of};
ghost use Rattle.walker_run.specs.Effects.{OnlyFetches, IsRefusedBy, IsNoKind};

use crate::line::{Line, Role};
use crate::stop::Stop;
use log_model::Change;
use log_text::{LogTextFault, read_log};
use rules_file::{RulesFault, read_rules};
use state_learner::{LearnFault, Teacher};
use std::alloc::Global;
use structure_check::{Rules, check};
use tess_text::{TessFault, read_tess};
use tile_kinds::Tessellation;
use way_io::{FetchFault, Files};

/// The greatest number of bytes of a tessellation file.
pub const TESS_LIMIT: u32 = 1_048_576;

/// The greatest number of bytes of a rules file.
pub const RULES_LIMIT: u32 = 134_217_728;

/// The greatest number of bytes of a log file.
pub const LOG_LIMIT: u32 = 33_554_432;

/// The bytes of a file of at most `limit` bytes.
fn fetch<F: Files>(
    alloc: Global,
    files: &mut F,
    role: Role,
    name: &str,
    limit: u32,
) -> Result<Vec<u8>, Stop>
    ensures ok { IsTrue F.tells
        → IfOk result (λ bytes. Holds (F.contents files.old) name.now limit bytes.items) }
    ensures within { IfOk result (λ bytes. length bytes.items ≤ limit) }
    ensures refused { IsTrue F.tells → (line : Line) → result ≡ Err (Stop.Say line)
        → (line ≡ Line.FileFault role)
        ⊎ ((line ≡ Line.FileTooLong role)
        × HoldsTooMany (F.contents files.old) name.now limit) }
    ensures effects { OnlyFetches F.tells
        (files_seen F.contents F.fetch_faults F.store_faults files.old)
        (files_seen F.contents F.fetch_faults F.store_faults files.new) (line_of result) }
{
    match files.fetch(alloc, name, limit) {
        Ok(bytes) => Ok(bytes),
        Err(FetchFault::Failed) => Err(Stop::Say(Line::FileFault(role))),
        Err(FetchFault::TooLong) => Err(Stop::Say(Line::FileTooLong(role))),
        Err(FetchFault::Memory) => Err(Stop::Memory),
    }
}

/// The tessellation that a file holds.
pub fn load_tess<F: Files>(alloc: Global, files: &mut F, name: &str) -> Result<Tessellation, Stop>
    ensures ok { IsTrue F.tells
        → IfOk result (λ t. IsTess (F.contents files.old) name.now (Loaded t)) }
    ensures refused { IsTrue F.tells → (line : Line) → result ≡ Err (Stop.Say line)
        → (line ≡ Line.FileFault Role.Tess)
        ⊎ IsTess (F.contents files.old) name.now (Refused line) }
    ensures valid { IfOk result IsValid }
    ensures effects { OnlyFetches F.tells
        (files_seen F.contents F.fetch_faults F.store_faults files.old)
        (files_seen F.contents F.fetch_faults F.store_faults files.new) (line_of result) }
{
    let bytes = fetch(alloc, files, Role::Tess, name, TESS_LIMIT)?;
    match read_tess(alloc, &bytes) {
        Ok(tess) => Ok(tess),
        Err(TessFault::Line(line)) => Err(Stop::Say(Line::TessLine(line))),
        Err(TessFault::Kinds(fault)) => Err(Stop::Say(Line::TessKinds(fault))),
        Err(TessFault::Memory) => Err(Stop::Memory),
    }
}

/// The tessellation that a file holds, which has a kind of this number.
pub fn load_kind<F: Files>(
    alloc: Global,
    files: &mut F,
    name: &str,
    kind: u32,
) -> Result<Tessellation, Stop>
    ensures ok { IsTrue F.tells
        → IfOk result (λ t. IsTess (F.contents files.old) name.now (Loaded t)) }
    ensures kind { IfOk result (λ t. kind < length t) }
    ensures refused { IsTrue F.tells → (line : Line) → result ≡ Err (Stop.Say line)
        → (line ≡ Line.FileFault Role.Tess)
        ⊎ (IsTess (F.contents files.old) name.now (Refused line)
        ⊎ IsNoKind (F.contents files.old) name.now kind line) }
    ensures valid { IfOk result IsValid }
    ensures effects { OnlyFetches F.tells
        (files_seen F.contents F.fetch_faults F.store_faults files.old)
        (files_seen F.contents F.fetch_faults F.store_faults files.new) (line_of result) }
{
    let tess = load_tess(alloc, files, name)?;
    if kind >= u32::from(tess.kinds()) {
        return Err(Stop::Say(Line::Usage));
    }
    Ok(tess)
}

/// The rules that a file holds, checked over a tessellation.
pub fn load_rules<F: Files>(
    alloc: Global,
    files: &mut F,
    tess: Tessellation,
    name: &str,
) -> Result<Rules, Stop>
    ensures ok { IsTrue F.tells
        → IfOk result (λ r. IsRules (F.contents files.old) tess name.now (Loaded r.automaton)) }
    ensures refused { IsTrue F.tells → (line : Line) → result ≡ Err (Stop.Say line)
        → (line ≡ Line.FileFault Role.Rules)
        ⊎ IsRules (F.contents files.old) tess name.now (Refused line) }
    ensures kinds { IfOk result (λ r. r.kinds ≡ tess) }
    ensures accepted { IfOk result (λ r. IsAccepted r.kinds r.automaton) }
    ensures effects { OnlyFetches F.tells
        (files_seen F.contents F.fetch_faults F.store_faults files.old)
        (files_seen F.contents F.fetch_faults F.store_faults files.new) (line_of result) }
{
    let bytes = fetch(alloc, files, Role::Rules, name, RULES_LIMIT)?;
    let automaton = match read_rules(alloc, &bytes) {
        Ok(automaton) => automaton,
        Err(RulesFault::Syntax) => return Err(Stop::Say(Line::RulesSyntax)),
        Err(RulesFault::Shape { part, index }) => {
            return Err(Stop::Say(Line::RulesShape { part, index }));
        }
        Err(RulesFault::Memory) => return Err(Stop::Memory),
    };
    match check(tess, automaton) {
        Ok(rules) => Ok(rules),
        Err((_, _, broken)) => Err(Stop::Say(Line::Broken(broken))),
    }
}

/// The log that a file holds.
pub fn load_log<F: Files>(alloc: Global, files: &mut F, name: &str) -> Result<Vec<Change>, Stop>
    ensures ok { IsTrue F.tells
        → IfOk result (λ log. IsLog (F.contents files.old) name.now (Loaded log.items)) }
    ensures refused { IsTrue F.tells → (line : Line) → result ≡ Err (Stop.Say line)
        → (line ≡ Line.FileFault Role.Log)
        ⊎ IsLog (F.contents files.old) name.now (Refused line) }
    ensures effects { OnlyFetches F.tells
        (files_seen F.contents F.fetch_faults F.store_faults files.old)
        (files_seen F.contents F.fetch_faults F.store_faults files.new) (line_of result) }
{
    let bytes = fetch(alloc, files, Role::Log, name, LOG_LIMIT)?;
    match read_log(alloc, &bytes) {
        Ok(log) => Ok(log),
        Err(LogTextFault::Line(line)) => Err(Stop::Say(Line::LogLine(line))),
        Err(LogTextFault::Memory) => Err(Stop::Memory),
    }
}

/// The rules that a teacher answers for a tessellation, with so many cells.
pub fn learn_rules<T: Teacher>(
    alloc: Global,
    teacher: &mut T,
    tess: &Tessellation,
    cells: u32,
) -> Result<Rules, Stop>
    requires { AreCells cells }
    ensures ok { IfOk result
        (λ r. IsMade (lesson_of result) tess.now cells (Loaded r.automaton)) }
    ensures refused { (line : Line) → result ≡ Err (Stop.Say line)
        → IsMade (lesson_of result) tess.now cells (Refused line) }
    ensures kinds { IfOk result (λ r. r.kinds ≡ tess.now) }
    ensures accepted { IfOk result (λ r. IsAccepted r.kinds r.automaton) }
    ensures meaning { (line : Line) → result ≡ Err (Stop.Say line)
        → IsRefusedBy tess.now cells (teacher_seen T.give_ups T.last teacher.old)
        (teacher_seen T.give_ups T.last teacher.new) line }
{
    match teacher.teach(alloc, tess, cells) {
        Ok(rules) => Ok(rules),
        Err(LearnFault::Spherical { p, q }) => Err(Stop::Say(Line::Spherical { p, q })),
        Err(LearnFault::Closed(n)) => Err(Stop::Say(Line::Closed(n))),
        Err(LearnFault::GaveUp(_)) => Err(Stop::Say(Line::GaveUp(cells))),
        Err(LearnFault::Memory) => Err(Stop::Memory),
    }
}
