//! Logs of changes: made for two walks, and verified.
ghost use Rattle.std.specs.Prelude.{◌≡◌, ◌<◌, All, length};
ghost use Rattle.log_model.specs.LogTexts.{HasText};
ghost use Rattle.call_words.specs.Tasks.{WriteLog, VerifyLog};
ghost use Rattle.walker_run.specs.Effects.{TeacherSeen, files_seen, end_of, IsCarriedOut};
ghost use Rattle.walker_run.specs.Effects.{IsLogged, IsVerified};

use crate::line::Line;
use crate::load::{load_kind, load_log, load_rules};
use crate::stop::Stop;
use crate::tasks::Work;
use derivation_log::make_log;
use log_checker::{LogFault, verify};
use log_model::Change;
use log_text::print_log;
use std::alloc::Global;
use step_engine::StepFault;
use structure_check::Rules;
use tile_kinds::Tessellation;
use walk_words::Walk;
use way_io::Files;

/// The text of a log that leads from the walk `u` to the walk `w`, by the rules of a file over the
/// tessellation of a file.
pub fn write_log<F: Files>(
    alloc: Global,
    files: &mut F,
    tess: &str,
    rules: &str,
    kind: u32,
    u: &Walk,
    w: &Walk,
) -> Result<Work, Stop>
    ensures { (seen : TeacherSeen) → IsCarriedOut F.tells
        (files_seen F.contents F.fetch_faults F.store_faults files.old)
        (files_seen F.contents F.fetch_faults F.store_faults files.new)
        seen seen (WriteLog tess.now rules.now kind u.now w.now) (end_of result) }
{
    let tess = load_kind(alloc, files, tess, kind)?;
    let rules = load_rules(alloc, files, tess, rules)?;
    log_of(alloc, &rules, kind as u8, u, w)
}

/// The text of a log that leads from the walk `u` to the walk `w`, or the line that tells why there
/// is none.
fn log_of(alloc: Global, rules: &Rules, kind: u8, u: &Walk, w: &Walk) -> Result<Work, Stop>
    requires { kind < length rules.now.kinds }
    ensures { IsLogged rules.now.kinds kind u.now w.now (end_of result) }
{
    match make_log(alloc, rules, kind, u, w) {
        Ok(Some(log)) => Ok(Work::Write(print_log(alloc, &log)?)),
        Ok(None) => Ok(Work::Say(Line::Apart)),
        Err(StepFault::Deep) => Ok(Work::Say(Line::TooDeep)),
        Err(StepFault::Memory) => Err(Stop::Memory),
    }
}

/// Whether the log of a file leads from the walk `u` to the walk `w`, over the tessellation of a
/// file. No rules are read.
pub fn verify_log<F: Files>(
    alloc: Global,
    files: &mut F,
    tess: &str,
    kind: u32,
    u: &Walk,
    w: &Walk,
    log: &str,
) -> Result<Work, Stop>
    ensures { (seen : TeacherSeen) → IsCarriedOut F.tells
        (files_seen F.contents F.fetch_faults F.store_faults files.old)
        (files_seen F.contents F.fetch_faults F.store_faults files.new)
        seen seen (VerifyLog tess.now kind u.now w.now log.now) (end_of result) }
{
    let tess = load_kind(alloc, files, tess, kind)?;
    let log = load_log(alloc, files, log)?;
    verdict(alloc, &tess, kind as u8, u, w, &log)
}

/// The line that tells whether a log leads from the walk `u` to the walk `w`, and where it fails.
fn verdict(
    alloc: Global,
    tess: &Tessellation,
    kind: u8,
    u: &Walk,
    w: &Walk,
    log: &[Change],
) -> Result<Work, Stop>
    requires { kind < length tess.now }
    ensures { IsVerified tess.now kind u.now w.now log.now (end_of result) }
{
    let start = tess.start(kind);
    match verify(alloc, tess, start, u, log, w) {
        Ok(()) => Ok(Work::Say(Line::Related)),
        Err(LogFault::Change(n)) => Ok(Work::Say(Line::LogChange(n))),
        Err(LogFault::End) => Ok(Work::Say(Line::LogEnd)),
        Err(LogFault::Memory) => Err(Stop::Memory),
    }
}
