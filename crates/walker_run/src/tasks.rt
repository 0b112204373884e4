//! What a call of the program comes to, before the input is read and anything is written.
ghost use Rattle.std.specs.Prelude.{◌≡◌, ℕ, List, length, map};
ghost use Rattle.std.specs.String.{string_bytes};
ghost use Rattle.call_words.specs.Tasks.{TellType, CheckRules, RunSession, FromFile, FromTeacher};
ghost use Rattle.call_words.specs.Tasks.{AreCells, AskInRange, IsInRange, TeachesFor};
ghost use Rattle.call_words.specs.Tasks.{HaveNoForm, AskNoTeacher};
ghost use Rattle.call_words.specs.Forms.{task_of, rules_from};
ghost use Rattle.walker_run.specs.Effects.{TeacherSeen, files_seen, teacher_seen, end_of};
ghost use Rattle.walker_run.specs.Effects.{IsCarriedOut, IsDecided};

use crate::learn::learn;
use crate::line::Line;
use crate::load::{learn_rules, load_kind, load_rules, load_tess};
use crate::logs::{verify_log, write_log};
use crate::merging::merge_rules;
use crate::stop::Stop;
use call_words::laws::asked_law;
use call_words::{Form, Origin, WordsFault, read_words};
use state_learner::Teacher;
use std::alloc::Global;
use structure_check::Rules;
use walk_words::{Walk, type_of};
use way_io::Files;

/// What a call comes to, where it does not stop before.
#[derive(Debug, Drop)]
pub enum Work {
    /// To say one line.
    Say(Line),
    /// To answer the commands of the input over rules, in the tree of a kind.
    Serve { rules: Rules, kind: u8 },
    /// To write a text.
    Write(Vec<u8>),
}

/// The line that tells how many states and corner types rules have.
pub fn accepted(rules: &Rules) -> Line
    ensures { result ≡ Line.Accepted
        (length rules.now.automaton.states) (length rules.now.automaton.corners) }
{
    let automaton = rules.automaton();
    Line::Accepted {
        states: automaton.states.len() as u32,
        corners: automaton.corners.len() as u32,
    }
}

/// The type that a walk leads to, in the tessellation of a file.
fn tell_type<F: Files>(
    alloc: Global,
    files: &mut F,
    tess: &str,
    kind: u32,
    walk: &Walk,
) -> Result<Work, Stop>
    ensures { (seen : TeacherSeen) → IsCarriedOut F.tells
        (files_seen F.contents F.fetch_faults F.store_faults files.old)
        (files_seen F.contents F.fetch_faults F.store_faults files.new)
        seen seen (TellType tess.now kind walk.now) (end_of result) }
{
    let tess = load_kind(alloc, files, tess, kind)?;
    let start = tess.start(kind as u8);
    Ok(Work::Say(Line::TypeTold(type_of(&tess, start, walk))))
}

/// Whether the rules of a file are accepted over the tessellation of a file, and how many states
/// and corner types they have.
fn check_rules<F: Files>(
    alloc: Global,
    files: &mut F,
    tess: &str,
    rules: &str,
) -> Result<Work, Stop>
    ensures { (seen : TeacherSeen) → IsCarriedOut F.tells
        (files_seen F.contents F.fetch_faults F.store_faults files.old)
        (files_seen F.contents F.fetch_faults F.store_faults files.new)
        seen seen (CheckRules tess.now rules.now) (end_of result) }
{
    let tess = load_tess(alloc, files, tess)?;
    let rules = load_rules(alloc, files, tess, rules)?;
    Ok(Work::Say(accepted(&rules)))
}

/// The rules of a file over the tessellation of a file, and a kind of it, to serve walkers over.
pub fn open_file<F: Files>(
    alloc: Global,
    files: &mut F,
    tess: &str,
    kind: u32,
    rules: &str,
) -> Result<Work, Stop>
    ensures { (seen : TeacherSeen) → IsCarriedOut F.tells
        (files_seen F.contents F.fetch_faults F.store_faults files.old)
        (files_seen F.contents F.fetch_faults F.store_faults files.new)
        seen seen (RunSession tess.now kind (FromFile rules.now)) (end_of result) }
{
    let tess = load_kind(alloc, files, tess, kind)?;
    let rules = load_rules(alloc, files, tess, rules)?;
    Ok(Work::Serve {
        rules,
        kind: kind as u8,
    })
}

/// The rules that a teacher answers for the tessellation of a file, and a kind of it, to serve
/// walkers over.
pub fn open_taught<F: Files, T: Teacher>(
    alloc: Global,
    files: &mut F,
    teacher: &mut T,
    tess: &str,
    kind: u32,
    cells: u32,
) -> Result<Work, Stop>
    requires { AreCells cells }
    ensures { IsCarriedOut F.tells
        (files_seen F.contents F.fetch_faults F.store_faults files.old)
        (files_seen F.contents F.fetch_faults F.store_faults files.new)
        (teacher_seen T.give_ups T.last teacher.old)
        (teacher_seen T.give_ups T.last teacher.new)
        (RunSession tess.now kind (FromTeacher cells)) (end_of result) }
{
    let tess = load_kind(alloc, files, tess, kind)?;
    let rules = learn_rules(alloc, teacher, &tess, cells)?;
    Ok(Work::Serve {
        rules,
        kind: kind as u8,
    })
}

/// Rules of either origin, to serve walkers over.
fn open_session<F: Files, T: Teacher>(
    alloc: Global,
    files: &mut F,
    teacher: &mut T,
    tess: &str,
    kind: u32,
    rules: Origin,
) -> Result<Work, Stop>
    requires { AskInRange (rules_from rules) }
    ensures carried { IsCarriedOut F.tells
        (files_seen F.contents F.fetch_faults F.store_faults files.old)
        (files_seen F.contents F.fetch_faults F.store_faults files.new)
        (teacher_seen T.give_ups T.last teacher.old)
        (teacher_seen T.give_ups T.last teacher.new)
        (RunSession tess.now kind (rules_from rules.entry)) (end_of result) }
    ensures untaught { (file : List ℕ) → rules_from rules.entry ≡ FromFile file
        → teacher.new ≡ teacher.old }
{
    match rules {
        Origin::File(name) => open_file(alloc, files, tess, kind, name),
        Origin::Teacher(cells) => open_taught(alloc, files, teacher, tess, kind, cells),
    }
}

/// Does what a form of the words asks for.
fn carry_out<F: Files, T: Teacher>(
    alloc: Global,
    form: &Form,
    files: &mut F,
    teacher: &mut T,
) -> Result<Work, Stop>
    requires { IsInRange (task_of form.now) }
    ensures carried { IsCarriedOut F.tells
        (files_seen F.contents F.fetch_faults F.store_faults files.old)
        (files_seen F.contents F.fetch_faults F.store_faults files.new)
        (teacher_seen T.give_ups T.last teacher.old)
        (teacher_seen T.give_ups T.last teacher.new)
        (task_of form.now) (end_of result) }
    ensures untaught { ((file : List ℕ) (cells : ℕ) → TeachesFor (task_of form.now) file cells → ⊥)
        → teacher.new ≡ teacher.old }
{
    match form {
        Form::Kind { tess, kind, walk } => tell_type(alloc, files, tess, *kind, walk),
        Form::Check { tess, rules } => check_rules(alloc, files, tess, rules),
        Form::Run { tess, kind, rules } => {
            open_session(alloc, files, teacher, tess, *kind, *rules)
        }
        Form::Learn { tess, cells, out } => learn(alloc, files, teacher, tess, *cells, *out),
        Form::Merge { tess, rules, out } => merge_rules(alloc, files, tess, rules, out),
        Form::Log {
            tess,
            rules,
            kind,
            u,
            w,
        } => write_log(alloc, files, tess, rules, *kind, u, w),
        Form::Verify {
            tess,
            kind,
            u,
            w,
            log,
        } => verify_log(alloc, files, tess, *kind, u, w, log),
    }
}

/// What the words come to.
///
/// # Errors
///
/// A line that is said instead, or `Memory` where there is none for what the words say, for what
/// the files hold or for what the teacher learns.
pub fn decide<F: Files, T: Teacher>(
    alloc: Global,
    words: &[String],
    files: &mut F,
    teacher: &mut T,
) -> Result<Work, Stop>
    ensures decided { IsDecided F.tells (map string_bytes words.now)
        (files_seen F.contents F.fetch_faults F.store_faults files.old)
        (files_seen F.contents F.fetch_faults F.store_faults files.new)
        (teacher_seen T.give_ups T.last teacher.old)
        (teacher_seen T.give_ups T.last teacher.new) (end_of result) }
    ensures unfetched { HaveNoForm (map string_bytes words.now) → files.new ≡ files.old }
    ensures untaught { AskNoTeacher (map string_bytes words.now) → teacher.new ≡ teacher.old }
{
    // No words ask for cells out of their range: a law, that this call cites.
    asked_law();
    let form = match read_words(alloc, words) {
        Ok(form) => form,
        Err(WordsFault::Usage) => return Err(Stop::Say(Line::Usage)),
        Err(WordsFault::Memory) => return Err(Stop::Memory),
    };
    carry_out(alloc, &form, files, teacher)
}
