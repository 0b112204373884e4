//! Rules that a teacher answers for the tessellation of a file, and stored.
ghost use Rattle.std.specs.Prelude.{◌≡◌, List, ℕ, length, IsTrue, OnOk, IsErrOf, Some, IfOk};
ghost use Rattle.rules_file.specs.Spelling.{rules_text};
ghost use Rattle.way_io.specs.Counts.{Rose};
ghost use Rattle.way_io.specs.Contents.{KeepsOthers};
ghost use Rattle.call_words.specs.Tasks.{LearnRules, AreCells};
ghost use Rattle.call_words.specs.Forms.{name_of};
ghost use Rattle.walker_run.specs.Effects.{files_seen, teacher_seen, end_of, IsCarriedOut};
ghost use Rattle.walker_run.specs.Effects.{KeepsRules};

use crate::below::laws_below;
use crate::line::Line;
use crate::load::{learn_rules, load_tess};
use crate::stop::Stop;
use crate::tasks::{Work, accepted};
use call_words::Named;
use rules_file::print_rules;
use state_learner::Teacher;
use std::alloc::Global;
use structure_check::Rules;
use way_io::{Files, StoreFault};

/// Has a teacher learn rules for the tessellation of a file, stores them where a file is named for
/// them, and tells how many states and corner types they have.
pub fn learn<F: Files, T: Teacher>(
    alloc: Global,
    files: &mut F,
    teacher: &mut T,
    tess: &str,
    cells: u32,
    out: Named,
) -> Result<Work, Stop>
    requires { AreCells cells }
    ensures { IsCarriedOut F.tells
        (files_seen F.contents F.fetch_faults F.store_faults files.old)
        (files_seen F.contents F.fetch_faults F.store_faults files.new)
        (teacher_seen T.give_ups T.last teacher.old)
        (teacher_seen T.give_ups T.last teacher.new)
        (LearnRules tess.now cells (name_of out.entry)) (end_of result) }
{
    laws_below();
    let tess = load_tess(alloc, files, tess)?;
    let rules = learn_rules(alloc, teacher, &tess, cells)?;
    keep_rules(alloc, files, &rules, out)
}

/// Stores rules where a file is named for them, and tells how many states and corner types they
/// have.
pub fn keep_rules<F: Files>(
    alloc: Global,
    files: &mut F,
    rules: &Rules,
    out: Named,
) -> Result<Work, Stop>
    ensures { KeepsRules F.tells
        (files_seen F.contents F.fetch_faults F.store_faults files.old)
        (files_seen F.contents F.fetch_faults F.store_faults files.new)
        (name_of out.entry) rules.now.automaton (end_of result) }
{
    match out {
        Named::Nothing => Ok(Work::Say(accepted(rules))),
        Named::Value(name) => match store_rules(alloc, files, rules, name) {
            Ok(()) => Ok(Work::Say(accepted(rules))),
            Err(StoreFault::Failed) => Err(Stop::Say(Line::StoreFault)),
            Err(StoreFault::Memory) => Err(Stop::Memory),
        },
    }
}

/// Stores the canonical text of rules, once.
fn store_rules<F: Files>(
    alloc: Global,
    files: &mut F,
    rules: &Rules,
    name: &str,
) -> Result<(), StoreFault>
    ensures stored { IsTrue F.tells → OnOk result
        (F.contents files.new name.now ≡ Some (rules_text rules.now.automaton)) }
    ensures others { IsTrue F.tells
        → KeepsOthers (F.contents files.old) (F.contents files.new) name.now }
    ensures failed { IsErrOf result StoreFault.Failed
        → Rose (F.store_faults files.old) (F.store_faults files.new) }
    ensures fetches { F.fetch_faults files.new ≡ F.fetch_faults files.old }
{
    let text = print_rules(alloc, rules.automaton())?;
    files.store(name, &text)
}
