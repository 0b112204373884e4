//! The top call: all that the program does with its words.
ghost use Rattle.std.specs.Prelude.{◌≡◌, map, IsTrue, None};
ghost use Rattle.std.specs.String.{string_bytes};
ghost use Rattle.way_io.specs.Counts.{Rose};
ghost use Rattle.line_server.specs.Endings.{GivesInOrder, TakesMore};
ghost use Rattle.call_words.specs.Tasks.{HaveNoForm, AreNotOfRun, AskNoTeacher};
ghost use Rattle.walker_run.specs.Runs.{call_with, seen};
ghost use Rattle.walker_run.specs.Due.{IsDue};
ghost use Rattle.walker_run.specs.Promise.{KeepsPromise};
ghost use Rattle.walker_run.specs.Lines.{IsRefusal};
ghost use Rattle.walker_run.specs.Ending.{Ends};

use crate::below::laws_below;
use crate::line::Line;
use crate::say::{say, write_text};
use crate::serve::serve_walkers;
use crate::status::Status;
use crate::stop::Stop;
use crate::tasks::{Work, decide};
use state_learner::Teacher;
use std::alloc::Global;
use way_io::{Files, Sink, Source};

/// Does what the words ask for, writes to `out`, and tells how it ended. Words of the form `run`
/// ask for the replies to the commands of `input`, words of the form `log` for the text of a log;
/// all others for one line. Words of the form `learn` may, and those of `merge` do, name a file in
/// which rules are stored, before the line is written; no other file changes. `teacher` is asked
/// once where rules are to be learnt: by `learn`, and by `run` where no rules file is named, with
/// the cells that the words name, or 50,000.
///
/// What the replies mean is a law over replies alone (`reply_laws::laws::names`): the names that
/// two commands `at` are answered are equal exactly where the walks of their walkers are at the
/// same tile, and names and spins together exactly where the walks are related.
///
/// `KeepsPromise` says in two records, over one answer that a teacher may give, what becomes of the
/// commands and that the table of lines of `docs/FORMATS.md` is followed: each status comes for its
/// cause alone, and what stands written is told for each. That this answer is the one which
/// `teacher` gave is seen in the code alone. Of a fault of the outside the count of `files`,
/// `input` or `out` tells, and of a give-up that of `teacher`; want of memory may come at any
/// point.
///
/// Words in no form leave the files alone, and words that ask for no rules to be learnt the
/// teacher.
/// `input` stays as it was where the words are not of the form `run`, where a line is due
/// whatever the teacher says, and at each status that refuses.
pub fn run<F: Files, I: Source, O: Sink, T: Teacher>(
    alloc: Global,
    words: &[String],
    files: &mut F,
    input: &mut I,
    out: &mut O,
    teacher: &mut T,
) -> Status
    ensures promise { KeepsPromise (record {
      words = map string_bytes words.now;
      files_tell = F.tells;
      source_tells = I.tells;
      sink_tells = O.tells;
      before = seen F.contents F.fetch_faults F.store_faults I.left I.faults O.taken O.faults
          T.give_ups T.last files.old input.old out.old teacher.old;
      after = seen F.contents F.fetch_faults F.store_faults I.left I.faults O.taken O.faults
          T.give_ups T.last files.new input.new out.new teacher.new;
      status = result;
    }) }
    ensures unfetched { HaveNoForm (map string_bytes words.now) → files.new ≡ files.old }
    ensures unasked { AreNotOfRun (map string_bytes words.now) → input.new ≡ input.old }
    ensures unread { IsTrue F.tells → (line : Line)
        → IsDue (call_with (map string_bytes words.now) (F.contents files.old) None) line
        → input.new ≡ input.old }
    ensures unread_at_refusal { IsRefusal result → input.new ≡ input.old }
    ensures untaught { AskNoTeacher (map string_bytes words.now) → teacher.new ≡ teacher.old }
{
    // What walks say of the output the tree of the rules says too: a law, that this call cites.
    line_server::laws::readings();
    // And the table tells one thing: so its rows are read in one direction.
    laws_below();
    carry_through(alloc, words, files, input, out, teacher)
}

/// Does what the words ask for, and tells in one clause how that ended.
fn carry_through<F: Files, I: Source, O: Sink, T: Teacher>(
    alloc: Global,
    words: &[String],
    files: &mut F,
    input: &mut I,
    out: &mut O,
    teacher: &mut T,
) -> Status
    ensures ends { Ends (record {
      words = map string_bytes words.now;
      files_tell = F.tells;
      source_tells = I.tells;
      sink_tells = O.tells;
      before = seen F.contents F.fetch_faults F.store_faults I.left I.faults O.taken O.faults
          T.give_ups T.last files.old input.old out.old teacher.old;
      after = seen F.contents F.fetch_faults F.store_faults I.left I.faults O.taken O.faults
          T.give_ups T.last files.new input.new out.new teacher.new;
      status = result;
    }) }
    ensures read_fault { result ≡ Status.ReadFault
        → Rose (I.faults input.old) (I.faults input.new) }
    ensures write_fault { result ≡ Status.WriteFault → Rose (O.faults out.old) (O.faults out.new) }
    ensures taken { IsTrue O.tells → TakesMore (O.taken out.old) (O.taken out.new) }
    ensures left { IsTrue I.tells → GivesInOrder (I.left input.old) (I.left input.new) }
    ensures unfetched { HaveNoForm (map string_bytes words.now) → files.new ≡ files.old }
    ensures unasked { AreNotOfRun (map string_bytes words.now) → input.new ≡ input.old }
    ensures unread { IsTrue F.tells → (line : Line)
        → IsDue (call_with (map string_bytes words.now) (F.contents files.old) None) line
        → input.new ≡ input.old }
    ensures unread_at_refusal { IsRefusal result → input.new ≡ input.old }
    ensures untaught { AskNoTeacher (map string_bytes words.now) → teacher.new ≡ teacher.old }
{
    laws_below();
    match decide(alloc, words, files, teacher) {
        Ok(Work::Say(line)) => say(alloc, &line, out),
        Ok(Work::Serve { rules, kind }) => serve_walkers(alloc, &rules, kind, input, out),
        Ok(Work::Write(text)) => write_text(&text, out),
        Err(Stop::Say(line)) => say(alloc, &line, out),
        Err(Stop::Memory) => Status::Memory,
    }
}
