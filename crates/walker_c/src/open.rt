//! Sessions over the bytes of files.
ghost use Rattle.std.specs.Prelude.{◌≡◌, ◌≤◌, ◌<◌, ℕ, List, length, IfOk, Err};
ghost use Rattle.tile_model.specs.Tessellations.{TileKind};
ghost use Rattle.tree_model.specs.Automata.{TreeAutomaton};
ghost use Rattle.call_words.specs.Tasks.{FromFile, FromTeacher};
ghost use Rattle.walker_run.specs.Effects.{end_of, Opens, Says};
ghost use Rattle.walker_c.specs.Opening.{IsOpening, IsLearning, Seats, rules_name};

use crate::held::{Held, RULES, TESS};
use crate::seat::Seat;
use call_words::MOST_CELLS;
use state_learner::Learner;
use std::alloc::Global;
use walker_run::{Line, Stop, Work, open_file, open_taught};

/// What the program's `run TESS K --rules RULES` comes to over files that hold these bytes.
pub(crate) fn by_file(alloc: Global, tess: &[u8], rules: &[u8], kind: u32) -> Result<Work, Stop>
    ensures { IsOpening tess.now rules.now kind (FromFile rules_name) (end_of result) }
{
    let mut files = Held { tess, rules };
    open_file(alloc, &mut files, TESS, kind, RULES)
}

/// What the program's `run TESS K --cells CELLS` comes to over a file that holds these bytes.
pub(crate) fn by_learning(alloc: Global, tess: &[u8], cells: u32, kind: u32) -> Result<Work, Stop>
    ensures { IsLearning tess.now cells kind (end_of result) }
{
    if cells == 0 || cells > MOST_CELLS {
        return Err(Stop::Say(Line::Usage));
    }
    let mut files = Held { tess, rules: tess };
    let mut teacher = Learner::new(alloc);
    open_taught(alloc, &mut files, &mut teacher, TESS, kind, cells)
}

/// A session where the work is to serve one.
pub(crate) fn seated(alloc: Global, work: Result<Work, Stop>) -> Result<Box<Seat>, Stop>
    requires { (kinds : List TileKind) (a : TreeAutomaton) (k : ℕ)
        → end_of work ≡ Opens kinds a k → k < length kinds }
    ensures seated { IfOk result (λ seat. Seats (end_of work) seat.value) }
    ensures refused { (line : Line) → result ≡ Err (Stop.Say line) → end_of work ≡ Says line }
{
    match work? {
        Work::Serve { rules, kind } => Ok(Seat::new(alloc, rules, kind)?),
        Work::Say(line) => Err(Stop::Say(line)),
        // No words that open a session come to a text.
        Work::Write(_) => Err(Stop::Memory),
    }
}
