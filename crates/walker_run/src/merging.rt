//! The rules of a file, merged and stored.
ghost use Rattle.std.specs.Prelude.{◌≡◌};
ghost use Rattle.call_words.specs.Tasks.{MergeRules};
ghost use Rattle.walker_run.specs.Effects.{TeacherSeen, files_seen, end_of, IsCarriedOut};

use crate::below::laws_below;
use crate::learn::keep_rules;
use crate::load::{load_rules, load_tess};
use crate::stop::Stop;
use crate::tasks::Work;
use call_words::Named;
use rules_tools::merge;
use std::alloc::Global;
use way_io::Files;

/// Merges the states of the rules of a file that nothing tells apart, stores the rules that are
/// left, and tells how many states and corner types they have.
pub fn merge_rules<F: Files>(
    alloc: Global,
    files: &mut F,
    tess: &str,
    rules: &str,
    out: &str,
) -> Result<Work, Stop>
    ensures { (seen : TeacherSeen) → IsCarriedOut F.tells
        (files_seen F.contents F.fetch_faults F.store_faults files.old)
        (files_seen F.contents F.fetch_faults F.store_faults files.new)
        seen seen (MergeRules tess.now rules.now out.now) (end_of result) }
{
    laws_below();
    let tess = load_tess(alloc, files, tess)?;
    let rules = load_rules(alloc, files, tess, rules)?;
    let merged = merge(alloc, &rules)?;
    keep_rules(alloc, files, &merged.rules, Named::Value(out))
}
