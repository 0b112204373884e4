//! The laws of the crates below on which the table rests. The function does nothing: its contract
//! gathers theirs.
ghost use Rattle.walker_run.specs.Below.{LawsBelow};

/// A tessellation file, a rules file and a log file come to one outcome each, and words to one task.
/// A log leads to one walk, or one of its changes is the first that is refused.
pub fn laws_below()
    ensures { LawsBelow }
{
    tess_text::laws::outcome_law();
    rules_file::one_automaton_law();
    rules_file::first_fault_law();
    structure_check::laws::first_broken_law();
    call_words::laws::asked_law();
    log_model::laws::text_laws();
    log_model::laws::log_laws();
}
