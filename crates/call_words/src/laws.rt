//! What the forms of the words imply. The function does nothing: its contract states laws that hold
//! of all words.
ghost use Rattle.call_words.specs.Laws.{OneTaskIsAsked, TasksAreInRange};

/// Words ask for one task at most, and for a number of cells that is in its range.
pub fn asked_law()
    ensures one { OneTaskIsAsked }
    ensures in_range { TasksAreInRange }
{}
