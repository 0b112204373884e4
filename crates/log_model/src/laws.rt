//! What the definitions come to. The functions do nothing: their contracts state laws that hold of
//! all lists of kinds, types, walks and logs.

ghost use Rattle.log_model.specs.Laws.{ChangesAreFunctions, LogsAreFunctions, LogsRelate, RefusedLeadNowhere, OneIsRefused};
ghost use Rattle.log_model.specs.Laws.{TextsAreOfOneLog, BadTextsAreOfNoLog, OneLineIsBad};

/// A change leads from a walk to one walk, and so does a log. Walks from one of which a log leads
/// to the other are related. A log of which a change is refused leads nowhere, and of its changes
/// one is the first that is refused.
pub fn log_laws()
    ensures changes { ChangesAreFunctions }
    ensures logs { LogsAreFunctions }
    ensures related { LogsRelate }
    ensures nowhere { RefusedLeadNowhere }
    ensures one { OneIsRefused }
{}

/// A text is that of one log. A text with a bad line is that of no log, and one line of it is the
/// first that is bad.
pub fn text_laws()
    ensures one_log { TextsAreOfOneLog }
    ensures no_log { BadTextsAreOfNoLog }
    ensures one_line { OneLineIsBad }
{}
