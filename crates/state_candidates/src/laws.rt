//! What holds of all candidates. The function does nothing: its contract states the law.
ghost use Rattle.state_candidates.specs.Laws.{RegionsHaveOneCandidate};

/// Regions have at most one candidate to a horizon.
pub fn one_candidate()
    ensures { RegionsHaveOneCandidate }
{}
