//! What the definitions of a tessellation file imply. The function does nothing: its contract states
//! laws that hold of all files.
ghost use Rattle.tess_text.specs.Laws.{OneBadLine, GrammarHasNoBadLine, OneSpelling};
ghost use Rattle.tess_text.specs.Laws.{SpeltIsNotRefused, OneRefusal};

/// A file has one first bad line, or its kinds have one fault, or it spells one tessellation, and
/// never two of these.
pub fn outcome_law()
    ensures one_line { OneBadLine }
    ensures no_line { GrammarHasNoBadLine }
    ensures one_spelling { OneSpelling }
    ensures not_refused { SpeltIsNotRefused }
    ensures one_refusal { OneRefusal }
{
    // The laws of handed kinds, on which those of files of version 2 rest.
    handed_kinds::laws::expansion_laws();
    handed_kinds::laws::fault_laws();
}
