//! What the definitions of a rules file imply.
ghost use Rattle.std.specs.Prelude.{◌≡◌, ℕ, List};
ghost use Rattle.tree_model.specs.Automata.{TreeAutomaton};
ghost use Rattle.rules_file.specs.Ranges.{FitsTables};
ghost use Rattle.rules_file.specs.Spelling.{IsRulesFile, rules_text};
ghost use Rattle.rules_file.specs.Laws.{SpeltDoesNotFail, OneFirstFault};

/// The canonical text of an automaton whose numbers fit the tables is a rules file of this
/// automaton.
pub fn canonical_text_law()
    ensures { (a : TreeAutomaton) → FitsTables a → IsRulesFile (rules_text a) a }
{}

/// The same bytes are a rules file of no two automata.
pub fn one_automaton_law()
    ensures { (bytes : List ℕ) (a b : TreeAutomaton) → IsRulesFile bytes a → IsRulesFile bytes b
        → a ≡ b }
{}

/// A JSON value has one first failure at most, and none where it spells an automaton.
pub fn first_fault_law()
    ensures refuted { SpeltDoesNotFail }
    ensures one { OneFirstFault }
{}
