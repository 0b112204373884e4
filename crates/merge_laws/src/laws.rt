//! The functions do nothing: their contracts state laws of the definitions.
//! They hold of every tessellation, of all rules that are accepted for it, and of each merging of them.

ghost use Rattle.merge_laws.specs.Laws.{OfEachMerging, MergedIsAccepted, NamesStay, StatesAreClasses};
ghost use Rattle.merge_laws.specs.Laws.{PlacesStay, StatesAreTold, ClassesAreExact, MergingIsOne};

/// The merged automaton meets the twelve conditions.
pub fn accepted()
    ensures { OfEachMerging MergedIsAccepted }
{}

/// The tree of each kind has the names that it had, the state that a name reaches is the class of the state that it
/// reached, and the places of each walk are those that it had.
pub fn trees()
    ensures names { OfEachMerging NamesStay }
    ensures states { OfEachMerging StatesAreClasses }
    ensures places { OfEachMerging PlacesStay }
{}

/// Any two states of the merged automaton are told apart by a path, and two reachable states of the other one are of
/// one class exactly where no path tells them apart.
pub fn states()
    ensures told { OfEachMerging StatesAreTold }
    ensures exactly { OfEachMerging ClassesAreExact }
{}

/// The classes and the merged automaton are determined.
pub fn one()
    ensures { OfEachMerging MergingIsOne }
{}
