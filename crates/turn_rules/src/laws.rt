//! Closure of the tree of accepted rules.
//! The functions do nothing: their contracts state laws of every position of the infinite tree of a kind, at any depth.

ghost use Rattle.std.specs.Prelude.{◌<◌, length};
ghost use Rattle.structure_check.specs.Rules.{AreSound};
ghost use Rattle.tree_laws.specs.Laws.{AcrossIsOne, AcrossIsBack, AcrossIsPartner, CornersClose};

use structure_check::Rules;

/// Exactly one position lies across each position in the tree of a kind, it has that position across it, and the types
/// of the two are partners.
pub fn across_back(r: &Rules, kind: u8)
    requires kind { kind < length r.now.kinds }
    ensures one { AcrossIsOne r.now.kinds r.now.automaton kind }
    ensures back { AcrossIsBack r.now.kinds r.now.automaton kind }
    ensures partner { AcrossIsPartner r.now.kinds r.now.automaton kind }
{
    accepted(r);
}

/// LX, as often as the valence, leads from each position in the tree of a kind back to it.
pub fn round_corner(r: &Rules, kind: u8)
    requires kind { kind < length r.now.kinds }
    ensures closes { CornersClose r.now.kinds r.now.automaton kind }
{
    accepted(r);
}

/// The rules are accepted.
/// A body that reads nothing of them does not know this of its argument, so the laws call this one, which does nothing
/// else.
fn accepted(r: &Rules)
    ensures { AreSound r.now }
{
    let _automaton = r.automaton();
}
