//! What the definition of the rules comes to. The function does nothing: its contract states laws
//! of all tessellations.

ghost use Rattle.regular_maker.specs.Laws.{RegularIsAccepted, RegularNeverEnds};

/// The automaton of {p,q} meets the twelve conditions over each regular tessellation for which
/// (p - 2)(q - 2) is at least 4. Hence no number is that of its tiles.
pub fn regular_laws()
    ensures accepted { RegularIsAccepted }
    ensures endless { RegularNeverEnds }
{
    // The law that closed tessellations have no rules.
    endless_laws::laws::endless();
}
