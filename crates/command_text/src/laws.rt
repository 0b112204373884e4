//! What the lines of commands come to. The function does nothing: its contract states laws of the
//! definitions.
ghost use Rattle.command_text.specs.Laws.{LinesSpellOne, LinesAreDecided};

use short_numbers::number_law;

/// Each line spells exactly one command, or none.
pub fn spelling()
    ensures one { LinesSpellOne }
    ensures decided { LinesAreDecided }
{
    // The law that one to nine digits write one number, or none.
    number_law();
}
