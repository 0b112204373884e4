//! What leads walks across the sides of tiles: the contour of the tree, or whatever keeps the same promises.
ghost use Rattle.std.specs.Prelude.{◌≡◌, ◌≤◌, length, OnOk, IsErrOf};
ghost use Rattle.structure_check.specs.Rules.{TreeRules};
ghost use Rattle.step_engine.specs.Detours.{IsDetour, HasCrossed, FacesDeep, there};

use crate::detour::Detour;
use crate::fault::{DEEPEST, StepFault};
use structure_check::Rules;
use turn_rules::Spot;

/// What leads across the sides of tiles, by rules that are accepted. It may remember, link or log what it crosses.
pub trait Crossing {
    /// The rules.
    ghost accepted: { Self → TreeRules };

    /// The rules.
    fn rules(&self) -> &Rules
        ensures { result.now ≡ accepted self.now };

    /// Goes across the side that a detour from a spot faces.
    /// The spot itself stays where it is.
    ///
    /// # Errors
    ///
    /// `Deep` comes exactly where the tile there has a name of more than 4,000 sides, unless memory runs out.
    /// After an error the detour may stand anywhere.
    fn cross(&mut self, s: &Spot, way: &mut Detour) -> Result<(), StepFault>
        requires { IsDetour (accepted self.old) s.now way.old }
        ensures rules { accepted self.new ≡ accepted self.old }
        ensures crossed { OnOk result (HasCrossed (accepted self.old) s.now way.old way.new) }
        ensures near { OnOk result (length (there s.now way.new).name ≤ DEEPEST) }
        ensures deep { IsErrOf result StepFault.Deep
            → FacesDeep (accepted self.old) s.now way.old DEEPEST };
}

/// The crossing along the contour of the tree, which remembers nothing.
#[derive(Clone, Copy, Debug)]
pub struct Contour<'r> {
    rules: &'r Rules,
}

impl<'r> Contour<'r> {
    /// The crossing by these rules.
    pub fn new(rules: &'r Rules) -> Contour<'r>
        ensures { result.rules.now ≡ rules.now }
    {
        Contour { rules }
    }
}

impl<'r> Crossing for Contour<'r> {
    ghost accepted = { λ c. c.rules.now };

    fn rules(&self) -> &Rules {
        self.rules
    }

    fn cross(&mut self, s: &Spot, way: &mut Detour) -> Result<(), StepFault> {
        way.cross(s, self.rules)
    }
}
