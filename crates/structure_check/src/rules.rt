// Rules: an automaton that has passed all conditions, together with its tessellation.
ghost use Rattle.std.specs.Prelude.{◌≡◌, ℕ, IsNone, IfSome, IsSomeAnd, IsOk, IfOk, IfErr, ◌↔◌};
ghost use Rattle.tree_model.specs.Conditions.{IsAccepted};
ghost use Rattle.structure_check.specs.Broken.{IsFirstBroken};
ghost use Rattle.structure_check.specs.Rules.{TreeRules, AreSound};

use crate::broken::Broken;
use crate::conditions::check_all;
use rules_data::Automaton;
use std::marker::Model;
use tile_kinds::Tessellation;

/// A tessellation and an automaton over it of which all twelve conditions hold.
#[derive(Debug, Drop)]
pub struct Rules {
    tessellation: Tessellation,
    automaton: Automaton,
}

impl Model for Rules {
    ghost use Rattle.structure_check.specs.Rules.{TreeRules, AreSound};

    ghost Value = { TreeRules };

    ghost view = { λ r. record { kinds = r.tessellation; automaton = r.automaton } };

    ghost invariant = { λ r. AreSound (record { kinds = r.tessellation; automaton = r.automaton }) };
}

impl Rules {
    /// The rules of an automaton that is known to be accepted, as it is where `first_broken`
    /// answers None. Checks nothing and takes no memory.
    pub fn of_accepted(tess: Tessellation, a: Automaton) -> Rules
        requires { IsAccepted tess a }
        ensures tessellation { result.kinds ≡ tess }
        ensures automaton { result.automaton ≡ a }
        ensures sound { AreSound result }
    {
        Rules {
            tessellation: tess,
            automaton: a,
        }
    }

    /// The tessellation.
    pub fn tessellation(&self) -> &Tessellation
        ensures value { result.now ≡ self.now.kinds }
        ensures sound { AreSound self.now }
    {
        &self.tessellation
    }

    /// The automaton.
    pub fn automaton(&self) -> &Automaton
        ensures value { result.now ≡ self.now.automaton }
        ensures sound { AreSound self.now }
    {
        &self.automaton
    }

    /// Both parts.
    pub fn into_parts(self) -> (Tessellation, Automaton)
        ensures tessellation { result.0 ≡ self.kinds }
        ensures automaton { result.1 ≡ self.automaton }
        ensures sound { AreSound self }
    {
        (self.tessellation, self.automaton)
    }
}

/// The least broken condition of an automaton over a tessellation and its least place, None where
/// all twelve conditions hold: of all states, corner types and roots, whether the tree reaches them
/// or not. Takes no memory.
pub fn first_broken(tess: &Tessellation, a: &Automaton) -> Option<Broken>
    ensures exactly { IsNone result ↔ IsAccepted tess.now a.now }
    ensures first { IfSome result (λ b. IsFirstBroken tess.now a.now b.condition b.first b.second) }
    ensures every { (c f s : ℕ) → IsFirstBroken tess.now a.now c f s
        → IsSomeAnd result (λ b. (c ≡ b.condition) × (f ≡ b.first) × (s ≡ b.second)) }
{
    check_all(tess, a).err()
}

/// Makes rules of an automaton that `first_broken` finds nothing broken in. Else both parts are
/// handed back as they were, with what it finds. Takes no memory.
pub fn check(tess: Tessellation, a: Automaton) -> Result<Rules, (Tessellation, Automaton, Broken)>
    ensures exactly { IsOk result ↔ IsAccepted tess a }
    ensures tessellation_kept { IfOk result (λ r. r.kinds ≡ tess) }
    ensures automaton_kept { IfOk result (λ r. r.automaton ≡ a) }
    ensures sound { IfOk result (λ r. AreSound r) }
    ensures unbroken { IfOk result (λ _. (c f s : ℕ) → ¬ (IsFirstBroken tess a c f s)) }
    ensures tessellation_back { IfErr result (λ e. e.0 ≡ tess) }
    ensures automaton_back { IfErr result (λ e. e.1 ≡ a) }
    ensures first_broken { IfErr result (λ e.
        IsFirstBroken tess a e.2.condition e.2.first e.2.second) }
    ensures no_other { IfErr result (λ e. (c f s : ℕ) → IsFirstBroken tess a c f s
        → (c ≡ e.2.condition) × (f ≡ e.2.first) × (s ≡ e.2.second)) }
{
    match first_broken(&tess, &a) {
        None => Ok(Rules::of_accepted(tess, a)),
        Some(broken) => Err((tess, a, broken)),
    }
}
