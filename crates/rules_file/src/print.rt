//! Printing the canonical text of a rules file.
ghost use Rattle.std.specs.Prelude.{◌≡◌, ◌++◌, ◌∷◌, [], false, All, FitsSigned, IfOk};
ghost use Rattle.std.specs.Int.{w8};
ghost use Rattle.serde_json.specs.Data.{Data};
ghost use Rattle.serde_json.specs.View.{view};
ghost use Rattle.serde_json.specs.Written.{has_float, compact_text};
ghost use Rattle.rules_file.specs.Ranges.{IsWord, FitsPair, FitsCorner, FitsState, FitsTables};
ghost use Rattle.rules_file.specs.Spelling.{FitsRule, whole, offset_json, rule_json, pair_json, list_json, corner_json, state_json, automaton_json, IsRulesFile, rules_text};
ghost use Rattle.tree_model.specs.Automata.{TreeAutomaton};

use rules_data::{Automaton, Claim, Corner, Rule, State};
use serde_json::{Value, json};
use std::alloc::{AllocError, Global};

/// The canonical text: compact JSON with the members of the format alone, in byte order of their
/// names, and a line feed. It is a rules file of this automaton and of no other. Only want of
/// memory refuses it.
pub fn print_rules(alloc: Global, a: &Automaton) -> Result<Vec<u8>, AllocError>
    ensures canonical { IfOk result (λ v. v.items ≡ rules_text a.now) }
    ensures spelling { IfOk result (λ v. IsRulesFile v.items a.now) }
    ensures of_no_other { IfOk result
        (λ v. (b : TreeAutomaton) → IsRulesFile v.items b → b ≡ a.now) }
{
    let json = to_json(alloc, a)?;
    line(alloc, &json)
}

/// The compact text of a value with no float, and a line feed.
fn line(alloc: Global, json: &Value) -> Result<Vec<u8>, AllocError>
    requires { has_float (view json.now) ≡ false }
    ensures { IfOk result (λ v. v.items ≡ compact_text (view json.now) ++ 10 ∷ []) }
{
    let mut bytes = json.to_string(alloc)?.into_bytes();
    bytes.push(b'\n')?;
    Ok(bytes)
}

fn to_json(alloc: Global, a: &Automaton) -> Result<Value, AllocError>
    ensures json { IfOk result (λ v. view v ≡ automaton_json a.now) }
    ensures fits { IfOk result (λ _. FitsTables a.now) }
{
    let corners = list(alloc, &a.corners)?;
    let roots = list(alloc, &a.roots)?;
    let states = list(alloc, &a.states)?;
    json!(in alloc; {
        "corners": corners,
        "roots": roots,
        "states": states,
        "version": 2u32
    })
}

/// A value that is printed as JSON.
trait Printed {
    ghost json: { Self → Data };

    /// The numbers of the value are those of its type.
    ghost fits: { Self → Type 0 };

    fn print(&self, alloc: Global) -> Result<Value, AllocError>
        ensures json { IfOk result (λ v. view v ≡ json self.now) }
        ensures fits { IfOk result (λ _. fits self.now) };
}

impl Printed for u32 {
    ghost json = { whole };

    ghost fits = { IsWord };

    fn print(&self, _alloc: Global) -> Result<Value, AllocError> {
        Ok(Value::from(*self))
    }
}

impl Printed for i8 {
    ghost json = { offset_json };

    ghost fits = { FitsSigned w8 };

    fn print(&self, _alloc: Global) -> Result<Value, AllocError> {
        Ok(Value::from(*self))
    }
}

impl Printed for Rule {
    ghost json = { rule_json };

    ghost fits = { FitsRule };

    fn print(&self, alloc: Global) -> Result<Value, AllocError> {
        match self {
            Rule::Parent => Value::try_from_str(alloc, "P"),
            Rule::Child(state) => Ok(Value::from(*state)),
            Rule::Left => Value::try_from_str(alloc, "L"),
            Rule::Right => Value::try_from_str(alloc, "R"),
        }
    }
}

impl Printed for Claim {
    ghost json = { pair_json };

    ghost fits = { FitsPair };

    fn print(&self, alloc: Global) -> Result<Value, AllocError> {
        json!(in alloc; [self.corner, self.place])
    }
}

impl Printed for Corner {
    ghost json = { corner_json };

    ghost fits = { FitsCorner };

    fn print(&self, alloc: Global) -> Result<Value, AllocError> {
        let offsets = list(alloc, &self.offsets)?;
        let outer = self.outer.print(alloc)?;
        json!(in alloc; {"h": offsets, "outer": outer})
    }
}

impl Printed for State {
    ghost json = { state_json };

    ghost fits = { FitsState };

    fn print(&self, alloc: Global) -> Result<Value, AllocError> {
        let claims = list(alloc, &self.claims)?;
        let rules = list(alloc, &self.rules)?;
        json!(in alloc; {"claims": claims, "kind": self.kind, "off": self.off, "rules": rules})
    }
}

fn list<T: Printed>(alloc: Global, values: &[T]) -> Result<Value, AllocError>
    ensures json { IfOk result (λ v. view v ≡ list_json T.json values.now) }
    ensures fits { IfOk result (λ _. All T.fits values.now) }
{
    let mut printed = Vec::with_capacity(alloc, values.len())?;
    for value in values {
        printed.push(value.print(alloc)?)?;
    }
    Ok(Value::Array(printed))
}
