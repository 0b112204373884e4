//! The children of a tile, by their states.
ghost use Rattle.std.specs.Prelude.{◌≡◌, ℕ, suc, ◌+◌, ◌<◌, ◌≤◌, All, length, IfOk, OnOk};
ghost use Rattle.tree_model.specs.declared.Rule.TheVariants.{Child};
ghost use Rattle.tree_model.proofs.Rings.{count_rule};
ghost use Rattle.ring_listing.specs.Populations.{IsFamily, children_sum};

use rules_data::Rule;
use std::alloc::{AllocError, Global};
use std::marker::Model;
use structure_check::Rules;

/// A state, and how many sides of a tile lead to a child in that state.
#[derive(Clone, Copy, Debug)]
pub(crate) struct Children {
    pub(crate) state: u32,
    pub(crate) sides: u8,
}

/// The children of a tile in some state, each state of a child once.
#[derive(Debug, Drop)]
pub(crate) struct Family {
    children: Vec<Children>,
}

impl Model for Family {
    ghost use Rattle.std.specs.Prelude.{List};
    ghost use Rattle.ring_listing.specs.declared.family.Children.{Children};

    ghost Value = { List Children };

    ghost view = { λ f. f.children.items };
}

impl Family {
    /// The children of a tile in a state of the rules.
    pub(crate) fn of(alloc: Global, r: &Rules, state: u32) -> Result<Family, AllocError>
        requires { state < length r.now.automaton.states }
        ensures { IfOk result (IsFamily r.now.kinds r.now.automaton state) }
    {
        let automaton = r.automaton();
        let sides = automaton.state(state).rules.len() as u8;
        let mut children = Vec::new(alloc);
        for side in 0..sides {
            add_side(&mut children, automaton.rule(state, side))?;
        }
        Ok(Family { children })
    }

    /// The children.
    pub(crate) fn children(&self) -> &[Children]
        ensures { result.now ≡ self.now }
    {
        &self.children
    }
}

/// Adds one side with a rule, which counts where it leads to a child.
fn add_side(children: &mut Vec<Children>, rule: Rule) -> Result<(), AllocError>
    requires { All (λ c. c.sides < 255) children.old.items }
    ensures sums { OnOk result ((f : ℕ → ℕ)
        → children_sum f children.new.items ≡ children_sum f children.old.items + count_rule f rule) }
    ensures known { OnOk result ((n : ℕ) → ((c : ℕ) → rule ≡ Child c → c < n)
        → All (λ c. c.state < n) children.old.items
        → All (λ c. c.state < n) children.new.items) }
    ensures few { OnOk result ((n : ℕ) → All (λ c. c.sides ≤ n) children.old.items
        → All (λ c. c.sides ≤ suc n) children.new.items) }
{
    match rule {
        Rule::Child(state) => add_child(children, state),
        _ => Ok(()),
    }
}

/// Adds one side that leads to a child in a state.
fn add_child(children: &mut Vec<Children>, state: u32) -> Result<(), AllocError>
    requires { All (λ c. c.sides < 255) children.old.items }
    ensures sums { OnOk result ((f : ℕ → ℕ)
        → children_sum f children.new.items ≡ children_sum f children.old.items + f state) }
    ensures known { OnOk result ((n : ℕ) → state < n
        → All (λ c. c.state < n) children.old.items
        → All (λ c. c.state < n) children.new.items) }
    ensures few { OnOk result ((n : ℕ) → All (λ c. c.sides ≤ n) children.old.items
        → All (λ c. c.sides ≤ suc n) children.new.items) }
{
    for at in 0..children.len() {
        if children[at].state == state {
            children[at].sides += 1;
            return Ok(());
        }
    }
    children.push(Children { state, sides: 1 })?;
    Ok(())
}
