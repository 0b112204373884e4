// The roots of the trees.
ghost use Rattle.std.specs.Prelude.{◌≡◌, ◌<◌, ◌↔◌, ℕ, length, IsTrue};
ghost use Rattle.tree_model.specs.Automata.{state_at, root_at};
ghost use Rattle.tree_model.specs.Conditions.{IsRoot, IsClosedTable};

use rules_data::Automaton;
use tile_kinds::Tessellation;

/// Whether a state is the root state of some kind.
pub fn is_root(a: &Automaton, s: u32) -> bool
    ensures { IsTrue result ↔ IsRoot a.now s }
{
    a.roots.contains(&s)
}

/// Whether each kind whose root is state `s` is the kind of that state, with residue 0 at its side
/// 0.
pub fn is_root_of_its_kind(tess: &Tessellation, a: &Automaton, s: u32) -> bool
    requires closed { IsClosedTable tess.now a.now }
    requires state { s < length a.now.states }
    ensures { IsTrue result
        ↔ ((k : ℕ) → k < length tess.now → root_at a.now k ≡ s
        → ((state_at a.now s).kind ≡ k) × ((state_at a.now s).off ≡ 0)) }
{
    let state = a.state(s);
    for k in 0..tess.kinds() {
        if a.root(k as u8) == s && (state.kind as u16 != k || state.off != 0) {
            return false;
        }
    }
    true
}
