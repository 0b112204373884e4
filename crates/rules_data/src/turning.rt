//! Turning from side to side of a tile.
ghost use Rattle.std.specs.Prelude.{◌≡◌, ◌<◌};
ghost use Rattle.tree_model.specs.Automata.{next, previous};

/// The side to the left of a side, of a tile with so many sides.
#[tactic(auto, unfolding(tree_model::specs::Automata::next))]
pub fn left_side(sides: u8, side: u8) -> u8
    requires { side < sides }
    ensures value { result ≡ next sides side }
    ensures below { result < sides }
{
    if side + 1 == sides { 0 } else { side + 1 }
}

/// The side to the right of a side, of a tile with so many sides.
pub fn right_side(sides: u8, side: u8) -> u8
    requires { side < sides }
    ensures value { result ≡ previous sides side }
    ensures below { result < sides }
{
    if side == 0 { sides - 1 } else { side - 1 }
}
