// The corner types of a regular tessellation.
ghost use Rattle.std.specs.Prelude.{◌≡◌, ◌<◌, ◌≤◌, IfOk};
ghost use Rattle.regular_maker.specs.Corners.{depth_at, listed, parity, corner_type, corner_types};
ghost use Rattle.regular_maker.specs.Regular.{IsSymbol};

use crate::symbol::Symbol;
use rules_data::Corner;
use std::alloc::{AllocError, Global};

/// The depth of the tile at place `t` of a corner less that of the tile at place 0.
#[tactic(auto, unfolding(crate::specs::Corners::depth_at))]
fn depth_at(symbol: Symbol, corner: u32, t: u8) -> i8
    requires symbol { IsSymbol symbol.p symbol.q }
    requires corner { corner ≤ 1 }
    requires place { t < symbol.q }
    ensures { result ≡ depth_at symbol.q corner t }
{
    let half = symbol.half();
    if t <= half {
        -(t as i8)
    } else {
        t as i8 - (2 * half + corner as u8) as i8
    }
}

/// A corner type.
fn corner_type(alloc: Global, symbol: Symbol, corner: u32) -> Result<Corner, AllocError>
    requires symbol { IsSymbol symbol.p symbol.q }
    requires corner { corner ≤ parity symbol.q }
    ensures { IfOk result (λ g. g ≡ corner_type symbol.q corner) }
{
    let mut offsets = Vec::with_capacity(alloc, symbol.q as usize)?;
    for t in 0..symbol.q {
        offsets.push(depth_at(symbol, corner, t))?;
    }
    Ok(Corner {
        offsets,
        outer: symbol.outer(corner),
    })
}

/// All corner types.
pub fn corner_types(alloc: Global, symbol: Symbol) -> Result<Vec<Corner>, AllocError>
    requires { IsSymbol symbol.p symbol.q }
    ensures { IfOk result (λ corners. corners.items ≡ corner_types symbol.q) }
{
    let mut corners = Vec::with_capacity(alloc, 2)?;
    for corner in 0..symbol.parity() + 1 {
        corners.push(corner_type(alloc, symbol, corner)?)?;
    }
    Ok(corners)
}
