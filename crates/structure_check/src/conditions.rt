// All conditions, in their order.
ghost use Rattle.std.specs.Prelude.{OnOk, IfErr};
ghost use Rattle.tree_model.specs.Conditions.{IsAccepted};
ghost use Rattle.structure_check.specs.Broken.{IsFirstBroken};
ghost use Rattle.structure_check.specs.Search.{HoldBelow};

use crate::broken::Broken;
use crate::corners::{CornerCondition, check_corners, check_cycles};
use crate::sides::{SideCondition, check_sides};
use crate::table::{TablePart, check_part};
use rules_data::Automaton;
use tile_kinds::Tessellation;

/// Looks for the first index at which a part of condition 1 fails.
fn check_table(tess: &Tessellation, a: &Automaton) -> Result<(), Broken>
    ensures ok { OnOk result (HoldBelow tess.now a.now 2) }
    ensures err { IfErr result (λ b. IsFirstBroken tess.now a.now b.condition b.first b.second) }
{
    check_part(TablePart::Limits, tess, a)?;
    check_part(TablePart::Roots, tess, a)?;
    check_part(TablePart::Offsets, tess, a)?;
    check_part(TablePart::Outers, tess, a)?;
    check_part(TablePart::Sizes, tess, a)?;
    check_part(TablePart::Targets, tess, a)?;
    Ok(())
}

/// Looks for the first broken condition, and for its first place.
pub fn check_all(tess: &Tessellation, a: &Automaton) -> Result<(), Broken>
    ensures ok { OnOk result (IsAccepted tess.now a.now) }
    ensures err { IfErr result (λ b. IsFirstBroken tess.now a.now b.condition b.first b.second) }
{
    check_table(tess, a)?;
    check_sides(SideCondition::Parents, tess, a)?;
    check_sides(SideCondition::ChildTypes, tess, a)?;
    check_sides(SideCondition::Valences, tess, a)?;
    check_sides(SideCondition::FirstPlaces, tess, a)?;
    check_sides(SideCondition::LastPlaces, tess, a)?;
    check_sides(SideCondition::OutersBefore, tess, a)?;
    check_sides(SideCondition::OutersBehind, tess, a)?;
    check_sides(SideCondition::ChildClaims, tess, a)?;
    check_corners(CornerCondition::OneChange, a)?;
    check_corners(CornerCondition::SmallChange, a)?;
    check_cycles(a)?;
    Ok(())
}
