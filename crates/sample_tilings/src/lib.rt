//! Three tilings for tests, as the texts of their files and as rules.
#![tactic(auto)]

ghost use Rattle.std.specs.Prelude.{◌≡◌, ◌<◌, ◌-◌, ◌^◌, length, IfSome};
ghost use Rattle.structure_check.specs.Rules.{AreSound};

mod texts;

use rules_file::read_rules;
use std::alloc::Global;
use structure_check::{Rules, check};
use tess_text::read_tess;
pub use texts::{
    HEPTAGONS_AND_HEXAGONS_RULES, HEPTAGONS_AND_HEXAGONS_TESS, HEPTAGONS_RULES, HEPTAGONS_TESS,
    PENTAGONS_RANKED_RULES, PENTAGONS_RULES, PENTAGONS_TESS,
};

/// The rules that two texts of fewer than 2^32 - 1 bytes spell, where both are good, there are so
/// many kinds, and memory suffices.
pub fn spelled_rules(alloc: Global, tess: &str, rules: &str, kinds: u16) -> Option<Rules>
    requires tess { length tess.now < 2 ^ 32 - 1 }
    requires rules { length rules.now < 2 ^ 32 - 1 }
    ensures kinds { IfSome result (λ r. length r.kinds ≡ kinds) }
    ensures sound { IfSome result AreSound }
{
    let tessellation = read_tess(alloc, tess.as_bytes()).ok()?;
    if tessellation.kinds() != kinds {
        return None;
    }
    let automaton = read_rules(alloc, rules.as_bytes()).ok()?;
    check(tessellation, automaton).ok()
}

/// Pentagons, four round each corner: one kind. None only for want of memory.
pub fn pentagons(alloc: Global) -> Option<Rules>
    ensures kinds { IfSome result (λ r. length r.kinds ≡ 1) }
    ensures sound { IfSome result AreSound }
{
    spelled_rules(alloc, PENTAGONS_TESS, PENTAGONS_RULES, 1)
}

/// Heptagons, three round each corner: one kind. None only for want of memory.
pub fn heptagons(alloc: Global) -> Option<Rules>
    ensures kinds { IfSome result (λ r. length r.kinds ≡ 1) }
    ensures sound { IfSome result AreSound }
{
    spelled_rules(alloc, HEPTAGONS_TESS, HEPTAGONS_RULES, 1)
}

/// Heptagons, kind 0, and hexagons, kind 1, three tiles round each corner. None only for want of
/// memory.
pub fn heptagons_and_hexagons(alloc: Global) -> Option<Rules>
    ensures kinds { IfSome result (λ r. length r.kinds ≡ 2) }
    ensures sound { IfSome result AreSound }
{
    spelled_rules(
        alloc,
        HEPTAGONS_AND_HEXAGONS_TESS,
        HEPTAGONS_AND_HEXAGONS_RULES,
        2,
    )
}

#[cfg(test)]
mod tests {
    use crate::{
        PENTAGONS_RANKED_RULES, PENTAGONS_TESS, heptagons, heptagons_and_hexagons, pentagons,
        spelled_rules,
    };
    use std::test::Fail;

    #[test]
    fn all_are_accepted(rt: HostRuntime) -> Result<(), Fail> {
        let alloc = rt.alloc();
        let samples = [
            pentagons(alloc),
            heptagons(alloc),
            heptagons_and_hexagons(alloc),
            spelled_rules(alloc, PENTAGONS_TESS, PENTAGONS_RANKED_RULES, 1),
        ];
        for sample in samples {
            assert!(rt; sample.is_some());
        }
        Ok(())
    }
}
