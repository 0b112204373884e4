//! Whole files of both versions, with what the format says of each.
use crate::{Part, RulesFault, print_rules, read_rules};
use rules_data::{Claim, Rule};
use std::test::Fail;

const FIVE_FOUR: &str =
    "{\"corners\":[{\"h\":[0,-1,-2,-1],\"outer\":[0,1]}],\"roots\":[0],\"states\":[{\"claims\":[[0,2],[0,2],[0,2],[0,2],[0,2]],\"kind\":0,\"off\":0,\"rules\":[1,1,1,1,1]},{\"claims\":[[0,3],[0,2],[0,2],[0,2],[0,1]],\"kind\":0,\"off\":0,\"rules\":[\"P\",\"R\",1,1,2]},{\"claims\":[[0,3],[0,2],[0,2],[0,1],[0,0]],\"kind\":0,\"off\":0,\"rules\":[\"P\",\"R\",1,2,\"L\"]}],\"version\":2}\n";

const FIVE_FOUR_RANKED: &str =
    "{\"corners\":[{\"h\":[0,-1,-2,-1],\"outer\":[0,1],\"rank\":0}],\"roots\":[0],\"scale\":1,\"states\":[{\"claims\":[[0,2],[0,2],[0,2],[0,2],[0,2]],\"kind\":0,\"off\":0,\"rules\":[1,1,1,1,1]},{\"claims\":[[0,3],[0,2],[0,2],[0,2],[0,1]],\"kind\":0,\"off\":0,\"rules\":[\"P\",\"R\",1,1,2]},{\"claims\":[[0,3],[0,2],[0,2],[0,1],[0,0]],\"kind\":0,\"off\":0,\"rules\":[\"P\",\"R\",1,2,\"L\"]}],\"version\":1}\n";

#[test]
fn prints_the_second_version_of_both(rt: HostRuntime) -> Result<(), Fail> {
    let alloc = rt.alloc();
    for text in [FIVE_FOUR, FIVE_FOUR_RANKED] {
        let read = read_rules(alloc, text.as_bytes())?;
        let printed = print_rules(alloc, &read)?;
        assert_eq!(rt; printed.as_slice(), FIVE_FOUR.as_bytes());
    }
    Ok(())
}

#[test]
fn tells_the_first_fault(rt: HostRuntime) -> Result<(), Fail> {
    let cases = [
        ("[]", Part::Whole, 0),
        ("{\"version\":1.0}", Part::Version, 0),
        ("{\"version\":3}", Part::Version, 0),
        ("{\"version\":1,\"scale\":\"1\"}", Part::Scale, 0),
        (
            "{\"version\":2,\"scale\":\"1\",\"roots\":[0,-1]}",
            Part::Roots,
            1,
        ),
        (
            "{\"version\":2,\"roots\":[],\"states\":0}",
            Part::Corners,
            0,
        ),
        (
            "{\"version\":2,\"roots\":[],\"corners\":[{\"h\":[],\"outer\":[0,1],\"rank\":null},{\"h\":[128],\"outer\":[0,1]}]}",
            Part::Corner,
            1,
        ),
        (
            "{\"version\":1,\"scale\":1,\"roots\":[],\"corners\":[{\"h\":[],\"outer\":[0,1],\"rank\":0},{\"h\":[],\"outer\":[0,1],\"rank\":4294967296}]}",
            Part::Corner,
            1,
        ),
        (
            "{\"version\":2,\"roots\":[0],\"corners\":[],\"states\":[{}]}",
            Part::State,
            0,
        ),
    ];
    for (text, part, index) in cases {
        let fault = read_rules(rt.alloc(), text.as_bytes()).err();
        assert_eq!(rt; fault, Some(RulesFault::Shape { part, index }), "{text}");
    }
    let cut = &FIVE_FOUR.as_bytes()[..40];
    assert_eq!(rt; read_rules(rt.alloc(), cut).err(), Some(RulesFault::Syntax));
    Ok(())
}

#[test]
fn takes_the_last_value_of_a_key(rt: HostRuntime) -> Result<(), Fail> {
    let text =
        "{\"version\":1,\"roots\":[],\"corners\":[{\"h\":[-128,127],\"outer\":[7,8],\"x\":{}}],\"states\":[{\"kind\":255,\"off\":6,\"rules\":[9,\"L\"],\"claims\":[]}],\"version\":2}";
    let read = read_rules(rt.alloc(), text.as_bytes())?;
    assert_eq!(rt; read.corners.len(), 1);
    for corner in &read.corners {
        assert_eq!(rt; corner.offsets.as_slice(), [-128, 127].as_slice());
        assert_eq!(rt;
            corner.outer,
            Claim {
                corner: 7,
                place: 8
            }
        );
    }
    assert_eq!(rt; read.states.len(), 1);
    for state in &read.states {
        assert_eq!(rt; state.kind, 255);
        assert_eq!(rt; state.off, 6);
        assert_eq!(rt;
            state.rules.as_slice(),
            [Rule::Child(9), Rule::Left].as_slice()
        );
    }
    Ok(())
}
