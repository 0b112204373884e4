// A crossing that keeps a log, in the place of the contour.
ghost use Rattle.std.specs.Prelude.{◌≡◌};

use crate::steps::start;
use sample_tilings::pentagons;
use std::alloc::AllocError;
use std::test::Fail;
use step_engine::{Contour, Crossing, Detour, StepFault, walk_over};
use structure_check::Rules;
use turn_rules::Spot;
use walk_words::read_walk;

// From where a side was crossed: how much of the spot's name was left, how many sides followed, and the side.
#[derive(Clone, Copy, Debug, PartialEq, Eq)]
struct Crossed {
    kept: usize,
    entered: usize,
    spin: u8,
}

#[derive(Drop)]
struct Logged<'r> {
    contour: Contour<'r>,
    log: Vec<Crossed>,
}

impl<'r> Crossing for Logged<'r> {
    ghost accepted = { λ c. c.contour.rules.now };

    fn rules(&self) -> &Rules {
        self.contour.rules()
    }

    fn cross(&mut self, s: &Spot, way: &mut Detour) -> Result<(), StepFault> {
        self.note(way)?;
        self.contour.cross(s, way)
    }
}

impl<'r> Logged<'r> {
    fn note(&mut self, way: &Detour) -> Result<(), AllocError>
        ensures { self.new.contour ≡ self.old.contour }
    {
        self.log.push(Crossed {
            kept: way.kept(),
            entered: way.sides().len(),
            spin: way.spin(),
        })?;
        Ok(())
    }
}

#[test]
fn logs_what_a_walk_crosses(rt: HostRuntime) -> Result<(), Fail> {
    let alloc = rt.alloc();
    let Some(r) = pentagons(alloc) else {
        panic!(rt; "refused");
    };
    let Some(mut s) = start(alloc, &r)? else {
        panic!(rt; "no kind");
    };
    let mut logged = Logged {
        contour: Contour::new(&r),
        log: Vec::new(alloc),
    };
    walk_over(&mut logged, &mut s, &read_walk(alloc, b"XLLLLXL")?)?;
    assert!(rt; s.name().sides() == [0, 4].as_slice() && s.spin() == 1);
    let far = read_walk(alloc, b"RX")?;
    walk_over(&mut logged, &mut s, &far)?;
    assert!(rt; s.name().sides() == [0].as_slice() && s.spin() == 4);
    let log = [from(0, 0, 0), from(0, 1, 4), from(2, 0, 0)];
    assert!(rt; logged.log.as_slice() == log.as_slice());
    Ok(())
}

fn from(kept: usize, entered: usize, spin: u8) -> Crossed {
    Crossed {
        kept,
        entered,
        spin,
    }
}
