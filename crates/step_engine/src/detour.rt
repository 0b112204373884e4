//! The way along the contour of the tree from a spot, which itself stays where it is until the way is accepted.
ghost use Rattle.std.specs.Prelude.{◌≡◌, ◌≢◌, ◌↔◌, ◌<◌, ◌≤◌, ◌+◌, ◌^◌, true, false, nat_eq};
ghost use Rattle.std.specs.Prelude.{[], ◌∷◌, ◌++◌, length, IfOk, OnOk, OnErr, IsErrOf, IsTrue, All};
ghost use Rattle.tile_model.specs.declared.Letter.TheVariants.{L, R};
ghost use Rattle.structure_check.specs.Rules.{TreeRules};
ghost use Rattle.tree_model.specs.Automata.{next, previous, side_count};
ghost use Rattle.spot_laws.specs.Spots.{IsSpot, tile_state, faced_rule, position};
ghost use Rattle.step_engine.specs.Detours.{spot_there, there, turned_there, most_open_there};
ghost use Rattle.step_engine.specs.Detours.{IsShaped, IsDetour, IsAbove, HasReached, HasMoved};
ghost use Rattle.step_engine.specs.Detours.{HasCrossed, HasTurned, OpensTowards, FacesDeep};

use crate::fault::{DEEPEST, StepFault};
use crate::tile::tile;
use smallvec::SmallVec;
use std::alloc::AllocError;
use structure_check::Rules;
use tree_model::Rule;
use turn_rules::{Spot, brackets_fit, left_by, next_left, next_right, right_by, rule};

/// How many sides below the spot's own name a detour keeps without an allocation.
const INLINE: usize = 32;

/// A place in the tree, by how its name leaves that of a spot: the first `kept` sides of the spot's name, and then
/// other sides, with the states that they lead to.
/// The state of its tile, the last one on the path, stands apart, since each move asks for it.
#[derive(Debug, Drop)]
pub struct Detour {
    pub(crate) kept: usize,
    pub(crate) sides: SmallVec<u8, INLINE>,
    pub(crate) states: SmallVec<u32, INLINE>,
    pub(crate) tile: u32,
    pub(crate) spin: u8,
}

impl Detour {
    /// How many sides of the spot's name the name of the place begins with.
    pub fn kept(&self) -> usize
        ensures { result ≡ self.now.kept }
    {
        self.kept
    }

    /// The sides that follow those in the name of the place.
    pub fn sides(&self) -> &[u8]
        ensures { result.now ≡ self.now.sides.items }
    {
        self.sides.as_slice()
    }

    /// The side that is faced.
    pub fn spin(&self) -> u8
        ensures { result ≡ self.now.spin }
    {
        self.spin
    }

    /// The detour that has not left the spot.
    pub(crate) fn start(s: &Spot, r: &Rules) -> Detour
        requires { IsSpot r.now s.now }
        ensures { HasReached r.now s.now (position s.now) result }
    {
        Detour {
            kept: s.level(),
            sides: s.empty_list(),
            states: s.empty_list(),
            tile: tile(s, r),
            spin: s.spin(),
        }
    }

    /// Whether the name of the place has more than 4,000 sides.
    fn is_deep(&self, s: &Spot) -> bool
        requires { IsShaped s.now self.now }
        ensures { IsTrue result ↔ (DEEPEST < length (there s.now self.now).name) }
    {
        self.kept > DEEPEST || self.sides.len() > DEEPEST - self.kept
    }

    /// The last state on the path.
    fn last_state(&self, s: &Spot) -> u32
        requires { IsShaped s.now self.now }
        ensures { (rules : TreeRules) → IsSpot rules (spot_there s.now self.now)
            → result ≡ tile_state rules (spot_there s.now self.now) }
    {
        match self.states.as_slice().last() {
            Some(state) => *state,
            None => s.path()[self.kept],
        }
    }

    fn rule(&self, s: &Spot, r: &Rules) -> Rule
        requires { IsDetour r.now s.now self.now }
        ensures { result ≡ faced_rule r.now (spot_there s.now self.now) }
    {
        rule(r, self.tile, self.spin)
    }

    /// Faces the side to the left, or else to the right.
    pub(crate) fn turn(&mut self, s: &Spot, r: &Rules, leftwards: bool)
        requires { IsDetour r.now s.now self.old }
        ensures { HasReached r.now s.now (turned_there r.now s.now leftwards self.old) self.new }
    {
        self.spin = beside(r, self.tile, self.spin, leftwards);
    }

    /// Faces the side that lies `count` sides to the left.
    pub(crate) fn turn_lefts(&mut self, s: &Spot, r: &Rules, count: u8)
        requires { IsDetour r.now s.now self.old }
        ensures { HasTurned r.now s.now self.old L count self.new }
    {
        self.spin = left_by(r, self.tile, self.spin, count);
    }

    /// Faces the side that lies `count` sides to the right.
    pub(crate) fn turn_rights(&mut self, s: &Spot, r: &Rules, count: u8)
        requires { IsDetour r.now s.now self.old }
        ensures { HasTurned r.now s.now self.old R count self.new }
    {
        self.spin = right_by(r, self.tile, self.spin, count);
    }

    #[inline]
    fn down(&mut self, child: u32) -> Result<(), AllocError>
        ensures kept { OnOk result (self.new.kept ≡ self.old.kept) }
        ensures sides { OnOk result
            (self.new.sides.items ≡ self.old.sides.items ++ self.old.spin ∷ []) }
        ensures states { OnOk result (self.new.states.items ≡ self.old.states.items ++ child ∷ []) }
        ensures tile { OnOk result (self.new.tile ≡ child) }
        ensures spin { OnOk result (self.new.spin ≡ 0) }
    {
        self.sides.push(self.spin)?;
        self.states.push(child)?;
        self.tile = child;
        self.spin = 0;
        Ok(())
    }

    fn up(&mut self, s: &Spot)
        requires shape { IsShaped s.now self.old }
        requires no_root { (there s.now self.old).name ≢ [] }
        ensures shape { IsShaped s.now self.new }
        ensures above { IsAbove (spot_there s.now self.new) (spot_there s.now self.old) }
        ensures tile { (rules : TreeRules) → IsSpot rules (spot_there s.now self.new)
            → self.new.tile ≡ tile_state rules (spot_there s.now self.new) }
    {
        self.shorten(s);
        self.tile = self.last_state(s);
    }

    /// Takes the last side away, which is faced then, and its state.
    fn shorten(&mut self, s: &Spot)
        requires shape { IsShaped s.now self.old }
        requires no_root { (there s.now self.old).name ≢ [] }
        ensures shape { IsShaped s.now self.new }
        ensures above { IsAbove (spot_there s.now self.new) (spot_there s.now self.old) }
    {
        if let Some(side) = self.sides.pop() {
            self.states.pop();
            self.spin = side;
            return;
        }
        self.kept -= 1;
        self.spin = s.name().sides()[self.kept];
    }

    /// Fewer than 2^127 brackets are ever open on the way from here, leftwards or rightwards.
    /// The call does nothing but read what tells this: the side for the rules, and two lengths of which the name of the
    /// place is made.
    fn counter_fits(&self, s: &Spot, r: &Rules, leftwards: bool)
        requires { IsDetour r.now s.now self.now }
        ensures { most_open_there r.now s.now leftwards self.now < 2 ^ 127 }
    {
        brackets_fit(r, leftwards);
        let _level = s.level();
        let _entered = self.sides.len();
    }

    /// One move along the contour: a turn, and then across a side of the tree, or past a bracket, which is counted.
    /// It answers whether no bracket is left open.
    fn go_on(
        &mut self,
        s: &Spot,
        r: &Rules,
        leftwards: bool,
        brackets: &mut u128,
    ) -> Result<bool, AllocError>
        requires detour { IsDetour r.now s.now self.old }
        requires some { 1 ≤ brackets.old }
        requires few { brackets.old < 2 ^ 127 }
        ensures { IfOk result (λ done.
            HasMoved r.now s.now leftwards self.old brackets.old done self.new brackets.new) }
    {
        self.turn(s, r, leftwards);
        match self.rule(s, r) {
            Rule::Parent => {
                self.up(s);
                Ok(false)
            }
            Rule::Child(child) => {
                self.down(child)?;
                Ok(false)
            }
            Rule::Left => Ok(is_last(leftwards, brackets)),
            Rule::Right => Ok(is_last(!leftwards, brackets)),
        }
    }

    /// Along the contour, from a bracket that opens in this direction to the one that closes it.
    fn contour(&mut self, s: &Spot, r: &Rules, leftwards: bool) -> Result<(), AllocError>
        requires detour { IsDetour r.now s.now self.old }
        requires opens { OpensTowards r.now s.now leftwards self.old }
        ensures { OnOk result (HasCrossed r.now s.now self.old self.new) }
    {
        self.counter_fits(s, r, leftwards);
        let mut brackets: u128 = 1;
        while !self.go_on(s, r, leftwards, &mut brackets)? {}
        Ok(())
    }

    /// Across the faced side, at whatever depth.
    fn arrive(&mut self, s: &Spot, r: &Rules) -> Result<(), AllocError>
        requires { IsDetour r.now s.now self.old }
        ensures { OnOk result (HasCrossed r.now s.now self.old self.new) }
    {
        match self.rule(s, r) {
            Rule::Parent => {
                self.up(s);
                Ok(())
            }
            Rule::Child(child) => {
                self.down(child)?;
                Ok(())
            }
            Rule::Left => self.contour(s, r, true),
            Rule::Right => self.contour(s, r, false),
        }
    }

    /// Across the faced side, to a name of at most 4,000 sides.
    pub(crate) fn cross(&mut self, s: &Spot, r: &Rules) -> Result<(), StepFault>
        requires { IsDetour r.now s.now self.old }
        ensures crossed { OnOk result (HasCrossed r.now s.now self.old self.new) }
        ensures near { OnOk result (length (there s.now self.new).name ≤ DEEPEST) }
        ensures deep { IsErrOf result StepFault.Deep → FacesDeep r.now s.now self.old DEEPEST }
    {
        self.arrive(s, r)?;
        if self.is_deep(s) {
            return Err(StepFault::Deep);
        }
        Ok(())
    }

    /// Moves the spot to where the detour has come.
    pub(crate) fn finish(&self, s: &mut Spot) -> Result<(), AllocError>
        requires shape { IsShaped s.old self.now }
        requires below { All (λ side. side < 64) self.now.sides.items }
        ensures there { OnOk result (s.new ≡ spot_there s.old self.now) }
        ensures unchanged { OnErr result (s.new ≡ s.old) }
    {
        s.rejoin(
            self.kept,
            self.sides.as_slice(),
            self.states.as_slice(),
            self.spin,
        )
    }
}

/// The side next to a side, in one of the directions.
fn beside(r: &Rules, state: u32, side: u8, leftwards: bool) -> u8
    requires state { state < length r.now.automaton.states }
    requires side { side < side_count r.now.kinds r.now.automaton state }
    ensures left { leftwards ≡ true
        → result ≡ next (side_count r.now.kinds r.now.automaton state) side }
    ensures right { leftwards ≡ false
        → result ≡ previous (side_count r.now.kinds r.now.automaton state) side }
{
    if leftwards {
        next_left(r, state, side)
    } else {
        next_right(r, state, side)
    }
}

/// Counts a bracket that opens or closes. It answers whether none is left open.
fn is_last(opens: bool, brackets: &mut u128) -> bool
    requires some { 1 ≤ brackets.old }
    requires few { brackets.old < 2 ^ 127 }
    ensures opened { opens ≡ true → (result ≡ false) × (brackets.new ≡ brackets.old + 1) }
    ensures closed { opens ≡ false
        → (result ≡ nat_eq brackets.new 0) × (brackets.new + 1 ≡ brackets.old) }
{
    if opens {
        *brackets += 1;
        return false;
    }
    *brackets -= 1;
    *brackets == 0
}
