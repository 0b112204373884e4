// The symbol {p,q} of a regular tessellation, and the claims round its corners.
ghost use Rattle.std.specs.Prelude.{◌≡◌, ◌+◌, ◌-◌, ◌<◌, ◌≤◌, IsTrue};
ghost use Rattle.regular_maker.specs.Corners.{half, parity, outer_of};
ghost use Rattle.regular_maker.specs.States.{pair_between, lowest, beyond, right_claim, right_run, left_claim, left_run, rights, lefts, pair_claim, is_child, child_pair, first_pair};
ghost use Rattle.regular_maker.specs.Pairs.{IsPair};
ghost use Rattle.regular_maker.specs.Regular.{IsSymbol};

use tree_model::Claim;

/// The symbol {p,q} of a regular tessellation: its tiles have `p` sides, and `q` tiles lie round
/// each corner.
#[derive(Clone, Copy, Debug, PartialEq, Eq)]
pub struct Symbol {
    pub p: u8,
    pub q: u8,
}

/// What determines a state that is no root: its claim 0 and its last claim, of the corners behind
/// and before its parent side.
#[derive(Clone, Copy, Debug, PartialEq, Eq)]
pub struct Pair {
    pub first: Claim,
    pub last: Claim,
}

/// The pair of the child between two claims of its parent.
fn pair_between(before: Claim, behind: Claim) -> Pair
    requires { before.place < 64 }
    ensures { result ≡ pair_between before behind }
{
    Pair {
        first: Claim {
            corner: before.corner,
            place: before.place + 1,
        },
        last: Claim {
            corner: behind.corner,
            place: behind.place.saturating_sub(1),
        },
    }
}

impl Symbol {
    /// Half of `q`, rounded down: the place of the lowest tile of a corner.
    #[tactic(auto, unfolding(crate::specs::Corners::half))]
    pub fn half(self) -> u8
        requires { IsSymbol self.p self.q }
        ensures value { result ≡ half self.q }
        ensures at_least { 1 ≤ result }
        ensures at_most { result ≤ 32 }
    {
        self.q / 2
    }

    /// 0 for even `q` and 1 for odd `q`: the greatest corner type.
    #[tactic(auto, unfolding(crate::specs::Corners::parity))]
    pub fn parity(self) -> u32
        ensures value { result ≡ parity self.q }
        ensures at_most { result ≤ 1 }
    {
        (self.q % 2) as u32
    }

    /// The claim of a corner of which this tile is the lowest.
    #[tactic(auto, unfolding(crate::specs::States::lowest))]
    pub fn lowest(self) -> Claim
        requires { IsSymbol self.p self.q }
        ensures value { result ≡ lowest self.q }
        ensures place { result.place < 64 }
    {
        Claim {
            corner: 0,
            place: self.half(),
        }
    }

    /// The corner at the other end of the key edge of a corner type.
    #[tactic(auto, unfolding(crate::specs::Corners::outer_of))]
    pub fn outer(self, corner: u32) -> Claim
        requires { IsSymbol self.p self.q }
        ensures value { result ≡ outer_of self.q corner }
        ensures place { result.place < 64 }
    {
        let other = self.parity().saturating_sub(corner);
        Claim {
            corner: other,
            place: self.half() - 1 + other as u8,
        }
    }

    /// The claim behind a Right side, from the corner type of the claim before it.
    #[tactic(auto, unfolding(crate::specs::States::beyond))]
    fn beyond(self, corner: u32) -> Claim
        requires { IsSymbol self.p self.q }
        ensures { result ≡ beyond self.q corner }
    {
        let outer = self.outer(corner);
        Claim {
            corner: outer.corner,
            place: outer.place + 1,
        }
    }

    /// The claim so many sides behind a claim, where Right sides lie between.
    #[tactic(auto, unfolding(crate::specs::States::right_claim))]
    fn right_claim(self, first: Claim, sides: u8) -> Claim
        requires { IsSymbol self.p self.q }
        ensures { result ≡ right_claim self.q first sides }
    {
        let mut claim = first;
        for side in 0..sides {
            claim = self.beyond(claim.corner);
        }
        claim
    }

    /// The claim so many sides before a claim, where Left sides lie between.
    #[tactic(auto, unfolding(crate::specs::States::left_claim))]
    fn left_claim(self, last: Claim, sides: u8) -> Claim
        requires { IsSymbol self.p self.q }
        ensures { result ≡ left_claim self.q last sides }
    {
        let mut claim = last;
        for side in 0..sides {
            claim = self.outer(claim.corner);
        }
        claim
    }

    /// The number of Right sides behind the parent side.
    #[tactic(auto, unfolding(crate::specs::States::rights))]
    pub fn rights(self, pair: Pair) -> u8
        requires { IsSymbol self.p self.q }
        ensures value { result ≡ rights self.p self.q pair }
        ensures few { result < self.p }
    {
        let mut claim = pair.first;
        for run in 0..self.p - 1 {
            if claim.place != self.q - 1 {
                return run;
            }
            claim = self.beyond(claim.corner);
        }
        self.p - 1
    }

    /// The number of Left sides before the parent side.
    #[tactic(auto, unfolding(crate::specs::States::lefts))]
    pub fn lefts(self, pair: Pair) -> u8
        requires { IsSymbol self.p self.q }
        ensures value { result ≡ lefts self.p self.q pair }
        ensures few { result < self.p }
    {
        let mut claim = pair.last;
        for run in 0..self.p - 1 {
            if claim.place != 0 {
                return run;
            }
            claim = self.outer(claim.corner);
        }
        self.p - 1
    }

    /// Claim `i` of the state of a pair.
    #[tactic(auto, unfolding(crate::specs::States::pair_claim))]
    pub fn claim(self, pair: Pair, i: u8) -> Claim
        requires symbol { IsSymbol self.p self.q }
        requires pair { IsPair self.p self.q pair }
        requires side { i < self.p }
        ensures value { result ≡ pair_claim self.p self.q pair i }
        ensures place { result.place < self.q }
    {
        if i <= self.rights(pair) {
            self.right_claim(pair.first, i)
        } else if self.p - 1 <= i + self.lefts(pair) {
            self.left_claim(pair.last, self.p - 1 - i)
        } else {
            self.lowest()
        }
    }

    /// Whether side `i` of the state of a pair leads to a child.
    #[tactic(auto, unfolding(crate::specs::States::is_child))]
    pub fn is_child(self, pair: Pair, i: u8) -> bool
        requires symbol { IsSymbol self.p self.q }
        requires side { i < self.p }
        ensures { result ≡ is_child self.p self.q pair i }
    {
        self.rights(pair) < i && i + self.lefts(pair) < self.p
    }

    /// The pair of the child across side `i` of the state of a pair.
    #[tactic(auto, unfolding(crate::specs::States::child_pair))]
    pub fn child_pair(self, pair: Pair, i: u8) -> Pair
        requires symbol { IsSymbol self.p self.q }
        requires pair { IsPair self.p self.q pair }
        requires side { i < self.p }
        ensures { result ≡ child_pair self.p self.q pair i }
    {
        pair_between(self.claim(pair, i.saturating_sub(1)), self.claim(pair, i))
    }

    /// The pair of the children of the root.
    pub fn first_pair(self) -> Pair
        requires { IsSymbol self.p self.q }
        ensures { result ≡ first_pair self.q }
    {
        pair_between(self.lowest(), self.lowest())
    }
}
