//! `Reader`: the states and the corner types of one region.
ghost use Rattle.std.specs.Prelude.{◌≡◌, ℕ, ◌+◌, ◌<◌, ◌≤◌, length, IfOk, IfSome, IsTrue, ◌↔◌};
ghost use Rattle.std.specs.Option.{option_map};
ghost use Rattle.coincidence.specs.Cells.{IsLive};
ghost use Rattle.coincidence.specs.Tables.{kind_of, type_at};
ghost use Rattle.coincidence.specs.Joined.{IsTable};
ghost use Rattle.region_grower.specs.Ways.{IsDart};
ghost use Rattle.look_classes.specs.Tree.{sides_of, dart_of, counted};
ghost use Rattle.look_classes.specs.Numbers.{entry};
ghost use Rattle.look_classes.specs.Classes.{AreClasses, made};
ghost use Rattle.state_candidates.specs.Reading.{corner_number, claim_of, child_of, rule_at_side, rules_of, claim_at_side, claims_of, state_of, corner_of};
ghost use Rattle.state_candidates.specs.Gathered.{root_read};
ghost use Rattle.state_candidates.specs.Readers.{ReaderState, IsReader};

use crate::darts::{dart, left, sides};
use crate::offsets::distances;
use crate::starts::corner_starts;
use coincidence::Dart;
use look_classes::{Classes, Looks, SideRule};
use rules_data::{Claim, Corner, Rule, State};
use std::alloc::{AllocError, Global};
use std::marker::Model;

/// The number that stands at an index; None where there is none.
fn number_at(numbers: &[Option<u32>], at: usize) -> Option<u32>
    ensures { result ≡ entry numbers.now at }
{
    match numbers.get(at) {
        Some(number) => *number,
        None => None,
    }
}

/// What the states and the corner types of one region are read with: its looks and its classes,
/// where the corners of each cell begin, and the numbers of its first state and corner type.
#[derive(Drop)]
pub(crate) struct Reader<'a, 'g, 't> {
    looks: &'a Looks<'g, 't>,
    classes: &'a Classes,
    starts: Vec<u32>,
    first_state: u32,
    first_corner: u32,
}

impl<'a, 'g, 't> Model for Reader<'a, 'g, 't> {
    ghost use Rattle.state_candidates.specs.Readers.{ReaderState, IsReaderWith};

    ghost Value = { ReaderState };

    ghost view = { λ x. record {
      region = x.looks.now.region;
      horizon = x.looks.now.horizon;
      lists = x.classes.now;
      first_state = x.first_state;
      first_corner = x.first_corner;
    } };

    ghost invariant = { λ x. IsReaderWith (record {
      region = x.looks.now.region;
      horizon = x.looks.now.horizon;
      lists = x.classes.now;
      first_state = x.first_state;
      first_corner = x.first_corner;
    }) x.starts.items };
}

impl<'a, 'g, 't> Reader<'a, 'g, 't> {
    /// The reader of a region whose classes are these, with so many states and corner types before
    /// its own.
    pub(crate) fn of(
        alloc: Global,
        looks: &'a Looks<'g, 't>,
        classes: &'a Classes,
        first_state: u32,
        first_corner: u32,
    ) -> Result<Reader<'a, 'g, 't>, AllocError>
        requires classes { AreClasses looks.now.horizon looks.now.region classes.now }
        requires few_states { first_state + classes.now.cell_count ≤ 100000 }
        requires few_corners { first_corner + classes.now.corner_count ≤ 20000 }
        ensures reader { IfOk result IsReader }
        ensures value { IfOk result (λ x. x ≡ record {
          region = looks.now.region;
          horizon = looks.now.horizon;
          lists = classes.now;
          first_state = first_state;
          first_corner = first_corner;
        }) }
    {
        let region = looks.region();
        // The region keeps what a table keeps.
        let _joins = region.joins();
        Ok(Reader {
            looks,
            classes,
            starts: corner_starts(alloc, region)?,
            first_state,
            first_corner,
        })
    }

    /// The number of its first state.
    pub(crate) fn first_state(&self) -> u32
        ensures { result ≡ self.now.first_state }
    {
        self.first_state
    }

    /// The number of its first corner type.
    pub(crate) fn first_corner(&self) -> u32
        ensures { result ≡ self.now.first_corner }
    {
        self.first_corner
    }

    /// The number of cells that were made.
    pub(crate) fn made(&self) -> u32
        ensures value { result ≡ length self.now.region.table.origins }
        ensures reader { IsReader self.now }
    {
        self.looks.region().made()
    }

    /// The number of sides of a cell that was made, 3 to 64.
    pub(crate) fn sides(&self, cell: u32) -> u8
        requires { cell < length self.now.region.table.origins }
        ensures value { result ≡ sides_of self.now.region cell }
        ensures at_most { result ≤ 64 }
    {
        sides(self.looks.region(), cell)
    }

    /// The number of the corner at the left end of a dart; None where it has none.
    pub(crate) fn corner_number(&self, d: Dart) -> Option<u32>
        requires { d.0 < length self.now.region.table.origins }
        ensures value { result ≡ corner_number self.now.region self.now.lists d }
        ensures few { IfSome result (λ m. self.now.first_corner + m ≤ 20000) }
    {
        let at = self.starts[d.cell as usize] as usize + d.side as usize;
        let classes = self.classes;
        number_at(&classes.corners, at)
    }

    /// The state of its first cell; None where that has no number.
    pub(crate) fn root(&self) -> Option<u32>
        ensures { result ≡ root_read self.now }
    {
        let first = self.first_state;
        let Some(number) = self.cell_number(0) else {
            return None;
        };
        Some(first + number)
    }

    /// The claim of a dart; None where its corner has no number.
    #[tactic(auto, unfolding(crate::specs::Reading::claim_of))]
    fn claim(&self, d: Dart) -> Option<Claim>
        requires { IsDart self.now.region.table d }
        ensures { result ≡ claim_of self.now.region self.now.lists self.now.first_corner d }
    {
        let looks = self.looks;
        let Some(number) = self.corner_number(d) else {
            return None;
        };
        let Some(place) = looks.place(d) else {
            return None;
        };
        Some(Claim {
            corner: self.first_corner + number,
            place,
        })
    }

    /// The rule Child with the state of the cell across a dart; None where it has no number.
    #[tactic(auto, unfolding(crate::specs::Reading::child_of))]
    fn child(&self, d: Dart) -> Option<Rule>
        requires { IsDart self.now.region.table d }
        ensures { result ≡ child_of self.now.region self.now.lists self.now.first_state d }
    {
        let Some(over) = self.looks.region().joins().joined(d) else {
            return None;
        };
        let Some(number) = self.cell_number(over.cell) else {
            return None;
        };
        Some(Rule::Child(self.first_state + number))
    }

    /// The number of a cell; None where it has none.
    pub(crate) fn cell_number(&self, cell: u32) -> Option<u32>
        ensures value { result ≡ entry self.now.lists.cells cell }
        ensures few { IfSome result (λ m. self.now.first_state + m ≤ 100000) }
    {
        let classes = self.classes;
        number_at(&classes.cells, cell as usize)
    }

    /// The rule of side `j` of a live cell, counted from its parent side; None where it has none,
    /// or where the cell across has no number.
    #[tactic(auto, unfolding(crate::specs::Reading::rule_at_side))]
    fn rule(&self, cell: u32, j: u8) -> Option<Rule>
        requires live { IsLive self.now.region.table.cells cell }
        requires side { j < sides_of self.now.region cell }
        ensures { result ≡ rule_at_side self.now.region self.now.lists self.now.first_state cell j }
    {
        match self.looks.rule(cell, j) {
            None => None,
            Some(SideRule::Parent) => Some(Rule::Parent),
            Some(SideRule::Child) => self.child(self.looks.counted(cell, j)),
            Some(SideRule::Left) => Some(Rule::Left),
            Some(SideRule::Right) => Some(Rule::Right),
        }
    }

    /// The rules of the sides of a live cell; None where one is not there.
    fn rules(&self, alloc: Global, cell: u32) -> Result<Option<Vec<Rule>>, AllocError>
        requires { IsLive self.now.region.table.cells cell }
        ensures { IfOk result (λ o. option_map (λ v. v.items) o
            ≡ rules_of self.now.region self.now.lists self.now.first_state cell) }
    {
        let mut rules = Vec::new(alloc);
        for j in 0..sides(self.looks.region(), cell) {
            let Some(rule) = self.rule(cell, j) else {
                return Ok(None);
            };
            rules.push(rule)?;
        }
        Ok(Some(rules))
    }

    /// The claim of side `j` of a live cell, counted from its parent side; None where its corner
    /// has no number.
    fn side_claim(&self, cell: u32, j: u8) -> Option<Claim>
        requires live { IsLive self.now.region.table.cells cell }
        requires side { j < sides_of self.now.region cell }
        ensures { result
            ≡ claim_at_side self.now.region self.now.lists self.now.first_corner cell j }
    {
        self.claim(self.looks.counted(cell, j))
    }

    /// The claims of the sides of a live cell; None where one is not there.
    fn claims(&self, alloc: Global, cell: u32) -> Result<Option<Vec<Claim>>, AllocError>
        requires { IsLive self.now.region.table.cells cell }
        ensures { IfOk result (λ o. option_map (λ v. v.items) o
            ≡ claims_of self.now.region self.now.lists self.now.first_corner cell) }
    {
        let mut claims = Vec::new(alloc);
        for j in 0..sides(self.looks.region(), cell) {
            let Some(claim) = self.side_claim(cell, j) else {
                return Ok(None);
            };
            claims.push(claim)?;
        }
        Ok(Some(claims))
    }

    /// Whether a cell is live.
    fn is_live(&self, cell: u32) -> bool
        ensures value { IsTrue result ↔ IsLive self.now.region.table.cells cell }
        ensures table { IsTable self.now.region.table }
    {
        self.looks.region().joins().alive(cell)
    }

    /// The kind of a cell that was made.
    fn kind(&self, cell: u32) -> u8
        requires { cell < length self.now.region.table.origins }
        ensures { result ≡ kind_of self.now.region.table.origins cell }
    {
        self.looks.region().joins().kind(cell)
    }

    /// The residue of the side of a live cell that is counted as 0.
    fn residue(&self, cell: u32) -> u8
        requires { IsLive self.now.region.table.cells cell }
        ensures { result ≡ (type_at self.now.region.table (counted self.now.region cell 0)).1 }
    {
        let joins = self.looks.region().joins();
        joins.type_of(self.looks.counted(cell, 0)).residue
    }

    /// The state that is read off a cell that was made; None where there is none.
    pub(crate) fn state(&self, alloc: Global, cell: u32) -> Result<Option<State>, AllocError>
        requires { cell < length self.now.region.table.origins }
        ensures { IfOk result (λ o. o
            ≡ state_of self.now.region self.now.lists
            self.now.first_state self.now.first_corner cell) }
    {
        if !self.is_live(cell) {
            return Ok(None);
        }
        let Some(rules) = self.rules(alloc, cell)? else {
            return Ok(None);
        };
        let Some(claims) = self.claims(alloc, cell)? else {
            return Ok(None);
        };
        Ok(Some(State {
            kind: self.kind(cell),
            off: self.residue(cell),
            rules,
            claims,
        }))
    }

    /// The corner type that is read off a side of a cell that was made; None where there is none.
    pub(crate) fn corner(
        &self,
        alloc: Global,
        cell: u32,
        side: u8,
    ) -> Result<Option<Corner>, AllocError>
        requires { cell < length self.now.region.table.origins }
        ensures { IfOk result (λ o. option_map (λ g. (g.offsets, g.outer)) o
            ≡ corner_of self.now.region self.now.lists self.now.first_corner
            (dart_of self.now.region cell side)) }
    {
        let region = self.looks.region();
        if !self.is_live(cell) {
            return Ok(None);
        }
        let Some(next) = self.looks.outer_side(dart(region, cell, side)) else {
            return Ok(None);
        };
        let Some(outer) = self.claim(next) else {
            return Ok(None);
        };
        let Some(offsets) = distances(alloc, region, left(region, next))? else {
            return Ok(None);
        };
        Ok(Some(Corner { offsets, outer }))
    }
}
