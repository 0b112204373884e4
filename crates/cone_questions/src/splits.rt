//! A base automaton goes along with the experiments that are added: what is not touched by one is
//! not read again.
ghost use Rattle.std.specs.Prelude.{◌≡◌, ◌≤◌, length};

use crate::comparing::Found;
use crate::cones::Cones;
use crate::fault::AskFault;
use crate::questions::Questions;
use crate::steps::across;
use cell_patches::Patches;
use cone_types::Rule;

impl Questions {
    /// Brings a base automaton up to what a comparison found. Where a cone type was split, the
    /// cells that count as of it are asked on; cone types that are new are read. Answers false
    /// where a cell has less than a full turn, or there are over 20,000 cone types.
    ///
    /// Cells that were made since the rest was read may have changed it: only `pass` reads it all.
    ///
    /// # Errors
    ///
    /// `Full` where cells are wanted and as many are made as may be, `Memory` where there is none.
    pub fn go_along(
        &mut self,
        patches: &mut Patches,
        cones: &mut Cones,
        found: Found,
    ) -> Result<bool, AskFault>
        ensures most { patches.new.most ≡ patches.old.most }
        ensures kept { length cones.old.types.items ≤ length cones.new.types.items }
    {
        match found {
            Found::Nothing | Found::Known => return Ok(true),
            Found::New(cone_type) => self.split(patches, cones, cone_type)?,
            Found::Moved(cone_type, side) => {
                self.read_child_again(patches, cones, cone_type as usize, side, None)?;
            }
        }
        self.read_rest(patches, cones)
    }

    /// Asks the cells that count as of a cone type on, from its node.
    fn split(
        &mut self,
        patches: &mut Patches,
        cones: &mut Cones,
        cone_type: u32,
    ) -> Result<(), AskFault>
        ensures most { patches.new.most ≡ patches.old.most }
        ensures kept { length cones.old.types.items ≤ length cones.new.types.items }
    {
        let Some(cell) = cones.cell(cone_type) else {
            return Ok(());
        };
        let node = cones.node(cone_type);
        let own = self.sift_on(patches, cell, node)?;
        cones.rename(cone_type, own)?;
        for number in 0..cones.types.len() {
            self.split_children(patches, cones, number, cone_type, node)?;
        }
        Ok(())
    }

    /// Asks the children of one cone type that count as of another one on, from its node.
    fn split_children(
        &mut self,
        patches: &mut Patches,
        cones: &mut Cones,
        number: usize,
        cone_type: u32,
        node: u32,
    ) -> Result<(), AskFault>
        ensures most { patches.new.most ≡ patches.old.most }
        ensures kept { length cones.old.types.items ≤ length cones.new.types.items }
    {
        for side in 0..64 {
            match cones.rule(number, side) {
                None => return Ok(()),
                Some(Rule::Child(child)) if child == cone_type => {
                    self.read_child_again(patches, cones, number, side, Some(node))?;
                }
                Some(_) => {}
            }
        }
        Ok(())
    }

    /// Reads again to which cone type the child across a side is: all that is asked, or what is
    /// asked from a node on.
    fn read_child_again(
        &mut self,
        patches: &mut Patches,
        cones: &mut Cones,
        number: usize,
        side: u8,
        from: Option<u32>,
    ) -> Result<(), AskFault>
        ensures most { patches.new.most ≡ patches.old.most }
        ensures kept { length cones.old.types.items ≤ length cones.new.types.items }
    {
        let Some(cell) = cones.cells.get(number).copied() else {
            return Ok(());
        };
        let Some(child) = across(patches, cell, side) else {
            return Ok(());
        };
        let node = match from {
            Some(from) => self.sift_on(patches, child, from)?,
            None => self.sift(patches, child)?,
        };
        let child = across(patches, cell, side).unwrap_or(child);
        let child_type = cones.number(node, child)?;
        cones.set_child(number, side, child_type);
        Ok(())
    }
}
