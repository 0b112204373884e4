//! Keys that are handed in one after the other, and their numbers.
ghost use Rattle.std.specs.Prelude.{◌≡◌, ℕ, List, [], ◌∷◌, ◌++◌, Option, None, Some, IfOk, OnOk, MatchOption};
ghost use Rattle.key_numbers.specs.Numbers.{AreNumbers};
ghost use Rattle.key_numbers.specs.Numbering.{HasNumbered};

use indexmap::IndexSet;
use std::alloc::{AllocError, Global};

/// The keys that were met, and the number of each that was handed in; None for what has no key.
#[derive(Drop)]
pub struct Numbering {
    pub keys: IndexSet<Vec<u32>>,
    pub numbers: Vec<Option<u32>>,
}

impl Numbering {
    /// With nothing handed in. It takes no memory.
    pub fn new(alloc: Global) -> Numbering
        ensures { HasNumbered [] result }
    {
        Numbering {
            keys: IndexSet::new(alloc),
            numbers: Vec::new(alloc),
        }
    }

    /// Numbers the next key. Only want of memory refuses it, and then the numbering is of no more use.
    pub fn add(&mut self, key: Option<Vec<u32>>) -> Result<(), AllocError>
        ensures { (met : List (Option (List ℕ))) (x : Option (List ℕ)) → HasNumbered met self.old
            → MatchOption key (x ≡ None) (λ v. x ≡ Some v.items)
            → OnOk result (HasNumbered (met ++ x ∷ []) self.new) }
    {
        match key {
            Some(key) => {
                let (number, _) = self.keys.insert_full(key)?;
                let Ok(number) = u32::try_from(number) else {
                    return Err(AllocError);
                };
                self.numbers.push(Some(number))?;
            }
            None => self.numbers.push(None)?,
        }
        Ok(())
    }

    /// The numbers of all that was handed in, and how many numbers there are.
    pub fn finish(self) -> Result<(Vec<Option<u32>>, u32), AllocError>
        ensures { (met : List (Option (List ℕ))) → HasNumbered met self
            → IfOk result (λ x. AreNumbers met x.0.items x.1) }
    {
        let Ok(count) = u32::try_from(self.keys.len()) else {
            return Err(AllocError);
        };
        Ok((self.numbers, count))
    }
}
