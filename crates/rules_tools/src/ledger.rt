//! The books of a splitting: how great classes are, which wait, and what is to become of those that
//! were met. Classes are right whatever stands here; it says only which are split next and how fast.

use std::alloc::{AllocError, Global};

/// What is known of a class. It is met where some of its states are to be split off.
#[derive(Clone, Copy, Debug)]
struct Account {
    size: u32,
    met: u32,
    waits: bool,
}

/// The accounts of classes, for each the number that the states that were met of it get, the
/// classes that wait, and those that were met.
#[derive(Debug, Drop)]
pub(crate) struct Ledger {
    accounts: Vec<Account>,
    pub(crate) targets: Vec<u32>,
    waiting: Vec<u32>,
    met: Vec<u32>,
}

impl Ledger {
    /// Each class waits. Classes are numbered from 0.
    pub(crate) fn new(alloc: Global, class: &[u32]) -> Result<Ledger, AllocError> {
        let mut ledger = Ledger {
            accounts: Vec::new(alloc),
            targets: Vec::new(alloc),
            waiting: Vec::new(alloc),
            met: Vec::new(alloc),
        };
        for number in class {
            ledger.count_one(*number)?;
        }
        Ok(ledger)
    }

    /// Counts one state more of a class, a new one where the number is the next.
    fn count_one(&mut self, number: u32) -> Result<(), AllocError> {
        if number as usize == self.accounts.len() {
            self.open(0)?;
            self.wait(number)?;
        }
        let k = number as usize;
        if k < self.accounts.len() {
            self.accounts[k].size = self.accounts[k].size.saturating_add(1);
        }
        Ok(())
    }

    /// A new class of so many states.
    fn open(&mut self, size: u32) -> Result<(), AllocError> {
        let Ok(number) = u32::try_from(self.accounts.len()) else {
            return Err(AllocError);
        };
        self.accounts.push(Account {
            size,
            met: 0,
            waits: false,
        })?;
        self.targets.push(number)?;
        Ok(())
    }

    /// Has a class wait.
    fn wait(&mut self, number: u32) -> Result<(), AllocError> {
        let k = number as usize;
        if k < self.accounts.len() {
            self.accounts[k].waits = true;
            self.waiting.push(number)?;
        }
        Ok(())
    }

    /// A class that waits no more.
    pub(crate) fn next(&mut self) -> Option<u32> {
        let number = self.waiting.pop()?;
        let k = number as usize;
        if k < self.accounts.len() {
            self.accounts[k].waits = false;
        }
        Some(number)
    }

    /// One state of a class is met.
    pub(crate) fn meet(&mut self, number: u32) -> Result<(), AllocError> {
        let k = number as usize;
        if k < self.accounts.len() {
            if self.accounts[k].met == 0 {
                self.met.push(number)?;
            }
            self.accounts[k].met = self.accounts[k].met.saturating_add(1);
        }
        Ok(())
    }

    /// Numbers the states that were met of a class, where these are not all of them. Of both parts
    /// the lesser one waits from here on, or both where the class waits.
    fn part(&mut self, number: u32) -> Result<(), AllocError> {
        let k = number as usize;
        if k >= self.accounts.len() || k >= self.targets.len() {
            return Ok(());
        }
        let account = self.accounts[k];
        self.accounts[k].met = 0;
        if account.met >= account.size {
            return Ok(());
        }
        let Ok(new) = u32::try_from(self.accounts.len()) else {
            return Err(AllocError);
        };
        let rest = account.size - account.met;
        self.accounts[k].size = rest;
        self.targets[k] = new;
        self.open(account.met)?;
        let lesser = if account.waits || account.met <= rest {
            new
        } else {
            number
        };
        self.wait(lesser)
    }

    /// Numbers the states that were met. Answers whether there is a class more.
    pub(crate) fn part_all(&mut self) -> Result<bool, AllocError> {
        let before = self.accounts.len();
        for i in 0..self.met.len() {
            if let Some(number) = self.met.get(i).copied() {
                self.part(number)?;
            }
        }
        Ok(before < self.accounts.len())
    }

    /// Forgets what was met.
    pub(crate) fn close(&mut self) {
        for i in 0..self.met.len() {
            let number = self.met[i];
            if (number as usize) < self.targets.len() {
                self.targets[number as usize] = number;
            }
        }
        self.met.clear();
    }
}
