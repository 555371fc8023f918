//! What cases are read with.
use crate::line::found;
use crate::{CaseFault, Malformed, Naming};
use hs_ports::Side;
use std::alloc::Global;
use std::collections::BTreeMap;

/// The words for a side.
const SIDES: [(&str, Side); 2] = [("zero", Side::Zero), ("one", Side::One)];

/// The words for a naming.
const NAMINGS: [(&str, Naming); 2] = [("sha", Naming::Sha), ("tail", Naming::Tail)];

/// What cases are read with. What can't be read gives some value all the same, and its fault is
/// kept until it is taken: of several the first.
#[derive(Drop)]
pub struct Reader {
    pub alloc: Global,
    /// The number of the line that is read.
    pub at: u64,
    /// How many units of work may still be done, so that a program over cases ends whatever they
    /// hold. A unit is about one byte that is handled.
    left: u64,
    /// The bytes to which the file gives names.
    pub(crate) names: BTreeMap<Vec<u8>, Vec<u8>>,
    malformed: Option<Malformed>,
}

impl Reader {
    /// A reader that may do so many units of work.
    pub fn new(alloc: Global, units: u64) -> Reader {
        Reader {
            alloc,
            at: 0,
            left: units,
            names: BTreeMap::new(alloc),
            malformed: None,
        }
    }

    /// Forgets all names: those of a file are its own.
    pub fn forget_names(&mut self) {
        self.names.clear();
    }

    /// Keeps a fault of the line that is read, where there is none yet.
    pub fn fail(&mut self, fault: CaseFault) {
        if self.malformed.is_none() {
            self.malformed = Some(Malformed { at: self.at, fault });
        }
    }

    /// Whether there is a fault.
    pub fn has_failed(&self) -> bool {
        self.malformed.is_some()
    }

    /// Gives the fault, and has none from then on.
    pub fn take_fault(&mut self) -> Option<Malformed> {
        self.malformed.take()
    }

    /// Takes units for work that is to be done. Where fewer are left it is false, from then on.
    pub fn spend(&mut self, units: u64) -> bool {
        match self.left.checked_sub(units) {
            Some(left) => {
                self.left = left;
                true
            }
            None => {
                self.left = 0;
                self.fail(CaseFault::Spent);
                false
            }
        }
    }

    /// Fails where something could not be stored.
    pub fn stored<T: Drop, E: Drop>(&mut self, answer: Result<T, E>) {
        if answer.is_err() {
            self.fail(CaseFault::NoMemory);
        }
    }

    /// Fails where something could not be stored, or stood there before.
    pub(crate) fn stored_once<T: Drop, E: Drop>(&mut self, answer: Result<Option<T>, E>) {
        match answer {
            Ok(None) => {}
            Ok(Some(_)) => self.fail(CaseFault::SaidTwice),
            Err(_) => self.fail(CaseFault::NoMemory),
        }
    }

    /// What was read, or what stands for it where nothing was.
    pub(crate) fn or<T: Drop>(&mut self, read: Option<T>, other: T, fault: CaseFault) -> T {
        match read {
            Some(read) => read,
            None => {
                self.fail(fault);
                other
            }
        }
    }

    /// The same items again.
    pub fn copy<T: Copy>(&mut self, items: &[T]) -> Vec<T> {
        let copy = Vec::from_slice(self.alloc, items).ok();
        self.or(copy, Vec::new(self.alloc), CaseFault::NoMemory)
    }

    /// The side that a word says.
    pub fn side(&mut self, word: &[u8]) -> Side {
        self.or(found(&SIDES, word), Side::Zero, CaseFault::UnknownWord)
    }

    /// The naming that a word says.
    pub fn naming(&mut self, word: &[u8]) -> Naming {
        self.or(found(&NAMINGS, word), Naming::Sha, CaseFault::UnknownWord)
    }
}
