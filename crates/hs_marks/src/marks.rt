//! Marks by address.
ghost use Rattle.std.specs.Prelude.{◌≡◌, [], IsSome, IsOk, IsOkUnless, OnOk, OnErr};
ghost use Rattle.hs_marks.specs.declared.fault.MarkFault.TheVariants.{NoMemory};
ghost use Rattle.hs_marks.specs.Marks.{mark_of, give, forget_mark, is_kept_in};

use crate::MarkFault;
use hs_limits::Address;
use std::alloc::Global;
use std::collections::BTreeMap;
use std::marker::Model;

/// For each address that was given the epoch in which it was given last: its mark.
#[derive(Drop)]
pub struct Marks {
    marks: BTreeMap<Address, u64>,
}

impl Model for Marks {
    ghost use Rattle.hs_marks.specs.Marks.{MarkList};

    ghost Value = { MarkList };

    ghost view = { λ a. a.marks.entries };
}

impl Marks {
    /// No mark. It takes no memory.
    pub fn new(alloc: Global) -> Marks
        ensures { result ≡ [] }
    {
        Marks {
            marks: BTreeMap::new(alloc),
        }
    }

    /// Sets the mark of an address that is given in this epoch. At an address that has a mark it takes
    /// no memory. The only fault is NoMemory, and it changes nothing.
    pub fn give(&mut self, address: Address, epoch: u64) -> Result<(), MarkFault>
        ensures ok { OnOk result (self.new ≡ give address epoch self.old) }
        ensures again { IsSome (mark_of address self.old) → IsOk result }
        ensures only { IsOkUnless result NoMemory }
        ensures same { OnErr result (self.new ≡ self.old) }
    {
        self.marks.insert(address, epoch)?;
        Ok(())
    }

    /// Whether the address has a mark that is this epoch or the one before, or later. It takes no
    /// memory.
    pub fn kept_in(&self, address: &Address, epoch: u64) -> bool
        ensures { result ≡ is_kept_in epoch (mark_of address.now self.now) }
    {
        match self.get(address) {
            Some(mark) => mark >= epoch.saturating_sub(1),
            None => false,
        }
    }

    /// Takes the mark of an address away, if it has one. It takes no memory.
    pub fn forget(&mut self, address: &Address)
        ensures { self.new ≡ forget_mark address.now self.old }
    {
        self.marks.remove(address);
    }

    /// The mark of an address. None exactly where it has none. It takes no memory.
    pub fn get(&self, address: &Address) -> Option<u64>
        ensures { result ≡ mark_of address.now self.now }
    {
        self.marks.get(address).copied()
    }
}
