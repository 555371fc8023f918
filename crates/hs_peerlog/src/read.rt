//! Reading one entry.
ghost use Rattle.std.specs.Prelude.{◌≡◌, ◌+◌, ◌-◌, ◌<◌, ◌≤◌, ℕ, List, Option, length, slice_index, None, Some, is_some, true, Ok, IfOk, IfErr, IfSome, Contains};
ghost use Rattle.hs_ports.specs.declared.disk.Side.{Side};
ghost use Rattle.hs_entry.specs.declared.entry.Entry.{Entry};
ghost use Rattle.hs_entry.specs.Reading.{entry_at};
ghost use Rattle.hs_side.specs.Standing.{Stands};
ghost use Rattle.hs_peerlog.specs.Caused.{IsCalm, IsCaused, IsOutside};
ghost use Rattle.hs_peerlog.specs.Lists.{has_place, numbered_entry, HasFrames, IsKept, IsNumbered, IsReady};

use crate::{LogFault, PeerLog};
use hs_entry::{Entry, EntryFault, read_entry};
use hs_ports::Disk;
use hs_shared::SharedBytes;
use hs_side::{SideFault, SideLog};
use std::alloc::Global;

impl PeerLog {
    /// The entry of a number, and None exactly where none is kept. Where what is read is no entry of
    /// that number it answers `NotALog` with the place of the frame; a disk that tells its contents
    /// never gives that. It reads one frame, and copies no bytes of a block: the entry keeps what was
    /// read.
    pub fn read_entry<D: Disk>(&self, disk: &mut D, number: u64) -> Result<Option<Entry>, LogFault>
        requires ready { IsReady D.tells self.now (D.size disk.old self.now.log.side)
            (D.stands disk.old) }

        ensures found { D.tells → (list : List (ℕ × Entry)) (waiting : Option Entry)
            → IsKept self.now ((D.stands disk.old).seen self.now.log.side) list waiting
            → IfOk result (λ found. found ≡ numbered_entry list number) }
        // Of any disk: it is None exactly where no entry of that number is kept.
        ensures kept { IfOk result (λ found.
            is_some found ≡ has_place self.now.log.places number) }
        ensures refused { D.tells → IfErr result IsOutside }
        ensures place { IfErr result (λ fault. (at : ℕ) → fault ≡ LogFault.NotALog at
            → (i : ℕ) → number ≡ i + 1 → at ≡ slice_index self.now.log.places i) }

        ensures same { D.tells → D.stands disk.new ≡ D.stands disk.old }
        ensures same_size { (s : Side) → D.size disk.new s ≡ D.size disk.old s }
        ensures calm { IsCalm (D.faults disk.old) (D.faults disk.new) result }
        ensures cause { IsCaused (D.faults disk.old) (D.faults disk.new) result }
    {
        entry_of(self.alloc, &self.log, disk, number)
    }
}

/// The entry of a number in the log of a side, as `read_entry` gives it.
pub(crate) fn entry_of<D: Disk>(
    alloc: Global,
    log: &SideLog,
    disk: &mut D,
    number: u64,
) -> Result<Option<Entry>, LogFault>
    requires { Stands D.tells log.now (D.size disk.old log.now.side) (D.stands disk.old) }

    ensures found { D.tells → (list : List (ℕ × Entry))
        → HasFrames log.now.places ((D.stands disk.old).seen log.now.side) list
        → IsNumbered list → IfOk result (λ found. found ≡ numbered_entry list number) }
    ensures kept { IfOk result (λ found. is_some found ≡ has_place log.now.places number) }
    ensures refused { D.tells → (list : List (ℕ × Entry))
        → HasFrames log.now.places ((D.stands disk.old).seen log.now.side) list
        → IsNumbered list → IfErr result IsOutside }
    ensures place { IfErr result (λ fault. (at : ℕ) → fault ≡ LogFault.NotALog at
        → (i : ℕ) → number ≡ i + 1 → at ≡ slice_index log.now.places i) }

    ensures same { D.tells → D.stands disk.new ≡ D.stands disk.old }
    ensures same_size { (s : Side) → D.size disk.new s ≡ D.size disk.old s }
    ensures calm { IsCalm (D.faults disk.old) (D.faults disk.new) result }
    ensures cause { IsCaused (D.faults disk.old) (D.faults disk.new) result }
{
    let Some(place) = place_of(log, number) else {
        return Ok(None);
    };
    let mut payload = Vec::new(alloc);
    match log.read(disk, place, &mut payload) {
        Ok(()) => {}
        Err(SideFault::NotALog { .. }) => return Err(LogFault::NotALog { at: place }),
        Err(SideFault::Disk) => return Err(LogFault::Disk),
        Err(SideFault::NoMemory) => return Err(LogFault::NoMemory),
    }
    let Ok(bytes) = SharedBytes::from_vec(alloc, payload) else {
        return Err(LogFault::NoMemory);
    };
    entry_in(alloc, number, place, bytes)
}

/// The place of the frame of a number, and None exactly where none has it.
fn place_of(log: &SideLog, number: u64) -> Option<u64>
    ensures inside { IfSome result (λ place. Contains log.now.places place) }
    ensures some { IfSome result (λ place. (0 < number) × (number - 1 < length log.now.places)
        × (place ≡ slice_index log.now.places (number - 1))) }
    ensures none { result ≡ None → (i : ℕ) → number ≡ i + 1 → length log.now.places ≤ i }
    ensures kept { is_some result ≡ has_place log.now.places number }
{
    let places = log.places();
    if number == 0 || number - 1 >= places.len() as u64 {
        return None;
    }
    Some(places[(number - 1) as usize])
}

/// The entry that a payload of this number is, in the frame at a place.
fn entry_in(
    alloc: Global,
    number: u64,
    place: u64,
    payload: SharedBytes,
) -> Result<Option<Entry>, LogFault>
    ensures value { (entry : Entry) → entry_at payload ≡ Ok (number, entry)
        → IfOk result (λ found. found ≡ Some entry) }
    ensures refused { (entry : Entry) → entry_at payload ≡ Ok (number, entry)
        → IfErr result (λ fault. fault ≡ LogFault.NoMemory) }
    ensures only { IfOk result (λ found. IfSome found (λ entry.
        entry_at payload ≡ Ok (number, entry))) }
    ensures some { IfOk result (λ found. is_some found ≡ true) }
    ensures place { IfErr result (λ fault. (at : ℕ) → fault ≡ LogFault.NotALog at → at ≡ place) }
    ensures memory { IfErr result (λ fault. fault ≡ LogFault.Disk → ⊥) }
{
    match read_entry(alloc, payload) {
        Ok((found, entry)) if found == number => Ok(Some(entry)),
        Err(EntryFault::NoMemory) => Err(LogFault::NoMemory),
        _ => Err(LogFault::NotALog { at: place }),
    }
}
