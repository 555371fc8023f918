//! One side of a disk as a log of sealed frames.
ghost use Rattle.std.specs.Prelude.{◌≡◌, ◌≤◌, ◌+◌, [], ◌∷◌, ◌++◌, ℕ, None, Some, IsSome, IfSome, OnOk, IfErr, vec_len, vec_capacity};
ghost use Rattle.hs_ports.specs.Disk.{other_side, settled};
ghost use Rattle.hs_ports.specs.Moments.{EachMoment};
ghost use Rattle.hs_ports.specs.Watch.{next_moment};
ghost use Rattle.hs_entry.specs.declared.entry.Entry.{Entry};
ghost use Rattle.hs_side.specs.Caused.{IsCalm, IsCaused};
ghost use Rattle.hs_side.specs.Giving.{GivesEither};
ghost use Rattle.hs_side.specs.Reading.{log_of, with_frame};
ghost use Rattle.hs_side.specs.Standing.{Stands, opened};

use crate::device::{put_and_settle, settle};
use crate::{Header, SideFault};
use hs_ports::{Disk, Side, Watch};
use std::marker::Model;

/// One side of a disk as a log: its sealed frames in order, and at most one frame that is appended
/// and not sealed. The disk is handed to each call. The value keeps places; what the frames hold
/// is on the disk.
#[derive(Drop)]
pub struct SideLog {
    pub(crate) side: Side,
    pub(crate) head: Option<(Header, u64)>,
    pub(crate) places: Vec<u64>,
    pub(crate) end: u64,
    pub(crate) waiting: Option<u64>,
    pub(crate) frame: Vec<u8>,
}

impl Model for SideLog {
    ghost use Rattle.std.specs.Prelude.{◌≤◌, ◌+◌, IfSome, IsSome, vec_len, vec_capacity};
    ghost use Rattle.hs_side.specs.Standing.{SideState};

    ghost Value = { SideState };

    ghost view = { λ a. record {
      side = a.side;
      head = a.head;
      places = a.places.items;
      end = a.end;
      waiting = a.waiting;
    } };

    // an append made the room for the place that the seal adds
    ghost invariant = { λ a. IfSome a.waiting (λ next. record {
      holds : IsSome a.head;
      room : vec_len a.places + 1 ≤ vec_capacity a.places;
    }) };
}

impl SideLog {
    /// The side.
    pub fn side(&self) -> Side
        ensures { result ≡ self.now.side }
    {
        self.side
    }

    /// The header, of a side that is not blank.
    pub fn header(&self) -> Header
        requires { IsSome self.now.head }
        ensures { IfSome self.now.head (λ head. result ≡ head.0) }
    {
        match self.head {
            Some((header, _)) => header,
            None => unreachable!(),
        }
    }

    /// The generation, and None exactly where the side is blank.
    pub fn generation(&self) -> Option<u64>
        ensures some { IfSome self.now.head (λ head. result ≡ Some head.1) }
        ensures none { self.now.head ≡ None → result ≡ None }
    {
        match self.head {
            Some((_, generation)) => Some(generation),
            None => None,
        }
    }

    /// The places of the sealed frames, in order.
    pub fn places(&self) -> &[u64]
        ensures { result.now ≡ self.now.places }
    {
        &self.places
    }

    /// The place of the frame that is appended and not sealed, and None exactly where there is
    /// none.
    pub fn unsealed(&self) -> Option<u64>
        ensures some { IsSome self.now.waiting → result ≡ Some self.now.end }
        ensures none { self.now.waiting ≡ None → result ≡ None }
    {
        match self.waiting {
            Some(_) => Some(self.end),
            None => None,
        }
    }

    /// Puts the frame that waits on the medium, then opens its gate, and puts that on the medium.
    /// It takes no memory. After `Disk` the side must be opened again: what the value says then is
    /// open.
    pub fn seal<D: Disk>(&mut self, disk: &mut D, watch: &mut Watch) -> Result<(), SideFault>
        requires stands { Stands D.tells self.old (D.size disk.old self.old.side) (D.stands disk.old) }
        requires waits { IsSome self.old.waiting }

        ensures value { OnOk result (IfSome self.old.waiting (λ next. self.new ≡ record self.old {
          places = self.old.places ++ self.old.end ∷ [];
          end = next;
          waiting = None;
        })) }
        ensures stands { OnOk result (
            Stands D.tells self.new (D.size disk.new self.new.side) (D.stands disk.new)) }
        ensures written { D.tells → OnOk result ((D.stands disk.new).seen self.old.side
            ≡ opened self.old.end ((D.stands disk.old).seen self.old.side)) }
        ensures durable { D.tells → OnOk result ((D.stands disk.new).loose self.old.side
            ≡ settled (opened self.old.end ((D.stands disk.old).seen self.old.side))) }

        // The log has the frame that waited, behind those before.
        ensures grown { D.tells → OnOk result ((x : ℕ × Entry)
            × (log_of ((D.stands disk.new).seen self.old.side)
            ≡ with_frame (record { place = self.old.end; number = x.0; entry = x.1 })
            (log_of ((D.stands disk.old).seen self.old.side)))) }

        ensures refused { IfErr result (λ fault. fault ≡ SideFault.Disk) }

        ensures other { D.size disk.new (other_side self.old.side)
            ≡ D.size disk.old (other_side self.old.side) }

        ensures any_moment { D.tells → (D.stands disk.old).last ≤ watch.old →
            EachMoment watch.old watch.new self.old.side (D.stands disk.old) (D.stands disk.new)
            (GivesEither ((D.stands disk.old).seen self.old.side)
            (opened self.old.end ((D.stands disk.old).seen self.old.side))) }
        // It costs three calls that change the disk: a sync, the write of a byte, a sync.
        ensures cost { OnOk result (watch.new
            ≡ next_moment (next_moment (next_moment watch.old))) }
        ensures ticks { watch.old ≤ watch.new }
        ensures calm { IsCalm (D.faults disk.old) (D.faults disk.new) result }
        ensures cause { IsCaused (D.faults disk.old) (D.faults disk.new) result }
    {
        let Some(next) = self.waiting else {
            unreachable!()
        };
        // The body has to be on the medium before its gate opens.
        settle(disk, watch, self.side)?;
        put_and_settle(disk, watch, self.side, self.end, &[0xa5])?;
        self.places.extend_from_slice(&[self.end]).unwrap();
        self.end = next;
        self.waiting = None;
        Ok(())
    }
}
