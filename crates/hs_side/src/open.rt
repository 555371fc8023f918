//! Opening a side.
ghost use Rattle.hs_ports.specs.declared.disk.Side.{Side};
ghost use Rattle.std.specs.Prelude.{◌≡◌, ◌<◌, ◌≤◌, ◌+◌, ◌^◌, ℕ, [], length, None, Some, Ok, Err, IfOk, OnOk};
ghost use Rattle.hs_ports.specs.Disk.{IsImage, Untouched, other_side, settled};
ghost use Rattle.hs_ports.specs.Moments.{EachMoment};
ghost use Rattle.hs_side.specs.Caused.{IsCalm, IsCaused};
ghost use Rattle.hs_side.specs.Opening.{Opens, OpensRanked};
ghost use Rattle.hs_side.specs.Reading.{log_of};
ghost use Rattle.hs_side.specs.Standing.{Stands, HasBytes, HasRoom};
ghost use Rattle.hs_side.specs.declared.header.Header.{Header};
ghost use Rattle.hs_side.specs.Steps.{IsHeadOf, IsScan};

use crate::device::settle;
use crate::frame::{open_at, read_frame};
use crate::head::read_head;
use crate::{Header, SideFault, SideLog};
use hs_entry::Rank;
use hs_ports::{Disk, Side, Watch};
use std::alloc::Global;

impl SideLog {
    /// Opens a side: puts it on the medium, and reads it. It writes nothing. A blank side has no
    /// header and no frame.
    pub fn open<D: Disk>(
        alloc: Global,
        disk: &mut D,
        watch: &mut Watch,
        side: Side,
    ) -> Result<SideLog, SideFault>
        // What is read, and which fault it is: `NotALog` with the first place that is wrong.
        ensures exact { D.tells → Opens result (log_of ((D.stands disk.old).seen side)) }
        ensures stands { IfOk result (λ log.
            Stands D.tells log (D.size disk.new side) (D.stands disk.new)) }
        ensures side { IfOk result (λ log. log.side ≡ side) }
        ensures rests { IfOk result (λ log. log.waiting ≡ None) }
        ensures durable { D.tells → OnOk result ((D.stands disk.new).loose side
            ≡ settled ((D.stands disk.old).seen side)) }

        // It writes nothing: a read gives the same, and a crash leaves what it could leave before.
        ensures same { D.tells → (D.stands disk.new).seen side ≡ (D.stands disk.old).seen side }
        ensures same_size { (s : Side) → D.size disk.new s ≡ D.size disk.old s }
        ensures other { D.tells →
            Untouched (other_side side) (D.stands disk.old) (D.stands disk.new) }

        ensures any_moment { D.tells → (D.stands disk.old).last ≤ watch.old →
            EachMoment watch.old watch.new side (D.stands disk.old) (D.stands disk.new)
            (IsImage ((D.stands disk.old).loose side)) }
        ensures ticks { watch.old ≤ watch.new }
        ensures calm { IsCalm (D.faults disk.old) (D.faults disk.new) result }
        ensures cause { IsCaused (D.faults disk.old) (D.faults disk.new) result }
    {
        match SideLog::open_ranked(alloc, disk, watch, side) {
            Ok((log, _)) => Ok(log),
            Err(fault) => Err(fault),
        }
    }

    /// Opens a side as `open` does, and tells the rank of its entries. It reads each byte of the side
    /// once.
    pub fn open_ranked<D: Disk>(
        alloc: Global,
        disk: &mut D,
        watch: &mut Watch,
        side: Side,
    ) -> Result<(SideLog, Rank), SideFault>
        // What is read, and which fault it is: `NotALog` with the first place that is wrong.
        ensures exact { D.tells → OpensRanked result (log_of ((D.stands disk.old).seen side)) }
        ensures stands { IfOk result (λ x.
            Stands D.tells x.0 (D.size disk.new side) (D.stands disk.new)) }
        ensures side { IfOk result (λ x. x.0.side ≡ side) }
        ensures rests { IfOk result (λ x. x.0.waiting ≡ None) }
        // Of any disk: the last entry's number tells how many frames there are.
        ensures counted { IfOk result (λ x. x.1.number ≡ length x.0.places) }
        ensures empty { IfOk result (λ x. x.0.head ≡ None → x.0.places ≡ []) }
        ensures durable { D.tells → OnOk result ((D.stands disk.new).loose side
            ≡ settled ((D.stands disk.old).seen side)) }

        // It writes nothing: a read gives the same, and a crash leaves what it could leave before.
        ensures same { D.tells → (D.stands disk.new).seen side ≡ (D.stands disk.old).seen side }
        ensures same_size { (s : Side) → D.size disk.new s ≡ D.size disk.old s }
        ensures other { D.tells →
            Untouched (other_side side) (D.stands disk.old) (D.stands disk.new) }

        ensures any_moment { D.tells → (D.stands disk.old).last ≤ watch.old →
            EachMoment watch.old watch.new side (D.stands disk.old) (D.stands disk.new)
            (IsImage ((D.stands disk.old).loose side)) }
        ensures ticks { watch.old ≤ watch.new }
        ensures calm { IsCalm (D.faults disk.old) (D.faults disk.new) result }
        ensures cause { IsCaused (D.faults disk.old) (D.faults disk.new) result }
    {
        settle(disk, watch, side)?;
        read_log(alloc, disk, side)
    }

    /// The value of a blank side.
    pub(crate) fn blank(alloc: Global, side: Side) -> SideLog
        ensures { result ≡ record {
          side = side;
          head = None;
          places = [];
          end = 0;
          waiting = None;
        } }
    {
        SideLog {
            side,
            head: None,
            places: Vec::new(alloc),
            end: 0,
            waiting: None,
            frame: Vec::new(alloc),
        }
    }
}

/// Reads a side, all of which is on the medium.
fn read_log<D: Disk>(alloc: Global, disk: &mut D, side: Side) -> Result<(SideLog, Rank), SideFault>
    ensures exact { D.tells → OpensRanked result (log_of ((D.stands disk.old).seen side)) }
    ensures has { D.tells → IfOk result (λ x. HasBytes 0xa5 x.0
        ((D.stands disk.old).seen side) (settled ((D.stands disk.old).seen side))) }
    ensures room { IfOk result (λ x. HasRoom x.0 (D.size disk.old side)) }
    ensures side { IfOk result (λ x. x.0.side ≡ side) }
    ensures rests { IfOk result (λ x. x.0.waiting ≡ None) }
    ensures counted { IfOk result (λ x. x.1.number ≡ length x.0.places) }
    ensures empty { IfOk result (λ x. x.0.head ≡ None → x.0.places ≡ []) }

    ensures same_size { (s : Side) → D.size disk.new s ≡ D.size disk.old s }
    ensures same { D.tells → D.stands disk.new ≡ D.stands disk.old }
    ensures calm { IsCalm (D.faults disk.old) (D.faults disk.new) result }
    ensures cause { IsCaused (D.faults disk.old) (D.faults disk.new) result }
{
    let size = disk.len(side)?;
    let mut held = Vec::new(alloc);
    let head = match read_head(disk, side, size, &mut held) {
        Ok(Some(head)) => head,
        Ok(None) => return Ok((SideLog::blank(alloc, side), Rank { view: 0, number: 0 })),
        Err(fault) => return Err(fault),
    };
    let (places, end, rank) = match read_frames(alloc, disk, side, size, &mut held) {
        Ok(scan) => scan,
        Err(fault) => return Err(fault),
    };
    let log = SideLog {
        side,
        head: Some(head),
        places,
        end,
        waiting: None,
        frame: Vec::new(alloc),
    };
    Ok((log, rank))
}

/// Reads the frames of a side that is not blank, to the closed gate behind them: their places, the
/// place of that gate, and the rank of their entries. What is held is used as a buffer.
fn read_frames<D: Disk>(
    alloc: Global,
    disk: &mut D,
    side: Side,
    size: u64,
    held: &mut Vec<u8>,
) -> Result<(Vec<u64>, u64, Rank), SideFault>
    requires size { size ≡ D.size disk.old side }
    requires head { D.tells → (x : Header × ℕ)
        × IsHeadOf (Ok (Some x)) ((D.stands disk.old).seen side) }

    ensures exact { D.tells → IsScan
        (λ x. record { places = x.0.items; end = x.1; rank = x.2 }) result
        ((D.stands disk.old).seen side) }
    ensures inside { IfOk result (λ x. x.1 < size) }
    ensures counted { IfOk result (λ x. x.2.number ≡ length x.0.items) }

    ensures same_size { (s : Side) → D.size disk.new s ≡ D.size disk.old s }
    ensures same { D.tells → D.stands disk.new ≡ D.stands disk.old }
    ensures calm { IsCalm (D.faults disk.old) (D.faults disk.new) result }
    ensures cause { IsCaused (D.faults disk.old) (D.faults disk.new) result }
{
    let mut places = Vec::new(alloc);
    let mut last = Rank { view: 0, number: 0 };
    let mut at = 17;
    'frames: loop {
        let opens = match open_at(disk, side, size, at, held) {
            Ok(opens) => opens,
            Err(fault) => return Err(fault),
        };
        if !opens {
            return Ok((places, at, last));
        }
        let rank = match read_frame(alloc, disk, side, size, at, last, held) {
            Ok(rank) => rank,
            Err(fault) => return Err(fault),
        };
        places.push(at)?;
        at += 5 + held.len() as u64;
        last = rank;
    }
}
