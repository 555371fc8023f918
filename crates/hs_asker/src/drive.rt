//! What is to be done behind an operation's line: turns until it is answered, and one more of each peer, or
//! a settle; and settles until it is answered.
ghost use Rattle.std.specs.Prelude.{◌≡◌, ◌≤◌, drop, length, map, OnOk};
ghost use Rattle.hs_asker.specs.Answer.{IsAnswered};
ghost use Rattle.hs_asker.specs.Driven.{DrivesOn};
ghost use Rattle.hs_asker.specs.Going.{point_of};
ghost use Rattle.hs_asker.specs.Lines.{IsDriving};
ghost use Rattle.hs_cluster.specs.Disks.{seen_as};
ghost use Rattle.hs_run.specs.Between.{IsReadyAt};

use crate::answer::{has_answer, is_answered};
use crate::kinds::Kind;
use crate::line::run_line;
use crate::work::{Work, has_room, note_line};
use hs_block::Addresser;
use hs_cluster::ClusterFault;
use hs_model::Command;
use hs_ports::Disk;

impl<D: Disk> Work<D> {
    /// Begins the next line, one that has peers do what is due, and does it. That there is no number or no
    /// room for it counts as want of memory.
    fn drive_line<A: Addresser>(&mut self, naming: &A, command: Command) -> Result<(), ClusterFault>
        requires driving { IsDriving command }
        requires ready { IsReadyAt D.tells (point_of self.old.watch self.old.cluster
            (map (λ disk. seen_as (D.size disk) (D.stands disk) (D.faults disk)) self.old.disks.items)
            self.old.line) }
        ensures drives { DrivesOn D.tells (A.name naming.now)
            (point_of self.old.watch self.old.cluster
            (map (λ disk. seen_as (D.size disk) (D.stands disk) (D.faults disk)) self.old.disks.items)
            self.old.line)
            (point_of self.new.watch self.new.cluster
            (map (λ disk. seen_as (D.size disk) (D.stands disk) (D.faults disk)) self.new.disks.items)
            self.new.line)
            (map (λ said. said.value) self.old.said.items)
            (map (λ said. said.value) self.new.said.items) result }
        ensures ready { OnOk result (IsReadyAt D.tells (point_of self.new.watch self.new.cluster
            (map (λ disk. seen_as (D.size disk) (D.stands disk) (D.faults disk)) self.new.disks.items)
            self.new.line)) }
        ensures count { length self.new.disks.items ≡ length self.old.disks.items }
        ensures ended { self.new.ended ≡ self.old.ended }
    {
        if self.line == u64::MAX {
            return Err(ClusterFault::NoMemory);
        }
        if !has_room(&mut self.said) {
            return Err(ClusterFault::NoMemory);
        }
        note_line(&mut self.said, &command);
        run_line(
            &mut self.cluster,
            &mut self.line,
            naming,
            &mut self.disks,
            &mut self.watch,
            command,
        )
    }

    /// Does turns until a line has its answer; where nobody has a turn before, it settles.
    fn drive_until<A: Addresser>(
        &mut self,
        naming: &A,
        from: usize,
        line: u64,
    ) -> Result<(), ClusterFault>
        requires ready { IsReadyAt D.tells (point_of self.old.watch self.old.cluster
            (map (λ disk. seen_as (D.size disk) (D.stands disk) (D.faults disk)) self.old.disks.items)
            self.old.line) }
        ensures drives { DrivesOn D.tells (A.name naming.now)
            (point_of self.old.watch self.old.cluster
            (map (λ disk. seen_as (D.size disk) (D.stands disk) (D.faults disk)) self.old.disks.items)
            self.old.line)
            (point_of self.new.watch self.new.cluster
            (map (λ disk. seen_as (D.size disk) (D.stands disk) (D.faults disk)) self.new.disks.items)
            self.new.line)
            (map (λ said. said.value) self.old.said.items)
            (map (λ said. said.value) self.new.said.items) result }
        ensures ready { OnOk result (IsReadyAt D.tells (point_of self.new.watch self.new.cluster
            (map (λ disk. seen_as (D.size disk) (D.stands disk) (D.faults disk)) self.new.disks.items)
            self.new.line)) }
        ensures count { length self.new.disks.items ≡ length self.old.disks.items }
        ensures ended { self.new.ended ≡ self.old.ended }
    {
        let mut peer = 0;
        for _step in 0..u64::MAX {
            if has_answer(self.cluster.journal().entries(), from, line) {
                return Ok(());
            }
            let Some(next) = self.cluster.next_turn(peer) else {
                return self.drive_line(naming, Command::Settle);
            };
            self.drive_line(naming, Command::Turn { peer: next })?;
            peer = next;
        }
        Err(ClusterFault::NoMemory)
    }

    /// Has each peer that has a turn do one.
    fn drive_each<A: Addresser>(&mut self, naming: &A) -> Result<(), ClusterFault>
        requires ready { IsReadyAt D.tells (point_of self.old.watch self.old.cluster
            (map (λ disk. seen_as (D.size disk) (D.stands disk) (D.faults disk)) self.old.disks.items)
            self.old.line) }
        ensures drives { DrivesOn D.tells (A.name naming.now)
            (point_of self.old.watch self.old.cluster
            (map (λ disk. seen_as (D.size disk) (D.stands disk) (D.faults disk)) self.old.disks.items)
            self.old.line)
            (point_of self.new.watch self.new.cluster
            (map (λ disk. seen_as (D.size disk) (D.stands disk) (D.faults disk)) self.new.disks.items)
            self.new.line)
            (map (λ said. said.value) self.old.said.items)
            (map (λ said. said.value) self.new.said.items) result }
        ensures ready { OnOk result (IsReadyAt D.tells (point_of self.new.watch self.new.cluster
            (map (λ disk. seen_as (D.size disk) (D.stands disk) (D.faults disk)) self.new.disks.items)
            self.new.line)) }
        ensures count { length self.new.disks.items ≡ length self.old.disks.items }
        ensures ended { self.new.ended ≡ self.old.ended }
    {
        let mut peer = 0;
        for _step in 0..u8::MAX {
            let Some(next) = self.cluster.next_turn(peer) else {
                return Ok(());
            };
            if next < peer {
                return Ok(());
            }
            self.drive_line(naming, Command::Turn { peer: next })?;
            peer = next.saturating_add(1);
        }
        Ok(())
    }

    /// Does turns until a line is answered, and one more of each peer, so that a deletion which was begun
    /// goes on beside what is asked for; and behind a root, which is the last that a client asks for, a
    /// settle.
    fn drive_once<A: Addresser>(
        &mut self,
        naming: &A,
        kind: Kind,
        from: usize,
        line: u64,
    ) -> Result<(), ClusterFault>
        requires ready { IsReadyAt D.tells (point_of self.old.watch self.old.cluster
            (map (λ disk. seen_as (D.size disk) (D.stands disk) (D.faults disk)) self.old.disks.items)
            self.old.line) }
        ensures drives { DrivesOn D.tells (A.name naming.now)
            (point_of self.old.watch self.old.cluster
            (map (λ disk. seen_as (D.size disk) (D.stands disk) (D.faults disk)) self.old.disks.items)
            self.old.line)
            (point_of self.new.watch self.new.cluster
            (map (λ disk. seen_as (D.size disk) (D.stands disk) (D.faults disk)) self.new.disks.items)
            self.new.line)
            (map (λ said. said.value) self.old.said.items)
            (map (λ said. said.value) self.new.said.items) result }
        ensures ready { OnOk result (IsReadyAt D.tells (point_of self.new.watch self.new.cluster
            (map (λ disk. seen_as (D.size disk) (D.stands disk) (D.faults disk)) self.new.disks.items)
            self.new.line)) }
        ensures count { length self.new.disks.items ≡ length self.old.disks.items }
        ensures ended { self.new.ended ≡ self.old.ended }
    {
        if kind == Kind::Root {
            return self.drive_line(naming, Command::Settle);
        }
        self.drive_until(naming, from, line)?;
        self.drive_each(naming)
    }

    /// Settles until a line has an answer that an operation of a kind may be told. So an answer that is not
    /// there yet is waited for. That there is no number or no room for one more line counts as want of
    /// memory.
    fn settle_until<A: Addresser>(
        &mut self,
        naming: &A,
        from: usize,
        line: u64,
        kind: Kind,
    ) -> Result<(), ClusterFault>
        requires ready { IsReadyAt D.tells (point_of self.old.watch self.old.cluster
            (map (λ disk. seen_as (D.size disk) (D.stands disk) (D.faults disk)) self.old.disks.items)
            self.old.line) }
        requires some { from ≤ length self.old.cluster.core.journal }
        ensures drives { DrivesOn D.tells (A.name naming.now)
            (point_of self.old.watch self.old.cluster
            (map (λ disk. seen_as (D.size disk) (D.stands disk) (D.faults disk)) self.old.disks.items)
            self.old.line)
            (point_of self.new.watch self.new.cluster
            (map (λ disk. seen_as (D.size disk) (D.stands disk) (D.faults disk)) self.new.disks.items)
            self.new.line)
            (map (λ said. said.value) self.old.said.items)
            (map (λ said. said.value) self.new.said.items) result }
        ensures ready { OnOk result (IsReadyAt D.tells (point_of self.new.watch self.new.cluster
            (map (λ disk. seen_as (D.size disk) (D.stands disk) (D.faults disk)) self.new.disks.items)
            self.new.line)) }
        ensures answered { OnOk result
            (IsAnswered (drop from self.new.cluster.core.journal) line kind) }
        ensures count { length self.new.disks.items ≡ length self.old.disks.items }
        ensures ended { self.new.ended ≡ self.old.ended }
    {
        for _step in 0..u64::MAX {
            if is_answered(self.cluster.journal().entries(), from, line, kind) {
                return Ok(());
            }
            self.drive_line(naming, Command::Settle)?;
        }
        Err(ClusterFault::NoMemory)
    }

    /// Does what is to be done behind a line, until it is answered.
    pub(crate) fn drive<A: Addresser>(
        &mut self,
        naming: &A,
        kind: Kind,
        from: usize,
        line: u64,
    ) -> Result<(), ClusterFault>
        requires ready { IsReadyAt D.tells (point_of self.old.watch self.old.cluster
            (map (λ disk. seen_as (D.size disk) (D.stands disk) (D.faults disk)) self.old.disks.items)
            self.old.line) }
        requires some { from ≤ length self.old.cluster.core.journal }
        ensures drives { DrivesOn D.tells (A.name naming.now)
            (point_of self.old.watch self.old.cluster
            (map (λ disk. seen_as (D.size disk) (D.stands disk) (D.faults disk)) self.old.disks.items)
            self.old.line)
            (point_of self.new.watch self.new.cluster
            (map (λ disk. seen_as (D.size disk) (D.stands disk) (D.faults disk)) self.new.disks.items)
            self.new.line)
            (map (λ said. said.value) self.old.said.items)
            (map (λ said. said.value) self.new.said.items) result }
        ensures ready { OnOk result (IsReadyAt D.tells (point_of self.new.watch self.new.cluster
            (map (λ disk. seen_as (D.size disk) (D.stands disk) (D.faults disk)) self.new.disks.items)
            self.new.line)) }
        ensures answered { OnOk result
            (IsAnswered (drop from self.new.cluster.core.journal) line kind) }
        ensures count { length self.new.disks.items ≡ length self.old.disks.items }
        ensures ended { self.new.ended ≡ self.old.ended }
    {
        self.drive_once(naming, kind, from, line)?;
        self.settle_until(naming, from, line, kind)
    }
}
