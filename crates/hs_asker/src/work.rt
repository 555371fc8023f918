//! A cluster with its disks, and what was asked of it.
ghost use Rattle.std.specs.Prelude.{◌≡◌, ◌<◌, ◌++◌, ◌∷◌, [], IfErr, IsTrue, None, OnOk, Some, length, map, vec_capacity, vec_len};
ghost use Rattle.hs_asker.specs.Asked.{Asks};
ghost use Rattle.hs_asker.specs.Going.{point_of};
ghost use Rattle.hs_cluster.specs.Disks.{seen_as};
ghost use Rattle.hs_run.specs.Between.{IsReadyAt};

use crate::answer::answer_behind;
use crate::kinds::kind_of;
use crate::line::{core_fault, run_line};
use hs_block::Addresser;
use hs_cluster::Cluster;
use hs_desk::CoreFault;
use hs_model::{Command, Op, Reply};
use hs_ports::{Disk, Watch};
use std::alloc::Global;
use std::snapshot::Snapshot;

/// A cluster, its disks and the watch; how many lines were begun; these lines, of which no bytes are kept;
/// and why it has ended, if it has.
#[derive(Drop)]
pub(crate) struct Work<D> {
    pub(crate) alloc: Global,
    pub(crate) cluster: Cluster,
    pub(crate) disks: Vec<D>,
    pub(crate) watch: Watch,
    pub(crate) line: u64,
    pub(crate) said: Vec<Snapshot<Command>>,
    pub(crate) ended: Option<CoreFault>,
}

impl<D: Disk> Work<D> {
    /// Does the line of an operation and what is to be done behind it, and hands back what was answered.
    fn ask_line<A: Addresser>(&mut self, naming: &A, op: Op) -> Result<Reply, CoreFault>
        requires room { vec_len self.old.said < vec_capacity self.old.said }
        requires ready { IsReadyAt D.tells (point_of self.old.watch self.old.cluster
            (map (λ disk. seen_as (D.size disk) (D.stands disk) (D.faults disk)) self.old.disks.items)
            self.old.line) }
        ensures asks { Asks D.tells (A.name naming.now) op
            (point_of self.old.watch self.old.cluster
            (map (λ disk. seen_as (D.size disk) (D.stands disk) (D.faults disk)) self.old.disks.items)
            self.old.line)
            (point_of self.new.watch self.new.cluster
            (map (λ disk. seen_as (D.size disk) (D.stands disk) (D.faults disk)) self.new.disks.items)
            self.new.line)
            (map (λ said. said.value) self.old.said.items)
            (map (λ said. said.value) self.new.said.items) result }
        ensures ready { OnOk result (IsReadyAt D.tells (point_of self.new.watch self.new.cluster
            (map (λ disk. seen_as (D.size disk) (D.stands disk) (D.faults disk)) self.new.disks.items)
            self.new.line)) }
        ensures count { length self.new.disks.items ≡ length self.old.disks.items }
        ensures ended { self.new.ended ≡ self.old.ended }
    {
        let kind = kind_of(&op);
        let command = Command::Client(op);
        note_line(&mut self.said, &command);
        if self.line == u64::MAX {
            return Err(CoreFault::NoMemory);
        }
        let first = self.line + 1;
        let answered = self.cluster.journal().entries().len();
        match run_line(
            &mut self.cluster,
            &mut self.line,
            naming,
            &mut self.disks,
            &mut self.watch,
            command,
        ) {
            Ok(()) => {}
            Err(fault) => return Err(core_fault(fault)),
        }
        match self.drive(naming, kind, answered, first) {
            Ok(()) => {}
            Err(fault) => return Err(core_fault(fault)),
        }
        let entries = self.cluster.journal().entries();
        answer_behind(self.alloc, entries, answered, first, kind)
    }

    /// Asks for an operation. A fault ends it.
    pub(crate) fn ask<A: Addresser>(&mut self, naming: &A, op: Op) -> Result<Reply, CoreFault>
        requires going { self.old.ended ≡ None }
        requires room { vec_len self.old.said < vec_capacity self.old.said }
        requires ready { IsReadyAt D.tells (point_of self.old.watch self.old.cluster
            (map (λ disk. seen_as (D.size disk) (D.stands disk) (D.faults disk)) self.old.disks.items)
            self.old.line) }
        ensures asks { Asks D.tells (A.name naming.now) op
            (point_of self.old.watch self.old.cluster
            (map (λ disk. seen_as (D.size disk) (D.stands disk) (D.faults disk)) self.old.disks.items)
            self.old.line)
            (point_of self.new.watch self.new.cluster
            (map (λ disk. seen_as (D.size disk) (D.stands disk) (D.faults disk)) self.new.disks.items)
            self.new.line)
            (map (λ said. said.value) self.old.said.items)
            (map (λ said. said.value) self.new.said.items) result }
        ensures ready { OnOk result (IsReadyAt D.tells (point_of self.new.watch self.new.cluster
            (map (λ disk. seen_as (D.size disk) (D.stands disk) (D.faults disk)) self.new.disks.items)
            self.new.line)) }
        ensures count { length self.new.disks.items ≡ length self.old.disks.items }
        ensures room { OnOk result (vec_len self.new.said < vec_capacity self.new.said) }
        ensures going { OnOk result (self.new.ended ≡ None) }
        ensures ended { IfErr result (λ fault. self.new.ended ≡ Some fault) }
    {
        match self.ask_line(naming, op) {
            Ok(told) => {
                if !has_room(&mut self.said) {
                    self.ended = Some(CoreFault::NoMemory);
                    return Err(CoreFault::NoMemory);
                }
                Ok(told)
            }
            Err(fault) => {
                self.ended = Some(fault);
                Err(fault)
            }
        }
    }
}

/// Makes room for one line more, and answers whether there is.
pub(crate) fn has_room(said: &mut Vec<Snapshot<Command>>) -> bool
    ensures items { said.new.items ≡ said.old.items }
    ensures room { IsTrue result → vec_len said.new < vec_capacity said.new }
{
    said.reserve(1).is_ok()
}

/// Notes the command of a line.
pub(crate) fn note_line(said: &mut Vec<Snapshot<Command>>, command: &Command)
    requires { vec_len said.old < vec_capacity said.old }
    ensures { map (λ said. said.value) said.new.items
        ≡ map (λ said. said.value) said.old.items ++ command.now ∷ [] }
{
    said.push(Snapshot::of(command)).unwrap();
}
