//! An asker over a cluster and its disks.
ghost use Rattle.std.specs.List.{AllByRecursion};
ghost use Rattle.std.specs.Prelude.{◌≡◌, ◌*◌, ◌<◌, ℕ, [], Err, IfErr, IfOk, IfSome, None, OnOk, Option, Some, length, map, vec_capacity, vec_len};
ghost use Rattle.hs_asking.specs.Asked.{IsOfNoLine};
ghost use Rattle.hs_asker.specs.Lines.{IsOfAsker};
ghost use Rattle.hs_asker.specs.Silent.{IsOpenFault, asking_script, silent, silent_run, status_by};
ghost use Rattle.hs_asker.specs.Shows.{IsTold, shows_of};
ghost use Rattle.hs_cluster.specs.Disks.{seen_as};
ghost use Rattle.hs_desk.specs.declared.fault.CoreFault.TheVariants.{NoMemory};
ghost use Rattle.hs_limits.specs.Shape.{IsShape};
ghost use Rattle.hs_model.specs.declared.command.Command.{Command};
ghost use Rattle.hs_run.specs.Machine.{IsOfCluster};
ghost use Rattle.hs_run.specs.Stopping.{of_cluster, status_of};

use crate::answer::are_of_no_line;
use crate::ends::{AskerTold, Closed, refused_by};
use crate::handed::Handed;
use crate::line::core_fault;
use crate::work::{Work, has_room};
use hs_asking::Asker;
use hs_block::Addresser;
use hs_cluster::{Cluster, Opened};
use hs_desk::CoreFault;
use hs_limits::{Held, Limits, Name, Shape};
use hs_model::{Command, Op, Reply};
use hs_ports::{Disk, Watch};
use std::alloc::Global;
use std::marker::{Model, PhantomData};
use std::snapshot::Snapshot;

/// What asks a cluster for a client: each operation is a line, with turns behind it until it is answered and
/// one more of each peer, or a settle behind a root. It has the disks and the watch until its end. Its type
/// keeps what it was handed, and how it came to be as it is.
#[derive(Drop)]
pub struct ClusterAsker<'a, H: Handed, A: Addresser, D: Disk> {
    naming: &'a A,
    work: Work<D>,
    of: PhantomData<H>,
}

impl<'a, H: Handed, A: Addresser, D: Disk> Model for ClusterAsker<'a, H, A, D> {
    ghost use Rattle.std.specs.Prelude.{◌≡◌, ◌<◌, None, map, vec_capacity, vec_len};
    ghost use Rattle.hs_asker.specs.Going.{IsAsker};
    ghost use Rattle.hs_asker.specs.Shows.{Asking};
    ghost use Rattle.hs_cluster.specs.Disks.{seen_as};

    ghost Value = { Asking };

    ghost view = { λ a. record {
      said = map (λ said. said.value) a.work.said.items;
      journal = a.work.cluster.core.journal;
      ended = a.work.ended;
    } };

    ghost invariant = { λ a. (a.work.ended ≡ None → vec_len a.work.said < vec_capacity a.work.said)
        × IsAsker D.tells (A.name a.naming.now) H.entry (record {
          said = map (λ said. said.value) a.work.said.items;
          now = a.work.watch;
          cluster = a.work.cluster;
          disks = map (λ disk. seen_as (D.size disk) (D.stands disk) (D.faults disk)) a.work.disks.items;
          line = a.work.line;
          ended = a.work.ended;
        }) };
}

impl<'a, H: Handed, A: Addresser, D: Disk> ClusterAsker<'a, H, A, D> {
    /// Opens a cluster of some disks, one for each peer, and what asks it. Where no core was opened the
    /// disks and the watch come back: that is a run of a script without a line that opened no store.
    /// Where its core has ended as it opened, or memory was wanting, the asker has ended.
    pub fn open(
        alloc: Global,
        naming: &'a A,
        shape: Shape,
        limits: Limits,
        disks: Vec<D>,
        watch: Watch,
    ) -> Result<ClusterAsker<'a, H, A, D>, Closed<D>>
        requires shape { IsShape shape }
        requires count { length disks.items ≡ shape.shards * shape.copies }
        requires handed { H.entry ≡ record {
          set = record { name = A.name naming.now; limits = limits; shape = shape };
          moment = watch;
          disks = map (λ disk. seen_as (D.size disk) (D.stands disk) (D.faults disk)) disks.items;
        } }
        ensures said { IfOk result (λ asker. asker.said ≡ []) }
        ensures closed { IfErr result (λ closed. (commands : ℕ → Option Command) ×
            IsOfCluster D.tells (record { set = H.entry.set; commands = commands })
            (silent_run (status_of (Err (of_cluster closed.fault)) 0) 0 [] [] []
            (silent H.entry.moment H.entry.disks)
            (silent closed.watch
            (map (λ disk. seen_as (D.size disk) (D.stands disk) (D.faults disk)) closed.disks.items)))) }
        ensures only { IfErr result (λ closed. IsOpenFault closed.fault) }
        ensures count { IfErr result (λ closed. length closed.disks.items ≡ length disks.items) }
    {
        let mut disks = disks;
        let mut watch = watch;
        let opened = Cluster::open(
            alloc,
            shape,
            limits,
            naming,
            disks.as_mut_slice(),
            &mut watch,
        );
        let Opened { cluster, done } = match opened {
            Ok(opened) => opened,
            Err(fault) => {
                return Err(Closed {
                    fault,
                    disks,
                    watch,
                });
            }
        };
        let mut said = Vec::new(alloc);
        let ended = match done {
            Err(fault) => Some(core_fault(fault)),
            Ok(()) => first_fault(&cluster, &mut said),
        };
        let work = Work {
            alloc,
            cluster,
            disks,
            watch,
            line: 0,
            said,
            ended,
        };
        Ok(ClusterAsker {
            naming,
            work,
            of: PhantomData,
        })
    }

    /// Why it has ended. None exactly until a fault has ended it. It takes no memory.
    pub fn ended(&self) -> Option<CoreFault>
        ensures { result ≡ self.now.ended }
    {
        self.work.ended
    }

    /// What was answered, and all that was handed in. The run of what was asked for is the machine's: as
    /// one of a script of these lines, without a source and a sink, that ended as the asker has, and as
    /// Done where that goes on. It takes no memory.
    pub fn into_told(self) -> AskerTold<D>
        ensures ended { result.ended ≡ self.entry.ended }
        ensures journal { result.journal.entries ≡ self.entry.journal }
        ensures ran { IsOfCluster D.tells (asking_script H.entry.set self.entry.said)
            (silent_run (status_by result.ended) result.line result.journal.entries result.refused
            result.course (silent H.entry.moment H.entry.disks)
            (silent result.watch
            (map (λ disk. seen_as (D.size disk) (D.stands disk) (D.faults disk)) result.disks.items))) }
        // Where it goes on, all of them were begun. Each is that of an operation, a turn, or a settle.
        ensures lines { self.entry.ended ≡ None → result.line ≡ length self.entry.said }
        ensures askers { AllByRecursion IsOfAsker self.entry.said }
        ensures count { length result.disks.items ≡ length H.entry.disks }
    {
        let ClusterAsker {
            naming: _,
            work,
            of: _,
        } = self;
        let Work {
            alloc,
            cluster,
            disks,
            watch,
            line,
            said: _,
            ended,
        } = work;
        let (core, course) = cluster.into_told();
        let (journal, refused) = core.into_told();
        let refused = refused_by(alloc, ended, refused);
        AskerTold {
            ended,
            journal,
            refused,
            course,
            line,
            disks,
            watch,
        }
    }
}

/// Room for the first operation, where opening told nothing of a line; else that counts as want of memory.
fn first_fault(cluster: &Cluster, said: &mut Vec<Snapshot<Command>>) -> Option<CoreFault>
    requires { said.old.items ≡ [] }
    ensures items { said.new.items ≡ [] }
    ensures room { result ≡ None → vec_len said.new < vec_capacity said.new }
    ensures lines { result ≡ None → AllByRecursion IsOfNoLine cluster.now.core.journal }
    ensures only { IfSome result (λ fault. fault ≡ NoMemory) }
{
    if !has_room(said) || !are_of_no_line(cluster.journal().entries()) {
        return Some(CoreFault::NoMemory);
    }
    None
}

impl<'a, H: Handed, A: Addresser, D: Disk> Asker for ClusterAsker<'a, H, A, D> {
    ghost tells = { IsTold D.tells H.entry };

    ghost shows = { λ a. shows_of D.tells H.entry a };

    fn ask(&mut self, op: Op) -> Result<Reply, CoreFault> {
        self.work.ask(self.naming, op)
    }

    fn held(&self, session: &Name, handle: u32) -> Option<Held> {
        self.work.cluster.held(session, handle)
    }

    fn known(&self) {
        // A field is named, so that what its type keeps is known in the proof.
        let _line = self.work.line;
    }
}
