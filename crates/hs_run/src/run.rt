//! A run of a script over its cluster, and what one line does to it.
ghost use Rattle.std.specs.Prelude.{◌≡◌, ◌+◌, ◌<◌, ◌^◌, ◌≤◌, drop, length, map, true, Err, IfErr, OnErr, OnOk};
ghost use Rattle.hs_cluster.specs.Disks.{seen_as};
ghost use Rattle.hs_events.specs.Commands.{is_served};
ghost use Rattle.hs_run.specs.Between.{IsCached, IsReadyAt};
ghost use Rattle.hs_run.specs.Faults.{SinkCause};
ghost use Rattle.hs_run.specs.OneLine.{DoesLine, IsOpeningPut, RunsCommand};
ghost use Rattle.hs_run.specs.Puts.{Puts};
ghost use Rattle.hs_run.specs.Stopping.{IsPutStop};
ghost use Rattle.hs_script.specs.Reading.{reading};
ghost use Rattle.hs_script.specs.Text.{text};

use crate::kinds::is_served;
use crate::put::{put_all, write_lines};
use crate::stop::{Stop, end_of};
use hs_block::Addresser;
use hs_cluster::{Cluster, ClusterFault};
use hs_model::Command;
use hs_ports::{Disk, Sink, Watch};
use hs_script::{ScriptFault, read_line};
use std::alloc::Global;

/// Puts the lines of what was answered behind the entries that were put before, and counts them.
fn print<K: Sink>(
    cluster: &Cluster,
    printed: &mut usize,
    bytes: &mut Vec<u8>,
    sink: &mut K,
    watch: &mut Watch,
) -> Result<(), Stop>
    requires { printed.old ≤ length cluster.now.core.journal }
    ensures puts { Puts watch.old watch.new (text (drop printed.old cluster.now.core.journal))
        (K.got sink.old) (K.got sink.new) result }
    ensures only { IfErr result IsPutStop }
    ensures some { result ≡ Err Stop.WriteFault
        → 0 < length (text (drop printed.old cluster.now.core.journal)) }
    ensures printed { OnOk result (printed.new ≡ length cluster.now.core.journal) }
    ensures cause { SinkCause (K.faults sink.old) (K.faults sink.new) result }
{
    let entries = cluster.journal().entries();
    bytes.clear();
    match write_lines(&entries[*printed..], bytes) {
        Ok(()) => {}
        Err(stop) => return Err(stop),
    }
    *printed = entries.len();
    put_all(sink, watch, bytes.as_slice())
}

/// A run: its cluster, how many entries of the journal were put, the number of the last line that was
/// begun, and what is put.
#[derive(Drop)]
pub(crate) struct Run {
    pub(crate) alloc: Global,
    pub(crate) cluster: Cluster,
    pub(crate) printed: usize,
    pub(crate) line: u64,
    pub(crate) bytes: Vec<u8>,
}

impl Run {
    /// A run before its first line. It takes no memory.
    pub(crate) fn new(alloc: Global, cluster: Cluster) -> Run
        ensures cluster { result.cluster ≡ cluster }
        ensures printed { result.printed ≡ 0 }
        ensures line { result.line ≡ 0 }
    {
        Run {
            alloc,
            cluster,
            printed: 0,
            line: 0,
            bytes: Vec::new(alloc),
        }
    }

    /// Has at most so many blocks cached that are read from now on; 0 asks for no cache.
    pub(crate) fn use_cache(&mut self, limit: u32) -> Result<(), Stop>
        ensures cached { OnOk result (IsCached self.old.cluster self.new.cluster) }
        ensures same { OnErr result (self.new.cluster ≡ self.old.cluster) }
        ensures printed { self.new.printed ≡ self.old.printed }
        ensures line { self.new.line ≡ self.old.line }
        ensures only { IfErr result (λ stop. stop ≡ Stop.NoMemory) }
    {
        if limit == 0 {
            return Ok(());
        }
        match self.cluster.use_cache(limit) {
            Ok(()) => Ok(()),
            Err(_) => Err(Stop::NoMemory),
        }
    }

    /// Puts what opening has answered. It stops where opening did not come to its end.
    pub(crate) fn print_opening<K: Sink>(
        &mut self,
        did: Result<(), ClusterFault>,
        sink: &mut K,
        watch: &mut Watch,
    ) -> Result<(), Stop>
        requires { self.old.printed ≡ 0 }
        ensures puts { IsOpeningPut did self.old.cluster (record {
          before = watch.old;
          now = watch.new;
          old = K.got sink.old;
          new = K.got sink.new;
        }) result }
        ensures printed { OnOk result
            (self.new.printed ≡ length self.new.cluster.core.journal) }
        ensures cluster { self.new.cluster ≡ self.old.cluster }
        ensures line { self.new.line ≡ self.old.line }
        ensures cause { SinkCause (K.faults sink.old) (K.faults sink.new) result }
    {
        let put = print(
            &self.cluster,
            &mut self.printed,
            &mut self.bytes,
            sink,
            watch,
        );
        end_of(did, put)
    }

    /// Begins the next line, which says a command, does it, and puts what was answered.
    fn run_command<A: Addresser, K: Sink, D: Disk>(
        &mut self,
        naming: &A,
        disks: &mut [D],
        sink: &mut K,
        watch: &mut Watch,
        command: Command,
    ) -> Result<(), Stop>
        requires served { is_served command ≡ true }
        requires room { self.old.line < 2 ^ 63 }
        requires printed { self.old.printed ≡ length self.old.cluster.core.journal }
        requires ready { IsReadyAt D.tells (record {
          now = watch.old;
          cluster = self.old.cluster;
          disks = map (λ disk. seen_as (D.size disk) (D.stands disk) (D.faults disk)) disks.old;
          got = K.got sink.old;
          line = self.old.line;
        }) }
        ensures runs { RunsCommand D.tells (A.name naming.now) command (record {
          old = record {
            now = watch.old;
            cluster = self.old.cluster;
            disks = map (λ disk. seen_as (D.size disk) (D.stands disk) (D.faults disk)) disks.old;
            got = K.got sink.old;
            line = self.old.line;
          };
          new = record {
            now = watch.new;
            cluster = self.new.cluster;
            disks = map (λ disk. seen_as (D.size disk) (D.stands disk) (D.faults disk)) disks.new;
            got = K.got sink.new;
            line = self.new.line;
          };
          result = result;
        }) }
        ensures ready { OnOk result (IsReadyAt D.tells (record {
          now = watch.new;
          cluster = self.new.cluster;
          disks = map (λ disk. seen_as (D.size disk) (D.stands disk) (D.faults disk)) disks.new;
          got = K.got sink.new;
          line = self.new.line;
        })) }
        ensures printed { OnOk result
            (self.new.printed ≡ length self.new.cluster.core.journal) }
        ensures count { length disks.new ≡ length disks.old }
        ensures cause { SinkCause (K.faults sink.old) (K.faults sink.new) result }
    {
        self.line += 1;
        let did = self.cluster.run(naming, disks, watch, self.line, command);
        let put = print(
            &self.cluster,
            &mut self.printed,
            &mut self.bytes,
            sink,
            watch,
        );
        end_of(did, put)
    }

    /// Begins the next line of the script. A bad line is not begun.
    pub(crate) fn begin<A: Addresser, K: Sink, D: Disk>(
        &mut self,
        bytes: &[u8],
        naming: &A,
        disks: &mut [D],
        sink: &mut K,
        watch: &mut Watch,
    ) -> Result<(), Stop>
        requires room { self.old.line < 2 ^ 63 }
        requires printed { self.old.printed ≡ length self.old.cluster.core.journal }
        requires ready { IsReadyAt D.tells (record {
          now = watch.old;
          cluster = self.old.cluster;
          disks = map (λ disk. seen_as (D.size disk) (D.stands disk) (D.faults disk)) disks.old;
          got = K.got sink.old;
          line = self.old.line;
        }) }
        ensures does { DoesLine D.tells (A.name naming.now) (reading bytes.now) (record {
          old = record {
            now = watch.old;
            cluster = self.old.cluster;
            disks = map (λ disk. seen_as (D.size disk) (D.stands disk) (D.faults disk)) disks.old;
            got = K.got sink.old;
            line = self.old.line;
          };
          new = record {
            now = watch.new;
            cluster = self.new.cluster;
            disks = map (λ disk. seen_as (D.size disk) (D.stands disk) (D.faults disk)) disks.new;
            got = K.got sink.new;
            line = self.new.line;
          };
          result = result;
        }) }
        ensures ready { OnOk result (IsReadyAt D.tells (record {
          now = watch.new;
          cluster = self.new.cluster;
          disks = map (λ disk. seen_as (D.size disk) (D.stands disk) (D.faults disk)) disks.new;
          got = K.got sink.new;
          line = self.new.line;
        })) }
        ensures printed { OnOk result
            (self.new.printed ≡ length self.new.cluster.core.journal) }
        ensures line { self.new.line ≤ self.old.line + 1 }
        ensures count { length disks.new ≡ length disks.old }
        ensures cause { SinkCause (K.faults sink.old) (K.faults sink.new) result }
    {
        let read = match read_line(self.alloc, bytes) {
            Ok(read) => read,
            Err(ScriptFault::BadLine) => return Err(Stop::BadLine),
            Err(ScriptFault::NoMemory) => return Err(Stop::NoMemory),
        };
        match read {
            None => {
                self.line += 1;
                Ok(())
            }
            Some(command) => {
                if !is_served(&command) {
                    return Err(Stop::BadLine);
                }
                self.run_command(naming, disks, sink, watch, command)
            }
        }
    }
}
