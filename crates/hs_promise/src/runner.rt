//! The promise as a contract.
ghost use Rattle.std.specs.Prelude.{◌≡◌, ℕ, Option, None, IfSome, map, string_bytes, vec_len};
ghost use Rattle.hs_model.specs.declared.command.Command.{Command};
ghost use Rattle.hs_ports.specs.Objects.{handed};
ghost use Rattle.hs_script.specs.CommandLine.{wanted_of};
ghost use Rattle.hs_promise.specs.Machine.{IsOfMachine};
ghost use Rattle.hs_promise.specs.Promise.{IsUsage, Promise};
ghost use Rattle.hs_promise.specs.Run.{ran_of, script_of};

use crate::{Outcome, Status};
use hs_block::Addresser;
use hs_ports::{Disk, Sink, Source, Watch};

/// Whoever runs scripts on a store of any shape. Nothing meets this yet: what `hydra` has of it stands
/// in `IsCalled` of hs_top.
pub trait Runner {
    /// Runs the script that the source has, as the words ask, on the disks of a store, one for each
    /// peer, and puts what is answered into the sink.
    fn run_script<A: Addresser, S: Source, K: Sink, D: Disk + Drop>(
        &self,
        words: &[String],
        naming: &A,
        source: &mut S,
        sink: &mut K,
        disks: &mut Vec<D>,
        watch: &mut Watch,
    ) -> Outcome
        // A run ends as Usage exactly where the words are outside the language, or the disks are
        // not as many as they ask for.
        ensures usage { wanted_of (map (λ word. string_bytes word) words.now) (vec_len disks.old) ≡ None
            → IsUsage (ran_of result
            (handed watch.old (map (λ disk. (D.stands disk, D.faults disk)) disks.old.items)
            (K.got sink.old, K.faults sink.old) (S.left source.old, S.faults source.old))
            (handed watch.new (map (λ disk. (D.stands disk, D.faults disk)) disks.new.items)
            (K.got sink.new, K.faults sink.new) (S.left source.new, S.faults source.new))) }
        ensures only_usage { result.status ≡ Status.Usage
            → wanted_of (map (λ word. string_bytes word) words.now) (vec_len disks.old) ≡ None }
        // What is promised in the words of the plain store.
        ensures promise { IfSome (wanted_of (map (λ word. string_bytes word) words.now) (vec_len disks.old)) (λ wanted.
            (commands : ℕ → Option Command) × Promise D.tells (script_of (A.name naming.now) wanted commands)
            (ran_of result
            (handed watch.old (map (λ disk. (D.stands disk, D.faults disk)) disks.old.items)
            (K.got sink.old, K.faults sink.old) (S.left source.old, S.faults source.old))
            (handed watch.new (map (λ disk. (D.stands disk, D.faults disk)) disks.new.items)
            (K.got sink.new, K.faults sink.new) (S.left source.new, S.faults source.new)))) }
        // That it is the machine's run.
        ensures machine { IfSome (wanted_of (map (λ word. string_bytes word) words.now) (vec_len disks.old)) (λ wanted.
            (commands : ℕ → Option Command) × IsOfMachine D.tells (script_of (A.name naming.now) wanted commands)
            (ran_of result
            (handed watch.old (map (λ disk. (D.stands disk, D.faults disk)) disks.old.items)
            (K.got sink.old, K.faults sink.old) (S.left source.old, S.faults source.old))
            (handed watch.new (map (λ disk. (D.stands disk, D.faults disk)) disks.new.items)
            (K.got sink.new, K.faults sink.new) (S.left source.new, S.faults source.new)))) };
}
