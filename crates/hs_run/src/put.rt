//! What is put into the sink.
ghost use Rattle.std.specs.Prelude.{◌≡◌, ◌++◌, ◌<◌, length, OnOk, OnErr, IsOkUnless};
ghost use Rattle.hs_ports.specs.Putting.{PutsFront};
ghost use Rattle.hs_ports.specs.Sink.{bytes_of, followed};
ghost use Rattle.hs_script.specs.Text.{text};
ghost use Rattle.hs_run.specs.Faults.{SinkCause};
ghost use Rattle.hs_run.specs.Puts.{IsStamped, PutsAll, PutsLate};

use crate::stop::Stop;
use hs_journal::JournalEntry;
use hs_ports::{Sink, Watch};
use hs_script::print_entry;

/// Puts all of the bytes, piece after piece. A fault leaves a front of them put.
pub fn put_all<K: Sink>(sink: &mut K, watch: &mut Watch, bytes: &[u8]) -> Result<(), Stop>
    ensures put { OnOk result (bytes_of (K.got sink.new) ≡ followed (bytes_of (K.got sink.old))
        bytes.now) }
    ensures front { OnErr result (PutsFront (bytes_of (K.got sink.old)) bytes.now
        (bytes_of (K.got sink.new))) }
    ensures late { PutsLate watch.old watch.new bytes.now (K.got sink.old) (K.got sink.new) }
    ensures all { OnOk result (PutsAll watch.new bytes.now (K.got sink.old) (K.got sink.new)) }
    ensures stamped { IsStamped watch.old watch.new (K.got sink.old) (K.got sink.new) }
    ensures err { IsOkUnless result Stop.WriteFault }
    ensures some { OnErr result (0 < length bytes.now) }
    ensures cause { SinkCause (K.faults sink.old) (K.faults sink.new) result }
{
    let mut done = 0;
    'putting: while done < bytes.len() {
        match sink.put(watch, &bytes[done..]) {
            Ok(count) => done += count,
            Err(_) => return Err(Stop::WriteFault),
        }
    }
    Ok(())
}

/// Puts the lines of entries at the end of `out`.
pub(crate) fn write_lines(entries: &[JournalEntry], out: &mut Vec<u8>) -> Result<(), Stop>
    ensures ok { OnOk result (out.new.items ≡ out.old.items ++ text entries.now) }
    ensures err { IsOkUnless result Stop.NoMemory }
{
    for entry in entries {
        match print_entry(entry, out) {
            Ok(()) => {}
            Err(_) => return Err(Stop::NoMemory),
        }
    }
    Ok(())
}
