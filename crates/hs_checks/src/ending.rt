//! How a run ends whose text is put.
ghost use Rattle.std.specs.Prelude.{◌≡◌, ◌≤◌, ◌⊎◌};
ghost use Rattle.hs_ports.specs.Fault.{HasRisen};
ghost use Rattle.hs_ports.specs.Putting.{PutsFront};
ghost use Rattle.hs_ports.specs.Sink.{bytes_of, followed};
ghost use Rattle.hs_run.specs.Puts.{IsStamped};

use hs_ports::{Sink, Watch};
use hs_promise::Status;
use hs_run::put_all;

/// Puts a text into the sink. A sink that fails has a front of it.
pub(crate) fn put_text<K: Sink>(sink: &mut K, watch: &mut Watch, text: &[u8]) -> Status
    ensures only { (result ≡ Status.Done) ⊎ (result ≡ Status.WriteFault) }
    ensures done { result ≡ Status.Done
        → bytes_of (K.got sink.new) ≡ followed (bytes_of (K.got sink.old)) text.now }
    ensures front { result ≡ Status.WriteFault
        → PutsFront (bytes_of (K.got sink.old)) text.now (bytes_of (K.got sink.new)) }
    ensures failed { result ≡ Status.WriteFault → HasRisen (K.faults sink.old) (K.faults sink.new) }
    ensures counted { K.faults sink.old ≤ K.faults sink.new }
    ensures stamped { IsStamped watch.old watch.new (K.got sink.old) (K.got sink.new) }
    ensures ticks { watch.old ≤ watch.new }
{
    match put_all(sink, watch, text) {
        Ok(()) => Status::Done,
        Err(_) => Status::WriteFault,
    }
}
