//! Reading a side of a disk, whatever pieces it comes in.
ghost use Rattle.hs_ports.specs.declared.disk.Side.{Side};
ghost use Rattle.std.specs.Prelude.{◌≡◌, ◌<◌, ◌≤◌, ◌+◌, ◌++◌, length, take, drop, IfOk, OnOk, OnErr};
ghost use Rattle.hs_ports.specs.Disk.{byte_at};
ghost use Rattle.hs_ports.specs.Fault.{IsCausedBy};

use hs_ports::{Disk, PortFault, Side};

/// Appends to `into` the `n` bytes of a side from the place `at` on, all of which it has. Room is
/// taken once. An error leaves `into` as it was.
pub(crate) fn fill<D: Disk>(
    disk: &mut D,
    side: Side,
    at: u64,
    n: usize,
    into: &mut Vec<u8>,
) -> Result<(), PortFault>
    requires { at + n ≤ D.size disk.old side }

    ensures value { D.tells → OnOk result (into.new.items
        ≡ into.old.items ++ take n (drop at ((D.stands disk.old).seen side))) }
    ensures len { OnOk result (length into.new.items ≡ length into.old.items + n) }
    ensures front { take (length into.old.items) into.new.items ≡ into.old.items }
    ensures untaken { OnErr result (into.new.items ≡ into.old.items) }

    ensures same_size { (s : Side) → D.size disk.new s ≡ D.size disk.old s }
    ensures same { D.tells → D.stands disk.new ≡ D.stands disk.old }

    ensures calm { OnOk result (D.faults disk.new ≡ D.faults disk.old) }
    ensures cause { IsCausedBy PortFault.Failed (D.faults disk.old) (D.faults disk.new) result }
{
    if into.reserve(n).is_err() {
        return Err(PortFault::NoMemory);
    }
    let was = into.len();
    let mut got = 0;
    'pieces: while got < n {
        match disk.read(side, at + got as u64, n - got, into) {
            Ok(more) => got += more,
            Err(fault) => {
                into.truncate(was);
                return Err(fault);
            }
        }
    }
    Ok(())
}

/// The gate at a place that the side has. What is held is used as a buffer.
pub(crate) fn gate_at<D: Disk>(
    disk: &mut D,
    side: Side,
    at: u64,
    held: &mut Vec<u8>,
) -> Result<u8, PortFault>
    requires { at < D.size disk.old side }

    ensures value { D.tells → IfOk result (λ gate.
        gate ≡ byte_at ((D.stands disk.old).seen side) at) }

    ensures same_size { (s : Side) → D.size disk.new s ≡ D.size disk.old s }
    ensures same { D.tells → D.stands disk.new ≡ D.stands disk.old }

    ensures calm { OnOk result (D.faults disk.new ≡ D.faults disk.old) }
    ensures cause { IsCausedBy PortFault.Failed (D.faults disk.old) (D.faults disk.new) result }
{
    held.clear();
    fill(disk, side, at, 1, held)?;
    Ok(held[0])
}
