//! Reading a file straight to where its bytes are wanted.
ghost use Rattle.std.specs.Prelude.{◌≡◌, ◌+◌, ◌<◌, ◌≤◌, IfOk, OnErr, length, take};
ghost use Rattle.hs_ports.specs.Disk.{HasRead};
ghost use Rattle.hydra.specs.SideFault.{Keeps, Tells};

use crate::file_fault::{Deed, SideFault, note};
use crate::retry::read_some_at;
use hs_ports::PortFault;
use std::io;
use std::os::unix::fs::FileExt;

/// Appends at least one and at most `most` bytes of a file from a place on, by one call, or nothing.
/// The system puts them behind what is there, and nothing copies them again.
pub fn read_straight<F: FileExt>(
    file: &F,
    fault: &mut Option<SideFault>,
    at: u64,
    most: usize,
    into: &mut Vec<u8>,
) -> Result<usize, PortFault>
    requires { 0 < most }
    ensures found { IfOk result (λ n. HasRead most 0 most into.old.items into.new.items n) }
    ensures untaken { OnErr result (into.new.items ≡ into.old.items) }
    ensures told { Tells result fault.new }
    ensures kept { Keeps fault.old fault.new }
{
    let start = into.len();
    let Some(end) = start.checked_add(most) else {
        return Err(PortFault::NoMemory);
    };
    if into.resize(end, 0).is_err() {
        return Err(PortFault::NoMemory);
    }
    match read_behind(file, at, start, into.as_mut_slice()) {
        Ok(count) => {
            into.truncate(start + count);
            Ok(count)
        }
        Err(reason) => {
            into.truncate(start);
            note(fault, Deed::Read, reason);
            Err(PortFault::Failed)
        }
    }
}

/// Reads a file at a place into the bytes behind the first `start`, and at least one byte.
fn read_behind<F: FileExt>(file: &F, at: u64, start: usize, bytes: &mut [u8]) -> io::Result<usize>
    requires { start ≤ length bytes.old }
    ensures some { IfOk result (λ n. 0 < n) }
    ensures within { IfOk result (λ n. start + n ≤ length bytes.old) }
    ensures same_size { length bytes.new ≡ length bytes.old }
    ensures front { take start bytes.new ≡ take start bytes.old }
{
    let count = read_some_at(file, &mut bytes[start..], at)?;
    if count == 0 {
        return Err(io::ErrorKind::UnexpectedEof.into());
    }
    Ok(count)
}
