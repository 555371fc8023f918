//! Lines, one after another.
ghost use Rattle.std.specs.Prelude.{◌≡◌, ◌+◌, ◌<◌, ◌^◌, IfOk};

use crate::AwaitingFault;

/// The line after one. NoMemory exactly where there is none: after the greatest number of 64 bits.
pub fn next_line(line: u64) -> Result<u64, AwaitingFault>
    ensures value { IfOk result (λ next. next ≡ line + 1) }
    ensures fits { line < 2 ^ 64 }
{
    match line.checked_add(1) {
        Some(next) => Ok(next),
        None => Err(AwaitingFault::NoMemory),
    }
}
