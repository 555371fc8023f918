//! Reading the head of a side.
ghost use Rattle.hs_ports.specs.declared.disk.Side.{Side};
ghost use Rattle.std.specs.Prelude.{◌≡◌, ◌<◌, ◌≤◌, ◌+◌, length, IfOk, IfErr, IsSome, OnOk};
ghost use Rattle.hs_side.specs.Caused.{IsCalm, IsCaused};
ghost use Rattle.hs_side.specs.Reading.{is_named, generation_of};
ghost use Rattle.hs_side.specs.Steps.{IsHead, IsHeadOf};

use crate::format::is_open;
use crate::reading::fill;
use crate::{Header, SideFault};
use hs_ports::{Disk, Side};

/// What the first 17 bytes of a side tell: None where byte 0 is no open gate.
fn head_in(bytes: &[u8]) -> Result<Option<(Header, u64)>, SideFault>
    requires { length bytes.now ≡ 17 }
    ensures { IsHead result bytes.now }
{
    if !is_open(bytes[0]) {
        return Ok(None);
    }
    if !is_named(bytes) {
        return Err(SideFault::NotALog { at: 1 });
    }
    if bytes[5] != 1 {
        return Err(SideFault::NotALog { at: 5 });
    }
    let header = Header {
        shards: bytes[6],
        copies: bytes[7],
        peer: bytes[8],
    };
    Ok(Some((header, generation_of(bytes))))
}

/// Whether bytes 1 to 4 are `HSL1`.
fn is_named(bytes: &[u8]) -> bool
    requires { length bytes.now ≡ 17 }
    ensures { result ≡ is_named bytes.now }
{
    bytes[1] == b'H' && bytes[2] == b'S' && bytes[3] == b'L' && bytes[4] == b'1'
}

/// The number of bytes 9 to 16.
pub(crate) fn generation_of(bytes: &[u8]) -> u64
    requires { length bytes.now ≡ 17 }
    ensures { result ≡ generation_of bytes.now }
{
    let field = &bytes[9..17];
    u64::from_be_bytes([
        field[0], field[1], field[2], field[3], field[4], field[5], field[6], field[7],
    ])
}

/// What the head of a side tells: None where the side is blank. The size is that of the side, and
/// what is held is used as a buffer.
pub(crate) fn read_head<D: Disk>(
    disk: &mut D,
    side: Side,
    size: u64,
    held: &mut Vec<u8>,
) -> Result<Option<(Header, u64)>, SideFault>
    requires { size ≡ D.size disk.old side }

    ensures exact { D.tells → IsHeadOf result ((D.stands disk.old).seen side) }
    ensures some { IfOk result (λ head. IsSome head → 18 ≤ size) }

    ensures same_size { (s : Side) → D.size disk.new s ≡ D.size disk.old s }
    ensures same { D.tells → D.stands disk.new ≡ D.stands disk.old }
    ensures calm { IsCalm (D.faults disk.old) (D.faults disk.new) result }
    ensures cause { IsCaused (D.faults disk.old) (D.faults disk.new) result }
{
    if size < 18 {
        return Ok(None);
    }
    held.clear();
    fill(disk, side, 0, 17, held)?;
    head_in(held)
}
