//! Addresses as text.
ghost use Rattle.std.specs.Prelude.{◌≡◌, ◌++◌, OnOk, OnErr, IsOkUnless};
ghost use Rattle.hex.specs.Hex.{encode_lower};

use crate::BlockFault;
use hs_limits::Address;

/// Puts the address at the end of `out`, as 64 lower case hex digits. An error leaves `out` as it
/// was.
pub fn print_address(address: &Address, out: &mut Vec<u8>) -> Result<(), BlockFault>
    ensures ok { OnOk result (out.new.items ≡ out.old.items ++ encode_lower address.now.0) }
    ensures err { IsOkUnless result BlockFault.NoMemory }
    ensures same { OnErr result (out.new.items ≡ out.old.items) }
{
    let mut digits = [0; 64];
    hex::encode_to_slice(address.0.as_slice(), &mut digits).unwrap();
    out.extend_from_slice(&digits)?;
    Ok(())
}
