//! The shape of a store: its shards and their copies, and what belongs to which.
ghost use Rattle.std.specs.Prelude.{◌≡◌, ◌<◌};
ghost use Rattle.hs_limits.specs.Shape.{IsShape, shard_of, shard_of_key, peer_of};

use crate::{Address, Key};

/// A store has `shards` shards (1, 2, 4 or 8) of `copies` copies (1 to 4).
#[derive(Clone, Copy, Debug, PartialEq, Eq)]
pub struct Shape {
    pub shards: u8,
    pub copies: u8,
}

/// The shard that a block of this address belongs to.
pub fn shard_of(address: &Address, shape: Shape) -> u8
    requires { IsShape shape }
    ensures { result ≡ shard_of shape.shards address.now }
{
    address.0[31] % shape.shards
}

/// The shard that a root under this key belongs to.
pub fn shard_of_key(key: &Key, shape: Shape) -> u8
    requires { IsShape shape }
    ensures { result ≡ shard_of_key shape.shards key.now }
{
    let bytes = key.as_slice();
    bytes[bytes.len() - 1] % shape.shards
}

/// The peer that keeps this copy of this shard.
pub fn peer_of(shard: u8, copy: u8, shape: Shape) -> u8
    requires shape { IsShape shape }
    requires shard { shard < shape.shards }
    requires copy { copy < shape.copies }
    ensures { result ≡ peer_of shape shard copy }
{
    shard * shape.copies + copy
}
