//! Addresses of blocks, and what a client holds.
ghost use Rattle.std.specs.Prelude.{◌+◌, ◌<◌, ◌^◌, ◌↔◌, IsTrue};
ghost use Rattle.hs_limits.specs.Epoch.{IsFresh};

/// The address of a block: what the naming in use gives for the block's bytes.
#[derive(Clone, Copy, Debug, PartialEq, Eq, PartialOrd, Ord)]
pub struct Address(pub [u8; 32]);

/// An address that a client holds, with the epoch in which it was given.
#[derive(Clone, Copy, Debug, PartialEq, Eq, PartialOrd, Ord)]
pub struct Held {
    pub address: Address,
    pub epoch: u64,
}

/// Whether what was given in epoch `held` may still be used where the epoch is `now`.
pub fn fresh(held: u64, now: u64) -> bool
    requires held { held < 2 ^ 48 }
    requires now { now < 2 ^ 48 }
    ensures { IsTrue result ↔ IsFresh held now }
{
    now <= held + 1
}
