//! Bytes that their copies share.
ghost use Rattle.std.specs.Prelude.{◌≡◌, ◌≤◌, drop, length, IfOk};
ghost use Rattle.std.specs.Arc.{arc_value};

use hs_limits::ListOf;
use std::alloc::{AllocError, Global};
use std::marker::Model;
use std::sync::Arc;

/// Bytes that their copies share, with those that stand before them. A copy takes no memory, and the
/// last one gives it back. Contracts see the list of the bytes.
#[derive(Debug, Drop)]
pub struct SharedBytes {
    held: Arc<ListOf<u8>>,
    from: usize,
    ghost within: { from ≤ length (arc_value held) },
}

impl Model for SharedBytes {
    ghost use Rattle.std.specs.Prelude.{ℕ, List, drop};
    ghost use Rattle.std.specs.Arc.{arc_value};

    ghost Value = { List ℕ };

    ghost view = { λ a. drop a.from (arc_value a.held) };
}

impl SharedBytes {
    /// The bytes of a vector. They stay where they are.
    pub fn from_vec(alloc: Global, bytes: Vec<u8>) -> Result<SharedBytes, AllocError>
        ensures { IfOk result (λ shared. shared ≡ bytes.items) }
    {
        let held = Arc::new(alloc, ListOf::from_vec(bytes))?;
        Ok(SharedBytes { held, from: 0 })
    }

    /// The same bytes again, which the two share. It fails only where no more owners can be counted.
    pub fn copy(&self) -> Result<SharedBytes, AllocError>
        ensures { IfOk result (λ shared. shared ≡ self.now) }
    {
        let held = Arc::try_clone(&self.held)?;
        Ok(SharedBytes {
            held,
            from: self.from,
        })
    }

    /// The bytes behind the first `n`. They stay where they are.
    pub fn behind(self, n: usize) -> SharedBytes
        requires { n ≤ length self }
        ensures { result ≡ drop n self }
    {
        let left = self.held.as_slice().len() - self.from;
        prove!(n <= left);
        SharedBytes {
            held: self.held,
            from: self.from + n,
        }
    }

    /// The bytes in order.
    pub fn as_slice(&self) -> &[u8]
        ensures { result.now ≡ self.now }
    {
        &self.held.as_slice()[self.from..]
    }
}
