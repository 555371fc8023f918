//! Namings: which address belongs to a block's spelling.
ghost use Rattle.std.specs.Prelude.{◌≡◌, ℕ, ◌+◌, ◌-◌, ◌≤◌, List, ◌++◌, length, replicate};
ghost use Rattle.hs_limits.specs.declared.address.Address.{Address};
ghost use Rattle.hs_block.specs.Names.{sha_name, tail_name};
ghost use Rattle.hs_block.specs.Sizes.{sha_names_are_sized, tail_names_are_sized};

use hs_limits::Address;
use sha2::{Digest, Sha256};

/// A naming: the address of bytes, which the naming and the bytes alone decide.
pub trait Addresser {
    // The address that this naming gives these bytes.
    ghost name: { Self → List ℕ → Address };

    /// Each address has 32 bytes.
    ghost sized: { (naming : Self) (bytes : List ℕ) → length (name naming bytes).0 ≡ 32 };

    /// The address of the bytes of `head` and then those of `data`. Nothing is joined, and no
    /// memory is taken.
    fn address_of_parts(&self, head: &[u8], data: &[u8]) -> Address
        ensures { result ≡ name self.now (head.now ++ «data».now) };

    /// The address of the bytes.
    final fn address(&self, bytes: &[u8]) -> Address
        ensures { result ≡ name self.now bytes.now }
    {
        self.address_of_parts(&[], bytes)
    }
}

/// The naming by SHA-256.
#[derive(Clone, Copy, Debug)]
pub struct ShaNames;

impl Addresser for ShaNames {
    ghost name = { λ _ bytes. sha_name bytes };

    ghost sized = { λ _ bytes. sha_names_are_sized bytes };

    fn address_of_parts(&self, head: &[u8], data: &[u8]) -> Address {
        let mut hasher = Sha256::new();
        hasher.update(head);
        hasher.update(data);
        Address(hasher.finalize())
    }
}

/// The naming by the last 32 bytes, for tests: two spellings may have one name.
#[derive(Clone, Copy, Debug)]
pub struct TailNames;

impl Addresser for TailNames {
    ghost name = { λ _ bytes. tail_name bytes };

    ghost sized = { λ _ bytes. tail_names_are_sized bytes };

    fn address_of_parts(&self, head: &[u8], data: &[u8]) -> Address {
        let back = &data[data.len().saturating_sub(32)..];
        let front = &head[head.len().saturating_sub(32 - back.len())..];
        Address(behind_zeros(front, back))
    }
}

/// The bytes of both, at most 32, behind as many zeros as make 32 together.
#[tactic(auto, using(crate::proofs::NamesLemmas::half_is_whole, crate::proofs::NamesLemmas::written_behind_zeros))]
fn behind_zeros(front: &[u8], back: &[u8]) -> [u8; 32]
    requires { length front.now + length back.now ≤ 32 }
    ensures { result
        ≡ replicate (32 - (length front.now + length back.now)) 0 ++ front.now ++ back.now }
{
    let mut all = [0; 32];
    let end = 32 - back.len();
    all[end - front.len()..end].copy_from_slice(front);
    all[end..].copy_from_slice(back);
    all
}
