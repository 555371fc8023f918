//! Which blocks a deletion run looks at.
ghost use Rattle.std.specs.Prelude.{[], ◌≡◌, ◌&&◌, cond, false, true, OnErr, OnOk};
ghost use Rattle.std.specs.BTreeMap.{is_at};
ghost use Rattle.std.specs.BTreeSet.{contains};
ghost use Rattle.hs_limits.specs.declared.address.Address.{Address};
ghost use Rattle.hs_model.specs.Store.{address_cmp};
ghost use Rattle.hs_shard.specs.declared.listed.Kind.{Kind};
ghost use Rattle.hs_shard.specs.Listed.{goes_in, has, kind_as, same_kind};

use hs_limits::Address;
use std::alloc::{AllocError, Global};
use std::collections::BTreeSet;

/// How a deletion run looks at a block.
#[derive(Clone, Copy, Debug)]
pub(crate) enum Kind {
    /// It does not count yet.
    Uncounted,
    /// It counts, is no zero block, and nothing points to it.
    Idle,
    /// It is a zero block.
    Zero,
    /// It counts and something points to it, or it is absent.
    Other,
}

/// The addresses of the blocks of each kind, but for the others.
#[derive(Drop)]
pub(crate) struct Listed {
    pub(crate) uncounted: BTreeSet<Address>,
    pub(crate) idle: BTreeSet<Address>,
    pub(crate) zeros: BTreeSet<Address>,
}

impl Listed {
    /// Nothing is listed. It takes no memory.
    pub(crate) fn new(alloc: Global) -> Listed
        ensures { (k : Kind) (a : Address) → has k a result ≡ false }
    {
        Listed {
            uncounted: BTreeSet::new(alloc),
            idle: BTreeSet::new(alloc),
            zeros: BTreeSet::new(alloc),
        }
    }

    /// Lists an address under another kind than before. Without memory nothing changes.
    pub(crate) fn relist(
        &mut self,
        address: Address,
        from: Kind,
        to: Kind,
    ) -> Result<(), AllocError>
        requires { (k : Kind) (q : Address) → is_at (address_cmp address) q ≡ true
            → has k q self.old ≡ goes_in k from }
        ensures ok { OnOk result ((k : Kind) (q : Address) → has k q self.new
            ≡ cond (is_at (address_cmp address) q) (goes_in k to) (has k q self.old)) }
        ensures same { OnErr result ((k : Kind) (q : Address) → has k q self.new ≡ has k q self.old) }
    {
        if is_same(from, to) {
            return Ok(());
        }
        self.list(address, to)?;
        self.unlist(&address, from);
        Ok(())
    }

    /// Takes an address out of the list of a kind. It takes no memory.
    pub(crate) fn unlist(&mut self, address: &Address, kind: Kind)
        ensures { (k : Kind) (q : Address) → has k q self.new
            ≡ cond (is_at (address_cmp address.now) q && goes_in k kind) false (has k q self.old) }
    {
        match kind {
            Kind::Uncounted => {
                self.uncounted.remove(address);
            }
            Kind::Idle => {
                self.idle.remove(address);
            }
            Kind::Zero => {
                self.zeros.remove(address);
            }
            Kind::Other => {}
        }
    }

    /// Puts an address into the list of a kind. Without memory nothing changes.
    fn list(&mut self, address: Address, kind: Kind) -> Result<(), AllocError>
        ensures ok { OnOk result ((k : Kind) (q : Address) → has k q self.new
            ≡ cond (is_at (address_cmp address) q && goes_in k kind) true (has k q self.old)) }
        ensures same { OnErr result ((k : Kind) (q : Address) → has k q self.new ≡ has k q self.old) }
    {
        match kind {
            Kind::Uncounted => put(&mut self.uncounted, address),
            Kind::Idle => put(&mut self.idle, address),
            Kind::Zero => put(&mut self.zeros, address),
            Kind::Other => Ok(()),
        }
    }
}

/// Puts an address into a set.
fn put(set: &mut BTreeSet<Address>, address: Address) -> Result<(), AllocError>
    ensures ok { OnOk result ((q : Address) → contains address_cmp set.new q
        ≡ cond (is_at (address_cmp address) q) true (contains address_cmp set.old q)) }
    ensures same { OnErr result ((q : Address) →
        contains address_cmp set.new q ≡ contains address_cmp set.old q) }
{
    match set.insert(address) {
        Ok(_) => Ok(()),
        Err(_) => Err(AllocError),
    }
}

/// Whether two kinds are one.
fn is_same(one: Kind, other: Kind) -> bool
    ensures { result ≡ same_kind one other }
{
    matches!(
        (one, other),
        (Kind::Uncounted, Kind::Uncounted)
            | (Kind::Idle, Kind::Idle)
            | (Kind::Zero, Kind::Zero)
            | (Kind::Other, Kind::Other)
    )
}

/// How a deletion run looks at a block of which this is known.
pub(crate) fn kind_as(counted: bool, zero: bool, count: u32) -> Kind
    ensures { result ≡ kind_as counted zero count }
{
    if !counted {
        return Kind::Uncounted;
    }
    if zero {
        return Kind::Zero;
    }
    if count == 0 { Kind::Idle } else { Kind::Other }
}
