//! Single writes to the maps that the blocks stand in.
ghost use Rattle.std.specs.Prelude.{◌≡◌, ◌+◌, ◌≤◌, None, Some, cond, ℕ, length, OnErr, OnOk};
ghost use Rattle.std.specs.BTreeMap.{insert_entry, is_at};
ghost use Rattle.std.specs.List.Sorted.{IsStrictlySortedBy};
ghost use Rattle.std.specs.Map.{keys_of};
ghost use Rattle.std.specs.Ordering.{nat_cmp};
ghost use Rattle.hs_limits.specs.declared.address.Address.{Address};
ghost use Rattle.hs_model.specs.Store.{address_cmp};
ghost use Rattle.hs_shard.specs.Clients.{change_at, give};
ghost use Rattle.hs_shard.specs.Facts.{facts_in};
ghost use Rattle.hs_shard.specs.Listed.{address_of};
ghost use Rattle.hs_shard.specs.Rounds.{moved};

use crate::Facts;
use hs_limits::Address;
use std::alloc::AllocError;
use std::collections::BTreeMap;

/// What a count becomes at the end of a round: round 0 raises it, the others lower it, as far as it
/// stays a number of 32 bits.
pub(crate) fn moved(round: u32, count: u32, amount: u32) -> u32
    ensures { result ≡ moved round count amount }
{
    if round == 0 {
        return count.checked_add(amount).unwrap_or(count);
    }
    count.checked_sub(amount).unwrap_or(count)
}

/// Writes down that a block was given in an epoch. It takes no memory.
pub(crate) fn give(known: &mut BTreeMap<Address, Facts>, address: &Address, epoch: u64)
    ensures { known.new.entries ≡ change_at address.now (give epoch) known.old.entries }
{
    if let Some(facts) = known.get_mut(address) {
        facts.mark = epoch;
    }
}

/// Writes down whether a block counts, whether it is a zero block, and its count. It takes no memory.
pub(crate) fn write(
    known: &mut BTreeMap<Address, Facts>,
    address: &Address,
    counted: bool,
    zero: bool,
    count: u32,
)
    ensures { known.new.entries ≡ change_at address.now
        (λ f. record f { counted = counted; zero = zero; count = count }) known.old.entries }
{
    if let Some(facts) = known.get_mut(address) {
        facts.counted = counted;
        facts.zero = zero;
        facts.count = count;
    }
}

/// Puts a block into the map and its number beside it. Without memory nothing changes.
pub(crate) fn insert_both(
    known: &mut BTreeMap<Address, Facts>,
    numbers: &mut BTreeMap<u64, Address>,
    address: Address,
    facts: Facts,
) -> Result<(), AllocError>
    requires { address_of facts.number numbers.old.entries ≡ None }
    ensures known { OnOk result (known.new.entries
        ≡ insert_entry address_cmp known.old.entries address facts) }
    ensures numbers { OnOk result (numbers.new.entries
        ≡ insert_entry nat_cmp numbers.old.entries facts.number address) }
    ensures found { OnOk result ((a : Address) → facts_in a known.new.entries
        ≡ cond (is_at (address_cmp address) a) (Some facts) (facts_in a known.old.entries)) }
    ensures counted { OnOk result ((number : ℕ) → address_of number numbers.new.entries
        ≡ cond (is_at (nat_cmp facts.number) number) (Some address)
        (address_of number numbers.old.entries)) }
    ensures more { OnOk result (length known.new.entries ≤ length known.old.entries + 1) }
    ensures ordered { OnOk result
        (IsStrictlySortedBy address_cmp (keys_of known.new.entries)) }
    ensures same_known { OnErr result (known.new.entries ≡ known.old.entries) }
    ensures same_numbers { OnErr result ((number : ℕ) →
        address_of number numbers.new.entries ≡ address_of number numbers.old.entries) }
{
    let number = facts.number;
    if numbers.insert(number, address).is_err() {
        return Err(AllocError);
    }
    if known.insert(address, facts).is_err() {
        numbers.remove(&number);
        return Err(AllocError);
    }
    Ok(())
}
