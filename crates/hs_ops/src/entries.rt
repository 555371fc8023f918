//! The entries that operations ask for.
ghost use Rattle.std.specs.Prelude.{◌≡◌, ℕ, ◌≤◌, List, ◌++◌, length, IfOk};
ghost use Rattle.hs_limits.specs.Block.{IsBlock, spell};
ghost use Rattle.hs_limits.specs.declared.spelling.TheConstants.{MOST_BYTES, MOST_POINTERS};
ghost use Rattle.hs_ops.specs.Going.{block_entry, mark_entry, root_entry};
ghost use Rattle.hs_ops.specs.Speaking.{asked_block, asked_pointers, helds, least_epoch};

use crate::view::found_in;
use crate::{OpFault, OpView};
use hs_block::{write_head, write_spelling};
use hs_entry::Entry;
use hs_limits::{Address, Key, LAST_EPOCH, ListOf, Name};
use hs_model::given_address;
use hs_shared::SharedBytes;
use hs_tokens::SessionsView;
use std::alloc::Global;

impl<'a> OpView<'a> {
    /// The entry that stores a write's block.
    #[tactic(auto, using(crate::proofs::BlockLemmas::asked_is, crate::proofs::BlockLemmas::is_spelled, crate::proofs::BlockLemmas::entry_is))]
    pub(crate) fn block_entry(
        &self,
        alloc: Global,
        line: u64,
        session: &Name,
        payload: &[u8],
        handles: &[u32],
    ) -> Result<Entry, OpFault>
        requires { IsBlock (asked_block self.now.seats session.now payload.now handles.now) }
        ensures { IfOk result (λ entry. entry
            ≡ block_entry self.now line session.now payload.now handles.now) }
    {
        let pointers = addresses_of(alloc, &self.sessions, session, handles)?;
        let bytes = spelling(alloc, pointers.as_slice(), payload)?;
        Ok(Entry::Block {
            op: line,
            least: self.least_epoch(session, handles),
            bytes,
        })
    }

    /// The entry that marks the block of the entry of a number, which a write has found.
    #[tactic(auto, unfolding(crate::specs::Going::mark_entry))]
    pub(crate) fn mark_entry(
        &self,
        line: u64,
        number: u64,
        session: &Name,
        handles: &[u32],
        address: Option<Address>,
    ) -> Entry
        ensures { result ≡ mark_entry self.now line number session.now handles.now address }
    {
        Entry::Mark {
            op: line,
            least: self.least_epoch(session, handles),
            block: number,
            address: given_address(address),
        }
    }

    /// The entry that retains what a handle stands for under a key.
    pub(crate) fn root_entry(
        &self,
        alloc: Global,
        line: u64,
        session: &Name,
        key: &Key,
        handle: u32,
    ) -> Result<Entry, OpFault>
        ensures { IfOk result (λ entry. entry
            ≡ root_entry self.now line session.now key.now handle) }
    {
        let held = self.found(session, handle);
        let key = key.copy(alloc)?;
        Ok(Entry::Root {
            op: line,
            held: held.epoch,
            address: held.address,
            key,
        })
    }

    /// The least epoch of some handles, and the last epoch where there is none.
    #[tactic(auto, unfolding(crate::specs::Speaking::least_epoch))]
    fn least_epoch(&self, session: &Name, handles: &[u32]) -> u64
        ensures { result ≡ least_epoch (helds self.now.seats session.now handles.now) }
    {
        let mut least = LAST_EPOCH;
        for handle in handles {
            least = least.min(self.found(session, *handle).epoch);
        }
        least
    }
}

/// The addresses that some handles of a session stand for.
pub(crate) fn addresses_of(
    alloc: Global,
    sessions: &SessionsView,
    session: &Name,
    handles: &[u32],
) -> Result<ListOf<Address>, OpFault>
    ensures { IfOk result (λ addresses. addresses
        ≡ asked_pointers sessions.now session.now handles.now) }
{
    let mut addresses = ListOf::new(alloc);
    for handle in handles {
        addresses.push(found_in(sessions, session, *handle).address)?;
    }
    Ok(addresses)
}

/// The spelling of the block of these pointers and bytes.
fn spelling(alloc: Global, pointers: &[Address], payload: &[u8]) -> Result<SharedBytes, OpFault>
    requires { IsBlock (record { pointers = pointers.now; bytes = payload.now }) }
    ensures { IfOk result (λ bytes. bytes
        ≡ spell (record { pointers = pointers.now; bytes = payload.now })) }
{
    let mut bytes = Vec::new(alloc);
    match write_spelling(pointers, payload, &mut bytes) {
        Ok(()) => Ok(SharedBytes::from_vec(alloc, bytes)?),
        Err(_) => Err(OpFault::NoMemory),
    }
}

/// What the spelling of a block of these pointers and `len` bytes has in front of the bytes.
pub(crate) fn head_of(alloc: Global, pointers: &[Address], len: usize) -> Result<Vec<u8>, OpFault>
    requires few { length pointers.now ≤ MOST_POINTERS }
    requires short { len ≤ MOST_BYTES }
    ensures { IfOk result (λ head. (bytes : List ℕ) → length bytes ≡ len →
        head.items ++ bytes ≡ spell (record { pointers = pointers.now; bytes = bytes })) }
{
    let mut head = Vec::new(alloc);
    match write_head(pointers, len, &mut head) {
        Ok(()) => Ok(head),
        Err(_) => Err(OpFault::NoMemory),
    }
}
