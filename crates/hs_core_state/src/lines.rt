//! The lines of operations without an answer, by what they are or wait for.
ghost use Rattle.std.specs.Prelude.{◌≡◌, ◌==◌, ◌&&◌, false, is_some, IfOk};
ghost use Rattle.std.specs.List.Sorted.{IsStrictlySortedBy};
ghost use Rattle.std.specs.Map.{keys_of};
ghost use Rattle.std.specs.Option.{option_map_or};
ghost use Rattle.std.specs.Ordering.{nat_cmp};
ghost use Rattle.hs_awaiting.specs.Indexing.{passes, waits_for};
ghost use Rattle.hs_core_words.specs.Effects.{is_for_address, is_for_room, is_for_view, wakes};
ghost use Rattle.hs_core_words.specs.Looking.{operation_of};
ghost use Rattle.hs_core_words.specs.Operating.{busy_line, lines_where};
ghost use Rattle.hs_core_words.specs.Pending.{is_address};
ghost use Rattle.hs_core_words.specs.Reporting.{is_reading};
ghost use Rattle.hs_core_state.specs.Waking.{may_wake, may_wake_by_block, waits_for_block};
ghost use Rattle.hs_ops.specs.Speaking.{wanted_address};
ghost use Rattle.hs_waits.specs.Lines.{IsFirstFrom};
ghost use Rattle.hs_waits.specs.declared.cause.Cause.TheVariants as cause;

use crate::State;
use crate::no_memory::NoMemory;
use hs_awaiting::{Wait, Waiting, next_line, puts_root, writes_block};
use hs_entry::Entry;
use hs_limits::Address;
use hs_model::Op;
use hs_waits::{Cause, earlier};

impl State {
    /// Whether the operation of a line has no answer. It takes no memory.
    pub fn is_awaited(&self, line: u64) -> bool
        ensures { result ≡ is_some (operation_of line self.now) }
    {
        self.operations.get(line).is_some()
    }

    /// The line of the operation without an answer of the session that asks. None exactly where
    /// there is none.
    pub fn busy_line(&self, op: &Op) -> Result<Option<u64>, NoMemory>
        ensures { IfOk result (λ busy. busy ≡ busy_line op.now self.now) }
    {
        match op.session() {
            Some(name) => Ok(self.operations.line_of(name)?),
            None => Ok(None),
        }
    }

    /// The lines of a shard's operations that wait for a View, ascending.
    pub fn lines_for_view(&self, shard: u8) -> Result<Vec<u64>, NoMemory>
        ensures { IfOk result (λ lines. lines.items ≡ lines_where shard is_for_view self.now) }
    {
        let mut lines = Vec::new(self.alloc);
        let mut from = 0;
        while let Some(line) = self.next_for_view(shard, from) {
            lines.push(line)?;
            from = next_line(line)?;
        }
        Ok(lines)
    }

    /// The first line from this one on of an operation that waits for a View. None exactly where there
    /// is none. It takes no memory.
    fn next_for_view(&self, shard: u8, from: u64) -> Option<u64>
        ensures first { IsFirstFrom from
            (passes (waits_for (cause.View shard)) self.now.operations) result }
        ensures ordered { IsStrictlySortedBy nat_cmp (keys_of self.now.operations) }
    {
        self.operations.first(Cause::View { shard }, from)
    }

    /// The lines of a shard's operations that wait for such an entry, ascending; `address` is that of
    /// the block that it stores.
    pub fn lines_woken(
        &self,
        shard: u8,
        entry: &Entry,
        address: Option<Address>,
    ) -> Result<Vec<u64>, NoMemory>
        ensures { IfOk result (λ lines. lines.items
            ≡ lines_where shard (wakes entry.now address self.now) self.now) }
    {
        let mut lines = Vec::new(self.alloc);
        let mut from = 0;
        while let Some(line) = self.next_candidate(shard, entry, address, from) {
            if self.is_woken(shard, entry, address, line) {
                lines.push(line)?;
            }
            from = next_line(line)?;
        }
        Ok(lines)
    }

    /// The first line from this one on of an operation that such an entry may wake. None exactly where
    /// there is none. It takes no memory.
    fn next_candidate(
        &self,
        shard: u8,
        entry: &Entry,
        address: Option<Address>,
        from: u64,
    ) -> Option<u64>
        ensures first { IsFirstFrom from
            (passes (may_wake shard entry.now address) self.now.operations) result }
        ensures ordered { IsStrictlySortedBy nat_cmp (keys_of self.now.operations) }
    {
        let root = self.operations.first(Cause::RootRoom { shard }, from);
        match entry {
            Entry::Block { .. } => self.next_for_block(shard, address, from),
            Entry::Root { .. } => root,
            Entry::View { .. }
            | Entry::Mark { .. }
            | Entry::Drop { .. }
            | Entry::Enter { .. }
            | Entry::Got { .. }
            | Entry::Base { .. }
            | Entry::KeptBlock { .. }
            | Entry::KeptRoot { .. }
            | Entry::KeptRound { .. } => None,
        }
    }

    /// The first line from this one on of an operation that a Block may wake. None exactly where there
    /// is none. It takes no memory.
    fn next_for_block(&self, shard: u8, address: Option<Address>, from: u64) -> Option<u64>
        ensures { IsFirstFrom from (passes (may_wake_by_block shard address) self.now.operations)
            result }
    {
        let room = self.operations.first(Cause::BlockRoom { shard }, from);
        let other = self.operations.first(Cause::Other { shard }, from);
        earlier(room, earlier(self.next_named(shard, address, from), other))
    }

    /// The first line from this one on of a write that waits for the Block of its address. None
    /// exactly where there is none. It takes no memory.
    fn next_named(&self, shard: u8, address: Option<Address>, from: u64) -> Option<u64>
        ensures { IsFirstFrom from (passes (waits_for_block shard address) self.now.operations)
            result }
    {
        match address {
            Some(address) => self.operations.first(Cause::Block { shard, address }, from),
            None => None,
        }
    }

    /// Whether the operation of a line is of this shard and waits for such an entry. It takes no
    /// memory.
    fn is_woken(&self, shard: u8, entry: &Entry, address: Option<Address>, line: u64) -> bool
        ensures { result ≡ passes (λ w. w.shard == shard && wakes entry.now address self.now w)
            self.now.operations line }
    {
        match self.operations.get(line) {
            Some(waiting) => waiting.shard == shard && self.wakes(entry, address, waiting),
            None => false,
        }
    }

    /// Whether an operation waits for such an entry.
    fn wakes(&self, entry: &Entry, address: Option<Address>, waiting: &Waiting) -> bool
        ensures { result ≡ wakes entry.now address self.now waiting.now }
    {
        match entry {
            Entry::Block { .. } => {
                self.is_for_address(address, waiting)
                    || is_for_room(waiting) && writes_block(waiting.operation.op())
            }
            Entry::Root { .. } => is_for_room(waiting) && puts_root(waiting.operation.op()),
            Entry::View { .. }
            | Entry::Mark { .. }
            | Entry::Drop { .. }
            | Entry::Enter { .. }
            | Entry::Got { .. }
            | Entry::Base { .. }
            | Entry::KeptBlock { .. }
            | Entry::KeptRoot { .. }
            | Entry::KeptRound { .. } => false,
        }
    }

    /// Whether an operation waits for the Block of an address.
    fn is_for_address(&self, address: Option<Address>, waiting: &Waiting) -> bool
        ensures { result ≡ is_for_address address self.now waiting.now }
    {
        match address {
            Some(address) => matches!(waiting.wait, Wait::Address) && self.wants(address, waiting),
            None => false,
        }
    }

    /// Whether an operation writes or reads the block of an address.
    fn wants(&self, address: Address, waiting: &Waiting) -> bool
        ensures { result ≡ is_address address
            (wanted_address self.now.sessions waiting.now.operation.op) }
    {
        match waiting.operation.address(&self.sessions) {
            Some(wanted) => address == wanted,
            None => false,
        }
    }

    /// Whether the operation of a line waits for the bytes of an entry. It takes no memory.
    pub fn is_reading(&self, line: u64, number: u64) -> bool
        ensures { result ≡ option_map_or (λ w. is_reading number w.wait)
            (operation_of line self.now) false }
    {
        match self.operations.get(line) {
            Some(waiting) => is_reading(number, waiting.wait),
            None => false,
        }
    }
}

/// Whether what is waited for are the bytes of an entry.
fn is_reading(number: u64, wait: Wait) -> bool
    ensures { result ≡ is_reading number wait }
{
    match wait {
        Wait::Bytes { number: wanted } => wanted == number,
        Wait::View | Wait::Address | Wait::Room | Wait::Entry { .. } => false,
    }
}

/// Whether an operation waits for room.
fn is_for_room(waiting: &Waiting) -> bool
    ensures { result ≡ is_for_room waiting.now }
{
    matches!(waiting.wait, Wait::Room)
}
