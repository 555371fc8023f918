//! The operations without an answer.
ghost use Rattle.std.specs.Prelude.{◌≡◌, ◌==◌, [], Some, find, length, map, IfNone, IfOk, OnErr, OnOk};
ghost use Rattle.std.specs.BTreeMap.{insert_entry, is_at};
ghost use Rattle.std.specs.List.Sorted.{IsStrictlySortedBy};
ghost use Rattle.std.specs.Map.{keys_of, remove_entry};
ghost use Rattle.std.specs.Option.{option_copied, option_map};
ghost use Rattle.std.specs.Ordering.{nat_cmp};
ghost use Rattle.hs_awaiting.specs.declared.waiting.Waiting.{Waiting};
ghost use Rattle.hs_awaiting.specs.Going.{given_by, judge_in, next_step};
ghost use Rattle.hs_awaiting.specs.Indexing.{found_in, passes, stores, wait_in, waits_for};
ghost use Rattle.hs_awaiting.specs.Kinds.{is_of};
ghost use Rattle.hs_awaiting.specs.Views.{restarted};
ghost use Rattle.hs_ops.specs.Answers.{gained};
ghost use Rattle.hs_waits.specs.Lines.{IsFirstFrom};

use crate::table::Table;
use crate::{AwaitingFault, Judged, Next, Wait, Waiting};
use hs_limits::{Address, Name};
use hs_ops::OpView;
use hs_waits::Cause;
use std::alloc::Global;
use std::marker::Model;

/// The operations without an answer, by line. Those of a session or a shard, those that an entry may
/// wake, and those whose Block stores an address are found without a walk over the others. Where a
/// call that changes them has no memory (NoMemory) none of them is left.
#[derive(Drop)]
pub struct Operations {
    table: Table,
    alloc: Global,
}

impl Model for Operations {
    ghost use Rattle.std.specs.Prelude.{List, ℕ};
    ghost use Rattle.hs_awaiting.specs.declared.waiting.Waiting.{Waiting};
    ghost use Rattle.hs_awaiting.specs.Indexing.{IsIndexed};

    ghost Value = { List (ℕ × Waiting) };

    ghost view = { λ a. a.table.map.entries };

    ghost invariant = { λ a. IsIndexed a.table };
}

impl Operations {
    /// No operation. It takes no memory.
    pub fn new(alloc: Global) -> Operations
        ensures { result ≡ [] }
    {
        Operations {
            table: Table::new(alloc),
            alloc,
        }
    }

    /// Whether there is none. It takes no memory.
    pub fn is_empty(&self) -> bool
        ensures { result ≡ (length self.now == 0) }
    {
        self.table.map.is_empty()
    }

    /// The operation of a line. None exactly where there is none. It takes no memory.
    pub fn get(&self, line: u64) -> Option<&Waiting>
        ensures { option_copied result ≡ found_in self.now line }
    {
        self.table.get(line)
    }

    /// An operation is put at its line, in place of one that is there.
    pub fn put(&mut self, line: u64, waiting: Waiting) -> Result<(), AwaitingFault>
        ensures ok { OnOk result (self.new ≡ insert_entry nat_cmp self.old line waiting) }
        ensures none { OnErr result (self.new ≡ []) }
    {
        let done = self.table.put(line, waiting);
        if done.is_err() {
            self.table = Table::new(self.alloc);
        }
        done
    }

    /// The operation of a line is over. None exactly where there is none.
    pub fn end(&mut self, line: u64) -> Result<Option<Waiting>, AwaitingFault>
        ensures value { IfOk result (λ waiting. waiting ≡ found_in self.old line) }
        ensures rest { OnOk result (self.new ≡ remove_entry (is_at (nat_cmp line)) self.old) }
        ensures same { IfOk result (λ waiting. IfNone waiting (self.new ≡ self.old)) }
        ensures none { OnErr result (self.new ≡ []) }
    {
        let done = self.table.end(line);
        if done.is_err() {
            self.table = Table::new(self.alloc);
        }
        done
    }

    /// The operation of a line waits for this. Where there is none all stay.
    pub fn set_wait(&mut self, line: u64, what: Wait) -> Result<(), AwaitingFault>
        ensures ok { OnOk result (self.new ≡ wait_in line what self.old) }
        ensures none { OnErr result (self.new ≡ []) }
    {
        let done = self.table.set_wait(line, what);
        if done.is_err() {
            self.table = Table::new(self.alloc);
        }
        done
    }

    /// The operation of a line takes its next step by what it sees, with the pointers that the
    /// catalogue has of the block that it writes or reads. Where there is none all stay.
    pub fn judge(
        &mut self,
        line: u64,
        view: &OpView,
        pointers: &[Address],
        how: &Next,
    ) -> Result<Judged, AwaitingFault>
        ensures ok { OnOk result (self.new
            ≡ judge_in how.now pointers.now view.now line self.old) }
        ensures step { (w : Waiting) → found_in self.old line ≡ Some w → IfOk result
            (λ judged. judged.step ≡ next_step how.now pointers.now view.now w.operation) }
        ensures helds { (w : Waiting) → found_in self.old line ≡ Some w → IfOk result
            (λ judged. judged.helds
            ≡ given_by judged.step (gained view.now pointers.now w.operation.op)) }
        ensures none { OnErr result (self.new ≡ []) }
    {
        let judged = self.table.judge(line, view, pointers, how);
        if judged.is_err() {
            self.table = Table::new(self.alloc);
        }
        judged
    }

    /// The operations of a shard start again, but for one whose entry still stands in the lead's list,
    /// of which this is the last number.
    pub fn restart(&mut self, shard: u8, last: u64) -> Result<(), AwaitingFault>
        ensures ok { OnOk result (self.new
            ≡ map (λ e. (e.0, restarted shard last e.1)) self.old) }
        ensures none { OnErr result (self.new ≡ []) }
    {
        let done = self.table.restart(shard, last);
        if done.is_err() {
            self.table = Table::new(self.alloc);
        }
        done
    }

    /// The first line of a session's operations. None exactly where there is none. It copies the
    /// session's name; without memory (NoMemory) all stay.
    pub fn line_of(&self, name: &Name) -> Result<Option<u64>, AwaitingFault>
        ensures { IfOk result (λ line. line
            ≡ option_map (λ e. e.0) (find (λ e. is_of name.now e.1) self.now)) }
    {
        let _ordered = self.table.map.len();
        let name = name.copy(self.alloc)?;
        Ok(self.table.sessions.first(name, 0))
    }

    /// The first line from this one on of an operation that waits for this. None exactly where there
    /// is none. It takes no memory.
    pub fn first(&self, cause: Cause, from: u64) -> Option<u64>
        ensures first { IsFirstFrom from (passes (waits_for cause) self.now) result }
        ensures ordered { IsStrictlySortedBy nat_cmp (keys_of self.now) }
    {
        let _ordered = self.table.map.len();
        self.table.waits.first(cause, from)
    }

    /// The first line from this one on of an operation whose Block stores this: of a write that names
    /// this address itself. None exactly where there is none. It takes no memory.
    pub fn first_storing(&self, what: Cause, from: u64) -> Option<u64>
        ensures { IsFirstFrom from (passes (stores what) self.now) result }
    {
        self.table.stored.first(what, from)
    }
}
