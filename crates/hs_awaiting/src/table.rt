//! The operations without an answer, with their lines by session and by what they wait for.
ghost use Rattle.std.specs.Prelude.{◌≡◌, ◌==◌, ℕ, List, [], Option, Some, None, IfNone, IfOk, OnOk, map};
ghost use Rattle.std.specs.List.Sorted.{IsStrictlySortedBy};
ghost use Rattle.std.specs.BTreeMap.{insert_entry, is_at};
ghost use Rattle.std.specs.Map.{keys_of, remove_entry};
ghost use Rattle.std.specs.Option.{option_copied};
ghost use Rattle.std.specs.Ordering.{nat_cmp};
ghost use Rattle.hs_awaiting.specs.declared.waiting.Waiting.{Waiting};
ghost use Rattle.hs_awaiting.specs.Going.{given_by, judge_in, next_step};
ghost use Rattle.hs_awaiting.specs.Indexing.{IsIndexed, again_in, found_in, passes, wait_in};
ghost use Rattle.hs_awaiting.specs.Putting.{IsIndexedIn, IsPutAt, keys_in};
ghost use Rattle.hs_awaiting.specs.Views.{restarted};
ghost use Rattle.hs_ops.specs.Answers.{gained};
ghost use Rattle.hs_waits.specs.Lines.{IsFirstFrom};

use crate::causes::{cause_of, wait_cause};
use crate::judging::judge_in;
use crate::keys::{Keys, keys_in, keys_of, no_keys};
use crate::views::is_within;
use crate::{AwaitingFault, Judged, Next, Wait, Waiting, next_line};
use hs_limits::{Address, Name};
use hs_ops::OpView;
use hs_waits::{Lines, Waits};
use std::alloc::Global;
use std::collections::BTreeMap;

/// The operations without an answer, by line, and beside them the lines by session, by cause, by the
/// block that a Block of the line stores, and by shard. A call that has no memory may leave them apart.
#[derive(Drop)]
pub(crate) struct Table {
    pub(crate) map: BTreeMap<u64, Waiting>,
    pub(crate) sessions: Lines<Name>,
    pub(crate) waits: Waits,
    pub(crate) stored: Waits,
    pub(crate) shards: Lines<u8>,
    pub(crate) alloc: Global,
}

impl Table {
    /// No operation. It takes no memory.
    pub(crate) fn new(alloc: Global) -> Table
        ensures empty { result.map.entries ≡ [] }
        ensures index { IsIndexed result }
    {
        Table {
            map: BTreeMap::new(alloc),
            sessions: Lines::new(alloc),
            waits: Waits::new(alloc),
            stored: Waits::new(alloc),
            shards: Lines::new(alloc),
            alloc,
        }
    }

    /// The operation of a line. None exactly where there is none. The newest line is asked for most,
    /// so it is found without a search. It takes no memory.
    #[tactic(auto, using(crate::proofs::IndexLemmas::none_above))]
    pub(crate) fn get(&self, line: u64) -> Option<&Waiting>
        ensures { option_copied result ≡ found_in self.now.map.entries line }
    {
        if let Some((newest, waiting)) = self.map.last_key_value() {
            if *newest < line {
                return None;
            }
            if *newest == line {
                return Some(waiting);
            }
        }
        self.map.get(&line)
    }

    /// An operation is put at its line.
    pub(crate) fn put(&mut self, line: u64, waiting: Waiting) -> Result<(), AwaitingFault>
        requires { IsIndexed self.old }
        ensures map { OnOk result
            (self.new.map.entries ≡ insert_entry nat_cmp self.old.map.entries line waiting) }
        ensures index { OnOk result (IsIndexed self.new) }
    {
        let keys = keys_of(self.alloc, &waiting)?;
        let before = self.map.insert(line, waiting)?;
        let old = keys_in(self.alloc, &before)?;
        self.move_line(line, old, keys)?;
        Ok(())
    }

    /// The operation of a line is over. None exactly where there is none.
    pub(crate) fn end(&mut self, line: u64) -> Result<Option<Waiting>, AwaitingFault>
        requires { IsIndexed self.old }
        ensures value { IfOk result (λ waiting. waiting ≡ found_in self.old.map.entries line) }
        ensures map { OnOk result (self.new.map.entries
            ≡ remove_entry (is_at (nat_cmp line)) self.old.map.entries) }
        ensures index { OnOk result (IsIndexed self.new) }
        ensures same { IfOk result
            (λ waiting. IfNone waiting (self.new.map.entries ≡ self.old.map.entries)) }
    {
        let waiting = self.map.remove(&line);
        let old = keys_in(self.alloc, &waiting)?;
        self.move_line(line, old, no_keys())?;
        Ok(waiting)
    }

    /// The operation of a line waits.
    pub(crate) fn set_wait(&mut self, line: u64, what: Wait) -> Result<(), AwaitingFault>
        requires { IsIndexed self.old }
        ensures map { OnOk result (self.new.map.entries ≡ wait_in line what self.old.map.entries) }
        ensures index { OnOk result (IsIndexed self.new) }
    {
        let Some(waiting) = self.get(line) else {
            return Ok(());
        };
        let old = cause_of(waiting);
        let cause = wait_cause(waiting.shard, waiting.operation.op(), what);
        self.waits.change(line, old, cause)?;
        set_wait(&mut self.map, line, what);
        Ok(())
    }

    /// The operation of a line takes its next step by what it sees, with the pointers that the
    /// catalogue has.
    pub(crate) fn judge(
        &mut self,
        line: u64,
        view: &OpView,
        pointers: &[Address],
        how: &Next,
    ) -> Result<Judged, AwaitingFault>
        requires { IsIndexed self.old }
        ensures map { OnOk result (self.new.map.entries
            ≡ judge_in how.now pointers.now view.now line self.old.map.entries) }
        ensures index { OnOk result (IsIndexed self.new) }
        ensures step { (w : Waiting) → found_in self.old.map.entries line ≡ Some w
            → IfOk result (λ judged. judged.step
            ≡ next_step how.now pointers.now view.now w.operation) }
        ensures helds { (w : Waiting) → found_in self.old.map.entries line ≡ Some w
            → IfOk result (λ judged. judged.helds
            ≡ given_by judged.step (gained view.now pointers.now w.operation.op)) }
    {
        judge_in(self.alloc, &mut self.map, line, view, pointers, how)
    }

    /// The operations of a shard start again, but for one whose entry still stands in the lead's list,
    /// of which this is the last number. The others are not looked at.
    pub(crate) fn restart(&mut self, shard: u8, last: u64) -> Result<(), AwaitingFault>
        requires { IsIndexed self.old }
        ensures map { OnOk result (self.new.map.entries
            ≡ map (λ e. (e.0, restarted shard last e.1)) self.old.map.entries) }
        ensures index { OnOk result (IsIndexed self.new) }
    {
        let mut from = 0;
        while let Some(line) = self.first_of(shard, from) {
            self.restart_one(line, last)?;
            from = next_line(line)?;
        }
        Ok(())
    }

    /// The first line from this one on of an operation of a shard. None exactly where there is none.
    /// It takes no memory.
    fn first_of(&self, shard: u8, from: u64) -> Option<u64>
        requires { IsIndexed self.now }
        ensures first { IsFirstFrom from (passes (λ w. w.shard == shard) self.now.map.entries) result }
        ensures ordered { IsStrictlySortedBy nat_cmp (keys_of self.now.map.entries) }
    {
        let _ordered = self.map.len();
        self.shards.first(shard, from)
    }

    /// The operation of a line starts again, but for one whose entry still stands in the lead's list,
    /// of which this is the last number.
    fn restart_one(&mut self, line: u64, last: u64) -> Result<(), AwaitingFault>
        requires { IsIndexed self.old }
        ensures map { OnOk result
            (self.new.map.entries ≡ again_in line last self.old.map.entries) }
        ensures index { OnOk result (IsIndexed self.new) }
    {
        let Some(waiting) = self.map.get(&line) else {
            return Ok(());
        };
        if is_within(last, waiting.wait) {
            return Ok(());
        }
        self.set_wait(line, Wait::View)
    }

    /// A line that stood by some keys stands by others.
    fn move_line(&mut self, line: u64, from: Keys, to: Keys) -> Result<(), AwaitingFault>
        ensures map { self.new.map ≡ self.old.map }
        ensures index { (before after : List (ℕ × Waiting)) (put : Option Waiting)
            → IsIndexedIn before self.old → from ≡ keys_in (found_in before line) → to ≡ keys_in put
            → IsPutAt line put before after → OnOk result (IsIndexedIn after self.new) }
    {
        self.sessions.change(line, from.session, to.session)?;
        self.waits.change(line, from.cause, to.cause)?;
        self.stored.change(line, from.stored, to.stored)?;
        self.shards.change(line, from.shard, to.shard)?;
        Ok(())
    }
}

/// The operation of a line waits. It takes no memory.
fn set_wait(map: &mut BTreeMap<u64, Waiting>, line: u64, what: Wait)
    ensures { map.new.entries ≡ wait_in line what map.old.entries }
{
    if let Some(waiting) = map.get_mut(&line) {
        waiting.wait = what;
    }
}
