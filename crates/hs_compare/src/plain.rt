//! Scripts that the plain store judges, apart from all machinery.
use crate::judge::Judge;
use crate::options::options_of;
use crate::pairs::address_in;
use crate::text::Text;
use hs_block::Block;
use hs_casebook::{CaseFault, Naming, Pass, is, small_of, split_word};
use hs_journal::{JournalEntry, Who};
use hs_limits::{Address, Limits, Name, Shape};
use hs_model::{Command, ModelFault, Op, Reply};
use hs_plain::{Answer, MemoryStore};
use hs_script::{ScriptFault, print_entry, read_line};
use std::alloc::Global;

/// A store, and what it answered so far.
#[derive(Drop)]
struct Bench {
    alloc: Global,
    store: MemoryStore,
    limits: Limits,
    naming: Naming,
    line: u64,
    text: Text,
}

/// Judges the script of a case, whose words say the shards and the limits.
pub fn judge_plain(judge: &mut Judge, pass: &Pass) {
    judge.reader.at = pass.at;
    match &mut bench_of(judge.reader.alloc, pass) {
        Some(bench) => judge_lines(judge, pass, bench),
        None => judge.refuse(pass.at, CaseFault::UnknownWord),
    }
}

/// Judges the script of a case by a store.
fn judge_lines(judge: &mut Judge, pass: &Pass, bench: &mut Bench) {
    for line in &judge.reader.split(&pass.script, b'\n') {
        let cost = bench.line.saturating_add(line.len() as u64);
        if !judge.reader.spend(cost.saturating_mul(8)) {
            break;
        }
        bench.take(line);
    }
    if !judge.has_fault() {
        judge.compare_text(pass.at, "text", &pass.wanted.text, &bench.text);
    }
}

/// An empty store with the shape and the limits that the words of a case say, where there are such
/// stores and there is memory for one.
fn bench_of(alloc: Global, pass: &Pass) -> Option<Bench> {
    let options = options_of(&pass.words)?;
    let store = store_of(alloc, options.shards, options.copies)?;
    Some(Bench {
        alloc,
        store,
        limits: options.limits,
        naming: pass.naming,
        line: 0,
        text: Text::new(alloc),
    })
}

/// An empty store of so many shards and copies.
fn store_of(alloc: Global, shards: u8, copies: u8) -> Option<MemoryStore> {
    let some_shards = shards == 1 || shards == 2 || shards == 4 || shards == 8;
    if !some_shards || copies < 1 || copies > 4 {
        return None;
    }
    MemoryStore::new(alloc, Shape { shards, copies }).ok()
}

impl Bench {
    /// Takes a line: `enter G` or `sweep G`, which has no number, or one of a script.
    fn take(&mut self, line: &[u8]) {
        let (word, rest) = split_word(line);
        match small_of(rest) {
            Some(shard) if is(word, "enter") => self.enter(shard),
            Some(shard) if is(word, "sweep") => self.sweep(shard),
            _ => self.take_numbered(line),
        }
    }

    /// Takes a line of a script. One that drives the machinery says nothing to the plain store.
    fn take_numbered(&mut self, line: &[u8]) {
        self.line = self.line.saturating_add(1);
        match read_line(self.alloc, line) {
            Ok(Some(Command::Client(op))) => self.ask(op),
            Ok(_) => {}
            Err(ScriptFault::BadLine) => self.text.put_form("# bad\n", &[self.line]),
            Err(ScriptFault::NoMemory) => self.text.cut(),
        }
    }

    /// Enters a shard's next epoch, where it may.
    fn enter(&mut self, shard: u8) {
        if !self.store.may_enter(shard) {
            return self.text.put("- early\n");
        }
        let answer = self.store.enter(shard);
        self.print(Who::Shard(shard), answer);
    }

    /// Sweeps a shard's epoch, where it may.
    fn sweep(&mut self, shard: u8) {
        if !self.store.may_sweep(shard) {
            return self.text.put("- early\n");
        }
        let answer = self.store.sweep(shard);
        self.print(Who::Shard(shard), answer);
    }

    /// Asks the store, and prints what it answers.
    fn ask(&mut self, op: Op) {
        let mut op = op;
        self.name_block(&mut op);
        let answer = self.store.judge(self.limits, op);
        self.print(Who::Line(self.line), answer);
    }

    /// Prints an answer.
    fn print(&mut self, who: Who, answer: Result<Answer, ModelFault>) {
        match answer {
            Ok(Answer { reply, deed }) => self.print_entry(&JournalEntry {
                who,
                moment: 0,
                deed,
                reply,
            }),
            Err(_) => self.text.cut(),
        }
    }

    /// Prints an entry.
    fn print_entry(&mut self, entry: &JournalEntry) {
        let mut line = Vec::new(self.alloc);
        match print_entry(entry, &mut line) {
            Ok(()) => self.text.put_bytes(&line),
            Err(_) => self.text.cut(),
        }
    }

    /// Gives a write that makes a block the address of that block.
    fn name_block(&mut self, op: &mut Op) {
        if let Op::Write {
            session,
            payload,
            handles,
            address,
        } = op
        {
            *address = self.address_of(session, payload.as_slice(), handles.as_slice());
        }
    }

    /// The address of the block of these data, with pointers to what these handles stand for.
    fn address_of(&mut self, session: &Name, bytes: &[u8], handles: &[u32]) -> Option<Address> {
        let mut pointers = Vec::new(self.alloc);
        for handle in handles {
            let pointer = self.pointer_of(session, *handle)?;
            if pointers.push(pointer).is_err() {
                return None;
            }
        }
        self.address_made(&pointers, bytes)
    }

    /// The address of the block of these data and pointers.
    fn address_made(&mut self, pointers: &[Address], bytes: &[u8]) -> Option<Address> {
        let block = Block::make(self.alloc, pointers, bytes).ok()?;
        let mut spelling = Vec::new(self.alloc);
        if block.write(&mut spelling).is_err() {
            return None;
        }
        Some(address_in(self.naming, &spelling))
    }

    /// The address that a handle stands for, as the store answers `name`.
    fn pointer_of(&mut self, session: &Name, handle: u32) -> Option<Address> {
        let session = session.copy(self.alloc).ok()?;
        self.address_told(Op::Name { session, handle })
    }

    /// The address that the store answers.
    fn address_told(&mut self, op: Op) -> Option<Address> {
        match self.store.judge(self.limits, op) {
            Ok(answer) => address_in_reply(&answer.reply),
            Err(_) => None,
        }
    }
}

/// The address that a reply tells.
fn address_in_reply(reply: &Reply) -> Option<Address> {
    match reply {
        Reply::Name { address } => Some(*address),
        _ => None,
    }
}
