//! The plain store in memory: what `judge` says, over ordered maps.
ghost use Rattle.std.specs.Prelude.{◌≡◌, IfOk, OnOk};
ghost use Rattle.hs_limits.specs.Shape.{IsShape};
ghost use Rattle.hs_model.specs.Judge.{judge, held_or, nothing};
ghost use Rattle.hs_model.specs.Store.{empty_store, epoch_at, root_epoch};

mod close;
mod count;
mod deed;
mod deed_block;
mod deed_run;
mod delete;
mod drop_root;
mod enter;
mod forget;
mod held;
mod look;
mod name;
mod open;
mod read;
mod root;
mod stat;
mod sweep;
mod told;
mod write;

use crate::Answer;
use crate::blocks::Blocks;
use crate::roots::Roots;
use crate::seat::Seat;
use hs_limits::{Address, Held, Key, Limits, Name, Shape, shard_of, shard_of_key};
use hs_model::{ModelFault, Op};
use std::alloc::Global;
use std::collections::BTreeMap;
use std::marker::Model;

/// A store that keeps everything in memory, in ordered maps. Blocks and retained roots are counted
/// by shard as they come and go: no operation goes over all of them, or over all sessions. Delete
/// goes over the roots that were dropped.
#[derive(Drop)]
pub struct MemoryStore {
    blocks: Blocks,
    given: BTreeMap<Address, u64>,
    roots: Roots,
    epochs: Vec<u64>,
    swept: Vec<u64>,
    sessions: BTreeMap<Name, Seat>,
    shape: Shape,
    alloc: Global,
}

impl Model for MemoryStore {
    ghost use Rattle.std.specs.Prelude.{◌≡◌, length};
    ghost use Rattle.hs_limits.specs.Shape.{IsShape};
    ghost use Rattle.hs_model.specs.Store.{Store};

    ghost Value = { Store };

    ghost view = { λ a. record {
      blocks = a.blocks.entries;
      given = a.given.entries;
      roots = a.roots.roots;
      epochs = a.epochs.items;
      swept = a.swept.items;
      sessions = a.sessions.entries;
    } };

    ghost invariant = { λ a. record {
      shape : IsShape a.shape;
      epochs : length a.epochs.items ≡ a.shape.shards;
      swept : length a.swept.items ≡ a.shape.shards;
      blocks : a.blocks.shards ≡ a.shape.shards;
      roots : a.roots.shards ≡ a.shape.shards;
    } };
}

impl MemoryStore {
    /// A store with nothing in it.
    pub fn new(alloc: Global, shape: Shape) -> Result<MemoryStore, ModelFault>
        requires { IsShape shape }
        ensures { IfOk result (λ store. store ≡ empty_store shape.shards) }
    {
        let shards = usize::from(shape.shards);
        Ok(MemoryStore {
            blocks: Blocks::new(alloc, shape)?,
            given: BTreeMap::new(alloc),
            roots: Roots::new(alloc, shape)?,
            epochs: vec![in alloc; 1; shards]?,
            swept: vec![in alloc; 1; shards]?,
            sessions: BTreeMap::new(alloc),
            shape,
            alloc,
        })
    }

    /// Judges an operation, and does it where it is not refused. The only fault is NoMemory, also
    /// where a session has no handle number left, or more sessions are open than `stat` can tell;
    /// after it nothing is said of the store.
    pub fn judge(&mut self, limits: Limits, op: Op) -> Result<Answer, ModelFault>
        ensures reply { IfOk result (λ answer. answer.reply ≡ (judge limits self.old op).reply) }
        ensures deed { IfOk result (λ answer. answer.deed ≡ (judge limits self.old op).deed) }
        ensures store { OnOk result (self.new ≡ (judge limits self.old op).store) }
    {
        match op {
            Op::Open { session } => self.open(limits, session),
            Op::Close { session } => self.close(session),
            Op::Write {
                session,
                payload,
                handles,
                address,
            } => self.write(limits, session, payload, handles, address),
            Op::Read { session, handle } => self.read(limits, session, handle),
            Op::Look { session, key } => self.look(limits, session, key),
            Op::Root {
                session,
                key,
                handle,
            } => self.root(limits, session, key, handle),
            Op::Drop { key } => self.drop_root(key),
            Op::Forget { session, handle } => self.forget(session, handle),
            Op::Name { session, handle } => self.name(session, handle),
            Op::Delete => self.delete(limits),
            Op::Stat => self.stat(),
        }
    }

    /// What a handle stands for, and the zero address in epoch 0 where it is not held.
    fn held_or(&self, session: &Name, handle: u32) -> Held
        ensures { result ≡ held_or self.now session.now handle }
    {
        let Some(seat) = self.sessions.get(session) else {
            return nothing();
        };
        seat.held(handle).unwrap_or(nothing())
    }

    /// The epoch of an address's shard.
    fn epoch_at(&self, address: &Address) -> u64
        ensures { result ≡ epoch_at self.now address.now }
    {
        let shard = shard_of(address, self.shape);
        self.epochs[usize::from(shard)]
    }

    /// The epoch of a root's shard.
    fn root_epoch(&self, key: &Key) -> u64
        ensures { result ≡ root_epoch self.now key.now }
    {
        let shard = shard_of_key(key, self.shape);
        self.epochs[usize::from(shard)]
    }
}

/// What stands for what is not held.
fn nothing() -> Held
    ensures { result ≡ nothing }
{
    Held {
        address: Address([0; 32]),
        epoch: 0,
    }
}
