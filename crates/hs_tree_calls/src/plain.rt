//! An asker over the plain store in memory, which tells nothing of it.
ghost use Rattle.std.specs.Prelude.{◌≡◌, ◌<◌, ◌+◌, ◌∷◌, ◌++◌, [], None, IfOk, OnErr, OnOk, length, map, vec_capacity, vec_len};
ghost use Rattle.hs_asking.specs.Telling.{MayBeTold};

use crate::answer::answer;
use crate::count::Count;
use crate::held::{Given, held_by, note_answer};
use hs_asking::Asker;
use hs_desk::CoreFault;
use hs_limits::{Held, Limits, ListOf, Name};
use hs_model::{Op, Reply};
use hs_plain::MemoryStore;
use std::alloc::Global;
use std::collections::BTreeMap;
use std::marker::Model;
use std::snapshot::Snapshot;

/// The store, and what it was asked for and answered.
#[derive(Drop)]
pub(crate) struct PlainAsker {
    store: MemoryStore,
    asked: Vec<Snapshot<Op>>,
    told: Vec<Snapshot<Reply>>,
    ended: Option<CoreFault>,
    count: Count,
    given: Given,
    session: Name,
    alloc: Global,
}

impl Model for PlainAsker {
    ghost use Rattle.std.specs.Prelude.{◌≡◌, ◌<◌, None, length, map, vec_capacity, vec_len};
    ghost use Rattle.hs_tree_calls.specs.Said.{Asking};

    ghost Value = { Asking };

    ghost view = { λ a. record {
      asked = map (λ said. said.value) a.asked.items;
      told = map (λ said. said.value) a.told.items;
      ended = a.ended;
    } };

    ghost invariant = { λ a. a.ended ≡ None → record {
      room : vec_len a.asked < vec_capacity a.asked;
      space : vec_len a.told < vec_capacity a.told;
      same : length a.told.items ≡ length a.asked.items;
    } };
}

impl PlainAsker {
    /// One that asks a store, and was asked for nothing so far.
    pub(crate) fn new(alloc: Global, store: MemoryStore) -> Result<PlainAsker, CoreFault>
        ensures { IfOk result (λ asker. asker.ended ≡ None) }
    {
        let mut asked = Vec::new(alloc);
        let mut told = Vec::new(alloc);
        asked.reserve(1)?;
        told.reserve(1)?;
        Ok(PlainAsker {
            store,
            asked,
            told,
            ended: None,
            count: Count::none(),
            given: BTreeMap::new(alloc),
            session: our_name(alloc)?,
            alloc,
        })
    }

    /// One that asks the same store anew, where the session `a` is closed.
    pub(crate) fn again(self, alloc: Global) -> Result<PlainAsker, CoreFault>
        ensures { IfOk result (λ asker. asker.ended ≡ None) }
    {
        let PlainAsker {
            mut store,
            asked: _,
            told: _,
            ended: _,
            count: _,
            given: _,
            session,
            alloc: _,
        } = self;
        match store.judge(Limits::greatest(), Op::Close { session }) {
            Ok(_) => PlainAsker::new(alloc, store),
            Err(_) => Err(CoreFault::NoMemory),
        }
    }

    /// How often it was asked for what.
    pub(crate) fn count(&self) -> Count {
        self.count
    }
}

/// The name `a`.
fn our_name(alloc: Global) -> Result<Name, CoreFault> {
    let bytes = ListOf::from_vec(Vec::from_slice(alloc, b"a")?);
    match Name::from_list(bytes) {
        Some(name) => Ok(name),
        None => Err(CoreFault::NoMemory),
    }
}

/// Asks a store, and notes the operation and its answer, with room for the next one.
fn say(
    store: &mut MemoryStore,
    asked: &mut Vec<Snapshot<Op>>,
    told: &mut Vec<Snapshot<Reply>>,
    op: Op,
) -> Result<Reply, CoreFault>
    requires room { vec_len asked.old < vec_capacity asked.old }
    requires space { vec_len told.old < vec_capacity told.old }
    ensures asked { map (λ said. said.value) asked.new.items
        ≡ map (λ said. said.value) asked.old.items ++ op ∷ [] }
    ensures told { IfOk result (λ reply. map (λ said. said.value) told.new.items
        ≡ map (λ said. said.value) told.old.items ++ reply ∷ []) }
    ensures kept { OnErr result (map (λ said. said.value) told.new.items
        ≡ map (λ said. said.value) told.old.items) }
    ensures may { IfOk result (λ reply. MayBeTold op reply) }
    ensures same { OnOk result (length told.old.items ≡ length asked.old.items →
        length told.new.items ≡ length asked.new.items) }
    ensures room { OnOk result (vec_len asked.new < vec_capacity asked.new) }
    ensures space { OnOk result (vec_len told.new < vec_capacity told.new) }
{
    asked.push(Snapshot::of(&op)).unwrap();
    asked.reserve(1)?;
    told.reserve(2)?;
    let reply = answer(store, Limits::greatest(), op)?;
    told.push(Snapshot::of(&reply)).unwrap();
    Ok(reply)
}

impl Asker for PlainAsker {
    ghost use Rattle.hs_tree_calls.specs.Said.{shows_of};

    ghost tells = { ⊥ };

    ghost shows = { λ a. shows_of a };

    fn ask(&mut self, op: Op) -> Result<Reply, CoreFault> {
        self.count.add(&op);
        let told = say(&mut self.store, &mut self.asked, &mut self.told, op);
        note_answer(
            self.alloc,
            &mut self.store,
            &self.session,
            &told,
            &mut self.given,
        );
        if let Err(fault) = told {
            self.ended = Some(fault);
        }
        told
    }

    fn held(&self, _session: &Name, handle: u32) -> Option<Held> {
        held_by(&self.given, handle)
    }

    fn known(&self) {}
}
