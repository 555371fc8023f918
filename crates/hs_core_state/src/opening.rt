//! Opening a core.
ghost use Rattle.std.specs.Prelude.{◌≡◌, ◌*◌, ℕ, false, length, IfOk, IsOkUnless};
ghost use Rattle.hs_core_state.specs.Anew.{AreOfAll, with_lists};
ghost use Rattle.hs_core_words.specs.Opening.{Taken, new_core, open_core};
ghost use Rattle.hs_desk.specs.declared.fault.CoreFault.TheVariants as fault;
ghost use Rattle.hs_limits.specs.declared.shape.Shape.{Shape};
ghost use Rattle.hs_limits.specs.Shape.{IsShape};
ghost use Rattle.hs_members.specs.Members.{is_joining, status};

use crate::State;
use crate::lists::Lists;
use crate::new_core::{no_rejoins, no_steps};
use crate::new_lists::new_lists;
use crate::no_memory::NoMemory;
use hs_awaiting::Operations;
use hs_desk::CoreFault;
use hs_journal::Journal;
use hs_limits::{Limits, Shape};
use hs_shard::Catalogue;
use hs_tokens::Sessions;
use std::alloc::Global;

impl State {
    /// Opens a core. By shard it takes the catalogue of the taken log, that log's view and the number
    /// of its last entry; by peer whether it is good: all good peers of a shard have its log. Each
    /// shard with a good peer begins the view above that of its log, and its View is proposed; each
    /// peer that is not good is told of, at this moment. For a shard without a good peer the view and
    /// the number are 0, and the catalogue is the empty one. Where the journal has no room for what is
    /// told, or a shard has no good peer, the core that it gives has ended. The only fault is NoMemory,
    /// also where a view has no next one.
    pub fn open(
        alloc: Global,
        shape: Shape,
        limits: Limits,
        logs: Vec<Catalogue>,
        views: Vec<u64>,
        lengths: Vec<u64>,
        good: Vec<bool>,
        moment: u64,
    ) -> Result<State, CoreFault>
        requires shape { IsShape shape }
        requires logs { length logs.items ≡ shape.shards }
        requires views { length views.items ≡ shape.shards }
        requires lengths { length lengths.items ≡ shape.shards }
        requires good { length good.items ≡ shape.shards * shape.copies }
        ensures ok { IfOk result (λ core. core ≡ open_core shape limits (record {
          catalogues = logs.items;
          views = views.items;
          lengths = lengths.items;
          good = good.items;
        }) moment) }
        ensures only { IsOkUnless result fault.NoMemory }
    {
        let lists = new_lists(
            alloc,
            shape,
            limits.pool,
            views.as_slice(),
            lengths,
            good.as_slice(),
        );
        let Ok(lists) = lists else {
            return Err(CoreFault::NoMemory);
        };
        match open_lists(alloc, shape, limits, lists, logs, moment) {
            Ok(core) => Ok(core),
            Err(_) => Err(CoreFault::NoMemory),
        }
    }
}

/// Opens a core over the lists of all shards before their first views.
fn open_lists(
    alloc: Global,
    shape: Shape,
    limits: Limits,
    lists: Lists,
    logs: Vec<Catalogue>,
    moment: u64,
) -> Result<State, NoMemory>
    requires shape { lists.members.shape ≡ shape }
    requires all { AreOfAll lists }
    requires logs { length logs.items ≡ shape.shards }
    requires joins { (peer : ℕ) → is_joining (status peer lists.members) ≡ false }
    ensures { (taken : Taken) → taken.catalogues ≡ logs.items
        → with_lists lists (new_core shape limits taken moment) ≡ new_core shape limits taken moment
        → IfOk result (λ core. core ≡ open_core shape limits taken moment) }
{
    let mut lists = lists;
    lists.begin_views()?;
    let mut core = core_of(alloc, limits, lists, logs, moment)?;
    core.note_down()?;
    core.end_event()?;
    Ok(core)
}

/// A core with these lists, in which nothing else is under way.
fn core_of(
    alloc: Global,
    limits: Limits,
    lists: Lists,
    logs: Vec<Catalogue>,
    moment: u64,
) -> Result<State, NoMemory>
    requires all { AreOfAll lists }
    requires logs { length logs.items ≡ lists.members.shape.shards }
    requires joins { (peer : ℕ) → is_joining (status peer lists.members) ≡ false }
    ensures { (shape : Shape) (taken : Taken) → lists.members.shape ≡ shape
        → taken.catalogues ≡ logs.items
        → IfOk result (λ core. core ≡ with_lists lists (new_core shape limits taken moment)) }
{
    let shape = lists.members.shape();
    let peers = shape.shards * shape.copies;
    let rejoins = no_rejoins(alloc, peers)?;
    let steps = no_steps(alloc, peers)?;
    let Lists {
        members,
        groups,
        fronts,
        viewed,
        pool,
        tasks,
    } = lists;
    Ok(State {
        limits,
        members,
        catalogues: logs,
        groups,
        fronts,
        viewed,
        tasks,
        rejoins,
        steps,
        pool,
        sessions: Sessions::new(alloc, limits),
        operations: Operations::new(alloc),
        journal: Journal::new(alloc, limits.ops),
        entries: Vec::new(alloc),
        refused: Vec::new(alloc),
        ended: None,
        moment,
        last_line: 0,
        event_line: 0,
        alloc,
    })
}
