//! The core.
ghost use Rattle.std.specs.Option.{option_copied};
ghost use Rattle.std.specs.Prelude.{◌≡◌, length, ◌*◌, IfOk, IsOkUnless, ◌≤◌, OnOk, true};
ghost use Rattle.hs_core_words.specs.Calls.{GivesUp, GoesOn, IsNextLine, Steps, ran_out};
ghost use Rattle.hs_core_state.specs.Keeping.{IsCore};
ghost use Rattle.hs_core_words.specs.Looking.{catalogue_of, first_job, front_of, known_of, sealed_of, status_of, oldest_message, open_work};
ghost use Rattle.hs_core_words.specs.Opening.{open_core};
ghost use Rattle.hs_core_words.specs.Plain.{plain_store};
ghost use Rattle.hs_core_words.specs.Records.{HasRecordRoom};
ghost use Rattle.hs_desk.specs.declared.fault.CoreFault.TheVariants as fault;
ghost use Rattle.hs_limits.specs.Shape.{IsShape};
ghost use Rattle.hs_members.specs.Members.{IsPeer, IsShard};
ghost use Rattle.hs_model.specs.Plain.{IsPlain, plain_of};
ghost use Rattle.hs_tokens.specs.Seats.{held_at, seat_of};

use crate::step::step;
use hs_core_state::State;
use hs_core_words::Event;
use hs_desk::{CoreFault, Job};
use hs_journal::{Journal, JournalEntry};
use hs_limits::{Held, Limits, ListOf, Name, PeerStatus, Shape};
use hs_model::PlainStore;
use hs_shard::Catalogue;
use std::alloc::Global;
use std::marker::Model;

/// All shards, peers, sessions, operations, messages and jobs of a store, and what was answered.
#[derive(Drop)]
pub struct Core {
    state: State,
}

impl Model for Core {
    ghost use Rattle.hs_core_words.specs.State.{Core};

    ghost Value = { Core };

    ghost view = { λ a. a.state };
}

impl Core {
    /// Opens a core. By shard it takes the catalogue of the taken log, that log's view and the number
    /// of its last entry; by peer whether it is good: all good peers of a shard have its log. Each
    /// shard with a good peer begins the view above that of its log, and its View is proposed; each
    /// peer that is not good is told of, at this moment. For a shard without a good peer the view and
    /// the number are 0, and the catalogue is the empty one. Where the journal has no room for what is
    /// told, or a shard has no good peer, the core that it gives has ended. The only fault is NoMemory,
    /// also where a view has no next one.
    pub fn open(
        alloc: Global,
        shape: Shape,
        limits: Limits,
        logs: Vec<Catalogue>,
        views: Vec<u64>,
        lengths: Vec<u64>,
        good: Vec<bool>,
        moment: u64,
    ) -> Result<Core, CoreFault>
        requires shape { IsShape shape }
        requires logs { length logs.items ≡ shape.shards }
        requires views { length views.items ≡ shape.shards }
        requires lengths { length lengths.items ≡ shape.shards }
        requires good { length good.items ≡ shape.shards * shape.copies }
        ensures ok { IfOk result (λ core. core ≡ open_core shape limits (record {
          catalogues = logs.items;
          views = views.items;
          lengths = lengths.items;
          good = good.items;
        }) moment) }
        ensures only { IsOkUnless result fault.NoMemory }
    {
        match State::open(alloc, shape, limits, logs, views, lengths, good, moment) {
            Ok(state) => Ok(Core { state }),
            Err(fault) => Err(fault),
        }
    }

    /// Does one event at a moment. What it answers is appended to the journal at its end, all or none.
    /// Where the journal has no room for it (OpsFull), where a shard has no good peer (ShardLost) and
    /// where there is no memory (NoMemory) the core has ended, and every later call answers the same
    /// fault and changes nothing. After ShardLost the event has happened, and its entries stand in the
    /// journal; after the others the journal is as it was. A number that has no next one counts as
    /// want of memory, and so do an entry that its catalogue can't take, and more root records of a
    /// shard, with the Roots that wait, than it takes.
    pub fn step(&mut self, event: Event, moment: u64) -> Result<(), CoreFault>
        requires moment { self.old.moment ≤ moment }
        requires line { IsNextLine self.old event }

        ensures steps { Steps event moment self.old self.new result }
        ensures gave_up { ran_out self.old result ≡ true
            → GivesUp event moment self.old self.new }
        ensures goes { GoesOn event moment self.old self.new }
        // Where the core goes on, no shard has more root records than it takes.
        ensures room { OnOk result (HasRecordRoom self.new) }
    {
        step(&mut self.state, event, moment)
    }

    /// What all shards have, as one plain store without the blocks' data and without sessions. Root
    /// records that count in no epoch any more are left out, as an enter leaves them out. The only
    /// fault is NoMemory.
    pub fn plain(&mut self) -> Result<PlainStore, CoreFault>
        ensures ok { IfOk result (λ store. plain_of store ≡ plain_store self.old) }
        ensures plain { IfOk result IsPlain }
        ensures shape { IfOk result (λ store. store.shape ≡ self.old.members.shape) }
        ensures only { IsOkUnless result fault.NoMemory }
        ensures same { self.new ≡ self.old }
    {
        match self.state.plain() {
            Ok(store) => Ok(store),
            Err(_) => Err(CoreFault::NoMemory),
        }
    }

    /// The line of the last client's operation, 0 before the first. It takes no memory.
    pub fn last_line(&self) -> u64
        ensures { result ≡ self.now.progress.last_line }
    {
        self.state.last_line()
    }

    /// The moment of the last event, that of the opening before the first. It takes no memory.
    pub fn last_moment(&self) -> u64
        ensures { result ≡ self.now.moment }
    {
        self.state.last_moment()
    }

    /// Why the core has ended. None exactly until a fault has ended it. It takes no memory.
    pub fn ended(&self) -> Option<CoreFault>
        ensures { result ≡ self.now.ended }
    {
        self.state.ended()
    }

    /// What was answered. It takes no memory.
    pub fn journal(&self) -> &Journal
        ensures { result.now.entries ≡ self.now.journal }
    {
        self.state.journal()
    }

    /// The entries that the event refused as OpsFull would have made, none where none was refused
    /// so. It takes no memory.
    pub fn refused(&self) -> &[JournalEntry]
        ensures { result.now ≡ self.now.refused }
    {
        self.state.refused()
    }

    /// What was answered, and the entries that the event refused as OpsFull would have made: all that
    /// is asked of a core at its end. It takes no memory.
    pub fn into_told(self) -> (Journal, ListOf<JournalEntry>)
        ensures journal { result.0.entries ≡ self.journal }
        ensures refused { result.1 ≡ self.refused }
    {
        self.state.into_told()
    }

    /// What a peer is. It takes no memory.
    pub fn status(&self, peer: u8) -> PeerStatus
        requires { IsPeer self.now.members.shape peer }
        ensures { result ≡ status_of peer self.now }
    {
        self.state.status(peer)
    }

    /// What has taken effect in a shard. It takes no memory.
    pub fn catalogue(&self, shard: u8) -> &Catalogue
        requires { IsShard self.now.members.shape shard }
        ensures { result.now ≡ catalogue_of shard self.now }
    {
        self.state.catalogue(shard)
    }

    /// What a handle of a session stands for. None exactly where the session does not hold it. It
    /// takes no memory.
    pub fn held(&self, session: &Name, handle: u32) -> Option<Held>
        ensures { result ≡ held_at (seat_of session.now self.now.sessions) handle }
    {
        self.state.held(session, handle)
    }

    /// How many entries a peer has sealed. It takes no memory.
    pub fn sealed(&self, peer: u8) -> u64
        requires { IsPeer self.now.members.shape peer }
        ensures { result ≡ sealed_of peer self.now }
    {
        self.state.sealed(peer)
    }

    /// How many entries the lead of a peer's shard knows the peer to have sealed. It takes no memory.
    pub fn known(&self, peer: u8) -> u64
        requires { IsPeer self.now.members.shape peer }
        ensures { result ≡ known_of peer self.now }
    {
        self.state.known(peer)
    }

    /// The number of a shard's last entry that has taken effect, those of the taken log included. It
    /// takes no memory.
    pub fn front(&self, shard: u8) -> u64
        requires { IsShard self.now.members.shape shard }
        ensures { result ≡ front_of shard self.now }
    {
        self.state.front(shard)
    }

    /// The first job of a peer: a joining one has its copying steps alone. None exactly where it has
    /// no job. It takes no memory.
    pub fn first_job(&self, peer: u8) -> Option<&Job>
        requires { IsPeer self.now.members.shape peer }
        ensures { option_copied result ≡ first_job peer self.now }
    {
        self.state.first_job(peer)
    }

    /// The shape of the store. It takes no memory.
    pub fn shape(&self) -> Shape
        ensures value { result ≡ self.now.members.shape }
        ensures kept { IsCore self.now }
    {
        self.state.shape()
    }

    /// The number of the oldest message for a peer. None exactly where there is none. It takes no
    /// memory.
    pub fn oldest_for(&self, peer: u8) -> Option<u64>
        requires { IsPeer self.now.members.shape peer }
        ensures { result ≡ oldest_message peer self.now }
    {
        self.state.oldest_for(peer)
    }

    /// Whether something is open: an operation without an answer, an entry that has not taken effect,
    /// a shard that has not swept the greatest epoch, or a peer that is joining. It takes no memory.
    pub fn open_work(&self) -> bool
        ensures { result ≡ open_work self.now }
    {
        self.state.open_work()
    }
}
