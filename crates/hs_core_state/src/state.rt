//! The core.
ghost use Rattle.std.specs.Option.{option_copied};
ghost use Rattle.std.specs.Prelude.{◌≡◌};
ghost use Rattle.hs_core_state.specs.Keeping.{IsCore};
ghost use Rattle.hs_core_words.specs.Looking.{catalogue_of, first_job, front_of, group_of, home, known_of, sealed_of, status_of};
ghost use Rattle.hs_members.specs.Members.{IsPeer, IsShard, has_good};
ghost use Rattle.hs_replica.specs.Group.{IsHome};
ghost use Rattle.hs_tokens.specs.Seats.{held_at, seat_of};

use crate::queue::Queue;
use hs_awaiting::Operations;
use hs_desk::{CoreFault, Job};
use hs_journal::{Journal, JournalEntry};
use hs_limits::{Held, Limits, ListOf, Name, PeerStatus, Shape};
use hs_members::{Members, home_of};
use hs_post::Pool;
use hs_rejoin::Rejoin;
use hs_replica::Group;
use hs_shard::Catalogue;
use hs_tokens::Sessions;
use std::alloc::Global;
use std::marker::Model;

/// All shards, peers, sessions, operations, messages and jobs of a store, and what was answered.
#[derive(Drop)]
pub struct State {
    pub(crate) limits: Limits,
    pub(crate) members: Members,
    pub(crate) catalogues: Vec<Catalogue>,
    pub(crate) groups: Vec<Group>,
    /// The number of each shard's last entry that has taken effect.
    pub(crate) fronts: Vec<u64>,
    pub(crate) viewed: Vec<bool>,
    pub(crate) tasks: Vec<Queue>,
    pub(crate) rejoins: Vec<Option<Rejoin>>,
    /// The next copying step of each peer, so that it can be lent.
    pub(crate) steps: Vec<Option<Job>>,
    pub(crate) pool: Pool,
    pub(crate) sessions: Sessions,
    pub(crate) operations: Operations,
    pub(crate) journal: Journal,
    pub(crate) entries: Vec<JournalEntry>,
    pub(crate) refused: Vec<JournalEntry>,
    pub(crate) ended: Option<CoreFault>,
    pub(crate) moment: u64,
    pub(crate) last_line: u64,
    pub(crate) event_line: u64,
    pub(crate) alloc: Global,
}

impl Model for State {
    ghost use Rattle.std.specs.Prelude.{◌≡◌};
    ghost use Rattle.hs_core_state.specs.Keeping.{AreFronts, AreSteps, IsCore};
    ghost use Rattle.hs_core_state.specs.Placed.{AreWithin};
    ghost use Rattle.hs_core_words.specs.State.{Core};

    ghost Value = { Core };

    ghost view = { λ a. record {
      limits = a.limits;
      members = a.members;
      catalogues = a.catalogues.items;
      groups = a.groups.items;
      tasks = a.tasks.items;
      progress = record {
        viewed = a.viewed.items;
        rejoins = a.rejoins.items;
        last_line = a.last_line;
        event_line = a.event_line;
      };
      pool = a.pool;
      sessions = a.sessions.seats;
      operations = a.operations;
      journal = a.journal.entries;
      entries = a.entries.items;
      refused = a.refused.items;
      ended = a.ended;
      moment = a.moment;
    } };

    ghost invariant = { λ a. record {
      kept : IsCore (view a);
      fronts : AreFronts (view a) a.fronts.items;
      steps : AreSteps (view a) a.steps.items;
      sessions : a.sessions.limits ≡ a.limits;
      journal : a.journal.limit ≡ a.limits.ops;
      placed : AreWithin a.members.shape.shards a.operations;
    } };
}

impl State {
    /// The line of the last client's operation, 0 before the first. It takes no memory.
    pub fn last_line(&self) -> u64
        ensures { result ≡ self.now.progress.last_line }
    {
        self.last_line
    }

    /// The moment of the last event, that of the opening before the first. It takes no memory.
    pub fn last_moment(&self) -> u64
        ensures { result ≡ self.now.moment }
    {
        self.moment
    }

    /// Why the core has ended. None exactly until a fault has ended it. It takes no memory.
    pub fn ended(&self) -> Option<CoreFault>
        ensures { result ≡ self.now.ended }
    {
        self.ended
    }

    /// What was answered. It takes no memory.
    pub fn journal(&self) -> &Journal
        ensures { result.now.entries ≡ self.now.journal }
    {
        &self.journal
    }

    /// The entries that the event refused as OpsFull would have made, none where none was refused
    /// so. It takes no memory.
    pub fn refused(&self) -> &[JournalEntry]
        ensures { result.now ≡ self.now.refused }
    {
        self.refused.as_slice()
    }

    /// What was answered, and the entries that the event refused as OpsFull would have made: all that
    /// is asked of a core at its end. It takes no memory.
    pub fn into_told(self) -> (Journal, ListOf<JournalEntry>)
        ensures journal { result.0.entries ≡ self.journal }
        ensures refused { result.1 ≡ self.refused }
    {
        let State {
            journal,
            refused,
            ..
        } = self;
        (journal, ListOf::from_vec(refused))
    }

    /// What a peer is. It takes no memory.
    pub fn status(&self, peer: u8) -> PeerStatus
        requires { IsPeer self.now.members.shape peer }
        ensures { result ≡ status_of peer self.now }
    {
        self.members.status(peer)
    }

    /// What has taken effect in a shard. It takes no memory.
    pub fn catalogue(&self, shard: u8) -> &Catalogue
        requires { IsShard self.now.members.shape shard }
        ensures { result.now ≡ catalogue_of shard self.now }
    {
        &self.catalogues[usize::from(shard)]
    }

    /// What a handle of a session stands for. None exactly where the session does not hold it. It
    /// takes no memory.
    pub fn held(&self, session: &Name, handle: u32) -> Option<Held>
        ensures { result ≡ held_at (seat_of session.now self.now.sessions) handle }
    {
        self.sessions.find(session, handle).ok()
    }

    /// How many entries a peer has sealed. It takes no memory.
    pub fn sealed(&self, peer: u8) -> u64
        requires { IsPeer self.now.members.shape peer }
        ensures { result ≡ sealed_of peer self.now }
    {
        self.groups[usize::from(self.home(peer))].sealed(peer)
    }

    /// How many entries the lead of a peer's shard knows the peer to have sealed. It takes no memory.
    pub fn known(&self, peer: u8) -> u64
        requires { IsPeer self.now.members.shape peer }
        ensures { result ≡ known_of peer self.now }
    {
        self.groups[usize::from(self.home(peer))].known(peer)
    }

    /// The number of a shard's last entry that has taken effect, those of the taken log included. It
    /// takes no memory.
    pub fn front(&self, shard: u8) -> u64
        requires { IsShard self.now.members.shape shard }
        ensures { result ≡ front_of shard self.now }
    {
        self.fronts[usize::from(shard)]
    }

    /// The first job of a peer: a joining one has its copying steps alone. None exactly where it has
    /// no job. It takes no memory.
    pub fn first_job(&self, peer: u8) -> Option<&Job>
        requires { IsPeer self.now.members.shape peer }
        ensures { option_copied result ≡ first_job peer self.now }
    {
        if self.members.status(peer) == PeerStatus::Joining {
            return self.steps[usize::from(peer)].as_ref();
        }
        match self.tasks[usize::from(peer)].first() {
            Some(task) => Some(&task.job),
            None => None,
        }
    }

    /// The copies of a shard's list.
    pub fn group(&self, shard: u8) -> &Group
        requires { IsShard self.now.members.shape shard }
        ensures { result.now ≡ group_of shard self.now }
    {
        &self.groups[usize::from(shard)]
    }

    /// The shape of the store. It takes no memory.
    pub fn shape(&self) -> Shape
        ensures value { result ≡ self.now.members.shape }
        ensures kept { IsCore self.now }
    {
        self.members.shape()
    }

    /// The shard that a peer keeps a copy of.
    pub fn home(&self, peer: u8) -> u8
        requires { IsPeer self.now.members.shape peer }
        ensures home { result ≡ home peer self.now }
        ensures shard { IsShard self.now.members.shape result }
        ensures group { IsHome (group_of result self.now) peer }
    {
        home_of(peer, self.members.shape())
    }

    /// The line of the last event that had one, 0 before the first. It takes no memory.
    pub fn event_line(&self) -> u64
        ensures { result ≡ self.now.progress.event_line }
    {
        self.event_line
    }

    /// Where memory comes from. It takes no memory.
    pub fn alloc(&self) -> Global {
        self.alloc
    }

    /// Whether a shard has a good peer. It takes no memory.
    pub fn has_good(&self, shard: u8) -> bool
        requires { IsShard self.now.members.shape shard }
        ensures { result ≡ has_good shard self.now.members }
    {
        self.members.has_good(shard)
    }
}
