//! The core with the logs of its peers.
ghost use Rattle.std.specs.Option.{option_map};
ghost use Rattle.std.specs.Prelude.{◌≡◌, ◌*◌, ◌<◌, ◌≤◌, [], None, Some, false, length, IsOkUnless, OnErr, OnOk};
ghost use Rattle.hs_cache.specs.Cached.{cached};
ghost use Rattle.hs_cluster.specs.declared.fault.ClusterFault.TheVariants.{NoMemory};
ghost use Rattle.hs_cluster.specs.Resuming.{EndAsSealed};
ghost use Rattle.hs_events.specs.Due.{next_turn, peer_due};
ghost use Rattle.hs_tokens.specs.Seats.{held_at, seat_of};

use crate::ClusterFault;
use hs_cache::Cache;
use hs_core::Core;
use hs_desk::CoreFault;
use hs_events::{Due, Place, next_turn, peers_of};
use hs_journal::Journal;
use hs_limits::{Held, ListOf, Name};
use hs_model::CourseItem;
use hs_peerlog::PeerLog;
use std::alloc::Global;
use std::marker::Model;

/// The core, the log of each peer whose disk is in use, the course, and the blocks that were read
/// lately, where there is a cache. The disks are handed to each call.
#[derive(Drop)]
pub struct Cluster {
    pub(crate) alloc: Global,
    pub(crate) core: Core,
    pub(crate) logs: Vec<Option<PeerLog>>,
    pub(crate) course: Vec<CourseItem>,
    pub(crate) cache: Option<Cache>,
}

impl Model for Cluster {
    ghost use Rattle.std.specs.Prelude.{◌≡◌, ◌*◌, length};
    ghost use Rattle.hs_cluster.specs.Running.{Running};

    ghost Value = { Running };

    ghost view = { λ a. record {
      core = a.core;
      logs = a.logs.items;
      course = a.course.items;
      cache = a.cache;
    } };

    ghost invariant = { λ a.
        length a.logs.items ≡ a.core.members.shape.shards * a.core.members.shape.copies };
}

impl Cluster {
    /// What was answered. It takes no memory.
    pub fn journal(&self) -> &Journal
        ensures { result.now.entries ≡ self.now.core.journal }
    {
        self.core.journal()
    }

    /// What happened beside the answers. It takes no memory.
    pub fn course(&self) -> &[CourseItem]
        ensures { result.now ≡ self.now.course }
    {
        self.course.as_slice()
    }

    /// The core, and what happened beside the answers: all that is asked of a cluster at its end. The
    /// logs are dropped. It takes no memory.
    pub fn into_told(self) -> (Core, ListOf<CourseItem>)
        ensures core { result.0 ≡ self.core }
        ensures course { result.1 ≡ self.course }
    {
        let Cluster { core, course, .. } = self;
        (core, ListOf::from_vec(course))
    }

    /// The core, and by peer the log of its disk, where that is in use. The course is dropped. It takes
    /// no memory.
    pub fn into_parts(self) -> (Core, Vec<Option<PeerLog>>)
        ensures core { result.0 ≡ self.core }
        ensures logs { result.1.items ≡ self.logs }
    {
        let Cluster { core, logs, .. } = self;
        (core, logs)
    }

    /// The cluster of a core that goes on, with the logs of its peers: there is one for each peer that
    /// is not down, which ends with the last entry that the peer has sealed. Its course is empty, and it
    /// has no cache. It takes no memory.
    pub fn resume(alloc: Global, core: Core, logs: Vec<Option<PeerLog>>) -> Cluster
        requires going { core.ended ≡ None }
        requires count { length logs.items
            ≡ core.members.shape.shards * core.members.shape.copies }
        requires lasts { EndAsSealed core logs.items }
        ensures { result ≡ record { core = core; logs = logs.items; course = []; cache = None } }
    {
        let course = Vec::new(alloc);
        Cluster {
            alloc,
            core,
            logs,
            course,
            cache: None,
        }
    }

    /// Caches at most so many blocks that are read from now on. What was cached is so no more. Without
    /// memory all is as before.
    pub fn use_cache(&mut self, limit: u32) -> Result<(), ClusterFault>
        requires least { 0 < limit }
        ensures made { OnOk result (self.new ≡ record self.old { cache = Some (cached [] limit) }) }
        ensures same { OnErr result (self.new ≡ self.old) }
        ensures only { IsOkUnless result NoMemory }
    {
        let Ok(cache) = Cache::new(self.alloc, limit) else {
            return Err(ClusterFault::NoMemory);
        };
        self.cache = Some(cache);
        Ok(())
    }

    /// What a handle of a session stands for. None exactly where the session does not hold it. It takes
    /// no memory.
    pub fn held(&self, session: &Name, handle: u32) -> Option<Held>
        ensures { result ≡ held_at (seat_of session.now self.now.core.sessions) handle }
    {
        self.core.held(session, handle)
    }

    /// Whose turn is next where passes stand at a peer: the first one from it on, and round, that has a job
    /// or a message. None exactly where nobody has a turn. A number above that of the peers counts as 0. It
    /// takes no memory.
    pub fn next_turn(&self, peer: u8) -> Option<u8>
        ensures { peer ≤ self.now.core.members.shape.shards * self.now.core.members.shape.copies
            → result ≡ option_map peer_due
            (next_turn (record { peer = peer; nudger = 0; progress = false }) self.now.core) }
    {
        let place = Place {
            peer: within(peer, peers_of(&self.core)),
            nudger: 0,
            progress: false,
        };
        match next_turn(&self.core, place) {
            Some(due) => Some(peer_of(due)),
            None => None,
        }
    }

    /// Why the core has ended. None exactly until a fault has ended it. It takes no memory.
    pub fn ended(&self) -> Option<CoreFault>
        ensures { result ≡ self.now.core.ended }
    {
        self.core.ended()
    }
}

/// A number where it is at most another, and else 0.
fn within(number: u8, most: u8) -> u8
    ensures same { number ≤ most → result ≡ number }
    ensures most { result ≤ most }
{
    if number <= most { number } else { 0 }
}

/// Whose turn it is.
fn peer_of(due: Due) -> u8
    ensures { result ≡ peer_due due }
{
    match due {
        Due::Reporting { peer } => peer,
        Due::Handling { peer, .. } => peer,
        Due::Nudging { peer } => peer,
    }
}
