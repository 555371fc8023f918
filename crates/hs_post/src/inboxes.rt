//! For each peer and for each shard the numbers of the messages to it.
ghost use Rattle.std.specs.Prelude.{◌≡◌, ℕ, false, OnOk, OnErr};
ghost use Rattle.hs_post.specs.First.{IsFirst};
ghost use Rattle.hs_post.specs.Inboxes.{PutsIn, TakesOut, has};

use crate::Message;
use crate::numbers::Numbers;
use std::alloc::{AllocError, Global};
use std::marker::Model;

/// For each peer the numbers of the Copies and Haves for it, and for each shard those of the Rounds.
#[derive(Debug, Drop)]
pub(crate) struct Inboxes {
    peers: Numbers,
    shards: Numbers,
}

impl Model for Inboxes {
    ghost use Rattle.hs_post.specs.Inboxes.{Inboxes};

    ghost Value = { Inboxes };

    ghost view = { λ a. record { peers = a.peers; shards = a.shards } };
}

impl Inboxes {
    /// No number. It takes no memory.
    pub(crate) fn new(alloc: Global) -> Inboxes
        ensures peers { (to n : ℕ) → has result.peers to n ≡ false }
        ensures shards { (to n : ℕ) → has result.shards to n ≡ false }
    {
        Inboxes {
            peers: Numbers::new(alloc),
            shards: Numbers::new(alloc),
        }
    }

    /// Adds a message's number. Without memory nothing changes.
    pub(crate) fn add(&mut self, message: &Message, number: u64) -> Result<(), AllocError>
        ensures ok { OnOk result (PutsIn self.old self.new message.now number) }
        ensures same { OnErr result (self.new ≡ self.old) }
    {
        match message {
            Message::Copy { to, .. } => self.peers.add(usize::from(*to), number),
            Message::Have { to, .. } => self.peers.add(usize::from(*to), number),
            Message::Round { to, .. } => self.shards.add(usize::from(*to), number),
        }
    }

    /// Takes a message's number out. It takes no memory.
    pub(crate) fn remove(&mut self, message: &Message, number: u64)
        ensures { TakesOut self.old self.new message.now number }
    {
        match message {
            Message::Copy { to, .. } => self.peers.remove(usize::from(*to), number),
            Message::Have { to, .. } => self.peers.remove(usize::from(*to), number),
            Message::Round { to, .. } => self.shards.remove(usize::from(*to), number),
        }
    }

    /// The least number of a Copy or Have for a peer. It takes no memory.
    pub(crate) fn first_of_peer(&self, peer: u8) -> Option<u64>
        ensures { IsFirst (has self.now.peers peer) result }
    {
        self.peers.first(usize::from(peer))
    }

    /// The least number of a Round for the lead of a shard. It takes no memory.
    pub(crate) fn first_of_shard(&self, shard: usize) -> Option<u64>
        ensures { IsFirst (has self.now.shards shard) result }
    {
        self.shards.first(shard)
    }
}
