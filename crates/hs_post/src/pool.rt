//! The messages under way, by number.
ghost use Rattle.std.specs.Prelude.{◌≡◌, ◌≢◌, ◌&&◌, [], IfErr, IfOk, IfSome, IsOkUnless, IsTrue, None, OnErr, OnOk, false, if◌then◌else◌, is_some, ok_or};
ghost use Rattle.std.specs.Option.{option_copied};
ghost use Rattle.hs_post.specs.First.{IsFirst, earlier};
ghost use Rattle.hs_post.specs.Inboxes.{is_lead, is_round};
ghost use Rattle.hs_post.specs.Pool.{IsPool, drop_for, empty_pool, is_due, is_empty, is_full, message_at, number_sent, oldest_for, repeat, repeat_refusal, restart_numbers, send, without};

use crate::inboxes::Inboxes;
use crate::{Message, PostFault};
use std::alloc::Global;
use std::collections::BTreeMap;
use std::marker::Model;

/// The messages under way, each under its number.
#[derive(Drop)]
pub struct Pool {
    messages: BTreeMap<u64, Message>,
    inboxes: Inboxes,
    next: u64,
    limit: u32,
    alloc: Global,
}

impl Model for Pool {
    ghost use Rattle.hs_post.specs.Inboxes.{AreOf};
    ghost use Rattle.hs_post.specs.Pool.{IsPool, Pool};

    ghost Value = { Pool };

    ghost view = { λ a. record {
      messages = a.messages.entries;
      next = a.next;
      limit = a.limit;
    } };

    ghost invariant = { λ a.
        let pool : Pool = record { messages = a.messages.entries; next = a.next; limit = a.limit } in
        record { valid : IsPool pool; inboxes : AreOf a.inboxes pool } };
}

impl Pool {
    /// No message, with room for `limit`. The first gets the number 1. It takes no memory.
    pub fn new(alloc: Global, limit: u32) -> Pool
        ensures { result ≡ empty_pool limit }
    {
        Pool {
            messages: BTreeMap::new(alloc),
            inboxes: Inboxes::new(alloc),
            next: 1,
            limit,
            alloc,
        }
    }

    /// Whether there are as many messages as the limit. It takes no memory.
    pub fn is_full(&self) -> bool
        ensures value { result ≡ is_full self.now }
        ensures valid { IsPool self.now }
    {
        self.messages.len() >= self.limit as usize
    }

    /// Whether there is no message. It takes no memory.
    pub fn is_empty(&self) -> bool
        ensures { result ≡ is_empty self.now }
    {
        self.messages.is_empty()
    }

    /// The message of a number. None exactly where there is none. It takes no memory.
    pub fn message(&self, number: u64) -> Option<&Message>
        ensures { option_copied result ≡ message_at number self.now }
    {
        self.messages.get(&number)
    }

    /// Sends a message under the next number. None exactly where the pool is full: then the message
    /// is lost, and uses no number.
    pub fn send(&mut self, message: Message) -> Result<Option<u64>, PostFault>
        ensures ok { OnOk result (self.new ≡ send message self.old) }
        ensures number { IfOk result (λ number. number ≡ number_sent self.old) }

        ensures err { IsOkUnless result PostFault.NoMemory }
        ensures same { OnErr result (self.new ≡ self.old) }
    {
        if self.is_full() {
            return Ok(None);
        }
        let number = self.push(message)?;
        Ok(Some(number))
    }

    /// Takes a message out of the pool.
    pub fn take(&mut self, number: u64) -> Result<Message, PostFault>
        ensures answer { result ≡ ok_or (message_at number self.old) PostFault.NoMessage }
        ensures rest { self.new ≡ without number self.old }
    {
        self.remove(number).ok_or(PostFault::NoMessage)
    }

    /// Loses a message. It takes no memory.
    pub fn lose(&mut self, number: u64) -> Result<(), PostFault>
        ensures answer { result
            ≡ (if is_some (message_at number self.old) then Ok tt else Err PostFault.NoMessage) }
        ensures rest { self.new ≡ without number self.old }
    {
        match self.remove(number) {
            Some(_) => Ok(()),
            None => Err(PostFault::NoMessage),
        }
    }

    /// Sends a message once more, under the next number. It refuses NoMessage, then PoolFull.
    pub fn repeat(&mut self, number: u64) -> Result<u64, PostFault>
        ensures ok { OnOk result (self.new ≡ repeat number self.old) }
        ensures number { IfOk result (λ again. again ≡ self.old.next) }
        ensures only { OnOk result (repeat_refusal number self.old ≡ None) }

        ensures refused { IfSome (repeat_refusal number self.old) (λ fault. result ≡ Err fault) }
        ensures cause { IfErr result (λ fault. fault ≢ PostFault.NoMemory
            → repeat_refusal number self.old ≡ Some fault) }
        ensures same { OnErr result (self.new ≡ self.old) }
    {
        let Some(message) = self.messages.get(&number) else {
            return Err(PostFault::NoMessage);
        };
        if self.is_full() {
            return Err(PostFault::PoolFull { limit: self.limit });
        }
        let again = message.copy(self.alloc)?;
        self.push(again)
    }

    /// Takes out the Copies and Haves for a peer, at the cost of these alone. It takes no memory.
    pub fn drop_for(&mut self, peer: u8)
        ensures { self.new ≡ drop_for peer self.old }
    {
        while let Some(number) = self.oldest_of(peer) {
            self.forget(number);
        }
    }

    /// The number of the oldest message for a peer, where `leads` are the leads of the shards: the
    /// Copies and Haves for it, and the Rounds for the shards that it leads. It takes no memory.
    pub fn oldest_for(&self, peer: u8, leads: &[Option<u8>]) -> Option<u64>
        ensures value { result ≡ oldest_for peer leads.now self.now }
        ensures first { IsFirst (is_due peer leads.now self.now) result }
    {
        let mut oldest = self.oldest_of(peer);
        for (shard, lead) in leads.iter().enumerate() {
            oldest = earlier(oldest, self.oldest_round(peer, *lead, shard));
        }
        oldest
    }

    /// Lets the next message have the number 1.
    pub fn restart_numbers(&mut self)
        requires { self.old.messages ≡ [] }
        ensures { self.new ≡ restart_numbers self.old }
    {
        self.next = 1;
    }

    /// Puts a message under the next number.
    fn push(&mut self, message: Message) -> Result<u64, PostFault>
        requires { is_full self.old ≡ false }
        ensures ok { OnOk result (self.new ≡ send message self.old) }
        ensures number { IfOk result (λ number. number ≡ self.old.next) }
        ensures err { IsOkUnless result PostFault.NoMemory }
        ensures same { OnErr result (self.new ≡ self.old) }
    {
        let number = self.next;
        let Some(next) = number.checked_add(1) else {
            return Err(PostFault::NoMemory);
        };
        self.inboxes.add(&message, number)?;
        if let Err(refused) = self.messages.insert(number, message) {
            let (number, message) = refused.value;
            self.inboxes.remove(&message, number);
            return Err(PostFault::NoMemory);
        }
        self.next = next;
        Ok(number)
    }

    /// Takes a message out, if there is one of this number.
    fn remove(&mut self, number: u64) -> Option<Message>
        ensures message { result ≡ message_at number self.old }
        ensures rest { self.new ≡ without number self.old }
    {
        let message = self.messages.remove(&number)?;
        self.inboxes.remove(&message, number);
        Some(message)
    }

    /// Takes a message out and lets it go.
    fn forget(&mut self, number: u64)
        ensures { self.new ≡ without number self.old }
    {
        self.remove(number);
    }

    /// The number of the oldest Copy or Have for a peer.
    fn oldest_of(&self, peer: u8) -> Option<u64>
        ensures first { IsFirst (is_due peer [] self.now) result }
        ensures valid { IsPool self.now }
    {
        self.inboxes.first_of_peer(peer)
    }

    /// The number of the oldest Round for a shard, where its lead is this peer.
    fn oldest_round(&self, peer: u8, lead: Option<u8>, shard: usize) -> Option<u64>
        ensures { IsFirst (λ n. is_lead peer lead && is_round shard self.now n) result }
    {
        if lead == Some(peer) {
            self.inboxes.first_of_shard(shard)
        } else {
            None
        }
    }
}

/// The lesser of two numbers, where there are any.
fn earlier(a: Option<u64>, b: Option<u64>) -> Option<u64>
    ensures { result ≡ earlier a b }
{
    match (a, b) {
        (Some(a), Some(b)) => Some(a.min(b)),
        (Some(a), None) => Some(a),
        (None, b) => b,
    }
}
