//! The copies of one shard's list.
ghost use Rattle.std.specs.Prelude.{◌≡◌, ◌+◌, ◌-◌, ◌<◌, count_by, length, map, IfOk, IfSome, OnErr, OnOk, slice_index_or};
ghost use Rattle.std.specs.List.{list_any};
ghost use Rattle.hs_entry.specs.declared.entry.Entry.TheVariants.{View};
ghost use Rattle.hs_limits.specs.Shape.{IsShape};
ghost use Rattle.hs_members.specs.Members.{IsShard};
ghost use Rattle.hs_post.specs.declared.message.Message.TheVariants.{Copy};
ghost use Rattle.hs_replica.specs.Group.{IsHome, commit_front, committed, copies_above, copy_of, first_peer, have, last_number, lead, lead_takes, length_of, new_group, no_copy, on_append, on_copied, on_emptied, on_have, on_sealed, on_view, others_from, proposal, propose, renew, resend, send_all, take_committed, takes, view_messages};
ghost use Rattle.hs_replica.specs.Kinds.{enters, is_block, is_got, is_root, stores_for};
ghost use Rattle.hs_replica.specs.Keeping.{KeepsFront, take_at, takes_at};
ghost use Rattle.hs_replica.specs.Sending.{copies_since, send_if_other};
ghost use Rattle.hs_waits.specs.Lines.{IsFirstFrom};

use crate::GroupFault;
use crate::copies::{copies_of, tell_copies};
use crate::replica::{Replica, lead_of, least_known};
use crate::sending::{Sender, Since, above, is_peer, send_copies};
use crate::stamps::view_after;
use crate::waiting::Waiting;
use hs_entry::Entry;
use hs_limits::{Shape, peer_of};
use hs_members::Members;
use hs_post::{Message, Pool};
use std::alloc::Global;
use std::marker::Model;

/// The copies of one shard's list: of each the views of its entries and how many it has sealed, and
/// in full the entries of the lead's list that were not handed out.
#[derive(Drop)]
pub struct Group {
    shape: Shape,
    shard: u8,
    view: u64,
    copies: Vec<Replica>,
    front: u64,
    waiting: Waiting,
    alloc: Global,
}

impl Model for Group {
    ghost use Rattle.hs_replica.specs.Group.{Group, IsGroup};

    ghost Value = { Group };

    ghost view = { λ a. record {
      shape = a.shape;
      shard = a.shard;
      view = a.view;
      copies = a.copies.items;
      front = a.front;
      waiting = a.waiting;
    } };

    ghost invariant = { λ a. IsGroup (record {
      shape = a.shape;
      shard = a.shard;
      view = a.view;
      copies = a.copies.items;
      front = a.front;
      waiting = a.waiting;
    }) };
}

impl Group {
    /// Every good copy has so many entries, the last of this view, all of them sealed and handed
    /// out. `good` says which copies are good, in the order of their peers. `view` is 0 where there
    /// are no entries.
    pub fn new(
        alloc: Global,
        shape: Shape,
        shard: u8,
        view: u64,
        len: u64,
        good: &[bool],
    ) -> Result<Group, GroupFault>
        requires shape { IsShape shape }
        requires shard { IsShard shape shard }
        requires good { length good.now ≡ shape.copies }
        ensures { IfOk result (λ group. group ≡ new_group shape shard view len good.now) }
    {
        Ok(Group {
            shape,
            shard,
            view,
            copies: copies_of(alloc, view, len, good)?,
            front: len,
            waiting: Waiting::new(alloc),
            alloc,
        })
    }

    /// Proposes an entry: it is the next of the lead's list, and every other good peer is sent a
    /// Copy of it. The number is that of the entry. Without memory, or where there is no next number,
    /// the group is to be given up.
    pub fn propose(&mut self, pool: &mut Pool, entry: Entry) -> Result<u64, GroupFault>
        ensures ok { OnOk result (self.new ≡ propose entry self.old) }
        ensures number { IfOk result (λ number. number ≡ last_number self.old + 1) }
        ensures sends { OnOk result (pool.new ≡ send_all (proposal entry self.old) pool.old) }
        ensures kept { KeepsFront self.old self.new }
    {
        let Some(number) = self.last_number().checked_add(1) else {
            return Err(GroupFault::NoMemory);
        };
        let lead = self.lead();
        self.send_others(pool, lead, number, &entry)?;
        self.lead_takes(lead, &entry)?;
        self.waiting.push(entry)?;
        Ok(number)
    }

    /// A Copy comes to a peer: false exactly where it is dropped, and then nothing changes. It is
    /// taken exactly where the peer is good, the view is the shard's, and the number is the next of
    /// the peer's list.
    pub fn on_append(
        &mut self,
        peer: u8,
        view: u64,
        number: u64,
        entry: &Entry,
    ) -> Result<bool, GroupFault>
        ensures ok { OnOk result (self.new ≡ on_append peer view number entry.now self.old) }
        ensures taken { IfOk result (λ taken. taken ≡ takes peer view number self.old) }
        ensures same { OnErr result (self.new ≡ self.old) }
        ensures kept { KeepsFront self.old self.new }
    {
        let Some(place) = self.place_of(peer) else {
            return Ok(false);
        };
        if !self.takes(place, view, number) {
            return Ok(false);
        }
        self.take_at(place, entry)?;
        Ok(true)
    }

    /// A peer has sealed so many entries: the lead knows its own at once, and another peer sends the
    /// lead a Have.
    pub fn on_sealed(&mut self, pool: &mut Pool, peer: u8, number: u64) -> Result<(), GroupFault>
        requires { IsHome self.old peer }
        ensures ok { OnOk result (self.new ≡ on_sealed peer number self.old) }
        ensures sends { OnOk result (pool.new ≡ send_all (have peer number self.old) pool.old) }
        ensures same { OnErr result (self.new ≡ self.old) }
        ensures kept { KeepsFront self.old self.new }
    {
        let lead = self.lead();
        self.send_have(pool, lead, peer, number)?;
        let index = self.index_of(peer);
        self.copies[index].seal(number, is_peer(peer, lead));
        Ok(())
    }

    /// A Have comes to the lead: of the shard's view and from a good peer it raises the number that
    /// the lead knows, and any other changes nothing. It takes no memory.
    pub fn on_have(&mut self, peer: u8, view: u64, sealed: u64)
        ensures value { self.new ≡ on_have peer view sealed self.old }
        ensures kept { KeepsFront self.old self.new }
    {
        let Some(index) = self.place_of(peer) else {
            return;
        };
        if view == self.view && self.copies[index].good {
            self.copies[index].known = self.copies[index].known.max(sealed);
        }
    }

    /// A new view, in which `members` tells who is good: the lead knows what each good peer has
    /// sealed, what stood above its list is gone, every other good peer is sent what stands above
    /// its own, and a View is proposed. Without memory, or where there is no next number, the group
    /// is to be given up.
    pub fn on_view(&mut self, pool: &mut Pool, members: &Members) -> Result<(), GroupFault>
        requires { members.now.shape ≡ self.old.shape }
        ensures ok { OnOk result (self.new ≡ on_view members.now self.old) }
        ensures sends { OnOk result (pool.new ≡ send_all (view_messages members.now self.old) pool.old) }
        ensures kept { KeepsFront self.old self.new }
    {
        self.renew(members);
        self.send_since(pool, Since::Length)?;
        self.propose_view(pool)?;
        Ok(())
    }

    /// Sends again: the lead what it doesn't know the other good peers to have sealed, and another
    /// peer its Have.
    pub fn resend(&self, pool: &mut Pool, peer: u8) -> Result<(), GroupFault>
        requires { IsHome self.now peer }
        ensures { OnOk result (pool.new ≡ send_all (resend peer self.now) pool.old) }
    {
        let lead = self.lead();
        if is_peer(peer, lead) {
            self.send_since(pool, Since::Known)
        } else {
            self.send_have(pool, lead, peer, self.sealed(peer))
        }
    }

    /// A joining peer's list was emptied. It takes no memory.
    pub fn on_emptied(&mut self, peer: u8)
        requires { IsHome self.old peer }
        ensures value { self.new ≡ on_emptied peer self.old }
        ensures kept { KeepsFront self.old self.new }
    {
        let index = self.index_of(peer);
        self.copies[index].clear();
    }

    /// A joining peer got the lead's entry of this number, sealed.
    pub fn on_copied(&mut self, peer: u8, number: u64) -> Result<(), GroupFault>
        requires { IsHome self.old peer }
        ensures ok { OnOk result (self.new ≡ on_copied peer number self.old) }
        ensures same { OnErr result (self.new ≡ self.old) }
        ensures kept { KeepsFront self.old self.new }
    {
        let view = match self.lead() {
            Some(lead) => self.copies[self.index_of(lead)]
                .stamps
                .get(number.saturating_sub(1)),
            None => 0,
        };
        let index = self.index_of(peer);
        self.copies[index].copy_one(view, number)
    }

    /// How far every good peer is known to have sealed; 0 where none is good. It takes no memory.
    pub fn commit_front(&self) -> u64
        ensures { result ≡ commit_front self.now }
    {
        least_known(self.copies.as_slice()).unwrap_or(0)
    }

    /// Hands out the next entry that all good peers are known to have sealed, with its number. None
    /// exactly where all of them were handed out. It takes no memory.
    pub fn take_committed(&mut self) -> Option<(u64, Entry)>
        ensures entry { result ≡ committed self.old }
        ensures rest { self.new ≡ take_committed self.old }
    {
        if self.front >= self.commit_front() {
            return None;
        }
        let entry = self.waiting.pop_front()?;
        self.front += 1;
        Some((self.front, entry))
    }

    /// The length of a peer's list. It takes no memory.
    pub fn length(&self, peer: u8) -> u64
        requires { IsHome self.now peer }
        ensures { result ≡ length_of self.now peer }
    {
        self.copies[self.index_of(peer)].stamps.len()
    }

    /// How many entries of its list a peer has sealed. It takes no memory.
    pub fn sealed(&self, peer: u8) -> u64
        requires { IsHome self.now peer }
        ensures { result ≡ (copy_of self.now peer).sealed }
    {
        self.copies[self.index_of(peer)].sealed
    }

    /// How many entries of its list the lead knows a peer to have sealed. It takes no memory.
    pub fn known(&self, peer: u8) -> u64
        requires { IsHome self.now peer }
        ensures { result ≡ (copy_of self.now peer).known }
    {
        self.copies[self.index_of(peer)].known
    }

    /// The shard's view. It takes no memory.
    pub fn view(&self) -> u64
        ensures { result ≡ self.now.view }
    {
        self.view
    }

    /// The entries of the lead's list that were not handed out, in order. It takes no memory.
    pub fn waiting(&self) -> &[Entry]
        ensures { result.now ≡ self.now.waiting }
    {
        self.waiting.as_slice()
    }

    /// How many of these are Blocks, which store blocks. It takes no memory.
    pub fn blocks_waiting(&self) -> u64
        ensures { result ≡ count_by is_block self.now.waiting }
    {
        self.waiting.blocks()
    }

    /// The first line from this one on of which one of these is a Block. None exactly where there is
    /// none. It takes no memory.
    pub fn first_block(&self, from: u64) -> Option<u64>
        ensures { IsFirstFrom from (λ n. list_any (stores_for n) self.now.waiting) result }
    {
        self.waiting.first_block(from)
    }

    /// How many of these are Roots, which put roots. It takes no memory.
    pub fn roots_waiting(&self) -> u64
        ensures { result ≡ count_by is_root self.now.waiting }
    {
        self.waiting.roots()
    }

    /// Whether one of these enters an epoch. It takes no memory.
    pub fn waits_to_enter(&self, epoch: u64) -> bool
        ensures { result ≡ list_any (enters epoch) self.now.waiting }
    {
        self.waiting.has_enter(epoch)
    }

    /// Whether one of these is the Got of a round. It takes no memory.
    pub fn waits_as_got(&self, from: u8, epoch: u64, round: u32) -> bool
        ensures { result ≡ list_any (is_got from epoch round) self.now.waiting }
    {
        self.waiting.has_got(from, epoch, round)
    }

    /// The number of the last entry of the lead's list. It takes no memory.
    pub fn last_number(&self) -> u64
        ensures { result ≡ last_number self.now }
    {
        self.front + self.waiting.len() as u64
    }

    // ---- parts

    /// Proposes the View of the shard's view.
    fn propose_view(&mut self, pool: &mut Pool) -> Result<(), GroupFault>
        ensures ok { OnOk result (self.new ≡ propose (View self.old.view) self.old) }
        ensures sends { OnOk result (pool.new ≡ send_all (proposal (View self.old.view) self.old) pool.old) }
        ensures kept { KeepsFront self.old self.new }
    {
        let view = self.view;
        self.propose(pool, Entry::View { view })?;
        Ok(())
    }

    /// The good peer with the longest list, of equals the lowest.
    fn lead(&self) -> Option<u8>
        ensures value { result ≡ lead self.now }
        ensures home { IfSome result (IsHome self.now) }
    {
        lead_of(peer_of(self.shard, 0, self.shape), self.copies.as_slice())
    }

    /// The place of a peer's copy.
    fn index_of(&self, peer: u8) -> usize
        requires { IsHome self.now peer }
        ensures place { result ≡ peer - first_peer self.now }
        ensures within { result < length self.now.copies }
    {
        usize::from(peer - peer_of(self.shard, 0, self.shape))
    }

    /// The place of a peer's copy. None exactly where no copy stands so far behind the first.
    fn place_of(&self, peer: u8) -> Option<usize>
        ensures place { IfSome result (λ place. place ≡ peer - first_peer self.now) }
        ensures within { IfSome result (λ place. place < length self.now.copies) }
        ensures none { result ≡ None → copy_of self.now peer ≡ no_copy }
    {
        let place = usize::from(peer.saturating_sub(peer_of(self.shard, 0, self.shape)));
        if place < self.copies.len() {
            Some(place)
        } else {
            None
        }
    }

    /// Whether the peer of the copy at a place takes a Copy.
    fn takes(&self, place: usize, view: u64, number: u64) -> bool
        requires { place < length self.now.copies }
        ensures { result ≡ takes_at place view number self.now }
    {
        let copy = &self.copies[place];
        copy.good && view == self.view && number > 0 && number - 1 == copy.stamps.len()
    }

    /// The list at a place has an entry more. Without memory nothing changes.
    fn take_at(&mut self, place: usize, entry: &Entry) -> Result<(), GroupFault>
        requires { place < length self.old.copies }
        ensures ok { OnOk result (self.new ≡ take_at place entry.now self.old) }
        ensures same { OnErr result (self.new ≡ self.old) }
        ensures kept { KeepsFront self.old self.new }
    {
        let view = view_after(self.copies[place].stamps.last(), entry);
        self.copies[place].stamps.push(view)
    }

    /// The lead's list has an entry more. Without memory nothing changes.
    fn lead_takes(&mut self, leads: Option<u8>, entry: &Entry) -> Result<(), GroupFault>
        requires { IfSome leads (IsHome self.old) }
        ensures ok { OnOk result (self.new ≡ lead_takes leads entry.now self.old) }
        ensures kept { KeepsFront self.old self.new }
    {
        match leads {
            Some(peer) => self.take_at(self.index_of(peer), entry),
            None => Ok(()),
        }
    }

    /// Sends every good peer but the lead a Copy of an entry.
    fn send_others(
        &self,
        pool: &mut Pool,
        leads: Option<u8>,
        number: u64,
        entry: &Entry,
    ) -> Result<(), GroupFault>
        ensures { OnOk result (pool.new ≡ send_all
            (map (λ x. Copy self.now.shard x.0 self.now.view number entry.now)
            (others_from leads (first_peer self.now) self.now.copies)) pool.old) }
    {
        for index in 0..self.copies.len() {
            let to = peer_of(self.shard, index as u8, self.shape);
            if self.copies[index].good && !is_peer(to, leads) {
                pool.send(Message::Copy {
                    shard: self.shard,
                    to,
                    view: self.view,
                    number,
                    entry: entry.copy(self.alloc)?,
                })?;
            }
        }
        Ok(())
    }

    /// Sends every good peer but the lead the entries from there on.
    fn send_since(&self, pool: &mut Pool, since: Since) -> Result<(), GroupFault>
        ensures { OnOk result (pool.new ≡ send_all (copies_since since self.now) pool.old) }
    {
        let lead = self.lead();
        for index in 0..self.copies.len() {
            self.send_one_since(pool, since, lead, index)?;
        }
        Ok(())
    }

    /// Sends the peer of a copy the entries from there on, if it is good and not the lead.
    fn send_one_since(
        &self,
        pool: &mut Pool,
        since: Since,
        leads: Option<u8>,
        index: usize,
    ) -> Result<(), GroupFault>
        requires { index < length self.now.copies }
        ensures { OnOk result (pool.new
            ≡ send_if_other self.now since leads (first_peer self.now + index)
            (slice_index_or self.now.copies index no_copy) pool.old) }
    {
        let copy = &self.copies[index];
        let to = peer_of(self.shard, index as u8, self.shape);
        if copy.good && !is_peer(to, leads) {
            self.send_above(pool, to, above(since, copy))
        } else {
            Ok(())
        }
    }

    /// Sends a peer Copies of the entries that wait whose number is above this one.
    #[tactic(auto, using(crate::proofs::SendLemmas::none_above, crate::proofs::SendLemmas::some_above))]
    fn send_above(&self, pool: &mut Pool, to: u8, above: u64) -> Result<(), GroupFault>
        ensures { OnOk result (pool.new ≡ send_all (copies_above to above self.now) pool.old) }
    {
        let entries = self.waiting.as_slice();
        let skipped = (above.saturating_sub(self.front) as usize).min(entries.len());
        if skipped == entries.len() {
            return Ok(());
        }
        let sender = Sender {
            shard: self.shard,
            view: self.view,
        };
        let first = self.front + 1 + skipped as u64;
        send_copies(
            self.alloc,
            pool,
            sender,
            to,
            first,
            entries.split_at(skipped).1,
        )
    }

    /// Sends the lead a Have of a peer, unless it is the lead.
    fn send_have(
        &self,
        pool: &mut Pool,
        leads: Option<u8>,
        peer: u8,
        sealed: u64,
    ) -> Result<(), GroupFault>
        requires { leads ≡ lead self.now }
        ensures { OnOk result (pool.new ≡ send_all (have peer sealed self.now) pool.old) }
    {
        match leads {
            Some(to) if to != peer => {
                pool.send(Message::Have {
                    shard: self.shard,
                    from: peer,
                    to,
                    view: self.view,
                    sealed,
                })?;
                Ok(())
            }
            _ => Ok(()),
        }
    }

    /// The copies are told who is good, and what stood above the new lead's list is gone.
    fn renew(&mut self, members: &Members)
        requires { members.now.shape ≡ self.old.shape }
        ensures value { self.new ≡ renew members.now self.old }
        ensures kept { KeepsFront self.old self.new }
    {
        self.view = members.view(self.shard);
        tell_copies(
            &mut self.copies,
            peer_of(self.shard, 0, self.shape),
            members,
        );
        let length = match self.lead() {
            Some(lead) => self.length(lead),
            None => 0,
        };
        self.waiting
            .truncate(length.saturating_sub(self.front) as usize);
    }
}
