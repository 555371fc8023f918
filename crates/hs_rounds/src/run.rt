//! The rounds of a deletion run, as one shard sends and gets them.
ghost use Rattle.std.specs.Prelude.{◌≡◌, ◌<◌, ◌≤◌, ◌+◌, find, IfSome, is_some, IsOk, IsOkUnless, IsTrue, OnErr, OnOk, Some, false, length, true};
ghost use Rattle.std.specs.Option.{option_copied};
ghost use Rattle.std.specs.Vec.{vec_len};
ghost use Rattle.hs_limits.specs.Shape.{IsShape};
ghost use Rattle.hs_rounds.specs.declared.fault.RunFault.TheVariants.{NoMemory};
ghost use Rattle.hs_rounds.specs.declared.place.TheConstants.{LAST_ROUND};
ghost use Rattle.hs_rounds.specs.Changes.{AreChanges};
ghost use Rattle.hs_rounds.specs.Rounds.{IsGot, IsSent, IsTold, body, complete, empty_run, enter, finish, go_on, got, has_come, is_kept, is_last, is_past, is_round, open_at, outgoing, received, sent_back, was_sent};
ghost use Rattle.hs_rounds.specs.Steps.{is_open, moved};

use crate::gots::{Gots, is_before};
use crate::sending::bodies_for;
use crate::{LAST_ROUND, Place, RoundBody, RunFault, SentRound};
use hs_limits::{Delta, ListOf, Shape};
use std::alloc::Global;
use std::marker::Model;

/// One shard's side of the rounds: which round is open, what came for it and for later ones, and
/// the last two rounds that were sent.
#[derive(Drop)]
pub struct Run {
    shape: Shape,
    shard: u8,
    opened: Option<(u64, u32)>,
    gots: Gots,
    arrived: Vec<Delta>,
    sent: Vec<SentRound>,
    alloc: Global,
}

impl Model for Run {
    ghost use Rattle.std.specs.Prelude.{◌≡◌};
    ghost use Rattle.hs_rounds.specs.Rounds.{IsRun, Run, received};

    ghost Value = { Run };

    ghost view = { λ a. record {
      shape = a.shape;
      shard = a.shard;
      opened = a.opened;
      gots = a.gots;
      sent = a.sent.items;
    } };

    ghost invariant = { λ a.
        let run : Run = record {
          shape = a.shape;
          shard = a.shard;
          opened = a.opened;
          gots = a.gots;
          sent = a.sent.items;
        } in
        IsRun run × (a.arrived.items ≡ received run) };
}

impl Run {
    /// No run is open, nothing came, and nothing was sent. It takes no memory.
    pub fn new(alloc: Global, shape: Shape, shard: u8) -> Run
        requires shape { IsShape shape }
        requires shard { shard < shape.shards }
        ensures { result ≡ empty_run shape shard }
    {
        Run {
            shape,
            shard,
            opened: None,
            gots: Gots::new(alloc),
            arrived: Vec::new(alloc),
            sent: Vec::new(alloc),
            alloc,
        }
    }

    /// Opens round 0 of an epoch and sends these increments for it; a run that was open is given
    /// up. The only fault is NoMemory, and it changes nothing.
    pub fn enter(&mut self, epoch: u64, increments: Vec<Delta>) -> Result<(), RunFault>
        requires { AreChanges increments.items }
        ensures ok { OnOk result (self.new ≡ enter epoch increments.items self.old) }
        ensures only { IsOkUnless result NoMemory }
        ensures same { OnErr result (self.new ≡ self.old) }
    {
        self.open_at(epoch, 0, 0, increments.as_slice())
    }

    /// Keeps what a sender told this shard for the open round or a later one; the first from a
    /// sender stays. What is not kept changes nothing, and takes no memory. The only fault is
    /// NoMemory, and it changes nothing.
    pub fn got(
        &mut self,
        from: u8,
        epoch: u64,
        round: u32,
        total: u32,
        deltas: Vec<Delta>,
    ) -> Result<(), RunFault>
        requires { AreChanges deltas.items }
        ensures ok { OnOk result (self.new ≡ got
            (record { epoch = epoch; round = round; from = from })
            (record { total = total; deltas = deltas.items })
            self.old) }
        ensures again { is_kept (record { epoch = epoch; round = round; from = from })
            self.old ≡ false → IsOk result }
        ensures only { IsOkUnless result NoMemory }
        ensures same { OnErr result (self.new ≡ self.old) }
    {
        let place = Place { epoch, round, from };
        if !self.is_kept(place) {
            return Ok(());
        }
        let told = RoundBody {
            total,
            deltas: ListOf::from_vec(deltas),
        };
        if self.is_open(place) {
            return self.got_open(place, told);
        }
        self.gots.insert(place, told)?;
        Ok(())
    }

    /// Whether the open round has come from every shard. It takes no memory.
    pub fn complete(&self) -> bool
        ensures { result ≡ complete self.now }
    {
        match self.opened {
            Some((epoch, round)) => self.gots.has_all(self.shape.shards, epoch, round),
            None => false,
        }
    }

    /// Whether a round that is open or waits has come from some shard. It takes no memory.
    pub fn has_come(&self, epoch: u64, round: u32) -> bool
        ensures { result ≡ has_come epoch round self.now }
    {
        self.gots.has_some(self.shape.shards, epoch, round)
    }

    /// Whether the open round is not round 0, and has come from every shard with a total of 0. It
    /// takes no memory.
    pub fn last(&self) -> bool
        ensures { result ≡ is_last self.now }
    {
        match self.opened {
            Some((epoch, round)) => {
                round >= 1 && self.gots.are_zero(self.shape.shards, epoch, round)
            }
            None => false,
        }
    }

    /// The changes that came for the open round, sender by sender. It takes no memory.
    pub fn received(&self) -> &[Delta]
        ensures { result.now ≡ received self.now }
    {
        self.arrived.as_slice()
    }

    /// Opens the round after the open one, and sends these decrements for it, with this total. The
    /// only fault is NoMemory, and it changes nothing; a round beyond `LAST_ROUND` counts as want of it.
    pub fn go_on(&mut self, total: u32, decrements: Vec<Delta>) -> Result<(), RunFault>
        requires complete { IsTrue (complete self.old) }
        requires more { is_last self.old ≡ false }
        requires changes { AreChanges decrements.items }
        ensures ok { OnOk result (self.new ≡ go_on total decrements.items self.old) }
        ensures numbered { OnOk result (IfSome self.old.opened (λ at. at.1 < LAST_ROUND)) }
        ensures only { IsOkUnless result NoMemory }
        ensures same { OnErr result (self.new ≡ self.old) }
    {
        let Some((epoch, round)) = self.opened else {
            return Ok(());
        };
        if round >= LAST_ROUND {
            return Err(RunFault::NoMemory);
        }
        self.open_at(epoch, round + 1, total, decrements.as_slice())
    }

    /// Ends the run. It takes no memory.
    pub fn finish(&mut self)
        requires complete { IsTrue (complete self.old) }
        requires last { IsTrue (is_last self.old) }
        ensures { self.new ≡ finish self.old }
    {
        if let Some((epoch, round)) = self.opened {
            self.gots.forget_before(epoch, u64::from(round) + 1);
            self.arrived = Vec::new(self.alloc);
            self.opened = None;
        }
    }

    /// What a round told a shard. None exactly where it is not one of the last two that were sent,
    /// or there is no such shard. It takes no memory.
    pub fn outgoing(&self, epoch: u64, round: u32, to: u8) -> Option<&RoundBody>
        ensures value { option_copied result ≡ outgoing epoch round to self.now }
        ensures found { to < self.now.shape.shards
            → is_some result ≡ was_sent epoch round self.now }
        ensures told { IfSome result (λ told. IsTold told.now) }
    {
        let sent = self.sent_round(epoch, round)?;
        sent.bodies.as_slice().get(usize::from(to))
    }

    /// Epoch and number of the open round. None exactly where no run is open. It takes no memory.
    pub fn open_round(&self) -> Option<(u64, u32)>
        ensures { result ≡ self.now.opened }
    {
        self.opened
    }

    /// Epoch and number of the round that was sent last (0) or last but one (1). None exactly where
    /// there is none. It takes no memory.
    pub fn sent(&self, back: u8) -> Option<(u64, u32)>
        ensures { result ≡ sent_back back self.now }
    {
        let sent = self.sent.as_slice().get(usize::from(back))?;
        Some((sent.epoch, sent.round))
    }

    /// What came from a sender for a round that is open or waits. None exactly where there is none.
    /// It takes no memory.
    pub fn body(&self, from: u8, epoch: u64, round: u32) -> Option<&RoundBody>
        ensures value { option_copied result ≡ body from epoch round self.now }
        ensures kept { IfSome result (λ told.
            IsGot self.now (record { epoch = epoch; round = round; from = from }) told.now) }
    {
        self.gots.get(Place { epoch, round, from })
    }

    /// A round that was sent, where it is one of the last two.
    fn sent_round(&self, epoch: u64, round: u32) -> Option<&SentRound>
        ensures value { option_copied result ≡ find (is_round epoch round) self.now.sent }
        ensures sent { IfSome result (λ sent. IsSent self.now.shape.shards sent.now) }
    {
        self.sent
            .iter()
            .find(|sent| sent.epoch == epoch && sent.round == round)
    }

    /// Whether a Got is kept.
    fn is_kept(&self, place: Place) -> bool
        ensures { result ≡ is_kept place self.now }
    {
        place.from < self.shape.shards && !self.is_past(place) && self.gots.get(place).is_none()
    }

    /// Whether a place is of an earlier round than the open one.
    fn is_past(&self, place: Place) -> bool
        ensures { result ≡ is_past place self.now }
    {
        match self.opened {
            Some((epoch, round)) => is_before(place, epoch, u64::from(round)),
            None => false,
        }
    }

    /// Whether a place is of the open round.
    fn is_open(&self, place: Place) -> bool
        ensures { result ≡ is_open place self.now }
    {
        match self.opened {
            Some((epoch, round)) => place.epoch == epoch && place.round == round,
            None => false,
        }
    }

    /// Keeps a Got of the open round.
    fn got_open(&mut self, place: Place, told: RoundBody) -> Result<(), RunFault>
        requires kept { IsTrue (is_kept place self.old) }
        requires changes { AreChanges told.deltas }
        requires opened { IsTrue (is_open place self.old) }
        ensures ok { OnOk result (self.new ≡ got place told self.old) }
        ensures only { IsOkUnless result NoMemory }
        ensures same { OnErr result (self.new ≡ self.old) }
    {
        let before = self.gots.count_below(place);
        let end = self.arrived.len();
        self.arrived.extend_from_slice(told.deltas.as_slice())?;
        let more = self.arrived.len() - end;
        if self.gots.insert(place, told).is_err() {
            self.arrived.truncate(end);
            return Err(RunFault::NoMemory);
        }
        move_last(&mut self.arrived, before, more);
        Ok(())
    }

    /// Opens a round and sends it.
    fn open_at(
        &mut self,
        epoch: u64,
        round: u32,
        total: u32,
        deltas: &[Delta],
    ) -> Result<(), RunFault>
        requires { AreChanges deltas.now }
        ensures ok { OnOk result (self.new ≡ open_at epoch round total deltas.now self.old) }
        ensures only { IsOkUnless result NoMemory }
        ensures same { OnErr result (self.new ≡ self.old) }
    {
        let shards = self.shape.shards;
        let bodies = bodies_for(self.alloc, self.shape, total, deltas)?;
        let arrived = self.gots.changes(self.alloc, shards, epoch, round)?;
        let sent = SentRound {
            epoch,
            round,
            bodies,
        };
        self.sent.insert(0, sent)?;
        self.sent.truncate(2);
        self.gots.forget_before(epoch, u64::from(round));
        self.arrived = arrived;
        self.opened = Some((epoch, round));
        Ok(())
    }
}

/// Moves the last so many changes to a place.
fn move_last(changes: &mut Vec<Delta>, at: usize, more: usize)
    requires { at + more ≤ vec_len changes.old }
    ensures { changes.new.items ≡ moved at more changes.old.items }
{
    changes[at..].rotate_right(more);
}
