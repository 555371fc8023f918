//! The rounds of a deletion run.
ghost use Rattle.std.specs.Prelude.{◌≡◌, ◌==◌, ◌+◌, ◌++◌, ◌<◌, IfOk, IsOkUnless, IsTrue, OnOk, Some, false, length};
ghost use Rattle.hs_rounds.specs.Changes.{AreChanges};
ghost use Rattle.hs_rounds.specs.Rounds.{complete, is_last};
ghost use Rattle.hs_shard.specs.declared.fault.ShardFault.TheVariants.{NoMemory};
ghost use Rattle.hs_shard.specs.Clients.{applied};
ghost use Rattle.hs_shard.specs.Listed.{pointers_each};
ghost use Rattle.hs_shard.specs.Rounds.{advanced, end_open, enter, enter_epoch, get_round, is_accepted, is_due, is_of_run, let_go, let_go_count, log_got, may_enter, message_to, messages, searched, still_kept, swept};
ghost use Rattle.hs_shard.specs.Tally.{tally};

use crate::catalogue::Catalogue;
use crate::tally::Tally;
use crate::{Effect, Sent, ShardFault};
use hs_desk::What;
use hs_limits::{Address, Delta, ListOf};
use hs_rounds::Place;

impl Catalogue {
    /// An Enter: what is older than the next epoch counts from then on, and round 0 is sent. It ends
    /// rounds that have come already.
    pub(crate) fn enter(&mut self, epoch: u64) -> Result<Effect, ShardFault>
        ensures ok { IfOk result (λ effect. applied self.new effect ≡ enter epoch self.old) }
        ensures only { IsOkUnless result NoMemory }
    {
        if !self.may_enter(epoch) {
            return Ok(self.only(What::Refused));
        }
        let mut effect = self.only(What::Entered { epoch });
        self.enter_epoch(epoch)?;
        self.send(epoch, 0, &mut effect.sends)?;
        self.advance(&mut effect)?;
        Ok(effect)
    }

    /// A Got is kept, and ends the round that it completes.
    pub(crate) fn get_round(
        &mut self,
        place: Place,
        total: u32,
        deltas: &ListOf<Delta>,
    ) -> Result<Effect, ShardFault>
        requires { AreChanges deltas.now }
        ensures ok { IfOk result (λ effect. applied self.new effect
            ≡ get_round place (record { total = total; deltas = deltas.now }) self.old) }
        ensures only { IsOkUnless result NoMemory }
    {
        let mut effect = self.only(What::Nothing);
        if !self.is_accepted(place) {
            return Ok(effect);
        }
        self.log_got(place, total, deltas)?;
        self.advance(&mut effect)?;
        Ok(effect)
    }

    /// Ends rounds while the open one is complete.
    fn advance(&mut self, effect: &mut Effect) -> Result<(), ShardFault>
        ensures ok { OnOk result
            (applied self.new effect.new ≡ advanced (applied self.old effect.old)) }
        ensures only { IsOkUnless result NoMemory }
    {
        while self.run.complete() {
            self.end_round(effect)?;
        }
        Ok(())
    }

    /// Ends the open round.
    fn end_round(&mut self, effect: &mut Effect) -> Result<(), ShardFault>
        requires { IsTrue (complete self.old.run) }
        ensures ok { OnOk result
            (applied self.new effect.new ≡ end_open self.old.run.opened (applied self.old effect.old)) }
        ensures only { IsOkUnless result NoMemory }
        ensures fewer { OnOk result (length self.new.run.gots < length self.old.run.gots) }
    {
        let Some((epoch, round)) = self.run.open_round() else {
            return Ok(());
        };
        self.blocks.settle(round, self.run.received())?;
        if self.run.last() {
            self.sweep(epoch, effect)
        } else {
            self.search(epoch, round, effect)
        }
    }

    /// The end of a round that isn't the last: new zero blocks are found, and the next round is sent.
    fn search(&mut self, epoch: u64, round: u32, effect: &mut Effect) -> Result<(), ShardFault>
        requires opened { self.old.run.opened ≡ Some (epoch, round) }
        requires complete { IsTrue (complete self.old.run) }
        requires more { is_last self.old.run ≡ false }
        ensures ok { OnOk result
            (applied self.new effect.new ≡ searched epoch round effect.old self.old) }
        ensures only { IsOkUnless result NoMemory }
    {
        let zeros = self.blocks.new_zeros(epoch)?;
        let leaving = self.let_go_count(epoch, round);
        let gone = self.let_go(epoch, round)?;
        let decrements = self.tally(zeros.as_slice(), gone.as_slice())?;
        let Ok(total) = u32::try_from(zeros.len().saturating_add(leaving)) else {
            return Err(ShardFault::NoMemory);
        };
        self.run.go_on(total, decrements)?;
        self.blocks.stand_each(zeros.as_slice(), true, true)?;
        let Some(next) = round.checked_add(1) else {
            return Err(ShardFault::NoMemory);
        };
        self.send(epoch, next, &mut effect.sends)
    }

    /// The end of the last round: zero blocks that no write gave in this epoch go, and the others
    /// count no more.
    fn sweep(&mut self, epoch: u64, effect: &mut Effect) -> Result<(), ShardFault>
        requires complete { IsTrue (complete self.old.run) }
        requires last { IsTrue (is_last self.old.run) }
        ensures ok { OnOk result
            (applied self.new effect.new ≡ swept epoch effect.old self.old) }
        ensures only { IsOkUnless result NoMemory }
    {
        let removed = self.blocks.sweep(epoch)?;
        self.swept = epoch;
        self.run.finish();
        effect.removed = Some(removed);
        Ok(())
    }

    /// Enters an epoch.
    fn enter_epoch(&mut self, epoch: u64) -> Result<(), ShardFault>
        ensures ok { OnOk result (self.new ≡ enter_epoch epoch self.old) }
        ensures only { IsOkUnless result NoMemory }
    {
        let blocks = self.blocks.new_in(epoch)?;
        let roots = self.roots.count_new(epoch)?;
        let increments = self.tally(blocks.as_slice(), roots.as_slice())?;
        self.run.enter(epoch, increments)?;
        self.blocks.stand_each(blocks.as_slice(), true, false)?;
        self.epoch = epoch;
        Ok(())
    }

    /// Keeps a Got.
    fn log_got(
        &mut self,
        place: Place,
        total: u32,
        deltas: &ListOf<Delta>,
    ) -> Result<(), ShardFault>
        requires { AreChanges deltas.now }
        ensures ok { OnOk result
            (self.new ≡ log_got place (record { total = total; deltas = deltas.now }) self.old) }
        ensures only { IsOkUnless result NoMemory }
    {
        let deltas = deltas.copy(self.alloc)?.into_vec();
        self.run
            .got(place.from, place.epoch, place.round, total, deltas)?;
        Ok(())
    }

    /// How many roots go with round 1. It takes no memory.
    fn let_go_count(&self, epoch: u64, round: u32) -> usize
        ensures { result ≡ let_go_count epoch round self.now.roots }
    {
        if round > 0 {
            return 0;
        }
        self.roots.released(epoch)
    }

    /// The roots that go with round 1 are forgotten: what they keep.
    fn let_go(&mut self, epoch: u64, round: u32) -> Result<Vec<Address>, ShardFault>
        ensures addresses { IfOk result
            (λ addresses. addresses.items ≡ let_go epoch round self.old.roots) }
        ensures ok { OnOk result
            (self.new ≡ record self.old { roots = still_kept epoch round self.old.roots }) }
        ensures only { IsOkUnless result NoMemory }
    {
        if round > 0 {
            return Ok(Vec::new(self.alloc));
        }
        let addresses = self.roots.release(epoch)?;
        Ok(addresses)
    }

    /// What some blocks point to and these addresses, as deltas.
    fn tally(&self, blocks: &[Address], roots: &[Address]) -> Result<Vec<Delta>, ShardFault>
        ensures value { IfOk result (λ deltas. deltas.items
            ≡ tally (pointers_each blocks.now self.now.blocks ++ roots.now)) }
        ensures changes { IfOk result (λ deltas. AreChanges deltas.items) }
        ensures only { IsOkUnless result NoMemory }
    {
        let mut tally = Tally::new(self.alloc);
        self.blocks.tell(blocks, &mut tally)?;
        tally.add_all(roots)?;
        let deltas = tally.deltas()?;
        Ok(deltas)
    }

    /// Puts what a round tells each shard behind what is sent: nothing, where it is not one of the last
    /// two that were sent.
    pub fn send(&self, epoch: u64, round: u32, sends: &mut ListOf<Sent>) -> Result<(), ShardFault>
        ensures ok { OnOk result (sends.new
            ≡ sends.old ++ messages self.now.shape.shards epoch round self.now.run) }
        ensures only { IsOkUnless result NoMemory }
    {
        for to in 0..self.shape.shards {
            self.send_to(to, epoch, round, sends)?;
        }
        Ok(())
    }

    /// Puts what a round tells a shard behind what is sent.
    fn send_to(
        &self,
        to: u8,
        epoch: u64,
        round: u32,
        sends: &mut ListOf<Sent>,
    ) -> Result<(), ShardFault>
        ensures ok { OnOk result
            (sends.new ≡ sends.old ++ message_to epoch round self.now.run to) }
        ensures only { IsOkUnless result NoMemory }
    {
        if let Some(body) = self.run.outgoing(epoch, round, to) {
            let body = body.copy(self.alloc)?;
            sends.push(Sent {
                to,
                epoch,
                round,
                body,
            })?;
        }
        Ok(())
    }

    /// Whether an Enter is for the next epoch, and this one is swept.
    fn may_enter(&self, epoch: u64) -> bool
        ensures { result ≡ may_enter epoch self.now }
    {
        self.is_next(epoch) && self.swept == self.epoch
    }

    /// Whether a Got is taken.
    fn is_accepted(&self, place: Place) -> bool
        ensures { result ≡ is_accepted place self.now }
    {
        place.from < self.shape.shards
            && self
                .run
                .body(place.from, place.epoch, place.round)
                .is_none()
            && self.is_due(place)
    }

    /// Whether a round may come: the open one, the next one of the run, or the first one of the run after
    /// the shard's epoch. It takes no memory.
    pub fn is_due(&self, place: Place) -> bool
        ensures { result ≡ is_due place self.now }
    {
        self.is_of_run(place) || (self.is_next(place.epoch) && place.round == 0)
    }

    /// Whether a round is the open one or the next one of the run.
    fn is_of_run(&self, place: Place) -> bool
        ensures { result ≡ is_of_run place self.now.run }
    {
        match self.run.open_round() {
            Some((epoch, round)) => {
                place.epoch == epoch
                    && (place.round == round || place.round.checked_sub(1) == Some(round))
            }
            None => false,
        }
    }

    /// Whether an epoch is the next one.
    fn is_next(&self, epoch: u64) -> bool
        ensures { result ≡ (epoch == self.now.epoch + 1) }
    {
        epoch.checked_sub(1) == Some(self.epoch)
    }
}
