//! Messages: rounds that go out, and what a script does with those under way.
ghost use Rattle.std.specs.Option.{option_copied};
ghost use Rattle.std.specs.Prelude.{◌≡◌, ◌∷◌, [], OnOk};
ghost use Rattle.hs_core_words.specs.Asking.{lose, send_again, with_message, send_round};
ghost use Rattle.hs_core_words.specs.Changing.{change_pool, post, refuse};
ghost use Rattle.hs_core_words.specs.Effects.{round_messages};
ghost use Rattle.hs_core_state.specs.Keeping.{KeepsCore};
ghost use Rattle.hs_members.specs.Members.{IsShard};
ghost use Rattle.hs_model.specs.declared.reply.Reply.TheVariants as reply;
ghost use Rattle.hs_post.specs.Pool.{message_at, without};
ghost use Rattle.hs_post.specs.declared.message.Message.TheVariants as message;

use crate::State;
use crate::no_memory::NoMemory;
use hs_journal::Who;
use hs_limits::ListOf;
use hs_model::{Deed, Reply};
use hs_post::{Message, PostFault};
use hs_rounds::RoundBody;
use hs_shard::Sent;
use std::collections::VecDeque;

impl State {
    /// The rounds of a shard go out, in order.
    pub fn round_out(&mut self, shard: u8, sends: ListOf<Sent>) -> Result<(), NoMemory>
        ensures ok { OnOk result (self.new ≡ post (round_messages shard sends) self.old) }
        ensures kept { KeepsCore self.old self.new }
    {
        let mut rest = VecDeque::from(sends.into_vec());
        while let Some(sent) = rest.pop_front() {
            self.post_one(round_of(shard, sent))?;
        }
        Ok(())
    }

    /// A shard sends the round again that it sent last, or so many before it.
    pub fn send_round(&mut self, back: u8, shard: u8) -> Result<(), NoMemory>
        requires { IsShard self.old.members.shape shard }
        ensures ok { OnOk result (self.new ≡ send_round back shard self.old) }
        ensures kept { KeepsCore self.old self.new }
    {
        let catalogue = self.catalogue(shard);
        let Some((epoch, round)) = catalogue.run().sent(back) else {
            return Ok(());
        };
        let mut sends = ListOf::new(self.alloc);
        if catalogue.send(epoch, round, &mut sends).is_err() {
            return Err(NoMemory);
        }
        self.round_out(shard, sends)
    }

    /// A message is sent; a full pool loses it.
    fn post_one(&mut self, message: Message) -> Result<(), NoMemory>
        ensures ok { OnOk result (self.new ≡ post (message ∷ []) self.old) }
        ensures kept { KeepsCore self.old self.new }
    {
        match self.pool.send(message) {
            Ok(_) => Ok(()),
            Err(_) => Err(NoMemory),
        }
    }

    /// Takes the message of a number out of the pool. None exactly where there is none. It takes no
    /// memory.
    pub fn take_message(&mut self, number: u64) -> Option<Message>
        ensures message { result ≡ message_at number self.old.pool }
        ensures rest { self.new ≡ change_pool (without number) self.old }
        ensures kept { KeepsCore self.old self.new }
    {
        self.pool.take(number).ok()
    }

    /// A line loses a message, or hears that there is none of this number.
    pub fn lose(&mut self, line: u64, number: u64) -> Result<(), NoMemory>
        ensures ok { OnOk result (self.new ≡ with_message line number (lose number) self.old) }
        ensures kept { KeepsCore self.old self.new }
    {
        if self.pool.message(number).is_none() {
            return self.refuse_number(line, number);
        }
        self.take_message(number);
        Ok(())
    }

    /// A line sends a message once more, or hears that there is none of this number, or that the pool
    /// is full.
    pub fn send_again(&mut self, line: u64, number: u64) -> Result<(), NoMemory>
        ensures ok { OnOk result (self.new ≡ with_message line number (send_again line) self.old) }
        ensures kept { KeepsCore self.old self.new }
    {
        match self.pool.repeat(number) {
            Ok(_number) => Ok(()),
            Err(PostFault::NoMessage) => self.refuse_number(line, number),
            Err(PostFault::PoolFull { limit }) => {
                self.note(Who::Line(line), Deed::Nothing, Reply::PoolFull { limit })
            }
            Err(PostFault::NoMemory) => Err(NoMemory),
        }
    }

    /// A line hears that there is no message of this number.
    fn refuse_number(&mut self, line: u64, number: u64) -> Result<(), NoMemory>
        ensures ok { OnOk result (self.new ≡ refuse line (reply.NoMessage number) self.old) }
        ensures kept { KeepsCore self.old self.new }
    {
        let reply = Reply::NoMessage { message: number };
        self.note(Who::Line(line), Deed::Nothing, reply)
    }

    /// The message of a number. None exactly where there is none. It takes no memory.
    pub fn message(&self, number: u64) -> Option<&Message>
        ensures { option_copied result ≡ message_at number self.now.pool }
    {
        self.pool.message(number)
    }
}

/// The message of a round that a shard sends.
fn round_of(shard: u8, sent: Sent) -> Message
    ensures { result
        ≡ message.Round shard sent.to sent.epoch sent.round sent.body.total sent.body.deltas }
{
    let Sent {
        to,
        epoch,
        round,
        body,
    } = sent;
    let RoundBody { total, deltas } = body;
    Message::Round {
        from: shard,
        to,
        epoch,
        round,
        total,
        deltas,
    }
}
