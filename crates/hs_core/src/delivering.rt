//! How a message is handled.
ghost use Rattle.std.specs.Prelude.{◌≡◌, OnOk};
ghost use Rattle.hs_awaiting.specs.Words.{change_if};
ghost use Rattle.hs_core_words.specs.Asking.{deliver, with_message};
ghost use Rattle.hs_core_words.specs.Delivering.{handle, is_new_round, take_have};
ghost use Rattle.hs_core_state.specs.Keeping.{KeepsCore};
ghost use Rattle.hs_core_words.specs.Looking.{status_of};
ghost use Rattle.hs_core_words.specs.Operating.{propose_entry};
ghost use Rattle.hs_members.specs.Members.{IsShard, is_good_status};

use crate::copying::on_copy;
use crate::effects::commit;
use crate::telling::refuse_event;
use hs_core_state::{NoMemory, State};
use hs_entry::Entry;
use hs_limits::PeerStatus;
use hs_model::Reply;
use hs_post::Message;
use hs_rounds::Place;

/// The message of a number comes; where there is none, that is told.
pub(crate) fn deliver(core: &mut State, line: u64, number: u64) -> Result<(), NoMemory>
    ensures ok { OnOk result (core.new ≡ with_message line number (deliver number) core.old) }
    ensures kept { KeepsCore core.old core.new }
{
    if core.message(number).is_none() {
        return refuse_event(core, line, Reply::NoMessage { message: number });
    }
    match core.take_message(number) {
        Some(message) => handle(core, message),
        None => Ok(()),
    }
}

/// A message comes.
fn handle(core: &mut State, message: Message) -> Result<(), NoMemory>
    ensures ok { OnOk result (core.new ≡ handle message core.old) }
    ensures kept { KeepsCore core.old core.new }
{
    match message {
        Message::Copy {
            shard,
            to,
            view,
            number,
            entry,
        } => on_copy(core, shard, to, view, number, entry),
        Message::Have {
            shard,
            from,
            to,
            view,
            sealed,
        } => hear_have(core, shard, from, to, view, sealed),
        Message::Round {
            from,
            to,
            epoch,
            round,
            total,
            deltas,
        } => {
            let got = Entry::Got {
                sender: from,
                epoch,
                round,
                total,
                deltas,
            };
            hear_round(core, to, Place { epoch, round, from }, got)
        }
    }
}

/// A Have comes for a peer: for a good one it raises what the lead knows, and what is committed
/// takes effect.
#[tactic(auto, using(crate::proofs::NowhereLemmas::commit_nowhere))]
fn hear_have(
    core: &mut State,
    shard: u8,
    from: u8,
    to: u8,
    view: u64,
    sealed: u64,
) -> Result<(), NoMemory>
    ensures ok { OnOk result (core.new ≡ take_have shard from to view sealed core.old) }
    ensures kept { KeepsCore core.old core.new }
{
    if !is_good(core, to) {
        return Ok(());
    }
    core.take_have_in(shard, from, view, sealed);
    if shard >= core.shape().shards {
        return Ok(());
    }
    commit(core, shard)
}

/// A Round comes for a shard: a new one is proposed as a Got.
#[tactic(auto, using(crate::proofs::NowhereLemmas::propose_nowhere))]
fn hear_round(core: &mut State, shard: u8, place: Place, got: Entry) -> Result<(), NoMemory>
    ensures ok { OnOk result (core.new
        ≡ change_if (is_new_round shard place.from place.epoch place.round core.old)
        (propose_entry shard got) core.old) }
    ensures kept { KeepsCore core.old core.new }
{
    if shard >= core.shape().shards {
        return Ok(());
    }
    if is_new_round(core, shard, place) {
        core.propose_entry(shard, got)?;
    }
    Ok(())
}

/// Whether a Round is of the run or of the next one, was not logged, and its Got does not stand
/// in the lead's list.
fn is_new_round(core: &State, shard: u8, place: Place) -> bool
    requires { IsShard core.now.members.shape shard }
    ensures { result ≡ is_new_round shard place.from place.epoch place.round core.now }
{
    let catalogue = core.catalogue(shard);
    catalogue.is_due(place)
        && catalogue
            .run()
            .body(place.from, place.epoch, place.round)
            .is_none()
        && !core
            .group(shard)
            .waits_as_got(place.from, place.epoch, place.round)
}

/// Whether there is such a peer, and it is good.
fn is_good(core: &State, peer: u8) -> bool
    ensures { result ≡ is_good_status (status_of peer core.now) }
{
    let shape = core.shape();
    peer < shape.shards * shape.copies && core.status(peer) == PeerStatus::Good
}
