//! One event of the core.
ghost use Rattle.std.specs.Prelude.{◌≡◌, ◌≤◌, OnErr, OnOk, true};
ghost use Rattle.hs_core_words.specs.Calls.{GivesUp, GoesOn, IsNextLine, Steps, last_line_after, outcome_of, ran_out};
ghost use Rattle.hs_core_state.specs.Keeping.{KeepsCore, Moves, Stays};
ghost use Rattle.hs_core_words.specs.Records.{HasRecordRoom};
ghost use Rattle.hs_core_words.specs.Step.{do_event, line_of, run_event};

use crate::asking::{fail_line, nudge_line, start_line, turn};
use crate::beginning::begin_line;
use crate::delivering::deliver;
use crate::reporting::on_report;
use hs_core_state::{NoMemory, State};
use hs_core_words::Event;
use hs_desk::CoreFault;

/// Does one event at a moment. What it answers is appended to the journal at its end, all or none.
/// Where the journal has no room for it (OpsFull), where a shard has no good peer (ShardLost) and
/// where there is no memory (NoMemory) the core has ended, and every later call answers the same
/// fault and changes nothing. After ShardLost the event has happened, and its entries stand in the
/// journal; after the others the journal is as it was. A number that has no next one counts as
/// want of memory, and so do an entry that its catalogue can't take, and more root records of a
/// shard, with the Roots that wait, than it takes.
pub(crate) fn step(core: &mut State, event: Event, moment: u64) -> Result<(), CoreFault>
    requires moment { core.old.moment ≤ moment }
    requires line { IsNextLine core.old event }

    ensures steps { Steps event moment core.old core.new result }
    ensures gave_up { ran_out core.old result ≡ true
        → GivesUp event moment core.old core.new }
    ensures goes { GoesOn event moment core.old core.new }
    // Where the core goes on, no shard has more root records than it takes.
    ensures room { OnOk result (HasRecordRoom core.new) }
{
    if let Some(fault) = core.ended() {
        return Err(fault);
    }
    let line = last_line_after(core, &event);
    match run_event(core, event, moment) {
        Ok(()) => outcome(core),
        Err(_) => {
            core.give_up(line, moment);
            Err(CoreFault::NoMemory)
        }
    }
}

/// Ok where the core goes on, and else why it has ended.
fn outcome(core: &State) -> Result<(), CoreFault>
    ensures { result ≡ outcome_of core.now }
{
    match core.ended() {
        Some(fault) => Err(fault),
        None => Ok(()),
    }
}

/// The last line of a client once an event has begun.
fn last_line_after(core: &State, event: &Event) -> u64
    ensures { result ≡ last_line_after event.now core.now }
{
    match event {
        Event::Line { line, .. } => *line,
        Event::Report { .. }
        | Event::Turn { .. }
        | Event::Deliver { .. }
        | Event::Lose { .. }
        | Event::Repeat { .. }
        | Event::Nudge { .. }
        | Event::Fail { .. }
        | Event::Start { .. } => core.last_line(),
    }
}

/// One event of a core that goes on.
fn run_event(core: &mut State, event: Event, moment: u64) -> Result<(), NoMemory>
    requires { IsNextLine core.old event }
    ensures ok { OnOk result (core.new ≡ run_event event moment core.old) }
    ensures kept { OnErr result (Stays core.old core.new) }
    ensures moves { Moves event moment core.old core.new }
    ensures room { OnOk result (HasRecordRoom core.new) }
{
    core.begin_event(line_of(&event), moment);
    do_event(core, event)?;
    core.record_room()?;
    core.end_event()
}

/// What an event does, by its kind.
fn do_event(core: &mut State, event: Event) -> Result<(), NoMemory>
    requires { IsNextLine core.old event }
    ensures ok { OnOk result (core.new ≡ do_event event core.old) }
    ensures kept { KeepsCore (record core.old {
      progress = record core.old.progress { last_line = last_line_after event core.old };
    }) core.new }
{
    match event {
        Event::Line { line, op } => begin_line(core, line, op),
        Event::Report { peer, done } => on_report(core, peer, done),
        Event::Turn { line, peer } => turn(core, line, peer),
        Event::Deliver { line, message } => deliver(core, line, message),
        Event::Lose { line, message } => core.lose(line, message),
        Event::Repeat { line, message } => core.send_again(line, message),
        Event::Nudge { line, peer } => nudge_line(core, line, peer),
        Event::Fail { line, peer } => fail_line(core, line, peer),
        Event::Start { line, peer } => start_line(core, line, peer),
    }
}

/// The line of an event, 0 where it has none.
fn line_of(event: &Event) -> u64
    ensures { result ≡ line_of event.now }
{
    match event {
        Event::Line { line, .. } => *line,
        Event::Report { .. } => 0,
        Event::Turn { line, .. } => *line,
        Event::Deliver { line, .. } => *line,
        Event::Lose { line, .. } => *line,
        Event::Repeat { line, .. } => *line,
        Event::Nudge { line, .. } => *line,
        Event::Fail { line, .. } => *line,
        Event::Start { line, .. } => *line,
    }
}
