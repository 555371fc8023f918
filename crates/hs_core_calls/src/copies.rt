//! A shard with two copies: one starts, one fails, and a message is lost.
ghost use Rattle.std.specs.Prelude.{◌≡◌, IfOk, length};

use hs_core::Core;
use hs_core_words::Event;
use hs_desk::{CoreFault, Done};
use hs_limits::{Limits, PeerStatus, Shape};
use hs_shard::Catalogue;
use std::alloc::{AllocError, Global};
use std::test::Fail;

const SHAPE: Shape = Shape {
    shards: 1,
    copies: 2,
};

/// What is told of a peer of such a shard, and of no other.
type Told = Option<(PeerStatus, u64, Option<u64>)>;

/// A vector of one item.
fn one<T: Drop>(alloc: Global, item: T) -> Result<Vec<T>, AllocError>
    ensures { IfOk result (λ items. length items.items ≡ 1) }
{
    let mut items = Vec::new(alloc);
    items.push(item)?;
    Ok(items)
}

/// A vector of two items.
fn two<T: Drop>(alloc: Global, first: T, second: T) -> Result<Vec<T>, AllocError>
    ensures { IfOk result (λ items. length items.items ≡ 2) }
{
    let mut items = Vec::new(alloc);
    items.push(first)?;
    items.push(second)?;
    Ok(items)
}

/// A core that opens over blank disks. Whether its second peer is good is told.
fn opened(alloc: Global, second: bool) -> Result<Core, CoreFault> {
    let limits = Limits::greatest();
    let logs = one(alloc, Catalogue::new(alloc, SHAPE, 0, limits))?;
    let views = one(alloc, 0)?;
    let lengths = one(alloc, 0)?;
    let good = two(alloc, true, second)?;
    Core::open(alloc, SHAPE, limits, logs, views, lengths, good, 0)
}

/// A peer has done a job.
fn report(core: &mut Core, peer: u8, done: Done) -> Result<(), CoreFault> {
    let moment = core.last_moment();
    core.step(Event::Report { peer, done }, moment)
}

/// The second peer starts.
fn start(core: &mut Core) -> Result<(), CoreFault> {
    let moment = core.last_moment();
    core.step(Event::Start { line: 1, peer: 1 }, moment)
}

/// The second peer fails.
fn fail(core: &mut Core) -> Result<(), CoreFault> {
    let moment = core.last_moment();
    core.step(Event::Fail { line: 1, peer: 1 }, moment)
}

/// The first message is lost.
fn lose(core: &mut Core) -> Result<(), CoreFault> {
    let moment = core.last_moment();
    core.step(
        Event::Lose {
            line: 1,
            message: 1,
        },
        moment,
    )
}

/// The first peer sends again.
fn nudge(core: &mut Core) -> Result<(), CoreFault> {
    let moment = core.last_moment();
    core.step(Event::Nudge { line: 2, peer: 0 }, moment)
}

/// What the second peer is, how many entries it has sealed, and the oldest message for it.
fn told(core: &Core) -> Told {
    let shape = core.shape();
    if shape.shards != 1 || shape.copies != 2 {
        return None;
    }
    Some((core.status(1), core.sealed(1), core.oldest_for(1)))
}

/// So once it has joined: the first peer stores the View that the core proposed; then the second one
/// starts, and copies it.
fn join(core: &mut Core) -> Result<Told, CoreFault> {
    report(core, 0, Done::Stored { number: 1 })?;
    report(core, 0, Done::Sealed { number: 1 })?;
    start(core)?;
    report(core, 1, Done::Emptied)?;
    report(core, 1, Done::Copied { number: 1 })?;
    Ok(told(core))
}

/// So once it has failed.
fn go_down(core: &mut Core) -> Result<Told, CoreFault> {
    fail(core)?;
    Ok(told(core))
}

/// So once the first message was lost, and the first peer sent again.
fn send_again(core: &mut Core) -> Result<Told, CoreFault> {
    lose(core)?;
    nudge(core)?;
    Ok(told(core))
}

/// What is told of a core whose second peer joins.
fn joined(alloc: Global) -> Result<Told, CoreFault> {
    let mut core = opened(alloc, false)?;
    join(&mut core)
}

/// What is told of a core whose second peer fails.
fn failed(alloc: Global) -> Result<Told, CoreFault> {
    let mut core = opened(alloc, true)?;
    go_down(&mut core)
}

/// What is told of a core that sends a message again.
fn sent_again(alloc: Global) -> Result<Told, CoreFault> {
    let mut core = opened(alloc, true)?;
    send_again(&mut core)
}

/// How many blocks, roots and epochs the plain store of a core has that opened over blank disks.
fn plain(alloc: Global) -> Result<(usize, usize, usize), CoreFault> {
    let mut core = opened(alloc, true)?;
    let store = core.plain()?;
    Ok((store.blocks.len(), store.roots.len(), store.epochs.len()))
}

#[test]
fn a_peer_that_starts_copies_the_list_and_joins(rt: HostRuntime) -> Result<(), Fail> {
    assert_eq!(rt; joined(rt.alloc())?, Some((PeerStatus::Good, 1, Some(1))));
    Ok(())
}

#[test]
fn a_shard_goes_on_without_a_peer_that_fails(rt: HostRuntime) -> Result<(), Fail> {
    assert_eq!(rt; failed(rt.alloc())?, Some((PeerStatus::Down, 0, None)));
    Ok(())
}

#[test]
fn a_message_that_was_lost_is_sent_again(rt: HostRuntime) -> Result<(), Fail> {
    assert_eq!(rt;
        sent_again(rt.alloc())?,
        Some((PeerStatus::Good, 0, Some(2)))
    );
    Ok(())
}

#[test]
fn what_all_shards_have_is_one_plain_store(rt: HostRuntime) -> Result<(), Fail> {
    assert_eq!(rt; plain(rt.alloc())?, (0, 0, 1));
    Ok(())
}
