//! Lines of a script that are no client's: turns, nudges, failures and starts.
ghost use Rattle.std.specs.Prelude.{◌≡◌, ◌∷◌, [], IfNone, OnOk, true};
ghost use Rattle.hs_awaiting.specs.Words.{change_if};
ghost use Rattle.hs_core_words.specs.Asking.{no_peer, not_down, not_up, nudge, nudge_good, send_rounds, with_down, with_up};
ghost use Rattle.hs_core_words.specs.Entering.{propose_due};
ghost use Rattle.hs_core_words.specs.Failing.{go_down};
ghost use Rattle.hs_core_words.specs.Joining.{start};
ghost use Rattle.hs_core_state.specs.Keeping.{KeepsCore};
ghost use Rattle.hs_core_words.specs.Looking.{lead_of, status_of};
ghost use Rattle.hs_members.specs.Members.{IsPeer, IsShard, is_down};
ghost use Rattle.hs_model.specs.Refusals.{first};
ghost use Rattle.hs_replica.specs.Group.{is_peer};

use crate::entering::propose_due;
use crate::failing::go_down;
use crate::joining::start;
use crate::telling::refuse_event;
use hs_core_state::{NoMemory, State};
use hs_limits::PeerStatus;
use hs_model::Reply;

/// A turn of a peer is asked for.
pub(crate) fn turn(core: &mut State, line: u64, peer: u8) -> Result<(), NoMemory>
    ensures ok { OnOk result (core.new ≡ with_up line peer (λ core. core) core.old) }
    ensures kept { KeepsCore core.old core.new }
{
    if let Some(refusal) = not_up(core, peer) {
        return refuse_event(core, line, refusal);
    }
    Ok(())
}

/// A peer sends again what may have been lost.
pub(crate) fn nudge_line(core: &mut State, line: u64, peer: u8) -> Result<(), NoMemory>
    ensures ok { OnOk result (core.new ≡ with_up line peer (nudge_good peer) core.old) }
    ensures kept { KeepsCore core.old core.new }
{
    if let Some(refusal) = not_up(core, peer) {
        return refuse_event(core, line, refusal);
    }
    nudge_good(core, peer)
}

/// A peer fails.
pub(crate) fn fail_line(core: &mut State, line: u64, peer: u8) -> Result<(), NoMemory>
    ensures ok { OnOk result (core.new ≡ with_up line peer (go_down peer) core.old) }
    ensures kept { KeepsCore core.old core.new }
{
    if let Some(refusal) = not_up(core, peer) {
        return refuse_event(core, line, refusal);
    }
    go_down(core, peer)
}

/// A peer that is down begins to join.
pub(crate) fn start_line(core: &mut State, line: u64, peer: u8) -> Result<(), NoMemory>
    ensures ok { OnOk result (core.new ≡ with_down line peer (start peer) core.old) }
    ensures kept { KeepsCore core.old core.new }
{
    if let Some(refusal) = not_down(core, peer) {
        return refuse_event(core, line, refusal);
    }
    start(core, peer)
}

/// Why a line of a peer that is up is refused: there is no such peer, or it is down.
fn not_up(core: &State, peer: u8) -> Option<Reply>
    ensures first { result ≡ first (no_peer peer core.now ∷ not_up peer core.now ∷ []) }
    ensures peer { IfNone result (IsPeer core.now.members.shape peer) }
{
    let shape = core.shape();
    if peer >= shape.shards * shape.copies {
        return Some(Reply::NoPeer { peer });
    }
    if core.status(peer) == PeerStatus::Down {
        return Some(Reply::NotUp { peer });
    }
    None
}

/// Why a line of a peer that is down is refused: there is no such peer, or it is not down.
fn not_down(core: &State, peer: u8) -> Option<Reply>
    ensures first { result ≡ first (no_peer peer core.now ∷ not_down peer core.now ∷ []) }
    ensures peer { IfNone result (IsPeer core.now.members.shape peer) }
    ensures down { IfNone result (is_down (status_of peer core.now) ≡ true) }
{
    let shape = core.shape();
    if peer >= shape.shards * shape.copies {
        return Some(Reply::NoPeer { peer });
    }
    if core.status(peer) != PeerStatus::Down {
        return Some(Reply::NotDown { peer });
    }
    None
}

/// A good peer is nudged.
fn nudge_good(core: &mut State, peer: u8) -> Result<(), NoMemory>
    requires { IsPeer core.old.members.shape peer }
    ensures ok { OnOk result (core.new ≡ nudge_good peer core.old) }
    ensures kept { KeepsCore core.old core.new }
{
    if core.status(peer) != PeerStatus::Good {
        return Ok(());
    }
    nudge(core, peer)
}

/// A lead proposes a due Enter, and sends its rounds again; then a lead sends what the others are
/// not known to have, and another peer its Have.
fn nudge(core: &mut State, peer: u8) -> Result<(), NoMemory>
    requires { IsPeer core.old.members.shape peer }
    ensures ok { OnOk result (core.new ≡ nudge peer core.old) }
    ensures kept { KeepsCore core.old core.new }
{
    let shard = core.home(peer);
    nudge_lead(core, peer, shard)?;
    core.resend(peer)
}

/// Where the peer leads, it proposes a due Enter, and sends its rounds again.
fn nudge_lead(core: &mut State, peer: u8, shard: u8) -> Result<(), NoMemory>
    requires { IsShard core.old.members.shape shard }
    ensures ok { OnOk result (core.new ≡ change_if (is_peer peer (lead_of shard core.old))
        (λ core. send_rounds shard (propose_due shard core)) core.old) }
    ensures kept { KeepsCore core.old core.new }
{
    if is_peer(peer, core.lead(shard)) {
        propose_due(core, shard)?;
        send_rounds(core, shard)?;
    }
    Ok(())
}

/// A shard sends its last two rounds again, the older first.
fn send_rounds(core: &mut State, shard: u8) -> Result<(), NoMemory>
    requires { IsShard core.old.members.shape shard }
    ensures ok { OnOk result (core.new ≡ send_rounds shard core.old) }
    ensures kept { KeepsCore core.old core.new }
{
    core.send_round(1, shard)?;
    core.send_round(0, shard)
}

/// Whether a lead is this peer.
pub(crate) fn is_peer(peer: u8, lead: Option<u8>) -> bool
    ensures { result ≡ is_peer peer lead }
{
    match lead {
        Some(lead) => lead == peer,
        None => false,
    }
}
