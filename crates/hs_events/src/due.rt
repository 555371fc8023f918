//! What is due next.
ghost use Rattle.std.specs.Prelude.{◌≡◌, ◌-◌, ◌*◌, ◌≤◌, None, filter_map, slice_get, IfSome};
ghost use Rattle.std.specs.List.{range_with_len};
ghost use Rattle.hs_events.specs.Due.{IsDueOf, next_due, next_good, next_nudge, next_nudger, next_turn, peer_due, turn_behind, turn_of};
ghost use Rattle.hs_members.specs.Members.{IsMembers, IsPeer};

use hs_core::Core;
use hs_limits::PeerStatus;

/// What is due: the report of a peer's first job, a peer's handling of a message, a nudge of a peer.
#[derive(Clone, Copy, Debug, PartialEq, Eq)]
pub enum Due {
    Reporting { peer: u8 },
    Handling { peer: u8, message: u64 },
    Nudging { peer: u8 },
}

/// Where passes and nudges stand: whose turn it is, who is nudged next, and whether this sequence of
/// nudges has made a disk call or raised a known number.
#[derive(Clone, Copy, Debug, PartialEq, Eq)]
pub struct Place {
    pub peer: u8,
    pub nudger: u8,
    pub progress: bool,
}

/// How many peers a core has.
pub fn peers_of(core: &Core) -> u8
    ensures value { result ≡ core.now.members.shape.shards * core.now.members.shape.copies }
    ensures kept { IsMembers core.now.members }
{
    let shape = core.shape();
    shape.shards * shape.copies
}

/// A turn of a peer: its first job, else the oldest message for it. It takes no memory.
fn turn_of(core: &Core, peer: u8) -> Option<Due>
    requires { IsPeer core.now.members.shape peer }
    ensures value { result ≡ turn_of core.now peer }
    ensures peer { IfSome result (λ due. peer_due due ≡ peer) }
{
    if core.first_job(peer).is_some() {
        return Some(Due::Reporting { peer });
    }
    match core.oldest_for(peer) {
        Some(message) => Some(Due::Handling { peer, message }),
        None => None,
    }
}

/// The turn of the first peer from one up to another that has one.
#[tactic(auto, using(crate::proofs::RangeLemmas::first_range_skips, crate::proofs::RangeLemmas::first_range_found, crate::proofs::RangeLemmas::first_range_end))]
fn first_turn(core: &Core, from: u8, to: u8) -> Option<Due>
    requires { to ≤ core.now.members.shape.shards * core.now.members.shape.copies }
    ensures value { result
        ≡ slice_get (filter_map (turn_of core.now) (range_with_len from (to - from))) 0 }
    ensures peer { IfSome result (IsDueOf core.now) }
{
    for peer in from..to {
        if let Some(due) = turn_of(core, peer) {
            return Some(due);
        }
    }
    None
}

/// The turn that is due in passes, where they stand at this place. It takes no memory.
#[tactic(auto, using(crate::proofs::RangeLemmas::round_of_turns))]
pub fn next_turn(core: &Core, place: Place) -> Option<Due>
    requires { place.peer ≤ core.now.members.shape.shards * core.now.members.shape.copies }
    ensures value { result ≡ next_turn place core.now }
    ensures peer { IfSome result (IsDueOf core.now) }
{
    if core.ended().is_some() {
        return None;
    }
    let peers = peers_of(core);
    match first_turn(core, place.peer, peers) {
        Some(due) => Some(due),
        None => first_turn(core, 0, place.peer),
    }
}

/// The first good peer from one on.
#[tactic(auto, using(crate::proofs::RangeLemmas::find_range_skips, crate::proofs::RangeLemmas::find_range_found, crate::proofs::RangeLemmas::find_range_end, crate::proofs::RangeLemmas::find_drop_range))]
fn next_good(core: &Core, from: u8) -> Option<u8>
    requires { from ≤ core.now.members.shape.shards * core.now.members.shape.copies }
    ensures value { result ≡ next_good from core.now }
    ensures peer { IfSome result (IsPeer core.now.members.shape) }
{
    let peers = peers_of(core);
    for peer in from..peers {
        if core.status(peer) == PeerStatus::Good {
            return Some(peer);
        }
    }
    None
}

/// The nudge that is due where nobody has a turn. It takes no memory.
fn next_nudge(core: &Core, place: Place) -> Option<Due>
    requires { place.nudger ≤ core.now.members.shape.shards * core.now.members.shape.copies }
    ensures value { result ≡ next_nudge place core.now }
    ensures peer { IfSome result (IsDueOf core.now) }
{
    if core.ended().is_some() || !core.open_work() {
        return None;
    }
    match next_nudger(core, place) {
        Some(peer) => Some(Due::Nudging { peer }),
        None => None,
    }
}

/// The good peer that is nudged next; a new sequence begins where the last one made progress.
fn next_nudger(core: &Core, place: Place) -> Option<u8>
    requires { place.nudger ≤ core.now.members.shape.shards * core.now.members.shape.copies }
    ensures value { result ≡ next_nudger place core.now }
    ensures peer { IfSome result (IsPeer core.now.members.shape) }
{
    match next_good(core, place.nudger) {
        Some(peer) => Some(peer),
        None if place.progress => next_good(core, 0),
        None => None,
    }
}

/// What is due next of a settle. It takes no memory.
pub fn next_due(core: &Core, place: Place) -> Option<Due>
    requires peer { place.peer ≤ core.now.members.shape.shards * core.now.members.shape.copies }
    requires nudger { place.nudger
        ≤ core.now.members.shape.shards * core.now.members.shape.copies }
    ensures value { result ≡ next_due place core.now }
    ensures peer { IfSome result (IsDueOf core.now) }
{
    match next_turn(core, place) {
        Some(due) => Some(due),
        None => next_nudge(core, place),
    }
}

/// The turn of a peer, where such a turn is not refused.
#[tactic(auto, using(crate::proofs::TurnLemmas::turn_beyond, crate::proofs::TurnLemmas::turn_down, crate::proofs::TurnLemmas::turn_up))]
pub fn turn_behind(core: &Core, peer: u8) -> Option<Due>
    requires { core.now.ended ≡ None }
    ensures value { result ≡ turn_behind peer core.now }
    ensures due { IfSome result (IsDueOf core.now) }
{
    if peer >= peers_of(core) {
        return None;
    }
    if core.status(peer) == PeerStatus::Down {
        return None;
    }
    turn_of(core, peer)
}
