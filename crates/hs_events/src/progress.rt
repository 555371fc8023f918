//! Where passes and nudges stand behind what was due.
ghost use Rattle.std.specs.List.{list_any};
ghost use Rattle.std.specs.Prelude.{◌≡◌, ◌<◌, nat_lt, slice_index_or};
ghost use Rattle.hs_core_words.specs.Looking.{known_of};
ghost use Rattle.hs_events.specs.Due.{peer_due, place_after};
ghost use Rattle.hs_members.specs.Members.{all_peers};

use crate::due::{Due, Place, peers_of};
use hs_core::Core;

/// Whether a peer is known to have sealed more than these numbers.
#[tactic(auto, using(crate::proofs::RangeLemmas::any_range_skips, crate::proofs::RangeLemmas::any_range_found, crate::proofs::RangeLemmas::any_range_end, crate::proofs::RangeLemmas::any_range_begin))]
pub fn raises_known(core: &Core, knowns: &[u64]) -> bool
    ensures { result ≡ list_any (λ peer. nat_lt (slice_index_or knowns.now peer 0)
        (known_of peer core.now)) (all_peers core.now.members.shape) }
{
    let peers = peers_of(core);
    for peer in 0..peers {
        if known_before(knowns, peer) < core.known(peer) {
            return true;
        }
    }
    false
}

/// How many entries of a peer were known to be sealed.
fn known_before(knowns: &[u64], peer: u8) -> u64
    ensures { result ≡ slice_index_or knowns.now peer 0 }
{
    match knowns.get(usize::from(peer)) {
        Some(known) => *known,
        None => 0,
    }
}

/// Where passes and nudges stand after what was due.
pub fn place_after(due: Due, raised: bool, place: Place) -> Place
    requires { peer_due due < 255 }
    ensures { result ≡ place_after due raised place }
{
    match due {
        Due::Reporting { peer } => Place {
            peer,
            nudger: place.nudger,
            progress: true,
        },
        Due::Handling { peer, .. } => Place {
            peer,
            nudger: place.nudger,
            progress: place.progress || raised,
        },
        Due::Nudging { peer } => Place {
            peer: 0,
            nudger: peer + 1,
            progress: (place.nudger <= peer && place.nudger != 0 && place.progress) || raised,
        },
    }
}
