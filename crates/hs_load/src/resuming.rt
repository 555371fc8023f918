//! Whether a cluster can go on from what stands behind the joins.
ghost use Rattle.std.specs.Prelude.{◌≡◌, true, false};
ghost use Rattle.std.specs.Option.{IsSomeAnd};
ghost use Rattle.hs_cluster.specs.Resuming.{EndAsSealed, EndsWith};
ghost use Rattle.hs_core_words.specs.Looking.{sealed_of, status_of};
ghost use Rattle.hs_members.specs.Members.{IsPeer, is_down};
ghost use Rattle.hs_taking.specs.Disks.{log_at};

use hs_core::Core;
use hs_limits::PeerStatus;
use hs_peerlog::PeerLog;

/// Whether a log ends with the entry of a number, and has nothing unsealed.
fn ends_as(log: &PeerLog, number: u64) -> bool
    ensures found { result ≡ true → EndsWith number log.now }
    ensures only { EndsWith number log.now → result ≡ true }
{
    log.last() == number && log.unsealed().is_none()
}

/// Whether a peer is down, or has a log that ends with the last entry that it is known to have sealed.
fn is_fit(core: &Core, logs: &[Option<PeerLog>], peer: u8) -> bool
    requires { IsPeer core.now.members.shape peer }
    ensures found { result ≡ true → is_down (status_of peer core.now) ≡ false
        → IsSomeAnd (log_at logs.now peer) (EndsWith (sealed_of peer core.now)) }
    ensures only { (is_down (status_of peer core.now) ≡ false
        → IsSomeAnd (log_at logs.now peer) (EndsWith (sealed_of peer core.now))) → result ≡ true }
{
    match core.status(peer) {
        PeerStatus::Down => true,
        PeerStatus::Good | PeerStatus::Joining => match logs.get(usize::from(peer)) {
            Some(Some(log)) => ends_as(log, core.sealed(peer)),
            Some(None) | None => false,
        },
    }
}

/// Whether each peer of a core is down, or has a log that ends with the last entry that it is known to
/// have sealed, and has nothing unsealed. It takes no memory.
pub fn are_fit(core: &Core, logs: &[Option<PeerLog>]) -> bool
    ensures found { result ≡ true → EndAsSealed core.now logs.now }
    ensures only { EndAsSealed core.now logs.now → result ≡ true }
{
    let shape = core.shape();
    for peer in 0..shape.shards * shape.copies {
        if !is_fit(core, logs, peer) {
            return false;
        }
    }
    true
}
