//! Whether anything is open.
ghost use Rattle.std.specs.Prelude.{◌≡◌, ◌==◌, fold, length, max, nat_lt, not};
ghost use Rattle.std.specs.List.{list_any};
ghost use Rattle.hs_core_words.specs.Looking.{open_work, shape_of, status_of};
ghost use Rattle.hs_members.specs.Members.{all_peers, is_joining};

use crate::State;
use hs_limits::PeerStatus;
use hs_replica::Group;
use hs_shard::Catalogue;

impl State {
    /// Whether something is open: an operation without an answer, an entry that has not taken effect,
    /// a shard that has not swept the greatest epoch, or a peer that is joining. It takes no memory.
    pub fn open_work(&self) -> bool
        ensures { result ≡ open_work self.now }
    {
        !self.operations.is_empty()
            || any_waits(self.groups.as_slice())
            || any_is_behind(
                self.catalogues.as_slice(),
                top_epoch(self.catalogues.as_slice()),
            )
            || self.any_joins()
    }

    /// Whether a peer is joining.
    fn any_joins(&self) -> bool
        ensures { result ≡ list_any (λ peer. is_joining (status_of peer self.now))
            (all_peers (shape_of self.now)) }
    {
        let shape = self.shape();
        (0..shape.shards * shape.copies).any(|peer| self.status(peer) == PeerStatus::Joining)
    }
}

/// Whether an entry of some list has not taken effect.
fn any_waits(groups: &[Group]) -> bool
    ensures { result ≡ list_any (λ group. not (length group.waiting == 0)) groups.now }
{
    groups.iter().any(|group| !group.waiting().is_empty())
}

/// The greatest epoch of some shards, 0 where there is none.
fn top_epoch(catalogues: &[Catalogue]) -> u64
    ensures { result ≡ fold (λ top c. max top c.epoch) 0 catalogues.now }
{
    let mut top = 0;
    for catalogue in catalogues {
        top = top.max(catalogue.epoch());
    }
    top
}

/// Whether some shard has not swept an epoch.
fn any_is_behind(catalogues: &[Catalogue], epoch: u64) -> bool
    ensures { result ≡ list_any (λ c. nat_lt c.swept epoch) catalogues.now }
{
    catalogues.iter().any(|catalogue| catalogue.swept() < epoch)
}
