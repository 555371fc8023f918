//! Whose log a shard opens with.
ghost use Rattle.std.specs.Option.{option_map};
ghost use Rattle.std.specs.Prelude.{◌≡◌, ◌+◌, ◌*◌, ◌<◌, ◌≤◌, drop, length, map, take, unwrap_or, IfOk};
ghost use Rattle.hs_coldstart.specs.Choose.{choose};
ghost use Rattle.hs_limits.specs.Shape.{IsShape, peer_of};

use hs_coldstart::choose;
use hs_entry::Rank;
use hs_limits::{Shape, peer_of};
use hs_peerlog::PeerView;
use std::alloc::{AllocError, Global};

/// The ranks of the lists of some views.
pub fn ranks_of(alloc: Global, views: &[Option<PeerView>]) -> Result<Vec<Option<Rank>>, AllocError>
    ensures { IfOk result (λ ranks. ranks.items
        ≡ map (λ view. option_map (λ v. v.rank) view) views.now) }
{
    let mut ranks = Vec::new(alloc);
    for view in views {
        ranks.push(rank_of(view))?;
    }
    Ok(ranks)
}

/// The rank of the list of a view, where there is one.
fn rank_of(view: &Option<PeerView>) -> Option<Rank>
    ensures { result ≡ option_map (λ v. v.rank) view.now }
{
    match view {
        Some(view) => Some(view.rank()),
        None => None,
    }
}

/// The peer whose log a shard opens with: that of greatest rank, of equals the lowest. Where no peer
/// of the shard has a log it is the first.
#[tactic(auto, using(crate::proofs::ChoiceLemmas::shard_within, crate::proofs::ChoiceLemmas::chosen_within))]
pub fn taken_peer(ranks: &[Option<Rank>], shape: Shape, shard: u8) -> u8
    requires shape { IsShape shape }
    requires shard { shard < shape.shards }
    requires ranks { length ranks.now ≡ shape.shards * shape.copies }
    ensures value { result ≡ peer_of shape shard (unwrap_or (choose
        (take shape.copies (drop (peer_of shape shard 0) ranks.now))) 0) }
    ensures from { peer_of shape shard 0 ≤ result }
    ensures to { result < peer_of shape shard 0 + shape.copies }
    ensures within { result < shape.shards * shape.copies }
    ensures one { shape.copies ≡ 1 → result ≡ shard }
{
    let first = peer_of(shard, 0, shape);
    let from = usize::from(first);
    let to = from + usize::from(shape.copies);
    let own = &ranks[from..to];
    match choose(own) {
        Some(copy) => peer_of(shard, copy as u8, shape),
        None => first,
    }
}
