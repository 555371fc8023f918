//! The log of greatest rank.
ghost use Rattle.std.specs.Prelude.{◌≡◌, is_some};
ghost use Rattle.std.specs.List.{list_any};
ghost use Rattle.hs_coldstart.specs.Choose.{better, choose};

use hs_entry::Rank;

/// The place of the log that a shard is opened with, where these are the ranks of its copies' logs:
/// the first of the greatest rank. None exactly where no copy has a log. It takes no memory.
pub fn choose(ranks: &[Option<Rank>]) -> Option<usize>
    ensures value { result ≡ choose ranks.now }
    ensures found { is_some result ≡ list_any (λ rank. is_some rank) ranks.now }
{
    let mut best: Option<(usize, Rank)> = None;
    for (place, rank) in ranks.iter().enumerate() {
        best = better(best, place, *rank);
    }
    best.map(|(place, _)| place)
}

/// The best so far, or this rank where it is above that.
fn better(best: Option<(usize, Rank)>, place: usize, rank: Option<Rank>) -> Option<(usize, Rank)>
    ensures { result ≡ better best place rank }
{
    match (best, rank) {
        (best, None) => best,
        (None, Some(rank)) => Some((place, rank)),
        (Some((first, other)), Some(rank)) => {
            if rank > other {
                Some((place, rank))
            } else {
                Some((first, other))
            }
        }
    }
}
