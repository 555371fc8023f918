//! Which images count of a stop.
ghost use Rattle.std.specs.Prelude.{◌≡◌, ◌<◌, ℕ, List, length};
ghost use Rattle.hs_fold.specs.Shards.Images.{AreGoodImages, Image, IsGoodImage};
ghost use Rattle.hs_promise.specs.Run.{Ran, Script};
ghost use Rattle.hs_promise.specs.Stops.{stop_at};

/// With one copy a shard images count where each peer is good and its disk may have left its own: what
/// else is asked of images that count holds by itself then.
pub fn images_of_good_peers_count()
    ensures { (S : Script) (r : Ran) (moment : ℕ) (images : List Image) → S.set.shape.copies ≡ 1
        → length r.new.disks ≡ S.set.shape.shards → length images ≡ length r.new.disks
        → ((peer : ℕ) → peer < length r.new.disks → IsGoodImage (stop_at S r moment) images peer)
        → AreGoodImages S.set.shape (stop_at S r moment) images }
{}
