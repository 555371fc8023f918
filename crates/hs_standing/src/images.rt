//! Images that count.
ghost use Rattle.std.specs.Prelude.{◌≡◌, ◌*◌, ◌<◌, IsSome, ℕ, List, length};
ghost use Rattle.hs_core_words.specs.declared.event.Event.{Event};
ghost use Rattle.hs_events.specs.Taken.{taken_lists};
ghost use Rattle.hs_events.specs.Whole.{Whole};
ghost use Rattle.hs_fold.specs.Images.{image_at};
ghost use Rattle.hs_fold.specs.Shards.Images.{AreGoodImages, Image, IsGoodImage, Stop};
ghost use Rattle.hs_journal.specs.declared.entry.JournalEntry.{JournalEntry};
ghost use Rattle.hs_limits.specs.Shape.{IsShape};
ghost use Rattle.hs_journal.specs.Moments.{below};
ghost use Rattle.hs_moments.specs.Joint.{AtMoment};
ghost use Rattle.hs_moments.specs.Machine.{Machine};
ghost use Rattle.hs_side.specs.Current.{list_in};
ghost use Rattle.hs_sound.specs.Stay.{AreSoundAlong};
ghost use Rattle.hs_standing.specs.Reopens.{Reopens, image_logs};
ghost use Rattle.hs_standing.specs.Stands.{GoodPeersCount, StandsWhereGood};
ghost use Rattle.hs_standing.specs.Start.{Start};

/// At a moment of a run on a store with one copy of each shard, whatever images count then open at the
/// store behind what was answered below the moment and then what is pending in them, all of it one
/// legal run. They are sound. What is pending is of lines that were begun and not answered, or of no
/// line, and of no line twice. The machine may be any over the core's events, and may have failed.
pub fn images_that_count_reopen()
    ensures reopens { (machine : Machine Whole Event) (start : Start) (stop : Stop)
        (journal : List JournalEntry) (images : List Image)
        → IsShape start.set.shape → start.set.shape.copies ≡ 1
        → length stop.disks ≡ start.set.shape.shards
        → AtMoment machine (StandsWhereGood machine start stop) start.set.shape
        stop.course journal stop.moment stop.disks
        → AreGoodImages start.set.shape stop images →
        Reopens start stop (below stop.moment journal) images }
    // so the next run may begin with them, and what its stops leave is sound again
    ensures again { (machine : Machine Whole Event) (start : Start) (stop : Stop)
        (journal : List JournalEntry) (images : List Image)
        → IsShape start.set.shape → start.set.shape.copies ≡ 1
        → length stop.disks ≡ start.set.shape.shards
        → AtMoment machine (StandsWhereGood machine start stop) start.set.shape
        stop.course journal stop.moment stop.disks
        → AreGoodImages start.set.shape stop images →
        AreSoundAlong start.set (taken_lists start.set.shape (image_logs images)) }
{}

/// Whatever the disk of a good peer may have left at a moment is a log, also where other shards are lost.
pub fn good_images_are_logs()
    ensures logs { (machine : Machine Whole Event) (start : Start) (stop : Stop)
        (journal : List JournalEntry) (images : List Image) (peer : ℕ)
        → peer < start.set.shape.shards * start.set.shape.copies
        → AtMoment machine (GoodPeersCount machine) start.set.shape
        stop.course journal stop.moment stop.disks
        → IsGoodImage stop images peer → IsSome (list_in (image_at images peer)) }
{}
