//! The catalogues of all shards follow the machine.
ghost use Rattle.std.specs.Prelude.{ℕ, List};
ghost use Rattle.hs_deletion.specs.Machine.{empty_machine, Layout, Machine};
ghost use Rattle.hs_deletion.specs.History.{MayEnter};
ghost use Rattle.hs_deletion.specs.Catalogue.{blank_catalogue, ShardCatalogue};
ghost use Rattle.hs_deletion.specs.Following.{AreCountsFollowed, AreFitting, IsFollowed, IsFollowing, IsSearching, KeepsFollowed, LoggedEntry, SendsFirst, SendsNext};
ghost use Rattle.hs_deletion.specs.History.{IsMade};

/// What entries of all shards do that fit where they stand is a lawful history, and the catalogues that they make follow
/// it. So a round does something only where it completes the open one, and then the shard completes a row.
pub fn catalogues_follow_a_lawful_history()
    ensures empty { (layout : Layout) → IsFollowed layout empty_machine (λ shard. blank_catalogue) }
    ensures kept { (layout : Layout) (m : Machine) (catalogues : ℕ → ShardCatalogue) (entries : List LoggedEntry) → IsFollowed layout m catalogues → AreFitting layout entries catalogues m → KeepsFollowed layout m catalogues entries }
{}

/// Each count in a catalogue is how often the address is named in all catalogues, but for what is on its way.
pub fn counts_of_catalogues_are_right()
    ensures counts { (layout : Layout) (m : Machine) (catalogues : ℕ → ShardCatalogue) → IsFollowed layout m catalogues → AreCountsFollowed layout m catalogues }
{}

/// What a catalogue sends to any shard where it enters an epoch, or completes a round that isn't the last, is what the
/// machine's shard has sent then.
pub fn catalogues_send_what_the_machine_sends()
    ensures first { (layout : Layout) (m : Machine) (shard : ℕ) (c : ShardCatalogue) → IsMade layout m → IsFollowing layout m shard c → MayEnter layout m shard → SendsFirst layout m shard c }
    ensures next { (layout : Layout) (m : Machine) (shard : ℕ) (c : ShardCatalogue) → IsMade layout m → IsSearching layout m shard c → SendsNext layout m shard c }
{}
