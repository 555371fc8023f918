//! The core beside its whole lists, for any number of copies.
ghost use Rattle.std.specs.Prelude.{◌≡◌, ℕ, None};
ghost use Rattle.hs_copies.specs.Machine.{Copies};
ghost use Rattle.hs_core_copies.specs.Lists.{numbered};
ghost use Rattle.hs_core_words.specs.declared.event.Event.{Event};
ghost use Rattle.hs_core_words.specs.Step.{step};
ghost use Rattle.hs_entry.specs.declared.entry.Entry.{Entry};
ghost use Rattle.hs_events.specs.Found.{Found, first_core, opened_list};
ghost use Rattle.hs_events.specs.Whole.{Whole, open_whole, step_whole};
ghost use Rattle.hs_fold.specs.Shards.Setting.{Setting};
ghost use Rattle.hs_members.specs.Members.{IsShard};
ghost use Rattle.hs_whole_copies.specs.Opening.{MayOpenWhole};
ghost use Rattle.hs_whole_copies.specs.Whole.{IsShardInStep, IsWholeInStep, StaysInStep, StaysWhole};

/// A store that opens is so, where its core does not end at once: there are machines of its shards' copies
/// of which the whole lists are those that `open_whole` counts (`opens`). Of any such machines what took effect
/// is the list with which the shard opens (`took`).
pub fn what_opens_is_whole_in_step()
    ensures opens { (set : Setting) (found : Found) → MayOpenWhole set found
        → (first_core set found).ended ≡ None
        → (machines : ℕ → Copies Entry) × IsWholeInStep (open_whole set found) machines }
    ensures took { (set : Setting) (found : Found) (machines : ℕ → Copies Entry) (shard : ℕ)
        → MayOpenWhole set found → IsWholeInStep (open_whole set found) machines → IsShard set.shape shard
        → numbered (machines shard).took ≡ opened_list set found shard }
{}

/// Each event keeps it, until the core ends: of a shard, and of all of them. What took effect never leaves
/// what has taken effect; and what has taken effect behind the event stood in the lead's list as it came: no
/// entry takes effect in the event in which it is proposed, also where a view begins by it.
pub fn what_is_whole_in_step_stays_so()
    ensures shard { (shard : ℕ) (c : Whole) (event : Event) (moment : ℕ) (copies : Copies Entry)
        → IsShardInStep shard c copies → (step event moment c.core).ended ≡ None
        → StaysInStep shard (step_whole event moment c) copies }
    ensures all { (c : Whole) (event : Event) (moment : ℕ) (machines : ℕ → Copies Entry)
        → IsWholeInStep c machines → (step event moment c.core).ended ≡ None
        → StaysWhole (step_whole event moment c) machines }
{}
