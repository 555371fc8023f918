//! What tails rest on.
ghost use Rattle.std.specs.Prelude.{◌≡◌, ◌+◌, ◌<◌, ◌++◌, ℕ, List, ◌∷◌};
ghost use Rattle.hs_answered.specs.Telling.{Judging};
ghost use Rattle.hs_core_words.specs.Looking.{group_of, shape_of};
ghost use Rattle.hs_core_words.specs.Records.{HasRecordRoom};
ghost use Rattle.hs_core_words.specs.State.{Core};
ghost use Rattle.hs_effects.specs.Lawful.{MayFollow};
ghost use Rattle.hs_effects.specs.Logged.{IsOrderly};
ghost use Rattle.hs_entry.specs.declared.entry.Entry.{Entry};
ghost use Rattle.hs_fold.specs.Runs.Facts.{Catalogue as Folded};
ghost use Rattle.hs_fold.specs.Runs.History.{follow};
ghost use Rattle.hs_fold.specs.Shards.Setting.{Setting};
ghost use Rattle.hs_limits.specs.declared.address.Address.{Address};
ghost use Rattle.hs_limits.specs.Shape.{IsShape};
ghost use Rattle.hs_model.specs.Store.{Store};
ghost use Rattle.hs_standing.specs.Legal.{IsStanding};
ghost use Rattle.hs_tails.specs.Tails.{HasOpenLines, RestsIn, TailRests};

use hs_effects::no_line_waits_twice;

/// In a core that stands, with few root records, what waits of a shard rests on what is there
/// (`rests`); each line that asked for an entry of it is open there, and asked for no other (`lines`).
pub fn what_waits_is_a_tail()
    ensures rests { (by : Judging) (start : Store) (core : Core) (cs : List Folded) (shard : ℕ)
        → IsStanding by start core cs → HasRecordRoom core → shard < (shape_of core).shards →
        RestsIn by.name core cs shard (group_of shard core).waiting }
    ensures lines { (name : List ℕ → Address) (core : Core) (shard : ℕ)
        → IsOrderly name core → HasOpenLines core shard (group_of shard core).waiting }
{
    no_line_waits_twice();
}

/// What a stop or a view leaves of a tail is a front of it, and as good.
pub fn a_front_of_a_tail_is_a_tail()
    ensures rests { (set : Setting) (cs : List Folded) (shard front : ℕ) (tail more : List Entry)
        → TailRests set cs shard front (tail ++ more) → TailRests set cs shard front tail }
    ensures lines { (core : Core) (shard : ℕ) (tail more : List Entry)
        → HasOpenLines core shard (tail ++ more) → HasOpenLines core shard tail }
{}

/// Where an entry takes effect, each tail that begins with it rests behind it without it, whatever
/// else stands in the tail (`first`): a Got of it would be accepted still, and its sender keeps it;
/// and each tail of another shard rests as it is (`other`).
pub fn each_tail_rests_behind_an_entry()
    ensures first { (set : Setting) (cs : List Folded) (shard front : ℕ) (entry : Entry)
        (rest : List Entry) → IsShape set.shape
        → MayFollow set cs (record { shard = shard; number = front + 1; entry = entry })
        → TailRests set cs shard front (entry ∷ rest) →
        TailRests set (follow set cs (record { shard = shard; number = front + 1; entry = entry }))
        shard (front + 1) rest }
    ensures other { (set : Setting) (cs : List Folded) (shard front : ℕ) (entry : Entry)
        (another at_front : ℕ) (tail : List Entry) → IsShape set.shape
        → MayFollow set cs (record { shard = shard; number = front + 1; entry = entry })
        → TailRests set cs another at_front tail → (another ≡ shard → ⊥) →
        TailRests set (follow set cs (record { shard = shard; number = front + 1; entry = entry }))
        another at_front tail }
{}
