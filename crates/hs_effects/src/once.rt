//! Lines of entries that wait.
ghost use Rattle.std.specs.Prelude.{◌≡◌, ℕ, List, Some, slice_get};
ghost use Rattle.hs_core_words.specs.Looking.{group_of};
ghost use Rattle.hs_core_words.specs.State.{Core};
ghost use Rattle.hs_effects.specs.Logged.{IsOrderly, asked_by};
ghost use Rattle.hs_entry.specs.declared.entry.Entry.{Entry};
ghost use Rattle.hs_limits.specs.declared.address.Address.{Address};

/// No two entries that have not taken effect are of one line: the operation of a line waits for one
/// entry, in one shard.
pub fn no_line_waits_twice()
    ensures { (name : List ℕ → Address) (core : Core) → IsOrderly name core
        → (shard i : ℕ) (entry : Entry) (other j : ℕ) (second : Entry) (line : ℕ)
        → slice_get (group_of shard core).waiting i ≡ Some entry
        → slice_get (group_of other core).waiting j ≡ Some second
        → asked_by entry ≡ Some line → asked_by second ≡ Some line → (shard ≡ other) × (i ≡ j) }
{}
