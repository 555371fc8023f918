//! A law of payloads.
ghost use Rattle.std.specs.Prelude.{◌≡◌, ℕ, ◌^◌, ◌<◌, ◌++◌, [], List, false};
ghost use Rattle.hs_entry.specs.declared.entry.Entry.{Entry};
ghost use Rattle.hs_entry.specs.Payload.{payload, runs_on};
ghost use Rattle.hs_entry.specs.Reading.{IsReadable};

/// No payload begins another, but for that of a Block, which runs to its end.
#[tactic(auto, using(crate::proofs::EntryLemmas::none_begins))]
pub fn no_payload_begins_another()
    ensures { (number other_number : ℕ) (entry other : Entry) (rest : List ℕ)
        → number < 2 ^ 64 → other_number < 2 ^ 64 → IsReadable entry → IsReadable other
        → runs_on entry ≡ false
        → payload other_number other ≡ payload number entry ++ rest → rest ≡ [] }
{}
