//! What holds of a shard's copies in the core.
ghost use Rattle.std.specs.Prelude.{◌≡◌, ℕ, ◌≤◌, Option, Some, true};
ghost use Rattle.hs_entry.specs.declared.entry.Entry.{Entry};
ghost use Rattle.hs_replica.specs.Group.{IsHome, copy_of, last_number, lead, length_of};
ghost use Rattle.hs_copies.specs.CoreCopies.{CoreCopies};
ghost use Rattle.hs_copies.specs.Lists.{IsFront};
ghost use Rattle.hs_copies.specs.Machine.{Copies};
ghost use Rattle.hs_copies.specs.Standing.{StandsFor};

/// Where a shard's copies in the core stand for copies of the machine: the stamps of each good copy are a front
/// of the lead's, and no shorter than what took effect; and the entries that wait are the last of the lead's.
pub fn stamps_of_good_copies_are_fronts_of_the_leads()
    ensures stamps { (line : Entry → Option ℕ) (c : CoreCopies) (s : Copies Entry) (peer leads : ℕ) → StandsFor line c s
        → IsHome c.group peer → (copy_of c.group peer).good ≡ true → lead c.group ≡ Some leads
        → IsFront (copy_of c.group peer).stamps (copy_of c.group leads).stamps }
    ensures effects { (line : Entry → Option ℕ) (c : CoreCopies) (s : Copies Entry) (peer : ℕ) → StandsFor line c s
        → IsHome c.group peer → (copy_of c.group peer).good ≡ true → c.group.front ≤ length_of c.group peer }
    ensures waiting { (line : Entry → Option ℕ) (c : CoreCopies) (s : Copies Entry) (leads : ℕ) → StandsFor line c s → lead c.group ≡ Some leads
        → last_number c.group ≡ length_of c.group leads }
{}
