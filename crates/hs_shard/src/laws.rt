//! What effects tell of the catalogue.
ghost use Rattle.std.specs.Prelude.{◌≡◌, ℕ, None, Option};
ghost use Rattle.hs_desk.specs.declared.what.What.TheVariants.{Again, Refused};
ghost use Rattle.hs_entry.specs.declared.entry.Entry.{Entry};
ghost use Rattle.hs_limits.specs.declared.address.Address.{Address};
ghost use Rattle.hs_shard.specs.Apply.{apply};
ghost use Rattle.hs_shard.specs.Facts.{Catalogue};

/// An entry that is refused changes nothing, and neither does a Mark after which the write begins
/// again. Where no number of removed blocks is told, nothing was swept.
pub fn effects_tell_what_changed()
    ensures refused { (number : ℕ) (entry : Entry) (named : Option Address) (c : Catalogue) →
        (apply number entry named c).effect.what ≡ Refused →
        (apply number entry named c).catalogue ≡ c }
    ensures again { (number : ℕ) (entry : Entry) (named : Option Address) (c : Catalogue) →
        (apply number entry named c).effect.what ≡ Again →
        (apply number entry named c).catalogue ≡ c }
    ensures removed { (number : ℕ) (entry : Entry) (named : Option Address) (c : Catalogue) →
        (apply number entry named c).effect.removed ≡ None →
        (apply number entry named c).catalogue.swept ≡ c.swept }
{}
