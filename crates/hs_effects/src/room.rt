//! Room for the entries that take effect.
ghost use Rattle.std.specs.Prelude.{◌≡◌, ℕ, List, Option, Some, None};
ghost use Rattle.hs_core_words.specs.Looking.{group_of};
ghost use Rattle.hs_core_words.specs.Seeing.{view_for};
ghost use Rattle.hs_core_words.specs.State.{Core};
ghost use Rattle.hs_desk.specs.declared.what.What.TheVariants as what;
ghost use Rattle.hs_effects.specs.Logged.{IsOrderly};
ghost use Rattle.hs_effects.specs.Taking.{done_by, taken};
ghost use Rattle.hs_entry.specs.declared.entry.Entry.TheVariants as kind;
ghost use Rattle.hs_limits.specs.declared.address.Address.{Address};
ghost use Rattle.hs_model.specs.declared.op.Op.TheVariants as op;
ghost use Rattle.hs_ops.specs.Refusals.{no_room_for_block, no_room_for_root};
ghost use Rattle.hs_replica.specs.Group.{committed};

/// A Block that takes effect has its room below the limit of blocks, and a Root below that of roots:
/// no write and no root is refused for want of room by what it sees of its shard before the entry
/// (`blocks`, `roots`), nor behind it, where the entry was refused (`block_refused`,
/// `root_refused`).
pub fn an_entry_has_its_room()
    ensures blocks { (name : List ℕ → Address) (core : Core) (shard number line least : ℕ)
        (bytes session payload handles : List ℕ) (address : Option Address)
        → IsOrderly name core
        → committed (group_of shard core) ≡ Some (number, kind.Block line least bytes) →
        no_room_for_block (view_for shard (op.Write session payload handles address) core) ≡ None }
    ensures block_refused { (name : List ℕ → Address) (core : Core)
        (shard number line least : ℕ) (bytes session payload handles : List ℕ)
        (address : Option Address)
        → IsOrderly name core
        → let entry = kind.Block line least bytes in
        committed (group_of shard core) ≡ Some (number, entry)
        → (done_by shard entry core).effect.what ≡ what.Refused →
        no_room_for_block
        (view_for shard (op.Write session payload handles address) (taken shard entry core))
        ≡ None }
    ensures roots { (name : List ℕ → Address) (core : Core) (shard number line epoch : ℕ)
        (a : Address) (key session : List ℕ) (handle : ℕ)
        → IsOrderly name core
        → committed (group_of shard core) ≡ Some (number, kind.Root line epoch a key) →
        no_room_for_root (view_for shard (op.Root session key handle) core) key ≡ None }
    ensures root_refused { (name : List ℕ → Address) (core : Core)
        (shard number line epoch : ℕ) (a : Address) (key session : List ℕ) (handle : ℕ)
        → IsOrderly name core
        → let entry = kind.Root line epoch a key in
        committed (group_of shard core) ≡ Some (number, entry)
        → (done_by shard entry core).effect.what ≡ what.Refused →
        no_room_for_root
        (view_for shard (op.Root session key handle) (taken shard entry core)) key ≡ None }
{}
