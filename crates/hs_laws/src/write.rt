//! What a write answers, and what it then stands on.
ghost use Rattle.std.specs.Prelude.{◌≡◌, ℕ, List, Option, Some, None};
ghost use Rattle.hs_limits.specs.declared.address.Address.{Address};
ghost use Rattle.hs_limits.specs.declared.limits.Limits.{Limits};
ghost use Rattle.hs_model.specs.declared.op.Op.{Op};
ghost use Rattle.hs_model.specs.declared.op.Op.TheVariants.{Write};
ghost use Rattle.hs_model.specs.declared.reply.Reply.{Reply};
ghost use Rattle.hs_model.specs.declared.reply.Reply.TheVariants.{New, Dup, Collision};
ghost use Rattle.hs_model.specs.Judge.{judge, given_address, written};
ghost use Rattle.hs_model.specs.Refusals.{first};
ghost use Rattle.hs_model.specs.Store.{Store, block_at};
ghost use Rattle.hs_laws.specs.Written.{IsWrite, IsBlockAt, IsOtherAt, before_collision};

/// Dup is answered only to a write, and only where the present block at its address has these bytes
/// and these pointers. The blocks stay as they were.
pub fn dup_is_the_same_block()
    ensures there { (limits : Limits) (s : Store) (name payload handles : List ℕ) (address : Option Address) (handle epoch : ℕ) → (judge limits s (Write name payload handles address)).reply ≡ Dup handle epoch → IsBlockAt s (given_address address) (written s name payload handles) }
    ensures stays { (limits : Limits) (s : Store) (name payload handles : List ℕ) (address : Option Address) (handle epoch : ℕ) → (judge limits s (Write name payload handles address)).reply ≡ Dup handle epoch → (judge limits s (Write name payload handles address)).store.blocks ≡ s.blocks }
    ensures only { (limits : Limits) (s : Store) (o : Op) (handle epoch : ℕ) → (judge limits s o).reply ≡ Dup handle epoch → IsWrite o }
{}

/// New is answered only to a write, and only where no block was present at its address; afterwards
/// one is, with these bytes and these pointers.
pub fn new_was_absent()
    ensures absent { (limits : Limits) (s : Store) (name payload handles : List ℕ) (address : Option Address) (handle epoch : ℕ) → (judge limits s (Write name payload handles address)).reply ≡ New handle epoch → block_at s (given_address address) ≡ None }
    ensures there { (limits : Limits) (s : Store) (name payload handles : List ℕ) (address : Option Address) (handle epoch : ℕ) → (judge limits s (Write name payload handles address)).reply ≡ New handle epoch → IsBlockAt (judge limits s (Write name payload handles address)).store (given_address address) (written s name payload handles) }
    ensures only { (limits : Limits) (s : Store) (o : Op) (handle epoch : ℕ) → (judge limits s o).reply ≡ New handle epoch → IsWrite o }
{}

/// Where the present block at its address has other bytes or other pointers a write stores nothing.
/// It is refused for what comes before a collision in the order of its line, and else as a collision.
/// Collision is answered only there, and only to a write.
pub fn a_collision_stores_nothing()
    ensures stays { (limits : Limits) (s : Store) (name payload handles : List ℕ) (address : Option Address) → IsOtherAt s (given_address address) (written s name payload handles) → (judge limits s (Write name payload handles address)).store ≡ s }
    ensures earlier { (limits : Limits) (s : Store) (name payload handles : List ℕ) (address : Option Address) (refusal : Reply) → first (before_collision limits s name payload handles (given_address address)) ≡ Some refusal → (judge limits s (Write name payload handles address)).reply ≡ refusal }
    ensures refused { (limits : Limits) (s : Store) (name payload handles : List ℕ) (address : Option Address) → IsOtherAt s (given_address address) (written s name payload handles) → first (before_collision limits s name payload handles (given_address address)) ≡ None → (judge limits s (Write name payload handles address)).reply ≡ Collision }
    ensures other { (limits : Limits) (s : Store) (name payload handles : List ℕ) (address : Option Address) → (judge limits s (Write name payload handles address)).reply ≡ Collision → IsOtherAt s (given_address address) (written s name payload handles) }
    ensures only { (limits : Limits) (s : Store) (o : Op) → (judge limits s o).reply ≡ Collision → IsWrite o }
{}
