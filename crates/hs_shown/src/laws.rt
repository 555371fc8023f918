//! Laws of views that show a plain store: each is a call with an empty body.
ghost use Rattle.std.specs.Prelude.{◌≡◌, ◌+◌, ℕ, true, false, List, Option, Some, None, slice_index};
ghost use Rattle.hs_desk.specs.declared.what.What.TheVariants as what;
ghost use Rattle.hs_limits.specs.declared.address.Address.{Address};
ghost use Rattle.hs_limits.specs.declared.limits.Limits.{Limits};
ghost use Rattle.hs_model.specs.declared.op.Op.{Op};
ghost use Rattle.hs_model.specs.declared.op.Op.TheVariants as op;
ghost use Rattle.hs_model.specs.declared.reply.Reply.{Reply};
ghost use Rattle.hs_model.specs.declared.reply.Reply.TheVariants as reply;
ghost use Rattle.hs_model.specs.declared.store.StoredBlock.{StoredBlock};
ghost use Rattle.hs_model.specs.Judge.{address_of, bytes_of, given_address, judge, written};
ghost use Rattle.hs_model.specs.Refusals.{is_block};
ghost use Rattle.hs_model.specs.Store.{Store, block_at};
ghost use Rattle.hs_ops.specs.Going.{effect_reply, judged_in, read_reply};
ghost use Rattle.hs_ops.specs.Refusals.{refusal_of};
ghost use Rattle.hs_ops.specs.Views.{OpView};
ghost use Rattle.hs_shown.specs.Showing.{Shows};

/// What the view alone answers, each refusal but Collision among it, the plain store answers.
#[tactic(auto, using(crate::proofs::AnswerLemmas::by_the_view))]
pub fn an_answer_by_the_view_is_the_stores()
    ensures { (limits : Limits) (s : Store) (o : Op) (v : OpView) (r : Reply)
        → Shows limits s o v → judged_in v o ≡ Some r → (judge limits s o).reply ≡ r }
{}

/// What the effect of an entry answers to an operation that is not refused then, the plain store
/// answers.
#[tactic(auto, using(crate::proofs::EffectLemmas::stored, crate::proofs::EffectLemmas::marked, crate::proofs::EffectLemmas::rooted, crate::proofs::EffectLemmas::dropped, crate::proofs::EffectLemmas::entered))]
pub fn an_effect_is_the_stores()
    // A new block.
    ensures stored { (limits : Limits) (s : Store) (v : OpView) (name payload handles : List ℕ) (address : Option Address)
        → Shows limits s (op.Write name payload handles address) v
        → refusal_of v (op.Write name payload handles address) ≡ None
        → block_at s (given_address address) ≡ None
        → effect_reply v what.Stored (op.Write name payload handles address)
        ≡ Some (judge limits s (op.Write name payload handles address)).reply }
    // A block that was there.
    ensures marked { (limits : Limits) (s : Store) (v : OpView) (name payload handles : List ℕ) (address : Option Address) (stored : StoredBlock)
        → Shows limits s (op.Write name payload handles address) v
        → refusal_of v (op.Write name payload handles address) ≡ None
        → block_at s (given_address address) ≡ Some stored
        → is_block stored (written s name payload handles) ≡ true
        → effect_reply v what.Marked (op.Write name payload handles address)
        ≡ Some (judge limits s (op.Write name payload handles address)).reply }
    ensures rooted { (limits : Limits) (s : Store) (v : OpView) (name key : List ℕ) (handle : ℕ)
        → Shows limits s (op.Root name key handle) v
        → refusal_of v (op.Root name key handle) ≡ None
        → effect_reply v what.Rooted (op.Root name key handle)
        ≡ Some (judge limits s (op.Root name key handle)).reply }
    ensures dropped { (limits : Limits) (s : Store) (v : OpView) (key : List ℕ)
        → Shows limits s (op.Drop key) v → refusal_of v (op.Drop key) ≡ None
        → effect_reply v what.Dropped (op.Drop key) ≡ Some (judge limits s (op.Drop key)).reply }
    ensures entered { (limits : Limits) (s : Store) (v : OpView)
        → Shows limits s op.Delete v → refusal_of v op.Delete ≡ None
        → effect_reply v (what.Entered (slice_index s.epochs 0 + 1)) op.Delete
        ≡ Some (judge limits s op.Delete).reply }
{}

/// Where the bytes of a block are told to an operation that is not refused then, the plain store
/// answers a read with them and a write of another block with Collision.
#[tactic(auto, using(crate::proofs::EffectLemmas::read_is, crate::proofs::EffectLemmas::collides))]
pub fn bytes_are_answered_as_the_store_does()
    ensures read { (limits : Limits) (s : Store) (v : OpView) (name : List ℕ) (handle : ℕ)
        → Shows limits s (op.Read name handle) v → refusal_of v (op.Read name handle) ≡ None
        → read_reply v name (bytes_of (block_at s (address_of s name handle)))
        ≡ (judge limits s (op.Read name handle)).reply }
    ensures collision { (limits : Limits) (s : Store) (v : OpView) (name payload handles : List ℕ) (address : Option Address) (stored : StoredBlock)
        → Shows limits s (op.Write name payload handles address) v
        → refusal_of v (op.Write name payload handles address) ≡ None
        → block_at s (given_address address) ≡ Some stored
        → is_block stored (written s name payload handles) ≡ false
        → (judge limits s (op.Write name payload handles address)).reply ≡ reply.Collision }
{}
