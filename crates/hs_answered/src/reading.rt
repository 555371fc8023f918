//! What a read is answered when bytes are reported for it.
ghost use Rattle.std.specs.Prelude.{◌≡◌, ℕ, List, Option};
ghost use Rattle.hs_answered.specs.Asked.{HasBytes};
ghost use Rattle.hs_answered.specs.Judged.{IsJudged, IsTold, judged_at, telling};
ghost use Rattle.hs_answered.specs.Standing.{IsAddressed, IsFolded, store_with};
ghost use Rattle.hs_awaiting.specs.declared.waiting.Waiting.{Waiting};
ghost use Rattle.hs_core_words.specs.Looking.{shape_of};
ghost use Rattle.hs_core_words.specs.Operating.{take_step};
ghost use Rattle.hs_core_words.specs.Seeing.{pointers_for, view_for};
ghost use Rattle.hs_core_words.specs.State.{Core};
ghost use Rattle.hs_fold.specs.Runs.Facts.{Catalogue as Folded};
ghost use Rattle.hs_model.specs.declared.op.Op.TheVariants as op;
ghost use Rattle.hs_model.specs.declared.reply.Reply.{Reply};
ghost use Rattle.hs_model.specs.Judge.{address_of};
ghost use Rattle.hs_model.specs.Store.{block_at};
ghost use Rattle.hs_ops.specs.declared.step.OpStep.TheVariants.{Answer};
ghost use Rattle.hs_ops.specs.Going.{data_of};
ghost use Rattle.hs_ops.specs.Operations.{bytes_step};
ghost use Rattle.hs_ops.specs.Speaking.{judging_shard};

use hs_shown::{an_answer_by_the_view_is_the_stores, bytes_are_answered_as_the_store_does};

/// A read that is told bytes is answered as the judge says, where they are those of its block.
/// Whatever they are, all but the data in its reply is the judge's: deed, handles, and the store
/// afterwards.
pub fn a_read_is_the_judges()
    ensures whatever { (cs : List Folded) (core : Core) (line : ℕ)
        (bytes : Option (List ℕ)) (w : Waiting) (name : List ℕ) (handle : ℕ) (r : Reply)
        → IsFolded core cs → IsAddressed core.sessions w.operation.op
        → w.shard ≡ judging_shard (shape_of core).shards core.sessions w.operation.op
        → w.operation.op ≡ op.Read name handle
        → bytes_step (view_for w.shard w.operation.op core) bytes
        (pointers_for w.shard w.operation.op core) w.operation ≡ Answer r →
        IsTold cs core (take_step line w (Answer r) core) line
        (telling (data_of bytes) (judged_at cs core w.operation.op)) }
    ensures told { (cs : List Folded) (core : Core) (line : ℕ)
        (bytes : Option (List ℕ)) (w : Waiting) (name : List ℕ) (handle : ℕ) (r : Reply)
        → IsFolded core cs → IsAddressed core.sessions w.operation.op
        → w.shard ≡ judging_shard (shape_of core).shards core.sessions w.operation.op
        → w.operation.op ≡ op.Read name handle
        → HasBytes (block_at (store_with cs core.sessions)
        (address_of (store_with cs core.sessions) name handle)) bytes
        → bytes_step (view_for w.shard w.operation.op core) bytes
        (pointers_for w.shard w.operation.op core) w.operation ≡ Answer r →
        IsJudged cs core (take_step line w (Answer r) core) line w.operation.op }
{
    an_answer_by_the_view_is_the_stores();
    bytes_are_answered_as_the_store_does();
}
