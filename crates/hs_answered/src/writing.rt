//! What a write is answered when bytes are reported for it.
ghost use Rattle.std.specs.Prelude.{◌≡◌, ℕ, List, Option, Some};
ghost use Rattle.hs_answered.specs.Asked.{HasBytes};
ghost use Rattle.hs_answered.specs.Judged.{IsJudged};
ghost use Rattle.hs_answered.specs.Standing.{IsAddressed, IsFolded, store_with};
ghost use Rattle.hs_awaiting.specs.declared.waiting.Waiting.{Waiting};
ghost use Rattle.hs_core_words.specs.Looking.{shape_of};
ghost use Rattle.hs_core_words.specs.Operating.{take_step};
ghost use Rattle.hs_core_words.specs.Seeing.{pointers_for, view_for};
ghost use Rattle.hs_core_words.specs.State.{Core};
ghost use Rattle.hs_fold.specs.Runs.Facts.{Catalogue as Folded};
ghost use Rattle.hs_limits.specs.declared.address.Address.{Address};
ghost use Rattle.hs_model.specs.declared.op.Op.TheVariants as op;
ghost use Rattle.hs_model.specs.declared.reply.Reply.{Reply};
ghost use Rattle.hs_model.specs.Judge.{given_address};
ghost use Rattle.hs_model.specs.Store.{block_at};
ghost use Rattle.hs_ops.specs.declared.step.OpStep.TheVariants.{Answer};
ghost use Rattle.hs_ops.specs.Operations.{bytes_step, wanted_number};
ghost use Rattle.hs_ops.specs.Speaking.{judging_shard};

use hs_shown::{an_answer_by_the_view_is_the_stores, bytes_are_answered_as_the_store_does};

/// A write that is told bytes and answered then is answered as the judge says, Collision too, where
/// they are those of its block if the entry whose bytes it wanted is still the one that stored it.
pub fn a_write_is_the_judges()
    ensures { (cs : List Folded) (core : Core) (line : ℕ) (bytes : Option (List ℕ))
        (w : Waiting) (name payload handles : List ℕ) (address : Option Address) (r : Reply)
        → IsFolded core cs → IsAddressed core.sessions w.operation.op
        → w.shard ≡ judging_shard (shape_of core).shards core.sessions w.operation.op
        → w.operation.op ≡ op.Write name payload handles address
        → ((view_for w.shard w.operation.op core).present ≡ Some (wanted_number w.operation.stage)
        → HasBytes (block_at (store_with cs core.sessions) (given_address address)) bytes)
        → bytes_step (view_for w.shard w.operation.op core) bytes
        (pointers_for w.shard w.operation.op core) w.operation ≡ Answer r →
        IsJudged cs core (take_step line w (Answer r) core) line w.operation.op }
{
    an_answer_by_the_view_is_the_stores();
    bytes_are_answered_as_the_store_does();
}
