//! Whatever step answers an operation, it answers what the plain store's judge says.
ghost use Rattle.std.specs.Prelude.{◌≡◌, ℕ, List, None};
ghost use Rattle.hs_answered.specs.Asked.{IsAsked, busy_with, first_step};
ghost use Rattle.hs_answered.specs.Judged.{IsJudged};
ghost use Rattle.hs_answered.specs.Standing.{IsAddressed, IsFolded, store_with};
ghost use Rattle.hs_awaiting.specs.declared.waiting.Waiting.{Waiting};
ghost use Rattle.hs_core_words.specs.Looking.{shape_of};
ghost use Rattle.hs_core_words.specs.Operating.{begin_line, take_step};
ghost use Rattle.hs_core_words.specs.Seeing.{view_for};
ghost use Rattle.hs_core_words.specs.State.{Core};
ghost use Rattle.hs_fold.specs.Runs.Facts.{Catalogue as Folded};
ghost use Rattle.hs_model.specs.declared.op.Op.{Op};
ghost use Rattle.hs_model.specs.declared.reply.Reply.{Reply};
ghost use Rattle.hs_ops.specs.declared.step.OpStep.TheVariants.{Answer};
ghost use Rattle.hs_ops.specs.Operations.{go_step};
ghost use Rattle.hs_ops.specs.Speaking.{judging_shard};

use hs_shown::{an_answer_by_the_view_is_the_stores, bytes_are_answered_as_the_store_does};

/// Whatever step answers an operation, that answer is the judge's: the first step at its own line,
/// where its session is not busy and a write without an address has no block, and each later one of
/// an operation that has its address. So is that of a read whose block is gone.
pub fn a_step_that_answers_is_the_judges()
    ensures first { (cs : List Folded) (core : Core) (line : ℕ) (o : Op) (r : Reply)
        → IsFolded core cs → IsAsked (store_with cs core.sessions) o → busy_with o core ≡ None
        → first_step line o core ≡ Answer r →
        IsJudged cs core (begin_line line o core) line o }
    ensures later { (cs : List Folded) (core : Core) (line : ℕ) (w : Waiting) (r : Reply)
        → IsFolded core cs → IsAddressed core.sessions w.operation.op
        → w.shard ≡ judging_shard (shape_of core).shards core.sessions w.operation.op
        → go_step (view_for w.shard w.operation.op core) w.operation ≡ Answer r →
        IsJudged cs core (take_step line w (Answer r) core) line w.operation.op }
{
    an_answer_by_the_view_is_the_stores();
    bytes_are_answered_as_the_store_does();
}
