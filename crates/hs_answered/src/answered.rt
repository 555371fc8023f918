//! What an operation is answered by what it sees is what the plain store's judge says.
ghost use Rattle.std.specs.Prelude.{◌≡◌, ℕ, List, Some, None};
ghost use Rattle.hs_answered.specs.Judged.{IsJudged};
ghost use Rattle.hs_answered.specs.Standing.{IsAddressed, IsFolded};
ghost use Rattle.hs_awaiting.specs.declared.waiting.Waiting.{Waiting};
ghost use Rattle.hs_core_words.specs.Looking.{shape_of};
ghost use Rattle.hs_core_words.specs.Operating.{answer, begin_line, busy_line};
ghost use Rattle.hs_core_words.specs.Seeing.{view_for};
ghost use Rattle.hs_core_words.specs.State.{Core};
ghost use Rattle.hs_fold.specs.Runs.Facts.{Catalogue as Folded};
ghost use Rattle.hs_model.specs.declared.op.Op.{Op};
ghost use Rattle.hs_model.specs.declared.reply.Reply.{Reply};
ghost use Rattle.hs_ops.specs.Going.{judged_in};
ghost use Rattle.hs_ops.specs.Speaking.{judging_shard};

use hs_shown::{an_answer_by_the_view_is_the_stores, bytes_are_answered_as_the_store_does};

/// An operation that is answered by what it sees of the core: the entry of its line has the reply and
/// the deed of the plain store's judge, and the store of the core afterwards is the one that the judge
/// leaves. So it is for one that waited and goes on, and for one at its own line whose session has no
/// other.
pub fn an_answer_is_the_judges()
    ensures answered { (cs : List Folded) (core : Core) (line : ℕ) (w : Waiting) (r : Reply)
        → IsFolded core cs → IsAddressed core.sessions w.operation.op
        → w.shard ≡ judging_shard (shape_of core).shards core.sessions w.operation.op
        → judged_in (view_for w.shard w.operation.op core) w.operation.op ≡ Some r →
        IsJudged cs core (answer line w r core) line w.operation.op }
    ensures begun { (cs : List Folded) (core : Core) (line : ℕ) (o : Op) (r : Reply)
        → IsFolded core cs → IsAddressed core.sessions o → busy_line o core ≡ None
        → judged_in (view_for (judging_shard (shape_of core).shards core.sessions o) o core) o ≡ Some r →
        IsJudged cs core (begin_line line o core) line o }
{
    an_answer_by_the_view_is_the_stores();
    bytes_are_answered_as_the_store_does();
}
