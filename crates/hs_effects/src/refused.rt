//! An operation whose entry was refused at its effect is judged there.
ghost use Rattle.std.specs.Prelude.{◌≡◌, ℕ, ◌<◌, List, Some};
ghost use Rattle.hs_answered.specs.Judged.{IsJudged};
ghost use Rattle.hs_answered.specs.Standing.{IsAddressed, IsFolded};
ghost use Rattle.hs_awaiting.specs.declared.waiting.Waiting.{Waiting};
ghost use Rattle.hs_core_words.specs.Looking.{group_of, operation_of, shape_of};
ghost use Rattle.hs_core_words.specs.Seeing.{view_for};
ghost use Rattle.hs_core_words.specs.State.{Core};
ghost use Rattle.hs_desk.specs.declared.what.What.TheVariants as what;
ghost use Rattle.hs_effects.specs.Answered.{heard};
ghost use Rattle.hs_effects.specs.Logged.{IsOrderly, asked_by};
ghost use Rattle.hs_effects.specs.Taking.{done_by, folds_behind, taken};
ghost use Rattle.hs_entry.specs.declared.entry.Entry.{Entry};
ghost use Rattle.hs_fold.specs.Runs.Facts.{Catalogue as Folded};
ghost use Rattle.hs_limits.specs.declared.address.Address.{Address};
ghost use Rattle.hs_model.specs.declared.reply.Reply.{Reply};
ghost use Rattle.hs_ops.specs.Refusals.{refusal_of};
ghost use Rattle.hs_replica.specs.Group.{committed};

use hs_answered::an_answer_is_the_judges;

/// An entry that is refused at its effect: where what its operation sees behind it refuses that
/// too, the operation is told that refusal, which is the judge's at the store behind the entry.
pub fn a_refused_entry_is_judged_at_its_effect()
    ensures { (name : List ℕ → Address) (cs : List Folded) (core : Core) (shard number line : ℕ)
        (entry : Entry) (w : Waiting) (r : Reply)
        → IsFolded core cs → shard < (shape_of core).shards → IsOrderly name core
        → committed (group_of shard core) ≡ Some (number, entry)
        → asked_by entry ≡ Some line → operation_of line core ≡ Some w
        → (done_by shard entry core).effect.what ≡ what.Refused
        → IsAddressed core.sessions w.operation.op
        → refusal_of (view_for w.shard w.operation.op (taken shard entry core)) w.operation.op
        ≡ Some r →
        IsJudged (folds_behind name cs shard entry core) (taken shard entry core)
        (heard shard entry core) line w.operation.op }
{
    an_answer_is_the_judges();
}
