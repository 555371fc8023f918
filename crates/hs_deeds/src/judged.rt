//! What the judge says, and what a shard does by itself, are deeds.
ghost use Rattle.std.specs.Prelude.{◌≡◌, ◌<◌, ℕ, IsTrue, List, Some, length};
ghost use Rattle.hs_deeds.specs.Told.{answered_as, happened_as};
ghost use Rattle.hs_limits.specs.declared.limits.Limits.{Limits};
ghost use Rattle.hs_model.specs.declared.op.Op.{Op};
ghost use Rattle.hs_model.specs.declared.op.Op.TheVariants as op;
ghost use Rattle.hs_model.specs.declared.reply.Reply.TheVariants as reply;
ghost use Rattle.hs_model.specs.Deeds.{DeedEntry, IsDeed, deed_store};
ghost use Rattle.hs_model.specs.Hollow.{hollow};
ghost use Rattle.hs_model.specs.Inner.{may_enter, may_sweep};
ghost use Rattle.hs_model.specs.Judge.{judge};
ghost use Rattle.hs_model.specs.Run.{enters, step, sweeps};
ghost use Rattle.hs_model.specs.Store.{Store};

/// What the judge answers to an operation at a store, a refusal too, is a deed at that store without
/// the data of its blocks, behind any entries (`is`), and leaves what the deed leaves (`leaves`). A
/// read that is not refused is one with whatever data (`data_free`).
pub fn a_judged_answer_is_a_deed()
    ensures is { (limits : Limits) (s : Store) (o : Op) (before : List DeedEntry) (line : ℕ) →
        IsDeed limits (hollow s) before (answered_as line (judge limits s o)) }
    ensures leaves { (limits : Limits) (s : Store) (o : Op) →
        hollow (judge limits s o).store ≡ deed_store (hollow s) (judge limits s o).deed }
    ensures data_free { (limits : Limits) (s : Store) (name : List ℕ) (handle line : ℕ)
        (bytes content handles : List ℕ) (before : List DeedEntry)
        → (judge limits s (op.Read name handle)).reply ≡ reply.Bytes bytes handles →
        IsDeed limits (hollow s) before (record {
          line = Some line;
          deed = (judge limits s (op.Read name handle)).deed;
          reply = reply.Bytes content handles;
        }) }
{}

/// What a shard does by itself at a store that allows it, it enters an epoch or sweeps one, is a deed
/// at that store without data, and leaves what the deed leaves: what a sweep removes, and how much of
/// it, rests on no data.
pub fn what_a_shard_does_is_a_deed()
    ensures enters { (limits : Limits) (s : Store) (shard : ℕ) (before : List DeedEntry)
        → shard < length s.epochs → IsTrue (may_enter s shard) →
        IsDeed limits (hollow s) before (happened_as (step limits s (enters shard))) }
    ensures entered { (limits : Limits) (s : Store) (shard : ℕ) →
        hollow (step limits s (enters shard)).store
        ≡ deed_store (hollow s) (step limits s (enters shard)).deed }
    ensures sweeps { (limits : Limits) (s : Store) (shard : ℕ) (before : List DeedEntry)
        → shard < length s.epochs → IsTrue (may_sweep s shard) →
        IsDeed limits (hollow s) before (happened_as (step limits s (sweeps shard))) }
    ensures swept { (limits : Limits) (s : Store) (shard : ℕ) →
        hollow (step limits s (sweeps shard)).store
        ≡ deed_store (hollow s) (step limits s (sweeps shard)).deed }
{}
