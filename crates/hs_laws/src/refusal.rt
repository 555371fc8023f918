//! A refusal leaves the store.
ghost use Rattle.std.specs.Prelude.{◌≡◌, Some, Contains};
ghost use Rattle.hs_limits.specs.declared.limits.Limits.{Limits};
ghost use Rattle.hs_model.specs.declared.op.Op.{Op};
ghost use Rattle.hs_model.specs.declared.reply.Reply.{Reply};
ghost use Rattle.hs_model.specs.Judge.{judge, refusals};
ghost use Rattle.hs_model.specs.Refusals.{first};
ghost use Rattle.hs_model.specs.Store.{Store};

/// Where any refusal of its line holds an operation leaves the store as it was, and answers the first
/// of them.
pub fn a_refusal_leaves_the_store()
    ensures kept { (limits : Limits) (s : Store) (o : Op) (refusal : Reply) → Contains (refusals limits s o) (Some refusal) → (judge limits s o).store ≡ s }
    ensures told { (limits : Limits) (s : Store) (o : Op) (refusal : Reply) → first (refusals limits s o) ≡ Some refusal → (judge limits s o).reply ≡ refusal }
{}
