//! What follows of an asker and of the store that it tells.
ghost use Rattle.std.specs.List.{AllByRecursion};
ghost use Rattle.std.specs.Prelude.{◌≡◌, List, Some, ℕ};
ghost use Rattle.hs_asking.specs.Asked.{HasAsked};
ghost use Rattle.hs_asking.specs.Judged.{IsJudged};
ghost use Rattle.hs_asking.specs.Lawful.{AreAnswersOf, StandNamed};
ghost use Rattle.hs_asking.specs.Seats.{IsSane};
ghost use Rattle.hs_asking.specs.Shown.{Began, Shown, store_now};
ghost use Rattle.hs_asking.specs.Staying.{NeverDrops, Stays};
ghost use Rattle.hs_journal.specs.Events.{addressed};
ghost use Rattle.hs_limits.specs.declared.limits.Limits.{Limits};
ghost use Rattle.hs_model.specs.Run.{Event, IsLegal, run};
ghost use Rattle.hs_model.specs.Store.{Root, Store, retained_at};
ghost use Rattle.hs_model.specs.declared.op.Op.{Op};
ghost use Rattle.hs_model.specs.declared.reply.Reply.{Reply};

use crate::Asker;

/// Where an asker tells with what it began, what is asked for is judged on the plain store, with what
/// shards do by themselves before and behind it, while shard 0 stays in its epoch (`judged`). That store
/// is valid all along, with blocks within their bounds (`sane`), each at its name (`named`).
pub fn an_ask_is_judged<B: Asker>()
    ensures judged { (b : Began) (old new : Shown B.tells) (o : Op) (told : Reply) →
        AreAnswersOf b new → HasAsked old new o told → addressed b.name (store_now b old) o ≡ o →
        IsJudged b.limits (store_now b old) (store_now b new) o told }
    ensures sane { (b : Began) (s : Shown B.tells) → AreAnswersOf b s → IsSane (store_now b s) }
    ensures named { (b : Began) (s : Shown B.tells) → AreAnswersOf b s → StandNamed b.name (store_now b s) }
{}

/// Along legal events of which none drops its key a retained root stays, and all that its address leads
/// to stays with the same blocks.
pub fn a_root_keeps_its_blocks()
    ensures kept { (limits : Limits) (s : Store) (events : List Event) (key : List ℕ) (root : Root) →
        IsSane s → IsLegal limits s events → AllByRecursion (NeverDrops key) events →
        retained_at s key ≡ Some root → retained_at (run limits s events) key ≡ Some root }
    ensures stays { (limits : Limits) (s : Store) (events : List Event) (key : List ℕ) (root : Root) →
        IsSane s → IsLegal limits s events → AllByRecursion (NeverDrops key) events →
        retained_at s key ≡ Some root → Stays s (run limits s events) root.address }
{}
