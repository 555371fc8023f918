//! The cause of each status.
ghost use Rattle.std.specs.Prelude.{◌≡◌, ◌<◌, ℕ, IfSome, Option};
ghost use Rattle.hs_events.specs.Taken.{peer_count};
ghost use Rattle.hs_ports.specs.Fault.{HasRisen};
ghost use Rattle.hs_promise.specs.Causes.{Cause, CauseButLoss};
ghost use Rattle.hs_promise.specs.declared.status.Status.TheVariants as status;
ghost use Rattle.hs_promise.specs.Machine.{WentAs};
ghost use Rattle.hs_promise.specs.Run.{Ran, Script};
ghost use Rattle.hs_promise.specs.Story.{Story};
ghost use Rattle.hs_settled.specs.Opened.{OpensRanked};
ghost use Rattle.hs_side.specs.declared.header.Header.{Header};

/// Each status has its cause, but for a shard that is lost (`any`): a full journal would have had more
/// entries than its limit, each of which stands for something; with any other status nothing was
/// refused. That the source or the sink failed its count shows; which disk is of another store is
/// known from opening. A shard is lost (`lost`) where each of its peers was to fail or was noted to be
/// down, and no line behind starts it; or joins since its start, and no settle was gone past behind
/// that. With more copies than one, premises are that the shape is one that is served, and that a
/// shard whose list has no entry has had no view.
pub fn each_status_has_its_cause()
    ensures any { (S : Script) (r : Ran) (how : Option Story) → WentAs S r how
        → (r.ending ≡ status.ReadFault → HasRisen r.old.source_faults r.new.source_faults)
        → (r.ending ≡ status.WriteFault → HasRisen r.old.sink_faults r.new.sink_faults)
        → ((peer : ℕ) (found : Header) → r.ending ≡ status.WrongShape peer found
        → peer < peer_count S.set.shape) → CauseButLoss S r r.ending }
    ensures lost { (S : Script) (r : Ran) (how : Option Story) → WentAs S r how
        → ((S.set.shape.copies ≡ 1 → ⊥) → IfSome how (λ story. OpensRanked S.set story.found))
        → (r.ending ≡ status.ReadFault → HasRisen r.old.source_faults r.new.source_faults)
        → (r.ending ≡ status.WriteFault → HasRisen r.old.sink_faults r.new.sink_faults)
        → ((peer : ℕ) (found : Header) → r.ending ≡ status.WrongShape peer found
        → peer < peer_count S.set.shape) → Cause S r r.ending }
{}
