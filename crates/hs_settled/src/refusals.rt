//! Why a line that is no client's is refused.
ghost use Rattle.std.specs.Prelude.{◌≡◌, ◌++◌, ℕ, [], ◌∷◌, Option, Some, None};
ghost use Rattle.hs_core_words.specs.State.{Core};
ghost use Rattle.hs_core_words.specs.Step.{line_of, step};
ghost use Rattle.hs_core_words.specs.declared.event.Event.{Event};
ghost use Rattle.hs_model.specs.declared.command.Command.{Command};
ghost use Rattle.hs_model.specs.declared.reply.Reply.{Reply};
ghost use Rattle.hs_settled.specs.Noted.{Adds, IsNoClients, IsNoted, IsOfClient, refusal_entry};
ghost use Rattle.hs_told.specs.InTurn.{refusal_in, told_of};

/// An event that is refused (`refusal_in`: no such peer, a peer that is down or is not, no such
/// message, a full pool) tells just that, under its line (`tells`). One that is not, and is no
/// client's line, tells nothing of a line but answers on clients' lines (`only`).
pub fn a_refusal_comes_where_its_row_says()
    ensures tells { (commands : ℕ → Option Command) (core : Core) (e : Event) (moment : ℕ)
        (r : Reply)
        → IsNoted commands core → core.ended ≡ None → refusal_in e core ≡ Some r →
        told_of (step e moment core)
        ≡ told_of core ++ refusal_entry (line_of e) moment r ∷ [] }
    ensures only { (commands : ℕ → Option Command) (core : Core) (e : Event) (moment : ℕ)
        → IsNoted commands core → core.ended ≡ None → IsNoClients e → refusal_in e core ≡ None →
        Adds (IsOfClient commands) core (step e moment core) }
{}
