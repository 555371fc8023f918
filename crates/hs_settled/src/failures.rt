//! A disk that fails is told once.
ghost use Rattle.std.specs.Prelude.{◌≡◌, ◌+◌, ◌*◌, ◌<◌, ℕ, List, Option, None, true, if◌then◌else◌};
ghost use Rattle.hs_core_words.specs.Opening.{Taken, new_core, open_core};
ghost use Rattle.hs_core_words.specs.State.{Core};
ghost use Rattle.hs_core_words.specs.Step.{step};
ghost use Rattle.hs_core_words.specs.declared.event.Event.{Event};
ghost use Rattle.hs_events.specs.Reports.{costs, failures};
ghost use Rattle.hs_journal.specs.Notes.{note_count};
ghost use Rattle.hs_limits.specs.declared.limits.Limits.{Limits};
ghost use Rattle.hs_limits.specs.declared.shape.Shape.{Shape};
ghost use Rattle.hs_members.specs.Members.{is_good_status, status};
ghost use Rattle.hs_model.specs.declared.command.Command.{Command};
ghost use Rattle.hs_settled.specs.Noted.{AllAnswer, AllAreOwn, IsAnswering, IsNoted};
ghost use Rattle.hs_told.specs.InTurn.{after_all, told_of};

/// As a core opens each peer that is not good is told of, once (`opened`).
/// A report that a disk failed is told as a note that its peer is down, once, where it answers the
/// first job of its peer; no other event tells so. So behind some events there are as many notes
/// more as failures were reported, with those that found the journal full.
pub fn a_failed_disk_is_told_once()
    ensures opened { (shape : Shape) (limits : Limits) (found : Taken) (moment disk : ℕ)
        → disk < shape.shards * shape.copies →
        note_count disk (told_of (open_core shape limits found moment))
        ≡ (if is_good_status (status disk (new_core shape limits found moment).members)
        then 0 else 1) }
    ensures event { (commands : ℕ → Option Command) (core : Core) (e : Event) (moment disk : ℕ)
        → IsNoted commands core → core.ended ≡ None → IsAnswering core e →
        note_count disk (told_of (step e moment core))
        ≡ note_count disk (told_of core) + (if costs true disk core e then 1 else 0) }
    ensures events { (commands : ℕ → Option Command) (core : Core) (es : List (Event × ℕ))
        (disk : ℕ)
        → IsNoted commands core → AllAreOwn commands core es → AllAnswer core es →
        note_count disk (told_of (after_all core es))
        ≡ note_count disk (told_of core) + failures true disk core es }
{}
