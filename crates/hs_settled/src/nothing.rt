//! A run without a course.
ghost use Rattle.std.specs.Prelude.{◌≡◌, [], IfSome, Option};
ghost use Rattle.hs_settled.specs.Printing.{FailsInOpening, LeavesUnread};
ghost use Rattle.hs_limits.specs.Shape.{IsShape};
ghost use Rattle.hs_promise.specs.Answers.{BeganNothing};
ghost use Rattle.hs_promise.specs.Lost.{NoneGoodCause};
ghost use Rattle.hs_promise.specs.Machine.{WentAs};
ghost use Rattle.hs_promise.specs.Run.{Ran, Script};
ghost use Rattle.hs_promise.specs.Story.{Story};

/// Where no core was opened, or none of its peers was good, so that its course is empty, a run has
/// read nothing and begun no line, and its journal tells no more than that peers are down.
pub fn a_run_without_a_course_began_nothing()
    ensures { (S : Script) (r : Ran) (how : Option Story) → IsShape S.set.shape → WentAs S r how
        → IfSome how (LeavesUnread S r) → r.course ≡ [] →
        BeganNothing r }
{}

/// Its cause is a disk of another store or want of memory; or each peer is told to be down, or would have
/// been told so, had the journal had room.
pub fn a_run_without_a_course_has_its_cause()
    ensures { (S : Script) (r : Ran) (how : Option Story) → WentAs S r how → IsShape S.set.shape
        → IfSome how (FailsInOpening r) → r.course ≡ [] → NoneGoodCause S r }
{}
