//! What marks and their causes are to one another.
ghost use Rattle.std.specs.Prelude.{◌≡◌, ◌↔◌, ◌<◌, ℕ, List, length};
ghost use Rattle.hs_entry.specs.declared.entry.Entry.{Entry};
ghost use Rattle.hs_limits.specs.declared.shape.Shape.{Shape};
ghost use Rattle.hs_ports.specs.Fault.{HasRisen};
ghost use Rattle.hs_scrub.specs.declared.mark.PeerMark.{PeerMark};
ghost use Rattle.hs_scrub.specs.declared.mark.PeerMark.TheVariants.{Fault, Same};
ghost use Rattle.hs_scrub.specs.Scrubbed.{HasCause, mark_at};
ghost use Rattle.hs_scrub.specs.Text.{bad_of};
ghost use Rattle.hs_taking.specs.Disks.{DiskSeen};

use hs_ports::Disk;

/// A mark comes exactly where its cause is: of a disk whose count surely stands no two marks have their
/// causes, and a peer whose count is another has the mark of a disk that failed.
pub fn each_mark_is_by_its_cause<D: Disk>()
    ensures one { D.tells → (shape : Shape) (peer : ℕ) (old new : DiskSeen)
        (taken : List (ℕ × Entry)) (mark other : PeerMark) → (HasRisen old.faults new.faults → ⊥)
        → HasCause D.tells shape peer old new taken mark
        → HasCause D.tells shape peer old new taken other → mark ≡ other }
    ensures failed { (shape : Shape) (peer : ℕ) (old new : DiskSeen) (taken : List (ℕ × Entry))
        (mark : PeerMark) → (new.faults ≡ old.faults → ⊥)
        → HasCause D.tells shape peer old new taken mark → mark ≡ Fault }
{}

/// None is bad exactly where each peer has the list that was taken of its shard.
pub fn none_is_bad_where_all_are_same()
    ensures { (marks : List PeerMark) → (bad_of marks ≡ 0)
        ↔ ((peer : ℕ) → peer < length marks → mark_at marks peer ≡ Same) }
{}
