//! A law of the front.
ghost use Rattle.std.specs.Prelude.{◌≡◌, ℕ, ◌≤◌, length};
ghost use Rattle.hs_entry.specs.declared.entry.Entry.{Entry};
ghost use Rattle.hs_members.specs.Members.{Members};
ghost use Rattle.hs_replica.specs.Front.{HaveSealed};
ghost use Rattle.hs_replica.specs.Group.{Group, IsGroup, commit_front, on_append, on_copied, on_emptied, on_have, on_sealed, on_view, propose, take_committed};

/// The front never falls: no call lowers it, where each peer that is good in a new view has sealed
/// all up to it.
#[tactic(auto, using(crate::proofs::FrontLemmas::proposed_front, crate::proofs::FrontLemmas::appended_front, crate::proofs::FrontLemmas::sealed_front, crate::proofs::FrontLemmas::heard_front, crate::proofs::FrontLemmas::view_front, crate::proofs::FrontLemmas::taken_front, crate::proofs::FrontLemmas::emptied_front, crate::proofs::FrontLemmas::copied_front))]
pub fn the_front_never_falls()
    ensures proposed { (entry : Entry) (group : Group) → commit_front (propose entry group) ≡ commit_front group }
    ensures appended { (peer view number : ℕ) (entry : Entry) (group : Group)
        → commit_front (on_append peer view number entry group) ≡ commit_front group }
    ensures sealed { (peer number : ℕ) (group : Group) → commit_front group ≤ commit_front (on_sealed peer number group) }
    ensures heard { (peer view sealed : ℕ) (group : Group)
        → commit_front group ≤ commit_front (on_have peer view sealed group) }
    ensures new_view { (members : Members) (group : Group) → IsGroup group → HaveSealed members group
        → commit_front group ≤ commit_front (on_view members group) }
    ensures taken { (group : Group) → commit_front (take_committed group) ≡ commit_front group }
    ensures emptied { (peer : ℕ) (group : Group) → commit_front (on_emptied peer group) ≡ commit_front group }
    ensures copied { (peer number : ℕ) (group : Group) → commit_front (on_copied peer number group) ≡ commit_front group }
{}
