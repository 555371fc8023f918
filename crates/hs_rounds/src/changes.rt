//! Changes of counts, as a round tells them.
ghost use Rattle.std.specs.Prelude.{◌≡◌, ◌≤◌, All, IsTrue, map};
ghost use Rattle.std.specs.Cmp.Lexicographic.{slice_cmp};
ghost use Rattle.std.specs.List.Sorted.{IsStrictlySortedBy};
ghost use Rattle.std.specs.Ordering.{nat_cmp};
ghost use Rattle.hs_rounds.specs.Changes.{AreChanges};

use hs_limits::Delta;
use std::cmp::Ordering;

/// Whether these are changes as a round tells them: each address once, ascending by its bytes, with an
/// amount of at least 1. It takes no memory.
pub fn are_changes(deltas: &[Delta]) -> bool
    ensures only { IsTrue result → AreChanges deltas.now }
    ensures all { AreChanges deltas.now → IsTrue result }
{
    have_amounts(deltas) && ascend(deltas)
}

/// Whether each amount is at least 1.
fn have_amounts(deltas: &[Delta]) -> bool
    ensures only { IsTrue result → All (λ delta. 1 ≤ delta.amount) deltas.now }
    ensures all { All (λ delta. 1 ≤ delta.amount) deltas.now → IsTrue result }
{
    deltas.iter().all(|delta| delta.amount >= 1)
}

/// Whether each address is below the next.
#[tactic(auto, using(crate::proofs::ChangeLemmas::ascend_by_steps, crate::proofs::ChangeLemmas::each_step_ascends))]
fn ascend(deltas: &[Delta]) -> bool
    ensures only { IsTrue result → IsStrictlySortedBy (λ a b. slice_cmp nat_cmp a.0 b.0)
        (map (λ delta. delta.address) deltas.now) }
    ensures all { IsStrictlySortedBy (λ a b. slice_cmp nat_cmp a.0 b.0)
        (map (λ delta. delta.address) deltas.now) → IsTrue result }
{
    for index in 1..deltas.len() {
        match deltas[index - 1].address.cmp(&deltas[index].address) {
            Ordering::Less => {}
            Ordering::Equal | Ordering::Greater => return false,
        }
    }
    true
}
