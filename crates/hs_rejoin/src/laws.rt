//! A law of joining.
ghost use Rattle.std.specs.Prelude.{◌≡◌, ℕ, ◌+◌, ◌≤◌, List, ◌++◌, length, take, true, IfSome};
ghost use Rattle.hs_entry.specs.declared.entry.Entry.{Entry};
ghost use Rattle.hs_rejoin.specs.Course.{Follows, after_step, counted, steps_left};
ghost use Rattle.hs_rejoin.specs.Rejoin.{Rejoin, follow, is_level, new_rejoin, next_job};

/// A joining peer's list is the lead's when it is level: from its beginning on, through each step, as
/// the lead's list grows, and as another peer leads that has the same first entries. Each step leaves
/// one step less to do.
#[tactic(auto, using(crate::proofs::CourseLemmas::new_follows, crate::proofs::CourseLemmas::step_nearer, crate::proofs::CourseLemmas::other_lead_follows))]
pub fn the_copied_list_is_the_leads()
    ensures begins { (from : ℕ) (lead list : List Entry) → Follows lead list (new_rejoin from) }
    ensures step { (lead_sealed : ℕ) (lead list : List Entry) (r : Rejoin) → lead_sealed ≤ length lead
        → Follows lead list r
        → IfSome (next_job lead_sealed r) (λ step. Follows lead (after_step step lead list) (counted step r)) }
    ensures nearer { (lead_sealed : ℕ) (r : Rejoin) → IfSome (next_job lead_sealed r)
        (λ step. steps_left lead_sealed (counted step r) + 1 ≡ steps_left lead_sealed r) }
    ensures longer { (lead more list : List Entry) (r : Rejoin) → Follows lead list r → Follows (lead ++ more) list r }
    ensures other { (from : ℕ) (lead other list : List Entry) (r : Rejoin) → Follows lead list r
        → r.len ≤ length other → take r.len other ≡ take r.len lead → Follows other list (follow from r) }
    ensures level { (lead list : List Entry) (r : Rejoin) → Follows lead list r
        → is_level (length lead) r ≡ true → list ≡ lead }
{}
