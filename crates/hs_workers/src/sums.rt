//! What a writer did, by the deeds that its token keeps.
ghost use Rattle.std.specs.Prelude.{◌≡◌, ◌≤◌, length, drop, count_by, IfOk};
ghost use Rattle.hs_workers.specs.Asks.{drops_file, roots_file, sum_of};

use hs_model::{Deed, Reply};
use hs_script::WriterSum;
use std::alloc::AllocError;

/// What the answers from a place on did.
pub(crate) fn sum_of(kept: &[(u64, Deed, Reply)], before: usize) -> Result<WriterSum, AllocError>
    requires { before ≤ length kept.now }
    ensures { IfOk result (λ sum. sum ≡ sum_of (drop before kept.now)) }
{
    let answers = &kept[before..];
    let files = rooted(answers);
    let kept = files.saturating_sub(dropped(answers));
    let (Ok(files), Ok(kept)) = (u32::try_from(files), u32::try_from(kept)) else {
        return Err(AllocError);
    };
    Ok(WriterSum { files, kept })
}

/// How many files were rooted.
fn rooted(answers: &[(u64, Deed, Reply)]) -> usize
    ensures { result ≡ count_by (λ item. roots_file item.1) answers.now }
{
    let mut count = 0;
    for (_, deed, _) in answers {
        if roots_file(deed) {
            count += 1;
        }
    }
    count
}

/// How many files were dropped.
fn dropped(answers: &[(u64, Deed, Reply)]) -> usize
    ensures { result ≡ count_by (λ item. drops_file item.1) answers.now }
{
    let mut count = 0;
    for (_, deed, _) in answers {
        if drops_file(deed) {
            count += 1;
        }
    }
    count
}

/// Whether a deed kept a file's root.
#[tactic(auto, unfolding(crate::specs::Asks::roots_file))]
fn roots_file(deed: &Deed) -> bool
    ensures { result ≡ roots_file deed.now }
{
    matches!(deed, Deed::Rooted { .. })
}

/// Whether a deed gave a file's root up.
#[tactic(auto, unfolding(crate::specs::Asks::drops_file))]
fn drops_file(deed: &Deed) -> bool
    ensures { result ≡ drops_file deed.now }
{
    matches!(deed, Deed::Dropped { .. })
}
