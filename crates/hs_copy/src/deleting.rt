//! Deletions that are asked for while a copy is written.
ghost use Rattle.std.specs.Prelude.{◌≡◌, ◌+◌, ◌≤◌, IfErr, None, OnOk};
ghost use Rattle.hs_copy.specs.Due.{DeletesSo, count_of, with_write};
ghost use Rattle.hs_copy.specs.Rounds.{DeletesOrNot, DeleteStops};

use crate::calls::delete;
use crate::fault::PartFault;
use crate::sizes::MOST_DELETIONS;
use hs_asking::Asker;

/// Behind how many writes a deletion is asked for, how many came since the last one, and how many
/// deletions were asked for.
#[derive(Clone, Copy, Debug, PartialEq, Eq)]
pub(crate) struct Deleting {
    pub every: Option<u32>,
    pub writes: u32,
    pub asked: u32,
}

/// Counts a write, and asks for a deletion where one is due.
pub(crate) fn delete_when_due<B: Asker>(
    asker: &mut B,
    deleting: &mut Deleting,
) -> Result<(), PartFault>
    requires going { (B.shows asker.old).ended ≡ None }
    requires few { deleting.old.asked ≤ 4 }
    ensures ok { OnOk result (DeletesOrNot (B.shows asker.old) (B.shows asker.new)
        deleting.old.asked deleting.new.asked) }
    ensures few { deleting.new.asked ≤ 4 }
    ensures due { OnOk result (DeletesSo (with_write (count_of deleting.old))
        (count_of deleting.new) (B.shows asker.old) (B.shows asker.new)) }
    ensures err { IfErr result (λ f. DeleteStops (B.shows asker.old) (B.shows asker.new)
        deleting.old.asked f) }
{
    let Some(every) = deleting.every else {
        return Ok(());
    };
    if deleting.asked >= MOST_DELETIONS {
        return Ok(());
    }
    if deleting.writes < every.saturating_sub(1) {
        deleting.writes += 1;
        return Ok(());
    }
    deleting.writes = 0;
    deleting.asked += 1;
    delete(asker)
}
