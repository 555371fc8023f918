//! A journal that is replayed over the plain store.
ghost use Rattle.std.specs.Prelude.{◌≡◌, ◌↔◌, IsTrue, IfOk, [], map, is_some};
ghost use Rattle.hs_journal.specs.Deeds.{as_deed};
ghost use Rattle.hs_model.specs.Deeds.{AreDeeds, IsDeed, deed_store};
ghost use Rattle.hs_model.specs.Replies.{is_of_line};

use crate::MemoryStore;
use hs_journal::{JournalEntry, Who};
use hs_limits::Limits;
use hs_model::{ModelFault, Reply};

impl MemoryStore {
    /// Whether an entry is a deed here, behind some entries (`found`, `only`); where it is, it is done (`leaves`).
    /// The only fault is NoMemory; after it, and where the entry is none, nothing is said of the store.
    pub fn replay_entry(
        &mut self,
        limits: Limits,
        before: &[JournalEntry],
        entry: &JournalEntry,
    ) -> Result<bool, ModelFault>
        ensures found { IfOk result (λ is. IsTrue is
            → IsDeed limits self.old (map as_deed before.now) (as_deed entry.now)) }
        ensures only { IfOk result (λ is.
            IsDeed limits self.old (map as_deed before.now) (as_deed entry.now) → IsTrue is) }
        ensures leaves { IfOk result
            (λ is. IsTrue is → self.new ≡ deed_store self.old entry.now.deed) }
    {
        if is_printed(entry) != is_of_line(&entry.reply) {
            return Ok(false);
        }
        self.does(limits, before, &entry.deed, &entry.reply)
    }

    /// Whether each entry of a journal is a deed at the store that the deeds before it leave, from this one on. The
    /// only fault is NoMemory; nothing is said of the store afterwards.
    pub fn replay(&mut self, limits: Limits, entries: &[JournalEntry]) -> Result<bool, ModelFault>
        ensures { IfOk result
            (λ are. IsTrue are ↔ AreDeeds limits self.old [] (map as_deed entries.now)) }
    {
        for at in 0..entries.len() {
            let before = &entries[..at];
            let entry = &entries[at];
            let is_deed = self.replay_entry(limits, before, entry)?;
            if !is_deed {
                return Ok(false);
            }
        }
        Ok(true)
    }
}

/// Whether an entry answers a line.
fn is_printed(entry: &JournalEntry) -> bool
    ensures { result ≡ is_some (as_deed entry.now).line }
{
    matches!(entry.who, Who::Line(_))
}

/// Whether a reply is printed behind a line's number.
fn is_of_line(reply: &Reply) -> bool
    ensures { result ≡ is_of_line reply.now }
{
    !matches!(
        reply,
        Reply::Enter { .. }
            | Reply::Sweep { .. }
            | Reply::Done { .. }
            | Reply::Down { .. }
            | Reply::Visits { .. }
    )
}
