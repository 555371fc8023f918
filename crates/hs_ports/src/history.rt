//! All calls that changed a side, for contracts alone: it takes no memory, so none is left out.
ghost use Rattle.std.specs.Prelude.{◌≡◌, [], ◌∷◌};

use crate::change::Change;
use std::marker::Model;
use std::snapshot::Snapshot;

/// The calls so far, the newest first. A contract sees their list.
#[cycle(history)]
#[derive(Drop)]
pub struct History {
    newest: Newest,
}

/// The newest call, whether the record has it, and the calls before it.
#[cycle(history)]
#[derive(Drop)]
enum Newest {
    Nothing,
    Call(Snapshot<Change>, bool, Snapshot<History>),
}

impl Model for History {
    ghost use Rattle.std.specs.Prelude.{List, length};
    ghost use Rattle.hs_ports.specs.Called.{Called};

    ghost Value = { List Called };

    ghost use Rattle.hs_ports.specs.History.{calls};
    ghost use Rattle.std.proofs.Common.{arith};

    ghost view = { λ h. calls h.newest };

    ghost size = { length };

    ghost size_decreases = { λ a h. Prim.grind arith };
}

impl History {
    ghost use Rattle.hs_ports.specs.Called.{told};

    /// Before the first call.
    pub fn new() -> History
        ensures { result ≡ [] }
    {
        History {
            newest: Newest::Nothing,
        }
    }

    /// One call more. `kept` says whether the record has it.
    pub fn add(&mut self, change: &Change, kept: bool)
        ensures { self.new ≡ told change.now kept ∷ self.old }
    {
        let older = Snapshot::of(&*self);
        self.newest = Newest::Call(Snapshot::of(change), kept, older);
    }
}
