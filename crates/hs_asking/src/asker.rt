//! Something that answers a client's operations, one at a time.
ghost use Rattle.std.specs.Prelude.{◌≡◌, ◌∷◌, ◌++◌, [], IfOk, IfErr, OnOk, Some, None};
ghost use Rattle.hs_model.specs.Store.{held_at};
ghost use Rattle.hs_asking.specs.Asked.{HasAsked, HasBegun, IsNamed};
ghost use Rattle.hs_asking.specs.Lawful.{AreAnswersOf};
ghost use Rattle.hs_asking.specs.Shown.{IfTold, Shown, store_now};

use hs_desk::CoreFault;
use hs_limits::{Held, Name};
use hs_model::{Op, Reply};

/// What asks a store for a client: each operation is answered before the next one is asked for.
pub trait Asker {
    /// Where this holds it is told with what an asker of this type began.
    ghost tells: { Type 0 };

    /// What was asked for and answered so far, the fault that ended it, and with what it began.
    ghost shows: { Self → Shown tells };

    /// Asks for an operation, and waits for its answer. A fault is the one that has ended the asker:
    /// then nothing more may be asked.
    fn ask(&mut self, op: Op) -> Result<Reply, CoreFault>
        requires going { (shows self.old).ended ≡ None }
        // A write is handed its address, which is that of its block where the store is told.
        requires named { IsNamed (shows self.old) op }
        ensures told { IfOk result (λ told. HasAsked (shows self.old) (shows self.new) op told) }
        ensures going { OnOk result ((shows self.new).ended ≡ None) }
        ensures ended { IfErr result (λ fault. (shows self.new).ended ≡ Some fault) }
        // Also where it ends: its line is a new one, and the journal goes on.
        ensures begun { HasBegun (shows self.old) (shows self.new) op }
        ensures asked { (shows self.new).asked ≡ (shows self.old).asked ++ op ∷ [] }
        ensures began { (shows self.new).began ≡ (shows self.old).began };

    /// What a handle of a session stands for, where the store is told. It takes no memory.
    fn held(&self, session: &Name, handle: u32) -> Option<Held>
        requires { (shows self.now).ended ≡ None }
        ensures { IfTold (shows self.now) (λ b.
            result ≡ held_at (store_now b (shows self.now)) session.now handle) };

    /// Does nothing: what is told is lawful.
    fn known(&self)
        ensures { IfTold (shows self.now) (λ b. AreAnswersOf b (shows self.now)) };
}
