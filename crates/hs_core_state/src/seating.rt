//! The sessions after an answer.
ghost use Rattle.std.specs.Prelude.{◌≡◌, OnOk};
ghost use Rattle.hs_core_state.specs.Going.{hold_each, seats_by};
ghost use Rattle.hs_tokens.specs.Seats.{hold};

use crate::no_memory::NoMemory;
use hs_limits::{Held, Name};
use hs_model::Deed;
use hs_tokens::{SeatFault, Sessions};

impl From<SeatFault> for NoMemory {
    /// Of a call that the answer has judged already, whose only fault is NoMemory.
    fn from(_fault: SeatFault) -> NoMemory {
        NoMemory
    }
}

/// The sessions change as an answer says, by its deed: the session is opened or closed, holds what
/// its handles stand for, or forgets one.
pub(crate) fn seat(sessions: &mut Sessions, deed: &Deed, helds: &[Held]) -> Result<(), NoMemory>
    ensures ok { OnOk result (sessions.new.seats ≡ seats_by deed.now helds.now sessions.old.seats) }
    ensures limits { sessions.new.limits ≡ sessions.old.limits }
{
    match deed {
        Deed::Opened { session } => sessions.open(session)?,
        Deed::Closed { session } => sessions.close(session)?,
        Deed::Wrote { session, .. } => hold_all(sessions, session, helds)?,
        Deed::Marked { session, .. } => hold_all(sessions, session, helds)?,
        Deed::ReadBlock { session, .. } => hold_all(sessions, session, helds)?,
        Deed::Looked { session, .. } => hold_all(sessions, session, helds)?,
        Deed::Forgot { session, handle } => sessions.forget(session, *handle)?,
        Deed::Rooted { .. }
        | Deed::Dropped { .. }
        | Deed::Entered { .. }
        | Deed::Swept { .. }
        | Deed::Refused { .. }
        | Deed::Nothing => {}
    }
    Ok(())
}

/// A session holds these too.
#[tactic(auto, using(crate::proofs::SeatLemmas::hold_each_is))]
fn hold_all(sessions: &mut Sessions, session: &Name, helds: &[Held]) -> Result<(), NoMemory>
    ensures ok { OnOk result (sessions.new.seats ≡ hold session.now helds.now sessions.old.seats) }
    ensures limits { sessions.new.limits ≡ sessions.old.limits }
{
    hold_each(sessions, session, helds)
}

/// A session holds these too, one after another.
fn hold_each(sessions: &mut Sessions, session: &Name, helds: &[Held]) -> Result<(), NoMemory>
    ensures ok { OnOk result
        (sessions.new.seats ≡ hold_each session.now helds.now sessions.old.seats) }
    ensures limits { sessions.new.limits ≡ sessions.old.limits }
{
    for held in helds {
        sessions.hold(session, *held)?;
    }
    Ok(())
}
