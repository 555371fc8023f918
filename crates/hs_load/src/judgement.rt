//! Why the last deletions are not begun.
ghost use Rattle.std.specs.List.{list_any};
ghost use Rattle.std.specs.Prelude.{◌≡◌, ◌≤◌, IfOk, vec_len};
ghost use Rattle.std.specs.Result.{result_err};
ghost use Rattle.hs_book.specs.Book.{Book};
ghost use Rattle.hs_core_words.specs.State.{Core};
ghost use Rattle.hs_load.specs.Joined.{HasBook, team_of};
ghost use Rattle.hs_load.specs.Judged.{Load, Team, is_wanting, stopped_by, wants_memory};
ghost use Rattle.hs_load.specs.Judgement.{IsJudgedSo, IsTold};
ghost use Rattle.hs_load.specs.Team.{sessions_of};

use crate::judging::{
    Difference, TornJob, answers_differ, asker_fault, core_status, difference_status, torn_job,
    worker_fault,
};
use crate::working::{Apart, Joined};
use hs_desk::CoreFault;
use hs_limits::Name;
use hs_promise::Status;
use hs_script::WriterSum;
use hs_workers::WorkFault;
use std::alloc::{AllocError, Global};

/// What came of the comparing: why the load ends, or that all was the same.
#[derive(Drop)]
pub(crate) enum Judgement {
    Same,
    Wanting,
    Job(TornJob),
    Numbers(Apart),
    Ended(CoreFault),
    Differs(Difference),
}

/// Whether a worker stopped for want of memory.
fn stopped_wanting(stop: &Option<WorkFault>) -> bool
    ensures { result ≡ stopped_by is_wanting stop.now }
{
    match stop {
        Some(WorkFault::NoMemory) => true,
        Some(WorkFault::Core { .. }) | Some(WorkFault::Torn { .. }) | None => false,
    }
}

/// Whether one who asked ended so.
fn ended_wanting(end: &Result<WriterSum, WorkFault>) -> bool
    ensures { result ≡ stopped_by is_wanting (result_err end.now) }
{
    match end {
        Err(WorkFault::NoMemory) => true,
        Err(WorkFault::Core { .. }) | Err(WorkFault::Torn { .. }) | Ok(_) => false,
    }
}

/// Whether so did one of some workers.
fn workers_want(stops: &[Option<WorkFault>]) -> bool
    ensures { result ≡ list_any (λ stop. stopped_by is_wanting stop) stops.now }
{
    stops.iter().any(|stop| stopped_wanting(stop))
}

/// And one of some who asked.
fn askers_want(ends: &[Result<WriterSum, WorkFault>]) -> bool
    ensures { result ≡ list_any (λ end. stopped_by is_wanting (result_err end)) ends.now }
{
    ends.iter().any(|end| ended_wanting(end))
}

/// Whether memory was wanting to one of those that worked.
fn wants_memory(joined: &Joined) -> bool
    ensures { result ≡ wants_memory (team_of joined.now.peers joined.now.askers) }
{
    workers_want(joined.peers.stops.as_slice()) || askers_want(joined.askers.ends.as_slice())
}

/// Compares what those that worked hand back with the book.
pub(crate) fn judge(
    alloc: Global,
    sessions: &[Name],
    joined: &Joined,
) -> Result<Judgement, AllocError>
    requires { vec_len joined.now.peers.stops ≤ 256 }
    ensures { (load : Load) (start : Core) (book : Book) → sessions.now ≡ sessions_of load.writers
        → HasBook start joined.now book
        → IfOk result (IsJudgedSo load book (team_of joined.now.peers joined.now.askers)) }
{
    if wants_memory(joined) {
        return Ok(Judgement::Wanting);
    }
    if let Some(job) = torn_job(joined.peers.stops.as_slice()) {
        return Ok(Judgement::Job(job));
    }
    if let Some(apart) = joined.apart {
        return Ok(Judgement::Numbers(apart));
    }
    if let Some(fault) = joined.ended {
        return Ok(Judgement::Ended(fault));
    }
    let journal = joined.core.journal().entries();
    let kept = joined.askers.kept.as_slice();
    if let Some(difference) = answers_differ(alloc, sessions, journal, kept)? {
        return Ok(Judgement::Differs(difference));
    }
    if let Some(difference) = asker_fault(alloc, kept)? {
        return Ok(Judgement::Differs(difference));
    }
    match worker_fault(alloc, joined.peers.stored.as_slice())? {
        Some(difference) => Ok(Judgement::Differs(difference)),
        None => Ok(Judgement::Same),
    }
}

/// How the load ends with it. None where all was the same.
pub(crate) fn status_of(judgement: Judgement) -> Option<Status>
    ensures { (load : Load) (book : Book) (team : Team) → IsJudgedSo load book team judgement
        → IsTold load book team result }
{
    match judgement {
        Judgement::Same => None,
        Judgement::Wanting => Some(Status::NoMemory),
        Judgement::Job(job) => Some(Status::Torn {
            peer: job.peer,
            place: job.place,
            told: Some(job.told),
            kept: Some(job.kept),
        }),
        Judgement::Numbers(apart) => Some(Status::Torn {
            peer: apart.peer,
            place: apart.place,
            told: apart.told,
            kept: apart.kept,
        }),
        Judgement::Ended(fault) => Some(core_status(fault)),
        Judgement::Differs(difference) => Some(difference_status(difference)),
    }
}
