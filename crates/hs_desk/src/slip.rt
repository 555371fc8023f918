//! What is noted of a peer's work.
ghost use Rattle.std.specs.Prelude.{◌≡◌, ◌++◌, Err, IfErr, None, OnOk, [], true, false};
ghost use Rattle.hs_desk.specs.Slips.{handed, reported, shown_by, stored_by, work_in};
ghost use Rattle.hs_desk.specs.declared.fault.CoreFault.TheVariants.{NoMemory};

use crate::{CoreFault, Done, Next, RoomyList, Work};
use hs_shared::SharedBytes;
use std::alloc::{AllocError, Global};

/// What is noted of a peer's work.
#[derive(Debug, Drop)]
pub struct Slip {
    /// The peer.
    pub peer: u8,
    /// The job that was handed out and is not reported yet.
    pub work: Option<Work>,
    /// The numbers of the entries that were sealed, in order, and a 0 where the disk failed.
    pub stored: RoomyList<u64>,
    /// The numbers of the entries that were read, with the bytes of their blocks, in order.
    pub shown: RoomyList<(u64, SharedBytes)>,
    /// Whether the peer had neither a job nor a message when it was asked last.
    pub idle: bool,
    /// The fault that ended the core, once a call has answered it.
    pub fault: Option<CoreFault>,
}

impl Slip {
    /// The slip of a peer to which nothing was handed out yet. It takes no memory.
    pub fn new(alloc: Global, peer: u8) -> Slip
        ensures { result ≡ record { peer = peer; work = None; stored = []; shown = []; idle = false; fault = None } }
    {
        Slip {
            peer,
            work: None,
            stored: RoomyList::new(alloc),
            shown: RoomyList::new(alloc),
            idle: false,
            fault: None,
        }
    }

    /// Takes the room for what one report may add.
    pub fn reserve(&mut self) -> Result<(), AllocError>
        ensures { self.new ≡ self.old }
    {
        self.stored.reserve_one()?;
        self.shown.reserve_one()
    }

    /// Notes what was handed out. It takes no memory.
    pub fn hand(&mut self, given: &Result<Next, CoreFault>)
        ensures { self.new ≡ handed given.now self.old }
    {
        self.work = work_in(given);
        self.idle = matches!(given, Ok(Next::Idle));
        if let Err(fault) = given {
            self.fault = Some(*fault);
        }
    }

    /// Notes a report, and whether it was taken. One that was taken but finds no room is a fault.
    /// It takes no memory.
    pub fn take_report(&mut self, done: Done, taken: Result<(), CoreFault>) -> Result<(), CoreFault>
        ensures noted { self.new ≡ reported done result self.old }
        ensures refused { IfErr taken (λ fault. result ≡ Err fault) }
        ensures cause { OnOk taken (IfErr result (λ fault. fault ≡ NoMemory)) }
    {
        self.work = None;
        let mut noted = taken;
        if noted.is_ok() && !self.add(done) {
            noted = Err(CoreFault::NoMemory);
        }
        if let Err(fault) = noted {
            self.fault = Some(fault);
        }
        noted
    }

    /// Adds what a report that was taken adds, where there is room for it.
    fn add(&mut self, done: Done) -> bool
        ensures added { result ≡ true → self.new ≡ record self.old {
          stored = self.old.stored ++ stored_by done;
          shown = self.old.shown ++ shown_by done;
        } }
        ensures same { result ≡ false → self.new ≡ self.old }
    {
        match done {
            Done::Sealed { number } => self.stored.push_in_room(number),
            Done::Failed { .. } => self.stored.push_in_room(0),
            Done::Bytes { number, bytes } => self.shown.push_in_room((number, bytes)),
            Done::Stored { .. }
            | Done::Gone { .. }
            | Done::Emptied
            | Done::Copied { .. }
            | Done::Stepped { .. } => true,
        }
    }
}

/// The work that was handed out, where one was.
fn work_in(given: &Result<Next, CoreFault>) -> Option<Work>
    ensures { result ≡ work_in given.now }
{
    match given {
        Ok(Next::Do(job)) => Work::of(job),
        Ok(Next::Handled | Next::Idle) | Err(_) => None,
    }
}
