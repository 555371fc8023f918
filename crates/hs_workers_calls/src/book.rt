//! A book in memory: what is asked is logged by one of two peers, and answered once it is sealed.
ghost use Rattle.std.specs.Prelude.{◌≡◌, ◌==◌, false, is_none, slice_index_or, if◌then◌else◌, IfOk, true};
ghost use Rattle.std.specs.VecDeque.{deque_len};
ghost use Rattle.hs_desk.specs.Faults.{EndsOnce};
ghost use Rattle.hs_desk.specs.Slips.{is_idle, is_own_next};

use crate::asked::asked_of;
use crate::pass::{BookPass, BookSeat};
use crate::shelf::{Shelf, Task};
use hs_block::Block;
use hs_desk::{Clerk, CoreFault, Desk, Done, Next, Slip, Token};
use hs_model::{Asked, Op, Reply};
use hs_shared::SharedBytes;
use std::alloc::{AllocError, Global};

/// An operation that waits for the entry of a number to be sealed by a peer.
#[derive(Clone, Copy, Debug, PartialEq, Eq)]
pub(crate) struct Waiting {
    peer: u8,
    entry: u64,
    operation: u64,
}

/// The book. What even writers and the deleter ask is logged by peer 0, what odd ones ask by peer 1. Writer 0
/// is told twice that a write is stale, and writer 2 once that a shard is full.
#[derive(Debug, Drop)]
pub(crate) struct Book {
    alloc: Global,
    fault: Option<CoreFault>,
    zero: Shelf,
    one: Shelf,
    waiting: Vec<Waiting>,
    /// Whether each operation is answered.
    answered: Vec<bool>,
    /// Whether each was lost with the disk of its peer.
    lost: Vec<bool>,
}

impl Book {
    /// Nothing was asked yet.
    pub(crate) fn new(alloc: Global) -> Book {
        Book {
            alloc,
            fault: None,
            zero: Shelf::new(alloc),
            one: Shelf::new(alloc),
            waiting: Vec::new(alloc),
            answered: Vec::new(alloc),
            lost: Vec::new(alloc),
        }
    }

    /// Puts a task behind those of a peer.
    pub(crate) fn put(&mut self, peer: u8, task: Task) -> Result<(), AllocError> {
        if peer == 0 {
            self.zero.put(task)
        } else {
            self.one.put(task)
        }
    }

    /// The first task of a peer, which leaves.
    fn take(&mut self, peer: u8) -> Option<Task>
        ensures found { is_none result ≡ (deque_len (if peer == 0 then self.old.zero else self.old.one).tasks == 0) }
        ensures fault { self.new.fault ≡ self.old.fault }
    {
        if peer == 0 {
            self.zero.take()
        } else {
            self.one.take()
        }
    }

    /// What is next for the peer of a slip.
    fn give(&mut self, slip: &mut Slip) -> Result<Next, CoreFault>
        ensures slip { slip.new ≡ slip.old }
        ensures idle { IfOk result (λ next. is_idle next
            ≡ (deque_len (if slip.old.peer == 0 then self.old.zero else self.old.one).tasks == 0)) }
        ensures own { IfOk result (λ next. is_own_next next ≡ true) }
        ensures ends { EndsOnce self.old.fault self.new.fault result }
    {
        if let Some(fault) = self.fault {
            return Err(fault);
        }
        if slip.reserve().is_err() {
            self.fault = Some(CoreFault::NoMemory);
            return Err(CoreFault::NoMemory);
        }
        match self.take(slip.peer) {
            Some(task) => Ok(Next::Do(task.into_job())),
            None => Ok(Next::Idle),
        }
    }

    /// What a report of a peer makes of the book.
    fn note(&mut self, peer: u8, done: &Done) -> Result<(), CoreFault>
        ensures ends { EndsOnce self.old.fault self.new.fault result }
    {
        if let Some(fault) = self.fault {
            return Err(fault);
        }
        match done {
            Done::Sealed { number } => {
                mark(
                    self.waiting.as_slice(),
                    peer,
                    *number,
                    self.answered.as_mut_slice(),
                );
            }
            Done::Failed { .. } => self.lose(peer),
            _ => {}
        }
        Ok(())
    }

    /// The disk of a peer failed: what waits for it is lost, and so is what is asked of it later.
    fn lose(&mut self, peer: u8)
        ensures fault { self.new.fault ≡ self.old.fault }
    {
        if peer == 0 {
            self.zero.failed = true;
        } else {
            self.one.failed = true;
        }
        mark_lost(
            self.waiting.as_slice(),
            peer,
            self.answered.as_mut_slice(),
            self.lost.as_mut_slice(),
        );
    }

    /// Begins an operation: it is logged, but for an opening, which is answered at once.
    fn begun(&mut self, op: &Op, peer: u8) -> Result<u64, CoreFault>
        ensures ends { EndsOnce self.old.fault self.new.fault result }
    {
        if let Some(fault) = self.fault {
            return Err(fault);
        }
        match self.log(op, peer) {
            Ok(number) => Ok(number),
            Err(_) => {
                self.fault = Some(CoreFault::NoMemory);
                Err(CoreFault::NoMemory)
            }
        }
    }

    /// The number of an operation that is logged.
    fn log(&mut self, op: &Op, peer: u8) -> Result<u64, AllocError>
        ensures fault { self.new.fault ≡ self.old.fault }
    {
        let operation = self.answered.len() as u64;
        let failed = if peer == 0 {
            self.zero.failed
        } else {
            self.one.failed
        };
        let opens = matches!(op, Op::Open { .. });
        push(&mut self.answered, opens || failed)?;
        push(&mut self.lost, failed && !opens)?;
        if opens || failed {
            return Ok(operation);
        }
        let bytes = spelling_of(self.alloc, op)?;
        let entry = self.shelve(peer, bytes)?;
        match self.waiting.push(Waiting {
            peer,
            entry,
            operation,
        }) {
            Ok(()) => Ok(operation),
            Err(_) => Err(AllocError),
        }
    }

    /// Puts an entry behind those of a peer, and answers its number.
    fn shelve(&mut self, peer: u8, bytes: SharedBytes) -> Result<u64, AllocError>
        ensures fault { self.new.fault ≡ self.old.fault }
    {
        if peer == 0 {
            self.zero.log(bytes)
        } else {
            self.one.log(bytes)
        }
    }

    /// Whether an operation is answered.
    fn is_answered(&self, number: u64) -> bool
        ensures { result ≡ slice_index_or self.now.answered.items number false }
    {
        is_set(self.answered.as_slice(), number)
    }
}

/// Adds one at the end.
fn push(list: &mut Vec<bool>, item: bool) -> Result<(), AllocError> {
    match list.push(item) {
        Ok(()) => Ok(()),
        Err(_) => Err(AllocError),
    }
}

/// Whether the one of a number is set.
fn is_set(list: &[bool], number: u64) -> bool
    ensures { result ≡ slice_index_or list.now number false }
{
    match list.get(number as usize) {
        Some(set) => *set,
        None => false,
    }
}

/// Sets the one of a number.
fn set(list: &mut [bool], number: u64) {
    if let Some(place) = list.get_mut(number as usize) {
        *place = true;
    }
}

/// Sets those that wait for the entry of a number.
fn mark(waiting: &[Waiting], peer: u8, entry: u64, answered: &mut [bool]) {
    for one in waiting {
        if one.peer == peer && one.entry == entry {
            set(answered, one.operation);
        }
    }
}

/// Sets those that wait for a peer and are not answered yet.
fn mark_lost(waiting: &[Waiting], peer: u8, answered: &mut [bool], lost: &mut [bool]) {
    for one in waiting {
        if one.peer == peer && !is_set(answered, one.operation) {
            set(answered, one.operation);
            set(lost, one.operation);
        }
    }
}

/// The spelling of the block that is logged for an operation: the payload of a write, and no bytes else.
fn spelling_of(alloc: Global, op: &Op) -> Result<SharedBytes, AllocError> {
    let payload = match op {
        Op::Write { payload, .. } => payload.as_slice(),
        _ => &[],
    };
    let Ok(block) = Block::make(alloc, &[], payload) else {
        return Err(AllocError);
    };
    let mut bytes = Vec::new(alloc);
    if block.write(&mut bytes).is_err() {
        return Err(AllocError);
    }
    SharedBytes::from_vec(alloc, bytes)
}

impl Desk for Book {
    type Seat = BookSeat;

    ghost ended = { λ book. book.fault };

    ghost has_nothing = { λ book peer. deque_len (if peer == 0 then book.zero else book.one).tasks == 0 };

    fn next(&mut self, seat: &mut BookSeat) -> Result<Next, CoreFault> {
        let given = self.give(&mut seat.slip);
        seat.slip.hand(&given);
        given
    }

    fn report(&mut self, seat: &mut BookSeat, done: Done) -> Result<(), CoreFault> {
        let taken = self.note(seat.slip.peer, &done);
        let noted = seat.slip.take_report(done, taken);
        if let Err(fault) = noted {
            self.fault = Some(fault);
        }
        noted
    }
}

impl Clerk for Book {
    type Pass = BookPass;

    ghost ended = { λ book. book.fault };

    ghost is_answered = { λ book number. slice_index_or book.answered.items number false };

    fn begin(&mut self, pass: &mut BookPass, op: Op) -> Result<u64, CoreFault> {
        let given = self.begun(&op, peer_of(&pass.token));
        pass.token.begin(asked_of(op), given);
        given
    }

    fn answer(&mut self, pass: &mut BookPass, number: u64) -> Result<Option<Reply>, CoreFault> {
        if let Some(fault) = self.fault {
            pass.token.fail(fault);
            return Err(fault);
        }
        if !self.is_answered(number) {
            return Ok(None);
        }
        let reply = reply_of(&pass.token, is_set(self.lost.as_slice(), number));
        match pass.token.answer(self.alloc, number, &reply) {
            Ok(reply) => Ok(Some(reply)),
            Err(fault) => {
                self.fault = Some(fault);
                Err(fault)
            }
        }
    }
}

/// The peer that logs what one asks.
fn peer_of(token: &Token) -> u8 {
    if token.session.as_slice() == b"w1".as_slice() {
        1
    } else {
        0
    }
}

/// What the operation of a token is answered.
fn reply_of(token: &Token, lost: bool) -> Reply {
    if lost {
        return Reply::ShardFull { limit: 0 };
    }
    match &token.asked {
        Some(Asked::Write { .. }) => write_reply(
            token.session.as_slice(),
            token.kept.len(),
            token.held.len(),
        ),
        Some(Asked::Delete) => Reply::Run { epoch: 2 },
        _ => Reply::Ok,
    }
}

/// What a write is answered, by how many answers and handles its session has.
fn write_reply(session: &[u8], answers: usize, handles: usize) -> Reply {
    if session == b"w0".as_slice() && (answers == 2 || answers == 5) {
        return Reply::Stale {
            handle: 0,
            held: 1,
            now: 3,
        };
    }
    if session == b"w2".as_slice() && answers == 3 {
        return Reply::ShardFull { limit: 1 };
    }
    match u32::try_from(handles) {
        Ok(handle) => Reply::New { handle, epoch: 1 },
        Err(_) => Reply::HandlesFull { limit: u32::MAX },
    }
}
