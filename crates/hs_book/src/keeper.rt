//! The core, with what is kept beside it.
ghost use Rattle.std.specs.Prelude.{◌≡◌, ◌+◌, ◌<◌, true, [], length, None, Some, IfErr, IfNone, IfOk, IfSome, IsOkUnless, IsSome, OnOk, Option, is_some, replicate, slice_index_or};
ghost use Rattle.hs_book.specs.Answers.{IsAnswerOf, Hears, is_line_answered, answer_place};
ghost use Rattle.hs_book.specs.Book.{Book, delivery_of, handed_next, count_of_peers};
ghost use Rattle.hs_book.specs.Calls.{DoesEvent, StepsOnce};
ghost use Rattle.hs_book.specs.Events.{HasWholeAddress, IsBookEvent};
ghost use Rattle.hs_book.specs.Reports.{with_numbers};
ghost use Rattle.hs_core_words.specs.Calls.{IsNextLine};
ghost use Rattle.hs_core_words.specs.declared.event.Event.{Event};
ghost use Rattle.hs_core_words.specs.declared.event.Event.TheVariants as event;
ghost use Rattle.hs_desk.specs.declared.fault.CoreFault.TheVariants.{NoMemory};
ghost use Rattle.hs_desk.specs.Faults.{EndsOnce};
ghost use Rattle.hs_desk.specs.Slips.{is_own_next, reported, stored_by};
ghost use Rattle.hs_desk.specs.Tokens.{begun};
ghost use Rattle.hs_model.specs.Judge.{asked_of};
ghost use Rattle.hs_model.specs.declared.op.Asked.{Asked};

use crate::own::copy_own;
use crate::places::Places;
use hs_core::Core;
use hs_core_words::Event;
use hs_desk::{CoreFault, Done, Next, Slip, Token};
use hs_limits::ListOf;
use hs_model::{Asked, Op, Reply};
use std::alloc::{AllocError, Global};
use std::marker::Model;

/// The core; by peer what was reported as sealed; where the journal answers each line; and why the
/// book has ended.
#[derive(Drop)]
pub(crate) struct Keeper {
    alloc: Global,
    core: Core,
    reported: Vec<ListOf<u64>>,
    places: Places,
    fault: Option<CoreFault>,
}

impl Model for Keeper {
    ghost use Rattle.std.specs.Prelude.{◌≡◌, None};
    ghost use Rattle.hs_book.specs.Answers.{Indexes};
    ghost use Rattle.hs_book.specs.Book.{Book};

    ghost Value = { Book };

    ghost view = { λ k. record {
      core = k.core;
      reported = k.reported.items;
      ended = k.fault;
    } };

    ghost invariant = { λ k. k.fault ≡ None → Indexes k.core.journal k.places };
}

impl Keeper {
    /// A core of which nothing was reported yet.
    pub(crate) fn new(alloc: Global, core: Core) -> Result<Keeper, CoreFault>
        ensures ok { IfOk result (λ book. book ≡ record {
          core = core;
          reported = replicate (count_of_peers core) [];
          ended = None;
        }) }
        ensures only { IsOkUnless result NoMemory }
    {
        let shape = core.shape();
        let reported = no_reports(alloc, shape.shards * shape.copies)?;
        let mut places = Places::new(alloc);
        places.note(core.journal().entries(), 0)?;
        Ok(Keeper {
            alloc,
            core,
            reported,
            places,
            fault: None,
        })
    }

    /// The core. It takes no memory.
    pub(crate) fn into_core(self) -> Core
        ensures { result ≡ self.core }
    {
        let Keeper { core, .. } = self;
        core
    }

    /// What a peer reported. It takes no memory.
    pub(crate) fn reported(&self, peer: u8) -> &[u64]
        ensures { result.now ≡ slice_index_or self.now.reported peer [] }
    {
        let place = usize::from(peer);
        if place >= self.reported.len() {
            return &[];
        }
        self.reported[place].as_slice()
    }

    /// Why the book has ended. It takes no memory.
    pub(crate) fn ended(&self) -> Option<CoreFault>
        ensures { result ≡ self.now.ended }
    {
        self.fault
    }

    /// There is no memory: the book has ended, by this fault, or by the one before. It takes no
    /// memory.
    #[tactic(auto, using(crate::proofs::CallLemmas::runs_out, crate::proofs::CallLemmas::stays_ended))]
    pub(crate) fn run_out(&mut self) -> CoreFault
        ensures ended { self.new.ended ≡ Some result }
        ensures first { IfSome self.old.ended (λ earlier. result ≡ earlier) }
        ensures only { IfNone self.old.ended (result ≡ NoMemory) }
        ensures does { (e : Option Event) → DoesEvent e self.old self.new }
    {
        if let Some(fault) = self.fault {
            return fault;
        }
        self.fault = Some(CoreFault::NoMemory);
        CoreFault::NoMemory
    }

    /// What is next for a peer, where there is room for what a report may add to its slip.
    pub(crate) fn next_for(&mut self, slip: &mut Slip) -> Result<Next, CoreFault>
        ensures slip { slip.new ≡ slip.old }
        ensures given { IfOk result (λ next. next ≡ handed_next slip.old.peer self.old.core) }
        ensures own { IfOk result (λ next. is_own_next next ≡ true) }
        ensures ends { EndsOnce self.old.ended self.new.ended result }
        ensures does { DoesEvent (delivery_of slip.old.peer self.old.core) self.old self.new }
    {
        if slip.reserve().is_err() {
            return Err(self.run_out());
        }
        self.next(slip.peer)
    }

    /// What is next for a peer.
    #[tactic(auto, using(crate::proofs::CallLemmas::stays_ended, crate::proofs::CallLemmas::no_peer_does, crate::proofs::CallLemmas::job_does, crate::proofs::CallLemmas::nothing_does, crate::proofs::CallLemmas::message_does))]
    fn next(&mut self, peer: u8) -> Result<Next, CoreFault>
        ensures given { IfOk result (λ next. next ≡ handed_next peer self.old.core) }
        ensures own { IfOk result (λ next. is_own_next next ≡ true) }
        ensures ends { EndsOnce self.old.ended self.new.ended result }
        ensures does { DoesEvent (delivery_of peer self.old.core) self.old self.new }
    {
        if let Some(fault) = self.fault {
            return Err(fault);
        }
        let shape = self.core.shape();
        if peer >= shape.shards * shape.copies {
            return Ok(Next::Idle);
        }
        if let Some(job) = self.core.first_job(peer) {
            return match copy_own(self.alloc, job) {
                Ok(job) => Ok(Next::Do(job)),
                Err(_) => Err(self.run_out()),
            };
        }
        let Some(message) = self.core.oldest_for(peer) else {
            return Ok(Next::Idle);
        };
        match self.do_event(Event::Deliver { line: 0, message }) {
            Ok(()) => Ok(Next::Handled),
            Err(fault) => Err(fault),
        }
    }

    /// Takes a report of the work in hand of a peer, and notes it in its slip.
    pub(crate) fn report_for(&mut self, slip: &mut Slip, done: Done) -> Result<(), CoreFault>
        ensures noted { slip.new ≡ reported done result slip.old }
        ensures ends { EndsOnce self.old.ended self.new.ended result }
        ensures does { DoesEvent (Some (event.Report slip.old.peer done)) self.old self.new }
    {
        match self.report(slip.peer, &done) {
            Ok(()) => match slip.take_report(done, Ok(())) {
                Ok(()) => Ok(()),
                Err(_) => Err(self.run_out()),
            },
            Err(fault) => slip.take_report(done, Err(fault)),
        }
    }

    /// Takes a report of a peer. One that does not answer the first job of the peer, which never
    /// comes, counts as want of memory.
    fn report(&mut self, peer: u8, done: &Done) -> Result<(), CoreFault>
        ensures ends { EndsOnce self.old.ended self.new.ended result }
        ensures does { DoesEvent (Some (event.Report peer done.now)) self.old self.new }
    {
        if self.fault.is_some() || !self.is_due(peer, done) {
            return Err(self.run_out());
        }
        let Ok(copy) = done.copy() else {
            return Err(self.run_out());
        };
        match self.do_event(Event::Report { peer, done: copy }) {
            Ok(()) => self.note(peer, done),
            Err(fault) => Err(fault),
        }
    }

    /// Whether a report answers the first job of its peer. It takes no memory.
    fn is_due(&self, peer: u8, done: &Done) -> bool
        ensures { result ≡ true → IsBookEvent self.now.core (event.Report peer done.now) }
    {
        let shape = self.core.shape();
        if peer >= shape.shards * shape.copies {
            return false;
        }
        match self.core.first_job(peer) {
            Some(job) => done.answers(peer, job),
            None => false,
        }
    }

    /// Keeps the number of a report that was taken, if it has one.
    fn note(&mut self, peer: u8, done: &Done) -> Result<(), CoreFault>
        requires going { self.old.ended ≡ None }
        ensures ends { EndsOnce self.old.ended self.new.ended result }
        ensures only { IsOkUnless result NoMemory }
        ensures noted { OnOk result (self.new ≡ record self.old {
          reported = with_numbers peer (stored_by done.now) self.old.reported;
        }) }
    {
        if add_number(&mut self.reported, peer, done).is_err() {
            return Err(self.run_out());
        }
        Ok(())
    }

    /// Begins an operation, and notes it in a token.
    pub(crate) fn begin_for(&mut self, token: &mut Token, op: Op) -> Result<u64, CoreFault>
        requires address { HasWholeAddress op }
        ensures noted { token.new ≡ begun (asked_of op) result token.old }
        ensures number { IfOk result (λ number. number ≡ self.old.core.progress.last_line + 1) }
        ensures ends { EndsOnce self.old.ended self.new.ended result }
        ensures does { DoesEvent (Some (event.Line (self.old.core.progress.last_line + 1) op))
            self.old self.new }
    {
        let Ok(asked) = Asked::of(self.alloc, &op) else {
            let fault = self.run_out();
            token.fail(fault);
            return Err(fault);
        };
        let given = self.begin(op);
        token.begin(asked, given);
        given
    }

    /// Begins an operation under the next line.
    fn begin(&mut self, op: Op) -> Result<u64, CoreFault>
        requires address { HasWholeAddress op }
        ensures number { IfOk result (λ number. number ≡ self.old.core.progress.last_line + 1) }
        ensures ends { EndsOnce self.old.ended self.new.ended result }
        ensures does { DoesEvent (Some (event.Line (self.old.core.progress.last_line + 1) op))
            self.old self.new }
    {
        if self.fault.is_some() {
            return Err(self.run_out());
        }
        let Some(line) = self.core.last_line().checked_add(1) else {
            return Err(self.run_out());
        };
        match self.do_event(Event::Line { line, op }) {
            Ok(()) => Ok(line),
            Err(fault) => Err(fault),
        }
    }

    /// The answer to a line, and notes it in a token. None exactly where the journal does not answer
    /// it.
    pub(crate) fn answer_for(
        &mut self,
        token: &mut Token,
        line: u64,
    ) -> Result<Option<Reply>, CoreFault>
        requires asked { IsSome token.old.asked }
        ensures noted { (asked : Asked) → token.old.asked ≡ Some asked
            → Hears line self.old.core.journal asked token.old token.new result }
        ensures found { IfOk result (λ reply. is_some reply ≡ is_line_answered line self.old.core.journal) }
        ensures ends { EndsOnce self.old.ended self.new.ended result }
        ensures does { DoesEvent None self.old self.new }
    {
        if self.fault.is_some() {
            let fault = self.run_out();
            token.fail(fault);
            return Err(fault);
        }
        let Some(place) = self.places.of(line) else {
            return Ok(None);
        };
        match self.tell(token, line, place) {
            Ok(reply) => Ok(Some(reply)),
            Err(fault) => Err(fault),
        }
    }

    /// Tells a token the answer at a place of the journal, which is that to its line.
    fn tell(&mut self, token: &mut Token, line: u64, place: usize) -> Result<Reply, CoreFault>
        requires going { self.old.ended ≡ None }
        requires within { place < length self.old.core.journal }
        requires place { answer_place line self.old.core.journal ≡ Some place }
        requires asked { IsSome token.old.asked }
        ensures told { (asked : Asked) → token.old.asked ≡ Some asked
            → IfOk result (λ told. IsAnswerOf line self.old.core.journal asked token.old token.new told) }
        ensures failed { IfErr result (λ fault. token.new ≡ record token.old { fault = Some fault }) }
        ensures ends { EndsOnce self.old.ended self.new.ended result }
        ensures does { DoesEvent None self.old self.new }
    {
        let entries = self.core.journal().entries();
        match token.answer(self.alloc, place as u64, &entries[place].reply) {
            Ok(reply) => Ok(reply),
            Err(_) => Err(self.run_out()),
        }
    }

    /// Does one event, at the moment of the core.
    fn do_event(&mut self, event: Event) -> Result<(), CoreFault>
        requires going { self.old.ended ≡ None }
        requires line { IsNextLine self.old.core event }
        ensures ends { EndsOnce self.old.ended self.new.ended result }
        ensures steps { StepsOnce event self.old self.new }
    {
        let before = self.core.journal().entries().len();
        let moment = self.core.last_moment();
        if let Err(fault) = self.core.step(event, moment) {
            self.fault = Some(fault);
            return Err(fault);
        }
        if self
            .places
            .note(self.core.journal().entries(), before)
            .is_err()
        {
            self.fault = Some(CoreFault::NoMemory);
            return Err(CoreFault::NoMemory);
        }
        Ok(())
    }
}

/// So many peers that reported nothing.
#[tactic(auto, using(crate::proofs::ReportLemmas::replicate_more))]
fn no_reports(alloc: Global, peers: u8) -> Result<Vec<ListOf<u64>>, AllocError>
    ensures { IfOk result (λ reported. reported.items ≡ replicate peers []) }
{
    let mut reported = Vec::new(alloc);
    for _peer in 0..peers {
        reported.push(ListOf::new(alloc))?;
    }
    Ok(reported)
}

/// Adds the number that a report tells, if it tells one.
#[tactic(auto, using(crate::proofs::ReportLemmas::no_numbers))]
fn add_number(reported: &mut Vec<ListOf<u64>>, peer: u8, done: &Done) -> Result<(), AllocError>
    ensures { OnOk result
        (reported.new.items ≡ with_numbers peer (stored_by done.now) reported.old.items) }
{
    let number = match done {
        Done::Sealed { number } => *number,
        Done::Failed { .. } => 0,
        Done::Stored { .. }
        | Done::Bytes { .. }
        | Done::Gone { .. }
        | Done::Emptied
        | Done::Copied { .. }
        | Done::Stepped { .. } => return Ok(()),
    };
    let place = usize::from(peer);
    if place >= reported.len() {
        return Ok(());
    }
    reported[place].push(number)
}
