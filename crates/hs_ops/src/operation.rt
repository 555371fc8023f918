//! One client operation.
ghost use Rattle.std.specs.Prelude.{◌≡◌, Ok, IfOk, OnOk, OnErr};
ghost use Rattle.std.specs.Option.{option_map};
ghost use Rattle.hs_ops.specs.Answers.{deed_of, gained};
ghost use Rattle.hs_ops.specs.Operations.{after_step, bytes_step, effect_step, go_step, new_operation, stage_after, wanted_number};

use crate::answering::{deed_of, gained};
use crate::comparing::{Report, on_bytes};
use crate::effects::on_effect;
use crate::going::{begin, go};
use crate::{OpFault, OpStep, OpView};
use hs_desk::What;
use hs_limits::{Address, Held, ListOf};
use hs_model::{Deed, Op, Reply};
use hs_shared::SharedBytes;
use hs_tokens::Sessions;
use std::alloc::Global;
use std::marker::Model;

/// How far an operation has come.
#[derive(Clone, Copy, Debug, PartialEq, Eq)]
pub enum Stage {
    /// It was not judged yet.
    New,
    /// It waits to be judged again.
    Waiting,
    /// It wants the bytes of the block of the entry of this number.
    Reading { number: u64 },
    /// Its entry is proposed.
    Logged,
}

/// An operation of a client's line that has no answer yet. It changes nothing of the store: each
/// call tells the next step, by what it sees.
#[derive(Drop)]
pub struct Operation {
    line: u64,
    op: Op,
    stage: Stage,
    alloc: Global,
}

impl Model for Operation {
    ghost use Rattle.hs_ops.specs.Operations.{Operation};

    ghost Value = { Operation };

    ghost view = { λ a. record { line = a.line; op = a.op; stage = a.stage } };
}

impl Operation {
    /// The operation of a line. Nothing is judged yet. It takes no memory.
    pub fn begin(alloc: Global, line: u64, op: Op) -> Result<Operation, OpFault>
        ensures { result ≡ Ok (new_operation line op) }
    {
        Ok(Operation {
            line,
            op,
            stage: Stage::New,
            alloc,
        })
    }

    /// The line that asked.
    pub fn line(&self) -> u64
        ensures { result ≡ self.now.line }
    {
        self.line
    }

    /// What it asks.
    pub fn op(&self) -> &Op
        ensures { result.now ≡ self.now.op }
    {
        &self.op
    }

    /// How far it has come.
    pub fn stage(&self) -> Stage
        ensures { result ≡ self.now.stage }
    {
        self.stage
    }

    /// Its first step, or the step of one that goes on again. The first looks at refusals before it
    /// waits for the current view; from then on the view comes first. Without memory it stays as it
    /// was.
    pub fn go(&mut self, view: &OpView) -> Result<OpStep, OpFault>
        ensures step { IfOk result (λ step. step ≡ go_step view.now self.old) }
        ensures after { OnOk result (self.new ≡ after_step (go_step view.now self.old) self.old) }
        ensures same { OnErr result (self.new ≡ self.old) }
    {
        let step = match self.stage {
            Stage::New => begin(view, self.alloc, self.line, &self.op)?,
            Stage::Waiting => go(view, self.alloc, self.line, &self.op)?,
            Stage::Reading { .. } => go(view, self.alloc, self.line, &self.op)?,
            Stage::Logged => go(view, self.alloc, self.line, &self.op)?,
        };
        self.stage = stage_after(&step, self.stage);
        Ok(step)
    }

    /// The step where the bytes that it wanted were reported, None where they are gone, with the
    /// pointers that the catalogue has for that block, none where it is gone. It is judged again
    /// first. A read's answer shares the bytes. Without memory it stays as it was.
    pub fn bytes(
        &mut self,
        view: &OpView,
        bytes: Option<&SharedBytes>,
        pointers: &[Address],
    ) -> Result<OpStep, OpFault>
        ensures step { IfOk result (λ step. step ≡ bytes_step view.now
            (option_map (λ told. told.now) bytes.entry) pointers.now self.old) }
        ensures after { OnOk result (self.new ≡ after_step (bytes_step view.now
            (option_map (λ told. told.now) bytes.entry) pointers.now self.old) self.old) }
        ensures same { OnErr result (self.new ≡ self.old) }
    {
        let number = wanted_number(self.stage);
        let report = Report {
            number,
            bytes,
            pointers,
        };
        let step = on_bytes(view, self.alloc, self.line, &report, &self.op)?;
        self.stage = stage_after(&step, self.stage);
        Ok(step)
    }

    /// The step where its entry took effect: the answer, or where the entry did nothing for it the
    /// step of one that goes on again. Without memory it stays as it was.
    pub fn effect(&mut self, view: &OpView, what: &What) -> Result<OpStep, OpFault>
        ensures step { IfOk result (λ step. step ≡ effect_step view.now what.now self.old) }
        ensures after { OnOk result
            (self.new ≡ after_step (effect_step view.now what.now self.old) self.old) }
        ensures same { OnErr result (self.new ≡ self.old) }
    {
        let step = on_effect(view, self.alloc, self.line, what, &self.op)?;
        self.stage = stage_after(&step, self.stage);
        Ok(step)
    }

    /// What the handles of its reply stand for, where it is not refused: of a read each of these
    /// pointers, those of the block that it read.
    pub fn gained(&self, view: &OpView, pointers: &[Address]) -> Result<ListOf<Held>, OpFault>
        ensures { IfOk result (λ helds. helds ≡ gained view.now pointers.now self.now.op) }
    {
        gained(view, self.alloc, pointers, &self.op)
    }

    /// The deed of the operation that got this reply, where these are the sessions before it.
    pub fn into_deed(self, sessions: &Sessions, reply: &Reply) -> Result<Deed, OpFault>
        ensures { IfOk result (λ deed. deed ≡ deed_of sessions.now.seats self.op reply.now) }
    {
        let Operation { op, alloc, .. } = self;
        deed_of(alloc, sessions, op, reply)
    }
}

/// How far an operation has come after a step.
fn stage_after(step: &OpStep, stage: Stage) -> Stage
    ensures { result ≡ stage_after step.now stage }
{
    match step {
        OpStep::Answer(_) => stage,
        OpStep::Propose(_) => Stage::Logged,
        OpStep::Compare { number } => Stage::Reading { number: *number },
        OpStep::Wait => Stage::Waiting,
    }
}

/// The number of the entry whose bytes are wanted, 0 where none are.
fn wanted_number(stage: Stage) -> u64
    ensures { result ≡ wanted_number stage }
{
    match stage {
        Stage::New => 0,
        Stage::Waiting => 0,
        Stage::Reading { number } => number,
        Stage::Logged => 0,
    }
}
