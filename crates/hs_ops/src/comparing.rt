//! What reported bytes bring.
ghost use Rattle.std.specs.Prelude.{◌≡◌, ◌≤◌, ◌++◌, None, bytes_eq, drop, length, IfOk};
ghost use Rattle.std.specs.Option.{option_map};
ghost use Rattle.hs_limits.specs.Block.{IsBlock};
ghost use Rattle.hs_limits.specs.Reading.{read_block};
ghost use Rattle.hs_ops.specs.Going.{compared, data_in, data_of, is_reported, is_same_block, on_bytes};
ghost use Rattle.hs_ops.specs.Refusals.{refusal_of};
ghost use Rattle.hs_ops.specs.Speaking.{asked_block};

use crate::entries::{addresses_of, head_of};
use crate::going::go;
use crate::table::refusal_of;
use crate::telling::no_data;
use crate::{OpFault, OpStep, OpView};
use hs_limits::{Address, Name, parts_of};
use hs_model::{Op, Reply};
use hs_shared::SharedBytes;
use std::alloc::Global;

/// What was reported of a block: the number of its entry, its bytes, if they are not gone, and the
/// pointers that the catalogue has.
#[derive(Drop)]
pub(crate) struct Report<'a> {
    pub(crate) number: u64,
    pub(crate) bytes: Option<&'a SharedBytes>,
    pub(crate) pointers: &'a [Address],
}

/// The step of an operation whose bytes were reported: it is judged again first.
#[tactic(auto, unfolding(crate::specs::Going::on_bytes))]
pub(crate) fn on_bytes(
    view: &OpView,
    alloc: Global,
    line: u64,
    report: &Report,
    op: &Op,
) -> Result<OpStep, OpFault>
    ensures { IfOk result (λ step. step ≡ on_bytes view.now line (record {
      number = report.now.number;
      bytes = option_map (λ told. told.now) report.now.bytes;
      pointers = report.now.pointers.now;
    }) op.now) }
{
    match refusal_of(view, alloc, op)? {
        Some(refusal) => Ok(OpStep::Answer(refusal)),
        None => compared(view, alloc, line, report, op),
    }
}

/// The step of an operation that is not refused.
#[tactic(auto, unfolding(crate::specs::Going::compared))]
fn compared(
    view: &OpView,
    alloc: Global,
    line: u64,
    report: &Report,
    op: &Op,
) -> Result<OpStep, OpFault>
    requires { refusal_of view.now op.now ≡ None }
    ensures { IfOk result (λ step. step ≡ compared view.now line (record {
      number = report.now.number;
      bytes = option_map (λ told. told.now) report.now.bytes;
      pointers = report.now.pointers.now;
    }) op.now) }
{
    match op {
        Op::Write {
            session,
            payload,
            handles,
            address,
        } => {
            if !view.is_reported(report) {
                return go(view, alloc, line, op);
            }
            let handles = handles.as_slice();
            if !view.is_same_block(alloc, session, payload.as_slice(), handles, report)? {
                return Ok(OpStep::Answer(Reply::Collision));
            }
            let entry = view.mark_entry(line, report.number, session, handles, *address);
            Ok(OpStep::Propose(entry))
        }
        Op::Read { session, .. } => {
            let bytes = data_of(alloc, report.bytes)?;
            Ok(OpStep::Answer(view.read_reply(alloc, session, bytes)?))
        }
        _ => Ok(OpStep::Wait),
    }
}

impl<'a> OpView<'a> {
    /// Whether the block of this entry is present, and its bytes were reported.
    fn is_reported(&self, report: &Report) -> bool
        ensures { result ≡ is_reported self.now report.now.number
            (option_map (λ told. told.now) report.now.bytes) }
    {
        self.present == Some(report.number) && report.bytes.is_some()
    }

    /// Whether the bytes are those of a write's block, and the catalogue's pointers are its pointers.
    #[tactic(auto, unfolding(crate::specs::Going::is_same_block), using(crate::proofs::BlockLemmas::asked_is, crate::proofs::BlockLemmas::is_spelled))]
    fn is_same_block(
        &self,
        alloc: Global,
        session: &Name,
        payload: &[u8],
        handles: &[u32],
        report: &Report,
    ) -> Result<bool, OpFault>
        requires { IsBlock (asked_block self.now.seats session.now payload.now handles.now) }
        ensures { IfOk result (λ same. same
            ≡ is_same_block (asked_block self.now.seats session.now payload.now handles.now)
            (option_map (λ told. told.now) report.now.bytes) report.now.pointers.now) }
    {
        let Some(bytes) = report.bytes else {
            return Ok(false);
        };
        let pointers = addresses_of(alloc, &self.sessions, session, handles)?;
        let head = head_of(alloc, pointers.as_slice(), payload.len())?;
        let asked = pointers.as_slice();
        Ok(are_joined(head.as_slice(), payload, bytes.as_slice()) && asked == report.pointers)
    }
}

/// Whether bytes are a head and then a payload.
#[tactic(auto, using(crate::proofs::BlockLemmas::joined_found, crate::proofs::BlockLemmas::joined_none))]
fn are_joined(head: &[u8], payload: &[u8], bytes: &[u8]) -> bool
    ensures { result ≡ bytes_eq (head.now ++ payload.now) bytes.now }
{
    match bytes.strip_prefix(head) {
        Some(rest) => rest == payload,
        None => false,
    }
}

/// The data of the block that some bytes spell, none where they spell none. They stay where they lie.
#[tactic(auto, unfolding(crate::specs::Going::data_of))]
fn data_of(alloc: Global, bytes: Option<&SharedBytes>) -> Result<SharedBytes, OpFault>
    ensures { IfOk result (λ told. told ≡ data_of (option_map (λ told. told.now) bytes.entry)) }
{
    let Some(bytes) = bytes else {
        return no_data(alloc);
    };
    let head = head_len(bytes.as_slice());
    Ok(bytes.copy()?.behind(head))
}

/// How many bytes stand in front of the data of the block that some bytes spell: all of them where
/// they spell none.
fn head_len(bytes: &[u8]) -> usize
    ensures within { result ≤ length bytes.now }
    ensures behind { drop result bytes.now ≡ data_in (read_block bytes.now) }
{
    match parts_of(bytes) {
        Ok((_, _, content)) => bytes.len() - content.len(),
        Err(_) => bytes.len(),
    }
}
