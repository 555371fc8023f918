//! What a line of a script says.
ghost use Rattle.std.specs.Prelude.{◌≡◌, bytes_eq, codes, false};
ghost use Rattle.hs_script.specs.Answer.{Reads, ReadsCommand};
ghost use Rattle.hs_script.specs.Giving.{more_words};
ghost use Rattle.hs_script.specs.Lines.{words_of};
ghost use Rattle.hs_script.specs.Reading.{command_of, driving_line, line_of, reading};

use crate::ScriptFault;
use crate::longer::{read_root, read_write};
use crate::parts::{key, message, no_word, peer, session, session_and_handle, session_and_key};
use crate::words::split_word;
use hs_model::{Command, Op};
use std::alloc::Global;

/// The most bytes of a line.
pub const LONGEST_LINE: usize = 200_000;

/// The command that a line says, or None where it is blank or a comment. A bad line is refused as
/// such also where there is no memory.
#[tactic(auto, unfolding(crate::specs::Reading::reading))]
pub fn read_line(alloc: Global, bytes: &[u8]) -> Result<Option<Command>, ScriptFault>
    ensures exact { Reads result (reading bytes.now) }
{
    if bytes.len() > LONGEST_LINE {
        return Err(ScriptFault::BadLine);
    }
    match bytes {
        [] | [b'#', ..] => Ok(None),
        _ => match read_command(alloc, bytes) {
            Ok(command) => Ok(Some(command)),
            Err(fault) => Err(fault),
        },
    }
}

/// The command of a line that is neither blank nor a comment.
#[tactic(auto, using(crate::proofs::ReadingLemmas::write_line))]
fn read_command(alloc: Global, line: &[u8]) -> Result<Command, ScriptFault>
    ensures { ReadsCommand result (command_of (words_of line.now)) }
{
    let (verb, rest) = split_word(line);
    if verb == b"write".as_slice() {
        read_write(alloc, rest)
    } else {
        read_verb(alloc, verb, rest)
    }
}

/// The command of a line whose verb isn't `write`. It is a call of its own: a write is read without
/// what the other lines want on the stack.
#[tactic(auto, unfolding(crate::specs::Reading::line_of))]
#[inline(never)]
fn read_verb(alloc: Global, verb: &[u8], rest: &[u8]) -> Result<Command, ScriptFault>
    requires { bytes_eq verb.now (codes "write") ≡ false }
    ensures { ReadsCommand result (line_of verb.now (more_words rest.now)) }
{
    if verb == b"open".as_slice() {
        let session = session(alloc, rest)?;
        Ok(Command::Client(Op::Open { session }))
    } else if verb == b"close".as_slice() {
        let session = session(alloc, rest)?;
        Ok(Command::Client(Op::Close { session }))
    } else if verb == b"read".as_slice() {
        let (session, handle) = session_and_handle(alloc, rest)?;
        Ok(Command::Client(Op::Read { session, handle }))
    } else if verb == b"look".as_slice() {
        let (session, key) = session_and_key(alloc, rest)?;
        Ok(Command::Client(Op::Look { session, key }))
    } else if verb == b"root".as_slice() {
        read_root(alloc, rest)
    } else if verb == b"drop".as_slice() {
        let key = key(alloc, rest)?;
        Ok(Command::Client(Op::Drop { key }))
    } else if verb == b"forget".as_slice() {
        let (session, handle) = session_and_handle(alloc, rest)?;
        Ok(Command::Client(Op::Forget { session, handle }))
    } else if verb == b"name".as_slice() {
        let (session, handle) = session_and_handle(alloc, rest)?;
        Ok(Command::Client(Op::Name { session, handle }))
    } else if verb == b"delete".as_slice() {
        no_word(rest)?;
        Ok(Command::Client(Op::Delete))
    } else if verb == b"stat".as_slice() {
        no_word(rest)?;
        Ok(Command::Client(Op::Stat))
    } else {
        read_driving(verb, rest)
    }
}

/// The command of a line that drives the store.
#[tactic(auto, unfolding(crate::specs::Reading::driving_line))]
fn read_driving(verb: &[u8], rest: &[u8]) -> Result<Command, ScriptFault>
    ensures { ReadsCommand result (driving_line verb.now (more_words rest.now)) }
{
    if verb == b"settle".as_slice() {
        no_word(rest)?;
        Ok(Command::Settle)
    } else if verb == b"turn".as_slice() {
        Ok(Command::Turn { peer: peer(rest)? })
    } else if verb == b"nudge".as_slice() {
        Ok(Command::Nudge { peer: peer(rest)? })
    } else if verb == b"deliver".as_slice() {
        Ok(Command::Deliver {
            message: message(rest)?,
        })
    } else if verb == b"lose".as_slice() {
        Ok(Command::Lose {
            message: message(rest)?,
        })
    } else if verb == b"repeat".as_slice() {
        Ok(Command::Repeat {
            message: message(rest)?,
        })
    } else if verb == b"fail".as_slice() {
        Ok(Command::Fail { peer: peer(rest)? })
    } else if verb == b"start".as_slice() {
        Ok(Command::Start { peer: peer(rest)? })
    } else if verb == b"reclaim".as_slice() {
        Ok(Command::Reclaim { peer: peer(rest)? })
    } else {
        Err(ScriptFault::BadLine)
    }
}
