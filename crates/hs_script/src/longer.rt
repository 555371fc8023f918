//! The lines of three words and more.
ghost use Rattle.std.specs.Prelude.{◌≡◌, None};
ghost use Rattle.hs_model.specs.declared.command.Command.TheVariants as command;
ghost use Rattle.hs_model.specs.declared.op.Op.TheVariants as op;
ghost use Rattle.hs_script.specs.Answer.{ReadsCommand};
ghost use Rattle.hs_script.specs.Giving.{more_words};
ghost use Rattle.hs_script.specs.Parts.{handle_of, handles_of, key_of, name_of, payload_of};
ghost use Rattle.hs_script.specs.Reading.{leading, only, says_by};

use crate::ScriptFault;
use crate::handles::{fault_without_memory, handles_of};
use crate::name::name_of;
use crate::parts::key_and_handle;
use crate::payload::payload_of;
use crate::words::leading_word;
use hs_limits::is_name;
use hs_model::{Command, Op};
use std::alloc::Global;

/// What stands behind `root`: a session, a key and a handle.
pub(crate) fn read_root(alloc: Global, rest: &[u8]) -> Result<Command, ScriptFault>
    ensures { ReadsCommand result (says_by
        (λ p. command.Client (op.Root p.0 p.1.0 p.1.1))
        (leading name_of (leading key_of (only handle_of))
        (more_words rest.now))) }
{
    let Some((session, rest)) = leading_word(rest) else {
        return Err(ScriptFault::BadLine);
    };
    if !is_name(session) {
        return Err(ScriptFault::BadLine);
    }
    let (key, handle) = key_and_handle(alloc, rest)?;
    let session = name_of(alloc, session)?;
    Ok(Command::Client(Op::Root {
        session,
        key,
        handle,
    }))
}

/// What stands behind `write`: a session, data, and any number of handles.
pub(crate) fn read_write(alloc: Global, rest: &[u8]) -> Result<Command, ScriptFault>
    ensures { ReadsCommand result (says_by
        (λ p. command.Client (op.Write p.0 p.1.0 p.1.1 None))
        (leading name_of (leading payload_of handles_of)
        (more_words rest.now))) }
{
    let Some((session, rest)) = leading_word(rest) else {
        return Err(ScriptFault::BadLine);
    };
    let Some((word, rest)) = leading_word(rest) else {
        return Err(ScriptFault::BadLine);
    };
    if !is_name(session) {
        return Err(ScriptFault::BadLine);
    }
    match payload_of(alloc, word) {
        Err(ScriptFault::BadLine) => Err(ScriptFault::BadLine),
        Err(ScriptFault::NoMemory) => Err(fault_without_memory(rest)),
        Ok(payload) => {
            let handles = handles_of(alloc, rest)?;
            let session = name_of(alloc, session)?;
            Ok(Command::Client(Op::Write {
                session,
                payload,
                handles,
                address: None,
            }))
        }
    }
}
