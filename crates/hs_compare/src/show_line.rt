//! Lines of a script, as what they say.
use crate::text::Text;
use hs_limits::{Address, Key, Name};
use hs_model::{Command, Op};
use hs_script::{ScriptFault, read_line};
use std::alloc::Global;

/// Puts what a line of a script says.
pub(crate) fn put_said(alloc: Global, line: &[u8], out: &mut Text) {
    match read_line(alloc, line) {
        Ok(said) => put_line(said, out),
        Err(ScriptFault::BadLine) => out.put("bad"),
        Err(ScriptFault::NoMemory) => out.put("nomemory"),
    }
}

/// Puts a command, or that there is none.
fn put_line(said: Option<Command>, out: &mut Text) {
    match said {
        Some(command) => put_command(&command, out),
        None => out.put("blank"),
    }
}

/// Puts a command: a client's operation, or one that drives the store.
fn put_command(command: &Command, out: &mut Text) {
    let (form, number) = match command {
        Command::Client(op) => return put_op(op, out),
        Command::Settle => ("settle", 0),
        Command::Turn { peer } => ("turn peer #", u64::from(*peer)),
        Command::Nudge { peer } => ("nudge peer #", u64::from(*peer)),
        Command::Deliver { message } => ("deliver message #", *message),
        Command::Lose { message } => ("lose message #", *message),
        Command::Repeat { message } => ("repeat message #", *message),
        Command::Fail { peer } => ("fail peer #", u64::from(*peer)),
        Command::Start { peer } => ("start peer #", u64::from(*peer)),
        Command::Reclaim { peer } => ("reclaim peer #", u64::from(*peer)),
    };
    out.put_form(form, &[number]);
}

/// Puts a client's operation: its word, and its fields.
fn put_op(op: &Op, out: &mut Text) {
    match op {
        Op::Open { session } => out.put_named("open session ", session.as_slice()),
        Op::Close { session } => out.put_named("close session ", session.as_slice()),
        Op::Write {
            session,
            payload,
            handles,
            address,
        } => {
            out.put_named("write session ", session.as_slice());
            out.put_hex(" data ", payload.as_slice());
            put_handles(handles.as_slice(), out);
            put_address(address.as_ref(), out);
        }
        Op::Read { session, handle } => put_handle("read session ", session, *handle, out),
        _ => put_root_op(op, out),
    }
}

/// Puts an operation on roots, handles or the whole store.
fn put_root_op(op: &Op, out: &mut Text) {
    match op {
        Op::Look { session, key } => put_key("look session ", session, key, out),
        Op::Root {
            session,
            key,
            handle,
        } => {
            put_key("root session ", session, key, out);
            out.put_form(" handle #", &[u64::from(*handle)]);
        }
        Op::Drop { key } => out.put_named("drop key ", key.as_slice()),
        Op::Forget { session, handle } => put_handle("forget session ", session, *handle, out),
        Op::Name { session, handle } => put_handle("name session ", session, *handle, out),
        Op::Delete => out.put("delete"),
        _ => out.put("stat"),
    }
}

/// Puts a word, a session and a key.
fn put_key(word: &str, session: &Name, key: &Key, out: &mut Text) {
    out.put_named(word, session.as_slice());
    out.put_named(" key ", key.as_slice());
}

/// Puts a word, a session and a handle.
fn put_handle(word: &str, session: &Name, handle: u32, out: &mut Text) {
    out.put_named(word, session.as_slice());
    out.put_form(" handle #", &[u64::from(handle)]);
}

/// Puts the numbers of handles.
fn put_handles(handles: &[u32], out: &mut Text) {
    out.put(" handles");
    for handle in handles {
        out.put_form(" #", &[u64::from(*handle)]);
    }
    if handles.is_empty() {
        out.put(" -");
    }
}

/// Puts the address that a write was given. A line gives it none.
fn put_address(address: Option<&Address>, out: &mut Text) {
    if let Some(address) = address {
        out.put_hex(" address ", &address.0);
    }
}
