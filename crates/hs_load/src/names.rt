//! Names of sessions.
ghost use Rattle.std.specs.Prelude.{◌≡◌, ◌++◌, IfOk, OnOk, codes};
ghost use Rattle.hs_load.specs.Team.{sessions_of};
ghost use Rattle.hs_script.specs.Loads.{session_name};

use hs_limits::{ListOf, Name};
use std::alloc::{AllocError, Global};
use std::io;
use std::io::Write;

/// The name of these bytes.
pub(crate) fn name_of(bytes: Vec<u8>) -> Result<Name, AllocError>
    ensures { IfOk result (λ name. name ≡ bytes.items) }
{
    match Name::from_list(ListOf::from_vec(bytes)) {
        Some(name) => Ok(name),
        None => Err(AllocError),
    }
}

/// Puts the session of a writer at the end of `out`.
fn put_session(number: u8, out: &mut Vec<u8>) -> io::Result<()>
    ensures { OnOk result (out.new.items ≡ out.old.items ++ session_name number) }
{
    write!(out, "w{number}")
}

/// The session of a writer.
pub(crate) fn session_of(alloc: Global, number: u8) -> Result<Name, AllocError>
    ensures { IfOk result (λ name. name ≡ session_name number) }
{
    let mut bytes = Vec::with_capacity(alloc, 8)?;
    if put_session(number, &mut bytes).is_err() {
        return Err(AllocError);
    }
    name_of(bytes)
}

/// The sessions of so many writers.
pub(crate) fn sessions_of(alloc: Global, writers: u8) -> Result<Vec<Name>, AllocError>
    ensures { IfOk result (λ names. names.items ≡ sessions_of writers) }
{
    let mut names = Vec::new(alloc);
    for number in 0..writers {
        names.push(session_of(alloc, number)?)?;
    }
    Ok(names)
}

/// The name of the thread that asks for deletions.
pub(crate) fn deleter_name(alloc: Global) -> Result<Name, AllocError>
    ensures { IfOk result (λ name. name ≡ codes "deleter") }
{
    name_of(Vec::from_slice(alloc, b"deleter")?)
}
