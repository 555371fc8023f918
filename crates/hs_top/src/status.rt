//! What the program says of how a run ended: its exit status, and the line on standard error.
ghost use Rattle.std.specs.Prelude.{◌≡◌, ◌++◌, OnOk, IsOkUnless, codes};
ghost use Rattle.hs_script.specs.Text.{refusal_text};
ghost use Rattle.hs_top.specs.Status.{status_code, fault_text};

use hs_model::Reply;
use hs_promise::Status;
use hs_script::print_refusal;
use std::io;
use std::io::Write;
use thiserror::Error;

/// Why a line about a status was not written.
#[derive(Clone, Copy, Debug, PartialEq, Eq, Error)]
pub enum TopFault {
    #[error("out of memory")]
    NoMemory,
}

/// The exit status of the program: 0 exactly for `Done`.
pub fn exit_code(status: &Status) -> u8
    ensures { result ≡ status_code status.now }
{
    match status {
        Status::Done => 0,
        Status::Usage => 2,
        Status::BadLine { .. } => 3,
        Status::ShardLost { .. } => 4,
        Status::ReadFault => 5,
        Status::WriteFault => 6,
        Status::NoMemory => 7,
        Status::WrongShape { .. } => 8,
        Status::Mismatch { .. } => 9,
        Status::OpsFull => 10,
        Status::Torn { .. } => 11,
        Status::NotEmpty { .. } => 12,
        Status::InputFull => 13,
        Status::Refused { .. } => 14,
        Status::NotATree { .. } => 15,
        Status::NoSource { .. } => 16,
        Status::CopyFull { .. } => 17,
    }
}

/// Puts the line that a status has on standard error at the end of `out`, and nothing for `Done`.
pub fn fault_line(status: &Status, out: &mut Vec<u8>) -> Result<(), TopFault>
    ensures ok { OnOk result (out.new.items ≡ out.old.items ++ fault_text status.now) }
    ensures err { IsOkUnless result TopFault.NoMemory }
{
    match put_line(status, out) {
        Ok(()) => Ok(()),
        Err(_) => Err(TopFault::NoMemory),
    }
}

/// Puts the line at the end of `out`.
fn put_line(status: &Status, out: &mut Vec<u8>) -> io::Result<()>
    ensures { OnOk result (out.new.items ≡ out.old.items ++ fault_text status.now) }
{
    match status {
        Status::Done => Ok(()),
        Status::Usage => write!(out, "hydra: usage: hydra COMMAND DIR G R [words]\n"),
        Status::BadLine { line } => {
            write!(out, "hydra: line {line} is not in the script language\n")
        }
        Status::ShardLost { shard } => write!(out, "hydra: shard {shard} has no good peer\n"),
        Status::ReadFault => write!(out, "hydra: the input could not be read\n"),
        Status::WriteFault => write!(out, "hydra: the output could not be written\n"),
        Status::NoMemory => write!(out, "hydra: out of memory\n"),
        Status::WrongShape { peer, .. } => {
            write!(out, "hydra: the disk of peer {peer} is of another store\n")
        }
        Status::Mismatch { .. } => {
            write!(out, "hydra: a writer's answer differs from the journal\n")
        }
        Status::OpsFull => write!(out, "hydra: the journal is full\n"),
        Status::Torn { .. } => write!(out, "hydra: a worker's entries differ from the book\n"),
        Status::NotEmpty { .. } => write!(out, "hydra: the store is not empty\n"),
        Status::InputFull => write!(out, "hydra: the input is too long\n"),
        Status::Refused { reply } => put_refused(reply, out),
        Status::NotATree { .. } => write!(out, "hydra: the root is not a stored file\n"),
        Status::NoSource { peer } => write!(out, "hydra: peer {peer} has no log to copy from\n"),
        Status::CopyFull { blocks } => {
            write!(out, "hydra: the root reaches more than {blocks} blocks\n")
        }
    }
}

/// Puts the line of a refusal at the end of `out`.
fn put_refused(reply: &Reply, out: &mut Vec<u8>) -> io::Result<()>
    ensures { OnOk result (out.new.items ≡ out.old.items ++
        (codes "hydra: refused: " ++ (refusal_text reply.now ++ codes "\n"))) }
{
    write!(out, "hydra: refused: ")?;
    put_reason(reply, out)
}

/// Puts why it was refused at the end of `out`, and a line feed.
fn put_reason(reply: &Reply, out: &mut Vec<u8>) -> io::Result<()>
    ensures { OnOk result (out.new.items ≡ out.old.items ++ (refusal_text reply.now ++ codes "\n")) }
{
    print_refusal(reply, out)?;
    write!(out, "\n")
}
