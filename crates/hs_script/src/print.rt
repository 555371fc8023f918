//! The line of an entry.
ghost use Rattle.std.specs.Prelude.{◌≡◌, ◌++◌, IsTrue, OnOk, OnErr, IsOkUnless};
ghost use Rattle.std.specs.Fmt.{decimal};
ghost use Rattle.hs_journal.specs.declared.entry.Who.{Who};
ghost use Rattle.hs_model.specs.Replies.{is_refusal};
ghost use Rattle.hs_script.specs.Replies.{is_short};
ghost use Rattle.hs_script.specs.Text.{entry_text, refusal_text, reply_text, shard_text};

use crate::ScriptFault;
use crate::data::print_read;
use crate::put::{put_address, put_named, put_stat, put_who};
use crate::written::print_written;
use hs_journal::{JournalEntry, Who};
use hs_model::Reply;
use std::io;
use std::io::Write;

/// Puts the line of an entry at the end of `out`. An error leaves `out` as it was. The data of a read
/// are printed from where they lie.
#[tactic(auto, unfolding(crate::specs::Text::entry_text))]
pub fn print_entry(entry: &JournalEntry, out: &mut Vec<u8>) -> Result<(), ScriptFault>
    ensures ok { OnOk result (out.new.items ≡ out.old.items ++ entry_text entry.now) }
    ensures err { IsOkUnless result ScriptFault.NoMemory }
    ensures same { OnErr result (out.new.items ≡ out.old.items) }
{
    match &entry.reply {
        Reply::Bytes { bytes, handles } => {
            print_read(entry.who, bytes.as_slice(), handles.as_slice(), out)
        }
        Reply::New { handle, epoch } => {
            print_written(entry.who, b" new h", *handle, *epoch, out)?;
            Ok(())
        }
        Reply::Dup { handle, epoch } => {
            print_written(entry.who, b" dup h", *handle, *epoch, out)?;
            Ok(())
        }
        _ => print_short(entry, out),
    }
}

/// Puts the line of a short entry at the end of `out`. It is made apart.
fn print_short(entry: &JournalEntry, out: &mut Vec<u8>) -> Result<(), ScriptFault>
    requires { IsTrue (is_short entry.now.reply) }
    ensures ok { OnOk result (out.new.items ≡ out.old.items ++ entry_text entry.now) }
    ensures err { IsOkUnless result ScriptFault.NoMemory }
    ensures same { OnErr result (out.new.items ≡ out.old.items) }
{
    let mut line = Vec::with_capacity(*out.allocator(), 128)?;
    match put_entry(entry, &mut line) {
        Ok(()) => {
            out.extend_from_slice(line.as_slice())?;
            Ok(())
        }
        Err(_) => Err(ScriptFault::NoMemory),
    }
}

/// Puts the line of an entry at the end of `out`.
#[tactic(auto, unfolding(crate::specs::Text::entry_text))]
fn put_entry(entry: &JournalEntry, out: &mut Vec<u8>) -> io::Result<()>
    requires { IsTrue (is_short entry.now.reply) }
    ensures { OnOk result (out.new.items ≡ out.old.items ++ entry_text entry.now) }
{
    put_who(entry.who, out)?;
    write!(out, " ")?;
    put_reply(entry.who, &entry.reply, out)?;
    write!(out, "\n")
}

/// Puts a short reply at the end of `out`.
fn put_reply(who: Who, reply: &Reply, out: &mut Vec<u8>) -> io::Result<()>
    requires { IsTrue (is_short reply.now) }
    ensures { OnOk result (out.new.items ≡ out.old.items ++ reply_text who reply.now) }
{
    match reply {
        Reply::Ok => write!(out, "ok"),
        Reply::Held { handle, epoch } => write!(out, "held h{handle} e{epoch}"),
        Reply::Name { address } => put_address(address, out),
        Reply::Stat {
            blocks,
            roots,
            sessions,
            epochs,
            swept,
        } => {
            put_stat(
                (*blocks, *roots, *sessions),
                epochs.as_slice(),
                swept.as_slice(),
                out,
            )
        }
        Reply::Run { epoch } => write!(out, "run e{epoch}"),
        Reply::Enter { epoch } => write!(out, "enter {} e{epoch}", shard_of(who)),
        Reply::Sweep { epoch, removed } => write!(
            out,
            "sweep {} e{epoch} {removed}",
            shard_of(who)
        ),
        Reply::Done { epoch } => write!(out, "done e{epoch}"),
        Reply::Down { peer, .. } => write!(out, "down {peer}"),
        Reply::Visits { epoch, count } => write!(out, "visits e{epoch} {count}"),
        _ => print_refusal(reply, out),
    }
}

/// Puts why a command was refused at the end of `out`, and nothing where the reply is no refusal.
pub fn print_refusal(reply: &Reply, out: &mut Vec<u8>) -> io::Result<()>
    ensures { OnOk result (out.new.items ≡ out.old.items ++ refusal_text reply.now) }
{
    match reply {
        Reply::NoSession { session } => put_named("no session ", session.as_slice(), out),
        Reply::SessionTaken { session } => put_named("no taken ", session.as_slice(), out),
        Reply::SessionsFull { limit } => write!(out, "no sessionsfull {limit}"),
        Reply::Busy { line } => write!(out, "no busy {line}"),
        Reply::TooLong { found } => write!(out, "no toolong {found}"),
        Reply::TooMany { found } => write!(out, "no toomany {found}"),
        Reply::NoHandle { handle } => write!(out, "no handle h{handle}"),
        Reply::HandlesFull { limit } => write!(out, "no handlesfull {limit}"),
        Reply::Stale { handle, held, now } => write!(out, "no stale h{handle} e{held} e{now}"),
        Reply::Collision => write!(out, "no collision"),
        Reply::ShardFull { limit } => write!(out, "no shardfull {limit}"),
        Reply::KeyTaken { key } => put_named("no keytaken ", key.as_slice(), out),
        Reply::NoKey { key } => put_named("no key ", key.as_slice(), out),
        Reply::RootsFull { limit } => write!(out, "no rootsfull {limit}"),
        Reply::Running { epoch } => write!(out, "no running e{epoch}"),
        Reply::EpochEnd { limit } => write!(out, "no epochend {limit}"),
        Reply::NoPeer { peer } => write!(out, "no peer {peer}"),
        Reply::NotUp { peer } => write!(out, "no notup {peer}"),
        Reply::NotDown { peer } => write!(out, "no notdown {peer}"),
        Reply::NoMessage { message } => write!(out, "no message {message}"),
        Reply::PoolFull { limit } => write!(out, "no poolfull {limit}"),
        _ => Ok(()),
    }
}

/// The shard that an entry is about, or 0.
fn shard_of(who: Who) -> u8
    ensures { shard_text who ≡ decimal result }
{
    match who {
        Who::Shard(shard) => shard,
        Who::Line(_) => 0,
        Who::Store => 0,
    }
}
