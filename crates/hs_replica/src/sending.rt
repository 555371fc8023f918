//! What the peers of a shard are sent.
ghost use Rattle.std.specs.List.{enumerate_from};
ghost use Rattle.std.specs.Option.{option_map_or};
ghost use Rattle.std.specs.Prelude.{◌≡◌, ◌+◌, ◌≤◌, ◌<◌, ◌^◌, ◌==◌, length, map, false, OnOk};
ghost use Rattle.hs_post.specs.declared.message.Message.TheVariants.{Copy};
ghost use Rattle.hs_replica.specs.Group.{is_peer, send_all};
ghost use Rattle.hs_replica.specs.Sending.{above};

use crate::GroupFault;
use crate::replica::Replica;
use hs_entry::Entry;
use hs_post::{Message, Pool};
use std::alloc::Global;

/// Whether a lead is this peer.
pub(crate) fn is_peer(peer: u8, lead: Option<u8>) -> bool
    ensures { result ≡ is_peer peer lead }
{
    match lead {
        Some(lead) => lead == peer,
        None => false,
    }
}

/// From where on a peer is sent entries.
#[derive(Clone, Copy, Debug)]
pub(crate) enum Since {
    /// Those above its list.
    Length,
    /// Those above what the lead knows it to have sealed.
    Known,
}

/// The number above which a peer is sent entries.
pub(crate) fn above(since: Since, copy: &Replica) -> u64
    ensures { result ≡ above since copy.now }
{
    match since {
        Since::Length => copy.stamps.len(),
        Since::Known => copy.known,
    }
}

/// The shard and the view in which something is sent.
#[derive(Clone, Copy, Debug, Drop)]
pub(crate) struct Sender {
    pub shard: u8,
    pub view: u64,
}

/// Sends a peer Copies of these entries, of which the first has this number.
pub(crate) fn send_copies(
    alloc: Global,
    pool: &mut Pool,
    sender: Sender,
    to: u8,
    number: u64,
    entries: &[Entry],
) -> Result<(), GroupFault>
    requires { number + length entries.now ≤ 2 ^ 64 }
    ensures { OnOk result (pool.new ≡ send_all
        (map (λ e. Copy sender.shard to sender.view e.0 e.1) (enumerate_from number entries.now)) pool.old) }
{
    for index in 0..entries.len() {
        pool.send(Message::Copy {
            shard: sender.shard,
            to,
            view: sender.view,
            number: number + index as u64,
            entry: entries[index].copy(alloc)?,
        })?;
    }
    Ok(())
}
