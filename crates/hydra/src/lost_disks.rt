//! What is told of disks behind a run: which is of another store, and which are no log.
use crate::file_disk::FileDisk;
use crate::found_files::is_open;
use hs_limits::Shape;
use hs_model::Reply;
use hs_peerlog::{LogFault, PeerView};
use hs_ports::Watch;
use hs_promise::{Outcome, Status};
use std::alloc::Global;
use std::fs::File;
use std::io;
use std::io::Write;

/// Writes of which store a disk is, where the run ended since it is another one.
pub fn tell_store<E: Write>(alloc: Global, errors: &mut E, status: &Status) -> io::Result<()> {
    let Status::WrongShape { peer, found } = status else {
        return Ok(());
    };
    let mut line = Vec::new(alloc);
    let shards = found.shards;
    let copies = found.copies;
    let own = found.peer;
    write!(
        line,
        "hydra: the files of peer {peer} are those of peer {own} of a store with G {shards} and R {copies}\n"
    )?;
    errors.write_all(&line)
}

/// Writes which files are no log, and from which byte on, where the run has set a disk aside.
pub fn tell_no_logs<E: Write>(
    alloc: Global,
    errors: &mut E,
    dir: &str,
    shape: Shape,
    disks: &mut [FileDisk<File>],
    watch: &mut Watch,
    outcome: &Outcome,
) -> io::Result<()> {
    if !has_lost(outcome) {
        return Ok(());
    }
    for (peer, disk) in disks.iter_mut().enumerate() {
        if let Some(at) = no_log(alloc, disk, watch, shape, peer) {
            let side = current_side(alloc, disk);
            let mut line = Vec::new(alloc);
            write!(
                line,
                "hydra: {dir}/peer{peer}.side{side} is no log, from byte {at} on\n"
            )?;
            errors.write_all(&line)?;
        }
    }
    Ok(())
}

// Whether a peer was told to be down, or a shard was lost.
fn has_lost(outcome: &Outcome) -> bool {
    match &outcome.status {
        Status::ShardLost { .. } => true,
        _ => outcome
            .journal
            .entries()
            .iter()
            .any(|entry| is_down(&entry.reply)),
    }
}

fn is_down(reply: &Reply) -> bool {
    match reply {
        Reply::Down { .. } => true,
        _ => false,
    }
}

// From which byte on the disk of a peer is no log, where its files can be read and it is none.
fn no_log(
    alloc: Global,
    disk: &mut FileDisk<File>,
    watch: &mut Watch,
    shape: Shape,
    peer: usize,
) -> Option<u64> {
    let Ok(peer) = u8::try_from(peer) else {
        return None;
    };
    if disk.is_taken || disk.fault().is_some() {
        return None;
    }
    match PeerView::read(alloc, disk, watch, shape, peer) {
        Err(LogFault::NotALog { at }) => Some(at),
        _ => None,
    }
}

// The side of a disk that is current: side one where it is open, and side zero is not or has the
// lower generation, which ends the head.
fn current_side(alloc: Global, disk: &mut FileDisk<File>) -> u8 {
    let (zero, one) = disk.fronts(alloc);
    if !is_open(&one) {
        return 0;
    }
    let higher = zero
        .iter()
        .zip(one.iter())
        .skip(9)
        .find(|pair| pair.0 != pair.1);
    match higher {
        Some((low, high)) if is_open(&zero) && low > high => 0,
        None if is_open(&zero) => 0,
        _ => 1,
    }
}
