//! The stores that words name: one, or two where a root is copied, and the disks of each.
ghost use Rattle.std.specs.Prelude.{◌≡◌, ◌+◌, ◌*◌, ◌≤◌, IfOk, IsTrue, map, string_bytes, vec_len};
ghost use Rattle.std.specs.List.{list_all, list_any};
ghost use Rattle.hydra.specs.CommandLine.{peers_in};

use crate::file_disk::{FileDisk, open_disk};
use hs_limits::Shape;
use hs_top::{second_shape, shape_of};
use std::alloc::{AllocError, Global};
use std::fs::File;
use std::rt::Files;
use std::{fs, io};

/// The folder that the words name.
pub fn dir_of(words: &[String]) -> &str {
    match words {
        [_, dir, ..] => dir.as_str(),
        _ => "",
    }
}

/// The folder of the second store, which the words of a copy name.
pub fn second_dir_of(words: &[String]) -> &str {
    match words {
        [_, _, _, _, _, dir, ..] => dir.as_str(),
        _ => "",
    }
}

/// The folder that a command makes where it is absent: of a copy that of the second store.
pub fn made_dir_of(words: &[String]) -> &str {
    if second_shape(words).is_some() {
        second_dir_of(words)
    } else {
        dir_of(words)
    }
}

/// How many of the disks are those of the first store, where the words name one.
pub fn first_count(words: &[String], disks: usize) -> usize
    ensures { result ≤ disks }
{
    match shape_of(words) {
        Some(shape) => {
            let peers = usize::from(shape.shards) * usize::from(shape.copies);
            peers.min(disks)
        }
        None => disks,
    }
}

/// The disks of the peers under the folders that the words name, those of the first store in front. A
/// script, a load, a store and a copy make the folder and the files that they write to where these are
/// absent, and nothing else does; there are none where the words name no shape. Where another run has a
/// folder, all disks count as its.
pub fn disks_of<R: Files<File = File>>(
    rt: &R,
    alloc: Global,
    words: &[String],
) -> Result<Vec<FileDisk<File>>, AllocError>
    ensures count { IfOk result (λ disks.
        vec_len disks ≡ peers_in (map (λ word. string_bytes word) words.now)) }
    ensures whole { IfOk result (λ disks.
        IsTrue (list_any (λ disk. disk.is_taken) disks.items)
        → IsTrue (list_all (λ disk. disk.is_taken) disks.items)) }
{
    let first = match shape_of(words) {
        Some(shape) => disks_in(rt, alloc, dir_of(words), makes_files(words), shape)?,
        None => Vec::new(alloc),
    };
    match second_shape(words) {
        Some(shape) => {
            let second = disks_in(rt, alloc, second_dir_of(words), true, shape)?;
            both(alloc, first, second)
        }
        None => Ok(first),
    }
}

// The disks of a store under a folder.
fn disks_in<R: Files<File = File>>(
    rt: &R,
    alloc: Global,
    dir: &str,
    makes: bool,
    shape: Shape,
) -> Result<Vec<FileDisk<File>>, AllocError>
    ensures count { IfOk result (λ disks. vec_len disks ≡ shape.shards * shape.copies) }
    ensures whole { IfOk result (λ disks.
        IsTrue (list_any (λ disk. disk.is_taken) disks.items)
        → IsTrue (list_all (λ disk. disk.is_taken) disks.items)) }
{
    let made = if makes {
        fs::create_dir_all(rt, dir).err()
    } else {
        None
    };
    let peers = usize::from(shape.shards) * usize::from(shape.copies);
    open_disks(rt, alloc, dir, makes, made, peers)
}

// The disks of two stores. Where another run has one of them, it counts as having all.
#[tactic(auto, using(crate::proofs::TakenLemmas::none_of_both))]
fn both(
    alloc: Global,
    first: Vec<FileDisk<File>>,
    second: Vec<FileDisk<File>>,
) -> Result<Vec<FileDisk<File>>, AllocError>
    ensures count { IfOk result (λ disks. vec_len disks ≡ vec_len first + vec_len second) }
    ensures whole { IfOk result (λ disks.
        IsTrue (list_any (λ disk. disk.is_taken) disks.items)
        → IsTrue (list_all (λ disk. disk.is_taken) disks.items)) }
{
    let (mut all, mut more) = (first, second);
    if is_any_taken(&all) || is_any_taken(&more) {
        return taken_disks(alloc, all.len() + more.len());
    }
    all.append(&mut more)?;
    Ok(all)
}

/// Whether the words begin with a command that makes the files of its store, of a copy the first.
pub fn makes_files(words: &[String]) -> bool {
    match words {
        [command, ..] => {
            command.as_bytes() == b"script".as_slice()
                || command.as_bytes() == b"load".as_slice()
                || command.as_bytes() == b"store".as_slice()
        }
        [] => false,
    }
}

/// Whether the words begin with a command that writes to the files of a store as it opens.
pub fn writes_files(words: &[String]) -> bool {
    match words {
        [command, ..] => {
            makes_files(words)
                || command.as_bytes() == b"fetch".as_slice()
                || command.as_bytes() == b"copy".as_slice()
        }
        [] => false,
    }
}

// The disks of this many peers under a folder, with why it could not be made. Where another run has
// one, it counts as having all: else each of two runs might go on with a part of them.
fn open_disks<R: Files<File = File>>(
    rt: &R,
    alloc: Global,
    dir: &str,
    makes: bool,
    made: Option<io::Error>,
    peers: usize,
) -> Result<Vec<FileDisk<File>>, AllocError>
    ensures count { IfOk result (λ disks. vec_len disks ≡ peers) }
    ensures whole { IfOk result (λ disks.
        IsTrue (list_any (λ disk. disk.is_taken) disks.items)
        → IsTrue (list_all (λ disk. disk.is_taken) disks.items)) }
{
    let mut disks = Vec::new(alloc);
    for peer in 0..peers {
        let mut disk = open_disk(rt, alloc, dir, peer, makes);
        if disk.is_taken {
            return taken_disks(alloc, peers);
        }
        if let Some(reason) = made {
            disk.blame_folder(reason);
        }
        disks.push(disk)?;
    }
    Ok(disks)
}

// This many disks that another run has.
#[tactic(auto, using(crate::proofs::TakenLemmas::all_pushed))]
fn taken_disks(alloc: Global, peers: usize) -> Result<Vec<FileDisk<File>>, AllocError>
    ensures count { IfOk result (λ disks. vec_len disks ≡ peers) }
    ensures all { IfOk result (λ disks. IsTrue (list_all (λ disk. disk.is_taken) disks.items)) }
{
    let mut disks = Vec::new(alloc);
    for _ in 0..peers {
        disks.push(FileDisk::absent(true))?;
    }
    Ok(disks)
}

/// Whether another run has one of the disks.
pub fn is_any_taken(disks: &[FileDisk<File>]) -> bool
    ensures { result ≡ list_any (λ disk. disk.is_taken) disks.now }
{
    disks.iter().any(|disk| disk.is_taken)
}
