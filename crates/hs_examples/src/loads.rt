//! Loads over disks in memory.
use crate::tests::words_of;
use hs_block::ShaNames;
use hs_ports::{Disk, ListSink, ListSource, MemoryDisk, Watch};
use hs_promise::Outcome;
use hs_top::{exit_code, hydra, load_with};
use hs_workers_calls::{Flags, HeldDisk, RaisingGate};
use std::alloc::{AllocError, Global};
use std::sync::Wait;
use std::test::Fail;
use std::thread::Threads;

/// A blank disk whose calls of these numbers fail.
fn failing(alloc: Global, fails: &[u64]) -> Result<MemoryDisk, AllocError> {
    let fails = Vec::from_slice(alloc, fails)?;
    Ok(MemoryDisk::new(alloc, Vec::new(alloc), Vec::new(alloc), fails))
}

/// So many blank disks.
fn blank(alloc: Global, count: usize) -> Result<Vec<MemoryDisk>, AllocError> {
    let mut disks = Vec::new(alloc);
    for _ in 0..count {
        disks.push(failing(alloc, &[])?)?;
    }
    Ok(disks)
}

/// Runs a command over the disks: its exit status, and what it put.
fn run<H: Threads + Wait + Sync, D: Disk + Drop + Send>(
    alloc: Global,
    rt: &H,
    text: &str,
    disks: &mut Vec<D>,
) -> Result<(u8, Vec<u8>), AllocError> {
    let words = words_of(alloc, text)?;
    let mut source = ListSource::new(alloc, Vec::new(alloc), Vec::new(alloc));
    let mut sink = ListSink::new(alloc, Vec::new(alloc));
    let mut watch = Watch::new();
    let outcome: Outcome = hydra(
        alloc,
        rt,
        &words,
        &ShaNames,
        &mut source,
        &mut sink,
        disks,
        &mut watch,
    );
    Ok((
        exit_code(&outcome.status),
        Vec::from_slice(alloc, sink.bytes())?,
    ))
}

const FOUR: &[u8] = b"writer 0 files 20 kept 15
writer 1 files 20 kept 15
writer 2 files 20 kept 15
writer 3 files 20 kept 15
roots 60
blocks 462
";

const EIGHT: &[u8] = b"writer 0 files 25 kept 19
writer 1 files 25 kept 19
writer 2 files 25 kept 19
writer 3 files 25 kept 19
writer 4 files 25 kept 19
writer 5 files 25 kept 19
writer 6 files 25 kept 19
writer 7 files 25 kept 19
roots 152
blocks 1100
";

/// How often a piece stands in a text.
fn count_of(text: &[u8], piece: &[u8]) -> usize {
    let mut count = 0_usize;
    for at in 0..text.len() {
        if text[at..].starts_with(piece) {
            count = count.saturating_add(1);
        }
    }
    count
}

#[test]
fn four_writers_load_four_shards(rt: HostRuntime) -> Result<(), Fail> {
    let alloc = rt.alloc();
    let mut disks = blank(alloc, 8)?;
    let load = "load d 4 2 --seed 7 --writers 4";
    let (code, text) = run(alloc, &rt, load, &mut disks)?;
    assert_eq!(rt; code, 0);
    assert_eq!(rt; text.as_slice(), FOUR);
    // All of it stands in the store, and nothing is left to sweep.
    let (code, text) = run(alloc, &rt, "audit d 4 2", &mut disks)?;
    assert_eq!(rt; code, 0);
    assert_eq!(rt; count_of(&text, b" garbage 0\n"), 4);
    assert_eq!(rt; count_of(&text, b"audit ok\n"), 1);
    // It isn't empty any more.
    let (code, text) = run(alloc, &rt, load, &mut disks)?;
    assert_eq!(rt; code, 12);
    assert_eq!(rt; text.as_slice(), b"".as_slice());
    Ok(())
}

#[test]
fn a_load_puts_the_same_text_at_each_run(rt: HostRuntime) -> Result<(), Fail> {
    let alloc = rt.alloc();
    for _ in 0..10 {
        let mut disks = blank(alloc, 4)?;
        let load = "load d 2 2 --seed 1 --writers 8 --files 25";
        let (code, text) = run(alloc, &rt, load, &mut disks)?;
        assert_eq!(rt; code, 0);
        assert_eq!(rt; text.as_slice(), EIGHT);
    }
    Ok(())
}

#[test]
fn a_disk_that_fails_ends_a_load_of_one_copy(rt: HostRuntime) -> Result<(), Fail> {
    let alloc = rt.alloc();
    for call in [40, 200, 1000] {
        let mut disks = Vec::new(alloc);
        disks.push(failing(alloc, &[])?)?;
        disks.push(failing(alloc, &[call])?)?;
        let load = "load d 2 1 --seed 7 --writers 4";
        let (code, text) = run(alloc, &rt, load, &mut disks)?;
        assert_eq!(rt; code, 4);
        assert_eq!(rt; text.as_slice(), b"".as_slice());
    }
    Ok(())
}

#[test]
fn a_load_goes_on_with_the_other_copy(rt: HostRuntime) -> Result<(), Fail> {
    let alloc = rt.alloc();
    let mut disks = Vec::new(alloc);
    for peer in 0..8 {
        let fails: &[u64] = if peer == 2 { &[300] } else { &[] };
        disks.push(failing(alloc, fails)?)?;
    }
    let (code, text) = run(alloc, &rt, "load d 4 2 --seed 7 --writers 4", &mut disks)?;
    assert_eq!(rt; code, 0);
    assert_eq!(rt; text.as_slice(), FOUR);
    Ok(())
}

#[test]
fn the_peers_of_a_load_work_beside_each_other(rt: HostRuntime) -> Result<(), Fail> {
    let alloc = rt.alloc();
    let flags = Flags::new();
    let zero = HeldDisk::new(failing(alloc, &[])?, &flags, 0, 1_000_000_000);
    let one = HeldDisk::new(failing(alloc, &[])?, &flags, 1, 1_000_000_000);
    let mut disks = Vec::new(alloc);
    disks.push(zero)?;
    disks.push(one)?;
    let words = words_of(alloc, "load d 2 1 --seed 1 --writers 8")?;
    let outcome = load_with(
        alloc,
        &rt,
        &words,
        &ShaNames,
        &mut ListSink::new(alloc, Vec::new(alloc)),
        &mut disks,
        &mut Watch::new(),
        &RaisingGate::new(&flags),
    );
    assert_eq!(rt; exit_code(&outcome.status), 0);
    assert_eq!(rt; flags.are_through(), true);
    Ok(())
}
