//! What no clause and no case says of the adapters: which bytes reach a file and come back, calls
//! that fail or are interrupted, who has the files of a folder, and which line has no answer.
ghost use Rattle.std.specs.Prelude.{◌<◌};

use crate::file_disk::{FileDisk, open_disk};
use crate::found_files::is_foreign;
use crate::streams::{ReaderSource, WriterSink};
use crate::unanswered::{Unanswered, without_answer};
use hs_model::CourseItem;
use hs_ports::{Disk, PortFault, Side, Sink, Source, Watch};
use std::alloc::{AllocError, Global};
use std::cell::Cell;
use std::fs::{Metadata, OpenFile};
use std::io::{ErrorKind, Read, Seek, SeekFrom, Write};
use std::os::unix::fs::FileExt;
use std::{fs, io};

/// A stream, and a file of 6,000 zeros, that gives and takes at most two bytes a call. The first
/// calls answer an error.
#[derive(Drop)]
struct Faulty {
    left: Cell<u64>,
    kind: ErrorKind,
}

impl Faulty {
    fn new(left: u64, kind: ErrorKind) -> Faulty {
        Faulty {
            left: Cell::new(left),
            kind,
        }
    }

    fn step(&self) -> io::Result<()> {
        let left = self.left.get();
        if left == 0 {
            return Ok(());
        }
        self.left.set(left - 1);
        Err(self.kind.into())
    }
}

impl Read for Faulty {
    fn read(&mut self, buf: &mut [u8]) -> io::Result<usize> {
        self.step()?;
        Ok(buf.len().min(2))
    }
}

impl Write for Faulty {
    fn write(&mut self, buf: &[u8]) -> io::Result<usize> {
        self.step()?;
        Ok(buf.len().min(2))
    }

    fn flush(&mut self) -> io::Result<()> {
        Ok(())
    }
}

impl FileExt for Faulty {
    fn read_at(&self, buf: &mut [u8], _offset: u64) -> io::Result<usize> {
        self.step()?;
        Ok(buf.len().min(2))
    }

    fn write_at(&self, buf: &[u8], _offset: u64) -> io::Result<usize> {
        self.step()?;
        Ok(buf.len().min(2))
    }
}

impl Seek for Faulty {
    fn seek(&mut self, _to: SeekFrom) -> io::Result<u64> {
        Ok(6000)
    }
}

impl OpenFile for Faulty {
    fn metadata(&self) -> io::Result<Metadata> {
        Ok(Metadata::of_file(6000))
    }

    fn set_len(&self, _size: u64) -> io::Result<()> {
        self.step()
    }

    fn sync_all(&self) -> io::Result<()> {
        self.step()
    }

    fn sync_data(&self) -> io::Result<()> {
        self.step()
    }
}

// What two takes answer, where the first call fails so.
fn takes(alloc: Global, kind: ErrorKind) -> (Result<usize, PortFault>, Result<usize, PortFault>) {
    let Ok(mut source) = ReaderSource::new(alloc, Faulty::new(1, kind)) else {
        return (Err(PortFault::NoMemory), Err(PortFault::NoMemory));
    };
    let mut into = Vec::new(alloc);
    let first = source.take(9, &mut into);
    let second = source.take(9, &mut into);
    (first, second)
}

// What two puts answer, where the first call fails so.
fn puts(kind: ErrorKind) -> (Result<usize, PortFault>, Result<usize, PortFault>) {
    let mut watch = Watch::new();
    let mut sink = WriterSink::new(Faulty::new(1, kind));
    let first = sink.put(&mut watch, b"abc");
    let second = sink.put(&mut watch, b"abc");
    (first, second)
}

#[test]
fn a_stream_goes_on_after_a_fault(rt: HostRuntime) {
    assert!(rt; takes(rt.alloc(), ErrorKind::Other) == (Err(PortFault::Failed), Ok(2)));
    assert!(rt; puts(ErrorKind::Other) == (Err(PortFault::Failed), Ok(2)));
}

#[test]
fn an_interrupted_call_of_a_stream_is_tried_again(rt: HostRuntime) {
    assert!(rt; takes(rt.alloc(), ErrorKind::Interrupted) == (Ok(2), Ok(2)));
    assert!(rt; puts(ErrorKind::Interrupted) == (Ok(2), Ok(2)));
}

// The last bytes of a source from which as many as there are were taken.
fn last_of(alloc: Global, text: &[u8]) -> Result<Vec<u8>, AllocError> {
    let mut source = ReaderSource::new(alloc, text)?;
    let mut into = Vec::new(alloc);
    let _ = source.take(9000, &mut into);
    let _ = source.take(9000, &mut into);
    let (bytes, _) = source.last_bytes()?;
    Ok(bytes)
}

#[test]
fn the_last_bytes_are_kept_while_their_room_grows(rt: HostRuntime) -> Result<(), AllocError> {
    let text = "0123456789abc".repeat(rt.alloc(), 600)?;
    let last = last_of(rt.alloc(), text.as_bytes())?;
    assert!(rt; last.as_slice() == text.as_bytes());
    Ok(())
}

// Writes, cuts and writes again: abc is left.
fn write_abc<D: Disk>(disk: &mut D) -> Result<(), PortFault> {
    let mut watch = Watch::new();
    let _ = disk.write_at(&mut watch, Side::One, 0, b"abcdef");
    let _ = disk.cut(&mut watch, Side::One, 0);
    let _ = disk.write_at(&mut watch, Side::One, 0, b"abc");
    disk.sync(&mut watch, Side::One)
}

fn keep_abc(rt: &HostRuntime) -> Result<(), PortFault> {
    let mut disk = open_disk(rt, rt.alloc(), "out/kept", 3, true);
    write_abc(&mut disk)
}

#[test]
fn a_file_keeps_what_was_written(rt: HostRuntime) -> io::Result<()> {
    fs::create_dir_all(&rt, "out/kept")?;
    assert!(rt; keep_abc(&rt) == Ok(()));
    let bytes = fs::read(&rt, "out/kept/peer3.side1")?;
    assert!(rt; bytes.as_slice() == b"abc".as_slice());
    fs::remove_dir_all(&rt, "out/kept")
}

// Reads side one on to its end, by reads of so many bytes.
fn read_on<D: Disk>(disk: &mut D, max: usize, into: &mut Vec<u8>)
    requires { 0 < max }
{
    for _ in 0..50 {
        let _ = disk.read(Side::One, into.len() as u64, max, into);
    }
}

fn whole_side(rt: &HostRuntime, max: usize) -> Vec<u8>
    requires { 0 < max }
{
    let mut disk = open_disk(rt, rt.alloc(), "out/pieces", 0, true);
    let mut into = Vec::new(rt.alloc());
    read_on(&mut disk, max, &mut into);
    into
}

#[test]
fn reads_go_on_over_the_end_of_a_piece(rt: HostRuntime) -> io::Result<()> {
    let text = "0123456789abc".repeat(rt.alloc(), 5400)?;
    fs::create_dir_all(&rt, "out/pieces")?;
    fs::write(&rt, "out/pieces/peer0.side1", text.as_str())?;
    assert!(rt; whole_side(&rt, 3000).as_slice() == text.as_bytes());
    assert!(rt; whole_side(&rt, 60_000).as_slice() == text.as_bytes());
    fs::remove_dir_all(&rt, "out/pieces")
}

// Appends what a disk gives at first, and after each change.
fn read_over<D: Disk>(disk: &mut D, into: &mut Vec<u8>) {
    let mut watch = Watch::new();
    let _ = disk.write_at(&mut watch, Side::One, 0, b"abcdef");
    let _ = disk.read(Side::One, 0, 2, into);
    let _ = disk.write_at(&mut watch, Side::One, 0, b"xy");
    let _ = disk.read(Side::One, 0, 9, into);
    let _ = disk.cut(&mut watch, Side::One, 0);
    let _ = disk.read(Side::One, 0, 9, into);
}

fn all_read(rt: &HostRuntime) -> Vec<u8> {
    let mut disk = open_disk(rt, rt.alloc(), "out/over", 0, true);
    let mut into = Vec::new(rt.alloc());
    read_over(&mut disk, &mut into);
    into
}

#[test]
fn a_read_sees_what_was_written_and_cut(rt: HostRuntime) -> io::Result<()> {
    fs::create_dir_all(&rt, "out/over")?;
    assert!(rt; all_read(&rt).as_slice() == b"abxycdef".as_slice());
    fs::remove_dir_all(&rt, "out/over")
}

// Whether another disk has the files, and a call of this one fails.
fn is_taken(rt: &HostRuntime) -> bool {
    let mut disk = open_disk(rt, rt.alloc(), "out/taken", 0, true);
    disk.is_taken && disk.len(Side::Zero) == Err(PortFault::Failed)
}

// The same beside a disk, and when it is gone.
fn taken(rt: &HostRuntime) -> (bool, bool) {
    let first = open_disk(rt, rt.alloc(), "out/taken", 0, true);
    let beside = is_taken(rt);
    drop(first);
    (beside, is_taken(rt))
}

#[test]
fn one_disk_at_a_time_has_the_files(rt: HostRuntime) -> io::Result<()> {
    fs::create_dir_all(&rt, "out/taken")?;
    assert!(rt; taken(&rt) == (true, false));
    fs::remove_dir_all(&rt, "out/taken")
}

// A disk whose files fail so at their first calls.
fn faulty_disk(left: u64, kind: ErrorKind) -> FileDisk<Faulty> {
    let zero = Faulty::new(left, kind);
    let one = Faulty::new(left, kind);
    FileDisk::new(Some((zero, one)))
}

// What a read of so many bytes answers then.
fn read(alloc: Global, max: usize, left: u64, kind: ErrorKind) -> Result<usize, PortFault>
    requires { 0 < max }
{
    let mut disk = faulty_disk(left, kind);
    let mut into = Vec::new(alloc);
    disk.read(Side::One, 0, max, &mut into)
}

fn write(left: u64, kind: ErrorKind) -> Result<(), PortFault> {
    let mut disk = faulty_disk(left, kind);
    let mut watch = Watch::new();
    disk.write_at(&mut watch, Side::One, 0, b"abcdef")
}

// What a cut and a sync answer, where all calls fail.
fn changes() -> (Result<(), PortFault>, Result<(), PortFault>) {
    let mut disk = faulty_disk(u64::MAX, ErrorKind::Other);
    let mut watch = Watch::new();
    let cut = disk.cut(&mut watch, Side::One, 0);
    let synced = disk.sync(&mut watch, Side::One);
    (cut, synced)
}

#[test]
fn each_call_on_a_file_that_fails_fails(rt: HostRuntime) {
    assert!(rt; read(rt.alloc(), 9, 1, ErrorKind::Other) == Err(PortFault::Failed));
    assert!(rt; read(rt.alloc(), 5000, 1, ErrorKind::Other) == Err(PortFault::Failed));
    assert!(rt; write(1, ErrorKind::Other) == Err(PortFault::Failed));
    assert!(rt; changes() == (Err(PortFault::Failed), Err(PortFault::Failed)));
}

#[test]
fn an_interrupted_call_on_a_file_is_tried_again(rt: HostRuntime) {
    assert!(rt; read(rt.alloc(), 9, 2, ErrorKind::Interrupted) == Ok(2));
    assert!(rt; write(2, ErrorKind::Interrupted) == Ok(()));
}

/// Two lines that were begun, and what became of a peer between.
const COURSE: &[CourseItem] = &[
    CourseItem::Begun { line: 2, moment: 1 },
    CourseItem::Good { peer: 3, moment: 1 },
    CourseItem::Begun { line: 3, moment: 2 },
    CourseItem::Begun { line: 5, moment: 2 },
];

#[test]
fn the_first_line_without_an_answer_is_told(rt: HostRuntime) {
    assert!(rt; without_answer(COURSE, &[2, 3, 5]) == None);
    assert!(rt; without_answer(COURSE, &[2]) == Some(Unanswered { line: 3, more: 1 }));
}

#[test]
fn what_making_a_log_leaves_is_not_foreign(rt: HostRuntime) {
    assert!(rt; is_foreign(b"x", b""));
    assert!(rt; !is_foreign(b"", b""));
    assert!(rt; !is_foreign(b"\0HS", b""));
    assert!(rt; is_foreign(b"\xa5HSL1", b""));
    assert!(rt; !is_foreign(b"\xa5HSL1 and the rest", b""));
    assert!(rt; !is_foreign(b"x", b"\xa5HSL1 and the rest"));
}
