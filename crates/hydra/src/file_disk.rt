//! A pair of files as a disk.
ghost use Rattle.std.specs.Prelude.{◌≡◌, false, Some, IfNone};
ghost use Rattle.hs_ports.specs.MemoryDisk.{untold, of_side};
ghost use Rattle.hydra.specs.SideFault.{fault_in, is_faulty};

use crate::fault_count::FaultCount;
use crate::file_fault::{Deed, FileFault, SideFault};
use crate::found_files::{HEAD, is_foreign};
use crate::side_file::SideFile;
use hs_ports::{Disk, PortFault, Side, Watch};
use std::alloc::Global;
use std::fs::{File, OpenFile, OpenOptions, TryLockError};
use std::io::{Seek, SeekFrom};
use std::os::fd::AsRawFd;
use std::os::unix::fs::FileExt;
use std::rt::Files;
use std::{fs, io};

/// A disk of two files, or one whose calls all fail. It doesn't tell its contents. It keeps the
/// lengths of the files, which nobody else is to change meanwhile.
#[derive(Drop)]
pub struct FileDisk<F> {
    pub zero: SideFile<F>,
    pub one: SideFile<F>,
    count: FaultCount,
    /// Whether there are no files since another run has them.
    pub is_taken: bool,
    /// Whether side zero was made when it was opened.
    pub is_new: bool,
    /// Whether side zero has bytes that are of no log, and a run makes a log of it.
    pub is_foreign: bool,
}

impl<F: FileExt + OpenFile + Seek + Drop> FileDisk<F> {
    /// The disk of these files; one whose calls all fail where there are none, or where a length
    /// can't be had.
    pub fn new(files: Option<(F, F)>) -> FileDisk<F>
        ensures zero { IfNone files (⟦<FileDisk<F> as Disk>⟧.size result Side.Zero ≡ 0) }
        ensures one { IfNone files (⟦<FileDisk<F> as Disk>⟧.size result Side.One ≡ 0) }
        ensures faults { ⟦<FileDisk<F> as Disk>⟧.faults result ≡ 0 }
        ensures taken { result.is_taken ≡ false }
    {
        let Some((mut zero, mut one)) = files else {
            return FileDisk::absent(false);
        };
        match (zero.seek(SeekFrom::End(0)), one.seek(SeekFrom::End(0))) {
            (Ok(zero_len), Ok(one_len)) => FileDisk {
                zero: SideFile::new(zero, zero_len),
                one: SideFile::new(one, one_len),
                count: FaultCount::new(),
                is_taken: false,
                is_new: false,
                is_foreign: false,
            },
            (Err(reason), _) => FileDisk::failed(Side::Zero, Deed::Open, reason),
            (_, Err(reason)) => FileDisk::failed(Side::One, Deed::Open, reason),
        }
    }

    /// A disk without files, whose calls all fail.
    pub fn absent(is_taken: bool) -> FileDisk<F>
        ensures zero { ⟦<FileDisk<F> as Disk>⟧.size result Side.Zero ≡ 0 }
        ensures one { ⟦<FileDisk<F> as Disk>⟧.size result Side.One ≡ 0 }
        ensures faults { ⟦<FileDisk<F> as Disk>⟧.faults result ≡ 0 }
        ensures taken { result.is_taken ≡ is_taken }
    {
        FileDisk {
            zero: SideFile::absent(None),
            one: SideFile::absent(None),
            count: FaultCount::new(),
            is_taken,
            is_new: false,
            is_foreign: false,
        }
    }

    /// A disk without files, since this failed at the file of a side.
    fn failed(side: Side, deed: Deed, reason: io::Error) -> FileDisk<F>
        ensures zero { ⟦<FileDisk<F> as Disk>⟧.size result Side.Zero ≡ 0 }
        ensures one { ⟦<FileDisk<F> as Disk>⟧.size result Side.One ≡ 0 }
        ensures faults { ⟦<FileDisk<F> as Disk>⟧.faults result ≡ 0 }
        ensures taken { result.is_taken ≡ false }
        ensures fault { fault_in result.zero.fault result.one.fault
            ≡ Some (record { side = side; fault = record { deed = deed; reason = reason } }) }
    {
        let fault = SideFault { deed, reason };
        let (zero, one) = match side {
            Side::Zero => (Some(fault), None),
            Side::One => (None, Some(fault)),
        };
        FileDisk {
            zero: SideFile::absent(zero),
            one: SideFile::absent(one),
            count: FaultCount::new(),
            is_taken: false,
            is_new: false,
            is_foreign: false,
        }
    }

    /// The first of its calls that failed: of side zero, and else of side one.
    pub fn fault(&self) -> Option<FileFault>
        ensures { result ≡ fault_in self.now.zero.fault self.now.one.fault }
    {
        match (self.zero.fault, self.one.fault) {
            (Some(fault), _) => Some(FileFault {
                side: Side::Zero,
                fault,
            }),
            (None, Some(fault)) => Some(FileFault {
                side: Side::One,
                fault,
            }),
            (None, None) => None,
        }
    }

    /// Says that there is no folder, where a file of it was not found.
    pub fn blame_folder(&mut self, made: io::Error)
        ensures zero { self.new.zero.len ≡ self.old.zero.len }
        ensures taken { self.new.is_taken ≡ self.old.is_taken }
        ensures fault { is_faulty self.new.zero.fault self.new.one.fault
            ≡ is_faulty self.old.zero.fault self.old.one.fault }
    {
        if let Some(fault) = self.zero.fault {
            if fault.reason.kind() == io::ErrorKind::NotFound {
                self.zero.fault = Some(SideFault {
                    deed: Deed::Make,
                    reason: made,
                });
            }
        }
    }

    /// How often it has failed; at `u64::MAX` the count stands still.
    pub fn faults(&self) -> u64
        ensures value { result ≡ ⟦<FileDisk<F> as Disk>⟧.faults self.now }
    {
        self.count.faults
    }

    /// Whether one of its files is not empty.
    pub fn has_bytes(&self) -> bool {
        self.zero.len > 0 || self.one.len > 0
    }

    /// The first bytes of both files, as many as a head has at most.
    pub fn fronts(&mut self, alloc: Global) -> (Vec<u8>, Vec<u8>) {
        let mut zero = Vec::new(alloc);
        let mut one = Vec::new(alloc);
        let _ = self.zero.read(0, HEAD, &mut zero);
        let _ = self.one.read(0, HEAD, &mut one);
        (zero, one)
    }
}

/// The disk of a peer: the files `peerP.side0` and `peerP.side1` of a folder, which are made where
/// they are absent, if `makes` says so. A lock on the first keeps other runs out until the disk is dropped. Where one
/// can't be opened, or another run has the lock, it is a disk whose calls all fail.
pub fn open_disk<R: Files<File = File>>(
    rt: &R,
    alloc: Global,
    dir: &str,
    peer: usize,
    makes: bool,
) -> FileDisk<File> {
    // A file that is opened while a standard stream is closed gets that stream's number, and
    // would be read as input or written as output. These take such numbers meanwhile.
    let held = match hold_streams(rt) {
        Ok(held) => held,
        Err(reason) => return FileDisk::failed(Side::Zero, Deed::Open, reason),
    };
    let (zero, is_new) = match open_side(rt, alloc, dir, peer, 0, makes) {
        Ok(opened) => opened,
        Err(reason) => return FileDisk::failed(Side::Zero, Deed::Open, reason),
    };
    // The lock comes before the lengths are read: until then another run may change them.
    match zero.try_lock() {
        Ok(()) => {}
        Err(TryLockError::WouldBlock) => return FileDisk::absent(true),
        Err(TryLockError::Error(reason)) => {
            return FileDisk::failed(Side::Zero, Deed::Lock, reason);
        }
    }
    let one = open_side(rt, alloc, dir, peer, 1, makes);
    drop(held);
    match one {
        Ok((one, _)) => {
            let mut disk = FileDisk::new(Some((zero, one)));
            disk.is_new = is_new;
            let (zero, one) = disk.fronts(alloc);
            disk.is_foreign = is_foreign(&zero, &one);
            disk
        }
        Err(reason) => FileDisk::failed(Side::One, Deed::Open, reason),
    }
}

// The system gives a file the lowest free number: where the first is above 2 no stream is closed. (A
// copy of an open file would get none below 3.)
fn hold_streams<R: Files<File = File>>(rt: &R) -> io::Result<(File, Option<(File, File)>)> {
    let first = fs::open(rt, "/")?;
    if first.as_raw_fd() > 2 {
        return Ok((first, None));
    }
    Ok((first, Some((fs::open(rt, "/")?, fs::open(rt, "/")?))))
}

// The file of a side, and whether it was made.
fn open_side<R: Files<File = File>>(
    rt: &R,
    alloc: Global,
    dir: &str,
    peer: usize,
    side: u8,
    makes: bool,
) -> io::Result<(File, bool)> {
    let path = format!(in alloc; "{dir}/peer{peer}.side{side}")?;
    let mut options = OpenOptions::new();
    options.read(true).write(true);
    match options.open(rt, path.as_str()) {
        Ok(file) => Ok((file, false)),
        Err(reason) if makes && reason.kind() == io::ErrorKind::NotFound => {
            options.create(true);
            Ok((options.open(rt, path.as_str())?, true))
        }
        Err(reason) => Err(reason),
    }
}

impl<F: FileExt + OpenFile> Disk for FileDisk<F> {
    ghost use Rattle.std.proofs.Common.{rules};

    ghost tells = { ⊥ };

    ghost size = { λ disk side. of_side side disk.zero.len disk.one.len };

    ghost stands = { λ disk. untold };

    ghost faults = { λ disk. disk.count.faults };

    ghost fits = { λ disk side. Prim.search rules };

    ghost sized = { λ told disk side. absurd told };

    ghost since = { λ told disk side m later. absurd told };

    ghost stays = { λ told disk side. absurd told };

    fn len(&mut self, side: Side) -> Result<u64, PortFault> {
        let answer = match side {
            Side::Zero => self.zero.length(),
            Side::One => self.one.length(),
        };
        self.count.counted(answer)
    }

    fn read(
        &mut self,
        side: Side,
        at: u64,
        max: usize,
        into: &mut Vec<u8>,
    ) -> Result<usize, PortFault> {
        let answer = match side {
            Side::Zero => self.zero.read(at, max, into),
            Side::One => self.one.read(at, max, into),
        };
        self.count.counted(answer)
    }

    fn write_at(
        &mut self,
        watch: &mut Watch,
        side: Side,
        at: u64,
        bytes: &[u8],
    ) -> Result<(), PortFault> {
        watch.raise();
        let answer = match side {
            Side::Zero => self.zero.write_at(at, bytes),
            Side::One => self.one.write_at(at, bytes),
        };
        self.count.counted(answer)
    }

    fn cut(&mut self, watch: &mut Watch, side: Side, len: u64) -> Result<(), PortFault> {
        watch.raise();
        let answer = match side {
            Side::Zero => self.zero.cut(len),
            Side::One => self.one.cut(len),
        };
        self.count.counted(answer)
    }

    fn sync(&mut self, watch: &mut Watch, side: Side) -> Result<(), PortFault> {
        watch.raise();
        let answer = match side {
            Side::Zero => self.zero.sync(),
            Side::One => self.one.sync(),
        };
        self.count.counted(answer)
    }
}
