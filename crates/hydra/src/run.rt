//! A run of the program: its words, its input and output, and how it ended.
ghost use Rattle.std.specs.Prelude.{◌≡◌, ◌≢◌, None, OnOk, map, string_bytes};
ghost use Rattle.std.specs.Io.KnownBytes.{Appends};
ghost use Rattle.std.specs.List.{list_any};
ghost use Rattle.hs_ports.specs.Objects.{handed};
ghost use Rattle.hs_promise.specs.Run.{ran_of};
ghost use Rattle.hs_top.specs.Calls.{IsCalled};
ghost use Rattle.hs_top.specs.Status.{fault_text};
ghost use Rattle.hs_top.specs.Words.{shape_in};
ghost use Rattle.hydra.specs.CommandLine.{IsFaulty};
ghost use Rattle.hydra.specs.Taken.{taken_text};

use crate::command_line::{Request, request_of, words_of};
use crate::file_disk::FileDisk;
use crate::found_files::{tell_folder, tell_foreign, tell_made, tell_same};
use crate::help::{HELP, VERSION};
use crate::lost_disks::{tell_no_logs, tell_store};
use crate::notes::{note_of, tell_file};
use crate::stores::{
    dir_of, disks_of, first_count, is_any_taken, made_dir_of, makes_files, second_dir_of,
    writes_files,
};
use crate::streams::{ReaderSource, WriterSink};
use crate::unanswered::tell_unanswered;
use crate::usage::{is_later, tell_usage};
use hs_block::{Addresser, ShaNames};
use hs_limits::Shape;
use hs_mistakes::{BadCause, first_cause, tell_cause, tell_word, wrong_word};
use hs_ports::{Disk, Sink, Source, Watch};
use hs_promise::{Outcome, Status};
use hs_top::{fault_line, hydra, hydra_alone, is_load, second_shape, shape_of};
use std::alloc::{AllocError, Global};
use std::fs::File;
use std::io::{ErrorKind, Read, Write};
use std::rt::{Env, Files};
use std::sync::Wait;
use std::thread::Threads;
use std::{fs, io};

/// Does what the words of the command line ask for, and says how it ended. Words that aren't text
/// are a faulty command line. Where another run has the folder, `errors` gets the line of that.
pub fn run<R, I, O, E>(rt: &R, input: I, output: O, errors: &mut E) -> Status
where
    R: Env + Files<File = File> + AllocGlobal + Threads + Wait + Sync,
    I: Read + Drop,
    O: Write + Drop,
    E: Write,
{
    match words_of(rt) {
        Ok(words) => answer(rt, &words, input, output, errors),
        Err(error) if error.kind() == ErrorKind::InvalidData => {
            let _ = errors.write_all(b"hydra: a word is not text\n");
            let _ = tell_usage(errors, &[]);
            Status::Usage
        }
        Err(_) => Status::NoMemory,
    }
}

// Prints the text that these words ask for, or runs the store.
fn answer<R, I, O, E>(rt: &R, words: &[String], input: I, mut output: O, errors: &mut E) -> Status
where
    R: Files<File = File> + AllocGlobal + Threads + Wait + Sync,
    I: Read + Drop,
    O: Write + Drop,
    E: Write,
    ensures usage { IsFaulty (map (λ word. string_bytes word) words.now)
        → result ≢ Status.NoMemory → result ≡ Status.Usage }
    ensures only_usage { result ≡ Status.Usage
        → IsFaulty (map (λ word. string_bytes word) words.now) }
{
    match request_of(words) {
        Request::Help => print(rt.alloc(), &mut output, errors, HELP),
        Request::Version => print(rt.alloc(), &mut output, errors, VERSION),
        Request::Run => serve(rt, words, input, output, errors),
    }
}

// Writes a text whole.
fn print<O: Write, E: Write>(alloc: Global, output: &mut O, errors: &mut E, text: &str) -> Status
    ensures done { result ≡ Status.Done
        → Appends (O.contents output.old) (O.contents output.new) text.now }
    ensures only { result ≢ Status.Done → result ≡ Status.WriteFault }
{
    match output.write_all(text.as_bytes()) {
        Ok(()) => Status::Done,
        Err(reason) => {
            let _ = tell_stream(alloc, errors, "output can't be written", Some(reason));
            Status::WriteFault
        }
    }
}

// Makes the ports, and runs the store.
fn serve<R, I, O, E>(rt: &R, words: &[String], input: I, output: O, errors: &mut E) -> Status
where
    R: Files<File = File> + AllocGlobal + Threads + Wait + Sync,
    I: Read + Drop,
    O: Write + Drop,
    E: Write,
    ensures usage { shape_in (map (λ word. string_bytes word) words.now) ≡ None
        → result ≢ Status.NoMemory → result ≡ Status.Usage }
    ensures only_usage { result ≡ Status.Usage
        → shape_in (map (λ word. string_bytes word) words.now) ≡ None }
{
    let alloc = rt.alloc();
    let Ok(mut source) = ReaderSource::new(alloc, input) else {
        return Status::NoMemory;
    };
    let lacked = lacks_folder(rt, words);
    let Ok(mut disks) = disks_of(rt, alloc, words) else {
        return Status::NoMemory;
    };
    let _ = tell_words(alloc, errors, words);
    let _ = tell_taken(errors, &disks);
    let is_made = lacked && !lacks_folder(rt, words);
    let _ = tell_before(alloc, errors, words, &disks, is_made);
    let mut sink = WriterSink::new(output);
    let mut watch = Watch::new();
    let outcome = do_words(
        alloc,
        rt,
        words,
        &ShaNames,
        &mut source,
        &mut sink,
        &mut disks,
        &mut watch,
    );
    let _ = tell_behind(alloc, errors, words, &mut disks, &mut watch, &outcome);
    let _ = tell_stream(alloc, errors, "input can't be read", source.reason);
    let _ = tell_stream(alloc, errors, "output can't be written", sink.reason);
    let _ = tell_cause(errors, cause_of_end(&outcome.status, &source));
    outcome.status
}

// Whether the words ask for a folder to be made, and there is none.
fn lacks_folder<R: Files<File = File>>(rt: &R, words: &[String]) -> bool {
    let is_there = match fs::exists(rt, made_dir_of(words)) {
        Ok(is_there) => is_there,
        Err(_) => true,
    };
    let makes = makes_files(words) || second_shape(words).is_some();
    !is_there && makes && shape_of(words).is_some()
}

// Tells of words that are outside the language: which one is wrong, and where all are told.
fn tell_words<E: Write>(alloc: Global, errors: &mut E, words: &[String]) -> io::Result<()> {
    if shape_of(words).is_none() && !is_later(words) {
        if let Some((fault, word)) = wrong_word(words) {
            tell_word(alloc, errors, fault, word)?;
        }
    }
    tell_usage(errors, words)
}

// Tells of the folder and its files what is to be known before a run writes there.
fn tell_before<E: Write>(
    alloc: Global,
    errors: &mut E,
    words: &[String],
    disks: &[FileDisk<File>],
    is_made: bool,
) -> io::Result<()> {
    let dir = dir_of(words);
    if is_made {
        tell_folder(alloc, errors, made_dir_of(words))?;
    }
    if second_shape(words).is_some() && second_dir_of(words) == dir {
        tell_same(alloc, errors, dir)?;
    }
    let (first, second) = disks.split_at(first_count(words, disks.len()));
    tell_found(alloc, errors, words, dir, first)?;
    tell_found(alloc, errors, words, second_dir_of(words), second)
}

// Tells of the files of a store what is to be known before a run writes there.
fn tell_found<E: Write>(
    alloc: Global,
    errors: &mut E,
    words: &[String],
    dir: &str,
    disks: &[FileDisk<File>],
) -> io::Result<()> {
    tell_made(alloc, errors, dir, disks)?;
    if writes_files(words) {
        tell_foreign(alloc, errors, dir, disks)?;
    }
    Ok(())
}

// Tells of a run that has ended what its status leaves open.
fn tell_behind<E: Write>(
    alloc: Global,
    errors: &mut E,
    words: &[String],
    disks: &mut [FileDisk<File>],
    watch: &mut Watch,
    outcome: &Outcome,
) -> io::Result<()> {
    let (first, second) = disks.split_at_mut(first_count(words, disks.len()));
    if let Some(shape) = shape_of(words) {
        tell_disks(alloc, errors, dir_of(words), shape, first, watch, outcome)?;
    }
    if let Some(shape) = second_shape(words) {
        tell_disks(
            alloc,
            errors,
            second_dir_of(words),
            shape,
            second,
            watch,
            outcome,
        )?;
    }
    tell_store(alloc, errors, &outcome.status)?;
    if second_shape(words).is_some() {
        return Ok(());
    }
    tell_unanswered(alloc, errors, outcome)
}

// Tells of the disks of a store which file failed, and which are no log.
fn tell_disks<E: Write>(
    alloc: Global,
    errors: &mut E,
    dir: &str,
    shape: Shape,
    disks: &mut [FileDisk<File>],
    watch: &mut Watch,
    outcome: &Outcome,
) -> io::Result<()> {
    if let Ok(note) = note_of(alloc, disks) {
        tell_file(alloc, errors, dir, &note)?;
    }
    tell_no_logs(alloc, errors, dir, shape, disks, watch, outcome)
}

// Tells why a stream failed, where it did.
fn tell_stream<E: Write>(
    alloc: Global,
    errors: &mut E,
    what: &str,
    reason: Option<io::Error>,
) -> io::Result<()> {
    let Some(reason) = reason else {
        return Ok(());
    };
    let mut line = Vec::new(alloc);
    write!(line, "hydra: standard {what}: {reason}\n")?;
    errors.write_all(&line)
}

// Does what the words ask for: a load by threads, and every other command without, so that it returns.
fn do_words<
    H: Threads + Wait + Sync,
    A: Addresser + Sync,
    S: Source,
    K: Sink,
    D: Disk + Drop + Send,
>(
    alloc: Global,
    rt: &H,
    words: &[String],
    naming: &A,
    source: &mut S,
    sink: &mut K,
    disks: &mut Vec<D>,
    watch: &mut Watch,
) -> Outcome
    ensures called { IsCalled D.tells (A.name naming.now) (map (λ word. string_bytes word) words.now)
        (ran_of result
        (handed watch.old (map (λ disk. (D.stands disk, D.faults disk)) disks.old.items)
        (K.got sink.old, K.faults sink.old) (S.left source.old, S.faults source.old))
        (handed watch.new (map (λ disk. (D.stands disk, D.faults disk)) disks.new.items)
        (K.got sink.new, K.faults sink.new) (S.left source.new, S.faults source.new))) }
{
    if is_load(words) {
        hydra(alloc, rt, words, naming, source, sink, disks, watch)
    } else {
        hydra_alone(alloc, words, naming, source, sink, disks, watch)
    }
}

// What is wrong with the line at which the script ended, where it ended at a bad one.
fn cause_of_end<I: Read + Drop>(status: &Status, source: &ReaderSource<I>) -> Option<BadCause> {
    match status {
        Status::BadLine { .. } => match source.last_bytes() {
            Ok((bytes, is_cut)) => first_cause(&bytes, is_cut),
            Err(_) => None,
        },
        _ => None,
    }
}

/// Writes the line that another run has the folder, where it has.
pub fn tell_taken<E: Write>(errors: &mut E, disks: &[FileDisk<File>]) -> io::Result<()>
    ensures ok { OnOk result (Appends (E.contents errors.old) (E.contents errors.new)
        (taken_text (list_any (λ disk. disk.is_taken) disks.now))) }
{
    if is_any_taken(disks) {
        errors.write_all(b"hydra: another run has the folder\n")
    } else {
        errors.write_all(b"")
    }
}

/// Writes the line of a status, and nothing for `Done`. Without memory for it, it writes that
/// there was none.
pub fn report<E: Write>(alloc: Global, errors: &mut E, status: &Status) -> io::Result<()>
    ensures ok { OnOk result (Appends (E.contents errors.old) (E.contents errors.new)
        (fault_text status.now)) }
{
    let mut line = Vec::new(alloc);
    if fault_line(status, &mut line).is_err() {
        errors.write_all(b"hydra: out of memory\n")?;
        return Err(ErrorKind::OutOfMemory.into());
    }
    errors.write_all(&line)
}
