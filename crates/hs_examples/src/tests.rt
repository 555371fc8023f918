//! The calls of the top at concrete types, where no case makes them.
use hs_block::ShaNames;
use hs_limits::{Address, Key, ListOf, Name};
use hs_model::Reply;
use hs_ports::{ListSink, ListSource, MemoryDisk, Watch};
use hs_promise::{Status, Told};
use hs_top::{exit_code, fault_line, hydra, shape_of};
use std::alloc::{AllocError, Global};
use std::test::Fail;

/// The words of a command line.
pub(crate) fn words_of(alloc: Global, text: &str) -> Result<Vec<String>, AllocError> {
    let mut words = Vec::new(alloc);
    for word in text.split(' ') {
        words.push(String::from_str(alloc, word)?)?;
    }
    Ok(words)
}

#[test]
fn the_whole_program_runs_a_script(rt: HostRuntime) -> Result<(), Fail> {
    let alloc = rt.alloc();
    for (text, fits, code, put) in [
        ("script d 1 1", true, 0, b"1 ok\n".as_slice()),
        ("load d 1 1", false, 2, b"".as_slice()),
        ("copy d 1 1 k e 1 1", true, 2, b"".as_slice()),
    ] {
        let words = words_of(alloc, text)?;
        assert_eq!(rt; shape_of(&words).is_some(), fits, "{text}");
        let script = Vec::from_slice(alloc, b"open a\n")?;
        let mut source = ListSource::new(alloc, script, Vec::new(alloc));
        let mut sink = ListSink::new(alloc, Vec::new(alloc));
        let blank = MemoryDisk::new(alloc, Vec::new(alloc), Vec::new(alloc), Vec::new(alloc));
        let mut disks = vec![in alloc; blank]?;
        let outcome = hydra(
            alloc,
            &rt,
            &words,
            &ShaNames,
            &mut source,
            &mut sink,
            &mut disks,
            &mut Watch::new(),
        );
        assert_eq!(rt; exit_code(&outcome.status), code, "{text}");
        assert_eq!(rt; sink.bytes(), put, "{text}");
    }
    Ok(())
}

#[test]
fn statuses_that_no_case_reaches_have_their_code_and_their_line(
    rt: HostRuntime,
) -> Result<(), Fail> {
    let key = Key::from_list(ListOf::from_vec(Vec::from_slice(rt.alloc(), b"z")?)).unwrap();
    let session = Name::from_list(ListOf::from_vec(Vec::from_slice(rt.alloc(), b"w0")?)).unwrap();
    let address = Address([0; 32]);
    for (status, code, text) in [
        (Status::NoMemory, 7, "hydra: out of memory\n"),
        (
            Status::Mismatch {
                session,
                place: 0,
                told: Box::new(rt.alloc(), Told::Absent)?,
                kept: Box::new(rt.alloc(), Told::Absent)?,
            },
            9,
            "hydra: a writer's answer differs from the journal\n",
        ),
        (
            Status::Torn {
                peer: 0,
                place: 0,
                told: None,
                kept: Some(1),
            },
            11,
            "hydra: a worker's entries differ from the book\n",
        ),
        (
            Status::NotEmpty {
                blocks: 1,
                roots: 0,
            },
            12,
            "hydra: the store is not empty\n",
        ),
        (Status::InputFull, 13, "hydra: the input is too long\n"),
        (
            Status::Refused {
                reply: Reply::NoKey { key },
            },
            14,
            "hydra: refused: no key z\n",
        ),
        (
            Status::NotATree { address },
            15,
            "hydra: the root is not a stored file\n",
        ),
        (
            Status::NoSource { peer: 3 },
            16,
            "hydra: peer 3 has no log to copy from\n",
        ),
        (
            Status::CopyFull { blocks: 4000 },
            17,
            "hydra: the root reaches more than 4000 blocks\n",
        ),
    ] {
        let mut out = Vec::new(rt.alloc());
        fault_line(&status, &mut out)?;
        assert_eq!(rt; out.as_slice(), text.as_bytes());
        assert_eq!(rt; exit_code(&status), code);
    }
    Ok(())
}
