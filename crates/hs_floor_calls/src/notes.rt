//! What slips and tokens note, with ample memory.
use hs_desk::{CoreFault, Done, Job, Next, Slip, Token};
use hs_limits::{ListOf, Name};
use hs_model::{Asked, Reply};
use std::alloc::Global;
use std::test::Fail;

/// How many numbers a slip has after an entry was sealed.
fn sealed(alloc: Global) -> Result<usize, CoreFault> {
    let mut slip = Slip::new(alloc, 1);
    slip.reserve()?;
    slip.hand(&Ok(Next::Do(Job::Seal { number: 7 })));
    slip.take_report(Done::Sealed { number: 7 }, Ok(()))?;
    Ok(slip.stored.as_slice().len())
}

/// How many handles a client holds, and how many answers it has kept, after one operation.
fn answered(alloc: Global, session: Name) -> Result<(usize, usize), CoreFault> {
    let mut token = Token::new(alloc, session);
    token.begin(Asked::Stat, Ok(1));
    token.answer(alloc, 0, &Reply::Ok)?;
    Ok((token.held.as_slice().len(), token.kept.as_slice().len()))
}

#[test]
fn a_sealed_entry_is_noted(rt: HostRuntime) -> Result<(), Fail> {
    assert_eq!(rt; sealed(rt.alloc())?, 1);
    Ok(())
}

#[test]
fn an_answer_is_noted(rt: HostRuntime) -> Result<(), Fail> {
    let bytes = ListOf::from_vec(Vec::from_slice(rt.alloc(), b"w0")?);
    let session = Name::from_list(bytes).unwrap();
    assert_eq!(rt; answered(rt.alloc(), session)?, (0, 1));
    Ok(())
}
