//! What the handles of a session stand for, as they are given.
use hs_desk::CoreFault;
use hs_limits::{Address, Held, Limits, Name};
use hs_model::{ModelFault, Op, Reply};
use hs_plain::MemoryStore;
use std::alloc::Global;
use std::collections::BTreeMap;

/// The address of each handle that was given.
pub(crate) type Given = BTreeMap<u32, Address>;

/// Notes what a handle stands for.
fn note(
    alloc: Global,
    store: &mut MemoryStore,
    session: &Name,
    handle: u32,
    given: &mut Given,
) -> Result<(), ModelFault> {
    let session = session.copy(alloc)?;
    let answer = store.judge(Limits::greatest(), Op::Name { session, handle })?;
    if let Reply::Name { address } = answer.reply {
        match given.insert(handle, address) {
            Ok(_) => {}
            Err(_) => return Err(ModelFault::NoMemory),
        }
    }
    Ok(())
}

/// Notes what the handles of a reply stand for.
fn note_all(
    alloc: Global,
    store: &mut MemoryStore,
    session: &Name,
    told: &Reply,
    given: &mut Given,
) -> Result<(), ModelFault> {
    match told {
        Reply::New { handle, .. } | Reply::Dup { handle, .. } | Reply::Held { handle, .. } => {
            note(alloc, store, session, *handle, given)
        }
        Reply::Bytes { handles, .. } => {
            for handle in handles.as_slice() {
                note(alloc, store, session, *handle, given)?;
            }
            Ok(())
        }
        _ => Ok(()),
    }
}

/// Notes what the handles of an answer stand for, if there is one. Where memory runs out nothing is known of any.
pub(crate) fn note_answer(
    alloc: Global,
    store: &mut MemoryStore,
    session: &Name,
    answer: &Result<Reply, CoreFault>,
    given: &mut Given,
) {
    if let Ok(told) = answer {
        if note_all(alloc, store, session, told, given).is_err() {
            given.clear();
        }
    }
}

/// What a handle stands for.
pub(crate) fn held_by(given: &Given, handle: u32) -> Option<Held> {
    let address = given.get(&handle).copied()?;
    Some(Held { address, epoch: 1 })
}
