//! The book behind its one lock.
use crate::WorkFault;
use std::sync::{Condvar, Mutex, Wait};

/// What lies under the lock.
#[derive(Drop)]
pub(crate) struct Inside<B> {
    pub(crate) book: B,
    /// How many of those who ask have not returned.
    pub(crate) askers: u32,
    /// Whether one stopped with a fault of its own, which the book does not have: then nobody waits any more.
    pub(crate) stopped: bool,
}

/// A book behind one lock, which writers, the deleter and the workers of peers share. Of what lies under the
/// lock a contract knows what the book's type tells, and nothing else.
#[derive(Drop)]
pub struct Shared<B> {
    pub(crate) inside: Mutex<Inside<B>>,
    /// Told of whenever the book may have gone on.
    pub(crate) moved: Condvar,
}

impl<B> Shared<B> {
    /// A book that so many share who ask: writers and the deleter. It takes no memory.
    pub fn new(book: B, askers: u32) -> Shared<B> {
        Shared {
            inside: Mutex::new(Inside {
                book,
                askers,
                stopped: false,
            }),
            moved: Condvar::new(),
        }
    }

    /// One who asked returns, and whether with a fault of its own.
    pub(crate) fn leave<H: Wait>(&self, rt: &H, stops: bool) {
        let mut inside = self.inside.lock(rt);
        inside.askers = inside.askers.saturating_sub(1);
        inside.stopped = inside.stopped || stops;
        self.moved.notify_all();
    }

    /// A worker returns with a fault of its own.
    pub(crate) fn stop<H: Wait>(&self, rt: &H) {
        let mut inside = self.inside.lock(rt);
        inside.stopped = true;
        self.moved.notify_all();
    }
}

impl<B: Drop> Shared<B> {
    /// The book, once nobody shares it any more. It takes no memory.
    pub fn into_book(self) -> B {
        let Shared { inside, moved: _ } = self;
        let Inside {
            book,
            askers: _,
            stopped: _,
        } = inside.into_inner();
        book
    }
}

/// Whether one stopped with a fault that the book does not have.
pub(crate) fn is_own_fault<T>(ended: &Result<T, WorkFault>) -> bool {
    matches!(ended, Err(WorkFault::Torn { .. } | WorkFault::NoMemory))
}
