//! The book.
ghost use Rattle.std.specs.Prelude.{◌≡◌, [], None, false, IfOk, IsOkUnless, replicate, slice_index_or};
ghost use Rattle.hs_book.specs.Book.{count_of_peers};
ghost use Rattle.hs_book.specs.Calls.{is_out_of_memory};
ghost use Rattle.hs_book.specs.History.{IsBook, NobodyJoins};
ghost use Rattle.hs_desk.specs.declared.fault.CoreFault.TheVariants.{NoMemory};

use crate::keeper::Keeper;
use hs_core::Core;
use hs_desk::CoreFault;
use std::alloc::Global;
use std::marker::{Brand, Model, PhantomData};

/// With which core a book was opened. Each call of a program picks its own, by `Brand`.
pub trait Opening {
    ghost use Rattle.hs_core_words.specs.State.{Core};

    ghost start: { Core };
}

impl Opening for Brand {
    ghost use Rattle.hs_book.specs.History.{no_core};

    ghost start = { no_core };
}

/// The core behind a lock: `next` and `report` of the desk, `begin` and `answer` of the clerk are all
/// that changes it. Its type keeps how it came to be as it is from the core with which it was opened.
#[derive(Drop)]
pub struct Book<O: Opening> {
    pub(crate) keeper: Keeper,
    of: PhantomData<O>,
}

impl<O: Opening> Model for Book<O> {
    ghost use Rattle.hs_book.specs.Book.{Book};
    ghost use Rattle.hs_book.specs.History.{IsBook};

    ghost Value = { Book };

    ghost view = { λ b. b.keeper };

    ghost invariant = { λ b. IsBook O.start b.keeper };
}

impl<O: Opening> Book<O> {
    /// Opens a book of a core that goes on, of which no peer is joining. The only fault is NoMemory.
    pub fn open(alloc: Global, core: Core) -> Result<Book<O>, CoreFault>
        requires start { core ≡ O.start }
        requires going { core.ended ≡ None }
        requires calm { NobodyJoins core }
        ensures ok { IfOk result (λ book. book ≡ record {
          core = core;
          reported = replicate (count_of_peers core) [];
          ended = None;
        }) }
        ensures only { IsOkUnless result NoMemory }
    {
        let keeper = Keeper::new(alloc, core)?;
        Ok(Book {
            keeper,
            of: PhantomData,
        })
    }

    /// The core, which the events of the book have led to, unless memory ran out. It takes no memory.
    #[tactic(auto, using(crate::proofs::CalmLemmas::still_calm))]
    pub fn into_core(self) -> Core
        ensures core { result ≡ self.core }
        ensures book { IsBook O.start self }
        ensures calm { is_out_of_memory self.ended ≡ false → NobodyJoins result }
    {
        let Book { keeper, of: _ } = self;
        keeper.into_core()
    }

    /// The numbers of the entries that a peer reported as sealed since the book was opened, in order,
    /// and a last 0 where its disk failed; none where there is no such peer. It takes no memory.
    pub fn reported(&self, peer: u8) -> &[u64]
        ensures { result.now ≡ slice_index_or self.now.reported peer [] }
    {
        self.keeper.reported(peer)
    }

    /// Why the book has ended. None exactly until a fault has ended it. It takes no memory.
    pub fn ended(&self) -> Option<CoreFault>
        ensures { result ≡ self.now.ended }
    {
        self.keeper.ended()
    }
}
