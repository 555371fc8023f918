//! Where a worker of the book sits, and what one asks it with.
ghost use Rattle.std.specs.Prelude.{◌≡◌, None};

use hs_desk::{Pass, Seat, Slip, Token};
use hs_limits::Name;
use std::alloc::Global;

/// The seat of a peer.
#[derive(Debug, Drop)]
pub(crate) struct BookSeat {
    pub(crate) slip: Slip,
}

impl BookSeat {
    /// The seat of a peer to which nothing was handed out yet.
    pub(crate) fn new(alloc: Global, peer: u8) -> BookSeat
        ensures fault { result.slip.fault ≡ None }
        ensures work { result.slip.work ≡ None }
    {
        BookSeat {
            slip: Slip::new(alloc, peer),
        }
    }
}

impl Seat for BookSeat {
    ghost noted = { λ seat. seat.slip };

    fn slip(&self) -> &Slip {
        &self.slip
    }
}

/// The pass of a session.
#[derive(Debug, Drop)]
pub(crate) struct BookPass {
    pub(crate) token: Token,
}

impl BookPass {
    /// The pass of a session that has begun nothing yet.
    pub(crate) fn new(alloc: Global, session: Name) -> BookPass
        ensures fault { result.token.fault ≡ None }
        ensures asked { result.token.asked ≡ None }
        ensures session { result.token.session ≡ session }
    {
        BookPass {
            token: Token::new(alloc, session),
        }
    }
}

impl Pass for BookPass {
    ghost noted = { λ pass. pass.token };

    fn token(&self) -> &Token {
        &self.token
    }
}
