//! What a session asks with.
ghost use Rattle.std.specs.Prelude.{◌≡◌, None, []};

use hs_desk::{Pass, Token};
use hs_limits::Name;
use std::alloc::Global;
use std::marker::Model;

/// What a session asks with: its token, which the calls of a book alone change.
#[derive(Debug, Drop)]
pub struct BookPass {
    pub(crate) token: Token,
}

impl Model for BookPass {
    ghost use Rattle.hs_desk.specs.declared.token.Token.{Token};

    ghost Value = { Token };

    ghost view = { λ p. p.token };
}

impl BookPass {
    /// The pass of a session that has begun nothing yet. It takes no memory.
    pub fn new(alloc: Global, session: Name) -> BookPass
        ensures { result ≡ record {
          session = session;
          number = 0;
          asked = None;
          held = [];
          kept = [];
          fault = None;
        } }
    {
        BookPass {
            token: Token::new(alloc, session),
        }
    }

    /// The token. It takes no memory.
    pub fn into_token(self) -> Token
        ensures { result ≡ self }
    {
        let BookPass { token } = self;
        token
    }
}

impl Pass for BookPass {
    ghost noted = { λ p. p };

    fn token(&self) -> &Token {
        &self.token
    }
}
