//! Where the worker of a peer sits.
ghost use Rattle.std.specs.Prelude.{◌≡◌, None, [], false};

use hs_desk::{Seat, Slip};
use std::alloc::Global;
use std::marker::Model;

/// Where the worker of a peer sits: its slip, which the calls of a book alone change.
#[derive(Debug, Drop)]
pub struct BookSeat {
    pub(crate) slip: Slip,
}

impl Model for BookSeat {
    ghost use Rattle.hs_desk.specs.declared.slip.Slip.{Slip};

    ghost Value = { Slip };

    ghost view = { λ s. s.slip };
}

impl BookSeat {
    /// The seat of a peer to which nothing was handed out yet. It takes no memory.
    pub fn new(alloc: Global, peer: u8) -> BookSeat
        ensures { result ≡ record {
          peer = peer;
          work = None;
          stored = [];
          shown = [];
          idle = false;
          fault = None;
        } }
    {
        BookSeat {
            slip: Slip::new(alloc, peer),
        }
    }

    /// The slip. It takes no memory.
    pub fn into_slip(self) -> Slip
        ensures { result ≡ self }
    {
        let BookSeat { slip } = self;
        slip
    }
}

impl Seat for BookSeat {
    ghost noted = { λ s. s };

    fn slip(&self) -> &Slip {
        &self.slip
    }
}
