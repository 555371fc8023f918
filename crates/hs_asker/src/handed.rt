//! With what an asker began.
use std::marker::Brand;

/// What an asker was handed: what its store is set up with (naming, limits, shape), and the moment and
/// the disks at entry. Each call of a program picks its own, by `Brand`.
pub trait Handed {
    ghost use Rattle.hs_asker.specs.Going.{AtEntry};

    ghost entry: { AtEntry };
}

impl Handed for Brand {
    ghost use Rattle.hs_asker.specs.Nothing.{nothing};

    ghost entry = { nothing };
}
