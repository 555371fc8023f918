//! Where a Got stands.

/// The greatest number of a round.
pub const LAST_ROUND: u32 = 4_294_967_294;

/// Which round of which sender a Got is.
#[derive(Clone, Copy, Debug, PartialEq, Eq, PartialOrd, Ord)]
pub struct Place {
    pub epoch: u64,
    pub round: u32,
    pub from: u8,
}
