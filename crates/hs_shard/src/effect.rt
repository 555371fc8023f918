//! What an entry did, and what is told of a block.
use hs_desk::What;
use hs_limits::{Address, ListOf};
use hs_rounds::RoundBody;

/// A round for one shard: to which it goes, the epoch and number of the round, and what it tells.
#[derive(Debug, Drop)]
pub struct Sent {
    pub to: u8,
    pub epoch: u64,
    pub round: u32,
    pub body: RoundBody,
}

/// What an entry did, which rounds are to be sent, and how many blocks were removed where a round
/// that it completed was the last one of a run.
#[derive(Debug, Drop)]
pub struct Effect {
    pub what: What,
    pub sends: ListOf<Sent>,
    pub removed: Option<u32>,
}

/// What is known of a present block: its address, the number of the entry that stored it, the epoch
/// in which it was stored and the one in which a write gave it last, whether it counts, whether it is
/// a zero block, and how often it is pointed to.
#[derive(Clone, Copy, Debug, PartialEq, Eq)]
pub struct BlockFacts {
    pub address: Address,
    pub number: u64,
    pub born: u64,
    pub mark: u64,
    pub counted: bool,
    pub zero: bool,
    pub count: u32,
}
