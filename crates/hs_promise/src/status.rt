//! How a run ended.
use crate::Told;
use hs_limits::{Address, Name};
use hs_model::Reply;
use hs_side::Header;

/// How a run ended. docs/STORE.md says when each comes.
#[derive(Debug, Drop)]
pub enum Status {
    /// The input was read to its end.
    Done,
    /// The words are outside the command language, or the number of disks is not that of the shape.
    Usage,
    /// The first line outside the script language.
    BadLine {
        line: u64,
    },
    /// A shard has no good peer any more.
    ShardLost {
        shard: u8,
    },
    /// The source failed.
    ReadFault,
    /// The sink failed.
    WriteFault,
    /// There was no memory.
    NoMemory,
    /// The disk of a peer is of a store of another shape, or of another peer.
    WrongShape {
        peer: u8,
        found: Header,
    },
    /// In a load what a session was told at a place of its list is not what the journal has. For a
    /// fault the place is the length of the list. A peer's session is `peer` and its number.
    Mismatch {
        session: Name,
        place: u64,
        told: Box<Told>,
        kept: Box<Told>,
    },
    /// The journal can't take the entries of the next event.
    OpsFull,
    /// In a load the number of an entry at a place of a peer's list is not the one that was reported.
    Torn {
        peer: u8,
        place: u64,
        told: Option<u64>,
        kept: Option<u64>,
    },
    /// The store that a load opened has blocks or retained roots.
    NotEmpty {
        blocks: u64,
        roots: u64,
    },
    /// The input has more bytes than a script may have.
    InputFull,
    /// An operation of a command that runs no script was refused so.
    Refused {
        reply: Reply,
    },
    /// The root that was to be fetched is no stored file; its first address.
    NotATree {
        address: Address,
    },
    /// The peer that lists were to be copied from has no log, or its disk failed.
    NoSource {
        peer: u8,
    },
    /// The root that was to be copied reaches more than so many blocks.
    CopyFull {
        blocks: u64,
    },
}
