//! Those that work beside each other.
use crate::WorkFault;
use hs_peerlog::PeerLog;
use hs_ports::Watch;
use hs_script::WriterSum;

/// The worker of a peer, with its seat, the peer's log and disk and a watch of its own, and how its work ended.
#[derive(Drop)]
pub struct Worker<S, D> {
    pub seat: S,
    pub log: PeerLog,
    pub disk: D,
    pub watch: Watch,
    pub ended: Result<(), WorkFault>,
}

/// The writer of a number, with its pass, and what it did or how its work ended.
#[derive(Drop)]
pub struct Writer<P> {
    pub pass: P,
    pub number: u8,
    pub ended: Result<WriterSum, WorkFault>,
}

/// The deleter, with its pass, and how its work ended.
#[derive(Drop)]
pub struct Deleter<P> {
    pub pass: P,
    pub ended: Result<(), WorkFault>,
}

/// One of those that work beside each other.
#[derive(Drop)]
pub enum Element<S, P, D> {
    Worker { worker: Worker<S, D> },
    Writer { writer: Writer<P> },
    Deleter { deleter: Deleter<P> },
}
