//! Whose disk it is.
ghost use Rattle.std.specs.Prelude.{◌≡◌};
ghost use Rattle.hs_side.specs.Headers.{own_header};
ghost use Rattle.hs_peerlog.specs.Opening.{is_own};

use hs_limits::Shape;
use hs_side::Header;

/// The header of the disk of a peer.
pub(crate) fn own_header(shape: Shape, peer: u8) -> Header
    ensures { result ≡ own_header shape peer }
{
    Header {
        shards: shape.shards,
        copies: shape.copies,
        peer,
    }
}

/// Whether a header is that of this peer's disk.
pub(crate) fn is_own(shape: Shape, peer: u8, header: Header) -> bool
    ensures { result ≡ is_own shape peer header }
{
    header.shards == shape.shards && header.copies == shape.copies && header.peer == peer
}
