//! What an answer gives to hold.
ghost use Rattle.std.specs.Prelude.{◌≡◌};
ghost use Rattle.hs_desk.specs.Roomy.{option_list};
ghost use Rattle.hs_desk.specs.Tokens.{newly_held};

use hs_limits::Held;
use hs_model::{Asked, Reply, given_address};

/// What an answer gives to hold, if anything.
pub(crate) fn newly_held(asked: &Asked, reply: &Reply) -> Option<Held>
    ensures { option_list result ≡ newly_held asked.now reply.now }
{
    match (asked, reply) {
        (Asked::Write { address, .. }, Reply::New { epoch, .. } | Reply::Dup { epoch, .. }) => Some(
            Held {
                address: given_address(*address),
                epoch: *epoch,
            },
        ),
        _ => None,
    }
}
