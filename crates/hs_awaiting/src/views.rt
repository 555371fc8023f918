//! What a new view of a shard does to an operation.
ghost use Rattle.std.specs.Prelude.{◌≡◌};
ghost use Rattle.hs_awaiting.specs.Views.{is_within};

use crate::Wait;

/// Whether what is waited for is an entry up to this number.
pub(crate) fn is_within(last: u64, wait: Wait) -> bool
    ensures { result ≡ is_within last wait }
{
    match wait {
        Wait::Entry { number } => number <= last,
        Wait::View | Wait::Address | Wait::Room | Wait::Bytes { .. } => false,
    }
}
