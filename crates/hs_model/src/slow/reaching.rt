//! What anchors reach.
ghost use Rattle.std.specs.Prelude.{IfOk};
ghost use Rattle.std.specs.List.Sorted.{IsStrictlySortedBy};
ghost use Rattle.hs_model.specs.Listed.{IsListOf};
ghost use Rattle.hs_model.specs.Plain.{IsPlain, plain_of};
ghost use Rattle.hs_model.specs.Reach.{IsReached};
ghost use Rattle.hs_model.specs.Store.{address_cmp};

use super::pointing::{pointing, reach};
use crate::{ModelFault, PlainStore};
use hs_limits::{Address, ListOf};
use std::alloc::Global;

/// The addresses that some anchors reach, ascending, whether a block is present there or not.
pub fn reached(
    alloc: Global,
    store: &PlainStore,
    anchors: &[Address],
) -> Result<ListOf<Address>, ModelFault>
    requires { IsPlain store.now }
    ensures exact { IfOk result
        (λ list. IsListOf list (IsReached (plain_of store.now) anchors.now)) }
    ensures ascending { IfOk result (λ list. IsStrictlySortedBy address_cmp list) }
{
    let left = pointing(alloc, store.blocks.as_slice())?;
    let seen = reach(alloc, left, anchors)?;
    let list = seen.iter().copied().collect(alloc)?;
    Ok(ListOf::from_vec(list))
}
