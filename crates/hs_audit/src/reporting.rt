//! The text of an audit of a store without data.
ghost use Rattle.std.specs.Prelude.{◌≡◌, ◌++◌, ◌<◌, IfOk, OnOk};
ghost use Rattle.std.specs.List.{flat_map, range_with_len};
ghost use Rattle.hs_audit.specs.Text.{report, shard_line};
ghost use Rattle.hs_model.specs.Plain.{IsPlain, plain_of};

use crate::AuditFault;
use crate::counting::counts_of;
use crate::missing::missing;
use crate::printing::{put_missing, put_shard};
use hs_model::PlainStore;
use std::alloc::Global;

/// The text of an audit of a store.
#[tactic(auto, unfolding(crate::specs::Text::report))]
pub(crate) fn report(alloc: Global, store: &PlainStore) -> Result<Vec<u8>, AuditFault>
    requires { IsPlain store.now }
    ensures { IfOk result (λ text. text.items ≡ report (plain_of store.now)) }
{
    let missing = missing(alloc, store)?;
    let mut text = Vec::new(alloc);
    report_shards(alloc, store, &mut text)?;
    match put_missing(missing.as_slice(), &mut text) {
        Ok(()) => Ok(text),
        Err(_) => Err(AuditFault::NoMemory),
    }
}

/// Puts the line of each shard at the end of a text.
fn report_shards(alloc: Global, store: &PlainStore, text: &mut Vec<u8>) -> Result<(), AuditFault>
    requires { IsPlain store.now }
    ensures { OnOk result (text.new.items ≡ text.old.items
        ++ flat_map (shard_line (plain_of store.now)) (range_with_len 0 store.now.shape.shards)) }
{
    for shard in 0..store.shape.shards {
        report_shard(alloc, store, shard, text)?;
    }
    Ok(())
}

/// Puts the line of a shard at the end of a text.
fn report_shard(
    alloc: Global,
    store: &PlainStore,
    shard: u8,
    text: &mut Vec<u8>,
) -> Result<(), AuditFault>
    requires plain { IsPlain store.now }
    requires shard { shard < store.now.shape.shards }
    ensures { OnOk result (text.new.items ≡ text.old.items ++ shard_line (plain_of store.now) shard) }
{
    let counts = counts_of(alloc, store, shard)?;
    match put_shard(shard, counts, text) {
        Ok(()) => Ok(()),
        Err(_) => Err(AuditFault::NoMemory),
    }
}
