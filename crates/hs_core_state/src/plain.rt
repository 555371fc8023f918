//! The plain store of a core: what its catalogues have.
ghost use Rattle.std.specs.List.{list_all};
ghost use Rattle.std.specs.Prelude.{◌≡◌, ◌+◌, IfOk, OnOk, nat_le};
ghost use Rattle.hs_core_words.specs.Plain.{add_shards, plain_store};
ghost use Rattle.hs_fold.specs.Runs.Opened.{pruned};
ghost use Rattle.hs_model.specs.Inner.{stays_in};
ghost use Rattle.hs_model.specs.Plain.{IsPlain, plain_of, root_of};

use crate::State;
use crate::no_memory::NoMemory;
use hs_limits::ListOf;
use hs_model::{PlainRoot, PlainStore};
use hs_shard::{Catalogue, empty_store};

impl State {
    /// What all shards have, as one plain store without the blocks' data and without sessions. Root
    /// records that count in no epoch any more are left out.
    pub fn plain(&mut self) -> Result<PlainStore, NoMemory>
        ensures ok { IfOk result (λ store. plain_of store ≡ plain_store self.old) }
        ensures plain { IfOk result IsPlain }
        ensures shape { IfOk result (λ store. store.shape ≡ self.old.members.shape) }
        ensures same { self.new ≡ self.old }
    {
        let mut store = empty_store(self.alloc, self.shape())?;
        add_all(&mut self.catalogues, &mut store)?;
        Ok(without_past(store))
    }
}

/// Puts what each of some shards has into a plain store.
#[tactic(auto, using(crate::proofs::PlainLemmas::one_more_added))]
fn add_all(catalogues: &mut Vec<Catalogue>, store: &mut PlainStore) -> Result<(), NoMemory>
    requires { IsPlain store.old }
    ensures ok { OnOk result
        (plain_of store.new ≡ add_shards catalogues.old.items (plain_of store.old)) }
    ensures plain { OnOk result (IsPlain store.new) }
    ensures shape { OnOk result (store.new.shape ≡ store.old.shape) }
    ensures same { catalogues.new.items ≡ catalogues.old.items }
{
    for place in 0..catalogues.len() {
        catalogues[place].plain(store)?;
    }
    Ok(())
}

/// A plain store without the roots that count in no epoch any more. It takes no memory.
fn without_past(store: PlainStore) -> PlainStore
    requires { IsPlain store }
    ensures value { plain_of result ≡ pruned (plain_of store) }
    ensures plain { IsPlain result }
    ensures shape { result.shape ≡ store.shape }
{
    let PlainStore {
        shape,
        blocks,
        given,
        roots,
        epochs,
        swept,
    } = store;
    let mut kept = roots.into_vec();
    kept.retain(|root| stays(root, epochs.as_slice()));
    PlainStore {
        shape,
        blocks,
        given,
        roots: ListOf::from_vec(kept),
        epochs,
        swept,
    }
}

/// Whether a root counts in some epoch still.
fn stays(root: &PlainRoot, epochs: &[u64]) -> bool
    ensures { result ≡ stays_in epochs.now (root_of root.now) }
{
    match root.dropped {
        None => true,
        Some(dropped) => !are_past(dropped, epochs),
    }
}

/// Whether each epoch is the second after another or later.
fn are_past(dropped: u64, epochs: &[u64]) -> bool
    ensures { result ≡ list_all (λ now. nat_le (dropped + 2) now) epochs.now }
{
    epochs.iter().all(|now| is_past(dropped, *now))
}

/// Whether an epoch is the second after another or later.
fn is_past(dropped: u64, now: u64) -> bool
    ensures { result ≡ nat_le (dropped + 2) now }
{
    dropped < now.saturating_sub(1)
}
