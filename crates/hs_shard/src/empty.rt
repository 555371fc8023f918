//! A plain store with nothing in it.
ghost use Rattle.std.specs.Prelude.{◌≡◌, IfOk};
ghost use Rattle.hs_limits.specs.Shape.{IsShape};
ghost use Rattle.hs_model.specs.Plain.{IsPlain, plain_of};
ghost use Rattle.hs_model.specs.Store.{empty_store};

use hs_limits::{ListOf, Shape};
use hs_model::PlainStore;
use std::alloc::{AllocError, Global};

/// A plain store of a shape with nothing in it.
pub fn empty_store(alloc: Global, shape: Shape) -> Result<PlainStore, AllocError>
    requires { IsShape shape }
    ensures store { IfOk result (λ store. plain_of store ≡ empty_store shape.shards) }
    ensures plain { IfOk result IsPlain }
    ensures shape { IfOk result (λ store. store.shape ≡ shape) }
{
    let shards = usize::from(shape.shards);
    let epochs = vec![in alloc; 1; shards]?;
    let swept = vec![in alloc; 1; shards]?;
    Ok(PlainStore {
        shape,
        blocks: ListOf::new(alloc),
        given: ListOf::new(alloc),
        roots: ListOf::new(alloc),
        epochs: ListOf::from_vec(epochs),
        swept: ListOf::from_vec(swept),
    })
}
