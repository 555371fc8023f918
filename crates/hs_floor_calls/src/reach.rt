//! What is reached, unreachable and peeled in a store of one block.
ghost use Rattle.std.specs.Prelude.{IfOk};
ghost use Rattle.hs_model.specs.Plain.{IsPlain};

use hs_limits::{Address, ListOf, Shape};
use hs_model::{PlainBlock, PlainStore, peel, reached, unreachable};
use std::alloc::Global;
use std::test::Fail;

const FIRST: Address = Address([1; 32]);

const SECOND: Address = Address([2; 32]);

/// A store of one block, which points to an address with no block.
fn one_block(alloc: Global) -> Result<PlainStore, Fail>
    ensures { IfOk result IsPlain }
{
    let block = PlainBlock {
        address: FIRST,
        pointers: ListOf::from_vec(vec![in alloc; SECOND; 1]?),
        born: 1,
    };
    let mut blocks = ListOf::new(alloc);
    blocks.push(block)?;
    Ok(PlainStore {
        shape: Shape {
            shards: 1,
            copies: 1,
        },
        blocks,
        given: ListOf::new(alloc),
        roots: ListOf::new(alloc),
        epochs: ListOf::from_vec(vec![in alloc; 2; 1]?),
        swept: ListOf::from_vec(vec![in alloc; 1; 1]?),
    })
}

#[test]
fn a_block_reaches_what_it_points_to(rt: HostRuntime) -> Result<(), Fail> {
    let store = one_block(rt.alloc())?;
    let list = reached(rt.alloc(), &store, &[FIRST])?;
    assert_eq!(rt; list.as_slice(), [FIRST, SECOND].as_slice());
    Ok(())
}

#[test]
fn a_block_that_nothing_keeps_is_unreachable(rt: HostRuntime) -> Result<(), Fail> {
    let store = one_block(rt.alloc())?;
    let list = unreachable(rt.alloc(), &store, 2, 0)?;
    assert_eq!(rt; list.as_slice(), [FIRST].as_slice());
    Ok(())
}

#[test]
fn a_block_that_nothing_holds_is_peeled(rt: HostRuntime) -> Result<(), Fail> {
    let store = one_block(rt.alloc())?;
    let list = peel(rt.alloc(), &store, &[SECOND])?;
    assert_eq!(rt; list.as_slice(), [FIRST].as_slice());
    Ok(())
}
