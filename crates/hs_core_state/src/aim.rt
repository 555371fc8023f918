//! What an operation is about.
ghost use Rattle.std.specs.Prelude.{◌≡◌, IfSome};
ghost use Rattle.std.specs.Option.{option_map};
ghost use Rattle.hs_awaiting.specs.Kinds.{puts_root, writes_block};
ghost use Rattle.hs_core_state.specs.Going.{aim_of};
ghost use Rattle.hs_core_words.specs.Looking.{operation_of};
ghost use Rattle.hs_members.specs.Members.{IsShard};
ghost use Rattle.hs_ops.specs.Speaking.{judging_shard};

use crate::State;
use hs_awaiting::{puts_root, writes_block};
use hs_limits::Address;
use hs_model::Op;
use hs_ops::Operation;

/// What an operation is about: the shard that judges it, the address of the block that it writes or
/// reads, and whether it writes a block or puts a root.
#[derive(Clone, Copy)]
pub struct Aim {
    pub shard: u8,
    pub address: Option<Address>,
    pub writes: bool,
    pub roots: bool,
}

impl State {
    /// What the operation of a line is about. None exactly where there is none. It takes no memory.
    pub fn aim_at(&self, line: u64) -> Option<Aim>
        ensures about { result ≡ option_map (λ w. aim_of w.shard w.operation.op self.now)
            (operation_of line self.now) }
        ensures shard { IfSome result (λ aim. IsShard self.now.members.shape aim.shard) }
    {
        match self.operations.get(line) {
            Some(waiting) => Some(self.aim_of(waiting.shard, &waiting.operation)),
            None => None,
        }
    }

    /// What an operation that a shard judges is about. It takes no memory.
    fn aim_of(&self, shard: u8, operation: &Operation) -> Aim
        ensures { result ≡ aim_of shard operation.now.op self.now }
    {
        aim_by(shard, operation.address(&self.sessions), operation.op())
    }

    /// What a new operation is about. The shard that judges it is one of the store's. It takes no
    /// memory.
    pub fn first_aim(&self, operation: &Operation) -> Aim
        ensures value { result ≡ aim_of (judging_shard self.now.members.shape.shards
            self.now.sessions operation.now.op) operation.now.op self.now }
        ensures shard { IsShard self.now.members.shape result.shard }
    {
        let address = operation.address(&self.sessions);
        let shard = operation.shard_for(address, self.shape());
        aim_by(shard, address, operation.op())
    }
}

/// What an operation is about that a shard judges, and that writes or reads the block of an address.
fn aim_by(shard: u8, address: Option<Address>, op: &Op) -> Aim
    ensures { result ≡ record {
      shard = shard;
      address = address;
      writes = writes_block op.now;
      roots = puts_root op.now;
    } }
{
    Aim {
        shard,
        address,
        writes: writes_block(op),
        roots: puts_root(op),
    }
}
