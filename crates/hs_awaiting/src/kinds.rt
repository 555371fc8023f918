//! What an operation asks for.
ghost use Rattle.std.specs.Prelude.{◌≡◌};
ghost use Rattle.hs_awaiting.specs.Kinds.{puts_root, writes_block};

use hs_model::Op;

/// Whether an operation writes a block. It takes no memory.
pub fn writes_block(op: &Op) -> bool
    ensures { result ≡ writes_block op.now }
{
    match op {
        Op::Write { .. } => true,
        Op::Open { .. }
        | Op::Close { .. }
        | Op::Read { .. }
        | Op::Look { .. }
        | Op::Root { .. }
        | Op::Drop { .. }
        | Op::Forget { .. }
        | Op::Name { .. }
        | Op::Delete
        | Op::Stat => false,
    }
}

/// Whether an operation puts a root. It takes no memory.
pub fn puts_root(op: &Op) -> bool
    ensures { result ≡ puts_root op.now }
{
    match op {
        Op::Root { .. } => true,
        Op::Open { .. }
        | Op::Close { .. }
        | Op::Write { .. }
        | Op::Read { .. }
        | Op::Look { .. }
        | Op::Drop { .. }
        | Op::Forget { .. }
        | Op::Name { .. }
        | Op::Delete
        | Op::Stat => false,
    }
}
