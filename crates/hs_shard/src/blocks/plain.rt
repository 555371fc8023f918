//! The blocks of a shard in a plain store.
ghost use Rattle.std.specs.Prelude.{◌≡◌, IfOk};
ghost use Rattle.hs_shard.specs.Adding.{AscendBlocks, AscendGiven, listed_blocks, listed_given};
ghost use Rattle.hs_shard.specs.Plain.{add_blocks, add_given};

use super::Blocks;
use crate::plain_blocks::{
    add_blocks, add_given, blocks_by_address, blocks_in_order, given_by_address, given_in_order,
};
use hs_limits::{Held, ListOf};
use hs_model::PlainBlock;
use std::alloc::AllocError;

impl Blocks {
    /// Some blocks of a plain store with these.
    pub(crate) fn with_blocks(
        &self,
        blocks: ListOf<PlainBlock>,
    ) -> Result<ListOf<PlainBlock>, AllocError>
        requires { AscendBlocks blocks }
        ensures value { IfOk result
            (λ list. listed_blocks list ≡ add_blocks self.now (listed_blocks blocks)) }
        ensures ordered { IfOk result (λ list. AscendBlocks list) }
    {
        let mut outlines = blocks_by_address(self.alloc, blocks)?;
        add_blocks(self.alloc, &self.known, &mut outlines)?;
        blocks_in_order(self.alloc, outlines)
    }

    /// What was given in a plain store, with what was given of these.
    pub(crate) fn with_given(&self, given: ListOf<Held>) -> Result<ListOf<Held>, AllocError>
        requires { AscendGiven given }
        ensures value { IfOk result
            (λ list. listed_given list ≡ add_given self.now (listed_given given)) }
        ensures ordered { IfOk result (λ list. AscendGiven list) }
    {
        let mut epochs = given_by_address(self.alloc, given)?;
        add_given(&self.known, &mut epochs)?;
        given_in_order(self.alloc, epochs)
    }
}
