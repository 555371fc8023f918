//! Blocks and addresses as text.
use crate::text::Text;
use hs_block::{Block, BlockFault};
use hs_limits::Address;
use std::alloc::Global;

/// Puts the block that the bytes spell, or why they spell none.
pub(crate) fn put_block(alloc: Global, bytes: &[u8], out: &mut Text) {
    match Block::read(alloc, bytes) {
        Ok(block) => {
            put_addresses(block.pointers(), out);
            out.put_hex(" data ", block.data());
        }
        Err(fault) => put_fault(fault, out),
    }
}

/// Puts addresses, parted by spaces, or `-` where there are none.
fn put_addresses(addresses: &[Address], out: &mut Text) {
    out.put("pointers");
    for address in addresses {
        out.put_hex(" ", &address.0);
    }
    if addresses.is_empty() {
        out.put(" -");
    }
}

/// Puts why bytes spell no block.
fn put_fault(fault: BlockFault, out: &mut Text) {
    let (form, number) = match fault {
        BlockFault::Short { at } => ("short #", at),
        BlockFault::BadVersion { found } => ("badversion #", u64::from(found)),
        BlockFault::TooMany { found } => ("toomany #", found),
        BlockFault::TooLong { found } => ("toolong #", found),
        BlockFault::Trailing { at } => ("trailing #", at),
        BlockFault::NoMemory => ("nomemory", 0),
    };
    out.put_form(form, &[number]);
}
