//! Which blocks there are, and what each points to.
use hs_limits::Address;

/// How many blocks make a group, and how many pointers a block has at most.
pub const GROUP: u32 = 64;

/// So many blocks. A quarter of them stays: each points to those before it. The others are groups,
/// in each of which the last block points to the others, and these point to blocks that stay.
#[derive(Clone, Copy)]
pub struct Plan {
    blocks: u32,
    kept: u32,
}

impl Plan {
    /// The plan of so many blocks.
    pub fn new(blocks: u32) -> Plan {
        let kept = (blocks / 4 / GROUP).saturating_mul(GROUP);
        Plan { blocks, kept }
    }

    /// How many blocks there are.
    pub fn blocks(&self) -> u32 {
        self.blocks
    }

    /// The last block that stays.
    pub fn last_kept(&self) -> u32 {
        self.kept.saturating_sub(1)
    }

    /// How many groups there are.
    pub fn groups(&self) -> u32 {
        self.blocks.saturating_sub(self.kept) / GROUP
    }

    /// The last block of a group.
    pub fn head(&self, group: u32) -> u32 {
        self.kept
            .saturating_add(group.saturating_mul(GROUP))
            .saturating_add(GROUP - 1)
    }

    /// How many pointers a block has.
    pub fn pointers(&self, block: u32) -> u32 {
        if block < self.kept {
            block.min(GROUP)
        } else {
            GROUP
        }
    }

    /// To which block a pointer of a block leads.
    pub fn target(&self, block: u32, place: u32) -> u32 {
        if block < self.kept {
            return block.saturating_sub(place).saturating_sub(1);
        }
        let past = block.saturating_sub(self.kept);
        if past % GROUP != GROUP - 1 {
            let spread = past.wrapping_mul(GROUP).wrapping_add(place);
            return spread.checked_rem(self.kept).unwrap_or(0);
        }
        if place < GROUP - 1 {
            block.saturating_sub(place).saturating_sub(1)
        } else {
            0
        }
    }
}

/// The address of a block: spread as those of a hash are.
pub fn address_of(block: u32) -> Address {
    let mut bytes = [0; 32];
    bytes[..4].copy_from_slice(&block.wrapping_mul(2_654_435_761).to_be_bytes());
    bytes[4..8].copy_from_slice(&block.to_be_bytes());
    Address(bytes)
}
