//! How many blocks the plain store in memory has.
ghost use Rattle.std.specs.Prelude.{◌≡◌, length};

use super::MemoryStore;

impl MemoryStore {
    /// How many blocks are present. It takes no memory.
    pub(super) fn block_count(&self) -> usize
        ensures { result ≡ length self.now.blocks }
    {
        self.blocks.as_map().len()
    }
}
