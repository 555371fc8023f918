//! How much is stored as one file.

/// The most bytes of a file: 1,024 pieces of 65,536 bytes.
pub const MOST_FILE: u64 = 67_108_864;

/// The bytes below the block above a whole run of pieces: 64 of them.
pub(crate) const RUN_BYTES: u64 = 4_194_304;
