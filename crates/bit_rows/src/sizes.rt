/// Each column of a row has a bit in each of so many subarrays.
pub const SUBARRAYS: u8 = 32;

/// A chain has at most so many columns.
pub const MAX_COLUMNS: usize = 2048;

/// The bits of a row of a subarray are packed into words of so many bits.
pub const WORD_BITS: u32 = 64;

/// A row of a subarray has at most so many words.
pub const MAX_WORDS: usize = 32;
