// The rows that products work in, beside those of all programs.
// They are to stand with the rows of work of micro_ir.

/// The high half of a product without a sign.
pub const HIGH_ROW: u8 = 42;

/// The high half of a product of two numbers with a sign.
pub const CORRECTED_ROW: u8 = 39;

/// Whether a number is too large, in every bit of its element.
pub const OVERFLOW_ROW: u8 = 50;

/// A number, clipped to the range of its element.
pub const CLIPPED_ROW: u8 = 51;
