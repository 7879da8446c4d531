// The rows that lists of fixed point work in, beside those of all programs.
// They are to stand with the rows of work of micro_ir.

/// Whether a number with a sign overflows, in each bit of its element.
pub const OVERFLOW_ROW: u8 = 50;

/// A wide number that is clipped, in the low half of its element.
pub const CLIPPED_ROW: u8 = 51;
