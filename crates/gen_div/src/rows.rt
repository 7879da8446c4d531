// The rows that divisions work in, beside those of all programs.
// They are to stand with the rows of work of micro_ir.

/// The remainder so far, moved up by one place, with the dividend's next bit.
pub const MOVED_ROW: u8 = 40;

/// The remainder so far.
pub const REST_ROW: u8 = 45;

/// Whether lower bits of the divisor are 1, above each bit.
pub const NONZERO_ROW: u8 = 53;

/// The borrow out of a difference, at its highest bit.
pub const BORROW_ROW: u8 = 54;
