// The row of work that the frame has for itself, beside those of all programs.

/// The halves of a register's elements that a narrowing instruction has computed.
pub const HALVES_ROW: u8 = 57;
