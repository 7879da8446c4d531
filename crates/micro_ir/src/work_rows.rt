// The rows that programs work in. Rows 0 to 31 of a subarray are the registers.

/// Ones in each bit of the active elements.
pub const ACTIVE_ROW: u8 = 32;

/// The mask bit of each element in all its bits, where the mask is an operand.
pub const MASK_ROW: u8 = 33;

/// The scalar operand in each element.
pub const SCALAR_ROW: u8 = 34;

/// The carry into each bit.
pub const CARRY_ROW: u8 = 35;

/// A result, before it is committed to its register.
pub const RESULT_ROW: u8 = 36;

/// One bit of an element in all its bits.
pub const BROADCAST_ROW: u8 = 37;

/// The truth of an element of a kind that makes a mask, at its highest bit.
pub const TRUTH_ROW: u8 = 41;

/// Ones in each bit of the agnostic elements.
pub const FREE_ROW: u8 = 52;

/// The first operand of a wide result, each element as wide as the result.
pub const LEFT_ROW: u8 = 55;

/// The second operand of a wide result.
pub const RIGHT_ROW: u8 = 56;
