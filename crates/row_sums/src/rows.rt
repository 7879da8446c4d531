// The rows that products and quotients work in, beside those of all programs.
// They are to stand with the rows of work of micro_ir.
ghost use Rattle.std.specs.Prelude.{◌≡◌, ◌<◌};
ghost use Rattle.row_sums.specs.Sums.{half_role};

/// A sum or a difference, before it is used.
pub const TOTAL_ROW: u8 = 38;

/// The low half of a product or a quotient, before the first round and after an even number of
/// rounds.
pub const HALF_ROW: u8 = 43;

/// The same after an odd number of rounds.
pub const OTHER_HALF_ROW: u8 = 44;

/// Where the low half of a product or a quotient stands, after an odd number of rounds or not.
pub fn half_row(odd: bool) -> u8
    ensures role { result ≡ half_role odd }
    ensures row { result < 64 }
{
    if odd { OTHER_HALF_ROW } else { HALF_ROW }
}
