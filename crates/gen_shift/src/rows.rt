// The rows that shifts work in, beside those of all programs.
// They are to stand with the rows of work of micro_ir.
ghost use Rattle.std.specs.Prelude.{◌≡◌, ◌<◌};
ghost use Rattle.gen_shift.specs.Rows.{shift_role, last_role};

/// What is shifted, before the first stage and after an even number of stages.
pub const SHIFTED_ROW: u8 = 38;

/// What is shifted, after an odd number of stages.
pub const NEXT_ROW: u8 = 39;

/// What is shifted, moved by the places of a stage.
pub const MOVED_ROW: u8 = 40;

/// The last bit that was shifted out, at the lowest bit of an element: before the first stage and after
/// an even number of stages.
pub const LAST_ROW: u8 = 46;

/// The last bit that was shifted out, after an odd number of stages.
pub const NEXT_LAST_ROW: u8 = 47;

/// Whether a bit below the last one was shifted out as 1, at the lowest bit of an element.
pub const MORE_ROW: u8 = 48;

/// The sign of an element in all its bits.
pub const SIGN_ROW: u8 = 49;

// Where what is shifted stands, after an odd number of stages or not.
pub(crate) fn shift_row(odd: bool) -> u8
    ensures role { result ≡ shift_role odd }
    ensures row { result < 64 }
{
    if odd { NEXT_ROW } else { SHIFTED_ROW }
}

// Where the last bit that was shifted out stands, after an odd number of stages or not.
pub(crate) fn last_row(odd: bool) -> u8
    ensures role { result ≡ last_role odd }
    ensures row { result < 64 }
{
    if odd { NEXT_LAST_ROW } else { LAST_ROW }
}
