// The ways of a shift.
ghost use Rattle.std.specs.Prelude.{◌≡◌, ◌≤◌};
ghost use Rattle.gen_shift.specs.Lists.{goes_up, fills, move_range};

use micro_ir::BitRange;

/// A shift of the bits of each element.
#[derive(Clone, Copy, Debug, PartialEq, Eq)]
pub enum Shift {
    /// To the left: zeros come in at the lowest bit.
    Sll,
    /// To the right: zeros come in at the highest bit.
    Srl,
    /// To the right: the sign comes in at the highest bit.
    Sra,
}

// Whether bits move to higher places.
pub(crate) fn is_left(kind: Shift) -> bool
    ensures { result ≡ goes_up kind }
{
    match kind {
        Shift::Sll => true,
        Shift::Srl | Shift::Sra => false,
    }
}

// Whether the sign comes in.
pub(crate) fn is_signed(kind: Shift) -> bool
    ensures { result ≡ fills kind }
{
    match kind {
        Shift::Sll | Shift::Srl => false,
        Shift::Sra => true,
    }
}

// The bits of an element that a move by so many places keeps, and where they go.
pub(crate) fn kept_bits(up: bool, width: u8, by: u8) -> BitRange
    requires { by ≤ width }
    ensures { result ≡ move_range up width by }
{
    if up {
        BitRange {
            from: 0,
            to: width - by,
            up: true,
            times: by,
        }
    } else {
        BitRange {
            from: by,
            to: width,
            up: false,
            times: by,
        }
    }
}
