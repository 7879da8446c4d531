// The kinds of fixed point, and their tables.
ghost use Rattle.std.specs.Prelude.{◌≡◌};
ghost use Rattle.gen_fixed.specs.Lists.{carries_of, beyond_on, bound_on, overflow_on};
ghost use Rattle.gen_fixed.specs.Kinds.{average_sign, has_sign, is_difference};

/// Half of a sum, or of a difference, rounded.
#[derive(Clone, Copy, Debug, PartialEq, Eq)]
pub enum Average {
    /// Of numbers without a sign.
    Avgu,
    /// Of numbers with a sign.
    Avg,
}

/// Sums and differences that are clipped to the range of an element.
#[derive(Clone, Copy, Debug, PartialEq, Eq)]
pub enum Saturating {
    /// The sum of numbers without a sign.
    Saddu,
    /// The sum of numbers with a sign.
    Sadd,
    /// The difference of numbers without a sign.
    Ssubu,
    /// The difference of numbers with a sign.
    Ssub,
}

/// Clips of a number that is twice as wide.
#[derive(Clone, Copy, Debug, PartialEq, Eq)]
pub enum Clipping {
    /// Of a number without a sign.
    Clipu,
    /// Of a number with a sign.
    Clip,
}

// The values of a carry and two bits, the carry lowest, of which one or three are 1, and of which two
// or three are; and the borrow of the first bit less the second.
pub(crate) const ODD: [u8; 4] = [1, 2, 4, 7];

const MOST: [u8; 4] = [3, 5, 6, 7];

const BORROW: [u8; 4] = [1, 4, 5, 7];

// The sign of a sum and of a difference one place beyond the signs of its operands.
const SIGN_OF_SUM: [u8; 4] = [2, 4, 6, 7];

const SIGN_OF_DIFFERENCE: [u8; 4] = [1, 2, 3, 7];

// The values of a digit, and of the bit beyond, where the clipped number has a 1: a sum is then all
// ones, a difference all zeros.
const OR_ONES: [u8; 3] = [1, 2, 3];

const OR_ZEROS: [u8; 1] = [1];

// The values of the signs of two operands and of the total, of which the total has the wrong one.
const SUM_OVERFLOWS: [u8; 2] = [3, 4];

const DIFFERENCE_OVERFLOWS: [u8; 2] = [1, 6];

// The table of the carries of a sum or of the borrows of a difference.
pub(crate) fn carries(sub: bool) -> &'static [u8]
    ensures { result.now ≡ carries_of sub }
{
    if sub { &BORROW } else { &MOST }
}

// The table of the bit beyond the highest.
pub(crate) fn beyond(sign: bool, sub: bool) -> &'static [u8]
    ensures { result.now ≡ beyond_on sign sub }
{
    match (sign, sub) {
        (false, _) => carries(sub),
        (true, false) => &SIGN_OF_SUM,
        (true, true) => &SIGN_OF_DIFFERENCE,
    }
}

// The table of a total without a sign that is clipped.
pub(crate) fn bound(sub: bool) -> &'static [u8]
    ensures { result.now ≡ bound_on sub }
{
    if sub { &OR_ZEROS } else { &OR_ONES }
}

// The table of the overflow of a total with a sign.
pub(crate) fn overflow(sub: bool) -> &'static [u8]
    ensures { result.now ≡ overflow_on sub }
{
    if sub {
        &DIFFERENCE_OVERFLOWS
    } else {
        &SUM_OVERFLOWS
    }
}

// Whether the numbers of an average have a sign.
pub(crate) fn is_signed_average(kind: Average) -> bool
    ensures { result ≡ average_sign kind }
{
    match kind {
        Average::Avgu => false,
        Average::Avg => true,
    }
}

// Whether the numbers of a sum that is clipped have a sign, and whether it is a difference.
pub(crate) fn is_signed(kind: Saturating) -> bool
    ensures { result ≡ has_sign kind }
{
    match kind {
        Saturating::Saddu | Saturating::Ssubu => false,
        Saturating::Sadd | Saturating::Ssub => true,
    }
}

pub(crate) fn is_less(kind: Saturating) -> bool
    ensures { result ≡ is_difference kind }
{
    match kind {
        Saturating::Saddu | Saturating::Sadd => false,
        Saturating::Ssubu | Saturating::Ssub => true,
    }
}
