// The kinds, and their tables.
ghost use Rattle.std.specs.Prelude.{◌≡◌};
ghost use Rattle.gen_arith.specs.Kinds.{sum_tables, truth_tables, order_of, picks_of};
ghost use Rattle.gen_arith.specs.Starts.{rows_from, values_from};

use crate::steps::Start;

/// Sums and differences of two rows.
#[derive(Clone, Copy, Debug, PartialEq, Eq)]
pub enum Sum {
    Add,
    Sub,
    /// With the mask bit carried in.
    Adc,
    /// With the mask bit borrowed.
    Sbc,
}

/// Truths of two rows: the carries out of sums, the borrows out of differences, and comparisons.
#[derive(Clone, Copy, Debug, PartialEq, Eq)]
pub enum Truth {
    Madc,
    /// With the mask bit carried in.
    MadcIn,
    Msbc,
    /// With the mask bit borrowed.
    MsbcIn,
    Eq,
    Ne,
    Ltu,
    Lt,
    Leu,
    Le,
    Gtu,
    Gt,
}

/// The lesser or the greater of two rows.
#[derive(Clone, Copy, Debug, PartialEq, Eq)]
pub enum Choice {
    Minu,
    Min,
    Maxu,
    Max,
}

// The values of a carry and two bits, the carry lowest, of which one or three are 1, and of which two
// or three are.
const ODD: [u8; 4] = [1, 2, 4, 7];

const MOST: [u8; 4] = [3, 5, 6, 7];

// The same with the second of the two bits inverted, and with the first one inverted: the last is the
// borrow of the first less the second.
const ODD_NOT: [u8; 4] = [0, 3, 5, 6];

const MOST_NOT: [u8; 4] = [1, 2, 3, 7];

const BORROW: [u8; 4] = [1, 4, 5, 7];

// The carry is 1 or the bits differ, and the complement of that.
const UNLIKE: [u8; 6] = [1, 2, 3, 4, 5, 7];

const ALIKE: [u8; 2] = [0, 6];

// No borrow of the second bit less the first: of bits that count up, and of the signs of numbers.
const AT_MOST: [u8; 4] = [0, 4, 5, 6];

const AT_MOST_SIGNED: [u8; 4] = [0, 2, 3, 6];

// The values of a truth and two bits where the first bit is 1 and the truth is, or the second bit is
// 1 and the truth is not; and the other way round.
const FIRST: [u8; 4] = [3, 4, 6, 7];

const SECOND: [u8; 4] = [2, 5, 6, 7];

// What a sum carries into the lowest bit.
pub(crate) fn sum_start(kind: Sum) -> Start
    ensures rows { rows_from result ≡ (sum_tables kind).from }
    ensures values { values_from result ≡ (sum_tables kind).from_on }
{
    match kind {
        Sum::Add => Start::Zero,
        Sum::Sub => Start::One,
        Sum::Adc => Start::Mask,
        Sum::Sbc => Start::NotMask,
    }
}

// The table of the digits of a sum, and that of its carries.
pub(crate) fn sum_digits(kind: Sum) -> &'static [u8]
    ensures { result.now ≡ (sum_tables kind).digits }
{
    match kind {
        Sum::Add | Sum::Adc => &ODD,
        Sum::Sub | Sum::Sbc => &ODD_NOT,
    }
}

pub(crate) fn sum_carries(kind: Sum) -> &'static [u8]
    ensures { result.now ≡ (sum_tables kind).carries }
{
    match kind {
        Sum::Add | Sum::Adc => &MOST,
        Sum::Sub | Sum::Sbc => &MOST_NOT,
    }
}

// What a truth carries into the lowest bit.
pub(crate) fn truth_start(kind: Truth) -> Start
    ensures rows { rows_from result ≡ (truth_tables kind).from }
    ensures values { values_from result ≡ (truth_tables kind).from_on }
{
    match kind {
        Truth::MadcIn | Truth::MsbcIn => Start::Mask,
        Truth::Madc
        | Truth::Msbc
        | Truth::Eq
        | Truth::Ne
        | Truth::Ltu
        | Truth::Lt
        | Truth::Leu
        | Truth::Le
        | Truth::Gtu
        | Truth::Gt => Start::Zero,
    }
}

// The table of the carries of a truth, and that of the truth at the highest bit.
pub(crate) fn truth_carries(kind: Truth) -> &'static [u8]
    ensures { result.now ≡ (truth_tables kind).carries }
{
    match kind {
        Truth::Madc | Truth::MadcIn => &MOST,
        Truth::Msbc | Truth::MsbcIn | Truth::Ltu | Truth::Lt => &BORROW,
        Truth::Eq | Truth::Ne => &UNLIKE,
        Truth::Leu | Truth::Le | Truth::Gtu | Truth::Gt => &MOST_NOT,
    }
}

pub(crate) fn truth_last(kind: Truth) -> &'static [u8]
    ensures { result.now ≡ (truth_tables kind).last }
{
    match kind {
        Truth::Madc | Truth::MadcIn => &MOST,
        Truth::Msbc | Truth::MsbcIn | Truth::Ltu | Truth::Gt => &BORROW,
        Truth::Eq => &ALIKE,
        Truth::Ne => &UNLIKE,
        Truth::Lt | Truth::Gtu => &MOST_NOT,
        Truth::Leu => &AT_MOST,
        Truth::Le => &AT_MOST_SIGNED,
    }
}

// The comparison that decides a choice, and the table of its truth and the two rows.
pub(crate) fn order(kind: Choice) -> Truth
    ensures { result ≡ order_of kind }
{
    match kind {
        Choice::Minu | Choice::Maxu => Truth::Ltu,
        Choice::Min | Choice::Max => Truth::Lt,
    }
}

pub(crate) fn picks(kind: Choice) -> &'static [u8]
    ensures { result.now ≡ picks_of kind }
{
    match kind {
        Choice::Minu | Choice::Min => &FIRST,
        Choice::Maxu | Choice::Max => &SECOND,
    }
}
