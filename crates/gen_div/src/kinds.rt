// The kinds of division.

/// A division of one row by another. It rounds towards zero.
#[derive(Clone, Copy, Debug, PartialEq, Eq)]
pub enum Division {
    /// The quotient, without signs.
    Divu,
    /// The remainder, without signs.
    Remu,
    /// The quotient of numbers with signs.
    Div,
    /// The remainder of numbers with signs, which has the dividend's.
    Rem,
}
