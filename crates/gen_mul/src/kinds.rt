// The kinds of product.

/// A product of two rows.
#[derive(Clone, Copy, Debug, PartialEq, Eq)]
pub enum Product {
    /// Its low half.
    Mul,
    /// Its high half, neither with a sign.
    Mulhu,
    /// Its high half, the first with a sign and the second without.
    Mulhsu,
    /// Its high half, both with a sign.
    Mulh,
    /// Its low half added to the addend.
    Macc,
    /// Its low half taken from the addend.
    Nmsac,
}
