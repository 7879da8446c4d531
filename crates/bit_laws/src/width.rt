ghost use Rattle.std.specs.Prelude.{◌≡◌, ℕ, ◌^◌, ◌%◌, ◌≤◌};

/// A width of elements in bits: a power of two that divides 32 and is at least 8 (vector extension
/// 1.0, section 3.4.1).
pub trait Width {
    ghost BITS: { ℕ };

    ghost LOG: { ℕ };

    /// The bits of an element.
    const BITS: usize;

    /// How often 2 is multiplied to give them.
    const LOG: usize;

    /// Does nothing. It shows the laws of a width to generic code.
    fn laws();

    ghost power: { BITS ≡ 2 ^ LOG };

    ghost divides: { 32 % BITS ≡ 0 };

    ghost least: { 8 ≤ BITS };
}

/// Elements of 8 bits.
pub struct W8;

/// Elements of 16 bits.
pub struct W16;

/// Elements of 32 bits.
pub struct W32;

impl Width for W8 {
    ghost use Rattle.std.proofs.Common.{refl, lit≤, ℕ};

    ghost BITS = { 8 };

    ghost LOG = { 3 };

    const BITS: usize = 8;

    const LOG: usize = 3;

    fn laws() {}

    ghost power = { refl };

    ghost divides = { refl };

    ghost least = { lit≤ tt };
}

impl Width for W16 {
    ghost use Rattle.std.proofs.Common.{refl, lit≤, ℕ};

    ghost BITS = { 16 };

    ghost LOG = { 4 };

    const BITS: usize = 16;

    const LOG: usize = 4;

    fn laws() {}

    ghost power = { refl };

    ghost divides = { refl };

    ghost least = { lit≤ tt };
}

impl Width for W32 {
    ghost use Rattle.std.proofs.Common.{refl, lit≤, ℕ};

    ghost BITS = { 32 };

    ghost LOG = { 5 };

    const BITS: usize = 32;

    const LOG: usize = 5;

    fn laws() {}

    ghost power = { refl };

    ghost divides = { refl };

    ghost least = { lit≤ tt };
}
