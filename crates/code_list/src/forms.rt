// How the operands of an instruction are written.

/// How the operands of a scalar instruction are written.
#[derive(Clone, Copy, PartialEq, Eq)]
pub enum ScalarForm {
    /// `x1, x2, x3`: the destination and two sources.
    Registers,
    /// `x1, x2, -4`: the destination, a source and the immediate.
    Immediate,
    /// `x1, -4(x2)`: the destination and the address.
    Load,
    /// `x1, -4(x2)`: the stored register and the address.
    Store,
    /// `x1, x2, -4`: two sources and the distance in bytes.
    Branch,
    /// `x1, 0x12345`: the destination and bits 31 to 12 of the immediate.
    Upper,
    /// `x1, -4`: the destination and the distance in bytes.
    Jump,
    /// `x1, 0x00f, x2`: the destination, the control register and the source.
    Csr,
    /// `x1, 0x00f, 5`: the destination, the control register and the immediate.
    CsrImmediate,
    /// Nothing.
    NoOperands,
}

/// How the operands of an instruction on vectors are written, and the suffix of its form. The second source is a
/// vector register, a scalar register or an immediate, by the form of the word.
#[derive(Clone, Copy, PartialEq, Eq)]
pub enum VectorForm {
    /// `.vv`, `.vx`, `.vi`: `vd`, `vs2` and the second source, whose immediate has a sign.
    SignedSource,
    /// `.vv`, `.vx`, `.vi`: `vd`, `vs2` and the second source, whose immediate has no sign.
    UnsignedSource,
    /// `.wv`, `.wx`, `.wi`: `vd`, a wide `vs2` and the second source, whose immediate has no sign.
    WideSource,
    /// `.vvm`, `.vxm`, `.vim`: as `SignedSource`, and `v0`.
    CarryIn,
    /// As `CarryIn` where the word names the mask, and as `SignedSource` where it does not.
    CarryOut,
    /// `.v`, `.x`, `.i`: `vd` and the second source.
    Move,
    /// The number of registers and `r.v`: `vd` and `vs2`.
    WholeMove,
    /// No suffix: `vd`, `vs2` and `vs1`.
    ThreeVectors,
    /// No suffix: `vd` and `vs2`.
    TwoVectors,
    /// No suffix: `vd`.
    Destination,
    /// No suffix: a scalar register and `vs2`.
    ToScalar,
    /// No suffix: `vd` and a scalar register.
    FromScalar,
    /// `.vv`, `.vx`: `vd`, the second source and `vs2`.
    MultiplyAdd,
}
