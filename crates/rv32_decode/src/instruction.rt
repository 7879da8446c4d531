// An instruction with its operands.
ghost use Rattle.std.specs.Prelude.{◌≡◌, ◌^◌, ◌<◌, ℕ, Some};

use crate::encodings::encoding;
use crate::formats::operands;
use crate::operations::Op;

/// A scalar instruction, with the fields of its word (RISC-V unprivileged specification, sections 2.2 and 2.3). A field
/// that it has not is 0.
#[derive(Clone, Copy, Debug, PartialEq, Eq)]
pub struct Instr {
    /// The operation.
    pub op: Op,
    /// The number of the destination register.
    pub rd: u8,
    /// The number of the first source register. At csrrwi, csrrsi and csrrci it is their immediate of 5 bits.
    pub rs1: u8,
    /// The number of the second source register.
    pub rs2: u8,
    /// The immediate, extended by its sign to 32 bits; at lui and auipc bits 31 to 12 of the word in their places, and
    /// zeros below them. Not extended by a sign are the amount of a shift, the number of a control register, and at
    /// fence and fence.i bits 31 to 20 of the word.
    pub imm: u32,
}

impl Instr {
    ghost use Rattle.rv32_decode.specs.Rows.{means};
    ghost use Rattle.rv32_decode.specs.Spelling.{IsSpelled};

    /// The word that means this instruction, so that what `decode` reads is given back.
    #[tactic(auto, using(crate::proofs::Spelled::word_is))]
    pub fn bits(&self) -> u32
        requires { IsSpelled self.now }
        ensures { (word : ℕ) → word < 2 ^ 32 → means word ≡ Some self.now → result ≡ word }
    {
        let (format, fixed) = encoding(self.op);
        fixed | operands(format, self)
    }
}
