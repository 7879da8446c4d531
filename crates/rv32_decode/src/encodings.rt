// The encodings of the operations.
ghost use Rattle.std.specs.Prelude.{◌≡◌};
ghost use Rattle.rv32_decode.specs.Rows.{encoding_of};

use crate::fields::{FUNCT3, FUNCT7};
use crate::formats::Format;
use crate::opcodes::{
    AUIPC, BRANCH, EBREAK, ECALL, JAL, JALR, LOAD, LUI, MISC_MEM, MUL_DIV, OP_IMM, OP_REG, STORE,
    SUB_SRA, SYSTEM,
};
use crate::operations::Op;

// The format of an operation's words, and the bits that are the same in all of them.
#[tactic(auto, unfolding(crate::specs::Rows::encoding_of))]
pub fn encoding(op: Op) -> (Format, u32)
    ensures format { result.0 ≡ (encoding_of op).format }
    ensures value { result.1 ≡ (encoding_of op).value }
{
    match op {
        Op::Lui => (Format::U, LUI),
        Op::Auipc => (Format::U, AUIPC),
        Op::Jal => (Format::J, JAL),
        Op::Jalr => (Format::I, JALR),
        Op::Beq => (Format::B, BRANCH),
        Op::Bne => (Format::B, BRANCH | 0b001 << FUNCT3),
        Op::Blt => (Format::B, BRANCH | 0b100 << FUNCT3),
        Op::Bge => (Format::B, BRANCH | 0b101 << FUNCT3),
        Op::Bltu => (Format::B, BRANCH | 0b110 << FUNCT3),
        Op::Bgeu => (Format::B, BRANCH | 0b111 << FUNCT3),
        Op::Lb => (Format::I, LOAD),
        Op::Lh => (Format::I, LOAD | 0b001 << FUNCT3),
        Op::Lw => (Format::I, LOAD | 0b010 << FUNCT3),
        Op::Lbu => (Format::I, LOAD | 0b100 << FUNCT3),
        Op::Lhu => (Format::I, LOAD | 0b101 << FUNCT3),
        Op::Sb => (Format::S, STORE),
        Op::Sh => (Format::S, STORE | 0b001 << FUNCT3),
        Op::Sw => (Format::S, STORE | 0b010 << FUNCT3),
        Op::Addi => (Format::I, OP_IMM),
        Op::Slti => (Format::I, OP_IMM | 0b010 << FUNCT3),
        Op::Sltiu => (Format::I, OP_IMM | 0b011 << FUNCT3),
        Op::Xori => (Format::I, OP_IMM | 0b100 << FUNCT3),
        Op::Ori => (Format::I, OP_IMM | 0b110 << FUNCT3),
        Op::Andi => (Format::I, OP_IMM | 0b111 << FUNCT3),
        Op::Slli => (Format::Shift, OP_IMM | 0b001 << FUNCT3),
        Op::Srli => (Format::Shift, OP_IMM | 0b101 << FUNCT3),
        Op::Srai => (Format::Shift, OP_IMM | 0b101 << FUNCT3 | SUB_SRA << FUNCT7),
        Op::Add => (Format::R, OP_REG),
        Op::Sub => (Format::R, OP_REG | SUB_SRA << FUNCT7),
        Op::Sll => (Format::R, OP_REG | 0b001 << FUNCT3),
        Op::Slt => (Format::R, OP_REG | 0b010 << FUNCT3),
        Op::Sltu => (Format::R, OP_REG | 0b011 << FUNCT3),
        Op::Xor => (Format::R, OP_REG | 0b100 << FUNCT3),
        Op::Srl => (Format::R, OP_REG | 0b101 << FUNCT3),
        Op::Sra => (Format::R, OP_REG | 0b101 << FUNCT3 | SUB_SRA << FUNCT7),
        Op::Or => (Format::R, OP_REG | 0b110 << FUNCT3),
        Op::And => (Format::R, OP_REG | 0b111 << FUNCT3),
        Op::Mul => (Format::R, OP_REG | MUL_DIV << FUNCT7),
        Op::Mulh => (Format::R, OP_REG | 0b001 << FUNCT3 | MUL_DIV << FUNCT7),
        Op::Mulhsu => (Format::R, OP_REG | 0b010 << FUNCT3 | MUL_DIV << FUNCT7),
        Op::Mulhu => (Format::R, OP_REG | 0b011 << FUNCT3 | MUL_DIV << FUNCT7),
        Op::Div => (Format::R, OP_REG | 0b100 << FUNCT3 | MUL_DIV << FUNCT7),
        Op::Divu => (Format::R, OP_REG | 0b101 << FUNCT3 | MUL_DIV << FUNCT7),
        Op::Rem => (Format::R, OP_REG | 0b110 << FUNCT3 | MUL_DIV << FUNCT7),
        Op::Remu => (Format::R, OP_REG | 0b111 << FUNCT3 | MUL_DIV << FUNCT7),
        Op::Fence => (Format::Unsigned, MISC_MEM),
        Op::FenceI => (Format::Unsigned, MISC_MEM | 0b001 << FUNCT3),
        Op::Ecall => (Format::Bare, ECALL),
        Op::Ebreak => (Format::Bare, EBREAK),
        Op::Csrrw => (Format::Unsigned, SYSTEM | 0b001 << FUNCT3),
        Op::Csrrs => (Format::Unsigned, SYSTEM | 0b010 << FUNCT3),
        Op::Csrrc => (Format::Unsigned, SYSTEM | 0b011 << FUNCT3),
        Op::Csrrwi => (Format::Unsigned, SYSTEM | 0b101 << FUNCT3),
        Op::Csrrsi => (Format::Unsigned, SYSTEM | 0b110 << FUNCT3),
        Op::Csrrci => (Format::Unsigned, SYSTEM | 0b111 << FUNCT3),
    }
}
