// Words by their opcode, and then by bits 14 to 12 (funct3) and bits 31 to 25 (funct7).
#![tactic(auto, unfolding(crate::specs::Tests::found, crate::specs::Rows::rows, crate::specs::Rows::encoding_of, crate::specs::Rows::operations))]

ghost use Rattle.std.specs.Prelude.{◌≡◌};
ghost use Rattle.rv32_decode.specs.Formats.{opcode_of, f3_of};
ghost use Rattle.rv32_decode.specs.Opcodes as opcode;
ghost use Rattle.rv32_decode.specs.Tests.{found};

use crate::fields::{funct3, funct7, opcode};
use crate::formats::{b_type, bare, i_type, j_type, r_type, s_type, shift, u_type, unsigned};
use crate::instruction::Instr;
use crate::opcodes::{self, BASE, EBREAK, ECALL, MUL_DIV, SUB_SRA};
use crate::operations::Op;

fn branches(word: u32) -> Option<Instr>
    requires { opcode_of word ≡ opcode.branch }
    ensures { result ≡ found word }
{
    let op = match funct3(word) {
        0b000 => Op::Beq,
        0b001 => Op::Bne,
        0b100 => Op::Blt,
        0b101 => Op::Bge,
        0b110 => Op::Bltu,
        0b111 => Op::Bgeu,
        _ => return None,
    };
    Some(b_type(op, word))
}

fn loads(word: u32) -> Option<Instr>
    requires { opcode_of word ≡ opcode.load }
    ensures { result ≡ found word }
{
    let op = match funct3(word) {
        0b000 => Op::Lb,
        0b001 => Op::Lh,
        0b010 => Op::Lw,
        0b100 => Op::Lbu,
        0b101 => Op::Lhu,
        _ => return None,
    };
    Some(i_type(op, word))
}

fn stores(word: u32) -> Option<Instr>
    requires { opcode_of word ≡ opcode.store }
    ensures { result ≡ found word }
{
    let op = match funct3(word) {
        0b000 => Op::Sb,
        0b001 => Op::Sh,
        0b010 => Op::Sw,
        _ => return None,
    };
    Some(s_type(op, word))
}

fn fences(word: u32) -> Option<Instr>
    requires { opcode_of word ≡ opcode.misc_mem }
    ensures { result ≡ found word }
{
    let op = match funct3(word) {
        0b000 => Op::Fence,
        0b001 => Op::FenceI,
        _ => return None,
    };
    Some(unsigned(op, word))
}

fn immediates(word: u32) -> Option<Instr>
    requires { opcode_of word ≡ opcode.op_imm }
    ensures { result ≡ found word }
{
    match funct3(word) {
        0b000 => Some(i_type(Op::Addi, word)),
        0b001 if funct7(word) == BASE => Some(shift(Op::Slli, word)),
        0b010 => Some(i_type(Op::Slti, word)),
        0b011 => Some(i_type(Op::Sltiu, word)),
        0b100 => Some(i_type(Op::Xori, word)),
        0b101 if funct7(word) == BASE => Some(shift(Op::Srli, word)),
        0b101 if funct7(word) == SUB_SRA => Some(shift(Op::Srai, word)),
        0b110 => Some(i_type(Op::Ori, word)),
        0b111 => Some(i_type(Op::Andi, word)),
        _ => None,
    }
}

fn registers(word: u32) -> Option<Instr>
    requires { opcode_of word ≡ opcode.op_reg }
    ensures { result ≡ found word }
{
    let op = match (funct7(word), funct3(word)) {
        (BASE, 0b000) => Op::Add,
        (BASE, 0b001) => Op::Sll,
        (BASE, 0b010) => Op::Slt,
        (BASE, 0b011) => Op::Sltu,
        (BASE, 0b100) => Op::Xor,
        (BASE, 0b101) => Op::Srl,
        (BASE, 0b110) => Op::Or,
        (BASE, 0b111) => Op::And,
        (SUB_SRA, 0b000) => Op::Sub,
        (SUB_SRA, 0b101) => Op::Sra,
        (MUL_DIV, 0b000) => Op::Mul,
        (MUL_DIV, 0b001) => Op::Mulh,
        (MUL_DIV, 0b010) => Op::Mulhsu,
        (MUL_DIV, 0b011) => Op::Mulhu,
        (MUL_DIV, 0b100) => Op::Div,
        (MUL_DIV, 0b101) => Op::Divu,
        (MUL_DIV, 0b110) => Op::Rem,
        (MUL_DIV, 0b111) => Op::Remu,
        _ => return None,
    };
    Some(r_type(op, word))
}

// ecall and ebreak, which fix each bit.
fn environment(word: u32) -> Option<Instr>
    requires opcode { opcode_of word ≡ opcode.system }
    requires f3 { f3_of word ≡ 0 }
    ensures { result ≡ found word }
{
    match word {
        ECALL => Some(bare(Op::Ecall)),
        EBREAK => Some(bare(Op::Ebreak)),
        _ => None,
    }
}

fn systems(word: u32) -> Option<Instr>
    requires { opcode_of word ≡ opcode.system }
    ensures { result ≡ found word }
{
    let op = match funct3(word) {
        0b000 => return environment(word),
        0b001 => Op::Csrrw,
        0b010 => Op::Csrrs,
        0b011 => Op::Csrrc,
        0b101 => Op::Csrrwi,
        0b110 => Op::Csrrsi,
        0b111 => Op::Csrrci,
        _ => return None,
    };
    Some(unsigned(op, word))
}

// What the tests of fields find.
pub fn find(word: u32) -> Option<Instr>
    ensures { result ≡ found word }
{
    match opcode(word) {
        opcodes::LUI => Some(u_type(Op::Lui, word)),
        opcodes::AUIPC => Some(u_type(Op::Auipc, word)),
        opcodes::JAL => Some(j_type(Op::Jal, word)),
        opcodes::JALR if funct3(word) == 0 => Some(i_type(Op::Jalr, word)),
        opcodes::BRANCH => branches(word),
        opcodes::LOAD => loads(word),
        opcodes::STORE => stores(word),
        opcodes::OP_IMM => immediates(word),
        opcodes::OP_REG => registers(word),
        opcodes::MISC_MEM => fences(word),
        opcodes::SYSTEM => systems(word),
        _ => None,
    }
}
