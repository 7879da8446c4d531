// The formats of words: reading the operands of an instruction, and putting them back.
ghost use Rattle.std.specs.Prelude.{◌≡◌};
ghost use Rattle.rv32_decode.specs.Formats.{HasRegisters, instruction};
ghost use Rattle.rv32_decode.specs.Spelling.{placed};

use crate::fields::{RD, RS1, RS2, bits_at, extend_sign, rd, rs1, rs2};
use crate::instruction::Instr;
use crate::operations::Op;

// The formats of the standard; a shift by an immediate, which has an amount of 5 bits; the words whose 12 highest bits
// are a number with no sign; and the words with no operand.
#[derive(Clone, Copy)]
pub enum Format {
    R,
    I,
    S,
    B,
    U,
    J,
    Shift,
    Unsigned,
    Bare,
}

pub fn r_type(op: Op, word: u32) -> Instr
    ensures { result ≡ instruction Format.R op word }
{
    Instr {
        op,
        rd: rd(word),
        rs1: rs1(word),
        rs2: rs2(word),
        imm: 0,
    }
}

pub fn i_type(op: Op, word: u32) -> Instr
    ensures { result ≡ instruction Format.I op word }
{
    Instr {
        op,
        rd: rd(word),
        rs1: rs1(word),
        rs2: 0,
        imm: extend_sign(bits_at(word, 20, 12), 12),
    }
}

pub fn s_type(op: Op, word: u32) -> Instr
    ensures { result ≡ instruction Format.S op word }
{
    let offset = bits_at(word, 7, 5) | bits_at(word, 25, 7) << 5;
    Instr {
        op,
        rd: 0,
        rs1: rs1(word),
        rs2: rs2(word),
        imm: extend_sign(offset, 12),
    }
}

pub fn b_type(op: Op, word: u32) -> Instr
    ensures { result ≡ instruction Format.B op word }
{
    let offset = bits_at(word, 8, 4) << 1
        | bits_at(word, 25, 6) << 5
        | bits_at(word, 7, 1) << 11
        | bits_at(word, 31, 1) << 12;
    Instr {
        op,
        rd: 0,
        rs1: rs1(word),
        rs2: rs2(word),
        imm: extend_sign(offset, 13),
    }
}

pub fn u_type(op: Op, word: u32) -> Instr
    ensures { result ≡ instruction Format.U op word }
{
    Instr {
        op,
        rd: rd(word),
        rs1: 0,
        rs2: 0,
        imm: bits_at(word, 12, 20) << 12,
    }
}

pub fn j_type(op: Op, word: u32) -> Instr
    ensures { result ≡ instruction Format.J op word }
{
    let offset = bits_at(word, 21, 10) << 1
        | bits_at(word, 20, 1) << 11
        | bits_at(word, 12, 8) << 12
        | bits_at(word, 31, 1) << 20;
    Instr {
        op,
        rd: rd(word),
        rs1: 0,
        rs2: 0,
        imm: extend_sign(offset, 21),
    }
}

pub fn shift(op: Op, word: u32) -> Instr
    ensures { result ≡ instruction Format.Shift op word }
{
    Instr {
        op,
        rd: rd(word),
        rs1: rs1(word),
        rs2: 0,
        imm: bits_at(word, 20, 5),
    }
}

pub fn unsigned(op: Op, word: u32) -> Instr
    ensures { result ≡ instruction Format.Unsigned op word }
{
    Instr {
        op,
        rd: rd(word),
        rs1: rs1(word),
        rs2: 0,
        imm: bits_at(word, 20, 12),
    }
}

pub fn bare(op: Op) -> Instr
    ensures { result ≡ record { op = op; rd = 0; rs1 = 0; rs2 = 0; imm = 0 } }
{
    Instr {
        op,
        rd: 0,
        rs1: 0,
        rs2: 0,
        imm: 0,
    }
}

// The bits of an instruction's operands in their places.
pub fn operands(format: Format, i: &Instr) -> u32
    requires { HasRegisters i.now }
    ensures { result ≡ placed format i.now }
{
    let rd = u32::from(i.rd) << RD;
    let rs1 = u32::from(i.rs1) << RS1;
    let rs2 = u32::from(i.rs2) << RS2;
    let imm = i.imm;
    match format {
        Format::R => rd | rs1 | rs2,
        Format::I | Format::Unsigned => rd | rs1 | bits_at(imm, 0, 12) << 20,
        Format::S => bits_at(imm, 0, 5) << 7 | rs1 | rs2 | bits_at(imm, 5, 7) << 25,
        Format::B => {
            bits_at(imm, 11, 1) << 7
                | bits_at(imm, 1, 4) << 8
                | rs1
                | rs2
                | bits_at(imm, 5, 6) << 25
                | bits_at(imm, 12, 1) << 31
        }
        Format::U => rd | bits_at(imm, 12, 20) << 12,
        Format::J => {
            rd | bits_at(imm, 12, 8) << 12
                | bits_at(imm, 11, 1) << 20
                | bits_at(imm, 1, 10) << 21
                | bits_at(imm, 20, 1) << 31
        }
        Format::Shift => rd | rs1 | bits_at(imm, 0, 5) << 20,
        Format::Bare => 0,
    }
}
