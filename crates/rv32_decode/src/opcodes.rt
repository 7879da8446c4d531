// The opcodes, bits 6 to 0 of a word, under the names of the standard's opcode map.
pub const LUI: u32 = 0b011_0111;

pub const AUIPC: u32 = 0b001_0111;

pub const JAL: u32 = 0b110_1111;

pub const JALR: u32 = 0b110_0111;

pub const BRANCH: u32 = 0b110_0011;

pub const LOAD: u32 = 0b000_0011;

pub const STORE: u32 = 0b010_0011;

pub const OP_IMM: u32 = 0b001_0011;

pub const OP_REG: u32 = 0b011_0011;

pub const MISC_MEM: u32 = 0b000_1111;

pub const SYSTEM: u32 = 0b111_0011;

// The words of ecall and ebreak.
pub const ECALL: u32 = 0x0000_0073;

pub const EBREAK: u32 = 0x0010_0073;

// Bits 31 to 25 (funct7) of operations on registers and of shifts by an immediate: those of most, those of sub, sra and
// srai, and those of multiplications and divisions.
pub const BASE: u32 = 0b000_0000;

pub const SUB_SRA: u32 = 0b010_0000;

pub const MUL_DIV: u32 = 0b000_0001;
