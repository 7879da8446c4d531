//! The fields of a vector word (version 1.0 of the vector extension, sections 5, 6, 7 and 10.1).
ghost use Rattle.std.specs.Prelude.{◌≡◌, ◌==◌, ◌||◌, ◌<◌};
ghost use Rattle.word_rows.specs.Field.{field};

// Opcodes: vector loads, vector stores, arithmetic and configuration.
pub(crate) const LOAD_FP: u32 = 0b0000111;

pub(crate) const STORE_FP: u32 = 0b0100111;

pub(crate) const OP_V: u32 = 0b1010111;

// The values of funct3 under OP_V.
pub(crate) const OPIVV: u32 = 0b000;

pub(crate) const OPMVV: u32 = 0b010;

pub(crate) const OPIVI: u32 = 0b011;

pub(crate) const OPIVX: u32 = 0b100;

pub(crate) const OPMVX: u32 = 0b110;

pub(crate) const OPCFG: u32 = 0b111;

// The widths of vector elements in loads and stores, in the place of funct3; other values are of floating-point words.
pub(crate) const WIDTH_8: u32 = 0b000;

pub(crate) const WIDTH_16: u32 = 0b101;

pub(crate) const WIDTH_32: u32 = 0b110;

// The addressing modes of loads and stores.
pub(crate) const UNIT_STRIDE: u32 = 0b00;

pub(crate) const INDEXED_UNORDERED: u32 = 0b01;

pub(crate) const STRIDED: u32 = 0b10;

pub(crate) const INDEXED_ORDERED: u32 = 0b11;

// The highest bits of configuration words: bits 31:30 of vsetivli, bits 31:25 of vsetvl. Bit 31 of vsetvli is 0.
pub(crate) const VSETIVLI: u32 = 0b11;

pub(crate) const VSETVL: u32 = 0b1000000;

// The lowest bits of the fields.
pub(crate) const VD_AT: u32 = 7;

pub(crate) const FUNCT3_AT: u32 = 12;

pub(crate) const VS1_AT: u32 = 15;

pub(crate) const VS2_AT: u32 = 20;

pub(crate) const ZIMM_AT: u32 = 20;

pub(crate) const VM_AT: u32 = 25;

pub(crate) const FUNCT6_AT: u32 = 26;

pub(crate) const MODE_AT: u32 = 26;

pub(crate) const MEW_AT: u32 = 28;

pub(crate) const NF_AT: u32 = 29;

pub(crate) const VSETIVLI_AT: u32 = 30;

pub(crate) const VSETVL_AT: u32 = 25;

pub(crate) const VSETVLI_AT: u32 = 31;

// How many bits name a register.
const REGISTER_BITS: u32 = 5;

/// The bits from `low` on, `width` of them.
pub(crate) fn bits_at(word: u32, low: u32, width: u32) -> u32
    requires low { low < 32 }
    requires width { width < 32 }
    ensures { result ≡ field low width word }
{
    (word >> low) & ((1 << width) - 1)
}

pub(crate) fn opcode(word: u32) -> u32
    ensures { result ≡ field 0 7 word }
{
    bits_at(word, 0, 7)
}

pub(crate) fn vd(word: u32) -> u8
    ensures { result ≡ field 7 5 word }
{
    bits_at(word, VD_AT, REGISTER_BITS) as u8
}

pub(crate) fn funct3(word: u32) -> u32
    ensures { result ≡ field 12 3 word }
{
    bits_at(word, FUNCT3_AT, 3)
}

pub(crate) fn vs1(word: u32) -> u8
    ensures { result ≡ field 15 5 word }
{
    bits_at(word, VS1_AT, REGISTER_BITS) as u8
}

pub(crate) fn vs2(word: u32) -> u8
    ensures { result ≡ field 20 5 word }
{
    bits_at(word, VS2_AT, REGISTER_BITS) as u8
}

/// Whether no mask applies.
pub(crate) fn vm(word: u32) -> bool
    ensures { result ≡ (field 25 1 word == 1) }
{
    bits_at(word, VM_AT, 1) == 1
}

pub(crate) fn funct6(word: u32) -> u32
    ensures { result ≡ field 26 6 word }
{
    bits_at(word, FUNCT6_AT, 6)
}

/// One less than the number of fields or registers that a load or store moves.
pub(crate) fn nf(word: u32) -> u8
    ensures { result ≡ field 29 3 word }
{
    bits_at(word, NF_AT, 3) as u8
}

/// Whether a whole move, load or store may be of one register more than this: it is of 1, 2, 4 or 8.
pub(crate) fn is_register_count(less_one: u8) -> bool
    ensures { result ≡ (less_one == 0 || less_one == 1 || less_one == 3 || less_one == 7) }
{
    matches!(less_one, 0 | 1 | 3 | 7)
}
