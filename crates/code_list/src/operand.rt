// Operands, and their texts.
ghost use Rattle.std.specs.Prelude.{◌≡◌, ◌+◌, ◌*◌, ◌≤◌, ◌++◌, codes, decimal, length, All};
ghost use Rattle.arrayvec.specs.ArrayString.{array_string_len};
ghost use Rattle.bit_laws.specs.Digits.{hex_digits};
ghost use Rattle.code_list.specs.Operands.{IsWritable, operand_text, operands_text, more_text, integer_text};

use arrayvec::ArrayVec;
use itoa::Buffer;
use line_text::{LineBuf, push_hex};

/// An operand of an instruction, as it is written.
#[derive(Clone, Copy, PartialEq, Eq, Default)]
pub enum Operand {
    /// `x` and the number of a scalar register.
    X(u8),
    /// `v` and the number of a vector register.
    V(u8),
    /// A decimal number.
    Number(u8),
    /// A decimal number with its sign, from a word of two's complement.
    Integer(u32),
    /// `0x` and this many of the lowest hexadecimal digits of a number.
    Hex(u32, u32),
    /// A decimal number with its sign, and a scalar register in parentheses.
    Offset(u32, u8),
    /// A scalar register in parentheses.
    Address(u8),
    /// `v0`, of an instruction that has the mask as an operand.
    Carry,
    /// `v0.t`, of an instruction under the mask.
    #[default]
    Mask,
}

/// The operands of an instruction. None has more than four of them.
pub type Operands = ArrayVec<Operand, 5>;

// The words that stand for negative numbers begin here.
const NEGATIVE: u32 = 0x8000_0000;

// Appends some letters and a number.
fn push_register(line: &mut LineBuf, letters: &str, n: u8)
    requires letters { length letters.now ≤ 2 }
    requires room { array_string_len line.old ≤ 200 }
    ensures text { line.new.bytes ≡ line.old.bytes ++ (letters.now ++ decimal n) }
    ensures room { array_string_len line.new ≤ array_string_len line.old + 5 }
{
    let mut digits = Buffer::new();
    line.push_str(letters);
    line.push_str(digits.format(n));
}

// Appends `0x` and some hexadecimal digits.
fn push_based(line: &mut LineBuf, digits: u32, value: u32)
    requires digits { digits ≤ 8 }
    requires room { array_string_len line.old ≤ 200 }
    ensures text { line.new.bytes ≡ line.old.bytes ++ (codes "0x" ++ hex_digits digits value) }
    ensures room { array_string_len line.new ≤ array_string_len line.old + 10 }
{
    line.push_str("0x");
    push_hex(line, digits, value);
}

// Appends a word of two's complement, in decimal.
fn push_integer(line: &mut LineBuf, n: u32)
    requires { array_string_len line.old ≤ 200 }
    ensures text { line.new.bytes ≡ line.old.bytes ++ integer_text n }
    ensures room { array_string_len line.new ≤ array_string_len line.old + 11 }
{
    let mut digits = Buffer::new();
    if n < NEGATIVE {
        line.push_str(digits.format(n));
    } else {
        line.push_str("-");
        line.push_str(digits.format(u32::MAX - n + 1));
    }
}

// Appends an operand.
#[tactic(auto, unfolding(crate::specs::Operands::operand_text))]
fn push_operand(line: &mut LineBuf, operand: Operand)
    requires writable { IsWritable operand }
    requires room { array_string_len line.old ≤ 180 }
    ensures text { line.new.bytes ≡ line.old.bytes ++ operand_text operand }
    ensures room { array_string_len line.new ≤ array_string_len line.old + 18 }
{
    match operand {
        Operand::X(n) => push_register(line, "x", n),
        Operand::V(n) => push_register(line, "v", n),
        Operand::Number(n) => push_register(line, "", n),
        Operand::Integer(n) => push_integer(line, n),
        Operand::Hex(digits, n) => push_based(line, digits, n),
        Operand::Offset(offset, n) => {
            push_integer(line, offset);
            push_register(line, "(x", n);
            line.push_str(")");
        }
        Operand::Address(n) => {
            push_register(line, "(x", n);
            line.push_str(")");
        }
        Operand::Carry => line.push_str("v0"),
        Operand::Mask => line.push_str("v0.t"),
    }
}

// Appends further operands, each after a comma and a space.
#[tactic(auto, unfolding(crate::specs::Operands::more_text))]
fn push_more(line: &mut LineBuf, operands: &[Operand])
    requires writable { All IsWritable operands.now }
    requires few { length operands.now ≤ 4 }
    requires room { array_string_len line.old ≤ 60 }
    ensures text { line.new.bytes ≡ line.old.bytes ++ more_text operands.now }
    ensures room { array_string_len line.new ≤ array_string_len line.old + 20 * length operands.now }
{
    for operand in operands {
        line.push_str(", ");
        push_operand(line, *operand);
    }
}

/// Appends the operands after a mnemonic.
#[tactic(auto, unfolding(crate::specs::Operands::operands_text))]
pub(crate) fn push_operands(line: &mut LineBuf, operands: &Operands)
    requires writable { All IsWritable operands.now.items }
    requires room { array_string_len line.old ≤ 30 }
    ensures text { line.new.bytes ≡ line.old.bytes ++ operands_text operands.now.items }
    ensures room { array_string_len line.new ≤ array_string_len line.old + 100 }
{
    if let [first, more @ ..] = operands.as_slice() {
        line.push_str(" ");
        push_operand(line, *first);
        push_more(line, more);
    }
}
