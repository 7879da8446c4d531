// Numbers in lines.
ghost use Rattle.std.specs.Prelude.{◌≡◌, ◌+◌, ◌<◌, ◌≤◌, ◌++◌};
ghost use Rattle.arrayvec.specs.ArrayString.{array_string_len};
ghost use Rattle.bit_laws.specs.Digits.{hex_digit, hex_digits};

use arrayvec::ArrayString;

/// A line of text, of at most 240 bytes.
pub type LineBuf = ArrayString<240>;

// The bits of a hexadecimal digit, and how many values it has.
const DIGIT_BITS: u32 = 4;

const RADIX: u32 = 16;

/// Appends that many of the lowest hexadecimal digits of a number, in lower case.
pub fn push_hex(line: &mut LineBuf, digits: u32, value: u32)
    requires digits { digits ≤ 8 }
    requires room { array_string_len line.old + digits ≤ 240 }
    ensures text { line.new.bytes ≡ line.old.bytes ++ hex_digits digits value }
    ensures room { array_string_len line.new ≡ array_string_len line.old + digits }
{
    for place in (0..digits).rev() {
        line.push(hex_glyph((value >> (DIGIT_BITS * place)) % RADIX));
    }
}

// A hexadecimal digit, in lower case.
fn hex_glyph(digit: u32) -> char
    requires { digit < 16 }
    ensures code { result ≡ hex_digit digit }
    ensures ascii { result < 128 }
{
    if digit < 10 {
        (b'0' + digit as u8) as char
    } else {
        (b'a' + (digit as u8 - 10)) as char
    }
}
