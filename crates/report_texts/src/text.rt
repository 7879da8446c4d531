// Pieces of text.
ghost use Rattle.std.specs.Prelude.{◌≡◌, ◌+◌, ◌<◌, ◌≤◌, ◌++◌, is_ok};
ghost use Rattle.cape_io.specs.Views.{Writes};
ghost use Rattle.arrayvec.specs.ArrayString.{array_string_len};
ghost use Rattle.bit_laws.specs.Digits.{hex_word};
ghost use Rattle.report_texts.specs.StateTexts.{hex_byte};

use cape_io::{Failed, Sink};
use line_text::{LineBuf, push_hex};

// The hexadecimal digits of a byte and of a word.
const BYTE_DIGITS: u32 = 2;

const WORD_DIGITS: u32 = 8;

// Appends a number in eight hexadecimal digits, in lower case.
#[tactic(auto, unfolding(bit_laws::specs::Digits::hex_word))]
pub(crate) fn push_word(line: &mut LineBuf, value: u32)
    requires { array_string_len line.old + 8 ≤ 240 }
    ensures text { line.new.bytes ≡ line.old.bytes ++ hex_word value }
    ensures room { array_string_len line.new ≡ array_string_len line.old + 8 }
{
    push_hex(line, WORD_DIGITS, value);
}

// Appends a byte in two hexadecimal digits, in lower case.
#[tactic(auto, unfolding(crate::specs::StateTexts::hex_byte))]
pub(crate) fn push_byte(line: &mut LineBuf, value: u8)
    requires { array_string_len line.old + 2 ≤ 240 }
    ensures text { line.new.bytes ≡ line.old.bytes ++ hex_byte value }
    ensures room { array_string_len line.new ≡ array_string_len line.old + 2 }
{
    push_hex(line, BYTE_DIGITS, u32::from(value));
}

/// Writes a line; at `Failed` it wrote some prefix of it.
#[tactic(auto, using(cape_io::proofs::Writing::writes_put))]
pub fn write_line<E: Sink>(line: &LineBuf, err: &mut E) -> Result<(), Failed>
    ensures { Writes E.Sink line.now.bytes (is_ok result) err.old err.new }
{
    err.put(line.as_str().as_bytes())
}
