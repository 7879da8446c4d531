// The listing of a word.
ghost use Rattle.std.specs.Prelude.{◌≡◌, ◌≤◌, []};
ghost use Rattle.arrayvec.specs.ArrayString.{array_string_len};
ghost use Rattle.code_list.specs.Spelling.{listing, other_spelling, text_of};

use crate::operand::{Operand, Operands, push_operands};
use crate::scalar::push_scalar;
use crate::vector::push_vector;
use line_text::LineBuf;
use rv32_decode::decode;
use rvv_decode::decode_v;

// The hexadecimal digits of a word.
const WORD_DIGITS: u32 = 8;

/// Sets the line to the listing of a word, of at most 130 bytes. Every word has one: that of the instruction that it
/// means, whether this is legal or not, and `.word 0x` with eight hexadecimal digits where it means none.
#[tactic(auto, unfolding(crate::specs::Spelling::listing, crate::specs::Spelling::spelling))]
pub fn text(word: u32, line: &mut LineBuf)
    ensures text { line.new.bytes ≡ listing word }
    ensures short { array_string_len line.new ≤ 130 }
{
    line.clear();
    if let Some(i) = decode(word) {
        push_scalar(line, &i);
    } else if let Some(i) = decode_v(word) {
        push_vector(line, &i);
    } else {
        push_other(line, word);
    }
}

// Appends the listing of a word that means nothing to an empty line.
#[tactic(auto, unfolding(crate::specs::Spelling::other_spelling))]
fn push_other(line: &mut LineBuf, word: u32)
    requires empty { line.old.bytes ≡ [] }
    ensures text { line.new.bytes ≡ text_of (other_spelling word) }
    ensures room { array_string_len line.new ≤ 130 }
{
    let mut operands = Operands::new();
    operands.push(Operand::Hex(WORD_DIGITS, word));
    line.push_str(".word");
    push_operands(line, &operands);
}
