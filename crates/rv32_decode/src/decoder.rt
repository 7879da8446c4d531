// Decoding, and the law of the table.
ghost use Rattle.std.specs.Prelude.{◌≡◌, IfSome};
ghost use Rattle.word_rows.specs.Rows.{NoTwoFit};
ghost use Rattle.rv32_decode.specs.Formats.{HasRegisters};
ghost use Rattle.rv32_decode.specs.Rows.{means, rows};

use crate::groups::find;
use crate::instruction::Instr;

/// The instruction that a word means by the table of the standard, or `None` where it fits no row. It branches by
/// fields of the word, and takes no memory.
#[tactic(auto, using(crate::proofs::Table::found_is, crate::proofs::Meaning::registers_of_meaning))]
pub fn decode(word: u32) -> Option<Instr>
    ensures means { result ≡ means word }
    ensures fields { IfSome result HasRegisters }
{
    find(word)
}

/// The law of the table: no word fits two of its rows.
#[tactic(auto, using(crate::proofs::Table::rows_apart))]
pub fn no_word_fits_two_rows()
    ensures { NoTwoFit rows }
{}
