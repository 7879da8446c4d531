//! The vector words of the Zve32x profile (version 1.0 of the RISC-V vector extension, sections 18.2 and 19): which
//! instruction a word means, and the word of an instruction.
#![tactic(auto)]

ghost use Rattle.std.specs.Prelude.{◌≡◌, IfSome};
ghost use Rattle.word_rows.specs.Rows.{NoTwoFit};
ghost use Rattle.rvv_decode.specs.Rows.{rows, means};
ghost use Rattle.rvv_decode.specs.Ranges.{IsInRange};

mod encode;
mod fields;
mod instruction;
mod memory;
mod op_v;
mod opi;
mod opm;

use fields::{LOAD_FP, OP_V, STORE_FP, opcode};
pub use instruction::{ConfigOp, Form, MemoryOp, OpiOp, OpmOp, VInstr, VOp};

/// The instruction that a word means: that of its row in the table of vector words, or `None` where it fits no row.
#[tactic(auto, using(crate::proofs::Spelled::fields_in_range, crate::proofs::Table::rows_apart))]
pub fn decode_v(word: u32) -> Option<VInstr>
    ensures means { result ≡ means word }
    ensures fields { IfSome result IsInRange }
    // No word fits two rows.
    ensures unique { NoTwoFit rows }
{
    decode(word)
}

#[tactic(auto, using(crate::proofs::Table::means_found), unfolding(crate::specs::FieldTests::row_found))]
fn decode(word: u32) -> Option<VInstr>
    ensures { result ≡ means word }
{
    match opcode(word) {
        OP_V => op_v::decode(word),
        LOAD_FP => memory::load(word),
        STORE_FP => memory::store(word),
        _ => None,
    }
}
