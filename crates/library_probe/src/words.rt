//! What is told of words.
ghost use Rattle.std.specs.Prelude.{◌≡◌};
ghost use Rattle.code_list.specs.Spelling.{listing};
ghost use Rattle.rvv_decode.specs.Rows.{means};
ghost use Rattle.library_probe.specs.Answers.{answer_of};

use code_list::text;
use line_text::LineBuf;
use rvv_decode::decode_v;
use std::fmt;
use vtype_cfg::{Vtype, legal};

/// A word, the bits of the vector type, the first element, and the bits of a vector register.
#[derive(Clone, Copy)]
pub(crate) struct Question {
    pub(crate) word: u32,
    pub(crate) vtype: u32,
    pub(crate) vstart: u32,
    pub(crate) vlen: u32,
}

/// What is told of a word.
#[derive(Clone, Copy, PartialEq, Eq)]
pub(crate) enum Answer {
    /// It has no row in the table of vector words.
    None,
    /// It means an instruction, which has this word, and which is legal or not.
    Row { bits: u32, is_legal: bool },
}

impl fmt::Display for Answer {
    fn fmt<W: fmt::Write>(&self, f: &mut fmt::Formatter<W>) -> fmt::Result {
        match *self {
            Answer::None => f.write_str("none"),
            Answer::Row {
                bits,
                is_legal: true,
            } => write!(f, "{bits:08x} legal"),
            Answer::Row {
                bits,
                is_legal: false,
            } => write!(f, "{bits:08x} illegal"),
        }
    }
}

/// What is told of the word of a question.
pub(crate) fn answer_to(question: &Question) -> Answer
    ensures { result ≡ answer_of question.now (means question.now.word) }
{
    match decode_v(question.word) {
        Some(instruction) => Answer::Row {
            bits: instruction.bits(),
            is_legal: legal(
                &instruction,
                &Vtype::from_bits(question.vtype),
                question.vstart,
                question.vlen,
            ),
        },
        None => Answer::None,
    }
}

/// The listing of a word.
pub(crate) fn listed(word: u32) -> LineBuf
    ensures { result.bytes ≡ listing word }
{
    let mut line = LineBuf::new();
    text(word, &mut line);
    line
}
