//! What a line of the input asks.
ghost use Rattle.std.specs.Prelude.{◌≡◌, option_map};
ghost use Rattle.library_probe.specs.Forms.{asked_by, listed_by, place_by, question_by, texts_of, view_of};

use crate::numbers::{byte_of, decimal_of, hexadecimal_of};
use crate::words::Question;
use micro_ir::Place;

// The first words of lines.
const KIND: &str = "kind";

const WORD: &str = "word";

const TEXT: &str = "text";

/// What a line asks.
#[derive(Clone, Copy)]
pub(crate) enum Asked<'a> {
    /// The list of a kind: its name, the width of the elements, and the rows.
    Kind {
        name: &'a str,
        width: &'a str,
        at: Place,
    },
    /// What a vector word means, and whether it is legal.
    Word(Question),
}

// The place of the rows of two operands and of a result, where these are all the words.
fn place_in(words: &[&str]) -> Option<Place>
    ensures { result ≡ place_by (texts_of words.now) }
{
    let [a, b, to] = words else {
        return None;
    };
    let (a, b, to) = (byte_of(a)?, byte_of(b)?, byte_of(to)?);
    Some(Place {
        a,
        b,
        addend: to,
        to,
        sub: false,
        mode: 0,
    })
}

// A question on a vector word, where these are all the words.
fn question_in(words: &[&str]) -> Option<Question>
    ensures { result ≡ question_by (texts_of words.now) }
{
    let [word, vtype, vstart, vlen] = words else {
        return None;
    };
    Some(Question {
        word: hexadecimal_of(word)?,
        vtype: hexadecimal_of(vtype)?,
        vstart: decimal_of(vstart)?,
        vlen: decimal_of(vlen)?,
    })
}

/// The word whose listing the words of a line ask, or `None` where they have another form.
pub(crate) fn listed_word(words: &[&str]) -> Option<u32>
    ensures { result ≡ listed_by (texts_of words.now) }
{
    let [first, word] = words else {
        return None;
    };
    if *first == TEXT {
        hexadecimal_of(word)
    } else {
        None
    }
}

/// What the words of a line ask, or `None` where they have another form.
pub(crate) fn asked_in<'a>(words: &[&'a str]) -> Option<Asked<'a>>
    ensures { option_map view_of result ≡ asked_by (texts_of words.now) }
{
    match words {
        [first, name, width, rows @ ..] if *first == KIND => Some(Asked::Kind {
            name,
            width,
            at: place_in(rows)?,
        }),
        [first, rest @ ..] if *first == WORD => Some(Asked::Word(question_in(rest)?)),
        _ => None,
    }
}
