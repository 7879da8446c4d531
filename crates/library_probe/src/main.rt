//! Tells what the libraries say of kinds of operation and of words, for comparisons with other models. The first
//! word of a line of the input says what it asks:
//!
//! - `kind` is followed by the name of a kind, the width of its elements, the rows of its two operands and the register of
//!   its result, the last four in decimal, as in `kind add 8 2 3 5`. It gets `kind add width 8 operations 90`, and then a
//!   line for each operation.
//! - `word` is followed by a word and the bits of a vector type, both in hexadecimal, and the first element and the bits of
//!   a register in decimal, as in `word c2432257 00 0 1024`. It gets `none` where the word has no row in the table of vector
//!   words, and else the word of the instruction and whether it is legal, as `c2432257 illegal`.
//! - `text` is followed by a word in hexadecimal, as in `text 02218257`. It gets the listing of the word, as
//!   `vadd.vv v4, v2, v3`.
//!
//! A line of another form gets `form`.
#![tactic(auto)]

mod kinds;
mod lines;
mod lists;
mod numbers;
mod told;
mod words;

use lines::{Asked, asked_in, listed_word};
use std::io;
use std::io::{BufRead, BufReader, BufWriter, Write};
use told::{NO_FORM, told_of};
use words::{answer_to, listed};

fn main(rt: HostRuntime) -> io::Result<()> {
    let alloc = rt.alloc();
    let mut out = BufWriter::new(alloc, rt.stdout())?;
    for line in BufReader::new(alloc, rt.stdin())?.lines(alloc) {
        let line = line?;
        let words: Vec<&str> = line.as_str().split_whitespace().collect(alloc)?;
        match asked_in(&words) {
            Some(Asked::Kind { name, width, at }) => {
                out.write_all(told_of(alloc, name, width, &at)?.as_bytes())?;
            }
            Some(Asked::Word(question)) => writeln!(out, "{}", answer_to(&question))?,
            None => match listed_word(&words) {
                Some(word) => writeln!(out, "{}", listed(word).as_str())?,
                None => out.write_all(NO_FORM.as_bytes())?,
            },
        }
    }
    out.flush()
}
