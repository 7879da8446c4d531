//! Tells the programs of vector instructions, for comparisons with other models. A line of the input is eight words: the
//! word of the instruction and the bits of a vector type, both in hexadecimal, and the vector length, the first element, the
//! bits of a register and the rounding mode in decimal, what agnostic elements become, `keep` or `ones`, and the scalar, in
//! hexadecimal, as in `02218257 d0 4 0 1024 0 keep 0`.
//!
//! It gets `plan 48`, and then a line for each operation of the program. A word with no row in the table of vector words gets
//! `none`, one that is not legal `illegal`, one that no program of a plan carries out `no plan`, and a line of another form, or
//! whose numbers no vector unit can have, `form`.
#![tactic(auto)]

mod lines;
mod plans;

use lines::question_in;
use micro_ir::MicroBuf;
use plans::push_answer;
use std::io;
use std::io::{BufRead, BufReader, BufWriter, Write};

// The most micro-operations of one instruction.
const ROOM: u32 = 262_144;

// What is told of a line of another form.
const NO_FORM: &[u8] = b"form\n";

fn main(rt: HostRuntime) -> io::Result<()> {
    let alloc = rt.alloc();
    let mut out = BufWriter::new(alloc, rt.stdout())?;
    let mut buf = MicroBuf::new(alloc, ROOM)?;
    for line in BufReader::new(alloc, rt.stdin())?.lines(alloc) {
        let line = line?;
        let words: Vec<&str> = line.as_str().split_whitespace().collect(alloc)?;
        match question_in(&words) {
            Some(question) => {
                out.write_all(push_answer(alloc, &question, &mut buf)?.as_bytes())?;
            }
            None => out.write_all(NO_FORM)?,
        }
    }
    out.flush()
}
