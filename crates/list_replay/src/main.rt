//! Replays lists of micro-operations on slices, for comparisons with other models. The input has cases, each of these lines:
//!
//! ```text
//! columns N       a chain of N columns, from 1 to 2,048, whose bits and tags are 0
//! row S R H       row R of subarray S holds the bits H: byte j of the hexadecimal digits has the columns from 8 j on, the
//!                 lowest bit first
//! OPERATION       an operation, by its listing, as `update 00000001 3 1`
//! end             the operations are carried out in their order
//! ```
//!
//! At `end` the slices are written as lines `row S R H` for each row and `tags S H` for the tags of each subarray that are
//! not all 0, by rising subarray, and then `control NUM CLIP` with the control number and the clip flag, which start as 0. A
//! case with a line of another form, or an operation that its chain cannot run, gets `form`.
#![tactic(auto)]

mod case;
mod slices;

use case::Case;
use std::io;
use std::io::{BufRead, BufReader, BufWriter, Write};

// The line that ends a case.
const END: &str = "end";

fn main(rt: HostRuntime) -> io::Result<()> {
    let alloc = rt.alloc();
    let mut out = BufWriter::new(alloc, rt.stdout())?;
    let mut case = Case::new(alloc)?;
    for line in BufReader::new(alloc, rt.stdin())?.lines(alloc) {
        let line = line?;
        let words: Vec<&str> = line.as_str().split_whitespace().collect(alloc)?;
        if line.as_str() == END {
            out.write_all(case.report(alloc)?.as_bytes())?;
        } else {
            case.take_line(alloc, &words)?;
        }
    }
    out.flush()
}
