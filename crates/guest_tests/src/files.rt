// Files over memory: what the file of a word gives, call by call.
use crate::logs::{reads, words};
use cape_io::{MemFiles, SureFiles};
use std::alloc::{AllocError as NoMemory, Global};
use std::test::Fail;

// The files hold an image and an input; the word between them has no file.
const WORDS: [&str; 3] = ["image", "none", "input"];

// How often a file that opened is asked for bytes.
const CALLS: usize = 3;

// The place of the word, the calls that fail, where the opening is call 0, and the log.
#[derive(Clone, Copy)]
struct Row {
    place: usize,
    fails: &'static [u64],
    log: &'static [u8],
}

const LISTED: [Row; 6] = [
    Row {
        place: 0,
        fails: &[],
        log: b"abcd|e||",
    },
    Row {
        place: 1,
        fails: &[],
        log: b"!",
    },
    Row {
        place: 2,
        fails: &[],
        log: b"xy|||",
    },
    Row {
        place: 0,
        fails: &[0],
        log: b"!",
    },
    Row {
        place: 0,
        fails: &[1],
        log: b"!|abcd|e|",
    },
    Row {
        place: 0,
        fails: &[2, 9],
        log: b"abcd|!|e|",
    },
];

const SURE: [Row; 3] = [
    Row {
        place: 0,
        fails: &[],
        log: b"abcd|e||",
    },
    Row {
        place: 1,
        fails: &[],
        log: b"|||",
    },
    Row {
        place: 2,
        fails: &[],
        log: b"xy|||",
    },
];

fn file_gives(alloc: Global, words: &[String], row: &Row) -> Result<bool, NoMemory> {
    if words.len() <= row.place {
        return Ok(false);
    }
    let mut files = MemFiles::new(alloc, words, row.fails)?;
    files.add(alloc, "image", b"abcde")?;
    files.add(alloc, "input", b"xy")?;
    let log = reads(alloc, &mut files, row.place, CALLS)?;
    Ok(log.as_slice() == row.log)
}

fn sure_file_gives(alloc: Global, words: &[String], row: &Row) -> Result<bool, NoMemory> {
    if words.len() <= row.place {
        return Ok(false);
    }
    let mut files = SureFiles::new(alloc, words);
    files.add(alloc, "image", b"abcde")?;
    files.add(alloc, "input", b"xy")?;
    let log = reads(alloc, &mut files, row.place, CALLS)?;
    Ok(log.as_slice() == row.log)
}

#[test]
fn files_that_fail_at_listed_calls(rt: HostRuntime) -> Result<(), Fail> {
    let words = words(rt.alloc(), &WORDS)?;
    let words = words.as_slice();
    for (i, row) in LISTED.iter().enumerate() {
        assert!(rt; file_gives(rt.alloc(), words, row)?, "row {i}");
    }
    Ok(())
}

#[test]
fn files_that_never_fail(rt: HostRuntime) -> Result<(), Fail> {
    let words = words(rt.alloc(), &WORDS)?;
    let words = words.as_slice();
    for (i, row) in SURE.iter().enumerate() {
        assert!(rt; sure_file_gives(rt.alloc(), words, row)?, "row {i}");
    }
    Ok(())
}
