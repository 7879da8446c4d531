// Sinks over memory: what they hold, and which puts fail.
use crate::logs::puts;
use cape_io::{MemSink, SureSink};
use std::alloc::{AllocError as NoMemory, Global};
use std::test::Fail;

const PIECES: [&[u8]; 3] = [b"abc", b"de", b"f"];

// The room, the puts that fail with how much they append, the log of the pieces, and the bytes held at the end.
#[derive(Clone, Copy)]
struct Row {
    room: usize,
    fails: &'static [(u64, usize)],
    log: &'static [u8],
    held: &'static [u8],
}

const ROWS: [Row; 6] = [
    Row {
        room: 9,
        fails: &[],
        log: b"|||",
        held: b"abcdef",
    },
    Row {
        room: 9,
        fails: &[(1, 1), (1, 2)],
        log: b"|!||",
        held: b"abcdf",
    },
    Row {
        room: 9,
        fails: &[(0, 7)],
        log: b"!|||",
        held: b"abcdef",
    },
    Row {
        room: 4,
        fails: &[],
        log: b"|!|!|",
        held: b"abcd",
    },
    Row {
        room: 4,
        fails: &[(1, 0)],
        log: b"|!||",
        held: b"abcf",
    },
    Row {
        room: 2,
        fails: &[(0, 7)],
        log: b"!|!|!|",
        held: b"ab",
    },
];

// The pieces that a counting sink takes, their log, and its count.
#[derive(Clone, Copy)]
struct Counted {
    pieces: &'static [&'static [u8]],
    log: &'static [u8],
    len: u64,
}

const COUNTED: [Counted; 2] = [
    Counted {
        pieces: &[],
        log: b"",
        len: 0,
    },
    Counted {
        pieces: &PIECES,
        log: b"|||",
        len: 6,
    },
];

fn sink_holds(alloc: Global, row: &Row) -> Result<bool, NoMemory> {
    let mut sink = MemSink::new(alloc, row.room, row.fails)?;
    let log = puts(alloc, &mut sink, &PIECES)?;
    Ok(log.as_slice() == row.log && sink.bytes() == row.held)
}

fn sink_counts(alloc: Global, row: &Counted) -> Result<bool, NoMemory> {
    let mut sink = SureSink::new();
    let log = puts(alloc, &mut sink, row.pieces)?;
    Ok(log.as_slice() == row.log && sink.len() == row.len)
}

#[test]
fn sinks_with_room_that_fail_at_listed_puts(rt: HostRuntime) -> Result<(), Fail> {
    for (i, row) in ROWS.iter().enumerate() {
        assert!(rt; sink_holds(rt.alloc(), row)?, "row {i}");
    }
    Ok(())
}

#[test]
fn sinks_that_count(rt: HostRuntime) -> Result<(), Fail> {
    for (i, row) in COUNTED.iter().enumerate() {
        assert!(rt; sink_counts(rt.alloc(), row)?, "row {i}");
    }
    Ok(())
}
