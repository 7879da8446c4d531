// Sources over memory: what they give, call by call.
use crate::logs::takes;
use cape_io::{MemSource, SureSource};
use std::alloc::{AllocError as NoMemory, Global};
use std::test::Fail;

// The bytes of a source, how many it gives at most a call, the calls that fail, the calls made, and their log.
#[derive(Clone, Copy)]
struct Row {
    bytes: &'static [u8],
    step: usize,
    fails: &'static [u64],
    calls: usize,
    log: &'static [u8],
}

// The buffer of four bytes is less than the step of the second row.
const SURE: [Row; 2] = [
    Row {
        bytes: b"abcdefg",
        step: 3,
        fails: &[],
        calls: 4,
        log: b"abc|def|g||",
    },
    Row {
        bytes: b"abcdefg",
        step: 9,
        fails: &[],
        calls: 3,
        log: b"abcd|efg||",
    },
];

// The second and the fifth call of the first row fail, and move nothing.
const LISTED: [Row; 2] = [
    Row {
        bytes: b"abcdefg",
        step: 3,
        fails: &[1, 4],
        calls: 6,
        log: b"abc|!|def|g|!||",
    },
    Row {
        bytes: b"",
        step: 1,
        fails: &[],
        calls: 2,
        log: b"||",
    },
];

fn sure_source_gives(alloc: Global, row: &Row) -> Result<bool, NoMemory> {
    if row.step == 0 {
        return Ok(false);
    }
    let mut source = SureSource::new(alloc, row.bytes, row.step)?;
    let log = takes(alloc, &mut source, row.calls)?;
    Ok(log.as_slice() == row.log)
}

fn source_gives(alloc: Global, row: &Row) -> Result<bool, NoMemory> {
    if row.step == 0 {
        return Ok(false);
    }
    let mut source = MemSource::new(alloc, row.bytes, row.step, row.fails)?;
    let log = takes(alloc, &mut source, row.calls)?;
    Ok(log.as_slice() == row.log)
}

#[test]
fn sources_that_never_fail(rt: HostRuntime) -> Result<(), Fail> {
    for (i, row) in SURE.iter().enumerate() {
        assert!(rt; sure_source_gives(rt.alloc(), row)?, "row {i}");
    }
    Ok(())
}

#[test]
fn sources_that_fail_at_listed_calls(rt: HostRuntime) -> Result<(), Fail> {
    for (i, row) in LISTED.iter().enumerate() {
        assert!(rt; source_gives(rt.alloc(), row)?, "row {i}");
    }
    Ok(())
}
