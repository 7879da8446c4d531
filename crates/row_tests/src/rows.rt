//! Rows of three bits, changed under a mask, and the ends of rows of many lengths.
use bit_rows::Row;
use std::alloc::Global;
use std::test::Fail;

// What is done to a row; only the first bit of the mask is set.
#[derive(Clone, Copy)]
enum Change {
    And,
    Or,
    Invert,
    Fill,
    Clear,
    Copied,
    // each place is cleared where the mask has not this bit
    Match(bool),
    // this bit is written where the mask's bit is set
    Write(bool),
}

// A row of three bits before and after a change.
#[derive(Clone, Copy)]
struct Changed {
    before: [bool; 3],
    by: Change,
    after: [bool; 3],
}

#[rattlefmt::skip]
const CHANGED: [Changed; 9] = [
    Changed { before: [true, true, false], by: Change::And, after: [true, false, false] },
    Changed { before: [true, false, false], by: Change::Invert, after: [false, true, true] },
    Changed { before: [false, true, true], by: Change::Write(true), after: [true, true, true] },
    Changed { before: [true, true, true], by: Change::Match(false), after: [false, true, true] },
    Changed { before: [false, true, true], by: Change::Match(true), after: [false, false, false] },
    Changed { before: [false, false, false], by: Change::Or, after: [true, false, false] },
    Changed { before: [true, false, false], by: Change::Fill, after: [true, true, true] },
    Changed { before: [true, true, true], by: Change::Copied, after: [true, false, false] },
    Changed { before: [true, false, false], by: Change::Clear, after: [false, false, false] },
];

fn is_changed(alloc: Global, row: Changed) -> Result<bool, Fail> {
    let mask = row_of(alloc, [true, false, false])?;
    let mut bits = row_of(alloc, row.before)?;
    if bits.len() != mask.len() {
        return Ok(false);
    }
    match row.by {
        Change::And => bits.and_with(&mask),
        Change::Or => bits.or_with(&mask),
        Change::Invert => bits.invert(),
        Change::Fill => bits.fill(),
        Change::Clear => bits.clear(),
        Change::Copied => bits.copy_from(&mask),
        Change::Match(want) => mask.match_into(want, &mut bits),
        Change::Write(bit) => bits.write_where(&mask, bit),
    }
    Ok(has_bits(&bits, row.after))
}

fn row_of(alloc: Global, bits: [bool; 3]) -> Result<Row, Fail> {
    let mut row = Row::new(alloc, 3)?;
    row.set(0, bits[0]);
    row.set(1, bits[1]);
    row.set(2, bits[2]);
    Ok(row)
}

fn has_bits(row: &Row, bits: [bool; 3]) -> bool {
    row.len() == 3 && [row.get(0), row.get(1), row.get(2)] == bits
}

#[test]
fn rows_are_taken_together(rt: HostRuntime) -> Result<(), Fail> {
    for (i, row) in CHANGED.iter().enumerate() {
        assert!(rt; is_changed(rt.alloc(), *row)?, "row {i}");
    }
    Ok(())
}

// The count and the first place of a row of zeros, where its last bit is set then or not, and all are
// inverted then or not.
#[derive(Clone, Copy)]
struct Ends {
    len: u32,
    last: bool,
    inverted: bool,
    count: u32,
    first: Option<u32>,
}

#[rattlefmt::skip]
const ENDS: [Ends; 15] = [
    Ends { len: 1, last: false, inverted: false, count: 0, first: None },
    Ends { len: 1, last: true, inverted: false, count: 1, first: Some(0) },
    Ends { len: 1, last: true, inverted: true, count: 0, first: None },
    Ends { len: 63, last: false, inverted: false, count: 0, first: None },
    Ends { len: 63, last: true, inverted: false, count: 1, first: Some(62) },
    Ends { len: 63, last: true, inverted: true, count: 62, first: Some(0) },
    Ends { len: 64, last: false, inverted: false, count: 0, first: None },
    Ends { len: 64, last: true, inverted: false, count: 1, first: Some(63) },
    Ends { len: 64, last: true, inverted: true, count: 63, first: Some(0) },
    Ends { len: 65, last: false, inverted: false, count: 0, first: None },
    Ends { len: 65, last: true, inverted: false, count: 1, first: Some(64) },
    Ends { len: 65, last: true, inverted: true, count: 64, first: Some(0) },
    Ends { len: 2048, last: false, inverted: false, count: 0, first: None },
    Ends { len: 2048, last: true, inverted: false, count: 1, first: Some(2047) },
    Ends { len: 2048, last: true, inverted: true, count: 2047, first: Some(0) },
];

fn are_found(alloc: Global, row: Ends) -> Result<bool, Fail> {
    if row.len == 0 || row.len > 2048 {
        return Ok(false);
    }
    let mut bits = Row::new(alloc, row.len)?;
    if row.last {
        bits.set(row.len - 1, true);
    }
    if row.inverted {
        bits.invert();
    }
    Ok(bits.count() == row.count && bits.first() == row.first)
}

#[test]
fn ends_are_counted_and_found(rt: HostRuntime) -> Result<(), Fail> {
    for (i, row) in ENDS.iter().enumerate() {
        assert!(rt; are_found(rt.alloc(), *row)?, "row {i}");
    }
    Ok(())
}
