//! Rows that the network writes in a chain of two columns, worked out by hand.
use bit_rows::Planes;
use cam_chain::Chain;
use std::alloc::Global;
use std::test::Fail;
use steer_net::{free, pack_mask, window};

// The bits of two columns, which are the last place of a mask and one more.
const BITS: u32 = 64;

// The register that is the mask, and its words: it has the bits 0, 2, 4, 5, 32 and 33.
const MASK: u8 = 0;

const MASK_WORDS: [u32; 2] = [0x35, 3];

// A row that windows and agnostic elements are written into, what it holds before, and a row beside it that is zero.
const WRITTEN: u8 = 40;

const OLD_WORDS: [u32; 2] = [0x3333_3333, 0x3333_3333];

const BESIDE: u8 = 42;

// The rows of the bits that are packed and of the elements that count. Of eight bits the elements 1, 2, 3 and 7 count,
// and 1, 3 and 6 have their highest bit.
const FROM: u8 = 41;

const FROM_WORDS: [u32; 2] = [0x8040_8000, 0x4080_0000];

const UNDER: u8 = 32;

const UNDER_WORDS: [u32; 2] = [0x8080_8040, 0x8000_0000];

// The rows that are not zero.
#[derive(Clone, Copy)]
struct Filled {
    row: u8,
    words: [u32; 2],
}

#[rattlefmt::skip]
const FILLED: [Filled; 4] = [
    Filled { row: MASK, words: MASK_WORDS },
    Filled { row: WRITTEN, words: OLD_WORDS },
    Filled { row: FROM, words: FROM_WORDS },
    Filled { row: UNDER, words: UNDER_WORDS },
];

fn filled_chain(alloc: Global) -> Result<Chain, Fail> {
    let mut chain = Chain::new(alloc, 2)?;
    for filled in FILLED {
        if filled.row < 64 && chain.columns() == 2 {
            chain.write_word(filled.row, 0, filled.words[0]);
            chain.write_word(filled.row, 1, filled.words[1]);
        }
    }
    Ok(chain)
}

fn holds(chain: &Chain, row: u8, words: [u32; 2]) -> bool {
    row < 64 && chain.columns() == 2 && [chain.read_word(row, 0), chain.read_word(row, 1)] == words
}

// How a window is asked for, and the words that it leaves in its row.
#[derive(Clone, Copy)]
struct Window {
    row: u8,
    width: u8,
    first: u32,
    from: u32,
    to: u32,
    masked: bool,
    words: [u32; 2],
}

#[rattlefmt::skip]
const WINDOWS: [Window; 5] = [
    Window { row: WRITTEN, width: 32, first: 0, from: 1, to: 2, masked: false, words: [0, 0xffff_ffff] },
    // The elements have the numbers 4 to 7.
    Window { row: WRITTEN, width: 16, first: 4, from: 5, to: 7, masked: false, words: [0xffff_0000, 0x0000_ffff] },
    Window { row: WRITTEN, width: 8, first: 0, from: 1, to: 6, masked: true, words: [0x00ff_0000, 0x0000_ffff] },
    Window { row: WRITTEN, width: 1, first: 0, from: 3, to: 33, masked: true, words: [0x30, 1] },
    // The mask is read before it is written.
    Window { row: MASK, width: 8, first: 0, from: 0, to: 8, masked: true, words: [0x00ff_00ff, 0x0000_ffff] },
];

fn is_windowed(alloc: Global, row: Window) -> Result<bool, Fail> {
    let mut chain = filled_chain(alloc)?;
    let done = makes_window(&mut chain, row);
    let mask = if row.row == MASK {
        row.words
    } else {
        MASK_WORDS
    };
    let kept = holds(&chain, MASK, mask) && holds(&chain, BESIDE, [0, 0]);
    Ok(done && kept && holds(&chain, row.row, row.words))
}

fn makes_window<P: Planes>(planes: &mut P, row: Window) -> bool {
    let fits = planes.columns() == 2 && row.to <= BITS;
    if !fits || row.row >= 64 || !matches!(row.width, 1 | 8 | 16 | 32) {
        return false;
    }
    window(
        planes, row.row, row.width, row.first, row.from, row.to, row.masked,
    );
    true
}

#[test]
fn windows_of_each_width(rt: HostRuntime) -> Result<(), Fail> {
    for (i, row) in WINDOWS.iter().enumerate() {
        assert!(rt; is_windowed(rt.alloc(), *row)?, "row {i}");
    }
    Ok(())
}

// How agnostic elements are asked for, and the words that they leave in their row.
#[derive(Clone, Copy)]
struct Free {
    width: u8,
    first: u32,
    from: u32,
    to: u32,
    masked: bool,
    tail: bool,
    off: bool,
    words: [u32; 2],
}

#[rattlefmt::skip]
const FREE: [Free; 5] = [
    Free { width: 8, first: 0, from: 1, to: 6, masked: true, tail: true, off: true, words: [0xff00_ff00, 0xffff_0000] },
    Free { width: 8, first: 0, from: 1, to: 6, masked: true, tail: true, off: false, words: [0, 0xffff_0000] },
    Free { width: 8, first: 0, from: 1, to: 6, masked: true, tail: false, off: true, words: [0xff00_ff00, 0] },
    Free { width: 8, first: 0, from: 1, to: 6, masked: true, tail: false, off: false, words: [0, 0] },
    Free { width: 32, first: 2, from: 0, to: 3, masked: false, tail: true, off: true, words: [0, 0xffff_ffff] },
];

fn is_freed(alloc: Global, row: Free) -> Result<bool, Fail> {
    let mut chain = filled_chain(alloc)?;
    Ok(marks_free(&mut chain, row) && holds(&chain, WRITTEN, row.words))
}

fn marks_free<P: Planes>(planes: &mut P, row: Free) -> bool {
    let fits = planes.columns() == 2 && row.to <= BITS;
    if !fits || !matches!(row.width, 1 | 8 | 16 | 32) {
        return false;
    }
    free(
        planes, WRITTEN, row.width, row.first, row.from, row.to, row.masked, row.tail, row.off,
    );
    true
}

#[test]
fn free_elements(rt: HostRuntime) -> Result<(), Fail> {
    for (i, row) in FREE.iter().enumerate() {
        assert!(rt; is_freed(rt.alloc(), *row)?, "row {i}");
    }
    Ok(())
}

// Where bits are packed, and the words that they leave there.
#[derive(Clone, Copy)]
struct Packed {
    to: u8,
    width: u8,
    first: u32,
    words: [u32; 2],
}

#[rattlefmt::skip]
const PACKED: [Packed; 3] = [
    Packed { to: MASK, width: 8, first: 0, words: [0x3b, 3] },
    // The elements have the numbers 60 to 63.
    Packed { to: 50, width: 16, first: 60, words: [0, 0x3000_0000] },
    Packed { to: UNDER, width: 1, first: 0, words: [0x8000_8000, 0] },
];

fn is_packed(alloc: Global, row: Packed) -> Result<bool, Fail> {
    let mut chain = filled_chain(alloc)?;
    Ok(packs(&mut chain, row) && holds(&chain, row.to, row.words))
}

fn packs<P: Planes>(planes: &mut P, row: Packed) -> bool {
    if planes.columns() != 2 || row.to >= 64 {
        return false;
    }
    match (row.width, row.first) {
        (1, 0) => pack_mask(planes, FROM, UNDER, row.to, 1, 0),
        (8, first) if first <= 56 => pack_mask(planes, FROM, UNDER, row.to, 8, first),
        (16, first) if first <= 60 => pack_mask(planes, FROM, UNDER, row.to, 16, first),
        _ => return false,
    }
    true
}

#[test]
fn the_highest_bits_of_the_elements_that_count(rt: HostRuntime) -> Result<(), Fail> {
    for (i, row) in PACKED.iter().enumerate() {
        assert!(rt; is_packed(rt.alloc(), *row)?, "row {i}");
    }
    Ok(())
}
