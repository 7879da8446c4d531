//! Rows that elements are moved into in a chain of two columns, worked out by hand.
use bit_rows::Planes;
use cam_chain::Chain;
use std::alloc::Global;
use std::test::Fail;
use steer_net::{Reach, below, index, narrow, pick, slide, spread};

// Two registers, one after the other, whose 16 bytes are 1 to 16, a row that is written, and what it holds before.
const BASE: u8 = 4;

const NEXT: u8 = 5;

const WRITTEN: u8 = 40;

#[rattlefmt::skip]
const FILLED: [(u8, [u32; 2]); 3] = [
    (BASE, [0x0403_0201, 0x0807_0605]),
    (NEXT, [0x0c0b_0a09, 0x100f_0e0d]),
    (WRITTEN, [0x3333_3333, 0x3333_3333]),
];

// What moves. The first register is what is widened and narrowed, and both are the group.
#[derive(Clone, Copy)]
enum Move {
    Spread {
        narrow: u8,
        wide: u8,
        part: u8,
    },
    Narrow {
        wide: u8,
        part: u8,
    },
    Slide {
        width: u8,
        first: u32,
        up: bool,
        by: u32,
        limit: u32,
    },
    Pick {
        width: u8,
        index: u32,
        limit: u32,
    },
    Index {
        width: u8,
        first: u32,
    },
    Below {
        how: Reach,
        num: u64,
    },
}

// Where it moves to, and the words that it leaves there.
#[derive(Clone, Copy)]
struct Moved {
    to: u8,
    by: Move,
    words: [u32; 2],
}

#[rattlefmt::skip]
const MOVED: [Moved; 27] = [
    Moved { to: WRITTEN, by: Move::Spread { narrow: 8, wide: 16, part: 0 }, words: [0x0002_0001, 0x0004_0003] },
    Moved { to: BASE, by: Move::Spread { narrow: 8, wide: 16, part: 1 }, words: [0x0006_0005, 0x0008_0007] },
    Moved { to: WRITTEN, by: Move::Spread { narrow: 8, wide: 32, part: 3 }, words: [7, 8] },
    Moved { to: WRITTEN, by: Move::Spread { narrow: 1, wide: 8, part: 0 }, words: [1, 0] },
    Moved { to: WRITTEN, by: Move::Narrow { wide: 16, part: 0 }, words: [0x0705_0301, 0x3333_3333] },
    Moved { to: WRITTEN, by: Move::Narrow { wide: 16, part: 1 }, words: [0x3333_3333, 0x0705_0301] },
    Moved { to: WRITTEN, by: Move::Narrow { wide: 32, part: 1 }, words: [0x3333_3333, 0x0605_0201] },
    Moved { to: BASE, by: Move::Narrow { wide: 32, part: 0 }, words: [0x0605_0201, 0x0807_0605] },
    Moved { to: WRITTEN, by: Move::Slide { width: 8, first: 0, up: true, by: 1, limit: 16 }, words: [0x0302_0100, 0x0706_0504] },
    // from the first register into the second, and back
    Moved { to: WRITTEN, by: Move::Slide { width: 8, first: 8, up: true, by: 3, limit: 16 }, words: [0x0908_0706, 0x0d0c_0b0a] },
    Moved { to: WRITTEN, by: Move::Slide { width: 8, first: 0, up: false, by: 5, limit: 16 }, words: [0x0908_0706, 0x0d0c_0b0a] },
    Moved { to: WRITTEN, by: Move::Slide { width: 8, first: 0, up: false, by: 5, limit: 10 }, words: [0x0908_0706, 0x0000_000a] },
    Moved { to: WRITTEN, by: Move::Slide { width: 32, first: 0, up: false, by: 1, limit: 4 }, words: [0x0807_0605, 0x0c0b_0a09] },
    // a register of the group itself
    Moved { to: BASE, by: Move::Slide { width: 8, first: 0, up: false, by: 4, limit: 16 }, words: [0x0807_0605, 0x0c0b_0a09] },
    // farther than there are elements
    Moved { to: WRITTEN, by: Move::Slide { width: 8, first: 8, up: true, by: 16, limit: 16 }, words: [0, 0] },
    Moved { to: WRITTEN, by: Move::Slide { width: 8, first: 1, up: false, by: u32::MAX, limit: 16 }, words: [0, 0] },
    Moved { to: WRITTEN, by: Move::Pick { width: 8, index: 9, limit: 16 }, words: [0x0a0a_0a0a, 0x0a0a_0a0a] },
    Moved { to: WRITTEN, by: Move::Pick { width: 32, index: 3, limit: 4 }, words: [0x100f_0e0d, 0x100f_0e0d] },
    Moved { to: WRITTEN, by: Move::Pick { width: 8, index: 9, limit: 9 }, words: [0, 0] },
    Moved { to: WRITTEN, by: Move::Index { width: 8, first: 250 }, words: [0xfdfc_fbfa, 0x0100_fffe] },
    Moved { to: WRITTEN, by: Move::Index { width: 16, first: 0 }, words: [0x0001_0000, 0x0003_0002] },
    Moved { to: WRITTEN, by: Move::Index { width: 32, first: u32::MAX }, words: [0xffff_ffff, 0] },
    Moved { to: WRITTEN, by: Move::Below { how: Reach::Before, num: 3 }, words: [7, 0] },
    Moved { to: WRITTEN, by: Move::Below { how: Reach::Upto, num: 32 }, words: [0xffff_ffff, 1] },
    Moved { to: WRITTEN, by: Move::Below { how: Reach::At, num: 33 }, words: [0, 2] },
    Moved { to: WRITTEN, by: Move::Below { how: Reach::At, num: 64 }, words: [0, 0] },
    Moved { to: WRITTEN, by: Move::Below { how: Reach::Upto, num: u64::MAX }, words: [0xffff_ffff, 0xffff_ffff] },
];

fn is_moved(alloc: Global, row: Moved) -> Result<bool, Fail> {
    let mut chain = filled_chain(alloc)?;
    let done = moves(&mut chain, row.to, row.by);
    let next = holds(&chain, NEXT, [0x0c0b_0a09, 0x100f_0e0d]);
    Ok(done && next && holds(&chain, row.to, row.words))
}

fn filled_chain(alloc: Global) -> Result<Chain, Fail> {
    let mut chain = Chain::new(alloc, 2)?;
    for (row, words) in FILLED {
        if row < 64 && chain.columns() == 2 {
            chain.write_word(row, 0, words[0]);
            chain.write_word(row, 1, words[1]);
        }
    }
    Ok(chain)
}

fn holds(chain: &Chain, row: u8, words: [u32; 2]) -> bool {
    row < 64 && chain.columns() == 2 && [chain.read_word(row, 0), chain.read_word(row, 1)] == words
}

fn moves<P: Planes>(planes: &mut P, to: u8, by: Move) -> bool {
    if planes.columns() != 2 || to >= 64 {
        return false;
    }
    match by {
        Move::Spread { narrow, wide, part } => widens(planes, to, narrow, wide, part),
        Move::Narrow { wide: 16, part } if part < 2 => {
            narrow(planes, BASE, to, 16, part);
            true
        }
        Move::Narrow { wide: 32, part } if part < 2 => {
            narrow(planes, BASE, to, 32, part);
            true
        }
        Move::Slide {
            width: 8,
            first,
            up,
            by,
            limit,
        } if limit <= 16 => {
            slide(planes, to, BASE, 8, first, up, by, limit);
            true
        }
        Move::Slide {
            width: 32,
            first,
            up,
            by,
            limit,
        } if limit <= 4 => {
            slide(planes, to, BASE, 32, first, up, by, limit);
            true
        }
        Move::Pick {
            width: 8,
            index,
            limit,
        } if limit <= 16 => {
            pick(planes, to, BASE, 8, index, limit);
            true
        }
        Move::Pick {
            width: 32,
            index,
            limit,
        } if limit <= 4 => {
            pick(planes, to, BASE, 32, index, limit);
            true
        }
        Move::Index { width, first } if matches!(width, 1 | 8 | 16 | 32) => {
            index(planes, to, width, first);
            true
        }
        Move::Below { how, num } => {
            below(planes, to, how, num);
            true
        }
        _ => false,
    }
}

fn widens<P: Planes>(planes: &mut P, to: u8, narrow: u8, wide: u8, part: u8) -> bool {
    if to >= 64 {
        return false;
    }
    match (narrow, wide) {
        (8, 16) if part < 2 => spread(planes, BASE, to, 8, 16, part),
        (8, 32) if part < 4 => spread(planes, BASE, to, 8, 32, part),
        (1, 8) if part < 8 => spread(planes, BASE, to, 1, 8, part),
        _ => return false,
    }
    true
}

#[test]
fn elements_that_move(rt: HostRuntime) -> Result<(), Fail> {
    for (i, row) in MOVED.iter().enumerate() {
        assert!(rt; is_moved(rt.alloc(), *row)?, "row {i}");
    }
    Ok(())
}
