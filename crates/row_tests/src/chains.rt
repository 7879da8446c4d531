//! Chains after some acts on them, and what they show then, worked out by hand.
use bit_rows::Planes;
use cam_chain::{Chain, Counts, Keys};
use std::alloc::Global;
use std::test::Fail;

const ALL: u32 = u32::MAX;

// More searches, updates or passes than a script makes.
const MANY: u128 = 1_000;

// What is done to a chain.
#[derive(Clone, Copy)]
enum Act {
    Write {
        row: u8,
        col: u32,
        word: u32,
    },
    Search {
        subs: u32,
        keys: &'static [(u8, bool)],
        join: bool,
    },
    Update {
        subs: u32,
        row: u8,
        bit: bool,
    },
    Pass {
        up: bool,
        times: u8,
    },
    // A network sets a bit.
    Set {
        sub: u8,
        row: u8,
        col: u32,
    },
}

// What a chain shows.
#[derive(Clone, Copy)]
enum Shown {
    Columns(u32),
    Word {
        row: u8,
        col: u32,
        word: u32,
    },
    Bit {
        sub: u8,
        row: u8,
        col: u32,
        bit: bool,
    },
    // the tags of a column: bit s of them is that of subarray s
    Tags {
        col: u32,
        tags: u32,
    },
    // one tag, as a network sees it
    Tag {
        sub: u8,
        col: u32,
        tag: bool,
    },
    Counts(Counts),
}

// What is done to a chain of so many columns, one after the other.
#[derive(Clone, Copy)]
struct Script {
    columns: u32,
    acts: &'static [Act],
}

// What is shown after so many acts of a script.
#[derive(Clone, Copy)]
struct Row {
    acts: usize,
    shown: Shown,
}

fn chain_after(alloc: Global, script: Script, acts: usize) -> Result<Option<Chain>, Fail> {
    if script.columns == 0 || script.columns > 2048 {
        return Ok(None);
    }
    let mut chain = Chain::new(alloc, script.columns)?;
    for act in script.acts.iter().take(acts) {
        if !is_done(&mut chain, *act) {
            return Ok(None);
        }
    }
    Ok(Some(chain))
}

fn is_done(chain: &mut Chain, act: Act) -> bool {
    let columns = chain.columns();
    let counts = chain.counts();
    match act {
        Act::Write { row, col, word } if row < 64 && col < columns => chain.write_word(
            row, col, word,
        ),
        Act::Search { subs, keys, join } if counts.searches < MANY => match Keys::new(keys) {
            Some(keys) => chain.search(subs, &keys, join),
            None => return false,
        },
        Act::Update { subs, row, bit } if row < 64 && counts.updates < MANY => chain.update(
            subs, row, bit,
        ),
        Act::Pass { up, times } if times > 0 && times < 32 && counts.passes < MANY => chain.pass(
            up, times,
        ),
        Act::Set { sub, row, col } => return is_set_through(chain, sub, row, col),
        _ => return false,
    }
    true
}

fn is_set_through<P: Planes>(planes: &mut P, sub: u8, row: u8, col: u32) -> bool {
    if sub >= 32 || row >= 64 || col >= planes.columns() {
        return false;
    }
    planes.set_bit(sub, row, col, true);
    true
}

fn is_shown(chain: &Chain, shown: Shown) -> bool {
    let columns = chain.columns();
    match shown {
        Shown::Columns(wanted) => columns == wanted,
        Shown::Word { row, col, word } => row < 64
            && col < columns
            && chain.read_word(row, col) == word,
        Shown::Bit { sub, row, col, bit } => {
            sub < 32 && row < 64 && col < columns && chain.row(sub, row).get(col) == bit
        }
        Shown::Tags { col, tags } => has_tags(chain, col, tags),
        Shown::Tag { sub, col, tag } => is_tag_through(chain, sub, col, tag),
        Shown::Counts(counts) => chain.counts() == counts,
    }
}

fn has_tags(chain: &Chain, col: u32, tags: u32) -> bool {
    for sub in 0..32u8 {
        if col >= chain.columns() || chain.tags(sub).get(col) != ((tags >> sub) & 1 == 1) {
            return false;
        }
    }
    true
}

fn is_tag_through<P: Planes>(planes: &P, sub: u8, col: u32, tag: bool) -> bool {
    sub < 32 && col < planes.columns() && planes.tag(sub, col) == tag
}

fn shows(alloc: Global, script: Script, row: Row) -> Result<bool, Fail> {
    match chain_after(alloc, script, row.acts)? {
        Some(chain) => Ok(is_shown(&chain, row.shown)),
        None => Ok(false),
    }
}

#[rattlefmt::skip]
const WORDS: Script = Script {
    columns: 3,
    acts: &[Act::Write { row: 7, col: 1, word: 0x8000_0005 }],
};

#[rattlefmt::skip]
const WORDS_SHOWN: [Row; 12] = [
    Row { acts: 0, shown: Shown::Columns(3) },
    Row { acts: 1, shown: Shown::Word { row: 7, col: 1, word: 0x8000_0005 } },
    Row { acts: 1, shown: Shown::Word { row: 7, col: 0, word: 0 } },
    Row { acts: 1, shown: Shown::Word { row: 7, col: 2, word: 0 } },
    Row { acts: 1, shown: Shown::Word { row: 6, col: 1, word: 0 } },
    Row { acts: 1, shown: Shown::Word { row: 8, col: 1, word: 0 } },
    Row { acts: 1, shown: Shown::Bit { sub: 0, row: 7, col: 1, bit: true } },
    Row { acts: 1, shown: Shown::Bit { sub: 1, row: 7, col: 1, bit: false } },
    Row { acts: 1, shown: Shown::Bit { sub: 2, row: 7, col: 1, bit: true } },
    Row { acts: 1, shown: Shown::Bit { sub: 30, row: 7, col: 1, bit: false } },
    Row { acts: 1, shown: Shown::Bit { sub: 31, row: 7, col: 1, bit: true } },
    Row { acts: 1, shown: Shown::Counts(Counts { searches: 0, updates: 0, passes: 0 }) },
];

#[test]
fn words_go_across_the_subarrays(rt: HostRuntime) -> Result<(), Fail> {
    for (i, row) in WORDS_SHOWN.iter().enumerate() {
        assert!(rt; shows(rt.alloc(), WORDS, *row)?, "row {i}");
    }
    Ok(())
}

// In subarray 0 column 0 has row 4 and column 1 has row 5.
#[rattlefmt::skip]
const SEARCHES: Script = Script {
    columns: 3,
    acts: &[
        Act::Write { row: 4, col: 0, word: 1 },
        Act::Write { row: 5, col: 1, word: 1 },
        Act::Search { subs: 1, keys: &[(4, true)], join: false },
        Act::Search { subs: 1, keys: &[(5, true)], join: true },
        Act::Search { subs: 1, keys: &[(4, false), (5, false)], join: false },
        Act::Search { subs: 0x8000_0000, keys: &[], join: false },
    ],
};

#[rattlefmt::skip]
const SEARCHES_SHOWN: [Row; 12] = [
    Row { acts: 3, shown: Shown::Tags { col: 0, tags: 1 } },
    Row { acts: 3, shown: Shown::Tags { col: 1, tags: 0 } },
    Row { acts: 3, shown: Shown::Tags { col: 2, tags: 0 } },
    Row { acts: 4, shown: Shown::Tags { col: 0, tags: 1 } },
    Row { acts: 4, shown: Shown::Tags { col: 1, tags: 1 } },
    Row { acts: 4, shown: Shown::Tags { col: 2, tags: 0 } },
    Row { acts: 5, shown: Shown::Tags { col: 0, tags: 0 } },
    Row { acts: 5, shown: Shown::Tags { col: 1, tags: 0 } },
    Row { acts: 5, shown: Shown::Tags { col: 2, tags: 1 } },
    Row { acts: 6, shown: Shown::Tags { col: 0, tags: 0x8000_0000 } },
    Row { acts: 6, shown: Shown::Tags { col: 2, tags: 0x8000_0001 } },
    Row { acts: 6, shown: Shown::Counts(Counts { searches: 4, updates: 0, passes: 0 }) },
];

#[test]
fn searches_set_or_join(rt: HostRuntime) -> Result<(), Fail> {
    for (i, row) in SEARCHES_SHOWN.iter().enumerate() {
        assert!(rt; shows(rt.alloc(), SEARCHES, *row)?, "row {i}");
    }
    Ok(())
}

// Column 1 is tagged in subarrays 0 and 1.
#[rattlefmt::skip]
const UPDATES: Script = Script {
    columns: 2,
    acts: &[
        Act::Write { row: 4, col: 1, word: 3 },
        Act::Search { subs: ALL, keys: &[(4, true)], join: false },
        Act::Update { subs: 1, row: 9, bit: true },
        Act::Update { subs: 0xffff_fffe, row: 9, bit: true },
        Act::Update { subs: 1, row: 9, bit: false },
    ],
};

#[rattlefmt::skip]
const UPDATES_SHOWN: [Row; 7] = [
    Row { acts: 3, shown: Shown::Word { row: 9, col: 0, word: 0 } },
    Row { acts: 3, shown: Shown::Word { row: 9, col: 1, word: 1 } },
    Row { acts: 4, shown: Shown::Word { row: 9, col: 0, word: 0 } },
    Row { acts: 4, shown: Shown::Word { row: 9, col: 1, word: 3 } },
    Row { acts: 5, shown: Shown::Word { row: 9, col: 0, word: 0 } },
    Row { acts: 5, shown: Shown::Word { row: 9, col: 1, word: 2 } },
    Row { acts: 5, shown: Shown::Counts(Counts { searches: 1, updates: 3, passes: 0 }) },
];

#[test]
fn updates_write_tagged_columns(rt: HostRuntime) -> Result<(), Fail> {
    for (i, row) in UPDATES_SHOWN.iter().enumerate() {
        assert!(rt; shows(rt.alloc(), UPDATES, *row)?, "row {i}");
    }
    Ok(())
}

#[rattlefmt::skip]
const PASSES: Script = Script {
    columns: 1,
    acts: &[
        Act::Write { row: 0, col: 0, word: 0x8000_0101 },
        Act::Search { subs: ALL, keys: &[(0, true)], join: false },
        Act::Pass { up: true, times: 1 },
        Act::Pass { up: false, times: 9 },
        Act::Pass { up: true, times: 31 },
        Act::Pass { up: false, times: 31 },
    ],
};

#[rattlefmt::skip]
const PASSES_SHOWN: [Row; 5] = [
    Row { acts: 3, shown: Shown::Tags { col: 0, tags: 0x202 } },
    Row { acts: 4, shown: Shown::Tags { col: 0, tags: 1 } },
    Row { acts: 5, shown: Shown::Tags { col: 0, tags: 0x8000_0000 } },
    Row { acts: 6, shown: Shown::Tags { col: 0, tags: 1 } },
    Row { acts: 6, shown: Shown::Counts(Counts { searches: 1, updates: 0, passes: 72 }) },
];

#[test]
fn passes_move_tags(rt: HostRuntime) -> Result<(), Fail> {
    for (i, row) in PASSES_SHOWN.iter().enumerate() {
        assert!(rt; shows(rt.alloc(), PASSES, *row)?, "row {i}");
    }
    Ok(())
}

#[rattlefmt::skip]
const NETWORK: Script = Script {
    columns: 2,
    acts: &[
        Act::Search { subs: 0x10, keys: &[], join: false },
        Act::Set { sub: 4, row: 9, col: 1 },
        Act::Set { sub: 5, row: 9, col: 1 },
    ],
};

#[rattlefmt::skip]
const NETWORK_SHOWN: [Row; 5] = [
    Row { acts: 2, shown: Shown::Tag { sub: 4, col: 1, tag: true } },
    Row { acts: 3, shown: Shown::Tag { sub: 5, col: 1, tag: false } },
    Row { acts: 3, shown: Shown::Word { row: 9, col: 0, word: 0 } },
    Row { acts: 3, shown: Shown::Word { row: 9, col: 1, word: 0x30 } },
    Row { acts: 3, shown: Shown::Counts(Counts { searches: 1, updates: 0, passes: 0 }) },
];

#[test]
fn networks_write_bits(rt: HostRuntime) -> Result<(), Fail> {
    for (i, row) in NETWORK_SHOWN.iter().enumerate() {
        assert!(rt; shows(rt.alloc(), NETWORK, *row)?, "row {i}");
    }
    Ok(())
}

#[rattlefmt::skip]
const COPIED: Script = Script {
    columns: 2,
    acts: &[
        Act::Write { row: 9, col: 1, word: 0x8000_0001 },
        Act::Search { subs: ALL, keys: &[(9, true)], join: false },
        Act::Pass { up: true, times: 3 },
    ],
};

#[rattlefmt::skip]
const COPIED_SHOWN: [Row; 4] = [
    Row { acts: 3, shown: Shown::Word { row: 9, col: 1, word: 0x8000_0001 } },
    Row { acts: 3, shown: Shown::Word { row: 8, col: 0, word: 0 } },
    Row { acts: 3, shown: Shown::Tags { col: 1, tags: 8 } },
    Row { acts: 3, shown: Shown::Counts(Counts { searches: 1, updates: 0, passes: 3 }) },
];

// The copy had a word of its own.
fn copy_shows(alloc: Global, row: Row) -> Result<bool, Fail> {
    let chain = match chain_after(alloc, COPIED, row.acts)? {
        Some(chain) => chain,
        None => return Ok(false),
    };
    let mut copy = Chain::new(alloc, 2)?;
    copy.write_word(8, 0, 7);
    if copy.columns() != chain.columns() {
        return Ok(false);
    }
    copy.copy_from(&chain);
    Ok(is_shown(&copy, row.shown))
}

#[test]
fn copies_are_equal(rt: HostRuntime) -> Result<(), Fail> {
    for (i, row) in COPIED_SHOWN.iter().enumerate() {
        assert!(rt; copy_shows(rt.alloc(), *row)?, "row {i}");
    }
    Ok(())
}
