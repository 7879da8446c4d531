//! Chains of two columns whose tags are counted and found.
use cam_chain::{Chain, Keys};
use reduce_tree::{any, count, first};
use std::alloc::Global;
use std::test::Fail;

const ALL: u32 = u32::MAX;

// The tags of two columns, bit s of a word in subarray s; what the tree says of the selected
// subarrays; and the least place of all.
#[derive(Clone, Copy)]
struct Row {
    tags: [u32; 2],
    subs: u32,
    count: u32,
    any: bool,
    first: Option<u32>,
}

#[rattlefmt::skip]
const ROWS: [Row; 8] = [
    Row { tags: [0, 0], subs: ALL, count: 0, any: false, first: None },
    // the last tag
    Row { tags: [0, 0x8000_0000], subs: ALL, count: 1, any: true, first: Some(63) },
    Row { tags: [0, 0x8000_0000], subs: 0x8000_0000, count: 1, any: true, first: Some(63) },
    Row { tags: [0, 0x8000_0000], subs: 0x7fff_ffff, count: 0, any: false, first: Some(63) },
    // subarray 5 of both columns, and subarray 0 of the second
    Row { tags: [0x20, 0x21], subs: ALL, count: 3, any: true, first: Some(5) },
    Row { tags: [0x20, 0x21], subs: 0x20, count: 2, any: true, first: Some(5) },
    Row { tags: [0x20, 0x21], subs: 0, count: 0, any: false, first: Some(5) },
    Row { tags: [0x20, 0x21], subs: 2, count: 0, any: false, first: Some(5) },
];

fn tagged(alloc: Global, tags: [u32; 2]) -> Result<Chain, Fail> {
    let mut chain = Chain::new(alloc, 2)?;
    chain.write_word(0, 0, tags[0]);
    chain.write_word(0, 1, tags[1]);
    let set = Keys::new(&[(0, true)]).ok_or("a row is a key")?;
    chain.search(ALL, &set, false);
    Ok(chain)
}

fn is_told(alloc: Global, row: Row) -> Result<bool, Fail> {
    let chain = tagged(alloc, row.tags)?;
    let counted = count(&chain, row.subs) == row.count;
    let found = any(&chain, row.subs) == row.any;
    Ok(counted && found && first(&chain) == row.first)
}

#[test]
fn tags_are_counted_and_found(rt: HostRuntime) -> Result<(), Fail> {
    for (i, row) in ROWS.iter().enumerate() {
        assert!(rt; is_told(rt.alloc(), *row)?, "row {i}");
    }
    Ok(())
}
