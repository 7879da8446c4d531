//! Operations that move elements, and those that set the control numbers or go by them, each on the tags that a search
//! leaves.
use crate::chains::{Word, chain_of, holds};
use cam_chain::{Chain, Keys};
use micro_ir::{Control, MicroBuf, MicroOp, replay};
use op_texts::are_in_range;
use reduce_tree::How;
use std::alloc::Global;
use std::test::Fail;
use steer_net::Reach;

// The columns of the chain, so that a register has 64 bits.
const COLUMNS: u32 = 2;

// The operations of a list.
const ROOM: u32 = 2;

// The row that is searched for ones, and that the operations write.
const TAGGED_ROW: u8 = 1;

const WRITTEN_ROW: u8 = 3;

// A list, the control number and the words before it, and the control numbers and the words after it.
#[derive(Drop)]
struct Row {
    list: MicroBuf,
    num: u64,
    before: &'static [Word],
    after: &'static [Word],
    control: Control,
}

/// A list that tags the ones of a row, and then has the operation.
fn tagged(alloc: Global, op: MicroOp) -> Result<MicroBuf, Fail> {
    let mut list = MicroBuf::new(alloc, ROOM)?;
    let keys = Keys::new(&[(TAGGED_ROW, true)]).ok_or("keys")?;
    list.push(MicroOp::Search {
        subs: u32::MAX,
        keys,
        join: false,
    });
    list.push(op);
    Ok(list)
}

/// The control numbers after a list, or `None` where a chain cannot run it.
fn carried_out(chain: &mut Chain, list: &MicroBuf, num: u64) -> Option<Control> {
    let counts = chain.counts();
    let counted = counts.searches > 0 || counts.updates > 0 || counts.passes > 0;
    let ops = list.ops();
    if counted || !are_in_range(chain.columns(), ops) {
        return None;
    }
    let mut control = Control { num, clip: false };
    replay(chain, &mut control, list, ops.len() as u32);
    Some(control)
}

/// Whether the list leaves what the row says.
fn ends(alloc: Global, row: &Row) -> Result<bool, Fail> {
    let mut chain = chain_of(alloc, COLUMNS, row.before)?;
    let control = carried_out(&mut chain, &row.list, row.num);
    Ok(control == Some(row.control) && holds(&chain, row.after))
}

/// Whether each list does.
fn all_end(alloc: Global, rows: &[Row]) -> Result<bool, Fail> {
    for row in rows {
        if !ends(alloc, row)? {
            return Ok(false);
        }
    }
    Ok(true)
}

/// The control numbers of a row whose clip flag is 0.
fn number(num: u64) -> Control {
    Control { num, clip: false }
}

#[test]
fn elements_change_their_width(rt: HostRuntime) -> Result<(), Fail> {
    let alloc = rt.alloc();
    let rows = [
        // The bytes 4 to 7 become halves.
        Row {
            list: tagged(
                alloc,
                MicroOp::Spread {
                    from: 2,
                    to: WRITTEN_ROW,
                    narrow: 8,
                    wide: 16,
                    part: 1,
                },
            )?,
            num: 7,
            before: &[Word(2, 1, 0x4433_22f1), Word(WRITTEN_ROW, 0, 0xffff_ffff)],
            after: &[
                Word(WRITTEN_ROW, 0, 0x0022_00f1),
                Word(WRITTEN_ROW, 1, 0x0044_0033),
            ],
            control: number(7),
        },
        // The low bytes of the halves become the bytes 4 to 7.
        Row {
            list: tagged(
                alloc,
                MicroOp::Narrow {
                    from: 2,
                    to: WRITTEN_ROW,
                    wide: 16,
                    part: 1,
                },
            )?,
            num: 7,
            before: &[
                Word(2, 0, 0xaa22_bb11),
                Word(2, 1, 0xcc44_dd33),
                Word(WRITTEN_ROW, 0, 0x0bad_cafe),
            ],
            after: &[
                Word(WRITTEN_ROW, 0, 0x0bad_cafe),
                Word(WRITTEN_ROW, 1, 0x4433_2211),
            ],
            control: number(7),
        },
        // The numbers of bytes wrap.
        Row {
            list: tagged(
                alloc,
                MicroOp::Index {
                    to: WRITTEN_ROW,
                    width: 8,
                    first: 254,
                },
            )?,
            num: 7,
            before: &[],
            after: &[
                Word(WRITTEN_ROW, 0, 0x0100_fffe),
                Word(WRITTEN_ROW, 1, 0x0504_0302),
            ],
            control: number(7),
        },
    ];
    assert!(rt; all_end(alloc, &rows)?);
    Ok(())
}

// A group of two registers, whose bytes are their numbers.
const GROUP: [Word; 4] = [
    Word(4, 0, 0x0302_0100),
    Word(4, 1, 0x0706_0504),
    Word(5, 0, 0x0b0a_0908),
    Word(5, 1, 0x0f0e_0d0c),
];

#[test]
fn elements_come_from_a_group(rt: HostRuntime) -> Result<(), Fail> {
    let alloc = rt.alloc();
    let rows = [
        // The bytes 8 to 15 become those 3 below them.
        Row {
            list: tagged(
                alloc,
                MicroOp::Slide {
                    to: WRITTEN_ROW,
                    base: 4,
                    width: 8,
                    first: 8,
                    up: true,
                    by: 3,
                    limit: 16,
                },
            )?,
            num: 7,
            before: &GROUP,
            after: &[
                Word(WRITTEN_ROW, 0, 0x0807_0605),
                Word(WRITTEN_ROW, 1, 0x0c0b_0a09),
            ],
            control: number(7),
        },
        // The bytes 0 to 7 become those 6 above them, of the first register alone.
        Row {
            list: tagged(
                alloc,
                MicroOp::Slide {
                    to: WRITTEN_ROW,
                    base: 4,
                    width: 8,
                    first: 0,
                    up: false,
                    by: 6,
                    limit: 8,
                },
            )?,
            num: 7,
            before: &GROUP,
            after: &[Word(WRITTEN_ROW, 0, 0x0000_0706), Word(WRITTEN_ROW, 1, 0)],
            control: number(7),
        },
        // Each half becomes half 2.
        Row {
            list: tagged(
                alloc,
                MicroOp::Pick {
                    to: WRITTEN_ROW,
                    base: 4,
                    width: 16,
                    index: 2,
                    limit: 4,
                },
            )?,
            num: 7,
            before: &GROUP,
            after: &[
                Word(WRITTEN_ROW, 0, 0x0504_0504),
                Word(WRITTEN_ROW, 1, 0x0504_0504),
            ],
            control: number(7),
        },
    ];
    assert!(rt; all_end(alloc, &rows)?);
    Ok(())
}

#[test]
fn tags_make_numbers(rt: HostRuntime) -> Result<(), Fail> {
    let alloc = rt.alloc();
    let rows = [
        // Three tags are counted in the lowest 8 subarrays.
        Row {
            list: tagged(
                alloc,
                MicroOp::Count {
                    subs: 0xff,
                    bit: 4,
                    how: How::Sum,
                },
            )?,
            num: 5,
            before: &[Word(TAGGED_ROW, 0, 0x0103), Word(TAGGED_ROW, 1, 1)],
            after: &[],
            control: number(53),
        },
        // A tag sets the clip flag.
        Row {
            list: tagged(
                alloc,
                MicroOp::Count {
                    subs: 0xff,
                    bit: 0,
                    how: How::Clip,
                },
            )?,
            num: 5,
            before: &[Word(TAGGED_ROW, 1, 1)],
            after: &[],
            control: Control { num: 5, clip: true },
        },
        // The first tag stands in subarray 4 of column 1.
        Row {
            list: tagged(alloc, MicroOp::First)?,
            num: 5,
            before: &[Word(TAGGED_ROW, 1, 0x0001_0010)],
            after: &[],
            control: number(36),
        },
        Row {
            list: tagged(alloc, MicroOp::SetNum { num: u64::MAX })?,
            num: 5,
            before: &[],
            after: &[],
            control: number(u64::MAX),
        },
    ];
    assert!(rt; all_end(alloc, &rows)?);
    Ok(())
}

#[test]
fn numbers_make_bits(rt: HostRuntime) -> Result<(), Fail> {
    let alloc = rt.alloc();
    let rows = [
        // The bits 0 and 2 of each byte, where there is a tag.
        Row {
            list: tagged(
                alloc,
                MicroOp::UpdateBy {
                    row: WRITTEN_ROW,
                    width: 8,
                },
            )?,
            num: 5,
            before: &[Word(TAGGED_ROW, 0, 0x0000_0fff)],
            after: &[Word(WRITTEN_ROW, 0, 0x0000_0505), Word(WRITTEN_ROW, 1, 0)],
            control: number(5),
        },
        // The places up to 34.
        Row {
            list: tagged(
                alloc,
                MicroOp::Below {
                    to: WRITTEN_ROW,
                    how: Reach::Upto,
                },
            )?,
            num: 34,
            before: &[],
            after: &[
                Word(WRITTEN_ROW, 0, 0xffff_ffff),
                Word(WRITTEN_ROW, 1, 0b111),
            ],
            control: number(34),
        },
    ];
    assert!(rt; all_end(alloc, &rows)?);
    Ok(())
}
