//! Vector words that read whole masks, planned and carried out on registers of 64 bits.
use crate::chains::Word;
use crate::planned::{Row, is_carried_out};
use std::test::Fail;
use vtype_cfg::Policy;

// The vector types of elements of 8 bits in eight registers, and of 16 bits in two; and the flag of agnostic masked elements.
const E8_M8: u32 = 0x03;

const E16_M2: u32 = 0x09;

const MASK_AGNOSTIC: u32 = 1 << 7;

// vmandn.mm v4, v2, v3; vmsbf.m v4, v2; vmsif.m v4, v2, v0.t; vmsof.m v4, v2; and vid.v v4, v0.t.
const AND_NOT: u32 = 0x6221_a257;

const BEFORE_FIRST: u32 = 0x5220_a257;

const UP_TO_FIRST_UNDER_MASK: u32 = 0x5021_a257;

const ONLY_FIRST: u32 = 0x5221_2257;

const NUMBERS_UNDER_MASK: u32 = 0x5008_a257;

// The mask leaves the bits 0 to 3 out, and bit 3 of v2 is 1, as bit 8 is.
const UNDER_MASK: &[Word] = &[
    Word(0, 0, 0xffff_fff0),
    Word(0, 1, 0x0000_00ff),
    Word(2, 0, 0x0000_0108),
    Word(4, 0, 0x0000_0005),
    Word(4, 1, 0xffff_ff00),
];

static ROWS: [Row; 8] = [
    // the bits of vs2 without those of vs1; the tail is agnostic
    Row {
        word: AND_NOT,
        vtype: E8_M8,
        vl: 40,
        vxrm: 0,
        policy: Policy::Ones,
        before: &[
            Word(2, 0, 0xff00_ff0f),
            Word(2, 1, 0x0000_00ff),
            Word(3, 0, 0x0f0f_0f0f),
        ],
        after: &[Word(4, 0, 0xf000_f000), Word(4, 1, 0xffff_ffff)],
        clips: false,
        cost: (5, 5, 0),
    },
    // the first one is bit 36
    Row {
        word: BEFORE_FIRST,
        vtype: E8_M8,
        vl: 40,
        vxrm: 0,
        policy: Policy::Keep,
        before: &[Word(2, 1, 0x0000_0010), Word(4, 1, 0xffff_ffff)],
        after: &[Word(4, 0, 0xffff_ffff), Word(4, 1, 0xffff_ff0f)],
        clips: false,
        cost: (3, 2, 0),
    },
    // all bits below vl, where no one is below it
    Row {
        word: BEFORE_FIRST,
        vtype: E8_M8,
        vl: 36,
        vxrm: 0,
        policy: Policy::Keep,
        before: &[Word(2, 1, 0x0000_0010)],
        after: &[Word(4, 0, 0xffff_ffff), Word(4, 1, 0x0000_000f)],
        clips: false,
        cost: (3, 2, 0),
    },
    // a bit that the mask leaves out is not the first one, and stays
    Row {
        word: UP_TO_FIRST_UNDER_MASK,
        vtype: E8_M8,
        vl: 40,
        vxrm: 0,
        policy: Policy::Keep,
        before: UNDER_MASK,
        after: &[Word(4, 0, 0x0000_01f5), Word(4, 1, 0xffff_ff00)],
        clips: false,
        cost: (3, 2, 0),
    },
    Row {
        word: UP_TO_FIRST_UNDER_MASK,
        vtype: E8_M8 | MASK_AGNOSTIC,
        vl: 40,
        vxrm: 0,
        policy: Policy::Ones,
        before: UNDER_MASK,
        after: &[Word(4, 0, 0x0000_01ff), Word(4, 1, 0xffff_ff00)],
        clips: false,
        cost: (4, 3, 0),
    },
    // the first of two ones; and none
    Row {
        word: ONLY_FIRST,
        vtype: E8_M8,
        vl: 64,
        vxrm: 0,
        policy: Policy::Keep,
        before: &[Word(2, 0, 0x8000_0000), Word(2, 1, 0x0000_0001)],
        after: &[Word(4, 0, 0x8000_0000), Word(4, 1, 0)],
        clips: false,
        cost: (3, 2, 0),
    },
    Row {
        word: ONLY_FIRST,
        vtype: E8_M8,
        vl: 64,
        vxrm: 0,
        policy: Policy::Keep,
        before: &[Word(4, 0, 0xffff_ffff), Word(4, 1, 0xffff_ffff)],
        after: &[Word(4, 0, 0), Word(4, 1, 0)],
        clips: false,
        cost: (3, 2, 0),
    },
    // the elements 0, 2, 3 and 5 of two registers of four
    Row {
        word: NUMBERS_UNDER_MASK,
        vtype: E16_M2,
        vl: 6,
        vxrm: 0,
        policy: Policy::Keep,
        before: &[
            Word(0, 0, 0x0000_002d),
            Word(4, 0, 0x7777_8888),
            Word(5, 0, 0x1111_2222),
            Word(5, 1, 0x9999_9999),
        ],
        after: &[
            Word(4, 0, 0x7777_0000),
            Word(4, 1, 0x0003_0002),
            Word(5, 0, 0x0005_2222),
            Word(5, 1, 0x9999_9999),
        ],
        clips: false,
        cost: (4, 4, 0),
    },
];

#[test]
fn programs_of_masks_leave_these_words(rt: HostRuntime) -> Result<(), Fail> {
    for (i, row) in ROWS.iter().enumerate() {
        assert!(rt; is_carried_out(rt.alloc(), row)?, "row {i}");
    }
    Ok(())
}
