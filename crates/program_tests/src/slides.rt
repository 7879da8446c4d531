//! Slides, gathers of one element, scalars and whole registers, planned with the scalar 0 and carried out on registers of 64
//! bits.
use crate::chains::Word;
use crate::planned::{Row, is_carried_out};
use std::test::Fail;
use vtype_cfg::Policy;

// The vector types of elements of 8 bits in one register and in two, and of 16 and 32 bits in one; and the flags of agnostic
// tails and of agnostic masked elements.
const E8_M1: u32 = 0;

const E8_M2: u32 = 0x01;

const E16_M1: u32 = 0x08;

const E32_M1: u32 = 0x10;

const TAIL_AGNOSTIC: u32 = 1 << 6;

const MASK_AGNOSTIC: u32 = 1 << 7;

// vslideup.vi v4, v2, 3, and with v0.t; vslidedown.vi v4, v2, 5, and v2, v2, 2, v0.t.
const UP: u32 = 0x3a21_b257;

const UP_UNDER_MASK: u32 = 0x3821_b257;

const DOWN: u32 = 0x3e22_b257;

const DOWN_IN_PLACE: u32 = 0x3c21_3157;

// vslide1up.vx and vslide1down.vx v4, v2, x5.
const UP_BY_ONE: u32 = 0x3a22_e257;

const DOWN_BY_ONE: u32 = 0x3e22_e257;

// vrgather.vi v4, v2, 5, and 8; vmv.s.x v4, x5; vmv2r.v v4, v2.
const PICK: u32 = 0x3222_b257;

const PICK_PAST_THE_END: u32 = 0x3224_3257;

const SCALAR_IN: u32 = 0x4202_e257;

const TWO_REGISTERS: u32 = 0x9e20_b257;

// The bytes 10 to 17, and a0 to a7 in the destination.
const BYTES: &[Word] = &[
    Word(2, 0, 0x1312_1110),
    Word(2, 1, 0x1716_1514),
    Word(4, 0, 0xa3a2_a1a0),
    Word(4, 1, 0xa7a6_a5a4),
];

static ROWS: [Row; 10] = [
    // elements below the offset stay; so they do where the mask leaves them out
    Row {
        word: UP,
        vtype: E8_M1,
        vl: 6,
        vxrm: 0,
        policy: Policy::Keep,
        before: BYTES,
        after: &[Word(4, 0, 0x10a2_a1a0), Word(4, 1, 0xa7a6_1211)],
        clips: false,
        cost: (2, 2, 0),
    },
    Row {
        word: UP_UNDER_MASK,
        vtype: E8_M1 | TAIL_AGNOSTIC | MASK_AGNOSTIC,
        vl: 6,
        vxrm: 0,
        policy: Policy::Ones,
        before: &[
            Word(0, 0, 0x0000_0029),
            Word(2, 0, 0x1312_1110),
            Word(2, 1, 0x1716_1514),
            Word(4, 0, 0xa3a2_a1a0),
            Word(4, 1, 0xa7a6_a5a4),
        ],
        after: &[Word(4, 0, 0x10a2_a1a0), Word(4, 1, 0xffff_12ff)],
        clips: false,
        cost: (3, 3, 0),
    },
    // the elements come from both registers, and zeros past them
    Row {
        word: DOWN,
        vtype: E8_M2,
        vl: 15,
        vxrm: 0,
        policy: Policy::Keep,
        before: &[
            Word(2, 0, 0x1312_1110),
            Word(2, 1, 0x1716_1514),
            Word(3, 0, 0x1b1a_1918),
            Word(3, 1, 0x1f1e_1d1c),
            Word(5, 1, 0xafae_adac),
        ],
        after: &[
            Word(4, 0, 0x1817_1615),
            Word(4, 1, 0x1c1b_1a19),
            Word(5, 0, 0x001f_1e1d),
            Word(5, 1, 0xaf00_0000),
        ],
        clips: false,
        cost: (4, 4, 0),
    },
    // a register may be moved down in itself
    Row {
        word: DOWN_IN_PLACE,
        vtype: E8_M1,
        vl: 7,
        vxrm: 0,
        policy: Policy::Keep,
        before: &[
            Word(0, 0, 0x0000_007e),
            Word(2, 0, 0x1312_1110),
            Word(2, 1, 0x1716_1514),
            Word(4, 0, 0xa3a2_a1a0),
            Word(4, 1, 0xa7a6_a5a4),
        ],
        after: &[Word(2, 0, 0x1514_1310), Word(2, 1, 0x1700_1716)],
        clips: false,
        cost: (2, 2, 0),
    },
    // the scalar is 0; it comes to element 0, or to the last one
    Row {
        word: UP_BY_ONE,
        vtype: E16_M1,
        vl: 3,
        vxrm: 0,
        policy: Policy::Keep,
        before: BYTES,
        after: &[Word(4, 0, 0x1110_0000), Word(4, 1, 0xa7a6_1312)],
        clips: false,
        cost: (6, 6, 0),
    },
    Row {
        word: DOWN_BY_ONE,
        vtype: E16_M1,
        vl: 3,
        vxrm: 0,
        policy: Policy::Keep,
        before: BYTES,
        after: &[Word(4, 0, 0x1514_1312), Word(4, 1, 0xa7a6_0000)],
        clips: false,
        cost: (6, 6, 0),
    },
    // an index may be vl or more, and gives 0 past the group
    Row {
        word: PICK,
        vtype: E8_M1,
        vl: 2,
        vxrm: 0,
        policy: Policy::Keep,
        before: BYTES,
        after: &[Word(4, 0, 0xa3a2_1515), Word(4, 1, 0xa7a6_a5a4)],
        clips: false,
        cost: (2, 2, 0),
    },
    Row {
        word: PICK_PAST_THE_END,
        vtype: E8_M1,
        vl: 2,
        vxrm: 0,
        policy: Policy::Keep,
        before: BYTES,
        after: &[Word(4, 0, 0xa3a2_0000), Word(4, 1, 0xa7a6_a5a4)],
        clips: false,
        cost: (2, 2, 0),
    },
    // the rest of the register is its tail
    Row {
        word: SCALAR_IN,
        vtype: E16_M1 | TAIL_AGNOSTIC,
        vl: 3,
        vxrm: 0,
        policy: Policy::Ones,
        before: BYTES,
        after: &[Word(4, 0, 0xffff_0000), Word(4, 1, 0xffff_ffff)],
        clips: false,
        cost: (5, 5, 0),
    },
    // whole registers are moved without a length
    Row {
        word: TWO_REGISTERS,
        vtype: E32_M1,
        vl: 0,
        vxrm: 0,
        policy: Policy::Keep,
        before: &[
            Word(2, 0, 0x1312_1110),
            Word(2, 1, 0x1716_1514),
            Word(3, 0, 0x1b1a_1918),
            Word(4, 0, 0xa3a2_a1a0),
            Word(4, 1, 0xa7a6_a5a4),
            Word(5, 0, 0xffff_ffff),
        ],
        after: &[
            Word(4, 0, 0x1312_1110),
            Word(4, 1, 0x1716_1514),
            Word(5, 0, 0x1b1a_1918),
            Word(5, 1, 0),
        ],
        clips: false,
        cost: (8, 8, 0),
    },
];

#[test]
fn elements_are_moved_by_programs(rt: HostRuntime) -> Result<(), Fail> {
    for (i, row) in ROWS.iter().enumerate() {
        assert!(rt; is_carried_out(rt.alloc(), row)?, "row {i}");
    }
    Ok(())
}
