//! Reductions, planned and carried out on registers of 64 bits.
use crate::chains::Word;
use crate::planned::{Row, is_carried_out};
use std::test::Fail;
use vtype_cfg::Policy;

// The vector types of elements of 8 bits in one register, and of 16 and 32 bits in two; and the flags of agnostic tails and of
// agnostic masked elements.
const E8_M1: u32 = 0;

const E16_M2: u32 = 0x09;

const E32_M2: u32 = 0x11;

const TAIL_AGNOSTIC: u32 = 1 << 6;

const MASK_AGNOSTIC: u32 = 1 << 7;

// vredsum.vs v4, v2, v6, and with v0.t; vredand.vs v4, v2, v6, v0.t; vredor.vs and vredxor.vs v4, v2, v6.
const SUM: u32 = 0x0223_2257;

const SUM_UNDER_MASK: u32 = 0x0023_2257;

const AND_UNDER_MASK: u32 = 0x0423_2257;

const OR: u32 = 0x0a23_2257;

const XOR: u32 = 0x0e23_2257;

// vwredsumu.vs and vwredsum.vs v4, v2, v6.
const WIDE_SUM: u32 = 0xc223_0257;

const WIDE_SUM_WITH_SIGN: u32 = 0xc623_0257;

// vredmaxu.vs v4, v2, v6, and with v0.t; vredmax.vs, vredminu.vs and vredmin.vs v4, v2, v6.
const GREATEST: u32 = 0x1a23_2257;

const GREATEST_UNDER_MASK: u32 = 0x1823_2257;

const GREATEST_WITH_SIGN: u32 = 0x1e23_2257;

const LEAST: u32 = 0x1223_2257;

const LEAST_WITH_SIGN: u32 = 0x1623_2257;

// The elements 7f, 80, ff and 0, and 1 in the place of vs1.
const SIGNS: &[Word] = &[
    Word(2, 0, 0x00ff_807f),
    Word(4, 0, 0xa3a2_a1a0),
    Word(6, 0, 0x0000_0001),
];

static ROWS: [Row; 13] = [
    // the sum is 2000a; the eighth element is in the tail
    Row {
        word: SUM,
        vtype: E16_M2,
        vl: 7,
        vxrm: 0,
        policy: Policy::Keep,
        before: &[
            Word(2, 0, 0x8000_fff0),
            Word(2, 1, 0x0001_8000),
            Word(3, 0, 0x0003_0002),
            Word(3, 1, 0xffff_0004),
            Word(4, 0, 0xa3a2_a1a0),
            Word(4, 1, 0xa7a6_a5a4),
            Word(6, 0, 0x7777_0010),
        ],
        after: &[Word(4, 0, 0xa3a2_000a), Word(4, 1, 0xa7a6_a5a4)],
        clips: false,
        cost: (52, 4, 0),
    },
    // the mask leaves element 0 out, and not that of vs1, though bit 0 of v0 is 0
    Row {
        word: SUM_UNDER_MASK,
        vtype: E8_M1 | TAIL_AGNOSTIC | MASK_AGNOSTIC,
        vl: 4,
        vxrm: 0,
        policy: Policy::Ones,
        before: &[
            Word(0, 0, 0x0000_000e),
            Word(2, 0, 0x0403_0201),
            Word(4, 0, 0xa3a2_a1a0),
            Word(6, 0, 0x0000_1110),
        ],
        after: &[Word(4, 0, 0xffff_ff19), Word(4, 1, 0xffff_ffff)],
        clips: false,
        cost: (21, 5, 0),
    },
    // the mask leaves the element of no ones out
    Row {
        word: AND_UNDER_MASK,
        vtype: E8_M1,
        vl: 4,
        vxrm: 0,
        policy: Policy::Keep,
        before: &[
            Word(0, 0, 0x0000_000b),
            Word(2, 0, 0xbf00_fe7f),
            Word(4, 0, 0xa3a2_a1a0),
            Word(6, 0, 0xffff_ffcf),
        ],
        after: &[Word(4, 0, 0xa3a2_a10e)],
        clips: false,
        cost: (20, 4, 0),
    },
    Row {
        word: OR,
        vtype: E8_M1,
        vl: 3,
        vxrm: 0,
        policy: Policy::Keep,
        before: &[
            Word(2, 0, 0x0804_0201),
            Word(4, 0, 0xa3a2_a1a0),
            Word(6, 0, 0x0000_0180),
        ],
        after: &[Word(4, 0, 0xa3a2_a187)],
        clips: false,
        cost: (20, 4, 0),
    },
    // the fourth element is in the tail
    Row {
        word: XOR,
        vtype: E32_M2,
        vl: 3,
        vxrm: 0,
        policy: Policy::Keep,
        before: &[
            Word(2, 0, 0x0000_ffff),
            Word(2, 1, 0x00ff_00ff),
            Word(3, 0, 0x1234_5678),
            Word(3, 1, 0xffff_ffff),
            Word(4, 1, 0xa7a6_a5a4),
            Word(6, 0, 0x8000_0000),
        ],
        after: &[Word(4, 0, 0x92cb_a978), Word(4, 1, 0xa7a6_a5a4)],
        clips: false,
        cost: (100, 4, 0),
    },
    // eight times ff, and fff0; and eight times -1, and 5
    Row {
        word: WIDE_SUM,
        vtype: E8_M1,
        vl: 8,
        vxrm: 0,
        policy: Policy::Keep,
        before: &[
            Word(2, 0, 0xffff_ffff),
            Word(2, 1, 0xffff_ffff),
            Word(4, 0, 0xa3a2_a1a0),
            Word(6, 0, 0x1111_fff0),
        ],
        after: &[Word(4, 0, 0xa3a2_07e8)],
        clips: false,
        cost: (28, 4, 0),
    },
    Row {
        word: WIDE_SUM_WITH_SIGN,
        vtype: E8_M1,
        vl: 8,
        vxrm: 0,
        policy: Policy::Keep,
        before: &[
            Word(2, 0, 0xffff_ffff),
            Word(2, 1, 0xffff_ffff),
            Word(4, 0, 0xa3a2_a1a0),
            Word(6, 0, 0x1111_0005),
        ],
        after: &[Word(4, 0, 0xa3a2_fffd)],
        clips: false,
        cost: (28, 4, 0),
    },
    // of 7f, 80, ff, 0 and 1, without signs and with them
    Row {
        word: GREATEST,
        vtype: E8_M1,
        vl: 4,
        vxrm: 0,
        policy: Policy::Keep,
        before: SIGNS,
        after: &[Word(4, 0, 0xa3a2_a1ff)],
        clips: false,
        cost: (82, 38, 14),
    },
    Row {
        word: GREATEST_WITH_SIGN,
        vtype: E8_M1,
        vl: 4,
        vxrm: 0,
        policy: Policy::Keep,
        before: SIGNS,
        after: &[Word(4, 0, 0xa3a2_a17f)],
        clips: false,
        cost: (82, 38, 14),
    },
    Row {
        word: LEAST,
        vtype: E8_M1,
        vl: 4,
        vxrm: 0,
        policy: Policy::Keep,
        before: SIGNS,
        after: &[Word(4, 0, 0xa3a2_a100)],
        clips: false,
        cost: (82, 38, 14),
    },
    Row {
        word: LEAST_WITH_SIGN,
        vtype: E8_M1,
        vl: 4,
        vxrm: 0,
        policy: Policy::Keep,
        before: SIGNS,
        after: &[Word(4, 0, 0xa3a2_a180)],
        clips: false,
        cost: (82, 38, 14),
    },
    // the greatest is that of vs1; and without a length nothing is written
    Row {
        word: GREATEST_UNDER_MASK,
        vtype: E8_M1,
        vl: 4,
        vxrm: 0,
        policy: Policy::Keep,
        before: &[
            Word(0, 0, 0x0000_000a),
            Word(2, 0, 0x00ff_807f),
            Word(4, 0, 0xa3a2_a1a0),
            Word(6, 0, 0xffff_ff90),
        ],
        after: &[Word(4, 0, 0xa3a2_a190)],
        clips: false,
        cost: (82, 38, 14),
    },
    Row {
        word: LEAST,
        vtype: E8_M1 | TAIL_AGNOSTIC,
        vl: 0,
        vxrm: 0,
        policy: Policy::Ones,
        before: SIGNS,
        after: &[Word(4, 0, 0xa3a2_a1a0)],
        clips: false,
        cost: (83, 39, 14),
    },
];

#[test]
fn reductions_leave_these_words(rt: HostRuntime) -> Result<(), Fail> {
    for (i, row) in ROWS.iter().enumerate() {
        assert!(rt; is_carried_out(rt.alloc(), row)?, "row {i}");
    }
    Ok(())
}
