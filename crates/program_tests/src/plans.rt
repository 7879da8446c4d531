//! Vector words that are planned and carried out on registers of 64 bits.
use crate::chains::Word;
use crate::planned::{Row, is_carried_out};
use rvv_decode::decode_v;
use std::test::Fail;
use vec_exec::engine;
use vtype_cfg::Policy;

// The vector types of elements of 8 bits, of 16 bits and of 32 bits in one register, and of 32 bits in eight; and the flag of
// agnostic masked elements.
const E8_M1: u32 = 0;

const E16_M1: u32 = 0x08;

const E32_M1: u32 = 0x10;

const E32_M8: u32 = 0x13;

const MASK_AGNOSTIC: u32 = 1 << 7;

// vadd.vv v4, v2, v3; vadd.vv v8, v16, v24; and vmseq.vv v0, v2, v3, v0.t.
const ADD: u32 = 0x0221_8257;

const ADD_OF_EIGHT: u32 = 0x030c_0457;

const EQUAL_UNDER_MASK: u32 = 0x6021_8057;

// vsll.vv v4, v2, v3; vsext.vf2 v4, v2; vnsrl.wv v4, v2, v6; and vwaddu.vv v4, v2, v3.
const SHIFTED: u32 = 0x9621_8257;

const EXTENDED: u32 = 0x4a23_a257;

const NARROWED: u32 = 0xb223_0257;

const WIDENED: u32 = 0xc221_a257;

// vmulhsu.vv v4, v2, v3; vmadd.vv v4, v3, v2; vnmsac.vv v4, v3, v2; vdiv.vv v4, v2, v3; and vrem.vv v4, v2, v3.
const HIGH_PRODUCT: u32 = 0x9a21_a257;

const PRODUCT_AND_ADDEND: u32 = 0xa621_a257;

const LESS_PRODUCT: u32 = 0xbe21_a257;

const QUOTIENT: u32 = 0x8621_a257;

const REMAINDER: u32 = 0x8e21_a257;

// vsra.vv v4, v2, v3; vmul.vv v4, v2, v3; and vmacc.vv v4, v3, v2.
const SIGNED_SHIFT: u32 = 0xa621_8257;

const PRODUCT: u32 = 0x9621_a257;

const PRODUCT_ADDED: u32 = 0xb621_a257;

// vwmulu.vv v4, v2, v3; and vwmaccsu.vv v4, v3, v2.
const WIDE_PRODUCT: u32 = 0xe221_a257;

const WIDE_PRODUCT_ADDED: u32 = 0xfe21_a257;

// The least number and -5, and the divisors -1 and 0.
const DIVIDED: &[Word] = &[
    Word(2, 0, 0x8000_0000),
    Word(2, 1, 0xffff_fffb),
    Word(3, 0, 0xffff_ffff),
];

// Elements 0 to 3 are active, and all are equal but element 1.
const UNDER_MASK: &[Word] = &[
    Word(0, 0, 0x0000_000f),
    Word(2, 0, 0x0403_0201),
    Word(3, 0, 0x0403_0701),
];

static ROWS: [Row; 18] = [
    // no carry passes into the next element
    Row {
        word: ADD,
        vtype: E8_M1,
        vl: 8,
        vxrm: 0,
        policy: Policy::Keep,
        before: &[Word(2, 0, 0x807f_00ff), Word(3, 0, 0x8001_0001)],
        after: &[Word(4, 0, 0x0080_0000)],
        clips: false,
        cost: (64, 19, 7),
    },
    // a sum of eight registers costs eight times that of one, of 256, 67 and 31
    Row {
        word: ADD_OF_EIGHT,
        vtype: E32_M8,
        vl: 16,
        vxrm: 0,
        policy: Policy::Keep,
        before: &[
            Word(16, 0, 0x7fff_ffff),
            Word(24, 0, 1),
            Word(23, 1, 0xffff_ffff),
            Word(31, 1, 2),
        ],
        after: &[Word(8, 0, 0x8000_0000), Word(15, 1, 1)],
        clips: false,
        cost: (2048, 536, 248),
    },
    // a comparison may write the mask that it is under
    Row {
        word: EQUAL_UNDER_MASK,
        vtype: E8_M1,
        vl: 8,
        vxrm: 0,
        policy: Policy::Keep,
        before: UNDER_MASK,
        after: &[Word(0, 0, 0x0000_000d)],
        clips: false,
        cost: (46, 10, 7),
    },
    Row {
        word: EQUAL_UNDER_MASK,
        vtype: E8_M1 | MASK_AGNOSTIC,
        vl: 8,
        vxrm: 0,
        policy: Policy::Ones,
        before: UNDER_MASK,
        after: &[Word(0, 0, 0xffff_fffd)],
        clips: false,
        cost: (47, 11, 7),
    },
    // -1, 127, -128 and 1 times 255, and 255 has no sign
    Row {
        word: HIGH_PRODUCT,
        vtype: E8_M1,
        vl: 4,
        vxrm: 0,
        policy: Policy::Keep,
        before: &[Word(2, 0, 0x0180_7fff), Word(3, 0, 0xffff_ffff)],
        after: &[Word(4, 0, 0x0080_7eff)],
        clips: false,
        cost: (1161, 302, 198),
    },
    // 3 times 5 and 1; 2 times 128 and 1; 255 times 255 and 2; 0 times 1 and 7
    Row {
        word: PRODUCT_AND_ADDEND,
        vtype: E8_M1,
        vl: 4,
        vxrm: 0,
        policy: Policy::Keep,
        before: &[
            Word(2, 0, 0x0702_0101),
            Word(3, 0, 0x00ff_0203),
            Word(4, 0, 0x01ff_8005),
        ],
        after: &[Word(4, 0, 0x0703_0110)],
        clips: false,
        cost: (1106, 293, 191),
    },
    // 5 less 1 times 3; 128 less 1 times 2; 255 less 2 times 255; 1 less 7 times 0
    Row {
        word: LESS_PRODUCT,
        vtype: E8_M1,
        vl: 4,
        vxrm: 0,
        policy: Policy::Keep,
        before: &[
            Word(2, 0, 0x0702_0101),
            Word(3, 0, 0x00ff_0203),
            Word(4, 0, 0x01ff_8005),
        ],
        after: &[Word(4, 0, 0x0101_7e02)],
        clips: false,
        cost: (1107, 294, 191),
    },
    // the quotient of the least number by -1 has no room, and that by 0 is all ones
    Row {
        word: QUOTIENT,
        vtype: E32_M1,
        vl: 2,
        vxrm: 0,
        policy: Policy::Keep,
        before: DIVIDED,
        after: &[Word(4, 0, 0x8000_0000), Word(4, 1, 0xffff_ffff)],
        clips: false,
        cost: (10603, 3854, 3257),
    },
    Row {
        word: REMAINDER,
        vtype: E32_M1,
        vl: 2,
        vxrm: 0,
        policy: Policy::Keep,
        before: DIVIDED,
        after: &[Word(4, 1, 0xffff_fffb)],
        clips: false,
        cost: (10507, 3822, 3226),
    },
    // the amounts are 11 and 8, of which 3 and 0 count
    Row {
        word: SHIFTED,
        vtype: E8_M1,
        vl: 2,
        vxrm: 0,
        policy: Policy::Keep,
        before: &[Word(2, 0, 0xffff_8181), Word(3, 0, 0x0101_080b)],
        after: &[Word(4, 0, 0x0000_8108)],
        clips: false,
        cost: (52, 43, 28),
    },
    Row {
        word: EXTENDED,
        vtype: E16_M1,
        vl: 3,
        vxrm: 0,
        policy: Policy::Keep,
        before: &[Word(2, 0, 0xffff_7f80)],
        after: &[Word(4, 0, 0x007f_ff80), Word(4, 1, 0x0000_ffff)],
        clips: false,
        cost: (10, 10, 8),
    },
    // the low and the high half of a register are those of two registers
    Row {
        word: NARROWED,
        vtype: E8_M1,
        vl: 5,
        vxrm: 0,
        policy: Policy::Keep,
        before: &[
            Word(2, 0, 0x8000_1234),
            Word(3, 0, 0xffff_abcd),
            Word(6, 0, 0x0000_0f04),
            Word(6, 1, 0x0000_0018),
        ],
        after: &[Word(4, 0, 0x0000_0123), Word(4, 1, 0x0000_00ab)],
        clips: false,
        cost: (198, 174, 150),
    },
    // the upper half of a register is added into the next one
    Row {
        word: WIDENED,
        vtype: E8_M1,
        vl: 5,
        vxrm: 0,
        policy: Policy::Keep,
        before: &[
            Word(2, 0, 0x8000_7fff),
            Word(2, 1, 0xffff_ffff),
            Word(3, 0, 0x8000_8001),
            Word(3, 1, 0xffff_ffff),
        ],
        after: &[
            Word(4, 0, 0x00ff_0100),
            Word(4, 1, 0x0100_0000),
            Word(5, 0, 0x0000_01fe),
        ],
        clips: false,
        cost: (256, 70, 30),
    },
    // 9 is 1 of the amounts of 8 bits, and the sign comes in
    Row {
        word: SIGNED_SHIFT,
        vtype: E8_M1,
        vl: 1,
        vxrm: 0,
        policy: Policy::Keep,
        before: &[Word(2, 0, 0x0000_0080), Word(3, 0, 0x0000_0009)],
        after: &[Word(4, 0, 0x0000_00c0)],
        clips: false,
        cost: (64, 55, 35),
    },
    Row {
        word: PRODUCT,
        vtype: E8_M1,
        vl: 2,
        vxrm: 0,
        policy: Policy::Keep,
        before: &[Word(2, 0, 0x0000_0503), Word(3, 0, 0x0000_0702)],
        after: &[Word(4, 0, 0x0000_2306)],
        clips: false,
        cost: (1044, 276, 184),
    },
    Row {
        word: PRODUCT_ADDED,
        vtype: E8_M1,
        vl: 1,
        vxrm: 0,
        policy: Policy::Keep,
        before: &[
            Word(2, 0, 0x0000_0003),
            Word(3, 0, 0x0000_0002),
            Word(4, 0, 0x0000_0001),
        ],
        after: &[Word(4, 0, 0x0000_0007)],
        clips: false,
        cost: (1106, 293, 191),
    },
    // products of bytes without a sign
    Row {
        word: WIDE_PRODUCT,
        vtype: E8_M1,
        vl: 2,
        vxrm: 0,
        policy: Policy::Keep,
        before: &[Word(2, 0, 0x0000_10ff), Word(3, 0, 0x0000_20ff)],
        after: &[Word(4, 0, 0x0200_fe01)],
        clips: false,
        cost: (8008, 1864, 1504),
    },
    // the products are 255 times -1 and 2 times -128
    Row {
        word: WIDE_PRODUCT_ADDED,
        vtype: E8_M1,
        vl: 2,
        vxrm: 0,
        policy: Policy::Keep,
        before: &[
            Word(2, 0, 0x0000_02ff),
            Word(3, 0, 0x0000_80ff),
            Word(4, 0, 0x0001_0100),
        ],
        after: &[Word(4, 0, 0xff01_0001)],
        clips: false,
        cost: (8276, 1946, 1550),
    },
];

#[test]
fn programs_leave_these_words(rt: HostRuntime) -> Result<(), Fail> {
    for (i, row) in ROWS.iter().enumerate() {
        assert!(rt; is_carried_out(rt.alloc(), row)?, "row {i}");
    }
    Ok(())
}

// A word, and whether it is carried out by a program.
#[derive(Clone, Copy)]
struct Asked {
    word: u32,
    engine: bool,
}

// vadd.vv, vrgather.vx, vrgather.vv, vcompress.vm, viota.m, vle32.v and vsetvli.
static ASKED: [Asked; 7] = [
    Asked {
        word: ADD,
        engine: true,
    },
    Asked {
        word: 0x3221_c257,
        engine: true,
    },
    Asked {
        word: 0x3221_8257,
        engine: false,
    },
    Asked {
        word: 0x5e21_a257,
        engine: false,
    },
    Asked {
        word: 0x5228_2257,
        engine: false,
    },
    Asked {
        word: 0x0205_6207,
        engine: false,
    },
    Asked {
        word: 0x0005_72d7,
        engine: false,
    },
];

// Whether the word is a vector word, and is carried out as the row says.
fn is_answered(row: &Asked) -> bool {
    decode_v(row.word).is_some_and(|i| engine(&i) == row.engine)
}

#[test]
fn these_are_carried_out_by_programs(rt: HostRuntime) {
    for (i, row) in ASKED.iter().enumerate() {
        assert!(rt; is_answered(row), "row {i}");
    }
}
