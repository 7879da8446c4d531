//! Words of fixed point that are planned and carried out on registers of 64 bits, with the flag of clipped results.
ghost use Rattle.std.specs.Prelude.{◌<◌};

use crate::chains::{Cost, Word};
use crate::planned::{Row, is_carried_out};
use std::alloc::Global;
use std::test::Fail;
use vtype_cfg::Policy;

// The vector type of elements of 8 bits in one register.
const E8_M1: u32 = 0;

// vaaddu.vv, vaadd.vv, vasubu.vv and vasub.vv v4, v2, v3.
const AVERAGE: u32 = 0x2221_a257;

const SIGNED_AVERAGE: u32 = 0x2621_a257;

const HALF_DIFFERENCE: u32 = 0x2a21_a257;

const SIGNED_HALF_DIFFERENCE: u32 = 0x2e21_a257;

// vsaddu.vv, vsadd.vv, vssubu.vv and vssub.vv v4, v2, v3.
const CLIPPED_SUM: u32 = 0x8221_8257;

const SIGNED_SUM: u32 = 0x8621_8257;

const CLIPPED_DIFFERENCE: u32 = 0x8a21_8257;

const SIGNED_DIFFERENCE: u32 = 0x8e21_8257;

// vssrl.vv, vssra.vv and vsmul.vv v4, v2, v3.
const SHIFT: u32 = 0xaa21_8257;

const SIGNED_SHIFT: u32 = 0xae21_8257;

const FRACTION: u32 = 0x9e21_8257;

// vnclip.wi v4, v2, 4; and vnclipu.wi v4, v2, 4.
const CLIP_BY_4: u32 = 0xbe22_3257;

const UNSIGNED_CLIP_BY_4: u32 = 0xba22_3257;

// vnclip.wv v4, v2, v6; and the same with v0.t.
const CLIP: u32 = 0xbe23_0257;

const CLIP_UNDER_MASK: u32 = 0xbc23_0257;

static ROWS: [Row; 8] = [
    // 240 and 32
    Row {
        word: CLIPPED_SUM,
        vtype: E8_M1,
        vl: 1,
        vxrm: 0,
        policy: Policy::Keep,
        before: &[Word(2, 0, 0x0000_00f0), Word(3, 0, 0x0000_0020)],
        after: &[Word(4, 0, 0x0000_00ff)],
        clips: true,
        cost: (81, 30, 14),
    },
    // 127 and 1, -128 and -1, 112 and 15, and -128 and 127
    Row {
        word: SIGNED_SUM,
        vtype: E8_M1,
        vl: 4,
        vxrm: 0,
        policy: Policy::Keep,
        before: &[Word(2, 0, 0x8070_807f), Word(3, 0, 0x7f0f_ff01)],
        after: &[Word(4, 0, 0xff7f_807f)],
        clips: true,
        cost: (93, 40, 21),
    },
    // 16 less 32, 32 less 16, 255 less 1, and 0 less 0
    Row {
        word: CLIPPED_DIFFERENCE,
        vtype: E8_M1,
        vl: 4,
        vxrm: 0,
        policy: Policy::Keep,
        before: &[Word(2, 0, 0x00ff_2010), Word(3, 0, 0x0001_1020)],
        after: &[Word(4, 0, 0x00fe_1000)],
        clips: true,
        cost: (79, 30, 14),
    },
    // -128 less 1, 127 less -1, 0 less -128, and 0 less 127
    Row {
        word: SIGNED_DIFFERENCE,
        vtype: E8_M1,
        vl: 4,
        vxrm: 0,
        policy: Policy::Keep,
        before: &[Word(2, 0, 0x0000_7f80), Word(3, 0, 0x7f80_ff01)],
        after: &[Word(4, 0, 0x817f_7f80)],
        clips: true,
        cost: (93, 40, 21),
    },
    // the least fraction by itself
    Row {
        word: FRACTION,
        vtype: E8_M1,
        vl: 1,
        vxrm: 0,
        policy: Policy::Keep,
        before: &[Word(2, 0, 0x0000_0080), Word(3, 0, 0x0000_0080)],
        after: &[Word(4, 0, 0x0000_007f)],
        clips: true,
        cost: (1331, 370, 255),
    },
    // 1.5 and 2.5: a tie goes to the even number
    Row {
        word: CLIP_BY_4,
        vtype: E8_M1,
        vl: 2,
        vxrm: 1,
        policy: Policy::Keep,
        before: &[Word(2, 0, 0x0028_0018)],
        after: &[Word(4, 0, 0x0000_0202)],
        clips: false,
        cost: (505, 416, 380),
    },
    // 32767, -32768 over 256, -32768 over 128, and 127 by no place, as 16 does not count
    Row {
        word: CLIP,
        vtype: E8_M1,
        vl: 4,
        vxrm: 0,
        policy: Policy::Keep,
        before: &[
            Word(2, 0, 0x8000_7fff),
            Word(2, 1, 0x007f_8000),
            Word(6, 0, 0x1007_0800),
        ],
        after: &[Word(4, 0, 0x7f80_807f)],
        clips: true,
        cost: (499, 414, 380),
    },
    // the same without the two that are clipped
    Row {
        word: CLIP_UNDER_MASK,
        vtype: E8_M1,
        vl: 4,
        vxrm: 0,
        policy: Policy::Keep,
        before: &[
            Word(0, 0, 0x0000_000a),
            Word(2, 0, 0x8000_7fff),
            Word(2, 1, 0x007f_8000),
            Word(6, 0, 0x1007_0800),
        ],
        after: &[Word(4, 0, 0x7f00_8000)],
        clips: false,
        cost: (499, 414, 380),
    },
];

/// A word that is rounded, words of the chain before it, and for each rounding mode what stands after it, whether it clips
/// an element, and its cost.
#[derive(Clone, Copy)]
struct Rounded {
    word: u32,
    vl: u32,
    before: &'static [Word],
    after: [&'static [Word]; MODES],
    clips: [bool; MODES],
    cost: [Cost; MODES],
}

// How many rounding modes there are.
const MODES: usize = 4;

static ROUNDED: [Rounded; 8] = [
    // 128.5, half of 255 and 2
    Rounded {
        word: AVERAGE,
        vl: 1,
        before: &[Word(2, 0, 0x0000_00ff), Word(3, 0, 0x0000_0002)],
        after: [
            &[Word(4, 0, 0x0000_0081)],
            &[Word(4, 0, 0x0000_0080)],
            &[Word(4, 0, 0x0000_0080)],
            &[Word(4, 0, 0x0000_0081)],
        ],
        clips: [false, false, false, false],
        cost: [(98, 42, 15), (98, 42, 15), (72, 24, 8), (98, 42, 15)],
    },
    // 126.5, -127.5, -0.5 and -1.5
    Rounded {
        word: SIGNED_AVERAGE,
        vl: 4,
        before: &[Word(2, 0, 0xfdff_807f), Word(3, 0, 0x0000_817e)],
        after: [
            &[Word(4, 0, 0xff00_817f)],
            &[Word(4, 0, 0xfe00_807e)],
            &[Word(4, 0, 0xfeff_807e)],
            &[Word(4, 0, 0xffff_817f)],
        ],
        clips: [false, false, false, false],
        cost: [(98, 42, 15), (98, 42, 15), (72, 24, 8), (98, 42, 15)],
    },
    // -0.5, 127.5, 1.5 and -127.5, modulo 256
    Rounded {
        word: HALF_DIFFERENCE,
        vl: 4,
        before: &[Word(2, 0, 0x0003_ff00), Word(3, 0, 0xff00_0001)],
        after: [
            &[Word(4, 0, 0x8102_8000)],
            &[Word(4, 0, 0x8002_8000)],
            &[Word(4, 0, 0x8001_7fff)],
            &[Word(4, 0, 0x8101_7fff)],
        ],
        clips: [false, false, false, false],
        cost: [(98, 42, 15), (98, 42, 15), (72, 24, 8), (98, 42, 15)],
    },
    // -127.5, 127.5, which becomes -128 where it goes up, 1.5 and -0.5
    Rounded {
        word: SIGNED_HALF_DIFFERENCE,
        vl: 4,
        before: &[Word(2, 0, 0x0003_7f80), Word(3, 0, 0x0100_807f)],
        after: [
            &[Word(4, 0, 0x0002_8081)],
            &[Word(4, 0, 0x0002_8080)],
            &[Word(4, 0, 0xff01_7f80)],
            &[Word(4, 0, 0xff01_7f81)],
        ],
        clips: [false, false, false, false],
        cost: [(98, 42, 15), (98, 42, 15), (72, 24, 8), (98, 42, 15)],
    },
    // 1.5, 2.5, 127.5 and 7, as 8 does not count; and 2.25, 2.75, 1 and 1/128
    Rounded {
        word: SHIFT,
        vl: 8,
        before: &[
            Word(2, 0, 0x07ff_0a06),
            Word(2, 1, 0x0180_0b09),
            Word(3, 0, 0x0801_0202),
            Word(3, 1, 0x0707_0202),
        ],
        after: [
            &[Word(4, 0, 0x0780_0302), Word(4, 1, 0x0001_0302)],
            &[Word(4, 0, 0x0780_0202), Word(4, 1, 0x0001_0302)],
            &[Word(4, 0, 0x077f_0201), Word(4, 1, 0x0001_0202)],
            &[Word(4, 0, 0x077f_0301), Word(4, 1, 0x0101_0303)],
        ],
        clips: [false, false, false, false],
        cost: [(96, 79, 42), (98, 79, 42), (52, 43, 28), (98, 79, 42)],
    },
    // -1.5, -2.5, -0.5 and -7; and -2.25, -2.75, -1 and 127/128
    Rounded {
        word: SIGNED_SHIFT,
        vl: 8,
        before: &[
            Word(2, 0, 0xf9ff_f6fa),
            Word(2, 1, 0x7f80_f5f7),
            Word(3, 0, 0x0801_0202),
            Word(3, 1, 0x0707_0202),
        ],
        after: [
            &[Word(4, 0, 0xf900_feff), Word(4, 1, 0x01ff_fdfe)],
            &[Word(4, 0, 0xf900_fefe), Word(4, 1, 0x01ff_fdfe)],
            &[Word(4, 0, 0xf9ff_fdfe), Word(4, 1, 0x00ff_fdfd)],
            &[Word(4, 0, 0xf9ff_fdff), Word(4, 1, 0x01ff_fdfd)],
        ],
        clips: [false, false, false, false],
        cost: [(108, 91, 49), (110, 91, 49), (64, 55, 35), (110, 91, 49)],
    },
    // 0.5, -0.5, -127 and 1.5
    Rounded {
        word: FRACTION,
        vl: 4,
        before: &[Word(2, 0, 0x0380_c040), Word(3, 0, 0x407f_0101)],
        after: [
            &[Word(4, 0, 0x0281_0001)],
            &[Word(4, 0, 0x0281_0000)],
            &[Word(4, 0, 0x0181_ff00)],
            &[Word(4, 0, 0x0181_ff01)],
        ],
        clips: [false, false, false, false],
        cost: [
            (1331, 370, 255),
            (1333, 370, 255),
            (1296, 343, 227),
            (1333, 370, 255),
        ],
    },
    // 1.5, 2.5, 255.5 and 254.5: what is rounded up to 256 is clipped
    Rounded {
        word: UNSIGNED_CLIP_BY_4,
        vl: 4,
        before: &[Word(2, 0, 0x0028_0018), Word(2, 1, 0x0fe8_0ff8)],
        after: [
            &[Word(4, 0, 0xffff_0302)],
            &[Word(4, 0, 0xfeff_0202)],
            &[Word(4, 0, 0xfeff_0201)],
            &[Word(4, 0, 0xffff_0301)],
        ],
        clips: [true, true, false, false],
        cost: [
            (399, 338, 336),
            (403, 338, 336),
            (241, 212, 236),
            (403, 338, 336),
        ],
    },
];

// The word under one of the modes.
fn in_mode(rounded: &Rounded, mode: usize) -> Row
    requires { mode < 4 }
{
    Row {
        word: rounded.word,
        vtype: E8_M1,
        vl: rounded.vl,
        vxrm: mode as u8,
        policy: Policy::Keep,
        before: rounded.before,
        after: rounded.after[mode],
        clips: rounded.clips[mode],
        cost: rounded.cost[mode],
    }
}

// The first mode in which the word leaves or costs something else than its row says.
fn wrong_mode(alloc: Global, rounded: &Rounded) -> Result<Option<usize>, Fail> {
    for mode in 0..MODES {
        if !is_carried_out(alloc, &in_mode(rounded, mode))? {
            return Ok(Some(mode));
        }
    }
    Ok(None)
}

#[test]
fn programs_clip_these_words(rt: HostRuntime) -> Result<(), Fail> {
    for (i, row) in ROWS.iter().enumerate() {
        assert!(rt; is_carried_out(rt.alloc(), row)?, "row {i}");
    }
    Ok(())
}

#[test]
fn programs_round_these_words(rt: HostRuntime) -> Result<(), Fail> {
    for (i, rounded) in ROUNDED.iter().enumerate() {
        let wrong = wrong_mode(rt.alloc(), rounded)?;
        assert!(rt; wrong.is_none(), "row {i} in mode {wrong:?}");
    }
    Ok(())
}
