//! Vector words whose legality is known from the vector specification.
use rvv_decode::decode_v;
use vtype_cfg::{Vtype, legal};

// The bits of vtype of some settings.
const E8_MF4: u32 = 0x06;

const E8_MF2: u32 = 0x07;

const E8_M1: u32 = 0x00;

const E8_M2: u32 = 0x01;

const E8_M8: u32 = 0x03;

const E16_M1: u32 = 0x08;

const E16_M2: u32 = 0x09;

const E32_M1: u32 = 0x10;

const E32_M8: u32 = 0x13;

const VILL: u32 = 0x8000_0000;

// The length of a register in bits.
const VLEN: u32 = 128;

// Whether a word is legal under the vector type of these bits, where its first element has this number.
#[derive(Clone, Copy)]
struct Row {
    word: u32,
    vtype: u32,
    vstart: u32,
    legal: bool,
}

#[rattlefmt::skip]
const WORDS: [Row; 53] = [
    // vwaddu.vv v4, v5, v6; vwaddu.vv v4, v4, v6; vwaddu.wv v4, v4, v6; none of 64 bits, none of 16 registers
    Row { word: 0xc253_2257, vtype: E8_M1, vstart: 0, legal: true },
    Row { word: 0xc243_2257, vtype: E8_M1, vstart: 0, legal: false },
    Row { word: 0xd243_2257, vtype: E8_M1, vstart: 3, legal: true },
    Row { word: 0xc253_2257, vtype: E32_M1, vstart: 0, legal: false },
    Row { word: 0xc284_2057, vtype: E8_M8, vstart: 0, legal: false },
    // vadd.vv v0, v2, v3, also masked; vadd.vv v4, v4, v4 and v5, v4, v4; vmv.v.v v4, v6
    Row { word: 0x0221_8057, vtype: E8_M1, vstart: 0, legal: true },
    Row { word: 0x0021_8057, vtype: E8_M1, vstart: 0, legal: false },
    Row { word: 0x0242_0257, vtype: E8_M2, vstart: 0, legal: true },
    Row { word: 0x0242_02d7, vtype: E8_M2, vstart: 0, legal: false },
    Row { word: 0x0242_02d7, vtype: E8_M1, vstart: 0, legal: true },
    Row { word: 0x5e03_0257, vtype: E8_M2, vstart: 1, legal: true },
    // vmseq.vv v0, v2, v3, v0.t; vmseq.vv v5, v4, v6 and v4, v4, v6; vmadc.vvm v0, v2, v3, v0
    Row { word: 0x6021_8057, vtype: E8_M1, vstart: 0, legal: true },
    Row { word: 0x6243_02d7, vtype: E8_M2, vstart: 0, legal: false },
    Row { word: 0x6243_0257, vtype: E8_M2, vstart: 0, legal: true },
    Row { word: 0x4421_8057, vtype: E8_M1, vstart: 0, legal: true },
    // vrgather.vv v4, v5, v6 and v4, v4, v6 and v4, v6, v4; vrgatherei16.vv v4, v6, v8 and v4, v6, v9
    Row { word: 0x3253_0257, vtype: E8_M1, vstart: 0, legal: true },
    Row { word: 0x3243_0257, vtype: E8_M1, vstart: 0, legal: false },
    Row { word: 0x3262_0257, vtype: E8_M1, vstart: 0, legal: false },
    Row { word: 0x3a64_0257, vtype: E8_M1, vstart: 0, legal: true },
    Row { word: 0x3a64_8257, vtype: E8_M1, vstart: 0, legal: false },
    Row { word: 0x3a64_8257, vtype: E16_M1, vstart: 0, legal: true },
    // vslidedown.vi v4, v4, 1; vslideup.vi v4, v4, 1; vslide1up.vx v4, v4, x5
    Row { word: 0x3e40_b257, vtype: E8_M1, vstart: 0, legal: true },
    Row { word: 0x3a40_b257, vtype: E8_M1, vstart: 0, legal: false },
    Row { word: 0x3a42_e257, vtype: E8_M1, vstart: 0, legal: false },
    // vredsum.vs v4, v4, v4; vredsum.vs v0, v4, v0, v0.t; vwredsum.vs v5, v4, v7
    Row { word: 0x0242_2257, vtype: E8_M2, vstart: 0, legal: true },
    Row { word: 0x0242_2257, vtype: E8_M2, vstart: 1, legal: false },
    Row { word: 0x0040_2057, vtype: E8_M2, vstart: 0, legal: true },
    Row { word: 0xc643_82d7, vtype: E16_M2, vstart: 0, legal: true },
    Row { word: 0xc643_82d7, vtype: E32_M1, vstart: 0, legal: false },
    // vnsrl.wi v4, v4, 3 and v5, v4, 3; vzext.vf4 v4, v8; vzext.vf2 v4, v5 and v4, v4
    Row { word: 0xb241_b257, vtype: E8_M1, vstart: 0, legal: true },
    Row { word: 0xb241_b2d7, vtype: E8_M1, vstart: 0, legal: false },
    Row { word: 0xb241_b257, vtype: E32_M1, vstart: 0, legal: false },
    Row { word: 0x4a82_2257, vtype: E8_M1, vstart: 0, legal: false },
    Row { word: 0x4a82_2257, vtype: E32_M1, vstart: 0, legal: true },
    Row { word: 0x4a53_2257, vtype: E16_M2, vstart: 0, legal: true },
    Row { word: 0x4a43_2257, vtype: E16_M2, vstart: 0, legal: false },
    Row { word: 0x4a43_2257, vtype: E16_M1, vstart: 0, legal: false },
    // vcpop.m x0, v2, v0.t; vfirst.m x5, v2; vmsbf.m v3, v2 and v3, v3; vmsbf.m v0, v2, v0.t; vmand.mm v3, v3, v3
    Row { word: 0x4028_2057, vtype: E8_M8, vstart: 0, legal: true },
    Row { word: 0x4228_a2d7, vtype: E8_M1, vstart: 1, legal: false },
    Row { word: 0x5220_a1d7, vtype: E8_M8, vstart: 0, legal: true },
    Row { word: 0x5230_a1d7, vtype: E8_M1, vstart: 0, legal: false },
    Row { word: 0x5020_a057, vtype: E8_M1, vstart: 0, legal: false },
    Row { word: 0x6631_a1d7, vtype: E8_M8, vstart: 1, legal: true },
    // viota.m v4, v6 and v4, v5; vid.v v5; vcompress.vm v4, v6, v8 and v4, v6, v5
    Row { word: 0x5268_2257, vtype: E8_M2, vstart: 0, legal: true },
    Row { word: 0x5258_2257, vtype: E8_M2, vstart: 0, legal: false },
    Row { word: 0x5208_a2d7, vtype: E8_M2, vstart: 0, legal: false },
    Row { word: 0x5e64_2257, vtype: E8_M2, vstart: 0, legal: true },
    Row { word: 0x5e62_a257, vtype: E8_M2, vstart: 0, legal: false },
    Row { word: 0x5e64_2257, vtype: E8_M2, vstart: 1, legal: false },
    // vmv.x.s x5, v3; vmv.s.x v3, x5; vmv2r.v v2, v4 and v3, v4
    Row { word: 0x4230_22d7, vtype: E8_M8, vstart: 0, legal: true },
    Row { word: 0x4202_e1d7, vtype: E8_M8, vstart: 0, legal: true },
    Row { word: 0x9e40_b157, vtype: E8_M1, vstart: 0, legal: true },
    Row { word: 0x9e40_b1d7, vtype: E8_M1, vstart: 0, legal: false },
];

#[test]
fn words(rt: HostRuntime) {
    for (i, row) in WORDS.iter().enumerate() {
        assert!(rt; is_answered(*row), "row {i}");
    }
}

#[rattlefmt::skip]
const MEMORY_WORDS: [Row; 39] = [
    // vle8.v v3, (x10), at an EMUL of 1/4 and of 2; vle32.v v8, (x10) and v4, (x10); vse16.v v3, (x10)
    Row { word: 0x0205_0187, vtype: E32_M1, vstart: 0, legal: true },
    Row { word: 0x0205_0187, vtype: E8_MF4, vstart: 0, legal: true },
    Row { word: 0x0205_0187, vtype: E8_M2, vstart: 0, legal: false },
    Row { word: 0x0205_6407, vtype: E8_M2, vstart: 0, legal: true },
    Row { word: 0x0205_6207, vtype: E8_M2, vstart: 0, legal: false },
    Row { word: 0x0205_6407, vtype: E8_M8, vstart: 0, legal: false },
    Row { word: 0x0205_51a7, vtype: E8_MF2, vstart: 1, legal: true },
    Row { word: 0x0205_51a7, vtype: E8_M1, vstart: 0, legal: false },
    // vlseg8e8.v v8, (x10) and v25, (x10); vlseg4e8.v v24, (x10)
    Row { word: 0xe205_0407, vtype: E8_MF2, vstart: 0, legal: true },
    Row { word: 0xe205_0407, vtype: E8_M1, vstart: 0, legal: true },
    Row { word: 0xe205_0407, vtype: E8_M2, vstart: 0, legal: false },
    Row { word: 0xe205_0c87, vtype: E8_M1, vstart: 0, legal: false },
    Row { word: 0x6205_0c07, vtype: E8_M2, vstart: 0, legal: true },
    Row { word: 0x6205_0e07, vtype: E8_M2, vstart: 0, legal: false },
    // vlse8.v v0, (x10), x11, v0.t; vsse8.v v0, (x10), x11, v0.t; vlm.v v3, (x10); vsm.v v3, (x10)
    Row { word: 0x08b5_0007, vtype: E8_M1, vstart: 0, legal: false },
    Row { word: 0x08b5_0027, vtype: E8_M1, vstart: 0, legal: true },
    Row { word: 0x02b5_0187, vtype: E8_M8, vstart: 0, legal: true },
    Row { word: 0x02b5_01a7, vtype: E32_M8, vstart: 1, legal: true },
    // vluxei8.v v4, (x10), v4; vluxei32.v v4, (x10), v4 and v4, (x10), v5; vluxseg2ei8.v v4, (x10), v8 and v5
    Row { word: 0x0645_0207, vtype: E8_M1, vstart: 0, legal: true },
    Row { word: 0x0645_6207, vtype: E8_M1, vstart: 0, legal: true },
    Row { word: 0x0655_6207, vtype: E8_M1, vstart: 0, legal: false },
    Row { word: 0x0645_0207, vtype: E32_M1, vstart: 0, legal: false },
    Row { word: 0x2685_0207, vtype: E8_M1, vstart: 0, legal: true },
    Row { word: 0x2655_0207, vtype: E8_M1, vstart: 0, legal: false },
    Row { word: 0x2645_0227, vtype: E8_M1, vstart: 0, legal: true },
    // whole registers: vl2re8.v v3, (x10); vl4re32.v v8, (x10); vs8r.v v4, (x10); vs1r.v v3, (x10)
    Row { word: 0x2285_0187, vtype: E8_M1, vstart: 0, legal: false },
    Row { word: 0x6285_6407, vtype: E8_M1, vstart: 0, legal: true },
    Row { word: 0xe285_0227, vtype: E8_M1, vstart: 0, legal: false },
    Row { word: 0x0285_01a7, vtype: E8_M8, vstart: 0, legal: true },
    // under vill: vsetvli x5, x6, e32, m1, ta, ma; vl4re32.v v8, (x10); vs1r.v v3, (x10); vmv2r.v v2, v4
    Row { word: 0x0d03_72d7, vtype: VILL, vstart: 0, legal: true },
    Row { word: 0x6285_6407, vtype: VILL, vstart: 0, legal: true },
    Row { word: 0x0285_01a7, vtype: VILL, vstart: 0, legal: true },
    Row { word: 0x9e40_b157, vtype: VILL, vstart: 0, legal: true },
    Row { word: 0x9e40_b1d7, vtype: VILL, vstart: 0, legal: false },
    // and vadd.vv v4, v4, v4; vle8.v v3, (x10); vlm.v v3, (x10); vmv.x.s x5, v3; vcpop.m x0, v2, v0.t
    Row { word: 0x0242_0257, vtype: VILL, vstart: 0, legal: false },
    Row { word: 0x0205_0187, vtype: VILL, vstart: 0, legal: false },
    Row { word: 0x02b5_0187, vtype: VILL, vstart: 0, legal: false },
    Row { word: 0x4230_22d7, vtype: VILL, vstart: 0, legal: false },
    Row { word: 0x4028_2057, vtype: VILL, vstart: 0, legal: false },
];

#[test]
fn memory_words(rt: HostRuntime) {
    for (i, row) in MEMORY_WORDS.iter().enumerate() {
        assert!(rt; is_answered(*row), "row {i}");
    }
}

fn is_answered(row: Row) -> bool {
    match decode_v(row.word) {
        Some(found) => legal(&found, &Vtype::from_bits(row.vtype), row.vstart, VLEN) == row.legal,
        None => false,
    }
}
