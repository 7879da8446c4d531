//! Elements that are moved without a program, on registers of 64 bits.
ghost use Rattle.std.specs.Prelude.{◌≡◌, true, false};
ghost use Rattle.rvv_meaning.specs.Vectors.{is_computed};
ghost use Rattle.rvv_meaning.specs.Whole.{makes_number};

use crate::chains::{Word, chain_of, cost_in, holds};
use rvv_decode::{OpiOp, OpmOp, VOp, decode_v};
use std::alloc::Global;
use std::test::Fail;
use vec_exec::{engine, permute};
use vtype_cfg::{Cfg, Policy, Vtype, legal};

// The length of a register, and the columns that hold it.
const VLEN: u32 = 64;

const COLUMNS: u32 = 2;

// The vector types of elements of 8 bits in one register and in two, and of 32 bits in one; and the flags of agnostic tails and
// of agnostic masked elements.
const E8_M1: u32 = 0;

const E8_M2: u32 = 0x01;

const E32_M1: u32 = 0x10;

const TAIL_AGNOSTIC: u32 = 1 << 6;

const MASK_AGNOSTIC: u32 = 1 << 7;

// vrgather.vv v4, v2, v3; and the same with v0.t.
const GATHER: u32 = 0x3221_8257;

const GATHER_UNDER_MASK: u32 = 0x3021_8257;

// vrgatherei16.vv v4, v2 with the indices in v6, in v8 and in v3.
const GATHER_BY_SIX: u32 = 0x3a23_0257;

const GATHER_BY_EIGHT: u32 = 0x3a24_0257;

const GATHER_BY_THREE: u32 = 0x3a21_8257;

// viota.m v4, v2; and the same with v0.t.
const COUNT: u32 = 0x5228_2257;

const COUNT_UNDER_MASK: u32 = 0x5028_2257;

// vcompress.vm v4, v2 with the mask in v3 and in v6.
const COMPRESS: u32 = 0x5e21_a257;

const COMPRESS_BY_SIX: u32 = 0x5e23_2257;

// A word, the setting and the first element that it is carried out under, and words of the chain before and after it.
#[derive(Clone, Copy)]
struct Row {
    word: u32,
    vtype: u32,
    vl: u32,
    vstart: u32,
    policy: Policy,
    before: &'static [Word],
    after: &'static [Word],
}

static ROWS: [Row; 18] = [
    // the indices 7, 0, 8, 255, 3, 3, 1 and 2: those past the last element give 0
    Row {
        word: GATHER,
        vtype: E8_M1,
        vl: 8,
        vstart: 0,
        policy: Policy::Keep,
        before: &[
            Word(2, 0, 0x1312_1110),
            Word(2, 1, 0x1716_1514),
            Word(3, 0, 0xff08_0007),
            Word(3, 1, 0x0201_0303),
        ],
        after: &[Word(4, 0, 0x0000_1017), Word(4, 1, 0x1211_1313)],
    },
    // an index may be vl or more; the tail stays
    Row {
        word: GATHER,
        vtype: E8_M1 | TAIL_AGNOSTIC,
        vl: 2,
        vstart: 0,
        policy: Policy::Keep,
        before: &[
            Word(2, 1, 0x1716_1514),
            Word(3, 0, 0x0000_0507),
            Word(4, 0, 0xa3a2_a1a0),
            Word(4, 1, 0xa7a6_a5a4),
        ],
        after: &[Word(4, 0, 0xa3a2_1517), Word(4, 1, 0xa7a6_a5a4)],
    },
    // it becomes ones
    Row {
        word: GATHER,
        vtype: E8_M1 | TAIL_AGNOSTIC,
        vl: 2,
        vstart: 0,
        policy: Policy::Ones,
        before: &[Word(2, 1, 0x1716_1514), Word(3, 0, 0x0000_0507)],
        after: &[Word(4, 0, 0xffff_1517), Word(4, 1, 0xffff_ffff)],
    },
    // element 0 stands before vstart, and elements 2 and 3 are masked off
    Row {
        word: GATHER_UNDER_MASK,
        vtype: E8_M1 | MASK_AGNOSTIC,
        vl: 5,
        vstart: 1,
        policy: Policy::Ones,
        before: &[
            Word(0, 0, 0x0000_0012),
            Word(2, 0, 0x1312_1110),
            Word(3, 0, 0x0302_0100),
            Word(4, 0, 0xa3a2_a1a0),
            Word(4, 1, 0xa7a6_a5a4),
        ],
        after: &[Word(4, 0, 0xffff_11a0), Word(4, 1, 0xa7a6_a510)],
    },
    // where vstart is not below vl, nothing is written
    Row {
        word: GATHER,
        vtype: E8_M1 | TAIL_AGNOSTIC,
        vl: 2,
        vstart: 2,
        policy: Policy::Ones,
        before: &[Word(2, 0, 0x1312_1110), Word(4, 0, 0xa3a2_a1a0)],
        after: &[Word(4, 0, 0xa3a2_a1a0), Word(4, 1, 0)],
    },
    // the indices 256, 1, 2, 7, 0, 5, 8 and 3 of 16 bits stand in two registers
    Row {
        word: GATHER_BY_SIX,
        vtype: E8_M1,
        vl: 8,
        vstart: 0,
        policy: Policy::Keep,
        before: &[
            Word(2, 0, 0x1312_1110),
            Word(2, 1, 0x1716_1514),
            Word(6, 0, 0x0001_0100),
            Word(6, 1, 0x0007_0002),
            Word(7, 0, 0x0005_0000),
            Word(7, 1, 0x0003_0008),
        ],
        after: &[Word(4, 0, 0x1712_1100), Word(4, 1, 0x1300_1510)],
    },
    // and of a group of two registers in four: 15 for element 0, 1 for element 15, and 0 for the others
    Row {
        word: GATHER_BY_EIGHT,
        vtype: E8_M2,
        vl: 16,
        vstart: 0,
        policy: Policy::Keep,
        before: &[
            Word(2, 0, 0x1312_1110),
            Word(3, 1, 0x1f1e_1d1c),
            Word(8, 0, 0x0000_000f),
            Word(11, 1, 0x0001_0000),
        ],
        after: &[
            Word(4, 0, 0x1010_101f),
            Word(4, 1, 0x1010_1010),
            Word(5, 1, 0x1110_1010),
        ],
    },
    // two elements of 32 bits have their indices in one word
    Row {
        word: GATHER_BY_THREE,
        vtype: E32_M1,
        vl: 2,
        vstart: 0,
        policy: Policy::Keep,
        before: &[
            Word(2, 0, 0x1312_1110),
            Word(2, 1, 0x1716_1514),
            Word(3, 0, 0x0000_0001),
        ],
        after: &[Word(4, 0, 0x1716_1514), Word(4, 1, 0x1312_1110)],
    },
    // places 0, 2, 4, 5 and 7 are set
    Row {
        word: COUNT,
        vtype: E8_M1,
        vl: 8,
        vstart: 0,
        policy: Policy::Keep,
        before: &[Word(2, 0, 0x0000_00b5)],
        after: &[Word(4, 0, 0x0201_0100), Word(4, 1, 0x0404_0302)],
    },
    // places 0 and 3 are masked off, and so do not count
    Row {
        word: COUNT_UNDER_MASK,
        vtype: E8_M1,
        vl: 8,
        vstart: 0,
        policy: Policy::Keep,
        before: &[
            Word(0, 0, 0x0000_00f6),
            Word(2, 0, 0x0000_00b5),
            Word(4, 0, 0xa3a2_a1a0),
        ],
        after: &[Word(4, 0, 0xa300_00a0), Word(4, 1, 0x0303_0201)],
    },
    Row {
        word: COUNT_UNDER_MASK,
        vtype: E8_M1 | MASK_AGNOSTIC | TAIL_AGNOSTIC,
        vl: 6,
        vstart: 0,
        policy: Policy::Ones,
        before: &[Word(0, 0, 0x0000_00f6), Word(2, 0, 0x0000_00b5)],
        after: &[Word(4, 0, 0xff00_00ff), Word(4, 1, 0xffff_0201)],
    },
    // no place is set
    Row {
        word: COMPRESS,
        vtype: E8_M1 | TAIL_AGNOSTIC,
        vl: 8,
        vstart: 0,
        policy: Policy::Keep,
        before: &[Word(2, 0, 0x1312_1110), Word(4, 0, 0xa3a2_a1a0)],
        after: &[Word(4, 0, 0xa3a2_a1a0), Word(4, 1, 0)],
    },
    Row {
        word: COMPRESS,
        vtype: E8_M1 | TAIL_AGNOSTIC,
        vl: 8,
        vstart: 0,
        policy: Policy::Ones,
        before: &[Word(2, 0, 0x1312_1110)],
        after: &[Word(4, 0, 0xffff_ffff), Word(4, 1, 0xffff_ffff)],
    },
    // all are
    Row {
        word: COMPRESS,
        vtype: E8_M1,
        vl: 8,
        vstart: 0,
        policy: Policy::Keep,
        before: &[
            Word(2, 0, 0x1312_1110),
            Word(2, 1, 0x1716_1514),
            Word(3, 0, 0xffff_ffff),
        ],
        after: &[Word(4, 0, 0x1312_1110), Word(4, 1, 0x1716_1514)],
    },
    // places 1, 4 and 7 are, and the last one is in the tail
    Row {
        word: COMPRESS,
        vtype: E8_M1 | TAIL_AGNOSTIC,
        vl: 7,
        vstart: 0,
        policy: Policy::Keep,
        before: &[
            Word(2, 0, 0x1312_1110),
            Word(2, 1, 0x1716_1514),
            Word(3, 0, 0x0000_0092),
            Word(4, 0, 0xa3a2_a1a0),
        ],
        after: &[Word(4, 0, 0xa3a2_1411), Word(4, 1, 0)],
    },
    Row {
        word: COMPRESS,
        vtype: E8_M1 | TAIL_AGNOSTIC,
        vl: 7,
        vstart: 0,
        policy: Policy::Ones,
        before: &[
            Word(2, 0, 0x1312_1110),
            Word(2, 1, 0x1716_1514),
            Word(3, 0, 0x0000_0092),
        ],
        after: &[Word(4, 0, 0xffff_1411), Word(4, 1, 0xffff_ffff)],
    },
    // without a length nothing is written
    Row {
        word: COMPRESS,
        vtype: E8_M1 | TAIL_AGNOSTIC,
        vl: 0,
        vstart: 0,
        policy: Policy::Ones,
        before: &[Word(3, 0, 0xffff_ffff), Word(4, 0, 0xa3a2_a1a0)],
        after: &[Word(4, 0, 0xa3a2_a1a0), Word(4, 1, 0)],
    },
    // elements 8 and 15 stand in the second register
    Row {
        word: COMPRESS_BY_SIX,
        vtype: E8_M2,
        vl: 16,
        vstart: 0,
        policy: Policy::Keep,
        before: &[
            Word(3, 0, 0x1b1a_1918),
            Word(3, 1, 0x1f1e_1d1c),
            Word(6, 0, 0x0000_8100),
        ],
        after: &[Word(4, 0, 0x0000_1f18), Word(5, 0, 0)],
    },
];

// Whether the elements of an operation may be moved without a program.
fn is_permutation(op: VOp) -> bool
    ensures computes { result ≡ true → is_computed op ≡ true }
    ensures moves { result ≡ true → makes_number op ≡ false }
{
    match op {
        VOp::Opi(op) => matches!(op, OpiOp::Vrgather | OpiOp::Vrgatherei16),
        VOp::Opm(op) => matches!(op, OpmOp::Viota | OpmOp::Vcompress),
        VOp::Config(_) | VOp::Memory(_) => false,
    }
}

// Whether the row's word leaves what the row says, and nothing is counted.
#[tactic(auto, unfolding(vtype_cfg::specs::Settings::is_valid, vtype_cfg::specs::Settings::is_legal_vlen, vtype_cfg::specs::Settings::legal_vlens))]
fn is_carried_out(alloc: Global, row: &Row) -> Result<bool, Fail> {
    let vtype = Vtype::from_bits(row.vtype);
    if row.vl > vtype.vlmax(VLEN) || row.vstart >= VLEN {
        return Err("a length and a first element".into());
    }
    let cfg = Cfg {
        vtype,
        vl: row.vl,
        vstart: row.vstart,
        vxrm: 0,
        vlen: VLEN,
        policy: row.policy,
    };
    let i = decode_v(row.word).ok_or("a vector word")?;
    if engine(&i) || !is_permutation(i.op) {
        return Err("an instruction without a program".into());
    }
    if !legal(&i, &cfg.vtype, cfg.vstart, cfg.vlen) {
        return Err("a legal instruction".into());
    }
    let mut chain = chain_of(alloc, COLUMNS, row.before)?;
    if chain.columns() != COLUMNS {
        return Err("registers of this length".into());
    }
    permute(&i, &cfg, &mut chain);
    Ok(holds(&chain, row.after) && cost_in(chain.counts()) == (0, 0, 0))
}

#[test]
fn elements_are_moved(rt: HostRuntime) -> Result<(), Fail> {
    for (i, row) in ROWS.iter().enumerate() {
        assert!(rt; is_carried_out(rt.alloc(), row)?, "row {i}");
    }
    Ok(())
}
