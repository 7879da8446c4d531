//! The lists of kinds of operation, carried out on a chain of one column.
use crate::chains::{Trial, Word, cost_of};
use bit_laws::{W8, W16, W32};
use gen_arith::{emit_add, emit_eq, emit_lt, emit_max, emit_sbc};
use gen_logic::{emit_and, emit_merge, emit_splat, emit_xor};
use gen_shift::{emit_sext, emit_sll, emit_sra, emit_sra_raw, emit_srl, emit_srl_raw};
use micro_ir::{MicroBuf, Place};
use std::alloc::Global;
use std::test::Fail;

// Room for any of these lists.
const ROOM: u32 = 700;

// The bits of a byte and of half a word.
const BYTE: u8 = 8;

const HALF: u8 = 16;

// The rounding mode that rounds down.
const ROUNDS_DOWN: u8 = 2;

// How many rows are registers.
const REGISTERS: u8 = 32;

// The rows of active elements, of mask bits, of the scalar and of truths.
const ACTIVE_ROW: u8 = 32;

const MASK_ROW: u8 = 33;

const SCALAR_ROW: u8 = 34;

const TRUTH_ROW: u8 = 41;

// Where shifts leave their results before a commit, of elements of 16 bits and of others.
const EVEN_ROW: u8 = 38;

const ODD_ROW: u8 = 39;

// What a list makes: of elements of 8 bits, but for those that are named otherwise.
#[derive(Clone, Copy)]
enum Kind {
    Merge,
    Xor,
    And,
    Splat(u32),
    SplatHalf(u32),
    Add,
    Sbc,
    Lt,
    Eq,
    Max,
    Sll,
    SllHalf,
    SllWord,
    Srl,
    SrlHalf,
    SrlWord,
    Sra,
    SraHalf,
    SraWord,
    SraRaw,
    SrlRawHalf,
    SraRawWord,
    // to elements of 16 bits from 8, and of 32 from 16 and from 8
    SextHalf,
    SextWord,
    SextWordByte,
}

// A kind, the rows of its operands and its result; words of the chain before its list, and one after it.
#[derive(Clone, Copy)]
struct Row {
    kind: Kind,
    rows: [u8; 3],
    before: &'static [Word],
    after: &'static [Word],
}

// Three of the four bytes are active, and the mask bits of the lower two are 1.
const LOGIC: &[Word] = &[
    Word(ACTIVE_ROW, 0, 0x00ff_ffff),
    Word(MASK_ROW, 0, 0x0000_ffff),
    Word(2, 0, 0x1234_5678),
    Word(3, 0, 0xff00_ff00),
    Word(4, 0, 0xaaaa_aaaa),
];

// All bytes are active.
const SUM: &[Word] = &[
    Word(ACTIVE_ROW, 0, u32::MAX),
    Word(1, 0, 0x807f_00ff),
    Word(2, 0, 0x8001_0001),
];

const DIFFERENCE: &[Word] = &[
    Word(ACTIVE_ROW, 0, u32::MAX),
    Word(MASK_ROW, 0, 0x0000_ffff),
    Word(1, 0, 0x0500_0005),
    Word(2, 0, 0x0301_0003),
];

const SIGNED: &[Word] = &[
    Word(ACTIVE_ROW, 0, u32::MAX),
    Word(1, 0, 0x807f_0105),
    Word(2, 0, 0x7f80_0205),
];

const ALIKE: &[Word] = &[Word(ACTIVE_ROW, 0, u32::MAX), Word(1, 0, 0x8055_01ff)];

// The low bits of an amount count. The highest byte is not active.
const MOVED: &[Word] = &[
    Word(ACTIVE_ROW, 0, 0x00ff_ffff),
    Word(1, 0, 0x8101_ff80),
    Word(2, 0, 0x0b07_0408),
    Word(3, 0, 0xaaaa_aaaa),
];

const MOVED_DOWN: &[Word] = &[
    Word(ACTIVE_ROW, 0, u32::MAX),
    Word(1, 0, 0x807f_8180),
    Word(2, 0, 0x0703_0701),
];

const MOVED_HALVES: &[Word] = &[
    Word(ACTIVE_ROW, 0, u32::MAX),
    Word(1, 0, 0x8001_f234),
    Word(2, 0, 0x0014_fff1),
];

const MOVED_WORD: &[Word] = &[
    Word(ACTIVE_ROW, 0, u32::MAX),
    Word(1, 0, 0x8000_0001),
    Word(2, 0, 0x0000_0024),
];

// No element is active.
const NARROW_HALVES: &[Word] = &[Word(1, 0, 0x0080_007f)];

const NARROW_WORD: &[Word] = &[Word(1, 0, 0x0000_8080)];

const NARROW_BYTE: &[Word] = &[Word(1, 0, 0x0000_0080)];

static ROWS: [Row; 27] = [
    Row {
        kind: Kind::Merge,
        rows: [2, 3, 4],
        before: LOGIC,
        after: &[Word(4, 0, 0xaa34_ff00)],
    },
    Row {
        kind: Kind::Xor,
        rows: [2, 3, 5],
        before: LOGIC,
        after: &[Word(5, 0, 0x0034_a978)],
    },
    Row {
        kind: Kind::And,
        rows: [2, 3, 6],
        before: LOGIC,
        after: &[Word(6, 0, 0x0000_5600)],
    },
    Row {
        kind: Kind::And,
        rows: [2, 2, 7],
        before: LOGIC,
        after: &[Word(7, 0, 0x0034_5678)],
    },
    Row {
        kind: Kind::Splat(0x1a5),
        rows: [0, 0, 0],
        before: &[],
        after: &[Word(SCALAR_ROW, 0, 0xa5a5_a5a5)],
    },
    Row {
        kind: Kind::SplatHalf(0xffff_1234),
        rows: [0, 0, 0],
        before: &[],
        after: &[Word(SCALAR_ROW, 0, 0x1234_1234)],
    },
    // no carry passes into the next element
    Row {
        kind: Kind::Add,
        rows: [1, 2, 3],
        before: SUM,
        after: &[Word(3, 0, 0x0080_0000)],
    },
    // a mask bit is borrowed
    Row {
        kind: Kind::Sbc,
        rows: [1, 2, 3],
        before: DIFFERENCE,
        after: &[Word(3, 0, 0x02ff_ff01)],
    },
    Row {
        kind: Kind::Lt,
        rows: [1, 2, 3],
        before: SIGNED,
        after: &[Word(TRUTH_ROW, 0, 0x8000_8000)],
    },
    Row {
        kind: Kind::Eq,
        rows: [1, 1, 3],
        before: ALIKE,
        after: &[Word(TRUTH_ROW, 0, 0x8080_8080)],
    },
    Row {
        kind: Kind::Max,
        rows: [1, 2, 3],
        before: SIGNED,
        after: &[Word(3, 0, 0x7f7f_0205)],
    },
    Row {
        kind: Kind::Sll,
        rows: [1, 2, 3],
        before: MOVED,
        after: &[Word(3, 0, 0xaa80_f080)],
    },
    Row {
        kind: Kind::SllHalf,
        rows: [1, 2, 3],
        before: MOVED_HALVES,
        after: &[Word(3, 0, 0x0010_e468)],
    },
    Row {
        kind: Kind::SllWord,
        rows: [1, 2, 3],
        before: MOVED_WORD,
        after: &[Word(3, 0, 0x0000_0010)],
    },
    Row {
        kind: Kind::Srl,
        rows: [1, 2, 3],
        before: MOVED_DOWN,
        after: &[Word(3, 0, 0x010f_0140)],
    },
    Row {
        kind: Kind::SrlHalf,
        rows: [1, 2, 3],
        before: MOVED_HALVES,
        after: &[Word(3, 0, 0x0800_791a)],
    },
    Row {
        kind: Kind::SrlWord,
        rows: [1, 2, 3],
        before: MOVED_WORD,
        after: &[Word(3, 0, 0x0800_0000)],
    },
    // the sign comes in
    Row {
        kind: Kind::Sra,
        rows: [1, 2, 3],
        before: MOVED_DOWN,
        after: &[Word(3, 0, 0xff0f_ffc0)],
    },
    Row {
        kind: Kind::SraHalf,
        rows: [1, 2, 3],
        before: MOVED_HALVES,
        after: &[Word(3, 0, 0xf800_f91a)],
    },
    Row {
        kind: Kind::SraWord,
        rows: [1, 2, 3],
        before: MOVED_WORD,
        after: &[Word(3, 0, 0xf800_0000)],
    },
    // amounts by themselves
    Row {
        kind: Kind::Sll,
        rows: [2, 2, 3],
        before: MOVED_DOWN,
        after: &[Word(3, 0, 0x8018_8002)],
    },
    // no register changes
    Row {
        kind: Kind::SraRaw,
        rows: [1, 2, 3],
        before: MOVED_DOWN,
        after: &[Word(ODD_ROW, 0, 0xff0f_ffc0), Word(3, 0, 0)],
    },
    Row {
        kind: Kind::SrlRawHalf,
        rows: [1, 2, 3],
        before: MOVED_HALVES,
        after: &[Word(EVEN_ROW, 0, 0x0800_791a), Word(3, 0, 0)],
    },
    Row {
        kind: Kind::SraRawWord,
        rows: [1, 2, 3],
        before: MOVED_WORD,
        after: &[Word(ODD_ROW, 0, 0xf800_0000), Word(3, 0, 0)],
    },
    Row {
        kind: Kind::SextHalf,
        rows: [1, 2, 3],
        before: NARROW_HALVES,
        after: &[Word(1, 0, 0xff80_007f)],
    },
    Row {
        kind: Kind::SextWord,
        rows: [1, 2, 3],
        before: NARROW_WORD,
        after: &[Word(1, 0, 0xffff_8080)],
    },
    Row {
        kind: Kind::SextWordByte,
        rows: [1, 2, 3],
        before: NARROW_BYTE,
        after: &[Word(1, 0, 0xffff_ff80)],
    },
];

// The list of the row's kind.
fn list_of(alloc: Global, row: &Row) -> Result<MicroBuf, Fail> {
    let [a, b, to] = row.rows;
    if a >= REGISTERS || b >= REGISTERS || to >= REGISTERS {
        return Err("registers".into());
    }
    let at = Place {
        a,
        b,
        addend: to,
        to,
        sub: false,
        mode: ROUNDS_DOWN,
    };
    let mut buf = MicroBuf::new(alloc, ROOM)?;
    match row.kind {
        Kind::Merge => emit_merge::<W8>(&mut buf, &at),
        Kind::Xor => emit_xor::<W8>(&mut buf, &at),
        Kind::And => emit_and::<W8>(&mut buf, &at),
        Kind::Splat(scalar) => emit_splat::<W8>(&mut buf, &at, scalar),
        Kind::SplatHalf(scalar) => emit_splat::<W16>(&mut buf, &at, scalar),
        Kind::Add => emit_add::<W8>(&mut buf, &at),
        Kind::Sbc => emit_sbc::<W8>(&mut buf, &at),
        Kind::Lt => emit_lt::<W8>(&mut buf, &at),
        Kind::Eq => emit_eq::<W8>(&mut buf, &at),
        Kind::Max => emit_max::<W8>(&mut buf, &at),
        Kind::Sll => emit_sll::<W8>(&mut buf, &at),
        Kind::SllHalf => emit_sll::<W16>(&mut buf, &at),
        Kind::SllWord => emit_sll::<W32>(&mut buf, &at),
        Kind::Srl => emit_srl::<W8>(&mut buf, &at),
        Kind::SrlHalf => emit_srl::<W16>(&mut buf, &at),
        Kind::SrlWord => emit_srl::<W32>(&mut buf, &at),
        Kind::Sra => emit_sra::<W8>(&mut buf, &at),
        Kind::SraHalf => emit_sra::<W16>(&mut buf, &at),
        Kind::SraWord => emit_sra::<W32>(&mut buf, &at),
        Kind::SraRaw => emit_sra_raw::<W8>(&mut buf, &at),
        Kind::SrlRawHalf => emit_srl_raw::<W16>(&mut buf, &at),
        Kind::SraRawWord => emit_sra_raw::<W32>(&mut buf, &at),
        Kind::SextHalf => emit_sext::<W16>(&mut buf, &at, BYTE),
        Kind::SextWord => emit_sext::<W32>(&mut buf, &at, HALF),
        Kind::SextWordByte => emit_sext::<W32>(&mut buf, &at, BYTE),
    }
    Ok(buf)
}

// Whether the list of the row's kind leaves what the row says.
fn is_made(alloc: Global, row: &Row) -> Result<bool, Fail> {
    let buf = list_of(alloc, row)?;
    let trial = Trial {
        columns: 1,
        before: row.before,
        after: row.after,
        clips: false,
    };
    Ok(cost_of(alloc, &trial, &buf, buf.ops().len())?.is_some())
}

#[test]
fn lists_of_kinds_leave_these_words(rt: HostRuntime) -> Result<(), Fail> {
    for (i, row) in ROWS.iter().enumerate() {
        assert!(rt; is_made(rt.alloc(), row)?, "row {i}");
    }
    Ok(())
}
