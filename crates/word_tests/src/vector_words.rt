//! Vector words whose meaning is known from an assembler, and words that mean nothing.
use rvv_decode::Form::{I, V, X};
use rvv_decode::VOp::{Config, Opi, Opm};
use rvv_decode::{ConfigOp, Form, MemoryOp, OpiOp, OpmOp, VInstr, VOp, decode_v};

// A word of an arithmetic or configuration instruction, which has neither segments nor a width, and its fields.
#[derive(Clone, Copy)]
struct Row {
    word: u32,
    op: VOp,
    form: Form,
    vd: u8,
    vs1: u8,
    vs2: u8,
    vm: bool,
    zimm: u16,
}

#[rattlefmt::skip]
const ARITHMETIC: [Row; 18] = [
    // vadd.vv v4, v2, v3; vadd.vv v8, v16, v24; vadd.vi v1, v2, -3, v0.t; vxor.vv v2, v1, v1
    Row { word: 0x0221_8257, op: Opi(OpiOp::Vadd), form: V, vd: 4, vs1: 3, vs2: 2, vm: true, zimm: 0 },
    Row { word: 0x030c_0457, op: Opi(OpiOp::Vadd), form: V, vd: 8, vs1: 24, vs2: 16, vm: true, zimm: 0 },
    Row { word: 0x002e_b0d7, op: Opi(OpiOp::Vadd), form: I, vd: 1, vs1: 29, vs2: 2, vm: false, zimm: 0 },
    Row { word: 0x2e10_8157, op: Opi(OpiOp::Vxor), form: V, vd: 2, vs1: 1, vs2: 1, vm: true, zimm: 0 },
    // vadc.vxm v1, v2, x3, v0; vmerge.vim v1, v2, 5, v0; vmv.v.x v1, x10; vmv2r.v v4, v2
    Row { word: 0x4021_c0d7, op: Opi(OpiOp::Vadc), form: X, vd: 1, vs1: 3, vs2: 2, vm: false, zimm: 0 },
    Row { word: 0x5c22_b0d7, op: Opi(OpiOp::Vmerge), form: I, vd: 1, vs1: 5, vs2: 2, vm: false, zimm: 0 },
    Row { word: 0x5e05_40d7, op: Opi(OpiOp::VmvV), form: X, vd: 1, vs1: 10, vs2: 0, vm: true, zimm: 0 },
    Row { word: 0x9e20_b257, op: Opi(OpiOp::VmvWhole), form: I, vd: 4, vs1: 1, vs2: 2, vm: true, zimm: 0 },
    // vwaddu.vv v4, v5, v6; vwmaccus.vx v2, x9, v10; vzext.vf4 v4, v8
    Row { word: 0xc253_2257, op: Opm(OpmOp::Vwaddu), form: V, vd: 4, vs1: 6, vs2: 5, vm: true, zimm: 0 },
    Row { word: 0xfaa4_e157, op: Opm(OpmOp::Vwmaccus), form: X, vd: 2, vs1: 9, vs2: 10, vm: true, zimm: 0 },
    Row { word: 0x4a82_2257, op: Opm(OpmOp::VzextVf4), form: V, vd: 4, vs1: 4, vs2: 8, vm: true, zimm: 0 },
    // vmv.x.s x10, v1; vmv.s.x v1, x2; vcpop.m x5, v3, v0.t; vid.v v0
    Row { word: 0x4210_2557, op: Opm(OpmOp::VmvXS), form: V, vd: 10, vs1: 0, vs2: 1, vm: true, zimm: 0 },
    Row { word: 0x4201_60d7, op: Opm(OpmOp::VmvSX), form: X, vd: 1, vs1: 2, vs2: 0, vm: true, zimm: 0 },
    Row { word: 0x4038_22d7, op: Opm(OpmOp::Vcpop), form: V, vd: 5, vs1: 16, vs2: 3, vm: false, zimm: 0 },
    Row { word: 0x5208_a057, op: Opm(OpmOp::Vid), form: V, vd: 0, vs1: 17, vs2: 0, vm: true, zimm: 0 },
    // vsetvli x5, x0, e32, m1, ta, ma; vsetivli x0, 4, e32, m1, ta, ma; vsetvl x1, x2, x3
    Row { word: 0x0d00_72d7, op: Config(ConfigOp::Vsetvli), form: V, vd: 5, vs1: 0, vs2: 0, vm: false, zimm: 0x0d0 },
    Row { word: 0xcd02_7057, op: Config(ConfigOp::Vsetivli), form: V, vd: 0, vs1: 4, vs2: 0, vm: false, zimm: 0x0d0 },
    Row { word: 0x8031_70d7, op: Config(ConfigOp::Vsetvl), form: V, vd: 1, vs1: 2, vs2: 3, vm: false, zimm: 0 },
];

fn is_arithmetic(row: Row) -> bool {
    let Row {
        word,
        op,
        form,
        vd,
        vs1,
        vs2,
        vm,
        zimm,
    } = row;
    is_meant(
        word,
        VInstr {
            op,
            form,
            vd,
            vs1,
            vs2,
            vm,
            nf: 0,
            eew: 0,
            zimm,
        },
    )
}

#[test]
fn arithmetic_and_configuration_words(rt: HostRuntime) {
    for (i, row) in ARITHMETIC.iter().enumerate() {
        assert!(rt; is_arithmetic(*row), "row {i}");
    }
}

// A word of a load or a store, and its fields.
#[derive(Clone, Copy)]
struct Access {
    word: u32,
    op: MemoryOp,
    nf: u8,
    eew: u8,
    vd: u8,
    vs1: u8,
    vs2: u8,
    vm: bool,
}

#[rattlefmt::skip]
const ACCESSES: [Access; 14] = [
    // vle32.v v8, (x10); vlseg3e16.v v8, (x10), v0.t; vl4re16.v v12, (x11); vlm.v v0, (x12); vle8ff.v v3, (x13)
    Access { word: 0x0205_6407, op: MemoryOp::LoadUnitStride, nf: 1, eew: 32, vd: 8, vs1: 10, vs2: 0, vm: true },
    Access { word: 0x4005_5407, op: MemoryOp::LoadUnitStride, nf: 3, eew: 16, vd: 8, vs1: 10, vs2: 0, vm: false },
    Access { word: 0x6285_d607, op: MemoryOp::LoadWholeRegister, nf: 4, eew: 16, vd: 12, vs1: 11, vs2: 8, vm: true },
    Access { word: 0x02b6_0007, op: MemoryOp::LoadMask, nf: 1, eew: 8, vd: 0, vs1: 12, vs2: 11, vm: true },
    Access { word: 0x0306_8187, op: MemoryOp::LoadFaultOnlyFirst, nf: 1, eew: 8, vd: 3, vs1: 13, vs2: 16, vm: true },
    // vluxei16.v v4, (x5), v6, v0.t; vlse32.v v1, (x2), x3; vloxseg2ei8.v v2, (x4), v6
    Access { word: 0x0462_d207, op: MemoryOp::LoadIndexedUnordered, nf: 1, eew: 16, vd: 4, vs1: 5, vs2: 6, vm: false },
    Access { word: 0x0a31_6087, op: MemoryOp::LoadStrided, nf: 1, eew: 32, vd: 1, vs1: 2, vs2: 3, vm: true },
    Access { word: 0x2e62_0107, op: MemoryOp::LoadIndexedOrdered, nf: 2, eew: 8, vd: 2, vs1: 4, vs2: 6, vm: true },
    // vse8.v v7, (x14); vs8r.v v8, (x15); vsm.v v9, (x16)
    Access { word: 0x0207_03a7, op: MemoryOp::StoreUnitStride, nf: 1, eew: 8, vd: 7, vs1: 14, vs2: 0, vm: true },
    Access { word: 0xe287_8427, op: MemoryOp::StoreWholeRegister, nf: 8, eew: 8, vd: 8, vs1: 15, vs2: 8, vm: true },
    Access { word: 0x02b8_04a7, op: MemoryOp::StoreMask, nf: 1, eew: 8, vd: 9, vs1: 16, vs2: 11, vm: true },
    // vsuxseg4ei32.v v4, (x5), v8; vsse16.v v1, (x2), x3, v0.t; vsoxei8.v v2, (x4), v6
    Access { word: 0x6682_e227, op: MemoryOp::StoreIndexedUnordered, nf: 4, eew: 32, vd: 4, vs1: 5, vs2: 8, vm: true },
    Access { word: 0x0831_50a7, op: MemoryOp::StoreStrided, nf: 1, eew: 16, vd: 1, vs1: 2, vs2: 3, vm: false },
    Access { word: 0x0e62_0127, op: MemoryOp::StoreIndexedOrdered, nf: 1, eew: 8, vd: 2, vs1: 4, vs2: 6, vm: true },
];

fn is_access(row: Access) -> bool {
    let Access {
        word,
        op,
        nf,
        eew,
        vd,
        vs1,
        vs2,
        vm,
    } = row;
    is_meant(
        word,
        VInstr {
            op: VOp::Memory(op),
            form: Form::V,
            vd,
            vs1,
            vs2,
            vm,
            nf,
            eew,
            zimm: 0,
        },
    )
}

#[test]
fn memory_words(rt: HostRuntime) {
    for (i, row) in ACCESSES.iter().enumerate() {
        assert!(rt; is_access(*row), "row {i}");
    }
}

#[rattlefmt::skip]
const WITHOUT_ROW: [u32; 15] = [
    // an unmasked vadc.vvm, a masked vmandn.mm, vid.v with a vs2, a whole move of 3 registers, funct3 001 and 101
    0x4221_80d7, 0x6021_a0d7, 0x5218_a057, 0x9e21_3257, 0x0221_9257, 0x0221_d257,
    // vsetvl with bit 25; loads with mew, with 00001 for vs2, of 64 bits, of 3 whole registers, of a mask of 16 bits
    0x8200_7057, 0x1205_6407, 0x0215_6407, 0x0205_7407, 0x4285_d607, 0x02b6_5007,
    // stores of a whole register of 16 bits, with fault only first; another opcode
    0x0287_d427, 0x0306_81a7, 0x0000_0013,
];

#[test]
fn words_of_no_row(rt: HostRuntime) {
    for word in WITHOUT_ROW {
        assert!(rt; decode_v(word).is_none(), "{word:#010x}");
    }
}

// Both ways between the word and its instruction.
fn is_meant(word: u32, want: VInstr) -> bool {
    match decode_v(word) {
        Some(found) => found == want && found.bits() == word,
        None => false,
    }
}
