//! Words and their listings, as an assembler reads them and a disassembler writes them.
use code_list::text;
use line_text::LineBuf;

// A word and its listing.
type Row = (u32, &'static str);

#[rattlefmt::skip]
const SCALAR: [Row; 16] = [
    (0x0070_0513, "addi x10, x0, 7"), (0xfff5_0513, "addi x10, x10, -1"), (0x41f5_d513, "srai x10, x11, 31"),
    (0x03df_7fb3, "remu x31, x30, x29"), (0xffc1_2083, "lw x1, -4(x2)"), (0xfe11_2e23, "sw x1, -4(x2)"),
    (0xfe05_1ee3, "bne x10, x0, -4"), (0xff5f_f06f, "jal x0, -12"), (0x0001_00e7, "jalr x1, x2, 0"),
    (0xffff_f537, "lui x10, 0xfffff"), (0x00f1_10f3, "csrrw x1, 0x00f, x2"), (0x00f2_d0f3, "csrrwi x1, 0x00f, 5"),
    (0x0ff0_000f, "fence"), (0x0000_100f, "fence.i"), (0x0010_0073, "ebreak"), (0x0000_0000, ".word 0x00000000"),
];

#[rattlefmt::skip]
const ARITHMETIC: [Row; 28] = [
    (0x0221_8257, "vadd.vv v4, v2, v3"), (0x002e_b0d7, "vadd.vi v1, v2, -3, v0.t"), (0x963f_b0d7, "vsll.vi v1, v3, 31"),
    (0xb221_80d7, "vnsrl.wv v1, v2, v3"), (0xd621_a0d7, "vwadd.wv v1, v2, v3"), (0xc621_a0d7, "vwadd.vv v1, v2, v3"),
    (0x4021_c0d7, "vadc.vxm v1, v2, x3, v0"), (0x5c21_80d7, "vmerge.vvm v1, v2, v3, v0"),
    (0x4621_80d7, "vmadc.vv v1, v2, v3"), (0x4422_b0d7, "vmadc.vim v1, v2, 5, v0"),
    (0x5e01_80d7, "vmv.v.v v1, v3"), (0x5e05_40d7, "vmv.v.x v1, x10"), (0x5e0f_b0d7, "vmv.v.i v1, -1"),
    (0x9e20_b257, "vmv2r.v v4, v2"), (0x9e23_b0d7, "vmv8r.v v1, v2"), (0x0220_a0d7, "vredsum.vs v1, v2, v1"),
    (0x6621_a0d7, "vmand.mm v1, v2, v3"), (0x5e21_a0d7, "vcompress.vm v1, v2, v3"), (0x4a82_2257, "vzext.vf4 v4, v8"),
    (0x5038_20d7, "viota.m v1, v3, v0.t"), (0x5208_a057, "vid.v v0"), (0x4038_22d7, "vcpop.m x5, v3, v0.t"),
    (0x4220_20d7, "vmv.x.s x1, v2"), (0x4201_60d7, "vmv.s.x v1, x2"), (0xb621_a0d7, "vmacc.vv v1, v3, v2"),
    (0xfaa4_e157, "vwmaccus.vx v2, x9, v10"), (0x0d00_72d7, "vsetvli x5, x0, 0x0d0"), (0xcd02_7057, "vsetivli x0, 4, 0x0d0"),
];

#[rattlefmt::skip]
const MEMORY: [Row; 16] = [
    (0x0205_6407, "vle32.v v8, (x10)"), (0x4005_5407, "vlseg3e16.v v8, (x10), v0.t"), (0x0306_8187, "vle8ff.v v3, (x13)"),
    (0x2306_8187, "vlseg2e8ff.v v3, (x13)"), (0x0a31_6087, "vlse32.v v1, (x2), x3"), (0x0462_d207, "vluxei16.v v4, (x5), v6, v0.t"),
    (0x2e62_0107, "vloxseg2ei8.v v2, (x4), v6"), (0x6285_d607, "vl4re16.v v12, (x11)"), (0x02b6_0007, "vlm.v v0, (x12)"),
    (0x0207_03a7, "vse8.v v7, (x14)"), (0x0831_50a7, "vsse16.v v1, (x2), x3, v0.t"), (0x6682_e227, "vsuxseg4ei32.v v4, (x5), v8"),
    (0x0e62_0127, "vsoxei8.v v2, (x4), v6"), (0xe287_8427, "vs8r.v v8, (x15)"), (0x02b8_04a7, "vsm.v v9, (x16)"),
    (0x8031_70d7, "vsetvl x1, x2, x3"),
];

fn is_listed(row: Row) -> bool {
    let mut line = LineBuf::new();
    text(row.0, &mut line);
    line.as_str() == row.1
}

#[test]
fn scalar_words(rt: HostRuntime) {
    for (i, row) in SCALAR.iter().enumerate() {
        assert!(rt; is_listed(*row), "row {i}");
    }
}

#[test]
fn arithmetic_words(rt: HostRuntime) {
    for (i, row) in ARITHMETIC.iter().enumerate() {
        assert!(rt; is_listed(*row), "row {i}");
    }
}

#[test]
fn memory_words(rt: HostRuntime) {
    for (i, row) in MEMORY.iter().enumerate() {
        assert!(rt; is_listed(*row), "row {i}");
    }
}
