//! Scalar words of the standard's encodings, with their fields read off by hand.
use rv32_decode::{Instr, Op, decode};

// A word and the instruction that it means.
#[derive(Clone, Copy)]
struct Row {
    word: u32,
    op: Op,
    rd: u8,
    rs1: u8,
    rs2: u8,
    imm: u32,
}

#[rattlefmt::skip]
const ROWS: [Row; 19] = [
    Row { word: 0x0070_0513, op: Op::Addi, rd: 10, rs1: 0, rs2: 0, imm: 7 },
    Row { word: 0xfe05_0ee3, op: Op::Beq, rd: 0, rs1: 10, rs2: 0, imm: 0xffff_fffc },
    Row { word: 0x0000_00e3, op: Op::Beq, rd: 0, rs1: 0, rs2: 0, imm: 0x800 },
    Row { word: 0xffc1_2083, op: Op::Lw, rd: 1, rs1: 2, rs2: 0, imm: 0xffff_fffc },
    Row { word: 0x0020_006f, op: Op::Jal, rd: 0, rs1: 0, rs2: 0, imm: 2 },
    Row { word: 0x0010_006f, op: Op::Jal, rd: 0, rs1: 0, rs2: 0, imm: 0x800 },
    Row { word: 0xff5f_f06f, op: Op::Jal, rd: 0, rs1: 0, rs2: 0, imm: 0xffff_fff4 },
    Row { word: 0xffff_f537, op: Op::Lui, rd: 10, rs1: 0, rs2: 0, imm: 0xffff_f000 },
    Row { word: 0xfe11_2e23, op: Op::Sw, rd: 0, rs1: 2, rs2: 1, imm: 0xffff_fffc },
    Row { word: 0x41f5_d513, op: Op::Srai, rd: 10, rs1: 11, rs2: 0, imm: 31 },
    Row { word: 0x03df_7fb3, op: Op::Remu, rd: 31, rs1: 30, rs2: 29, imm: 0 },
    Row { word: 0x0ff0_000f, op: Op::Fence, rd: 0, rs1: 0, rs2: 0, imm: 0x0ff },
    Row { word: 0x8330_000f, op: Op::Fence, rd: 0, rs1: 0, rs2: 0, imm: 0x833 },
    Row { word: 0x0000_100f, op: Op::FenceI, rd: 0, rs1: 0, rs2: 0, imm: 0 },
    Row { word: 0x0000_0073, op: Op::Ecall, rd: 0, rs1: 0, rs2: 0, imm: 0 },
    Row { word: 0x0010_0073, op: Op::Ebreak, rd: 0, rs1: 0, rs2: 0, imm: 0 },
    Row { word: 0xc020_2573, op: Op::Csrrs, rd: 10, rs1: 0, rs2: 0, imm: 0xc02 },
    Row { word: 0x3401_1173, op: Op::Csrrw, rd: 2, rs1: 2, rs2: 0, imm: 0x340 },
    Row { word: 0x340f_d073, op: Op::Csrrwi, rd: 0, rs1: 31, rs2: 0, imm: 0x340 },
];

// Both ways between the word and its instruction.
fn is_meant(row: Row) -> bool {
    let Row {
        word,
        op,
        rd,
        rs1,
        rs2,
        imm,
    } = row;
    match decode(word) {
        Some(found) => found
            == Instr {
                op,
                rd,
                rs1,
                rs2,
                imm,
            }
            && found.bits() == word,
        None => false,
    }
}

#[test]
fn words_and_their_instructions(rt: HostRuntime) {
    for (i, row) in ROWS.iter().enumerate() {
        assert!(rt; is_meant(*row), "row {i}");
    }
}

const WITHOUT_MEANING: [u32; 7] = [
    0x0000_0000,
    0xffff_ffff,
    0x0000_2063,
    0x4000_1013,
    0x6000_0033,
    0x0000_1067,
    0x0000_00f3,
];

#[test]
fn words_that_mean_nothing(rt: HostRuntime) {
    for word in WITHOUT_MEANING {
        assert!(rt; decode(word).is_none(), "{word:#010x}");
    }
}
