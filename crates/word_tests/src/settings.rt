//! Settings and lengths that are known from the vector specification.
use vtype_cfg::{Avl, Vtype, set_vl};

// The bits of vtype of some settings.
const E8_MF4: u32 = 0x06;

const E8_M1: u32 = 0x00;

const E8_M2: u32 = 0x01;

const E16_M1: u32 = 0x08;

const E16_M2: u32 = 0x09;

const E32_M1: u32 = 0x10;

const E32_M8: u32 = 0x13;

const VILL: u32 = 0x8000_0000;

// The length of a register in bits.
const VLEN: u32 = 128;

// The bits of a setting without its flags, SEW in bits, LMUL in eighths, and VLMAX.
#[derive(Clone, Copy)]
struct Setting {
    bits: u32,
    sew: u8,
    lmul8: u8,
    vlmax: u32,
}

#[rattlefmt::skip]
const SETTINGS: [Setting; 15] = [
    Setting { bits: 0x00, sew: 8, lmul8: 8, vlmax: 16 },
    Setting { bits: 0x01, sew: 8, lmul8: 16, vlmax: 32 },
    Setting { bits: 0x02, sew: 8, lmul8: 32, vlmax: 64 },
    Setting { bits: 0x03, sew: 8, lmul8: 64, vlmax: 128 },
    Setting { bits: 0x06, sew: 8, lmul8: 2, vlmax: 4 },
    Setting { bits: 0x07, sew: 8, lmul8: 4, vlmax: 8 },
    Setting { bits: 0x08, sew: 16, lmul8: 8, vlmax: 8 },
    Setting { bits: 0x09, sew: 16, lmul8: 16, vlmax: 16 },
    Setting { bits: 0x0a, sew: 16, lmul8: 32, vlmax: 32 },
    Setting { bits: 0x0b, sew: 16, lmul8: 64, vlmax: 64 },
    Setting { bits: 0x0f, sew: 16, lmul8: 4, vlmax: 4 },
    Setting { bits: 0x10, sew: 32, lmul8: 8, vlmax: 4 },
    Setting { bits: 0x11, sew: 32, lmul8: 16, vlmax: 8 },
    Setting { bits: 0x12, sew: 32, lmul8: 32, vlmax: 16 },
    Setting { bits: 0x13, sew: 32, lmul8: 64, vlmax: 32 },
];

// With each of the flags that say which elements are agnostic.
fn is_named(row: Setting) -> bool {
    is_named_with(row, 0x00, false, false)
        && is_named_with(row, 0x40, true, false)
        && is_named_with(row, 0x80, false, true)
        && is_named_with(row, 0xc0, true, true)
}

#[tactic(auto, unfolding(vtype_cfg::specs::Settings::is_legal_vlen, vtype_cfg::specs::Settings::legal_vlens))]
fn is_named_with(row: Setting, flags: u32, vta: bool, vma: bool) -> bool {
    let Setting {
        bits,
        sew,
        lmul8,
        vlmax,
    } = row;
    let found = Vtype::from_bits(flags | bits);
    found
        == Vtype {
            vill: false,
            vta,
            vma,
            sew,
            lmul8,
        }
        && found.bits() == flags | bits
        && found.vlmax(VLEN) == vlmax
}

#[test]
fn settings(rt: HostRuntime) {
    for (i, row) in SETTINGS.iter().enumerate() {
        assert!(rt; is_named(*row), "row {i}");
    }
}

// LMUL 1/8, reserved LMUL, e16 at 1/4, e32 at 1/2, SEW 64 and a reserved SEW, bit 8, bit 31.
#[rattlefmt::skip]
const WITHOUT_SETTING: [u32; 10] = [0x05, 0x04, 0x0e, 0x17, 0x18, 0x20, 0x38, 0x100, 0x8000_0000, 0x8000_0010];

#[test]
fn bits_that_name_no_setting(rt: HostRuntime) {
    for bits in WITHOUT_SETTING {
        assert!(rt; Vtype::from_bits(bits).bits() == VILL, "{bits:#x}");
    }
}

// A vector type and a length before, what is asked for, and the vector type and the length after it.
#[derive(Clone, Copy)]
struct Length {
    old: u32,
    old_vl: u32,
    avl: Avl,
    asked: u32,
    vtype: u32,
    vl: u32,
}

#[rattlefmt::skip]
const LENGTHS: [Length; 14] = [
    // a given length, at most VLMAX, also from vill
    Length { old: VILL, old_vl: 0, avl: Avl::Given(5), asked: E8_M1, vtype: E8_M1, vl: 5 },
    Length { old: E32_M1, old_vl: 4, avl: Avl::Given(0), asked: E8_M1, vtype: E8_M1, vl: 0 },
    Length { old: E32_M1, old_vl: 4, avl: Avl::Given(16), asked: E8_M1, vtype: E8_M1, vl: 16 },
    Length { old: E32_M1, old_vl: 4, avl: Avl::Given(u32::MAX), asked: 0xc9, vtype: 0xc9, vl: 16 },
    // the greatest length
    Length { old: VILL, old_vl: 0, avl: Avl::Max, asked: E8_MF4, vtype: E8_MF4, vl: 4 },
    Length { old: E8_M1, old_vl: 3, avl: Avl::Max, asked: E32_M8, vtype: E32_M8, vl: 32 },
    // the old length, where VLMAX stays: e8, m1 and e16, m2; e8, mf4 and e32, m1
    Length { old: E8_M1, old_vl: 3, avl: Avl::Keep, asked: E16_M2, vtype: E16_M2, vl: 3 },
    Length { old: E8_MF4, old_vl: 4, avl: Avl::Keep, asked: E32_M1, vtype: E32_M1, vl: 4 },
    Length { old: E8_M1, old_vl: 3, avl: Avl::Keep, asked: E8_M2, vtype: VILL, vl: 0 },
    Length { old: E8_M1, old_vl: 3, avl: Avl::Keep, asked: E16_M1, vtype: VILL, vl: 0 },
    Length { old: VILL, old_vl: 0, avl: Avl::Keep, asked: E8_M1, vtype: VILL, vl: 0 },
    // settings that are not supported
    Length { old: E8_M1, old_vl: 3, avl: Avl::Given(5), asked: 0x18, vtype: VILL, vl: 0 },
    Length { old: E8_M1, old_vl: 3, avl: Avl::Max, asked: 0x100, vtype: VILL, vl: 0 },
    Length { old: E8_M1, old_vl: 3, avl: Avl::Keep, asked: 0x05, vtype: VILL, vl: 0 },
];

#[tactic(auto, unfolding(vtype_cfg::specs::Settings::is_legal_vlen, vtype_cfg::specs::Settings::legal_vlens))]
fn is_left(row: Length) -> bool {
    let old = Vtype::from_bits(row.old);
    if row.old_vl > old.vlmax(VLEN) {
        return false;
    }
    let (vtype, vl) = set_vl(&old, row.old_vl, row.avl, row.asked, VLEN);
    vtype.bits() == row.vtype && vl == row.vl
}

#[test]
fn lengths(rt: HostRuntime) {
    for (i, row) in LENGTHS.iter().enumerate() {
        assert!(rt; is_left(*row), "row {i}");
    }
}
