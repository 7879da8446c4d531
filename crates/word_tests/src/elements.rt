//! Elements of bytes whose numbers are written out by hand.
use rvv_meaning::{el, mask_bit};

const BYTES: [u8; 8] = [0x01, 0x80, 0xfe, 0x03, 0x10, 0x20, 0x40, 0xff];

// An element of the bytes by its width in bits and its place.
#[derive(Clone, Copy)]
struct Element {
    width: u8,
    place: u32,
    number: u32,
}

#[rattlefmt::skip]
const ELEMENTS: [Element; 6] = [
    Element { width: 8, place: 0, number: 0x01 },
    Element { width: 8, place: 7, number: 0xff },
    Element { width: 16, place: 1, number: 0x03fe },
    Element { width: 16, place: 3, number: 0xff40 },
    Element { width: 32, place: 0, number: 0x03fe_8001 },
    Element { width: 32, place: 1, number: 0xff40_2010 },
];

fn is_read(row: Element) -> bool {
    match row.width {
        8 if row.place < 8 => el(&BYTES, 8, row.place) == row.number,
        16 if row.place < 4 => el(&BYTES, 16, row.place) == row.number,
        32 if row.place < 2 => el(&BYTES, 32, row.place) == row.number,
        _ => false,
    }
}

#[test]
fn elements_of_each_width(rt: HostRuntime) {
    for (i, row) in ELEMENTS.iter().enumerate() {
        assert!(rt; is_read(*row), "row {i}");
    }
}

// A bit of the bytes as a mask.
#[derive(Clone, Copy)]
struct MaskBit {
    place: u32,
    bit: bool,
}

#[rattlefmt::skip]
const MASK_BITS: [MaskBit; 7] = [
    MaskBit { place: 0, bit: true },
    MaskBit { place: 1, bit: false },
    MaskBit { place: 14, bit: false },
    MaskBit { place: 15, bit: true },
    MaskBit { place: 16, bit: false },
    MaskBit { place: 17, bit: true },
    MaskBit { place: 63, bit: true },
];

fn is_bit(row: MaskBit) -> bool {
    row.place < 64 && mask_bit(&BYTES, row.place) == row.bit
}

#[test]
fn bits_of_a_mask(rt: HostRuntime) {
    for (i, row) in MASK_BITS.iter().enumerate() {
        assert!(rt; is_bit(*row), "row {i}");
    }
}
