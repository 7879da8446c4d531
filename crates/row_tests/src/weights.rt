//! What numbers of tags make of the control number, worked out by hand.
use reduce_tree::{How, weighted};

// So many tags of a bit are taken into the number, which becomes the one that is wanted.
#[derive(Clone, Copy)]
struct Row {
    num: u64,
    count: u32,
    bit: u8,
    how: How,
    want: u64,
}

#[rattlefmt::skip]
const ROWS: [Row; 16] = [
    Row { num: 5, count: 3, bit: 4, how: How::Sum, want: 53 },
    Row { num: 0, count: u32::MAX, bit: 31, how: How::Sum, want: 0x7fff_ffff_8000_0000 },
    Row { num: u64::MAX, count: 2, bit: 0, how: How::Sum, want: 1 },
    Row { num: 53, count: 3, bit: 4, how: How::Less, want: 5 },
    Row { num: 0, count: 1, bit: 31, how: How::Less, want: 0xffff_ffff_8000_0000 },
    Row { num: 7, count: 0, bit: 0, how: How::Less, want: 7 },
    Row { num: 0b1001, count: 2, bit: 1, how: How::Or, want: 0b1011 },
    Row { num: 0b1001, count: 2, bit: 3, how: How::Or, want: 0b1001 },
    Row { num: 0b1001, count: 0, bit: 1, how: How::Or, want: 0b1001 },
    Row { num: 0b1001, count: 2, bit: 3, how: How::Clear, want: 0b0001 },
    Row { num: 0b1001, count: 2, bit: 1, how: How::Clear, want: 0b1001 },
    Row { num: 0b1001, count: 0, bit: 3, how: How::Clear, want: 0b1001 },
    Row { num: 0b1001, count: 3, bit: 3, how: How::Xor, want: 0b0001 },
    Row { num: 0b1001, count: 1, bit: 1, how: How::Xor, want: 0b1011 },
    Row { num: 0b1001, count: 2, bit: 3, how: How::Xor, want: 0b1001 },
    Row { num: 0b1001, count: 1, bit: 1, how: How::Clip, want: 0b1001 },
];

fn is_made(row: Row) -> bool {
    row.bit < 32 && weighted(row.num, row.count, row.bit, row.how) == row.want
}

#[test]
fn control_numbers_after_tags(rt: HostRuntime) {
    for (i, row) in ROWS.iter().enumerate() {
        assert!(rt; is_made(*row), "row {i}");
    }
}
