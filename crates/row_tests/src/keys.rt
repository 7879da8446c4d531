//! Which pairs are keys.
use cam_chain::Keys;

// Pairs of a row and the bit wanted in it, and whether they are keys.
#[derive(Clone, Copy)]
struct Row {
    pairs: &'static [(u8, bool)],
    kept: bool,
}

#[rattlefmt::skip]
const ROWS: [Row; 8] = [
    Row { pairs: &[], kept: true },
    Row { pairs: &[(63, true)], kept: true },
    Row { pairs: &[(63, true), (0, false)], kept: true },
    Row { pairs: &[(63, true), (0, false), (7, true)], kept: true },
    Row { pairs: &[(63, true), (0, false), (7, true), (8, true)], kept: true },
    // five pairs; a row that no subarray has; a row twice
    Row { pairs: &[(0, true), (1, true), (2, true), (3, true), (4, true)], kept: false },
    Row { pairs: &[(64, true)], kept: false },
    Row { pairs: &[(5, true), (9, true), (5, false)], kept: false },
];

fn is_answered(row: Row) -> bool {
    match Keys::new(row.pairs) {
        Some(keys) => row.kept && keys.as_slice() == row.pairs,
        None => !row.kept,
    }
}

#[test]
fn pairs_of_rows_that_are_apart_are_keys(rt: HostRuntime) {
    for (i, row) in ROWS.iter().enumerate() {
        assert!(rt; is_answered(*row), "row {i}");
    }
}
