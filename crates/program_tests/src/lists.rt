//! Lists of operations, and their text.
use cam_chain::Keys;
use micro_ir::{LineBuf, MicroBuf, MicroOp, listing};
use std::slice::from_ref;
use std::test::Fail;

/// Whether the operations have these lines.
pub(crate) fn are_listed(ops: &[MicroOp], lines: &[&str]) -> bool {
    let mut line = LineBuf::new();
    for (op, wanted) in ops.iter().zip(lines) {
        listing(op, &mut line);
        if line.as_str() != *wanted {
            return false;
        }
    }
    ops.len() == lines.len()
}

/// A search for keys, which are keys of different rows.
fn search(subs: u32, pairs: &[(u8, bool)], join: bool) -> Result<MicroOp, Fail> {
    let keys = Keys::new(pairs).ok_or("keys of different rows")?;
    Ok(MicroOp::Search { subs, keys, join })
}

// An operation and its line.
#[derive(Drop)]
struct Row {
    op: MicroOp,
    line: &'static str,
}

#[test]
fn a_line_for_each_operation(rt: HostRuntime) -> Result<(), Fail> {
    let rows = [
        Row {
            op: search(u32::MAX, &[(32, true), (36, false)], false)?,
            line: "search ffffffff 32=1 36=0 0",
        },
        Row {
            op: search(0x1a, &[], true)?,
            line: "search 0000001a 1",
        },
        Row {
            op: MicroOp::Update {
                subs: u32::MAX,
                row: 2,
                bit: true,
            },
            line: "update ffffffff 2 1",
        },
        Row {
            op: MicroOp::Pass { up: true, times: 3 },
            line: "pass 1 3",
        },
        Row {
            op: MicroOp::Window {
                row: 32,
                width: 32,
                first: 0,
                from: 0,
                to: 4,
                masked: false,
            },
            line: "window 32 32 0 0 4 0",
        },
        Row {
            op: MicroOp::Free {
                row: 52,
                width: 8,
                first: 0,
                from: 0,
                to: 3,
                masked: false,
                tail: true,
                off: false,
            },
            line: "free 52 8 0 0 3 0 1 0",
        },
        Row {
            op: MicroOp::PackMask {
                from: 41,
                under: 32,
                to: 1,
                width: 8,
                first: 0,
            },
            line: "packmask 41 32 1 8 0",
        },
    ];
    for (i, row) in rows.iter().enumerate() {
        assert!(rt; are_listed(from_ref(&row.op), &[row.line]), "row {i}");
    }
    Ok(())
}
