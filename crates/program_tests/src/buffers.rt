//! Lists of operations: their room, their order and their tally.
use crate::chains::cost_in;
use micro_ir::{MicroBuf, MicroOp};
use std::alloc::Global;
use std::test::Fail;

// How many operations there is room for.
const ROOM: u32 = 2;

// The passes that are put into a list, whether up and by how many subarrays; the room that is left then, and the number of
// passes.
#[derive(Clone, Copy)]
struct Row {
    put: &'static [(bool, u8)],
    spare: u32,
    passes: u128,
}

static ROWS: [Row; 2] = [
    Row {
        put: &[],
        spare: 2,
        passes: 0,
    },
    Row {
        put: &[(true, 3), (false, 4)],
        spare: 0,
        passes: 7,
    },
];

// A list of these passes.
fn list_of(alloc: Global, put: &[(bool, u8)]) -> Result<MicroBuf, Fail> {
    let mut buf = MicroBuf::new(alloc, ROOM)?;
    for (up, times) in put {
        if buf.spare() == 0 {
            return Err("no more passes than there is room for".into());
        }
        buf.push(MicroOp::Pass {
            up: *up,
            times: *times,
        });
    }
    Ok(buf)
}

// Whether the operations are these passes.
fn are_passes(ops: &[MicroOp], put: &[(bool, u8)]) -> bool {
    for (op, wanted) in ops.iter().zip(put) {
        let MicroOp::Pass { up, times } = op else {
            return false;
        };
        if (*up, *times) != *wanted {
            return false;
        }
    }
    ops.len() == put.len()
}

// Whether the list has the room, the operations and the tally of the row, and all room when it is cleared.
fn is_kept(alloc: Global, row: &Row) -> Result<bool, Fail> {
    let mut buf = list_of(alloc, row.put)?;
    let is_full = buf.spare() == row.spare
        && are_passes(buf.ops(), row.put)
        && cost_in(buf.tally()) == (0, 0, row.passes);
    buf.clear();
    Ok(is_full && buf.ops().is_empty() && buf.spare() == ROOM)
}

#[test]
fn room_goes_down_and_comes_back(rt: HostRuntime) -> Result<(), Fail> {
    for (i, row) in ROWS.iter().enumerate() {
        assert!(rt; is_kept(rt.alloc(), row)?, "row {i}");
    }
    Ok(())
}
