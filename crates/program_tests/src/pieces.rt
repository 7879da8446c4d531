//! Operations, table steps and pieces of lists, carried out on a chain.
use crate::chains::{Cost, Trial, Word, cost_of};
use bit_laws::W8;
use cam_chain::Keys;
use micro_ir::{MicroBuf, MicroOp, TableStep, emit_broadcast, emit_increment, emit_table};
use std::alloc::Global;
use std::test::Fail;

// Room for any list here.
const ROOM: u32 = 64;

// The row that one bit of an element is spread in.
const BROADCAST_ROW: u8 = 37;

// A row of no use of its own.
const WINDOW_ROW: u8 = 40;

// A list.
#[derive(Clone, Copy)]
enum List {
    // the windows below
    Windows,
    // the step below
    Table,
    // bit 2 of each byte of row 1
    Broadcast,
    // the lowest bit of each byte of row 1 is added to the byte of row 2
    Increment,
}

// Where the rows 1 and 2 differ in one of the subarrays 0 to 3, the subarray above it gets a 1 in row 3.
const DIFFER: TableStep = TableStep {
    inputs: [1, 2, 0, 0],
    n: 2,
    on: 0b0110,
    out: 3,
    subs: 0b1111,
    up: true,
    times: 1,
};

// The row that holds a sum.
const RESULT_ROW: u8 = 36;

// The lowest bit of each byte of row 1 is carried in.
const LOWEST: TableStep = TableStep {
    inputs: [1, 0, 0, 0],
    n: 1,
    on: 0b10,
    out: 35,
    subs: 0x0101_0101,
    up: true,
    times: 0,
};

// A list, how many of its operations are carried out, on what, and what they cost.
#[derive(Clone, Copy)]
struct Row {
    list: List,
    first: usize,
    trial: Trial,
    cost: Cost,
}

static ROWS: [Row; 4] = [
    // The elements have the numbers 10, 11 and 12. The last window is not carried out.
    Row {
        list: List::Windows,
        first: 4,
        trial: Trial {
            columns: 3,
            before: &[],
            after: &[
                Word(WINDOW_ROW, 0, 0),
                Word(WINDOW_ROW, 1, 0xffff_ffff),
                Word(WINDOW_ROW, 2, 0),
                Word(1, 0, 0),
                Word(1, 1, 0xfc),
                Word(1, 2, 0),
            ],
            clips: false,
        },
        cost: (1, 1, 2),
    },
    // The inputs differ in the subarrays 1, 2 and 4, of which the last is not selected.
    Row {
        list: List::Table,
        first: 4,
        trial: Trial {
            columns: 1,
            before: &[
                Word(1, 0, 0b1_0011),
                Word(2, 0, 0b0_0101),
                Word(3, 0, 0b0_0001),
            ],
            after: &[Word(1, 0, 0b1_0011), Word(3, 0, 0b0_1101)],
            clips: false,
        },
        cost: (2, 1, 1),
    },
    Row {
        list: List::Broadcast,
        first: 25,
        trial: Trial {
            columns: 1,
            before: &[Word(1, 0, 0x04fb_ff00), Word(BROADCAST_ROW, 0, 0x8181_8181)],
            after: &[Word(1, 0, 0x04fb_ff00), Word(BROADCAST_ROW, 0, 0xff00_ff00)],
            clips: false,
        },
        cost: (9, 9, 7),
    },
    // The lowest byte wraps, and the highest one gets nothing.
    Row {
        list: List::Increment,
        first: 51,
        trial: Trial {
            columns: 1,
            before: &[Word(1, 0, 0x00ff_0001), Word(2, 0, 0xff7f_00ff)],
            after: &[
                Word(1, 0, 0x00ff_0001),
                Word(2, 0, 0xff7f_00ff),
                Word(RESULT_ROW, 0, 0xff80_0000),
            ],
            clips: false,
        },
        cost: (26, 18, 7),
    },
];

// Appends a window of one element, a search for it, a pass, an update in a byte, and a window that spoils the update.
fn push_windows(buf: &mut MicroBuf) -> Result<(), Fail> {
    if buf.spare() < ROOM {
        return Err("room".into());
    }
    buf.push(MicroOp::Window {
        row: WINDOW_ROW,
        width: 32,
        first: 10,
        from: 11,
        to: 12,
        masked: false,
    });
    let keys = Keys::new(&[(WINDOW_ROW, true)]).ok_or("a key")?;
    buf.push(MicroOp::Search {
        subs: 0xffff_ffff,
        keys,
        join: false,
    });
    buf.push(MicroOp::Pass { up: true, times: 2 });
    buf.push(MicroOp::Update {
        subs: 0xff,
        row: 1,
        bit: true,
    });
    buf.push(MicroOp::Window {
        row: 1,
        width: 32,
        first: 0,
        from: 0,
        to: 3,
        masked: false,
    });
    Ok(())
}

// Appends the list that adds the bits.
#[tactic(auto, unfolding(micro_ir::specs::Tables::values_of, micro_ir::specs::Subs::subs_of))]
fn push_increment(buf: &mut MicroBuf) -> Result<(), Fail> {
    if buf.spare() < ROOM {
        return Err("room".into());
    }
    emit_increment::<W8>(buf, 2, &LOWEST);
    Ok(())
}

// The list.
#[tactic(auto, unfolding(micro_ir::specs::Tables::values_of))]
fn list_of(alloc: Global, list: List) -> Result<MicroBuf, Fail> {
    let mut buf = MicroBuf::new(alloc, ROOM)?;
    match list {
        List::Windows => push_windows(&mut buf)?,
        List::Table => emit_table(&mut buf, &DIFFER),
        List::Broadcast => emit_broadcast::<W8>(&mut buf, 1, 2),
        List::Increment => push_increment(&mut buf)?,
    }
    Ok(buf)
}

// Whether the list leaves what the row says, at the cost that it says.
fn is_carried_out(alloc: Global, row: &Row) -> Result<bool, Fail> {
    let buf = list_of(alloc, row.list)?;
    Ok(cost_of(alloc, &row.trial, &buf, row.first)? == Some(row.cost))
}

#[test]
fn lists_leave_these_words(rt: HostRuntime) -> Result<(), Fail> {
    for (i, row) in ROWS.iter().enumerate() {
        assert!(rt; is_carried_out(rt.alloc(), row)?, "row {i}");
    }
    Ok(())
}
