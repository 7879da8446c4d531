//! A machine that traps at a load goes on once the page that the load lacks is mapped.
use crate::runs::{Register, Run, SPLAT_RUN, answer_after, begins_with, devices_of, machine_of};
use guest_mem::Trap;
use machine::{Machine, Step};
use std::alloc::Global;
use std::test::Fail;

// sw x2, 52(x2); addi x10, x2, 52; vsetivli x0, 8, e32, m1, ta, ma; vle32.v v2, (x10); addi x17, x0, 93; ecall. The load
// reads from 7ffffff4 on, the last 12 bytes of the stack, of which the first four are those of the stack pointer, and the
// page behind it.
const OVER_THE_END: [u32; 6] = [
    0x02212a23, 0x03410513, 0xcd047057, 0x02056107, 0x05d00893, 0x00000073,
];

const BEHIND: u32 = 0x8000_0000;

// What is done to the machine: whether the page behind the stack is asked for, with the answer, and whether it resumes;
// then how many steps it runs. And what it is then: the answer of the run, the place of the next word, how many
// instructions retired, and vstart.
struct Row {
    maps: Option<bool>,
    resumes: bool,
    steps: u64,
    answer: Option<Step>,
    pc: u32,
    retired: u64,
    vstart: u32,
}

// The answer where the load traps.
const TRAPPED: Step = Step::Trapped(Trap {
    cause: 5,
    pc: 0x10060,
    value: BEHIND,
});

const ROWS: [Row; 5] = [
    // The load traps at element 3.
    Row {
        maps: None,
        resumes: false,
        steps: 9,
        answer: Some(TRAPPED),
        pc: 0x10060,
        retired: 3,
        vstart: 3,
    },
    // A machine that trapped does not run before it resumes.
    Row {
        maps: None,
        resumes: false,
        steps: 1,
        answer: None,
        pc: 0x10060,
        retired: 3,
        vstart: 3,
    },
    // Without the page it traps again.
    Row {
        maps: None,
        resumes: true,
        steps: 1,
        answer: Some(TRAPPED),
        pc: 0x10060,
        retired: 3,
        vstart: 3,
    },
    // With the page it loads the other elements.
    Row {
        maps: Some(true),
        resumes: true,
        steps: 1,
        answer: Some(Step::Ran),
        pc: 0x10064,
        retired: 4,
        vstart: 0,
    },
    // The page is there already.
    Row {
        maps: Some(false),
        resumes: true,
        steps: 2,
        answer: Some(Step::Exited(0xf4)),
        pc: 0x1006c,
        retired: 6,
        vstart: 0,
    },
];

// The register that is loaded, after each row: the pages of the stack and the one behind it are zero but for the word
// that was stored.
const LOADED: Register = Register {
    number: 2,
    bytes: [
        0xc0, 0xff, 0xff, 0x7f, 0, 0, 0, 0, 0, 0, 0, 0, 0, 0, 0, 0, 0, 0, 0, 0,
    ],
};

// Whether the page was asked for with the answer of the row, if the row asks.
fn is_mapped(alloc: Global, machine: &mut Machine, row: &Row) -> Result<bool, Fail> {
    match row.maps {
        None => Ok(true),
        Some(added) => Ok(machine.map(alloc, BEHIND)? == added),
    }
}

// Whether the machine shows what the row says.
fn shows(machine: &Machine, row: &Row) -> bool {
    machine.pc() == row.pc
        && machine.retired() == row.retired
        && machine.csrs().vstart == row.vstart
        && begins_with(machine, &LOADED)
}

// Whether the machine does what the row says.
fn does(alloc: Global, machine: &mut Machine, row: &Row) -> Result<bool, Fail> {
    let run = Run {
        words: &OVER_THE_END,
        steps: row.steps,
        ..SPLAT_RUN
    };
    if !is_mapped(alloc, machine, row)? {
        return Ok(false);
    }
    if row.resumes {
        machine.resume();
    }
    let mut devices = devices_of(alloc, &run)?;
    let answer = answer_after(machine, &run, &mut devices);
    Ok(answer == row.answer && shows(machine, row))
}

#[test]
fn a_load_goes_on_once_its_page_is_mapped(rt: HostRuntime) -> Result<(), Fail> {
    let mut machine = machine_of(rt.alloc(), &OVER_THE_END)?;
    for (i, row) in ROWS.iter().enumerate() {
        assert!(rt; does(rt.alloc(), &mut machine, row)?, "row {i}");
    }
    Ok(())
}
