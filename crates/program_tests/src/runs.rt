//! Steps of a machine over memory. The words and what they leave are worked out by hand.
use crate::chains::{Cost, cost_in};
use crate::lists::are_listed;
use cape_io::{MemSink, MemSource};
use elf_load::load;
use guest_images::image_of;
use guest_mem::Trap;
use machine::{Machine, Step};
use rvv_meaning::Policy;
use std::alloc::Global;
use std::test::Fail;

// addi x10, x0, 7; vsetivli x0, 4, e32, m1, ta, ma; vmv.v.x v1, x10; vxor.vv v2, v1, v1; addi x17, x0, 93; ecall
const SPLAT: [u32; 6] = [
    0x00700513, 0xcd027057, 0x5e0540d7, 0x2e108157, 0x05d00893, 0x00000073,
];

// It writes two bytes of its own header to the output, and meets zeros.
const WRITE: [u32; 6] = [
    0x00100513, 0x000105b7, 0x00200613, 0x04000893, 0x00000073, 0x00000000,
];

// It writes the last byte of its page and the first of the next to the output.
const WRITE_OVER_AN_END: [u32; 6] = [
    0x00100513, 0x000115b7, 0xfff58593, 0x00200613, 0x04000893, 0x00000073,
];

// It asks for a byte of the input: addi x10, x0, 0; lui x11, 0x10; addi x12, x0, 1; addi x17, x0, 63; ecall; nop
const READ: [u32; 6] = [
    0x00000513, 0x000105b7, 0x00100613, 0x03f00893, 0x00000073, 0x00000013,
];

// It asks for a byte of the input at the top of its stack: addi x10, x0, 0; addi x11, x2, -4; and the rest as above.
const READ_ON_THE_STACK: [u32; 6] = [
    0x00000513, 0xffc10593, 0x00100613, 0x03f00893, 0x00000073, 0x00000013,
];

// The length of a register, the most steps of a run, and the room of an output.
const VLEN: u32 = 1024;

const MOST_STEPS: u64 = 10;

const ROOM: usize = 10;

// A run: its words, its steps, whether both outputs are one, and the puts of the sinks that fail, with the bytes that they
// put. The input fails at its first take.
#[derive(Clone, Copy)]
pub(crate) struct Run {
    pub(crate) words: &'static [u32; 6],
    pub(crate) steps: u64,
    pub(crate) merged: bool,
    pub(crate) fails: &'static [(u64, usize)],
}

// What a run reads, and where it writes.
#[derive(Drop)]
pub(crate) struct Devices {
    input: MemSource,
    out: MemSink,
    err: MemSink,
}

// A machine after a run, its answer, and its devices.
#[derive(Drop)]
struct Ran {
    machine: Machine,
    answer: Option<Step>,
    devices: Devices,
}

// A machine that is to run the words.
#[tactic(auto, unfolding(vtype_cfg::specs::Settings::is_legal_vlen, vtype_cfg::specs::Settings::legal_vlens))]
pub(crate) fn machine_of(alloc: Global, words: &[u32; 6]) -> Result<Machine, Fail> {
    let image = image_of(alloc, words.as_slice())?;
    let loaded = load(alloc, &image).ok().ok_or("the image loads")?;
    Ok(Machine::new(alloc, loaded, VLEN, Policy::Keep)?)
}

// The devices of the run.
pub(crate) fn devices_of(alloc: Global, run: &Run) -> Result<Devices, Fail> {
    Ok(Devices {
        input: MemSource::new(alloc, &[], 1, &[0])?,
        out: MemSink::new(alloc, ROOM, run.fails)?,
        err: MemSink::new(alloc, ROOM, run.fails)?,
    })
}

// The answer of a machine that has retired few instructions, after the run, if no device failed.
pub(crate) fn answer_after(
    machine: &mut Machine,
    run: &Run,
    devices: &mut Devices,
) -> Option<Step> {
    if run.steps > MOST_STEPS || machine.retired() > MOST_STEPS {
        return None;
    }
    if !machine.live() || machine.halted().is_some() {
        return None;
    }
    let Devices { input, out, err } = devices;
    machine.run(run.steps, input, out, err, run.merged).ok()
}

// The machine after the run.
fn ran_by(alloc: Global, run: &Run) -> Result<Ran, Fail> {
    let mut devices = devices_of(alloc, run)?;
    let mut machine = machine_of(alloc, run.words)?;
    let answer = answer_after(&mut machine, run, &mut devices);
    Ok(Ran {
        machine,
        answer,
        devices,
    })
}

// A run, and what is left of it: the answer, where no device failed; the place of the next word, how many instructions
// retired, x10, the length of the last program and its cost with all before it; and what the sinks hold.
#[derive(Clone, Copy)]
struct Row {
    run: Run,
    answer: Option<Step>,
    pc: u32,
    retired: u64,
    x10: u32,
    program: usize,
    cost: Cost,
    out: &'static [u8],
    err: &'static [u8],
}

// A run of no steps.
const START: Row = Row {
    run: SPLAT_RUN,
    answer: Some(Step::Ran),
    pc: 0x10054,
    retired: 0,
    x10: 0,
    program: 0,
    cost: (0, 0, 0),
    out: &[],
    err: &[],
};

pub(crate) const SPLAT_RUN: Run = Run {
    words: &SPLAT,
    steps: 0,
    merged: false,
    fails: &[],
};

const WRITE_RUN: Run = Run {
    words: &WRITE,
    steps: 9,
    ..SPLAT_RUN
};

static ROWS: [Row; 15] = [
    // The last program is that of the last step, and a step without one leaves none.
    START,
    Row {
        run: Run {
            steps: 1,
            ..SPLAT_RUN
        },
        pc: 0x10058,
        retired: 1,
        x10: 7,
        ..START
    },
    Row {
        run: Run {
            steps: 2,
            ..SPLAT_RUN
        },
        pc: 0x1005c,
        retired: 2,
        x10: 7,
        ..START
    },
    Row {
        run: Run {
            steps: 3,
            ..SPLAT_RUN
        },
        pc: 0x10060,
        retired: 3,
        x10: 7,
        program: 13,
        cost: (6, 6, 0),
        ..START
    },
    Row {
        run: Run {
            steps: 4,
            ..SPLAT_RUN
        },
        pc: 0x10064,
        retired: 4,
        x10: 7,
        program: 10,
        cost: (11, 10, 0),
        ..START
    },
    Row {
        run: Run {
            steps: 5,
            ..SPLAT_RUN
        },
        pc: 0x10068,
        retired: 5,
        x10: 7,
        cost: (11, 10, 0),
        ..START
    },
    Row {
        run: Run {
            steps: 6,
            ..SPLAT_RUN
        },
        answer: Some(Step::Exited(7)),
        pc: 0x1006c,
        retired: 6,
        x10: 7,
        cost: (11, 10, 0),
        ..START
    },
    Row {
        run: Run {
            steps: 9,
            ..SPLAT_RUN
        },
        answer: Some(Step::Exited(7)),
        pc: 0x1006c,
        retired: 6,
        x10: 7,
        cost: (11, 10, 0),
        ..START
    },
    // A put that fails leaves the machine dead at the call, with the bytes that it put.
    Row {
        run: Run {
            fails: &[(0, 1)],
            ..WRITE_RUN
        },
        answer: None,
        pc: 0x10064,
        retired: 4,
        x10: 1,
        out: &[0x7f],
        ..START
    },
    Row {
        run: Run {
            merged: true,
            fails: &[(0, 1)],
            ..WRITE_RUN
        },
        answer: None,
        pc: 0x10064,
        retired: 4,
        x10: 1,
        err: &[0x7f],
        ..START
    },
    // A write goes out before an illegal word. The trap retires nothing and stands at the word.
    Row {
        run: WRITE_RUN,
        answer: Some(Step::Trapped(Trap {
            cause: 2,
            pc: 0x10068,
            value: 0,
        })),
        pc: 0x10068,
        retired: 5,
        x10: 2,
        out: &[0x7f, 0x45],
        ..START
    },
    // The image allows no write into its page, so that a read is refused: it takes nothing, and the guest goes on.
    Row {
        run: Run {
            words: &READ,
            steps: 6,
            ..SPLAT_RUN
        },
        pc: 0x1006c,
        retired: 6,
        x10: 0xffff_fff2,
        ..START
    },
    // On its stack it may read: the input fails, and the machine stands at the call.
    Row {
        run: Run {
            words: &READ_ON_THE_STACK,
            steps: 9,
            ..SPLAT_RUN
        },
        answer: None,
        pc: 0x10064,
        retired: 4,
        ..START
    },
    // A write puts a piece for each page.
    Row {
        run: Run {
            words: &WRITE_OVER_AN_END,
            steps: 6,
            fails: &[(1, 0)],
            ..SPLAT_RUN
        },
        answer: None,
        pc: 0x10068,
        retired: 5,
        x10: 1,
        out: &[0],
        ..START
    },
    Row {
        run: Run {
            words: &WRITE_OVER_AN_END,
            steps: 6,
            ..SPLAT_RUN
        },
        pc: 0x1006c,
        retired: 6,
        x10: 2,
        out: &[0, 0],
        ..START
    },
];

// Whether the machine shows what the row says. It is live where no device failed, and has ended where its answer says so.
fn shows(machine: &Machine, row: &Row) -> bool {
    machine.live() == row.answer.is_some()
        && machine.halted() == row.answer.filter(|answer| *answer != Step::Ran)
        && machine.pc() == row.pc
        && machine.retired() == row.retired
        && machine.regs().get(10) == row.x10
        && machine.last().ops().len() == row.program
        && cost_in(machine.counts()) == row.cost
}

// Whether the run leaves what the row says.
fn is_left(alloc: Global, row: &Row) -> Result<bool, Fail> {
    let ran = ran_by(alloc, &row.run)?;
    Ok(
        shows(&ran.machine, row)
            && ran.answer == row.answer
            && ran.devices.out.bytes() == row.out
            && ran.devices.err.bytes() == row.err,
    )
}

#[test]
fn runs_leave_these_machines(rt: HostRuntime) -> Result<(), Fail> {
    for (i, row) in ROWS.iter().enumerate() {
        assert!(rt; is_left(rt.alloc(), row)?, "row {i}");
    }
    Ok(())
}

// The lines of an exclusive or of one register.
static ONE_XOR: [&str; 10] = [
    "window 32 32 0 0 4 0",
    "search ffffffff 0",
    "update ffffffff 36 0",
    "search ffffffff 36=1 0",
    "search ffffffff 36=1 1",
    "update ffffffff 36 1",
    "search ffffffff 32=1 36=1 0",
    "update ffffffff 2 1",
    "search ffffffff 32=1 36=0 0",
    "update ffffffff 2 0",
];

#[test]
fn an_exclusive_or_of_one_register_makes_ten_operations(rt: HostRuntime) -> Result<(), Fail> {
    let ran = ran_by(
        rt.alloc(),
        &Run {
            steps: 4,
            ..SPLAT_RUN
        },
    )?;
    assert!(rt; are_listed(ran.machine.last().ops(), &ONE_XOR));
    Ok(())
}

// How many registers there are, and how many bytes of a register are looked at.
const REGISTER_COUNT: u8 = 32;

const SHOWN_BYTES: u32 = 20;

// A register, and its first bytes.
#[derive(Clone, Copy)]
pub(crate) struct Register {
    pub(crate) number: u8,
    pub(crate) bytes: [u8; SHOWN_BYTES as usize],
}

static REGISTERS: [Register; 2] = [
    Register {
        number: 1,
        bytes: [7, 0, 0, 0, 7, 0, 0, 0, 7, 0, 0, 0, 7, 0, 0, 0, 0, 0, 0, 0],
    },
    Register {
        number: 2,
        bytes: [0; SHOWN_BYTES as usize],
    },
];

// Whether the register begins with its bytes.
pub(crate) fn begins_with(machine: &Machine, register: &Register) -> bool {
    for j in 0..SHOWN_BYTES {
        if register.number >= REGISTER_COUNT
            || j >= machine.csrs().vlen / 8
            || machine.vreg_byte(register.number, j) != register.bytes[j as usize]
        {
            return false;
        }
    }
    true
}

#[test]
fn the_slices_hold_the_splat(rt: HostRuntime) -> Result<(), Fail> {
    let ran = ran_by(
        rt.alloc(),
        &Run {
            steps: 9,
            ..SPLAT_RUN
        },
    )?;
    for (i, register) in REGISTERS.iter().enumerate() {
        assert!(rt; begins_with(&ran.machine, register), "row {i}");
    }
    Ok(())
}
