//! The report of a call that ended.
ghost use Rattle.std.specs.Prelude.{◌<◌};

use crate::parts::{Register, Shown, Slice};
use crate::runs::Ended;
use cape_top::Status;
use machine::Machine;
use std::alloc::AllocError;

// The bits of a byte.
const BYTE_BITS: u32 = 8;

// The name of a status, or of the fault of an image.
fn name_of(status: Status) -> &'static str {
    match status {
        Status::Done => "done",
        Status::Exited(_) => "exited",
        Status::Trapped => "trapped",
        Status::StepLimit => "step limit",
        Status::Refused(fault) => fault.name(),
        Status::Usage => "usage",
        Status::ReadFault => "read fault",
        Status::WriteFault => "write fault",
        Status::NoMemory => "no memory",
    }
}

// Appends a byte as it stands, or as an escape.
fn push_byte(text: &mut String, byte: u8) -> Result<(), AllocError> {
    match byte {
        b'\n' => text.push_str("\\n"),
        b'\\' => text.push_str("\\x5c"),
        b' '..=b'~' => text.push(char::from(byte)),
        _ => write!(text, "\\x{byte:02x}"),
    }
}

// Appends a line of text for each line of the bytes, and one for what stands after the last.
fn push_bytes(text: &mut String, name: &str, bytes: &[u8]) -> Result<(), AllocError> {
    let mut is_open = false;
    for byte in bytes {
        if !is_open {
            write!(text, "{name} ")?;
        }
        push_byte(text, *byte)?;
        is_open = *byte != b'\n';
        if !is_open {
            text.push('\n')?;
        }
    }
    if is_open {
        text.push('\n')?;
    }
    Ok(())
}

// A byte, and how often it stands in a row.
#[derive(Clone, Copy)]
struct Run {
    byte: u8,
    times: u32,
}

// Appends a byte and its repetitions.
fn push_run(text: &mut String, run: Run) -> Result<(), AllocError> {
    let Run { byte, times } = run;
    if times == 1 {
        write!(text, " {byte:02x}")
    } else {
        write!(text, " {byte:02x}*{times}")
    }
}

// Appends the line of a vector register.
fn push_vector(text: &mut String, machine: &Machine, r: u8) -> Result<(), AllocError>
    requires { r < 32 }
{
    write!(text, "v{r}")?;
    let mut run: Option<Run> = None;
    for j in 0..machine.csrs().vlen / BYTE_BITS {
        let byte = machine.vreg_byte(r, j);
        run = match run {
            Some(run) if run.byte == byte => Some(Run {
                byte,
                times: run.times.saturating_add(1),
            }),
            Some(run) => {
                push_run(text, run)?;
                Some(Run { byte, times: 1 })
            }
            None => Some(Run { byte, times: 1 }),
        };
    }
    if let Some(run) = run {
        push_run(text, run)?;
    }
    text.push('\n')
}

// Appends the line of the vector setting.
fn push_setting(text: &mut String, machine: &Machine) -> Result<(), AllocError> {
    let csrs = machine.csrs();
    write!(
        text,
        "vlen {} vl {} vtype {:08x}",
        csrs.vlen, csrs.vl, csrs.vtype
    )?;
    writeln!(
        text,
        " vstart {} vxrm {} vxsat {}",
        csrs.vstart,
        csrs.vxrm,
        u8::from(csrs.vxsat)
    )
}

// Appends the line of a row of the slices.
fn push_row(text: &mut String, machine: &Machine, slice: Slice) -> Result<(), AllocError> {
    let Slice { sub, row } = slice;
    write!(text, "row {sub} {row} ")?;
    let chain = machine.chain();
    let bits = chain.row(sub, row);
    for col in 0..chain.columns() {
        text.push(if bits.get(col) { '1' } else { '0' })?;
    }
    text.push('\n')
}

// Appends the line of what is asked for.
fn push_shown(text: &mut String, machine: &Machine, shown: Shown) -> Result<(), AllocError> {
    match shown {
        Shown::Scalar(Register { number }) => {
            writeln!(text, "x{number} {:08x}", machine.regs().get(number))
        }
        Shown::Vector(Register { number }) => push_vector(text, machine, number),
        Shown::Setting => push_setting(text, machine),
        Shown::Row(slice) => push_row(text, machine, slice),
    }
}

// Appends the lines of a machine.
fn push_machine(text: &mut String, machine: &Machine, shown: &[Shown]) -> Result<(), AllocError> {
    let life = if machine.live() { "live" } else { "dead" };
    let counts = machine.counts();
    write!(
        text,
        "{life} pc {:08x} retired {}",
        machine.pc(),
        machine.retired()
    )?;
    write!(
        text,
        " searches {} updates {}",
        counts.searches, counts.updates
    )?;
    writeln!(text, " passes {}", counts.passes)?;
    for shown in shown {
        push_shown(text, machine, *shown)?;
    }
    Ok(())
}

/// Appends the lines of a call that ended, with what is asked for of the machine that it kept.
pub(crate) fn push_ended(
    text: &mut String,
    ended: &Ended,
    shown: &[Shown],
) -> Result<(), AllocError> {
    let status = ended.status;
    writeln!(text, "status {} {}", status.code(), name_of(status))?;
    push_bytes(text, "out", &ended.out)?;
    push_bytes(text, "err", &ended.err)?;
    if let Some(machine) = &ended.kept {
        push_machine(text, machine, shown)?;
    }
    Ok(())
}
