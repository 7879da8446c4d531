// Steps.
ghost use Rattle.std.specs.Prelude.{◌≡◌, ◌+◌, ◌*◌, ◌<◌, ◌≤◌, ◌^◌, true, false, OnOk, IsErrOf, is_ok};
ghost use Rattle.cape_io.specs.Devices.{Rose};
ghost use Rattle.cape_io.specs.Views.{Writes, KeepsFaults, devices, views};
ghost use Rattle.rvv_meaning.specs.declared.Mode.TheVariants.{Running};
ghost use Rattle.debug_commands.specs.Commands.{goes_on, StepsRead, place_text, Advances, HoldsAt};

use crate::desk::{Desk, is_among};
use cape_io::{Failed, Sink, Source};
use debug_texts::write_place;
use machine::{DeviceFault, Machine};
use report_texts::{report_line, write_line};

// Whether a machine makes one more step.
fn goes_on(first: bool, breaks: &[u32], machine: &Machine) -> bool
    ensures value { result ≡ goes_on first breaks.now machine.now.core }
    ensures running { result ≡ true → machine.now.core.mode ≡ Running }
{
    match machine.halted() {
        None => first || !is_among(machine.pc(), breaks),
        Some(_) => false,
    }
}

/// Up to so many steps, as long as the machine runs. It stops before an instruction at one of the breaks, but not before
/// the first step. The guest's output goes to `err`.
pub(crate) fn advance<S: Source, O: Sink, E: Sink>(
    machine: &mut Machine,
    desk: &Desk,
    breaks: &[u32],
    k: u32,
    input: &mut S,
    out: &mut O,
    err: &mut E,
) -> Result<(), DeviceFault>
    requires live { machine.old.live ≡ true }
    requires count { machine.old.core.csrs.retired + k ≤ 2 ^ 63 }
    ensures moves { Advances breaks.now k (is_ok result) machine.old machine.new desk.now (devices S.Source O.Sink E.Sink input.old input.new out.old out.new err.old err.new) }
    ensures live { OnOk result (machine.new.live ≡ true) }
    ensures count { machine.new.core.csrs.retired ≤ machine.old.core.csrs.retired + k }
    ensures length { machine.new.core.csrs.vlen ≡ machine.old.core.csrs.vlen }
    ensures quiet { OnOk result (KeepsFaults (devices S.Source O.Sink E.Sink input.old input.new out.old out.new err.old err.new)) }
    ensures rose_input { IsErrOf result DeviceFault.ReadFault → Rose (S.faults input.old) (S.faults input.new) }
    ensures reads { IsErrOf result DeviceFault.ReadFault → HoldsAt (StepsRead breaks.now k) machine.old desk.now (views S.Source O.Sink E.Sink input.old out.old err.old) }
    ensures rose_err { IsErrOf result DeviceFault.WriteFault → Rose (E.faults err.old) (E.faults err.new) }
{
    let mut first = true;
    for i in 0..k {
        if !goes_on(first, breaks, machine) {
            return Ok(());
        }
        machine.step(input, out, err, true)?;
        first = false;
    }
    Ok(())
}

/// Writes the line of the place of a machine, or how it ended.
#[tactic(auto, unfolding(crate::specs::Commands::place_text))]
pub(crate) fn write_whereabouts<O: Sink>(machine: &Machine, out: &mut O) -> Result<(), Failed>
    ensures { Writes O.Sink (place_text machine.now.core) (is_ok result) out.old out.new }
{
    match machine.halted() {
        None => write_place(machine.pc(), machine.retired(), machine.mem(), out),
        Some(answer) => write_line(&report_line(answer, machine.retired()), out),
    }
}
