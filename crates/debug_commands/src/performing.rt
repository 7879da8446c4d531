// A command, carried out.
ghost use Rattle.std.specs.Prelude.{◌≡◌, ◌+◌, ◌*◌, ◌<◌, ◌≤◌, ◌^◌, ◌⊎◌, true, false, OnOk, OnErr, IfOk, IfErr, IsErrOf, is_ok};
ghost use Rattle.cape_io.specs.Devices.{Rose};
ghost use Rattle.cape_io.specs.Views.{Writes, KeepsFaults, devices, views};
ghost use Rattle.debug_words.specs.Grammar.{IsInRange};
ghost use Rattle.debug_commands.specs.Commands.{ReadsIn, break_text, map_answer, mapping, core_mapped, pages_mapped, toggled, Reads, steps_in, StepsOn, Performs, HoldsAt};

use crate::desk::Desk;
use crate::showing::write_shown;
use crate::stepping::{advance, write_whereabouts};
use cape_io::{Failed, Sink, Source};
use debug_texts::{break_line, map_line, write_text};
use debug_words::Command;
use machine::{DeviceFault, Machine};
use report_texts::write_line;
use std::alloc::{AllocError as NoMemory, Global};

// What is told of a break or a page for which there is no room.
const FULL: &[u8] = b"? full\n";

/// Why a session ends early: its commands or its guest's input could not be read, an output could not be written, or
/// memory was wanting.
#[derive(Clone, Copy, Debug, PartialEq, Eq)]
pub enum SessionFault {
    ReadFault,
    WriteFault,
    NoMemory,
}

// A text that could not be written ends a session.
fn written(put: Result<(), Failed>) -> Result<(), SessionFault>
    ensures same { is_ok result ≡ is_ok put }
    ensures fault { IfErr result (λ fault. fault ≡ SessionFault.WriteFault) }
{
    match put {
        Ok(()) => Ok(()),
        Err(_) => Err(SessionFault::WriteFault),
    }
}

// Up to so many steps, of a machine that trapped too, and the line of the place.
fn step_on<S: Source, O: Sink, E: Sink>(
    machine: &mut Machine,
    desk: &Desk,
    breaks: &[u32],
    k: u32,
    input: &mut S,
    out: &mut O,
    err: &mut E,
) -> Result<(), SessionFault>
    requires live { machine.old.live ≡ true }
    requires count { machine.old.core.csrs.retired + k ≤ 2 ^ 63 }
    ensures moves { StepsOn breaks.now k (is_ok result) machine.old machine.new desk.now (devices S.Source O.Sink E.Sink input.old input.new out.old out.new err.old err.new) }
    ensures live { OnOk result (machine.new.live ≡ true) }
    ensures count { machine.new.core.csrs.retired ≤ machine.old.core.csrs.retired + k }
    ensures length { machine.new.core.csrs.vlen ≡ machine.old.core.csrs.vlen }
    ensures quiet { OnOk result (KeepsFaults (devices S.Source O.Sink E.Sink input.old input.new out.old out.new err.old err.new)) }
    ensures rose_input { IsErrOf result SessionFault.ReadFault → Rose (S.faults input.old) (S.faults input.new) }
    ensures reads { IsErrOf result SessionFault.ReadFault → HoldsAt (ReadsIn breaks.now k) machine.old desk.now (views S.Source O.Sink E.Sink input.old out.old err.old) }
    ensures rose_output { IsErrOf result SessionFault.WriteFault → Rose (O.faults out.old) (O.faults out.new) ⊎ Rose (E.faults err.old) (E.faults err.new) }
{
    machine.resume();
    match advance(machine, desk, breaks, k, input, out, err) {
        Err(DeviceFault::ReadFault) => Err(SessionFault::ReadFault),
        Err(DeviceFault::WriteFault) => Err(SessionFault::WriteFault),
        Ok(()) => match write_whereabouts(machine, out) {
            Ok(()) => Ok(()),
            Err(_) => Err(SessionFault::WriteFault),
        },
    }
}

// Adds a break or takes it away, and tells which.
#[tactic(auto, unfolding(crate::specs::Commands::break_text))]
fn answer_break<O: Sink>(address: u32, desk: &mut Desk, out: &mut O) -> Result<(), Failed>
    ensures breaks { desk.new ≡ record desk.old { breaks = toggled address desk.old.breaks } }
    ensures text { Writes O.Sink (break_text address desk.old.breaks) (is_ok result) out.old out.new }
{
    match desk.toggle(address) {
        Some(stands) => write_line(&break_line(address, stands), out),
        None => write_text(FULL, out),
    }
}

// Maps the page of an address, where it is not mapped and there is room for one more.
#[tactic(auto, unfolding(crate::specs::Commands::mapping))]
fn add_page(
    alloc: Global,
    address: u32,
    machine: &mut Machine,
    desk: &mut Desk,
) -> Result<Option<bool>, NoMemory>
    ensures what { IfOk result (λ what. what ≡ mapping address machine.old.core desk.old.pages) }
    ensures core { IfOk result (λ what. machine.new ≡ record machine.old { core = core_mapped what address machine.old.core }) }
    ensures pages { IfOk result (λ what. desk.new ≡ record desk.old { pages = pages_mapped what desk.old.pages }) }
    ensures machine_kept { OnErr result (machine.new ≡ machine.old) }
    ensures desk_kept { OnErr result (desk.new ≡ desk.old) }
{
    if machine.mem().peek(address).is_some() {
        return Ok(Some(false));
    }
    if !desk.has_pages() {
        return Ok(None);
    }
    machine.map(alloc, address)?;
    desk.count_page();
    Ok(Some(true))
}

// Tells what was done at a page.
fn write_mapping<O: Sink>(address: u32, what: Option<bool>, out: &mut O) -> Result<(), Failed>
    ensures { Writes O.Sink (map_answer address what) (is_ok result) out.old out.new }
{
    match what {
        Some(new) => write_line(&map_line(address, new), out),
        None => write_text(FULL, out),
    }
}

/// Carries out a command, and answers it on `out`. The guest's output goes to `err`. It takes memory for a page alone.
pub fn perform<S: Source, O: Sink, E: Sink>(
    alloc: Global,
    command: Command,
    machine: &mut Machine,
    desk: &mut Desk,
    input: &mut S,
    out: &mut O,
    err: &mut E,
) -> Result<(), SessionFault>
    requires range { IsInRange command }
    requires live { machine.old.live ≡ true }
    requires length { machine.old.core.csrs.vlen ≡ 32 * desk.old.columns }
    requires count { machine.old.core.csrs.retired + steps_in command ≤ 2 ^ 63 }
    ensures moves { Performs command (is_ok result) machine.old machine.new desk.old desk.new (devices S.Source O.Sink E.Sink input.old input.new out.old out.new err.old err.new) }
    ensures live { OnOk result (machine.new.live ≡ true) }
    ensures length { machine.new.core.csrs.vlen ≡ machine.old.core.csrs.vlen }
    ensures columns { desk.new.columns ≡ desk.old.columns }
    ensures count { machine.new.core.csrs.retired ≤ machine.old.core.csrs.retired + steps_in command }
    ensures quiet { OnOk result (KeepsFaults (devices S.Source O.Sink E.Sink input.old input.new out.old out.new err.old err.new)) }
    ensures rose_input { IsErrOf result SessionFault.ReadFault → Rose (S.faults input.old) (S.faults input.new) }
    ensures reads { IsErrOf result SessionFault.ReadFault → HoldsAt (Reads command) machine.old desk.old (views S.Source O.Sink E.Sink input.old out.old err.old) }
    ensures rose_output { IsErrOf result SessionFault.WriteFault → Rose (O.faults out.old) (O.faults out.new) ⊎ Rose (E.faults err.old) (E.faults err.new) }
{
    match command {
        Command::Step(k) => step_on(machine, desk, &[], k, input, out, err),
        Command::Cont(k) => step_on(machine, desk, desk.breaks(), k, input, out, err),
        Command::Break(address) => written(answer_break(address, desk, out)),
        Command::Map(address) => match add_page(alloc, address, machine, desk) {
            Ok(what) => written(write_mapping(address, what, out)),
            Err(_) => Err(SessionFault::NoMemory),
        },
        Command::Quit => Ok(()),
        Command::Show(shown) => written(write_shown(shown, machine, desk, out)),
    }
}
