// What a line shows.
ghost use Rattle.std.specs.Prelude.{◌≡◌, ◌*◌, ◌≤◌, ◌^◌, is_ok};
ghost use Rattle.cam_chain.specs.ChainValue.{slices_of};
ghost use Rattle.cape_io.specs.Views.{Writes};
ghost use Rattle.debug_words.specs.Grammar.{IsShownInRange};
ghost use Rattle.debug_commands.specs.Commands.{form_text, operation_text, shown_text};

use crate::desk::{Desk, RANGE};
use cape_io::{Failed, Sink};
use debug_texts::{
    memory_line, program_line, write_operation, write_slice, write_tags, write_text,
};
use debug_words::Shown;
use machine::Machine;
use micro_ir::MicroBuf;
use report_texts::{control_lines, write_line, write_scalars, write_vector};

// What is told of a line that has no command's form.
const FORM: &[u8] = b"? form\n";

// Writes the line of one operation of a program, where it has so many.
#[tactic(auto, unfolding(crate::specs::Commands::operation_text))]
fn write_operation_at<O: Sink>(k: u32, program: &MicroBuf, out: &mut O) -> Result<(), Failed>
    ensures { Writes O.Sink (operation_text k program.now.ops) (is_ok result) out.old out.new }
{
    match program.ops().get(k as usize) {
        Some(op) => write_operation(k, op, out),
        None => write_text(RANGE, out),
    }
}

/// Writes what a line shows of a machine, which stays. The desk has the room for a program that is tried out.
#[tactic(auto, unfolding(crate::specs::Commands::shown_text))]
pub(crate) fn write_shown<O: Sink>(
    shown: Shown,
    machine: &Machine,
    desk: &mut Desk,
    out: &mut O,
) -> Result<(), Failed>
    requires range { IsShownInRange shown }
    requires length { machine.now.core.csrs.vlen ≡ 32 * desk.old.columns }
    requires count { machine.now.core.csrs.retired ≤ 2 ^ 63 }
    ensures stays { desk.new ≡ desk.old }
    ensures text { Writes O.Sink (shown_text shown machine.now.core (slices_of machine.now.chain) machine.now.last) (is_ok result) out.old out.new }
{
    match shown {
        Shown::Nothing => Ok(()),
        Shown::Regs => write_scalars(machine, out),
        Shown::Vregs(r) => write_vector(machine, r, out),
        Shown::Vcsr => write_line(&control_lines(machine.csrs()), out),
        Shown::Mem(address, len) => write_line(&memory_line(machine.mem(), address, len), out),
        Shown::Slice(sub, row) => write_slice(machine.chain(), sub, row, out),
        Shown::Tags(sub) => write_tags(machine.chain(), sub, out),
        Shown::Micro => write_line(&program_line(machine.last()), out),
        Shown::MicroAt(k) => write_operation_at(k, machine.last(), out),
        Shown::Ustep(k, sub, row) => desk.write_ustep(machine, k, sub, row, out),
        Shown::NoForm => write_text(FORM, out),
        Shown::NoRange => write_text(RANGE, out),
    }
}
