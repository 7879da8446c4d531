// A whole session.
ghost use Rattle.std.specs.Prelude.{◌≡◌, ◌<◌, ◌^◌, ◌⊎◌, true, OnOk, OnErr, IfErr, IsErrOf};
ghost use Rattle.cape_io.specs.Devices.{Rose};
ghost use Rattle.cape_io.specs.Views.{KeepsFaults, devices};
ghost use Rattle.debug_core.specs.Sessions.{Answers, AnswersInPart, Cause};

use crate::talking::talk;
use cape_io::{Sink, Source};
use debug_commands::{Desk, SessionFault};
use debug_words::Reader;
use machine::Machine;
use std::alloc::Global;

/// Reads commands to their end, to `quit` or to 16,777,216 bytes, carries each out on the machine, and puts the answers to
/// `out`. The guest's output goes to `err`, that of both its outputs in their order, and its input comes from `input`. Memory is
/// taken at the start and for pages that a command maps. What `commands` has left after a `quit` is not said.
pub fn session<C: Source, S: Source, O: Sink, E: Sink>(
    alloc: Global,
    machine: &mut Machine,
    commands: &mut C,
    input: &mut S,
    out: &mut O,
    err: &mut E,
) -> Result<(), SessionFault>
    requires live { machine.old.live ≡ true }
    requires count { machine.old.core.csrs.retired < 2 ^ 62 }
    ensures answers { OnOk result (Answers (C.left commands.old) machine.old machine.new (devices S.Source O.Sink E.Sink input.old input.new out.old out.new err.old err.new)) }
    ensures prefixes { OnErr result (AnswersInPart (C.left commands.old) machine.old (devices S.Source O.Sink E.Sink input.old input.new out.old out.new err.old err.new)) }
    ensures live { OnOk result (machine.new.live ≡ true) }
    ensures quiet { OnOk result (KeepsFaults (devices S.Source O.Sink E.Sink input.old input.new out.old out.new err.old err.new)) }
    ensures quiet_commands { OnOk result (C.faults commands.new ≡ C.faults commands.old) }
    ensures read { IsErrOf result SessionFault.ReadFault → Rose (C.faults commands.old) (C.faults commands.new) ⊎ Rose (S.faults input.old) (S.faults input.new) }
    ensures cause { IfErr result (λ fault. Cause fault (C.left commands.old) machine.old (devices S.Source O.Sink E.Sink input.old input.new out.old out.new err.old err.new)) }
{
    let columns = machine.columns();
    let mut desk = match Desk::new(alloc, columns) {
        Ok(desk) => desk,
        Err(_) => return Err(SessionFault::NoMemory),
    };
    let mut reader = match Reader::new(alloc) {
        Ok(reader) => reader,
        Err(_) => return Err(SessionFault::NoMemory),
    };
    talk(
        alloc,
        machine,
        &mut desk,
        &mut reader,
        commands,
        input,
        out,
        err,
    )
}
