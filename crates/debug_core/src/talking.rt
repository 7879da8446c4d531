// The lines of a session, one by one.
ghost use Rattle.std.specs.Prelude.{◌≡◌, ℕ, ◌*◌, ◌<◌, ◌≤◌, ◌^◌, ◌⊎◌, Bool, true, List, [], Option, OnOk, OnErr, IfErr, IsErrOf, is_ok};
ghost use Rattle.cape_io.specs.Devices.{Rose};
ghost use Rattle.cape_io.specs.Views.{Writes, KeepsFaults, devices};
ghost use Rattle.debug_words.specs.Grammar.{command_of, IsInRange};
ghost use Rattle.debug_words.specs.Lines.{Gives};
ghost use Rattle.debug_commands.specs.Commands.{steps_in};
ghost use Rattle.debug_core.specs.Sessions.{is_quit, limit_text, Answers, AnswersInPart, Cause};

use cape_io::{Failed, Sink, Source};
use debug_commands::{Desk, SessionFault, perform};
use debug_texts::write_text;
use debug_words::{Command, CommandLine, Reader, command_of};
use machine::Machine;
use std::alloc::Global;

// What is said where the commands were cut off.
const LIMIT: &[u8] = b"? input limit\n";

// Whether a command ends the session.
fn ends(command: Command) -> bool
    ensures { result ≡ is_quit command }
{
    matches!(command, Command::Quit)
}

// The command of a line. It makes at most 1,000,000,000 steps.
fn command_in(line: &CommandLine) -> Command
    ensures value { result ≡ command_of line.now.items }
    ensures range { IsInRange result }
    ensures few { steps_in result ≤ 1000000000 }
{
    command_of(line.as_slice())
}

// Says where the commands were cut off.
#[tactic(auto, unfolding(crate::specs::Sessions::limit_text))]
fn write_limit<O: Sink>(reader: &Reader, out: &mut O) -> Result<(), Failed>
    ensures text { (cut : Bool) (left : Option (List ℕ)) → Gives cut [] reader.now left → Writes O.Sink (limit_text cut) (is_ok result) out.old out.new }
    ensures quiet { OnOk result (O.faults out.new ≡ O.faults out.old) }
    ensures rose { OnErr result (Rose (O.faults out.old) (O.faults out.new)) }
{
    if reader.is_at_limit() {
        write_text(LIMIT, out)
    } else {
        Ok(())
    }
}

// The end of the commands.
fn finish<O: Sink>(reader: &Reader, out: &mut O) -> Result<(), SessionFault>
    ensures text { (cut : Bool) (left : Option (List ℕ)) → Gives cut [] reader.now left → Writes O.Sink (limit_text cut) (is_ok result) out.old out.new }
    ensures quiet { OnOk result (O.faults out.new ≡ O.faults out.old) }
    ensures fault { IfErr result (λ fault. fault ≡ SessionFault.WriteFault × Rose (O.faults out.old) (O.faults out.new)) }
{
    match write_limit(reader, out) {
        Ok(()) => Ok(()),
        Err(_) => Err(SessionFault::WriteFault),
    }
}

/// Reads commands to their end, to a quit or to the limit, and answers each. The desk and the reader are new.
pub(crate) fn talk<C: Source, S: Source, O: Sink, E: Sink>(
    alloc: Global,
    machine: &mut Machine,
    desk: &mut Desk,
    reader: &mut Reader,
    commands: &mut C,
    input: &mut S,
    out: &mut O,
    err: &mut E,
) -> Result<(), SessionFault>
    requires live { machine.old.live ≡ true }
    requires count { machine.old.core.csrs.retired < 2 ^ 62 }
    requires length { machine.old.core.csrs.vlen ≡ 32 * desk.old.columns }
    requires no_breaks { desk.old.breaks ≡ [] }
    requires no_pages { desk.old.pages ≡ 0 }
    requires none_pending { reader.old.pending ≡ [] }
    requires none_taken { reader.old.taken ≡ 0 }
    ensures answers { OnOk result (Answers (C.left commands.old) machine.old machine.new (devices S.Source O.Sink E.Sink input.old input.new out.old out.new err.old err.new)) }
    ensures prefixes { OnErr result (AnswersInPart (C.left commands.old) machine.old (devices S.Source O.Sink E.Sink input.old input.new out.old out.new err.old err.new)) }
    ensures live { OnOk result (machine.new.live ≡ true) }
    ensures quiet { OnOk result (KeepsFaults (devices S.Source O.Sink E.Sink input.old input.new out.old out.new err.old err.new)) }
    ensures quiet_commands { OnOk result (C.faults commands.new ≡ C.faults commands.old) }
    ensures read { IsErrOf result SessionFault.ReadFault → Rose (C.faults commands.old) (C.faults commands.new) ⊎ Rose (S.faults input.old) (S.faults input.new) }
    ensures cause { IfErr result (λ fault. Cause fault (C.left commands.old) machine.old (devices S.Source O.Sink E.Sink input.old input.new out.old out.new err.old err.new)) }
{
    let mut line = CommandLine::new();
    'lines: loop {
        match reader.next_line(commands, &mut line) {
            Err(_) => return Err(SessionFault::ReadFault),
            Ok(there) => {
                if !there {
                    return finish(reader, out);
                }
            }
        }
        let command = command_in(&line);
        if ends(command) {
            return Ok(());
        }
        perform(alloc, command, machine, desk, input, out, err)?;
    }
}
