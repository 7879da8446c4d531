// The top call.
ghost use Rattle.std.specs.Prelude.{◌≡◌, ◌⊎◌, None, true, false, map, string_bytes};
ghost use Rattle.cape_io.specs.Views.{Writes};
ghost use Rattle.command_words.specs.Help.{help_text};
ghost use Rattle.rvv_meaning.specs.Texts.{usage_line};
ghost use Rattle.cape_top.specs.Calls.{call};
ghost use Rattle.cape_top.specs.Promises.{words_of, CallEnds, HasCause};

use crate::debugging::debug;
use crate::ending::Status;
use crate::images::do_on_image;
use crate::workloads::{bench, write_workload};
use cape_io::{Files, Sink, Source};
use command_words::{Command, command_of, help_lines};
use machine::Machine;
use std::alloc::Global;

// The place of the operand among the words.
const OPERAND: usize = 1;

// Writes that the words are no command.
fn write_usage<E: Sink>(err: &mut E) -> Status
    ensures only { (result ≡ Status.Usage) ⊎ (result ≡ Status.WriteFault) }
    ensures said { result ≡ Status.Usage → Writes E.Sink usage_line true err.old err.new }
    ensures fails { result ≡ Status.WriteFault → Writes E.Sink usage_line false err.old err.new }
{
    match err.put(b"cape: usage\n") {
        Ok(()) => Status::Usage,
        Err(_) => Status::WriteFault,
    }
}

// Writes the lines that show the commands.
fn write_help<O: Sink>(out: &mut O) -> Status
    ensures only { (result ≡ Status.Done) ⊎ (result ≡ Status.WriteFault) }
    ensures said { result ≡ Status.Done → Writes O.Sink help_text true out.old out.new }
    ensures fails { result ≡ Status.WriteFault → Writes O.Sink help_text false out.old out.new }
{
    match out.put(help_lines().as_bytes()) {
        Ok(()) => Status::Done,
        Err(_) => Status::WriteFault,
    }
}

/// Does what the words say, which are the words after the program's name.
///
/// It ends as `CallEnds` says: by the state that the run of the image reaches, or by the image's first fault. Why it has its
/// status, `HasCause` says. What the file or the input decides is promised where their bytes are known.
pub fn cape<F: Files, S: Source, O: Sink, E: Sink>(
    alloc: Global,
    words: &[String],
    files: &mut F,
    input: &mut S,
    out: &mut O,
    err: &mut E,
    kept: &mut Option<Machine>,
) -> Status
    requires words { F.names files.old ≡ map string_bytes words.now }
    requires closed { F.is_open files.old ≡ false }
    requires none { kept.old ≡ None }
    ensures ends { CallEnds (words_of words.now) (call F.Files S.Source O.Sink E.Sink files.old files.new input.old input.new out.old out.new err.old err.new) result kept.new }
    ensures cause { HasCause (words_of words.now) (call F.Files S.Source O.Sink E.Sink files.old files.new input.old input.new out.old out.new err.old err.new) result }
{
    match command_of(words) {
        Some(Command::OnImage(command)) => {
            do_on_image(alloc, command, OPERAND, files, input, out, err, kept)
        }
        Some(Command::Debug(options)) => debug(alloc, options, OPERAND, files, input, out, err),
        Some(Command::Gen(workload)) => write_workload(alloc, workload, out),
        Some(Command::Bench(workload)) => bench(alloc, workload, out, kept),
        Some(Command::Help) => write_help(out),
        None => write_usage(err),
    }
}
