// Commands on an image.
ghost use Rattle.std.specs.Prelude.{◌≢◌, ◌≡◌, ◌<◌, ◌⊎◌, None, true, false, length, map};
ghost use Rattle.cape_io.specs.Devices.{Absent, Rose, word_at};
ghost use Rattle.cape_io.specs.Views.{Writes, devices, views};
ghost use Rattle.elf_load.specs.Layout.{span_of};
ghost use Rattle.command_words.specs.Grammar.{AreInRange, IsImageCommandInRange};
ghost use Rattle.command_words.specs.declared.words.ImageCommand.{ImageCommand};
ghost use Rattle.report_texts.specs.Layouts.{layout_text};
ghost use Rattle.report_texts.specs.Lines.{refused_line as line_for};
ghost use Rattle.cape_top.specs.Calls.{call, SinkRose};
ghost use Rattle.cape_top.specs.Statuses.{IsOfRun, IsFault};
ghost use Rattle.cape_top.specs.Runs.{LoadedEnds, LoadedReads};
ghost use Rattle.cape_top.specs.Promises.{ImageEnds, MayKeepOf, ReadCause, RefusalCause, RunsImage};

use crate::ending::Status;
use crate::loading::{Stop, load_image};
use crate::running::run_machine;
use cape_io::{Files, Sink, Source};
use command_words::{ImageCommand, RunOptions};
use elf_load::{LoadFault, Loaded};
use machine::Machine;
use report_texts::{refused_line, write_layout};
use std::alloc::Global;

/// Writes why an image is refused.
pub(crate) fn refuse<E: Sink>(fault: LoadFault, err: &mut E) -> Status
    ensures only { (result ≡ Status.Refused fault) ⊎ (result ≡ Status.WriteFault) }
    ensures said { result ≡ Status.Refused fault → Writes E.Sink (line_for fault) true err.old err.new }
    ensures fails { result ≡ Status.WriteFault → Writes E.Sink (line_for fault) false err.old err.new }
{
    let line = refused_line(fault);
    match err.put(line.as_str().as_bytes()) {
        Ok(()) => Status::Refused(fault),
        Err(_) => Status::WriteFault,
    }
}

// Runs what was loaded.
fn run_loaded<S: Source, O: Sink, E: Sink>(
    alloc: Global,
    loaded: Loaded,
    options: RunOptions,
    input: &mut S,
    out: &mut O,
    err: &mut E,
    kept: &mut Option<Machine>,
) -> Status
    requires range { AreInRange options }
    requires none { kept.old ≡ None }
    ensures ends { LoadedEnds loaded options (devices S.Source O.Sink E.Sink input.old input.new out.old out.new err.old err.new) result kept.new }
    ensures only { IsOfRun result ⊎ (IsFault result ⊎ (result ≡ Status.NoMemory)) }
    ensures kept { IsOfRun result ⊎ (kept.new ≡ None) }
    ensures read { result ≡ Status.ReadFault → Rose (S.faults input.old) (S.faults input.new) }
    ensures reads { result ≡ Status.ReadFault → LoadedReads loaded options (views S.Source O.Sink E.Sink input.old out.old err.old) }
    ensures write { result ≡ Status.WriteFault → SinkRose (devices S.Source O.Sink E.Sink input.old input.new out.old out.new err.old err.new) }
{
    match Machine::new(alloc, loaded, options.vlen, options.policy) {
        Ok(machine) => run_machine(machine, options, input, out, err, kept),
        Err(_) => Status::NoMemory,
    }
}

// Writes what would be mapped of what was loaded.
fn check_loaded<O: Sink>(loaded: &Loaded, out: &mut O) -> Status
    ensures only { (result ≡ Status.Done) ⊎ (result ≡ Status.WriteFault) }
    ensures said { result ≡ Status.Done → Writes O.Sink (layout_text loaded.now.entry_pc (map span_of loaded.now.regions)) true out.old out.new }
    ensures fails { result ≡ Status.WriteFault → Writes O.Sink (layout_text loaded.now.entry_pc (map span_of loaded.now.regions)) false out.old out.new }
{
    match write_layout(loaded.entry_pc, loaded.regions.as_slice(), out) {
        Ok(()) => Status::Done,
        Err(_) => Status::WriteFault,
    }
}

/// Does a command on the image that the word at a place names.
pub(crate) fn do_on_image<F: Files, S: Source, O: Sink, E: Sink>(
    alloc: Global,
    command: ImageCommand,
    place: usize,
    files: &mut F,
    input: &mut S,
    out: &mut O,
    err: &mut E,
    kept: &mut Option<Machine>,
) -> Status
    requires place { place < length (F.names files.old) }
    requires range { IsImageCommandInRange command }
    requires none { kept.old ≡ None }
    ensures ends { ImageEnds command place (call F.Files S.Source O.Sink E.Sink files.old files.new input.old input.new out.old out.new err.old err.new) result kept.new }
    ensures keeps { MayKeepOf command result ⊎ (kept.new ≡ None) }
    ensures of_run { IsOfRun result → RunsImage command }
    ensures of_done { result ≡ Status.Done → command ≡ ImageCommand.Check }
    ensures no_usage { result ≢ Status.Usage }
    ensures refused { RefusalCause (F.known_file files.old (word_at (F.names files.old) place)) result }
    ensures absent { F.known_file files.old (word_at (F.names files.old) place) ≡ Absent → result ≡ Status.ReadFault }
    ensures read { ReadCause command place (call F.Files S.Source O.Sink E.Sink files.old files.new input.old input.new out.old out.new err.old err.new) result }
    ensures write { result ≡ Status.WriteFault → SinkRose (devices S.Source O.Sink E.Sink input.old input.new out.old out.new err.old err.new) }
{
    let loaded = match load_image(alloc, files, place) {
        Ok(loaded) => loaded,
        Err(Stop::ReadFault) => return Status::ReadFault,
        Err(Stop::NoMemory) => return Status::NoMemory,
        Err(Stop::Refused(fault)) => return refuse(fault, err),
    };
    match command {
        ImageCommand::Run(options) => run_loaded(alloc, loaded, options, input, out, err, kept),
        ImageCommand::Check => check_loaded(&loaded, out),
    }
}
