// A session of the debugger on an image.
ghost use Rattle.std.specs.Prelude.{◌≡◌, ◌<◌, ◌⊎◌, length, IfSome};
ghost use Rattle.cape_io.specs.Devices.{Absent, Rose, word_at};
ghost use Rattle.cape_io.specs.Views.{devices};
ghost use Rattle.command_words.specs.Grammar.{IsSessionInRange};
ghost use Rattle.cape_top.specs.Calls.{call, SinkRose};
ghost use Rattle.cape_top.specs.Debugging.{status_of_session, IsOfDebug, IsOfSession, LoadedSession, PlaceDebugEnds, DebugReadCause};
ghost use Rattle.cape_top.specs.Promises.{RefusalCause};

use crate::ending::Status;
use crate::images::refuse;
use crate::loading::{Stop, load_image, read_input};
use cape_io::{Files, Sink, Source, SureSource};
use command_words::DebugOptions;
use debug_core::{SessionFault, session};
use elf_load::Loaded;
use machine::Machine;
use std::alloc::Global;

// The most bytes of its input that the guest takes at once.
const PIECE: usize = 16_384;

// The status for why a session ends early.
fn status_of(fault: SessionFault) -> Status
    ensures { result ≡ status_of_session fault }
{
    match fault {
        SessionFault::ReadFault => Status::ReadFault,
        SessionFault::WriteFault => Status::WriteFault,
        SessionFault::NoMemory => Status::NoMemory,
    }
}

// Holds the session on what was loaded, with this input of its guest. Its commands come from `commands`.
fn hold<S: Source, O: Sink, E: Sink>(
    alloc: Global,
    loaded: Loaded,
    given: &[u8],
    options: DebugOptions,
    commands: &mut S,
    out: &mut O,
    err: &mut E,
) -> Status
    requires range { IsSessionInRange options }
    ensures ends { LoadedSession loaded options given.now (devices S.Source O.Sink E.Sink commands.old commands.new out.old out.new err.old err.new) result }
    ensures only { IsOfSession result }
    ensures read { result ≡ Status.ReadFault → Rose (S.faults commands.old) (S.faults commands.new) }
    ensures write { result ≡ Status.WriteFault → Rose (O.faults out.old) (O.faults out.new) ⊎ Rose (E.faults err.old) (E.faults err.new) }
{
    let Ok(mut machine) = Machine::new(alloc, loaded, options.vlen, options.policy) else {
        return Status::NoMemory;
    };
    let Ok(mut input) = SureSource::new(alloc, given, PIECE) else {
        return Status::NoMemory;
    };
    match session(alloc, &mut machine, commands, &mut input, out, err) {
        Ok(()) => Status::Done,
        Err(fault) => status_of(fault),
    }
}

/// Holds a session of the debugger on the image that the word at a place names. The image is read and loaded before the file of
/// the guest's input is opened. The commands come from `input`, the answers go to `out`, and what the guest writes goes to `err`.
pub(crate) fn debug<F: Files, S: Source, O: Sink, E: Sink>(
    alloc: Global,
    options: DebugOptions,
    place: usize,
    files: &mut F,
    input: &mut S,
    out: &mut O,
    err: &mut E,
) -> Status
    requires place { place < length (F.names files.old) }
    requires input { IfSome options.input (λ p. p < length (F.names files.old)) }
    requires range { IsSessionInRange options }
    ensures ends { PlaceDebugEnds options place (call F.Files S.Source O.Sink E.Sink files.old files.new input.old input.new out.old out.new err.old err.new) result }
    ensures only { IsOfDebug result }
    ensures refused { RefusalCause (F.known_file files.old (word_at (F.names files.old) place)) result }
    ensures absent { F.known_file files.old (word_at (F.names files.old) place) ≡ Absent → result ≡ Status.ReadFault }
    ensures read { DebugReadCause options place (call F.Files S.Source O.Sink E.Sink files.old files.new input.old input.new out.old out.new err.old err.new) result }
    ensures write { result ≡ Status.WriteFault → SinkRose (devices S.Source O.Sink E.Sink input.old input.new out.old out.new err.old err.new) }
{
    let loaded = match load_image(alloc, files, place) {
        Ok(loaded) => loaded,
        Err(Stop::ReadFault) => return Status::ReadFault,
        Err(Stop::NoMemory) => return Status::NoMemory,
        Err(Stop::Refused(fault)) => return refuse(fault, err),
    };
    let given = match read_input(alloc, files, options.input) {
        Ok(given) => given,
        Err(Stop::ReadFault) => return Status::ReadFault,
        Err(_) => return Status::NoMemory,
    };
    hold(alloc, loaded, given.as_slice(), options, input, out, err)
}
