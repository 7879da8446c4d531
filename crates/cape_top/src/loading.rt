// Reading an image and loading it, and reading the input of a session's guest.
ghost use Rattle.std.specs.Prelude.{◌≡◌, ◌≢◌, ◌<◌, ◌≤◌, true, false, length, vec_len, IfOk, OnOk, IfErr, IsErrOf, IfSome, IsSomeAnd};
ghost use Rattle.cape_io.specs.Devices.{Absent, Rose, word_at};
ghost use Rattle.std.specs.Io.KnownBytes.{IsAtEnd};
ghost use Rattle.elf_load.specs.declared.faults.LoadFault.{LoadFault};
ghost use Rattle.cape_top.specs.Calls.{FailedOn, files_call};
ghost use Rattle.cape_top.specs.Reading.{read_limit, input_limit, MovesOn, IsReadOf, IsLoadedOf, IsStopOf, IsRefusal, KeepsFiles, file_if};

use cape_io::Files;
use elf_load::{LoadFault, Loaded, load};
use std::alloc::{AllocError, Global};

// The most bytes that are read of an image: one more than an image may have.
const LIMIT: usize = 33_554_433;

// The most bytes that are read of the input of a session's guest.
const INPUT_LIMIT: usize = 33_554_432;

// The most bytes that are taken at once.
const PIECE: usize = 16_384;

/// Why nothing is loaded: the file could not be read, there is not enough memory, or the image has a fault.
#[derive(Clone, Copy, PartialEq, Eq)]
pub(crate) enum Stop {
    ReadFault,
    NoMemory,
    Refused(LoadFault),
}

// Appends the next piece of the open file, no further than to a limit, and says whether there may be more.
fn read_piece<F: Files>(files: &mut F, limit: usize, bytes: &mut Vec<u8>) -> Result<bool, Stop>
    requires open { F.is_open files.old ≡ true }
    requires room { vec_len bytes.old < limit }
    ensures moves { OnOk result (MovesOn (F.left files.old) (F.left files.new) bytes.old.items bytes.new.items) }
    ensures end { result ≡ Ok false → IsAtEnd (F.left files.new) }
    ensures more { result ≡ Ok true → vec_len bytes.old < vec_len bytes.new }
    ensures limit { OnOk result (vec_len bytes.new ≤ limit) }
    ensures open { F.is_open files.new ≡ true }
    ensures cause { IsErrOf result Stop.ReadFault → Rose (F.faults files.old) (F.faults files.new) }
    ensures quiet { OnOk result (F.faults files.new ≡ F.faults files.old) }
    ensures own { IfErr result (λ stop. ¬ IsRefusal stop) }
    ensures at { F.at files.new ≡ F.at files.old }
    ensures since { F.since files.new ≡ F.since files.old }
    ensures same { KeepsFiles F.Files files.old files.new }
{
    let mut piece = [0u8; PIECE];
    let want = (limit - bytes.len()).min(PIECE);
    match files.take(&mut piece[..want]) {
        Err(_) => Err(Stop::ReadFault),
        Ok(count) => match bytes.extend_from_slice(&piece[..count]) {
            Err(_) => Err(Stop::NoMemory),
            Ok(()) => Ok(count > 0),
        },
    }
}

// The bytes of the file of the word at a place, up to a limit. Each turn takes at least one byte or is the last.
fn read_file<F: Files>(
    alloc: Global,
    files: &mut F,
    place: usize,
    limit: usize,
) -> Result<Vec<u8>, Stop>
    requires place { place < length (F.names files.old) }
    ensures read { IfOk result (λ bytes. IsReadOf limit (F.known_file files.old (word_at (F.names files.old) place)) bytes.items) }
    ensures absent { F.known_file files.old (word_at (F.names files.old) place) ≡ Absent → result ≡ Err Stop.ReadFault }
    ensures cause { IsErrOf result Stop.ReadFault → FailedOn place (files_call F.Files files.old files.new) }
    ensures own { IfErr result (λ stop. ¬ IsRefusal stop) }
    ensures quiet { OnOk result (F.faults files.new ≡ F.faults files.old) }
    ensures same { KeepsFiles F.Files files.old files.new }
{
    if files.open(place).is_err() {
        return Err(Stop::ReadFault);
    }
    let mut bytes = Vec::new(alloc);
    for turn in 0..limit {
        if bytes.len() == limit {
            return Ok(bytes);
        }
        if !read_piece(files, limit, &mut bytes)? {
            return Ok(bytes);
        }
    }
    Ok(bytes)
}

// Why nothing is loaded, by the loader's answer. A lack of memory is no fault of the image.
fn stop_for(fault: LoadFault) -> Stop
    ensures refused { (f : LoadFault) → result ≡ Stop.Refused f → (f ≡ fault) × (fault ≢ LoadFault.NoMemory) }
    ensures read { result ≢ Stop.ReadFault }
{
    match fault {
        LoadFault::NoMemory => Stop::NoMemory,
        _ => Stop::Refused(fault),
    }
}

/// What is loaded of the image that the word at a place names.
pub(crate) fn load_image<F: Files>(
    alloc: Global,
    files: &mut F,
    place: usize,
) -> Result<Loaded, Stop>
    requires place { place < length (F.names files.old) }
    ensures loaded { IfOk result (IsLoadedOf (F.known_file files.old (word_at (F.names files.old) place))) }
    ensures refused { IfErr result (IsStopOf (F.known_file files.old (word_at (F.names files.old) place))) }
    ensures absent { F.known_file files.old (word_at (F.names files.old) place) ≡ Absent → result ≡ Err Stop.ReadFault }
    ensures cause { IsErrOf result Stop.ReadFault → FailedOn place (files_call F.Files files.old files.new) }
    ensures quiet { OnOk result (F.faults files.new ≡ F.faults files.old) }
    ensures same { KeepsFiles F.Files files.old files.new }
{
    let image = read_file(alloc, files, place, LIMIT)?;
    match load(alloc, &image) {
        Ok(loaded) => Ok(loaded),
        Err(fault) => Err(stop_for(fault)),
    }
}

/// The input of a session's guest: the bytes of the file that the word at a place names, or none where no place is given.
pub(crate) fn read_input<F: Files>(
    alloc: Global,
    files: &mut F,
    place: Option<usize>,
) -> Result<Vec<u8>, Stop>
    requires place { IfSome place (λ p. p < length (F.names files.old)) }
    ensures read { IfOk result (λ bytes. IsReadOf input_limit (file_if (F.known_file files.old) (F.names files.old) place) bytes.items) }
    ensures absent { file_if (F.known_file files.old) (F.names files.old) place ≡ Absent → result ≡ Err Stop.ReadFault }
    ensures cause { IsErrOf result Stop.ReadFault → IsSomeAnd place (λ p. FailedOn p (files_call F.Files files.old files.new)) }
{
    match place {
        Some(place) => read_file(alloc, files, place, INPUT_LIMIT),
        None => Ok(Vec::new(alloc)),
    }
}
