//! The parts of a line.
ghost use Rattle.std.specs.Prelude.{◌<◌};

use std::alloc::{AllocError, AllocFailed, Global};

// The base of hexadecimal numbers.
const HEXADECIMAL: u32 = 16;

// What stands for the empty word.
const NOTHING: &str = "\"\"";

// The number of registers of each kind, and of subarrays.
const REGISTERS: u8 = 32;

// The number of rows of a subarray.
const ROWS: u8 = 64;

/// Why a case is not run: a line is of no form, or there is not enough memory.
#[derive(Clone, Copy, Debug, PartialEq, Eq)]
pub(crate) enum Unread {
    Form,
    NoMemory,
}

impl From<AllocError> for Unread {
    fn from(_: AllocError) -> Unread {
        Unread::NoMemory
    }
}

impl<T: Drop> From<AllocFailed<T>> for Unread {
    fn from(_: AllocFailed<T>) -> Unread {
        Unread::NoMemory
    }
}

/// The number of a register.
#[derive(Clone, Copy)]
pub(crate) struct Register {
    pub number: u8,
    ghost named: { number < 32 },
}

/// A row of a subarray.
#[derive(Clone, Copy)]
pub(crate) struct Slice {
    pub sub: u8,
    pub row: u8,
    ghost sub_named: { sub < 32 },
    ghost row_named: { row < 64 },
}

/// What is shown of a machine.
#[derive(Clone, Copy)]
pub(crate) enum Shown {
    Scalar(Register),
    Vector(Register),
    Setting,
    Row(Slice),
}

/// A call of a device that fails, with the bytes that an output takes at it.
#[derive(Clone, Copy)]
pub(crate) enum Fault {
    File(u64),
    Input(u64),
    Out(u64, usize),
    Err(u64, usize),
}

/// What is shown where the part of a `show` line says so.
pub(crate) fn shown_of(part: &str) -> Option<Shown> {
    if part == "setting" {
        return Some(Shown::Setting);
    }
    if let Some(number) = part.strip_prefix("x") {
        return Some(Shown::Scalar(register_of(number)?));
    }
    Some(Shown::Vector(register_of(part.strip_prefix("v")?)?))
}

// The register of a number, if there is one.
fn register_of(text: &str) -> Option<Register> {
    let number = text.parse().ok()?;
    if number < REGISTERS {
        Some(Register { number })
    } else {
        None
    }
}

/// The row that a `row` line names.
pub(crate) fn row_of(text: &str) -> Option<Slice> {
    let (sub, row) = text.split_once(' ')?;
    let sub = sub.parse().ok()?;
    let row = row.parse().ok()?;
    if sub < REGISTERS && row < ROWS {
        Some(Slice { sub, row })
    } else {
        None
    }
}

/// The call that a `fails` line names.
pub(crate) fn fault_of(text: &str) -> Option<Fault> {
    let (device, call) = text.split_once(' ')?;
    match device {
        "file" => Some(Fault::File(call.parse().ok()?)),
        "input" => Some(Fault::Input(call.parse().ok()?)),
        _ => {
            let (call, bytes) = call.split_once(' ')?;
            put_fault_of(device, call.parse().ok()?, bytes.parse().ok()?)
        }
    }
}

// The put of an output that fails.
fn put_fault_of(device: &str, call: u64, bytes: usize) -> Option<Fault> {
    match device {
        "out" => Some(Fault::Out(call, bytes)),
        "err" => Some(Fault::Err(call, bytes)),
        _ => None,
    }
}

// A word of an image, and how often it stands there.
fn repeated_of(part: &str) -> Option<(u32, usize)> {
    let (word, times) = match part.split_once('*') {
        Some((word, times)) => (word, times.parse().ok()?),
        None => (part, 1),
    };
    Some((u32::from_str_radix(word, HEXADECIMAL).ok()?, times))
}

/// Appends the words of a `code` or an `image` line.
pub(crate) fn push_image(image: &mut Vec<u32>, text: &str) -> Result<(), Unread> {
    for part in text.split_whitespace() {
        let (word, times) = repeated_of(part).ok_or(Unread::Form)?;
        image.resize(image.len().saturating_add(times), word)?;
    }
    Ok(())
}

// Appends the byte of an escape, and the text after it.
fn push_escape(bytes: &mut Vec<u8>, text: &str) -> Result<(), Unread> {
    if let Some(rest) = text.strip_prefix("n") {
        bytes.push(b'\n')?;
        bytes.extend_from_slice(rest.as_bytes())?;
        return Ok(());
    }
    let text = text.strip_prefix("x").ok_or(Unread::Form)?;
    let digits = text.get(..2).ok_or(Unread::Form)?;
    let rest = text.get(2..).ok_or(Unread::Form)?;
    bytes.push(u8::from_str_radix(digits, HEXADECIMAL).or(Err(Unread::Form))?)?;
    bytes.extend_from_slice(rest.as_bytes())?;
    Ok(())
}

/// The bytes of a text.
pub(crate) fn bytes_of(alloc: Global, text: &str) -> Result<Vec<u8>, Unread> {
    let mut bytes = Vec::new(alloc);
    let mut is_plain = true;
    for piece in text.split('\\') {
        if is_plain {
            bytes.extend_from_slice(piece.as_bytes())?;
        } else {
            push_escape(&mut bytes, piece)?;
        }
        is_plain = false;
    }
    Ok(bytes)
}

// The word that a part stands for.
fn word_of(alloc: Global, part: &str) -> Result<String, Unread> {
    let text = if part == NOTHING { "" } else { part };
    String::from_utf8(bytes_of(alloc, text)?).or(Err(Unread::Form))
}

/// The words of a `call` line.
pub(crate) fn words_of(alloc: Global, text: &str) -> Result<Vec<String>, Unread> {
    let mut words = Vec::new(alloc);
    for part in text.split_whitespace() {
        words.push(word_of(alloc, part)?)?;
    }
    Ok(words)
}
