// Runs of devices, each written as a log of its calls: the bytes that a take gave, `!` for a failure, `|` after each call.
ghost use Rattle.std.specs.Prelude.{◌<◌, length};

use cape_io::{Failed, Files, Sink, Source};
use std::alloc::{AllocError as NoMemory, Global};

// What a source gives to this many calls, each with room for four bytes.
pub(crate) fn takes<S: Source>(
    alloc: Global,
    source: &mut S,
    calls: usize,
) -> Result<Vec<u8>, NoMemory> {
    let mut log = Vec::new(alloc);
    for _ in 0..calls {
        let mut buf = [b'.'; 4];
        match source.take(&mut buf) {
            Ok(count) => log.extend_from_slice(&buf[..count])?,
            Err(Failed) => log.push(b'!')?,
        }
        log.push(b'|')?;
    }
    Ok(log)
}

// What the file of the word at a place gives to this many calls, each with room for four bytes, if it opens.
pub(crate) fn reads<F: Files>(
    alloc: Global,
    files: &mut F,
    place: usize,
    calls: usize,
) -> Result<Vec<u8>, NoMemory>
    requires { place < length (F.names files.old) }
{
    let mut log = Vec::new(alloc);
    if files.open(place).is_err() {
        log.push(b'!')?;
        return Ok(log);
    }
    for _ in 0..calls {
        let mut buf = [b'.'; 4];
        match files.take(&mut buf) {
            Ok(count) => log.extend_from_slice(&buf[..count])?,
            Err(Failed) => log.push(b'!')?,
        }
        log.push(b'|')?;
    }
    Ok(log)
}

// Puts the pieces, and says which puts failed.
pub(crate) fn puts<S: Sink>(
    alloc: Global,
    sink: &mut S,
    pieces: &[&[u8]],
) -> Result<Vec<u8>, NoMemory> {
    let mut log = Vec::new(alloc);
    for piece in pieces {
        if sink.put(piece).is_err() {
            log.push(b'!')?;
        }
        log.push(b'|')?;
    }
    Ok(log)
}

// A `Vec` of these words.
pub(crate) fn words(alloc: Global, texts: &[&str]) -> Result<Vec<String>, NoMemory> {
    let mut words = Vec::new(alloc);
    for text in texts {
        words.push(String::from_str(alloc, text)?)?;
    }
    Ok(words)
}
