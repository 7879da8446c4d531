// The real streams and files. Of their bytes nothing is known, and they count their faults up to the end of the
// count. What they move is what the reader or the writer below them moves.
ghost use Rattle.std.specs.Prelude.{◌≡◌, ◌<◌, None, length, map, string_bytes, take, true, false, is_ok, IfOk, IsErr, OnOk, OnErr};
ghost use Rattle.std.specs.Io.{ReadsAtMost};
ghost use Rattle.std.specs.Io.KnownBytes.{Appends, Consumes, IsAtEnd, Keeps, ReadConsumes};
ghost use Rattle.cape_io.specs.Devices.{Absent, Rose, StartsAt, Unknown};
ghost use Rattle.cape_io.specs.States.{PutsInWriter};

use crate::counts::count_fault;
use crate::{Failed, Files, Sink, Source};
use std::fs;
use std::io::{Read, Write};
use std::marker::Model;
use std::rt::Files as FileSystem;

/// A source over a reader, as the standard input.
#[derive(Drop)]
pub struct StdSource<R: Read> {
    reader: R,
    faults: u64,
}

impl<R: Read> Model for StdSource<R> {
    ghost use Rattle.cape_io.specs.States.{StdSourceState};

    ghost Value = { StdSourceState };

    ghost view = { λ s. record { remaining = R.remaining s.reader; faults = s.faults } };
}

impl<R: Read> StdSource<R> {
    /// A source over this reader, with no faults so far.
    pub fn new(reader: R) -> StdSource<R>
        ensures { result ≡ record { remaining = R.remaining reader; faults = 0 } }
    {
        StdSource { reader, faults: 0 }
    }
}

impl<R: Read> Source for StdSource<R> {
    ghost left = { λ _. None };

    ghost faults = { λ s. s.faults };

    fn take(&mut self, buf: &mut [u8]) -> Result<usize, Failed>
        ensures bound { ReadsAtMost result buf.new }
        ensures quiet { OnOk result (self.new.faults ≡ self.old.faults) }
        ensures rose { OnErr result (Rose self.old.faults self.new.faults) }

        ensures reads { ReadConsumes self.old.remaining self.new.remaining result buf.new }
    {
        match self.reader.read(buf) {
            Ok(count) => Ok(count),
            Err(_) => Err(count_fault(&mut self.faults)),
        }
    }
}

/// A sink over a writer, as the standard outputs.
#[derive(Drop)]
pub struct StdSink<W: Write> {
    writer: W,
    faults: u64,
}

impl<W: Write> Model for StdSink<W> {
    ghost use Rattle.cape_io.specs.States.{StdSinkState};

    ghost Value = { StdSinkState };

    ghost view = { λ s. record { contents = W.contents s.writer; faults = s.faults } };
}

impl<W: Write> StdSink<W> {
    /// A sink over this writer, with no faults so far.
    pub fn new(writer: W) -> StdSink<W>
        ensures { result ≡ record { contents = W.contents writer; faults = 0 } }
    {
        StdSink { writer, faults: 0 }
    }
}

impl<W: Write> Sink for StdSink<W> {
    ghost held = { λ _. None };

    ghost faults = { λ s. s.faults };

    ghost put_gives = { PutsInWriter };

    fn put(&mut self, piece: &[u8]) -> Result<(), Failed>
        ensures gives { PutsInWriter self.old piece.now (is_ok result) self.new }
    {
        match self.writer.write_all(piece) {
            Ok(()) => Ok(()),
            Err(_) => Err(count_fault(&mut self.faults)),
        }
    }
}

/// The files that words name in the file system.
#[derive(Drop)]
pub struct DiskFiles<'a, R: FileSystem> {
    rt: &'a R,
    words: &'a [String],
    file: Option<R::File>,
    at: usize,
    since: u64,
    faults: u64,
}

impl<'a, R: FileSystem> Model for DiskFiles<'a, R> {
    ghost use Rattle.std.specs.Prelude.{map, string_bytes, is_some};
    ghost use Rattle.std.specs.Option.{option_and_then};
    ghost use Rattle.cape_io.specs.States.{DiskFilesState};

    ghost Value = { DiskFilesState };

    ghost view = { λ s. record {
      names = map string_bytes s.words.now;
      is_open = is_some s.file;
      remaining = option_and_then (λ file. R.File.remaining file) s.file;
      faults = s.faults;
      at = s.at;
      since = s.since;
    } };
}

impl<'a, R: FileSystem> DiskFiles<'a, R> {
    /// The files that these words name, of which none is open, with no faults so far.
    pub fn new(rt: &'a R, words: &'a [String]) -> DiskFiles<'a, R>
        ensures { result ≡ record {
          names = map string_bytes words.now;
          is_open = false;
          remaining = None;
          faults = 0;
          at = 0;
          since = 0;
        } }
    {
        DiskFiles {
            rt,
            words,
            file: None,
            at: 0,
            since: 0,
            faults: 0,
        }
    }
}

// Nothing is known of the files, so what the trait says of bytes says nothing here.
impl<'a, R: FileSystem> Files for DiskFiles<'a, R> {
    ghost names = { λ s. s.names };

    ghost known_file = { λ _ _. Unknown };

    ghost is_open = { λ s. s.is_open };

    ghost left = { λ _. None };

    ghost faults = { λ s. s.faults };

    ghost at = { λ s. s.at };

    ghost since = { λ s. s.since };

    fn open(&mut self, place: usize) -> Result<(), Failed>
        requires { place < length self.old.names }

        ensures opened { OnOk result (self.new.is_open ≡ true) }
        ensures start { OnOk result (StartsAt Unknown None) }
        ensures missing { Unknown ≡ Absent → IsErr result }
        ensures closed { OnErr result (self.new.is_open ≡ false) }

        ensures at { self.new.at ≡ place }
        ensures since { self.new.since ≡ self.old.faults }
        ensures names { self.new.names ≡ self.old.names }

        ensures quiet { OnOk result (self.new.faults ≡ self.old.faults) }
        ensures rose { OnErr result (Rose self.old.faults self.new.faults) }
    {
        self.at = place;
        self.since = self.faults;
        self.file = None;
        let words = self.words;
        match fs::open(self.rt, words[place].as_str()) {
            Ok(file) => {
                self.file = Some(file);
                Ok(())
            }
            Err(_) => Err(count_fault(&mut self.faults)),
        }
    }

    fn take(&mut self, buf: &mut [u8]) -> Result<usize, Failed>
        requires { self.old.is_open ≡ true }

        ensures bound { ReadsAtMost result buf.new }
        ensures moved { IfOk result (λ n. Consumes None None (take n buf.new)) }
        ensures ended { IfOk result (λ n. n ≡ 0 → 0 < length buf.new → IsAtEnd None) }
        ensures kept { OnErr result (Keeps None None) }

        ensures stays_open { self.new.is_open ≡ true }
        ensures at { self.new.at ≡ self.old.at }
        ensures since { self.new.since ≡ self.old.since }
        ensures names { self.new.names ≡ self.old.names }

        ensures quiet { OnOk result (self.new.faults ≡ self.old.faults) }
        ensures rose { OnErr result (Rose self.old.faults self.new.faults) }

        ensures reads { ReadConsumes self.old.remaining self.new.remaining result buf.new }
    {
        match &mut self.file {
            Some(file) => match file.read(buf) {
                Ok(count) => Ok(count),
                Err(_) => Err(count_fault(&mut self.faults)),
            },
            None => unreachable!(),
        }
    }
}
