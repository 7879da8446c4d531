// The adapters of streams, over readers and writers in memory, and of files, over those that every Linux system has.
use crate::logs::{puts, reads, takes, words};
use cape_io::{DiskFiles, StdSink, StdSource};
use std::alloc::{AllocError as NoMemory, Global};
use std::io;
use std::io::{Cursor, ErrorKind, Read};
use std::rt::Files as FileSystem;
use std::test::Fail;

// A reader that gives bytes for some calls, and fails at each call after them.
#[derive(Drop)]
struct Breaking {
    bytes: Cursor<&'static [u8]>,
    calls_left: u8,
}

impl Read for Breaking {
    fn read(&mut self, buf: &mut [u8]) -> io::Result<usize> {
        if self.calls_left == 0 {
            return Err(io::Error::from(ErrorKind::Other));
        }
        self.calls_left -= 1;
        self.bytes.read(buf)
    }
}

// The bytes of a reader, the calls before it breaks, and the log of three calls.
#[derive(Clone, Copy)]
struct Reader {
    bytes: &'static [u8],
    calls_left: u8,
    log: &'static [u8],
}

const READERS: [Reader; 2] = [
    Reader {
        bytes: b"abcdef",
        calls_left: 3,
        log: b"abcd|ef||",
    },
    Reader {
        bytes: b"a",
        calls_left: 1,
        log: b"a|!|!|",
    },
];

// The pieces that are put on a writer with room for four bytes, the log, and what the room holds at the end.
#[derive(Clone, Copy)]
struct Writer {
    pieces: &'static [&'static [u8]],
    log: &'static [u8],
    held: &'static [u8],
}

const WRITERS: [Writer; 2] = [
    Writer {
        pieces: &[b"abc", b"de"],
        log: b"|!|",
        held: b"abcd",
    },
    Writer {
        pieces: &[b"ab", b"cd"],
        log: b"||",
        held: b"abcd",
    },
];

const WORDS: [&str; 4] = ["/dev/null", "/dev/zero", "no such file", "/"];

// The place of a word, and the log of two calls on its file.
#[derive(Clone, Copy)]
struct Named {
    place: usize,
    log: &'static [u8],
}

// A directory opens, and cannot be read.
const NAMED: [Named; 4] = [
    Named {
        place: 0,
        log: b"||",
    },
    Named {
        place: 1,
        log: b"\0\0\0\0|\0\0\0\0|",
    },
    Named {
        place: 2,
        log: b"!",
    },
    Named {
        place: 3,
        log: b"!|!|",
    },
];

fn reader_gives(alloc: Global, row: &Reader) -> Result<bool, NoMemory> {
    let mut source = StdSource::new(Breaking {
        bytes: Cursor::new(row.bytes),
        calls_left: row.calls_left,
    });
    let log = takes(alloc, &mut source, 3)?;
    Ok(log.as_slice() == row.log)
}

fn writer_holds(alloc: Global, row: &Writer) -> Result<bool, NoMemory> {
    let mut room = [0u8; 4];
    let mut sink = StdSink::new(Cursor::new(room.as_mut_slice()));
    let log = puts(alloc, &mut sink, row.pieces)?;
    Ok(log.as_slice() == row.log && room.as_slice() == row.held)
}

fn named_file_gives<R: FileSystem>(
    rt: &R,
    alloc: Global,
    words: &[String],
    row: &Named,
) -> Result<bool, NoMemory> {
    if words.len() <= row.place {
        return Ok(false);
    }
    let mut files = DiskFiles::new(rt, words);
    let log = reads(alloc, &mut files, row.place, 2)?;
    Ok(log.as_slice() == row.log)
}

#[test]
fn readers(rt: HostRuntime) -> Result<(), Fail> {
    for (i, row) in READERS.iter().enumerate() {
        assert!(rt; reader_gives(rt.alloc(), row)?, "row {i}");
    }
    Ok(())
}

#[test]
fn writers(rt: HostRuntime) -> Result<(), Fail> {
    for (i, row) in WRITERS.iter().enumerate() {
        assert!(rt; writer_holds(rt.alloc(), row)?, "row {i}");
    }
    Ok(())
}

#[test]
fn real_files(rt: HostRuntime) -> Result<(), Fail> {
    let words = words(rt.alloc(), &WORDS)?;
    let words = words.as_slice();
    for (i, row) in NAMED.iter().enumerate() {
        assert!(rt; named_file_gives(&rt, rt.alloc(), words, row)?, "row {i}");
    }
    Ok(())
}
