// A shelf of files in memory, of which one at a time is open.
ghost use Rattle.std.specs.Prelude.{◌≡◌, ◌<◌, ◌≤◌, [], Some, None, drop, take, length, is_some, IsSome, IfSome, OnOk, OnErr, position, string_bytes};
ghost use Rattle.std.specs.Str.{bytes_eq};
ghost use Rattle.std.specs.Io.KnownBytes.{Consumes};
ghost use Rattle.cape_io.specs.States.{after_taking, bytes_of, GivesWhatFits, KeepsOthers};

use crate::sources::move_prefix;
use std::alloc::{AllocError as NoMemory, Global};
use std::marker::Model;

// A file and its name.
#[derive(Drop)]
struct Stored {
    name: String,
    bytes: Vec<u8>,
}

// What is open: nothing, a file without bytes that is not on the shelf, or the file at a place of
// the shelf, of which so many bytes were read.
#[derive(Drop)]
enum Opened {
    Closed,
    Empty,
    Reading { place: usize, read: usize },
}

// The files by name. Of two with one name the first counts.
#[derive(Drop)]
pub(crate) struct Shelf {
    files: Vec<Stored>,
    opened: Opened,
}

impl Model for Shelf {
    ghost use Rattle.std.specs.Prelude.{map};
    ghost use Rattle.cape_io.specs.States.{ShelfState};

    ghost Value = { ShelfState };

    ghost use Rattle.cape_io.specs.Shelves.{file_of, left_of, IsInRange};

    ghost view = { λ s. record {
      files = map file_of s.files.items;
      left = left_of s.files.items s.opened;
    } };

    ghost invariant = { λ s. IsInRange s.files.items s.opened };
}

// The place of the first file with this name.
fn place_of(files: &[Stored], name: &str) -> Option<usize>
    ensures place { result ≡
        position (λ stored. bytes_eq (string_bytes stored.name) name.now) files.now }
    ensures bound { IfSome result (λ place. place < length files.now) }
{
    files.iter().position(|stored| stored.name.as_str() == name)
}

impl Shelf {
    // A shelf without files.
    pub(crate) fn new(alloc: Global) -> Shelf
        ensures { result ≡ record { files = []; left = None } }
    {
        Shelf {
            files: Vec::new(alloc),
            opened: Opened::Closed,
        }
    }

    // Adds a file under a name that has none.
    pub(crate) fn add(&mut self, alloc: Global, name: &str, bytes: &[u8]) -> Result<(), NoMemory>
        requires { bytes_of self.old.files name.now ≡ None }
        ensures added { OnOk result (bytes_of self.new.files name.now ≡ Some bytes.now) }
        ensures others { OnOk result (KeepsOthers self.old.files self.new.files name.now) }
        ensures ok { OnOk result (self.new ≡ record self.old { files = self.new.files }) }
        ensures err { OnErr result (self.new ≡ self.old) }
    {
        let stored = Stored {
            name: String::from_str(alloc, name)?,
            bytes: Vec::from_slice(alloc, bytes)?,
        };
        self.files.push(stored)?;
        Ok(())
    }

    // Closes the open file, if there is one.
    pub(crate) fn close(&mut self)
        ensures { self.new ≡ record self.old { left = None } }
    {
        self.opened = Opened::Closed;
    }

    // Opens a file without bytes.
    pub(crate) fn open_empty(&mut self)
        ensures { self.new ≡ record self.old { left = Some [] } }
    {
        self.opened = Opened::Empty;
    }

    // Opens the file of a name, from its first byte. Where there is none, no file is open.
    pub(crate) fn open(&mut self, name: &str)
        ensures { self.new ≡ record self.old { left = bytes_of self.old.files name.now } }
    {
        self.opened = match place_of(&self.files, name) {
            Some(place) => Opened::Reading { place, read: 0 },
            None => Opened::Closed,
        };
    }

    // Whether a file is open.
    pub(crate) fn is_open(&self) -> bool
        ensures { result ≡ is_some self.now.left }
    {
        match self.opened {
            Opened::Closed => false,
            Opened::Empty | Opened::Reading { .. } => true,
        }
    }

    // What is left of the open file.
    fn rest(&self) -> &[u8]
        requires { IsSome self.now.left }
        ensures { self.now.left ≡ Some result.now }
    {
        match self.opened {
            Opened::Reading { place, read } => &self.files[place].bytes[read..],
            Opened::Empty => &[],
            Opened::Closed => unreachable!(),
        }
    }

    // Counts bytes of the open file as read.
    fn skip(&mut self, count: usize)
        requires { IfSome self.old.left (λ bytes. count ≤ length bytes) }
        ensures { self.new ≡ record self.old { left = after_taking count self.old.left } }
    {
        if let Opened::Reading { read, .. } = &mut self.opened {
            *read += count;
        }
    }

    // Moves the next bytes of the open file to the start of the buffer, as many as are left or fit.
    pub(crate) fn take(&mut self, buf: &mut [u8]) -> usize
        requires { IsSome self.old.left }
        ensures count { GivesWhatFits self.old.left (length buf.old) result }
        ensures moved { Consumes self.old.left self.new.left (take result buf.new) }
        ensures rest { drop result buf.new ≡ drop result buf.old }
        ensures after { self.new ≡ record self.old { left = after_taking result self.old.left } }
    {
        let rest = self.rest();
        let count = move_prefix(rest, rest.len(), buf);
        self.skip(count);
        count
    }
}
