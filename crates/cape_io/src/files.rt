// Files over memory.
ghost use Rattle.std.specs.Prelude.{◌≡◌, ◌<◌, ◌↔◌, ℕ, [], Some, None, drop, take, length, map, true, false, is_some, IfOk, IsErr, IsOk, OnOk, OnErr, string_bytes, Contains};
ghost use Rattle.std.specs.Io.{ReadsAtMost};
ghost use Rattle.std.specs.Io.KnownBytes.{Consumes, IsAtEnd, Keeps};
ghost use Rattle.cape_io.specs.Devices.{Absent, Rose, StartsAt, one_fault_more, word_at};
ghost use Rattle.cape_io.specs.States.{after_failed_open, after_open, after_taking, bytes_of, bytes_or_none, new_files, next_call, known_in_mem, known_in_sure, FailsOpen, GivesWhatFits, KeepsOthers};

use crate::counts::Counts;
use crate::shelf::Shelf;
use crate::{Failed, Files};
use std::alloc::{AllocError as NoMemory, Global};
use std::marker::Model;

/// Files over memory that never fail. A name that was not added has a file without bytes.
#[derive(Drop)]
pub struct SureFiles<'a> {
    words: &'a [String],
    shelf: Shelf,
    at: usize,
}

impl<'a> Model for SureFiles<'a> {
    ghost use Rattle.std.specs.Prelude.{map, string_bytes};
    ghost use Rattle.cape_io.specs.States.{SureFilesState};

    ghost Value = { SureFilesState };

    ghost view = { λ s. record {
      names = map string_bytes s.words.now;
      files = s.shelf.files;
      left = s.shelf.left;
      at = s.at;
    } };
}

impl<'a> SureFiles<'a> {
    /// Files over these words, of which none was added yet and none is open.
    pub fn new(alloc: Global, words: &'a [String]) -> SureFiles<'a>
        ensures { result ≡ record {
          names = map string_bytes words.now;
          files = [];
          left = None;
          at = 0;
        } }
    {
        SureFiles {
            words,
            shelf: Shelf::new(alloc),
            at: 0,
        }
    }

    /// Adds a file under a name that was not added.
    pub fn add(&mut self, alloc: Global, name: &str, bytes: &[u8]) -> Result<(), NoMemory>
        requires { bytes_of self.old.files name.now ≡ None }
        ensures added { OnOk result (bytes_of self.new.files name.now ≡ Some bytes.now) }
        ensures others { OnOk result (KeepsOthers self.old.files self.new.files name.now) }
        ensures ok { OnOk result (self.new ≡ record self.old { files = self.new.files }) }
        ensures err { OnErr result (self.new ≡ self.old) }
    {
        self.shelf.add(alloc, name, bytes)
    }
}

impl<'a> Files for SureFiles<'a> {
    ghost names = { λ s. s.names };

    ghost known_file = { known_in_sure };

    ghost is_open = { λ s. is_some s.left };

    ghost left = { λ s. s.left };

    ghost faults = { λ _. 0 };

    ghost at = { λ s. s.at };

    ghost since = { λ _. 0 };

    // That it never fails leaves nothing to say of failures, and its count of faults is always 0.
    fn open(&mut self, place: usize) -> Result<(), Failed>
        requires { place < length self.old.names }

        ensures opened { OnOk result (is_some self.new.left ≡ true) }
        ensures start { OnOk result
            (StartsAt (known_in_sure self.old (word_at self.old.names place)) self.new.left) }
        ensures missing { known_in_sure self.old (word_at self.old.names place) ≡ Absent → IsErr result }
        ensures closed { OnErr result (is_some self.new.left ≡ false) }

        ensures at { self.new.at ≡ place }
        ensures names { self.new.names ≡ self.old.names }
        ensures known_file { known_in_sure self.new ≡ known_in_sure self.old }

        ensures quiet { OnOk result (◌≡◌ {A = ℕ} 0 0) }
        ensures rose { OnErr result (Rose 0 0) }

        ensures sure { IsOk result }
        ensures after { self.new ≡ record self.old {
          left = Some (bytes_or_none self.old.files (word_at self.old.names place));
          at = place;
        } }
    {
        self.at = place;
        let words = self.words;
        self.shelf.open(words[place].as_str());
        if !self.shelf.is_open() {
            self.shelf.open_empty();
        }
        Ok(())
    }

    fn take(&mut self, buf: &mut [u8]) -> Result<usize, Failed>
        requires { is_some self.old.left ≡ true }

        ensures bound { ReadsAtMost result buf.new }
        ensures moved { IfOk result (λ n. Consumes self.old.left self.new.left (take n buf.new)) }
        ensures ended { IfOk result (λ n. n ≡ 0 → 0 < length buf.new → IsAtEnd self.new.left) }
        ensures kept { OnErr result (Keeps self.old.left self.new.left) }

        ensures stays_open { is_some self.new.left ≡ true }
        ensures at { self.new.at ≡ self.old.at }
        ensures names { self.new.names ≡ self.old.names }
        ensures known_file { known_in_sure self.new ≡ known_in_sure self.old }

        ensures quiet { OnOk result (◌≡◌ {A = ℕ} 0 0) }
        ensures rose { OnErr result (Rose 0 0) }

        ensures sure { IsOk result }
        ensures count { IfOk result (λ n. GivesWhatFits self.old.left (length buf.old) n) }
        ensures rest { IfOk result (λ n. drop n buf.new ≡ drop n buf.old) }
        ensures after { IfOk result (λ n.
            self.new ≡ record self.old { left = after_taking n self.old.left }) }
    {
        Ok(self.shelf.take(buf))
    }
}

/// Files over memory that fail at listed calls, and where a name has no file.
#[derive(Drop)]
pub struct MemFiles<'a> {
    words: &'a [String],
    shelf: Shelf,
    fails: Vec<u64>,
    counts: Counts,
    at: usize,
    since: u64,
}

impl<'a> Model for MemFiles<'a> {
    ghost use Rattle.std.specs.Prelude.{map, string_bytes};
    ghost use Rattle.cape_io.specs.States.{MemFilesState};

    ghost Value = { MemFilesState };

    ghost view = { λ s. record {
      names = map string_bytes s.words.now;
      files = s.shelf.files;
      left = s.shelf.left;
      fails = s.fails.items;
      calls = s.counts.calls;
      faults = s.counts.faults;
      at = s.at;
      since = s.since;
    } };
}

impl<'a> MemFiles<'a> {
    /// Files over these words, of which none was added yet and none is open. The calls of `open`
    /// and `take` are numbered together from 0, and those whose numbers stand in `fails` fail.
    pub fn new(alloc: Global, words: &'a [String], fails: &[u64]) -> Result<MemFiles<'a>, NoMemory>
        ensures { IfOk result (λ files. files ≡ new_files (map string_bytes words.now) fails.now) }
    {
        Ok(MemFiles {
            words,
            shelf: Shelf::new(alloc),
            fails: Vec::from_slice(alloc, fails)?,
            counts: Counts::new(),
            at: 0,
            since: 0,
        })
    }

    /// Adds a file under a name that has none.
    pub fn add(&mut self, alloc: Global, name: &str, bytes: &[u8]) -> Result<(), NoMemory>
        requires { bytes_of self.old.files name.now ≡ None }
        ensures added { OnOk result (bytes_of self.new.files name.now ≡ Some bytes.now) }
        ensures others { OnOk result (KeepsOthers self.old.files self.new.files name.now) }
        ensures ok { OnOk result (self.new ≡ record self.old { files = self.new.files }) }
        ensures err { OnErr result (self.new ≡ self.old) }
    {
        self.shelf.add(alloc, name, bytes)
    }
}

impl<'a> Files for MemFiles<'a> {
    ghost names = { λ s. s.names };

    ghost known_file = { known_in_mem };

    ghost is_open = { λ s. is_some s.left };

    ghost left = { λ s. s.left };

    ghost faults = { λ s. s.faults };

    ghost at = { λ s. s.at };

    ghost since = { λ s. s.since };

    fn open(&mut self, place: usize) -> Result<(), Failed>
        requires { place < length self.old.names }

        ensures opened { OnOk result (is_some self.new.left ≡ true) }
        ensures start { OnOk result
            (StartsAt (known_in_mem self.old (word_at self.old.names place)) self.new.left) }
        ensures missing { known_in_mem self.old (word_at self.old.names place) ≡ Absent → IsErr result }
        ensures closed { OnErr result (is_some self.new.left ≡ false) }

        ensures at { self.new.at ≡ place }
        ensures since { self.new.since ≡ self.old.faults }
        ensures names { self.new.names ≡ self.old.names }
        ensures known_file { known_in_mem self.new ≡ known_in_mem self.old }

        ensures quiet { OnOk result (self.new.faults ≡ self.old.faults) }
        ensures rose { OnErr result (Rose self.old.faults self.new.faults) }

        ensures fails { IsErr result ↔ FailsOpen self.old place }
        ensures ok { OnOk result (self.new ≡ after_open self.old place) }
        ensures err { OnErr result (self.new ≡ after_failed_open self.old place) }
    {
        self.at = place;
        self.since = self.counts.faults;
        self.shelf.close();
        self.counts.call(&self.fails)?;
        let words = self.words;
        self.shelf.open(words[place].as_str());
        if !self.shelf.is_open() {
            return Err(self.counts.fault());
        }
        Ok(())
    }

    fn take(&mut self, buf: &mut [u8]) -> Result<usize, Failed>
        requires { is_some self.old.left ≡ true }

        ensures bound { ReadsAtMost result buf.new }
        ensures moved { IfOk result (λ n. Consumes self.old.left self.new.left (take n buf.new)) }
        ensures ended { IfOk result (λ n. n ≡ 0 → 0 < length buf.new → IsAtEnd self.new.left) }
        ensures kept { OnErr result (Keeps self.old.left self.new.left) }

        ensures stays_open { is_some self.new.left ≡ true }
        ensures at { self.new.at ≡ self.old.at }
        ensures since { self.new.since ≡ self.old.since }
        ensures names { self.new.names ≡ self.old.names }
        ensures known_file { known_in_mem self.new ≡ known_in_mem self.old }

        ensures quiet { OnOk result (self.new.faults ≡ self.old.faults) }
        ensures rose { OnErr result (Rose self.old.faults self.new.faults) }

        ensures fails { IsErr result ↔ Contains self.old.fails self.old.calls }
        ensures count { IfOk result (λ n. GivesWhatFits self.old.left (length buf.old) n) }
        ensures rest { IfOk result (λ n. drop n buf.new ≡ drop n buf.old) }
        ensures untouched { OnErr result (buf.new ≡ buf.old) }
        ensures ok { IfOk result (λ n. self.new ≡ record self.old {
          left = after_taking n self.old.left;
          calls = next_call self.old.calls;
        }) }
        ensures err { OnErr result (self.new ≡ record self.old {
          calls = next_call self.old.calls;
          faults = one_fault_more self.old.faults;
        }) }
    {
        self.counts.call(&self.fails)?;
        Ok(self.shelf.take(buf))
    }
}
