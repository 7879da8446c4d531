// Sinks over memory.
ghost use Rattle.std.specs.Prelude.{◌≡◌, ◌+◌, ◌%◌, ◌^◌, [], Some, None, true, is_ok, length, IfOk, IsOk, OnOk, OnErr};
ghost use Rattle.std.specs.Io.KnownBytes.{Appends};
ghost use Rattle.cape_io.specs.Devices.{AppendsPrefix, Rose};
ghost use Rattle.cape_io.specs.States.{listed_pair, PutsInMem};

use crate::counts::Counts;
use crate::{Failed, Sink};
use std::alloc::{AllocError as NoMemory, Global};
use std::marker::Model;

/// A sink that keeps the number of bytes put and never fails.
#[derive(Drop)]
pub struct SureSink {
    count: u64,
}

impl Model for SureSink {
    ghost use Rattle.std.specs.Prelude.{ℕ};

    ghost Value = { ℕ };

    ghost view = { λ s. s.count };
}

impl SureSink {
    /// A sink that no byte was put into.
    pub fn new() -> SureSink
        ensures { result ≡ 0 }
    {
        SureSink { count: 0 }
    }

    /// The number of bytes put, modulo 2 to the power 64.
    pub fn len(&self) -> u64
        ensures { result ≡ self.now }
    {
        self.count
    }
}

// That it never fails leaves nothing to say of failures, and its count of faults is always 0.
impl Sink for SureSink {
    ghost held = { λ _. None };

    ghost faults = { λ _. 0 };

    ghost put_gives = { λ old piece went new. (went ≡ true) × (new ≡ (old + length piece) % 2 ^ 64) };

    fn put(&mut self, piece: &[u8]) -> Result<(), Failed>
        ensures sure { IsOk result }
        ensures count { self.new ≡ (self.old + length piece.now) % 2 ^ 64 }
    {
        self.count = self.count.wrapping_add(piece.len() as u64);
        Ok(())
    }
}

/// A sink with room for so many bytes, which fails where it is full and at listed puts.
#[derive(Drop)]
pub struct MemSink {
    bytes: Vec<u8>,
    room: usize,
    fails: Vec<(u64, usize)>,
    counts: Counts,
}

impl Model for MemSink {
    ghost use Rattle.std.specs.Prelude.{◌≤◌, vec_len, vec_capacity};
    ghost use Rattle.cape_io.specs.States.{MemSinkState};

    ghost Value = { MemSinkState };

    ghost view = { λ s. record {
      bytes = s.bytes.items;
      room = s.room;
      fails = s.fails.items;
      calls = s.counts.calls;
      faults = s.counts.faults;
    } };

    ghost invariant = { λ s. (vec_len s.bytes ≤ s.room) × (s.room ≤ vec_capacity s.bytes) };
}

impl MemSink {
    /// An empty sink with room for `room` bytes. A put whose number, from 0, begins a pair of
    /// `fails` fails, and appends no more bytes than the second number of the first such pair.
    /// Any other put that is longer than the room left appends what fits and fails.
    pub fn new(alloc: Global, room: usize, fails: &[(u64, usize)]) -> Result<MemSink, NoMemory>
        ensures { IfOk result (λ sink. sink ≡ record {
          bytes = [];
          room = room;
          fails = fails.now;
          calls = 0;
          faults = 0;
        }) }
    {
        Ok(MemSink {
            bytes: Vec::with_capacity(alloc, room)?,
            room,
            fails: Vec::from_slice(alloc, fails)?,
            counts: Counts::new(),
        })
    }

    /// The bytes that it holds.
    pub fn bytes(&self) -> &[u8]
        ensures { result.now ≡ self.now.bytes }
    {
        &self.bytes
    }
}

// The first pair that begins with this number of a put.
fn first_listed(fails: &[(u64, usize)], call: u128) -> Option<(u64, usize)>
    ensures { result ≡ listed_pair fails.now call }
{
    for pair in fails {
        if u128::from(pair.0) == call {
            return Some(*pair);
        }
    }
    None
}

impl Sink for MemSink {
    ghost held = { λ s. Some s.bytes };

    ghost faults = { λ s. s.faults };

    ghost put_gives = { PutsInMem };

    fn put(&mut self, piece: &[u8]) -> Result<(), Failed>
        ensures whole { OnOk result (Appends (Some self.old.bytes) (Some self.new.bytes) piece.now) }
        ensures prefix { OnErr result
            (AppendsPrefix (Some self.old.bytes) (Some self.new.bytes) piece.now) }
        ensures gives { PutsInMem self.old piece.now (is_ok result) self.new }
        ensures rose { OnErr result (Rose self.old.faults self.new.faults) }
    {
        let call = self.counts.begin();
        let fits = piece.len().min(self.room - self.bytes.len());
        let listed = first_listed(&self.fails, call);
        let count = listed.map_or(fits, |pair| pair.1.min(fits));
        // Room for the bytes was reserved when the sink was made.
        self.bytes.extend_from_slice(&piece[..count]).unwrap();
        if listed.is_some() || fits < piece.len() {
            return Err(self.counts.fault());
        }
        Ok(())
    }
}
