// Sources over memory.
ghost use Rattle.std.specs.Prelude.{◌≡◌, ◌<◌, ◌≤◌, ◌↔◌, ◌++◌, Some, drop, take, length, IfOk, IsErr, IsOk, OnErr, Contains};
ghost use Rattle.std.specs.Io.{ReadsAtMost};
ghost use Rattle.std.specs.Io.KnownBytes.{Consumes, IsAtEnd, Keeps};
ghost use Rattle.cape_io.specs.Devices.{Rose, one_fault_more};
ghost use Rattle.cape_io.specs.States.{given_count, next_call};

use crate::counts::Counts;
use crate::{Failed, Source};
use std::alloc::{AllocError as NoMemory, Global};
use std::marker::Model;

// Moves a prefix of what is left to the start of the buffer, and answers how many bytes.
pub(crate) fn move_prefix(rest: &[u8], step: usize, buf: &mut [u8]) -> usize
    ensures count { result ≡ given_count (length rest.now) step (length buf.old) }
    ensures prefix { rest.now ≡ take result buf.new ++ drop result rest.now }
    ensures rest { drop result buf.new ≡ drop result buf.old }
{
    let count = rest.len().min(step.min(buf.len()));
    buf[..count].copy_from_slice(&rest[..count]);
    count
}

/// A source over bytes that never fails.
#[derive(Drop)]
pub struct SureSource {
    bytes: Vec<u8>,
    taken: usize,
    step: usize,
}

impl Model for SureSource {
    ghost use Rattle.std.specs.Prelude.{◌≤◌, ◌<◌, drop, vec_len};
    ghost use Rattle.cape_io.specs.States.{SureSourceState};

    ghost Value = { SureSourceState };

    ghost view = { λ s. record { left = drop s.taken s.bytes.items; step = s.step } };

    ghost invariant = { λ s. (s.taken ≤ vec_len s.bytes) × (0 < s.step) };
}

impl SureSource {
    /// A source of these bytes, which gives at most `step` of them a call.
    pub fn new(alloc: Global, bytes: &[u8], step: usize) -> Result<SureSource, NoMemory>
        requires { 0 < step }
        ensures { IfOk result (λ source. source ≡ record { left = bytes.now; step = step }) }
    {
        Ok(SureSource {
            bytes: Vec::from_slice(alloc, bytes)?,
            taken: 0,
            step,
        })
    }
}

// That it never fails leaves nothing to say of failures, and its count of faults is always 0.
impl Source for SureSource {
    ghost left = { λ s. Some s.left };

    ghost faults = { λ _. 0 };

    fn take(&mut self, buf: &mut [u8]) -> Result<usize, Failed>
        ensures bound { ReadsAtMost result buf.new }
        ensures moved { IfOk result (λ n.
            Consumes (Some self.old.left) (Some self.new.left) (take n buf.new)) }
        ensures ended { IfOk result (λ n.
            n ≡ 0 → 0 < length buf.new → IsAtEnd (Some self.new.left)) }
        ensures sure { IsOk result }
        ensures count { IfOk result (λ n.
            n ≡ given_count (length self.old.left) self.old.step (length buf.old)) }
        ensures rest { IfOk result (λ n. drop n buf.new ≡ drop n buf.old) }
        ensures after { IfOk result (λ n. self.new ≡ record self.old { left = drop n self.old.left }) }
    {
        let count = move_prefix(&self.bytes[self.taken..], self.step, buf);
        self.taken += count;
        Ok(count)
    }
}

/// A source over bytes that fails at listed calls.
#[derive(Drop)]
pub struct MemSource {
    source: SureSource,
    fails: Vec<u64>,
    counts: Counts,
}

impl Model for MemSource {
    ghost use Rattle.cape_io.specs.States.{MemSourceState};

    ghost Value = { MemSourceState };

    ghost view = { λ s. record {
      left = s.source.left;
      step = s.source.step;
      fails = s.fails.items;
      calls = s.counts.calls;
      faults = s.counts.faults;
    } };
}

impl MemSource {
    /// A source of these bytes, which gives at most `step` of them a call. The calls of `take`
    /// are numbered from 0, and those whose numbers stand in `fails` fail.
    pub fn new(
        alloc: Global,
        bytes: &[u8],
        step: usize,
        fails: &[u64],
    ) -> Result<MemSource, NoMemory>
        requires { 0 < step }
        ensures { IfOk result (λ source. source ≡ record {
          left = bytes.now;
          step = step;
          fails = fails.now;
          calls = 0;
          faults = 0;
        }) }
    {
        Ok(MemSource {
            source: SureSource::new(alloc, bytes, step)?,
            fails: Vec::from_slice(alloc, fails)?,
            counts: Counts::new(),
        })
    }
}

impl Source for MemSource {
    ghost left = { λ s. Some s.left };

    ghost faults = { λ s. s.faults };

    fn take(&mut self, buf: &mut [u8]) -> Result<usize, Failed>
        ensures bound { ReadsAtMost result buf.new }
        ensures moved { IfOk result (λ n.
            Consumes (Some self.old.left) (Some self.new.left) (take n buf.new)) }
        ensures ended { IfOk result (λ n.
            n ≡ 0 → 0 < length buf.new → IsAtEnd (Some self.new.left)) }
        ensures kept { OnErr result (Keeps (Some self.old.left) (Some self.new.left)) }
        ensures rose { OnErr result (Rose self.old.faults self.new.faults) }

        ensures fails { IsErr result ↔ Contains self.old.fails self.old.calls }
        ensures count { IfOk result (λ n.
            n ≡ given_count (length self.old.left) self.old.step (length buf.old)) }
        ensures rest { IfOk result (λ n. drop n buf.new ≡ drop n buf.old) }
        ensures untouched { OnErr result (buf.new ≡ buf.old) }
        ensures ok { IfOk result (λ n. self.new ≡ record self.old {
          left = drop n self.old.left;
          calls = next_call self.old.calls;
        }) }
        ensures err { OnErr result (self.new ≡ record self.old {
          calls = next_call self.old.calls;
          faults = one_fault_more self.old.faults;
        }) }
    {
        self.counts.call(&self.fails)?;
        self.source.take(buf)
    }
}
