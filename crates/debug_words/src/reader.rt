// The lines of a source, read byte by byte.
ghost use Rattle.std.specs.Prelude.{◌≡◌, ℕ, ◌+◌, ◌-◌, ◌<◌, ◌≤◌, Bool, true, false, List, [], ◌∷◌, ◌++◌, take, drop, length, Option, Some, None, OnOk, OnErr, IfOk, IfSome, MatchOption};
ghost use Rattle.std.specs.Io.KnownBytes.{Consumes, IsAtEnd};
ghost use Rattle.cape_io.specs.Devices.{Rose};
ghost use Rattle.arrayvec.specs.ArrayVec.{array_vec_len};
ghost use Rattle.debug_words.specs.Lines.{most_bytes, GivesByte, GivesEnd, GivesLine, GivesNone, budget};

use arrayvec::ArrayVec;
use cape_io::{Failed, Source};
use std::alloc::{AllocError as NoMemory, Global};
use std::marker::Model;

// The most bytes of commands that a session reads.
const MOST_BYTES: usize = 16_777_216;

// How many bytes are taken at once.
const ROOM: usize = 1024;

// How many bytes of a line are kept: one more than a command may have.
const KEPT: usize = 256;

const NEWLINE: u8 = b'\n';

/// A line of commands, or the first 256 bytes of a longer one.
pub type CommandLine = ArrayVec<u8, 256>;

/// Gives the bytes of a source one by one, and takes no more of them than a session reads: 16,777,216.
#[derive(Drop)]
pub struct Reader {
    room: Vec<u8>,
    next: usize,
    end: usize,
    taken: usize,
}

impl Model for Reader {
    ghost use Rattle.std.specs.Prelude.{◌≤◌, ◌≡◌, take, drop, vec_len};
    ghost use Rattle.debug_words.specs.Lines.{ReaderValue, most_bytes};

    ghost Value = { ReaderValue };

    ghost view = { λ r. record { pending = drop r.next (take r.end r.room.items); taken = r.taken } };

    ghost invariant = { λ r. record {
      order : r.next ≤ r.end;
      inside : r.end ≤ vec_len r.room;
      large : vec_len r.room ≡ 1024;
      few : r.taken ≤ most_bytes;
    } };
}

impl Reader {
    /// A reader that took nothing.
    #[tactic(auto, unfolding(crate::specs::Lines::most_bytes))]
    pub fn new(alloc: Global) -> Result<Reader, NoMemory>
        ensures pending { IfOk result (λ r. r.pending ≡ []) }
        ensures taken { IfOk result (λ r. r.taken ≡ 0) }
    {
        Ok(Reader {
            room: vec![in alloc; 0u8; ROOM]?,
            next: 0,
            end: 0,
            taken: 0,
        })
    }

    /// Whether as many bytes were taken as a session reads.
    #[tactic(auto, unfolding(crate::specs::Lines::most_bytes))]
    pub fn is_at_limit(&self) -> bool
        ensures full { result ≡ true → self.now.taken ≡ most_bytes }
        ensures less { result ≡ false → self.now.taken < most_bytes }
    {
        self.taken == MOST_BYTES
    }

    // Whether a byte is pending.
    fn has_pending(&self) -> bool
        ensures some { result ≡ true → 0 < length self.now.pending }
        ensures none { result ≡ false → self.now.pending ≡ [] }
    {
        self.next < self.end
    }

    // The first pending byte.
    fn pop(&mut self) -> u8
        requires { 0 < length self.old.pending }
        ensures pending { self.old.pending ≡ result ∷ self.new.pending }
        ensures taken { self.new.taken ≡ self.old.taken }
    {
        let byte = self.room[self.next];
        self.next += 1;
        byte
    }

    // Takes more bytes, where none are pending.
    #[tactic(auto, unfolding(crate::specs::Lines::most_bytes))]
    fn refill<C: Source>(&mut self, commands: &mut C) -> Result<(), Failed>
        requires { self.old.pending ≡ [] }
        ensures moved { OnOk result (Consumes (C.left commands.old) (C.left commands.new) self.new.pending) }
        ensures taken { OnOk result (self.new.taken ≡ self.old.taken + length self.new.pending) }
        ensures few { OnOk result (self.new.taken ≤ most_bytes) }
        ensures ended { OnOk result (self.new.pending ≡ [] → self.old.taken < most_bytes → IsAtEnd (C.left commands.new)) }
        ensures cause { OnErr result (Rose (C.faults commands.old) (C.faults commands.new)) }
        ensures quiet { OnOk result (C.faults commands.new ≡ C.faults commands.old) }
    {
        let most = (MOST_BYTES - self.taken).min(ROOM);
        let n = commands.take(&mut self.room[0..most])?;
        self.next = 0;
        self.end = n;
        self.taken += n;
        Ok(())
    }

    // The next byte, or none where there is none or the limit is reached.
    #[tactic(auto, using(crate::proofs::Reading::gives_pending, crate::proofs::Reading::gives_refilled, crate::proofs::Reading::gives_end))]
    fn next_byte<C: Source>(&mut self, commands: &mut C) -> Result<Option<u8>, Failed>
        ensures byte { IfOk result (λ b. IfSome b (λ b. GivesByte b self.old self.new (C.left commands.old) (C.left commands.new))) }
        ensures none { IfOk result (λ b. b ≡ None → GivesEnd self.old self.new (C.left commands.old) (C.left commands.new)) }
        ensures budget { IfOk result (λ b. MatchOption b (budget self.new ≤ budget self.old) (λ b. budget self.new < budget self.old)) }
        ensures cause { OnErr result (Rose (C.faults commands.old) (C.faults commands.new)) }
        ensures quiet { OnOk result (C.faults commands.new ≡ C.faults commands.old) }
    {
        if self.has_pending() {
            return Ok(Some(self.pop()));
        }
        self.refill(commands)?;
        if self.has_pending() {
            return Ok(Some(self.pop()));
        }
        Ok(None)
    }

    /// Reads the next line, or its first 256 bytes, and says whether there is one.
    pub fn next_line<C: Source>(
        &mut self,
        commands: &mut C,
        line: &mut CommandLine,
    ) -> Result<bool, Failed>
        ensures line { IfOk result (λ b. b ≡ true → GivesLine self.old self.new (C.left commands.old) (C.left commands.new) line.new.items) }
        ensures none { IfOk result (λ b. b ≡ false → GivesNone self.old self.new (C.left commands.old) (C.left commands.new)) }
        ensures budget { IfOk result (λ b. b ≡ true → budget self.new < budget self.old) }
        ensures cause { OnErr result (Rose (C.faults commands.old) (C.faults commands.new)) }
        ensures quiet { OnOk result (C.faults commands.new ≡ C.faults commands.old) }
    {
        line.clear();
        'bytes: loop {
            match self.next_byte(commands)? {
                None => {
                    if self.is_at_limit() {
                        return Ok(false);
                    }
                    if line.len() == 0 {
                        return Ok(false);
                    }
                    return Ok(true);
                }
                Some(b) => {
                    if b == NEWLINE {
                        return Ok(true);
                    }
                    if line.len() < KEPT {
                        line.push(b);
                    }
                }
            }
        }
    }
}
