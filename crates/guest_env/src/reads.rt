// The read call of a guest.
ghost use Rattle.std.specs.Prelude.{◌≡◌, ◌<◌, ◌≤◌, ℕ, List, true, length, OnOk, OnErr, IfOk};
ghost use Rattle.std.specs.Io.KnownBytes.{Consumes, IsAtEnd, Keeps};
ghost use Rattle.cape_io.specs.Devices.{Rose};
ghost use Rattle.guest_env.specs.Inputs.{stored_in, IsRead, Takes};
ghost use Rattle.rvv_meaning.specs.Calls.{is_input as input_of, is_writable, read_count};

use crate::answers::{BAD_ADDRESS, BAD_DESCRIPTOR};
use crate::descriptors::is_input;
use crate::ranges::is_allowed;
use cape_io::{Failed, Source};
use guest_mem::{Mem, Perms};

// The most bytes that are taken at once.
const PIECE: usize = 4096;

// Takes bytes of the input, no more than `most` and than the buffer holds, and stores them from an address on. 0 is the
// end of the input.
fn take_piece<S: Source>(
    mem: &mut Mem,
    at: u32,
    most: u32,
    input: &mut S,
    buf: &mut [u8],
) -> Result<u32, Failed>
    requires some { 0 < most }
    requires room { 0 < length buf.old }
    ensures moved { IfOk result (λ n. (piece : List ℕ)
        × (length piece ≡ n)
        × Consumes (S.left input.old) (S.left input.new) piece
        × (mem.new ≡ stored_in mem.old at piece)) }
    ensures bound { IfOk result (λ n. n ≤ most) }
    ensures ended { IfOk result (λ n. n ≡ 0 → IsAtEnd (S.left input.new)) }
    ensures kept { OnErr result (Keeps (S.left input.old) (S.left input.new)) }
    ensures unchanged { OnErr result (mem.new ≡ mem.old) }
    ensures quiet { OnOk result (S.faults input.new ≡ S.faults input.old) }
    ensures rose { OnErr result (Rose (S.faults input.old) (S.faults input.new)) }
{
    let len = buf.len().min(most as usize);
    let piece = &mut buf[..len];
    let taken = input.take(piece)?;
    mem.copy_in(at, &piece[..taken]);
    Ok(taken as u32)
}

// Takes bytes of the input into a range, until it is full or the input ends, and answers how many.
fn fill<S: Source>(mem: &mut Mem, address: u32, count: u32, input: &mut S) -> Result<u32, Failed>
    ensures filled { IfOk result (λ n. (taken : List ℕ)
        × Takes count (S.left input.old) (S.left input.new) taken
        × (n ≡ length taken)
        × (mem.new ≡ stored_in mem.old address taken)) }
    ensures stands { OnErr result ((taken : List ℕ)
        × (length taken < count)
        × Consumes (S.left input.old) (S.left input.new) taken
        × (mem.new ≡ stored_in mem.old address taken)) }
    ensures quiet { OnOk result (S.faults input.new ≡ S.faults input.old) }
    ensures rose { OnErr result (Rose (S.faults input.old) (S.faults input.new)) }
    ensures stays { count ≡ 0 → input.new ≡ input.old }
{
    let mut buf = [0u8; PIECE];
    let mut at = address;
    let mut left = count;
    while left > 0 {
        let taken = take_piece(mem, at, left, input, &mut buf)?;
        if taken == 0 {
            break;
        }
        at = at.wrapping_add(taken);
        left -= taken;
    }
    Ok(count - left)
}

// What read(descriptor, address, count) answers, after its bytes were taken and stored. A call that is refused takes
// nothing.
pub(crate) fn read<S: Source>(
    mem: &mut Mem,
    descriptor: u32,
    address: u32,
    count: u32,
    input: &mut S,
) -> Result<u32, Failed>
    ensures answered { IfOk result (λ answer. IsRead S.Source descriptor address count mem.old mem.new input.old input.new answer) }
    ensures stands { OnErr result ((taken : List ℕ)
        × (length taken < count)
        × Consumes (S.left input.old) (S.left input.new) taken
        × (mem.new ≡ stored_in mem.old address taken)) }
    ensures allowed { OnErr result (input_of descriptor ≡ true) }
    ensures inside { OnErr result (is_writable mem.old.pages address count ≡ true) }
    ensures quiet { OnOk result (S.faults input.new ≡ S.faults input.old) }
    ensures rose { OnErr result (Rose (S.faults input.old) (S.faults input.new)) }
    ensures stays { read_count mem.old.pages descriptor address count ≡ 0 → input.new ≡ input.old }
{
    if !is_input(descriptor) {
        return Ok(BAD_DESCRIPTOR);
    }
    if !is_allowed(mem, address, count, Perms::WRITE) {
        return Ok(BAD_ADDRESS);
    }
    fill(mem, address, count, input)
}
