// The calls of a guest.
ghost use Rattle.std.specs.Prelude.{◌≡◌, ◌≢◌, [], is_ok, OnOk, OnErr, IfOk, IsErrOf};
ghost use Rattle.rvv_meaning.specs.Calls.{named_call, first, second, asked_by, put_by, answer_of, memory_after, break_after};
ghost use Rattle.guest_env.specs.Outputs.{bytes_out, bytes_err, gained_out, gained_err, IsWritten};
ghost use Rattle.guest_env.specs.Answers.{flow_of, asked, HasAnswer, IsAnswered, FailsReading, FailsWriting};

use crate::answers::{EnvFault, EnvFlow, NO_CALL};
use crate::descriptors::{close, seek};
use crate::numbers::call_of;
use crate::reads::read;
use crate::writes::write;
use cape_io::{Failed, Sink, Source};
use guest_mem::Mem;
use rv32_core::Regs;
use rvv_meaning::Call;

// The registers of a call: its number, and its arguments, of which the first gets the answer.
const NUMBER: u8 = 17;

const FIRST: u8 = 10;

const SECOND: u8 = 11;

const THIRD: u8 = 12;

// The bits of an exit code.
const CODE_MASK: u32 = 0xff;

// Asks for a break, and answers the break after it.
fn move_break(mem: &mut Mem, asked: u32) -> u32
    ensures answer { result ≡ break_after mem.old asked }
    ensures moved { mem.new ≡ record mem.old { brk = break_after mem.old asked } }
{
    mem.set_brk(asked)
}

// How the guest goes on after a call.
#[tactic(auto, unfolding(crate::specs::Answers::flow_of))]
fn flow_after(call: Call, regs: &Regs) -> EnvFlow
    ensures { result ≡ flow_of call regs.now }
{
    match call {
        Call::Exit => EnvFlow::Exit((regs.get(FIRST) & CODE_MASK) as u8),
        _ => EnvFlow::Back,
    }
}

// What a call answers that has nothing to do with a device, after all that it does but to the registers.
#[tactic(auto, unfolding(rvv_meaning::specs::Calls::answer_of, rvv_meaning::specs::Calls::memory_after))]
fn answer_alone(call: Call, regs: &Regs, mem: &mut Mem) -> u32
    requires no_read { call ≢ Call.Read }
    requires no_write { call ≢ Call.Write }
    ensures answer { result ≡ answer_of call regs.now mem.old [] }
    ensures memory { mem.new ≡ memory_after call regs.now mem.old [] }
{
    let first = regs.get(FIRST);
    match call {
        Call::Read | Call::Write => unreachable!(),
        // An exit leaves the register of the answer as it is.
        Call::Exit => first,
        Call::Break => move_break(mem, first),
        Call::Close => close(first),
        Call::Seek => seek(first),
        Call::Unknown => NO_CALL,
    }
}

// What a call answers, after all that it does but to the registers.
fn answer<S: Source, O: Sink, E: Sink>(
    call: Call,
    regs: &Regs,
    mem: &mut Mem,
    input: &mut S,
    out: &mut O,
    err: &mut E,
    merged: bool,
) -> Result<u32, EnvFault>
    requires { call ≡ named_call regs.now }
    ensures answered { IfOk result (λ answer. HasAnswer S.Source call regs.now mem.old mem.new input.old input.new answer) }
    ensures to_out { IsWritten O.Sink (second regs.now) (bytes_out merged (first regs.now) (put_by call regs.now mem.old)) (is_ok result) out.old out.new }
    ensures to_err { IsWritten E.Sink (second regs.now) (bytes_err merged (first regs.now) (put_by call regs.now mem.old)) (is_ok result) err.old err.new }
    ensures read_fault { IsErrOf result EnvFault.ReadFault → FailsReading S.Source regs.now mem.old mem.new input.old input.new }
    ensures write_fault { IsErrOf result EnvFault.WriteFault → FailsWriting O.Sink E.Sink merged regs.now mem.old mem.new out.old out.new err.old err.new }
    ensures input_stays { asked_by call regs.now mem.old ≡ 0 → input.new ≡ input.old }
{
    let first = regs.get(FIRST);
    let second = regs.get(SECOND);
    let third = regs.get(THIRD);
    match call {
        Call::Read => match read(mem, first, second, third, input) {
            Ok(answer) => Ok(answer),
            Err(Failed) => Err(EnvFault::ReadFault),
        },
        Call::Write => match write(mem, first, second, third, out, err, merged) {
            Ok(answer) => Ok(answer),
            Err(Failed) => Err(EnvFault::WriteFault),
        },
        _ => Ok(answer_alone(call, regs, mem)),
    }
}

/// Carries out the call that the registers ask for, with the numbers and the answers of Linux for RISC-V: x17 has the
/// number, x10 to x12 the arguments, and x10 gets the answer.
///
/// - 63, read(descriptor, address, count): -9 (EBADF) unless the descriptor is 0; then -14 (EFAULT) where the range is not
///   wholly writable; else the smaller of `count` and the input left, whose bytes are taken and stored.
/// - 64, write(descriptor, address, count): -9 unless the descriptor is 1 or 2; then -14 where the range is not wholly
///   readable; else `count`, after the bytes were written, one piece for each page that the range meets, in the range's own
///   order.
/// - 93 and 94, exit(code): the guest ends with the low eight bits of the code. The registers stay.
/// - 214, brk(address): the break becomes the address, where it lies in the heap; the answer is the break after it.
/// - 57, close(descriptor): 0 for 0, 1 and 2, which stay open, and else -9.
/// - 62, llseek(descriptor, ..): -29 (ESPIPE) for 0, 1 and 2, and else -9.
/// - Any other number: -38 (ENOSYS).
///
/// A range wraps modulo 2^32, and one of no bytes is wholly readable and writable. A call that is refused moves nothing.
/// `merged` says where the bytes of a write go: those on 1 to `out` and those on 2 to `err`, or both to `err` in their
/// order. At a fault the registers are as before; a read's bytes that came before it stand in memory, and a write's in the
/// sink.
pub fn call<S: Source, O: Sink, E: Sink>(
    regs: &mut Regs,
    mem: &mut Mem,
    input: &mut S,
    out: &mut O,
    err: &mut E,
    merged: bool,
) -> Result<EnvFlow, EnvFault>
    // What a call that went leaves, and how the guest goes on.
    ensures answered { OnOk result (IsAnswered S.Source regs.old regs.new mem.old mem.new input.old input.new) }
    ensures flow { IfOk result (λ flow. flow ≡ flow_of (named_call regs.old) regs.old) }

    // What it writes, wholly where it went, and in pieces.
    ensures to_out { IsWritten O.Sink (second regs.old) (gained_out merged regs.old mem.old) (is_ok result) out.old out.new }
    ensures to_err { IsWritten E.Sink (second regs.old) (gained_err merged regs.old mem.old) (is_ok result) err.old err.new }

    // What stands where a device failed.
    ensures kept { OnErr result (regs.new ≡ regs.old) }
    ensures read_fault { IsErrOf result EnvFault.ReadFault → FailsReading S.Source regs.old mem.old mem.new input.old input.new }
    ensures write_fault { IsErrOf result EnvFault.WriteFault → FailsWriting O.Sink E.Sink merged regs.old mem.old mem.new out.old out.new err.old err.new }

    // An input that is not asked stays as it was.
    ensures input_stays { asked regs.old mem.old ≡ 0 → input.new ≡ input.old }
{
    let call = call_of(regs.get(NUMBER));
    let flow = flow_after(call, regs);
    let answer = answer(call, regs, mem, input, out, err, merged)?;
    regs.set(FIRST, answer);
    Ok(flow)
}
