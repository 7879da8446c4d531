// Traps.
ghost use Rattle.std.specs.Prelude.{◌≡◌};
ghost use Rattle.rv32_decode.specs.Spelling.{IsSpelled};
ghost use Rattle.rvv_meaning.specs.Scalar.{illegal_instruction};
ghost use Rattle.rvv_meaning.specs.Scalar.Words.{word_of};

use guest_mem::Trap;
use rv32_decode::Instr;
use rvv_meaning::Flow;

// The causes, by their numbers in mcause (privileged specification).
pub const MISALIGNED_TARGET: u8 = 0;

pub const ILLEGAL_INSTRUCTION: u8 = 2;

pub const BREAKPOINT: u8 = 3;

pub const LOAD_FAULT: u8 = 5;

pub const STORE_FAULT: u8 = 7;

// A trap of the instruction at pc.
pub fn trap(cause: u8, pc: u32, value: u32) -> Flow
    ensures { result ≡ Flow.Trap record { cause = cause; pc = pc; value = value } }
{
    Flow::Trap(Trap { cause, pc, value })
}

// The trap of an instruction that is illegal; its value is the word.
pub fn illegal(i: &Instr, pc: u32) -> Flow
    requires { IsSpelled i.now }
    ensures { result ≡ Flow.Trap record { cause = illegal_instruction; pc = pc; value = word_of i.now } }
{
    trap(ILLEGAL_INSTRUCTION, pc, i.bits())
}
