// Loads and stores.
ghost use Rattle.std.specs.Prelude.{◌≡◌, ◌≤◌};
ghost use Rattle.guest_mem.specs.Pages.{Memory};
ghost use Rattle.rv32_decode.specs.Formats.{HasRegisters};
ghost use Rattle.rvv_meaning.specs.declared.Csrs.{Csrs};
ghost use Rattle.rvv_meaning.specs.Scalar.{effect, load_effect, store_effect};
ghost use Rattle.rv32_core.specs.Loaded.{size_of, value_of};

use crate::regs::Regs;
use crate::traps::{LOAD_FAULT, STORE_FAULT, trap};
use guest_mem::Mem;
use rv32_decode::Instr;
use rvv_meaning::Flow;

// The bytes of a byte, a halfword and a word.
pub const BYTE: u32 = 1;

pub const HALFWORD: u32 = 2;

pub const WORD: u32 = 4;

// What a load reads. A byte and a halfword are extended by their sign, or by zeros where they are unsigned.
#[derive(Clone, Copy)]
pub enum Loaded {
    Byte,
    Halfword,
    Word,
    ByteUnsigned,
    HalfwordUnsigned,
}

impl Loaded {
    // How many bytes it reads.
    fn size(self) -> u32
        ensures size { result ≡ size_of self }
        ensures small { result ≤ 4 }
    {
        match self {
            Loaded::Byte | Loaded::ByteUnsigned => BYTE,
            Loaded::Halfword | Loaded::HalfwordUnsigned => HALFWORD,
            Loaded::Word => WORD,
        }
    }

    // What it makes of their number.
    fn value(self, number: u32) -> u32
        ensures { result ≡ value_of self number }
    {
        match self {
            Loaded::Byte => {
                let byte = (number & u32::from(u8::MAX)) as u8;
                i32::from(byte.cast_signed()).cast_unsigned()
            }
            Loaded::Halfword => {
                let halfword = (number & u32::from(u16::MAX)) as u16;
                i32::from(halfword.cast_signed()).cast_unsigned()
            }
            Loaded::Word | Loaded::ByteUnsigned | Loaded::HalfwordUnsigned => number,
        }
    }
}

// Loads x[rd].
#[tactic(auto, unfolding(rvv_meaning::specs::Scalar::load_effect, rvv_meaning::specs::Scalar::value_effect, rvv_meaning::specs::Scalar::effect))]
pub fn load(i: &Instr, pc: u32, regs: &mut Regs, mem: &Mem, loaded: Loaded) -> Flow
    requires { HasRegisters i.now }
    ensures { (csrs : Csrs)
        → effect result regs.new csrs mem.now
        ≡ load_effect i.now pc regs.old csrs mem.now (size_of loaded) (value_of loaded) }
{
    let address = regs.get(i.rs1).wrapping_add(i.imm);
    match mem.load(address, loaded.size()) {
        Ok(number) => {
            regs.set(i.rd, loaded.value(number));
            Flow::Next
        }
        Err(fault) => trap(LOAD_FAULT, pc, fault.address),
    }
}

// Stores the low bytes of x[rs2].
#[tactic(auto, unfolding(rvv_meaning::specs::Scalar::store_effect, rvv_meaning::specs::Scalar::effect))]
pub fn store(i: &Instr, pc: u32, regs: &Regs, mem: &mut Mem, size: u32) -> Flow
    requires registers { HasRegisters i.now }
    requires small { size ≤ 4 }
    ensures { (csrs : Csrs)
        → effect result regs.now csrs mem.new ≡ store_effect i.now pc regs.now csrs mem.old size }
{
    let address = regs.get(i.rs1).wrapping_add(i.imm);
    match mem.store(address, size, regs.get(i.rs2)) {
        Ok(()) => Flow::Next,
        Err(fault) => trap(STORE_FAULT, pc, fault.address),
    }
}
