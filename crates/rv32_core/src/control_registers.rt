// Control and status registers.
ghost use Rattle.std.specs.Prelude.{◌≡◌, ◌<◌, ◌/◌, ◌%◌, ◌^◌};
ghost use Rattle.guest_mem.specs.Pages.{Memory};
ghost use Rattle.rv32_decode.specs.Formats.{HasRegisters};
ghost use Rattle.rv32_decode.specs.Spelling.{IsSpelled};
ghost use Rattle.rvv_meaning.specs.Scalar.{effect, csr_effect};
ghost use Rattle.rvv_meaning.specs.Scalar.ControlRegisters as control;
ghost use Rattle.rv32_core.specs.Update.{value_of};

use crate::regs::Regs;
use crate::traps::illegal;
use rv32_decode::Instr;
use rvv_meaning::{Csrs, Flow};

// The numbers of the registers (vector extension 1.0, section 3, and unprivileged specification, chapter Zicntr).
const VSTART: u32 = 0x008;

const VXSAT: u32 = 0x009;

const VXRM: u32 = 0x00a;

const VCSR: u32 = 0x00f;

const CYCLE: u32 = 0xc00;

const INSTRET: u32 = 0xc02;

const VL: u32 = 0xc20;

const VTYPE: u32 = 0xc21;

const VLENB: u32 = 0xc22;

const CYCLEH: u32 = 0xc80;

const INSTRETH: u32 = 0xc82;

// The bits of a byte and of a word.
const BYTE_BITS: u32 = 8;

const WORD_BITS: u32 = 32;

// The bits of vxsat and of vxrm, and where vxrm begins in vcsr.
const VXSAT_MASK: u32 = 0b1;

const VXRM_MASK: u32 = 0b11;

const VXRM_SHIFT: u32 = 1;

// What is written into a register: the operand, or what it held with the operand's bits set or cleared.
#[derive(Clone, Copy)]
pub enum Update {
    Replace,
    Set,
    Clear,
}

impl Update {
    // What is written, from what the register held and the operand.
    fn value(self, old: u32, operand: u32) -> u32
        ensures { result ≡ value_of self old operand }
    {
        match self {
            Update::Replace => operand,
            Update::Set => old | operand,
            Update::Clear => old & !operand,
        }
    }
}

// The lower half of a counter.
fn low_word(counter: u64) -> u32
    ensures { result ≡ counter % 2 ^ 32 }
{
    (counter & u64::from(u32::MAX)) as u32
}

// The higher half of a counter.
fn high_word(counter: u64) -> u32
    ensures { result ≡ counter / 2 ^ 32 }
{
    (counter >> WORD_BITS) as u32
}

// What a register holds, or `None` where none has the number.
#[tactic(auto, unfolding(rvv_meaning::specs::Scalar::ControlRegisters::read))]
fn read(number: u32, csrs: &Csrs) -> Option<u32>
    ensures { result ≡ control.read number csrs.now }
{
    let held = match number {
        VSTART => csrs.vstart,
        VXSAT => u32::from(csrs.vxsat),
        VXRM => u32::from(csrs.vxrm),
        VCSR => u32::from(csrs.vxrm) << VXRM_SHIFT | u32::from(csrs.vxsat),
        CYCLE | INSTRET => low_word(csrs.retired),
        VL => csrs.vl,
        VTYPE => csrs.vtype,
        VLENB => csrs.vlen / BYTE_BITS,
        CYCLEH | INSTRETH => high_word(csrs.retired),
        _ => return None,
    };
    Some(held)
}

// The control registers after a write, or `None` where no register has the number or it can only be read.
#[tactic(auto, unfolding(rvv_meaning::specs::Scalar::ControlRegisters::write))]
fn write(number: u32, value: u32, csrs: &Csrs) -> Option<Csrs>
    requires { 0 < csrs.now.vlen }
    ensures { result ≡ control.write number value csrs.now }
{
    let mut after = *csrs;
    match number {
        VSTART => after.vstart = value % csrs.vlen,
        VXSAT => after.vxsat = value & VXSAT_MASK != 0,
        VXRM => after.vxrm = (value & VXRM_MASK) as u8,
        VCSR => {
            after.vxsat = value & VXSAT_MASK != 0;
            after.vxrm = (value >> VXRM_SHIFT & VXRM_MASK) as u8;
        }
        _ => return None,
    }
    Some(after)
}

// Changes a register, if it is to be written, and leaves in x[rd] what it held.
#[tactic(auto, unfolding(rvv_meaning::specs::Scalar::csr_effect, rvv_meaning::specs::Scalar::effect))]
pub fn change(
    i: &Instr,
    pc: u32,
    regs: &mut Regs,
    csrs: &mut Csrs,
    update: Update,
    operand: u32,
    writes: bool,
) -> Flow
    requires registers { HasRegisters i.now }
    requires spelled { IsSpelled i.now }
    requires vlen { 0 < csrs.old.vlen }
    ensures { (mem : Memory)
        → effect result regs.new csrs.new mem
        ≡ csr_effect i.now pc regs.old csrs.old mem writes (value_of update) operand }
{
    let Some(old) = read(i.imm, csrs) else {
        return illegal(i, pc);
    };
    if writes {
        match write(i.imm, update.value(old, operand), csrs) {
            Some(after) => *csrs = after,
            None => return illegal(i, pc),
        }
    }
    regs.set(i.rd, old);
    Flow::Next
}
