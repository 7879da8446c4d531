// The execution of an instruction.
ghost use Rattle.std.specs.Prelude.{◌≡◌, ◌<◌, ◌≤◌, ℕ, IsTrue};
ghost use Rattle.guest_mem.specs.Pages.{Memory};
ghost use Rattle.rv32_decode.specs.Formats.{HasRegisters};
ghost use Rattle.rv32_decode.specs.Spelling.{IsSpelled};
ghost use Rattle.rvv_meaning.specs.declared.Csrs.{Csrs};
ghost use Rattle.rvv_meaning.specs.Scalar.{effect, executed, value_effect};
ghost use Rattle.vtype_cfg.specs.Settings.{is_legal_vlen};
ghost use Rattle.rv32_core.specs.Keeping.{Keeps};

use crate::accesses::{BYTE, HALFWORD, Loaded, WORD, load, store};
use crate::arithmetic::{div, divu, mulh, mulhsu, mulhu, rem, remu, slt, sltu, sra, sub};
use crate::control_registers::{Update, change};
use crate::regs::Regs;
use crate::transfers::{branch, jump};
use crate::traps::{BREAKPOINT, trap};
use guest_mem::Mem;
use rv32_decode::{Instr, Op};
use rvv_meaning::{Csrs, Flow};

// Gives x[rd] a value.
#[tactic(auto, unfolding(rvv_meaning::specs::Scalar::effect, rvv_meaning::specs::Scalar::value_effect))]
fn give(i: &Instr, regs: &mut Regs, value: u32) -> Flow
    requires { i.now.rd < 32 }
    ensures { (pc : ℕ) (csrs : Csrs) (mem : Memory)
        → effect result regs.new csrs mem ≡ value_effect i.now pc regs.old csrs mem value }
{
    regs.set(i.rd, value);
    Flow::Next
}

// Carries out an instruction, by its operation. What it leaves is one value.
#[tactic(auto, unfolding(rvv_meaning::specs::Scalar::executed, rvv_meaning::specs::Scalar::effect_of))]
fn perform(i: &Instr, pc: u32, regs: &mut Regs, csrs: &mut Csrs, mem: &mut Mem) -> Flow
    requires registers { HasRegisters i.now }
    requires spelled { IsSpelled i.now }
    requires vlen { 0 < csrs.old.vlen }
    ensures { effect result regs.new csrs.new mem.new ≡ executed i.now pc regs.old csrs.old mem.old }
{
    let first = regs.get(i.rs1);
    let second = regs.get(i.rs2);
    let immediate = u32::from(i.rs1);
    let writes = i.rs1 != 0;
    match i.op {
        Op::Lui => give(i, regs, i.imm),
        Op::Auipc => give(i, regs, pc.wrapping_add(i.imm)),
        Op::Jal => jump(i, pc, regs, pc.wrapping_add(i.imm)),
        Op::Jalr => jump(i, pc, regs, first.wrapping_add(i.imm) & !1),
        Op::Beq => branch(i, pc, first == second),
        Op::Bne => branch(i, pc, first != second),
        Op::Blt => branch(i, pc, first.cast_signed() < second.cast_signed()),
        Op::Bge => branch(i, pc, first.cast_signed() >= second.cast_signed()),
        Op::Bltu => branch(i, pc, first < second),
        Op::Bgeu => branch(i, pc, first >= second),
        Op::Lb => load(i, pc, regs, mem, Loaded::Byte),
        Op::Lh => load(i, pc, regs, mem, Loaded::Halfword),
        Op::Lw => load(i, pc, regs, mem, Loaded::Word),
        Op::Lbu => load(i, pc, regs, mem, Loaded::ByteUnsigned),
        Op::Lhu => load(i, pc, regs, mem, Loaded::HalfwordUnsigned),
        Op::Sb => store(i, pc, regs, mem, BYTE),
        Op::Sh => store(i, pc, regs, mem, HALFWORD),
        Op::Sw => store(i, pc, regs, mem, WORD),
        Op::Addi => give(i, regs, first.wrapping_add(i.imm)),
        Op::Slti => give(i, regs, slt(first, i.imm)),
        Op::Sltiu => give(i, regs, sltu(first, i.imm)),
        Op::Xori => give(i, regs, first ^ i.imm),
        Op::Ori => give(i, regs, first | i.imm),
        Op::Andi => give(i, regs, first & i.imm),
        Op::Slli => give(i, regs, first.wrapping_shl(i.imm)),
        Op::Srli => give(i, regs, first.wrapping_shr(i.imm)),
        Op::Srai => give(i, regs, sra(first, i.imm)),
        Op::Add => give(i, regs, first.wrapping_add(second)),
        Op::Sub => give(i, regs, sub(first, second)),
        Op::Sll => give(i, regs, first.wrapping_shl(second)),
        Op::Slt => give(i, regs, slt(first, second)),
        Op::Sltu => give(i, regs, sltu(first, second)),
        Op::Xor => give(i, regs, first ^ second),
        Op::Srl => give(i, regs, first.wrapping_shr(second)),
        Op::Sra => give(i, regs, sra(first, second)),
        Op::Or => give(i, regs, first | second),
        Op::And => give(i, regs, first & second),
        Op::Mul => give(i, regs, first.wrapping_mul(second)),
        Op::Mulh => give(i, regs, mulh(first, second)),
        Op::Mulhsu => give(i, regs, mulhsu(first, second)),
        Op::Mulhu => give(i, regs, mulhu(first, second)),
        Op::Div => give(i, regs, div(first, second)),
        Op::Divu => give(i, regs, divu(first, second)),
        Op::Rem => give(i, regs, rem(first, second)),
        Op::Remu => give(i, regs, remu(first, second)),
        Op::Fence | Op::FenceI => Flow::Next,
        Op::Ecall => Flow::Call,
        Op::Ebreak => trap(BREAKPOINT, pc, pc),
        Op::Csrrw => change(i, pc, regs, csrs, Update::Replace, first, true),
        Op::Csrrs => change(i, pc, regs, csrs, Update::Set, first, writes),
        Op::Csrrc => change(i, pc, regs, csrs, Update::Clear, first, writes),
        Op::Csrrwi => change(i, pc, regs, csrs, Update::Replace, immediate, true),
        Op::Csrrsi => change(i, pc, regs, csrs, Update::Set, immediate, writes),
        Op::Csrrci => change(i, pc, regs, csrs, Update::Clear, immediate, writes),
    }
}

/// Carries out the instruction `i` at the address `pc` (RISC-V unprivileged specification: RV32I, M, Zicsr and Zifencei).
/// The instruction is one that `decode` gives for a word, a vector register has a power of two of bits from 32 to 65,536,
/// and `vxrm` is at most 3.
///
/// The result says where the program goes on. `Flow::Jump` has the address, `Flow::Call` is ecall, and `Flow::Trap` has
/// the cause, the pc and the value of a trap, which leaves the registers, the control registers and the memory as they
/// are. A misaligned target, an access without permission and an illegal access to a control register trap, as ebreak
/// does. Loads and stores may have any alignment, and addresses wrap modulo 2^32. `retired`, `vl` and `vtype` stay as they
/// are.
pub fn exec(i: &Instr, pc: u32, regs: &mut Regs, csrs: &mut Csrs, mem: &mut Mem) -> Flow
    requires spelled { IsSpelled i.now }
    requires vlen { IsTrue (is_legal_vlen csrs.old.vlen) }
    requires vxrm { csrs.old.vxrm ≤ 3 }
    ensures flow { result ≡ (executed i.now pc regs.old csrs.old mem.old).flow }
    ensures regs { regs.new ≡ (executed i.now pc regs.old csrs.old mem.old).regs }
    ensures csrs { csrs.new ≡ (executed i.now pc regs.old csrs.old mem.old).csrs }
    ensures mem { mem.new ≡ (executed i.now pc regs.old csrs.old mem.old).mem }
    ensures keeps { Keeps csrs.old csrs.new }
{
    perform(i, pc, regs, csrs, mem)
}
