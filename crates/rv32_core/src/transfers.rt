// Jumps and branches.
ghost use Rattle.std.specs.Prelude.{◌≡◌, ◌<◌, ℕ, List};
ghost use Rattle.guest_mem.specs.Pages.{Memory};
ghost use Rattle.rvv_meaning.specs.declared.Csrs.{Csrs};
ghost use Rattle.rvv_meaning.specs.Scalar.{effect, jump_effect, branch_effect};
ghost use Rattle.rvv_meaning.specs.Scalar.Transfers.{is_aligned as aligned};

use crate::regs::Regs;
use crate::traps::{MISALIGNED_TARGET, trap};
use rv32_decode::Instr;
use rvv_meaning::Flow;

// The bytes of an instruction word.
const WORD_SIZE: u32 = 4;

// Whether an instruction word may stand at an address.
fn is_aligned(address: u32) -> bool
    ensures { result ≡ aligned address }
{
    address % WORD_SIZE == 0
}

// Jumps to a target, and leaves the address of the next word in x[rd]. A target that is not aligned traps before.
#[tactic(auto, unfolding(rvv_meaning::specs::Scalar::jump_effect, rvv_meaning::specs::Scalar::effect))]
pub fn jump(i: &Instr, pc: u32, regs: &mut Regs, target: u32) -> Flow
    requires { i.now.rd < 32 }
    ensures { (csrs : Csrs) (mem : Memory)
        → effect result regs.new csrs mem ≡ jump_effect i.now pc regs.old csrs mem target }
{
    if !is_aligned(target) {
        return trap(MISALIGNED_TARGET, pc, target);
    }
    regs.set(i.rd, pc.wrapping_add(WORD_SIZE));
    Flow::Jump(target)
}

// Branches where the condition holds.
#[tactic(auto, unfolding(rvv_meaning::specs::Scalar::branch_effect, rvv_meaning::specs::Scalar::effect))]
pub fn branch(i: &Instr, pc: u32, taken: bool) -> Flow
    ensures { (regs : List ℕ) (csrs : Csrs) (mem : Memory)
        → effect result regs csrs mem ≡ branch_effect i.now pc regs csrs mem taken }
{
    if !taken {
        return Flow::Next;
    }
    let target = pc.wrapping_add(i.imm);
    if is_aligned(target) {
        Flow::Jump(target)
    } else {
        trap(MISALIGNED_TARGET, pc, target)
    }
}
