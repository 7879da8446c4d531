// Vector instructions without a program: elements that are moved between registers, and the number of one into a scalar
// register.
ghost use Rattle.std.specs.Prelude.{◌≡◌, ◌+◌, ◌*◌, ◌/◌, ◌<◌, ◌≤◌, ◌^◌, [], true, false};
ghost use Rattle.bit_laws.specs.Numbers.{low};
ghost use Rattle.bit_laws.specs.Signed.{extended};
ghost use Rattle.cam_chain.specs.ChainValue.{slices_of};
ghost use Rattle.element_ops.specs.Elements.{element_of};
ghost use Rattle.rvv_decode.specs.declared.instruction.VOp.TheVariants.{Opm};
ghost use Rattle.rvv_decode.specs.declared.instruction.OpmOp.TheVariants.{VmvXS};
ghost use Rattle.rvv_meaning.specs.Elementwise.{is_ones};
ghost use Rattle.rvv_meaning.specs.States.{vtype_at, executed_vector, vector_effect_at};
ghost use Rattle.rvv_meaning.specs.Vectors.{is_computed};
ghost use Rattle.rvv_meaning.specs.Whole.{makes_number};
ghost use Rattle.vec_exec.specs.Programs.{is_engine};
ghost use Rattle.machine.specs.Fields.{VectorFits};
ghost use Rattle.machine.specs.Moments.{with_registers, with_number};

use crate::parts::Machine;
use register_elements::element;
use rv32_core::Regs;
use rvv_decode::{OpmOp, VInstr, VOp};
use vec_exec::permute;

// The bits of a scalar register, and of a byte.
const SCALAR_BITS: u8 = 32;

const BYTE_BITS: u8 = 8;

// Whether an operation leaves a number in a scalar register.
pub(crate) const fn leaves_number(op: VOp) -> bool
    ensures { result ≡ makes_number op }
{
    matches!(op, VOp::Opm(OpmOp::Vcpop | OpmOp::Vfirst | OpmOp::VmvXS))
}

// The low half of a number.
const fn low_word(number: u64) -> u32
    ensures { result ≡ low 32 number }
{
    (number % (1 << SCALAR_BITS)) as u32
}

// A number of so many bits as one of 32, extended by its sign.
fn sign_extended(number: u32, bits: u8) -> u32
    requires some { 0 < bits }
    requires few { bits ≤ 32 }
    requires small { number < 2 ^ bits }
    ensures { result ≡ extended true bits 32 number }
{
    let above = (1u64 << SCALAR_BITS) - (1u64 << bits);
    if number >> (bits - 1) == 0 {
        number
    } else {
        (u64::from(number) + above) as u32
    }
}

// The number that a program leaves in the control numbers into a scalar register, where the operation makes one.
pub(crate) fn take_number(regs: &mut Regs, i: &VInstr, num: u64)
    requires { i.now.vd < 32 }
    ensures { regs.new ≡ with_number (makes_number i.now.op) i.now.vd num regs.old }
{
    if leaves_number(i.op) {
        regs.set(i.vd, low_word(num));
    }
}

impl Machine {
    // The number in the lowest element of vs2, extended by its sign.
    fn first_element(&self, i: &VInstr) -> u32
        requires fits { VectorFits self.now.core i.now }
        requires out { i.now.op ≡ Opm VmvXS }
        ensures { result
            ≡ extended true (vtype_at self.now.core).sew 32 (element_of (self.now.core.csrs.vlen / 8) self.now.core.vectors i.now.vs2 (vtype_at self.now.core).sew 0) }
    {
        let sew = self.cfg().vtype.sew;
        let size = u32::from(sew / BYTE_BITS);
        sign_extended(element(&self.chain, i.vs2, size, 0), sew)
    }

    // Its number into a scalar register.
    pub(crate) fn move_out(&mut self, i: &VInstr)
        requires fits { VectorFits self.old.core i.now }
        requires computed { is_computed i.now.op ≡ true }
        requires apart { is_engine i.now ≡ false }
        requires makes { makes_number i.now.op ≡ true }
        requires count { self.old.core.csrs.retired < 2 ^ 63 }
        ensures { self.new ≡ record self.old { core = executed_vector i.now self.old.core } }
    {
        let value = self.first_element(i);
        self.csrs.vstart = 0;
        self.regs.set(i.vd, value);
        self.retire_to(self.next_pc());
    }

    // Elements moved between vector registers.
    pub(crate) fn move_elements(&mut self, i: &VInstr)
        requires fits { VectorFits self.old.core i.now }
        requires computed { is_computed i.now.op ≡ true }
        requires apart { is_engine i.now ≡ false }
        requires registers { makes_number i.now.op ≡ false }
        requires count { self.old.core.csrs.retired < 2 ^ 63 }
        ensures core { self.new.core ≡ executed_vector i.now self.old.core }
        ensures slices { slices_of self.new.chain
            ≡ with_registers ((vector_effect_at i.now self.old.core).vectors (λ element. is_ones self.old.core.policy)) (slices_of self.old.chain) }
        ensures counts { self.new.chain.counts ≡ self.old.chain.counts }
        ensures rest { self.new ≡ record self.old { core = self.new.core; chain = self.new.chain } }
    {
        let cfg = self.cfg();
        permute(i, &cfg, &mut self.chain);
        self.csrs.vstart = 0;
        self.retire_to(self.next_pc());
    }
}
