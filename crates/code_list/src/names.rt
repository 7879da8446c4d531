// The mnemonics of the operations, and how their operands are written.
ghost use Rattle.std.specs.Prelude.{◌≡◌, ◌≤◌, length};
ghost use Rattle.code_list.specs.ScalarNames.{scalar_name, scalar_form};
ghost use Rattle.code_list.specs.VectorNames.{opi_stem, opi_form, opm_stem, opm_form};

use crate::forms::{ScalarForm, VectorForm};
use rv32_decode::Op;
use rvv_decode::{OpiOp, OpmOp};

// The mnemonic of a scalar operation, and how its operands are written.
#[tactic(auto, unfolding(crate::specs::ScalarNames::scalar_name, crate::specs::ScalarNames::scalar_form))]
pub(crate) fn scalar_row(op: Op) -> (&'static str, ScalarForm)
    ensures text { result.0.now ≡ scalar_name op }
    ensures form { result.1 ≡ scalar_form op }
    ensures short { length result.0.now ≤ 12 }
{
    match op {
        Op::Lui => ("lui", ScalarForm::Upper),
        Op::Auipc => ("auipc", ScalarForm::Upper),
        Op::Jal => ("jal", ScalarForm::Jump),
        Op::Jalr => ("jalr", ScalarForm::Immediate),
        Op::Beq => ("beq", ScalarForm::Branch),
        Op::Bne => ("bne", ScalarForm::Branch),
        Op::Blt => ("blt", ScalarForm::Branch),
        Op::Bge => ("bge", ScalarForm::Branch),
        Op::Bltu => ("bltu", ScalarForm::Branch),
        Op::Bgeu => ("bgeu", ScalarForm::Branch),
        Op::Lb => ("lb", ScalarForm::Load),
        Op::Lh => ("lh", ScalarForm::Load),
        Op::Lw => ("lw", ScalarForm::Load),
        Op::Lbu => ("lbu", ScalarForm::Load),
        Op::Lhu => ("lhu", ScalarForm::Load),
        Op::Sb => ("sb", ScalarForm::Store),
        Op::Sh => ("sh", ScalarForm::Store),
        Op::Sw => ("sw", ScalarForm::Store),
        Op::Addi => ("addi", ScalarForm::Immediate),
        Op::Slti => ("slti", ScalarForm::Immediate),
        Op::Sltiu => ("sltiu", ScalarForm::Immediate),
        Op::Xori => ("xori", ScalarForm::Immediate),
        Op::Ori => ("ori", ScalarForm::Immediate),
        Op::Andi => ("andi", ScalarForm::Immediate),
        Op::Slli => ("slli", ScalarForm::Immediate),
        Op::Srli => ("srli", ScalarForm::Immediate),
        Op::Srai => ("srai", ScalarForm::Immediate),
        Op::Add => ("add", ScalarForm::Registers),
        Op::Sub => ("sub", ScalarForm::Registers),
        Op::Sll => ("sll", ScalarForm::Registers),
        Op::Slt => ("slt", ScalarForm::Registers),
        Op::Sltu => ("sltu", ScalarForm::Registers),
        Op::Xor => ("xor", ScalarForm::Registers),
        Op::Srl => ("srl", ScalarForm::Registers),
        Op::Sra => ("sra", ScalarForm::Registers),
        Op::Or => ("or", ScalarForm::Registers),
        Op::And => ("and", ScalarForm::Registers),
        Op::Mul => ("mul", ScalarForm::Registers),
        Op::Mulh => ("mulh", ScalarForm::Registers),
        Op::Mulhsu => ("mulhsu", ScalarForm::Registers),
        Op::Mulhu => ("mulhu", ScalarForm::Registers),
        Op::Div => ("div", ScalarForm::Registers),
        Op::Divu => ("divu", ScalarForm::Registers),
        Op::Rem => ("rem", ScalarForm::Registers),
        Op::Remu => ("remu", ScalarForm::Registers),
        Op::Fence => ("fence", ScalarForm::NoOperands),
        Op::FenceI => ("fence.i", ScalarForm::NoOperands),
        Op::Ecall => ("ecall", ScalarForm::NoOperands),
        Op::Ebreak => ("ebreak", ScalarForm::NoOperands),
        Op::Csrrw => ("csrrw", ScalarForm::Csr),
        Op::Csrrs => ("csrrs", ScalarForm::Csr),
        Op::Csrrc => ("csrrc", ScalarForm::Csr),
        Op::Csrrwi => ("csrrwi", ScalarForm::CsrImmediate),
        Op::Csrrsi => ("csrrsi", ScalarForm::CsrImmediate),
        Op::Csrrci => ("csrrci", ScalarForm::CsrImmediate),
    }
}

// The same of an integer, fixed-point or permutation instruction, without the suffix of its form.
#[tactic(auto, unfolding(crate::specs::VectorNames::opi_stem, crate::specs::VectorNames::opi_form))]
pub(crate) fn opi_row(op: OpiOp) -> (&'static str, VectorForm)
    ensures text { result.0.now ≡ opi_stem op }
    ensures form { result.1 ≡ opi_form op }
    ensures short { length result.0.now ≤ 12 }
{
    match op {
        OpiOp::Vadd => ("vadd", VectorForm::SignedSource),
        OpiOp::Vsub => ("vsub", VectorForm::SignedSource),
        OpiOp::Vrsub => ("vrsub", VectorForm::SignedSource),
        OpiOp::Vminu => ("vminu", VectorForm::SignedSource),
        OpiOp::Vmin => ("vmin", VectorForm::SignedSource),
        OpiOp::Vmaxu => ("vmaxu", VectorForm::SignedSource),
        OpiOp::Vmax => ("vmax", VectorForm::SignedSource),
        OpiOp::Vand => ("vand", VectorForm::SignedSource),
        OpiOp::Vor => ("vor", VectorForm::SignedSource),
        OpiOp::Vxor => ("vxor", VectorForm::SignedSource),
        OpiOp::Vrgather => ("vrgather", VectorForm::UnsignedSource),
        OpiOp::Vrgatherei16 => ("vrgatherei16", VectorForm::UnsignedSource),
        OpiOp::Vslideup => ("vslideup", VectorForm::UnsignedSource),
        OpiOp::Vslidedown => ("vslidedown", VectorForm::UnsignedSource),
        OpiOp::Vadc => ("vadc", VectorForm::CarryIn),
        OpiOp::Vmadc => ("vmadc", VectorForm::CarryOut),
        OpiOp::Vsbc => ("vsbc", VectorForm::CarryIn),
        OpiOp::Vmsbc => ("vmsbc", VectorForm::CarryOut),
        OpiOp::Vmerge => ("vmerge", VectorForm::CarryIn),
        OpiOp::VmvV => ("vmv.v", VectorForm::Move),
        OpiOp::Vmseq => ("vmseq", VectorForm::SignedSource),
        OpiOp::Vmsne => ("vmsne", VectorForm::SignedSource),
        OpiOp::Vmsltu => ("vmsltu", VectorForm::SignedSource),
        OpiOp::Vmslt => ("vmslt", VectorForm::SignedSource),
        OpiOp::Vmsleu => ("vmsleu", VectorForm::SignedSource),
        OpiOp::Vmsle => ("vmsle", VectorForm::SignedSource),
        OpiOp::Vmsgtu => ("vmsgtu", VectorForm::SignedSource),
        OpiOp::Vmsgt => ("vmsgt", VectorForm::SignedSource),
        OpiOp::Vsaddu => ("vsaddu", VectorForm::SignedSource),
        OpiOp::Vsadd => ("vsadd", VectorForm::SignedSource),
        OpiOp::Vssubu => ("vssubu", VectorForm::SignedSource),
        OpiOp::Vssub => ("vssub", VectorForm::SignedSource),
        OpiOp::Vsll => ("vsll", VectorForm::UnsignedSource),
        OpiOp::Vsmul => ("vsmul", VectorForm::SignedSource),
        OpiOp::VmvWhole => ("vmv", VectorForm::WholeMove),
        OpiOp::Vsrl => ("vsrl", VectorForm::UnsignedSource),
        OpiOp::Vsra => ("vsra", VectorForm::UnsignedSource),
        OpiOp::Vssrl => ("vssrl", VectorForm::UnsignedSource),
        OpiOp::Vssra => ("vssra", VectorForm::UnsignedSource),
        OpiOp::Vnsrl => ("vnsrl", VectorForm::WideSource),
        OpiOp::Vnsra => ("vnsra", VectorForm::WideSource),
        OpiOp::Vnclipu => ("vnclipu", VectorForm::WideSource),
        OpiOp::Vnclip => ("vnclip", VectorForm::WideSource),
        OpiOp::Vwredsumu => ("vwredsumu.vs", VectorForm::ThreeVectors),
        OpiOp::Vwredsum => ("vwredsum.vs", VectorForm::ThreeVectors),
    }
}

// The same of the other vector instructions.
#[tactic(auto, unfolding(crate::specs::VectorNames::opm_stem, crate::specs::VectorNames::opm_form))]
pub(crate) fn opm_row(op: OpmOp) -> (&'static str, VectorForm)
    ensures text { result.0.now ≡ opm_stem op }
    ensures form { result.1 ≡ opm_form op }
    ensures short { length result.0.now ≤ 12 }
{
    match op {
        OpmOp::Vredsum => ("vredsum.vs", VectorForm::ThreeVectors),
        OpmOp::Vredand => ("vredand.vs", VectorForm::ThreeVectors),
        OpmOp::Vredor => ("vredor.vs", VectorForm::ThreeVectors),
        OpmOp::Vredxor => ("vredxor.vs", VectorForm::ThreeVectors),
        OpmOp::Vredminu => ("vredminu.vs", VectorForm::ThreeVectors),
        OpmOp::Vredmin => ("vredmin.vs", VectorForm::ThreeVectors),
        OpmOp::Vredmaxu => ("vredmaxu.vs", VectorForm::ThreeVectors),
        OpmOp::Vredmax => ("vredmax.vs", VectorForm::ThreeVectors),
        OpmOp::Vaaddu => ("vaaddu", VectorForm::SignedSource),
        OpmOp::Vaadd => ("vaadd", VectorForm::SignedSource),
        OpmOp::Vasubu => ("vasubu", VectorForm::SignedSource),
        OpmOp::Vasub => ("vasub", VectorForm::SignedSource),
        OpmOp::Vslide1up => ("vslide1up", VectorForm::SignedSource),
        OpmOp::Vslide1down => ("vslide1down", VectorForm::SignedSource),
        OpmOp::VmvXS => ("vmv.x.s", VectorForm::ToScalar),
        OpmOp::Vcpop => ("vcpop.m", VectorForm::ToScalar),
        OpmOp::Vfirst => ("vfirst.m", VectorForm::ToScalar),
        OpmOp::VmvSX => ("vmv.s.x", VectorForm::FromScalar),
        OpmOp::VzextVf4 => ("vzext.vf4", VectorForm::TwoVectors),
        OpmOp::VsextVf4 => ("vsext.vf4", VectorForm::TwoVectors),
        OpmOp::VzextVf2 => ("vzext.vf2", VectorForm::TwoVectors),
        OpmOp::VsextVf2 => ("vsext.vf2", VectorForm::TwoVectors),
        OpmOp::Vmsbf => ("vmsbf.m", VectorForm::TwoVectors),
        OpmOp::Vmsof => ("vmsof.m", VectorForm::TwoVectors),
        OpmOp::Vmsif => ("vmsif.m", VectorForm::TwoVectors),
        OpmOp::Viota => ("viota.m", VectorForm::TwoVectors),
        OpmOp::Vid => ("vid.v", VectorForm::Destination),
        OpmOp::Vcompress => ("vcompress.vm", VectorForm::ThreeVectors),
        OpmOp::Vmandn => ("vmandn.mm", VectorForm::ThreeVectors),
        OpmOp::Vmand => ("vmand.mm", VectorForm::ThreeVectors),
        OpmOp::Vmor => ("vmor.mm", VectorForm::ThreeVectors),
        OpmOp::Vmxor => ("vmxor.mm", VectorForm::ThreeVectors),
        OpmOp::Vmorn => ("vmorn.mm", VectorForm::ThreeVectors),
        OpmOp::Vmnand => ("vmnand.mm", VectorForm::ThreeVectors),
        OpmOp::Vmnor => ("vmnor.mm", VectorForm::ThreeVectors),
        OpmOp::Vmxnor => ("vmxnor.mm", VectorForm::ThreeVectors),
        OpmOp::Vdivu => ("vdivu", VectorForm::SignedSource),
        OpmOp::Vdiv => ("vdiv", VectorForm::SignedSource),
        OpmOp::Vremu => ("vremu", VectorForm::SignedSource),
        OpmOp::Vrem => ("vrem", VectorForm::SignedSource),
        OpmOp::Vmulhu => ("vmulhu", VectorForm::SignedSource),
        OpmOp::Vmul => ("vmul", VectorForm::SignedSource),
        OpmOp::Vmulhsu => ("vmulhsu", VectorForm::SignedSource),
        OpmOp::Vmulh => ("vmulh", VectorForm::SignedSource),
        OpmOp::Vmadd => ("vmadd", VectorForm::MultiplyAdd),
        OpmOp::Vnmsub => ("vnmsub", VectorForm::MultiplyAdd),
        OpmOp::Vmacc => ("vmacc", VectorForm::MultiplyAdd),
        OpmOp::Vnmsac => ("vnmsac", VectorForm::MultiplyAdd),
        OpmOp::Vwaddu => ("vwaddu", VectorForm::SignedSource),
        OpmOp::Vwadd => ("vwadd", VectorForm::SignedSource),
        OpmOp::Vwsubu => ("vwsubu", VectorForm::SignedSource),
        OpmOp::Vwsub => ("vwsub", VectorForm::SignedSource),
        OpmOp::VwadduW => ("vwaddu", VectorForm::WideSource),
        OpmOp::VwaddW => ("vwadd", VectorForm::WideSource),
        OpmOp::VwsubuW => ("vwsubu", VectorForm::WideSource),
        OpmOp::VwsubW => ("vwsub", VectorForm::WideSource),
        OpmOp::Vwmulu => ("vwmulu", VectorForm::SignedSource),
        OpmOp::Vwmulsu => ("vwmulsu", VectorForm::SignedSource),
        OpmOp::Vwmul => ("vwmul", VectorForm::SignedSource),
        OpmOp::Vwmaccu => ("vwmaccu", VectorForm::MultiplyAdd),
        OpmOp::Vwmacc => ("vwmacc", VectorForm::MultiplyAdd),
        OpmOp::Vwmaccus => ("vwmaccus", VectorForm::MultiplyAdd),
        OpmOp::Vwmaccsu => ("vwmaccsu", VectorForm::MultiplyAdd),
    }
}
