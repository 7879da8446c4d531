//! The word of an instruction, from its fields.
ghost use Rattle.std.specs.Prelude.{◌≡◌, ◌+◌, ◌-◌, ◌*◌, ◌^◌, ◌<◌};
ghost use Rattle.rvv_decode.specs.OpiRows.{opi_funct3};
ghost use Rattle.rvv_decode.specs.OpmRows.{opm_funct3};
ghost use Rattle.rvv_decode.specs.Layouts.{arithmetic, memory};
ghost use Rattle.rvv_decode.specs.Ranges.{IsInRange};
ghost use Rattle.rvv_decode.specs.Spelling.{opi_funct6, opm_funct6, memory_opcode, addressing_mode, arithmetic_fixed, memory_fixed, config_fixed, config_layout, placed, FitsLayout};

use crate::fields::{
    FUNCT3_AT, FUNCT6_AT, INDEXED_ORDERED, INDEXED_UNORDERED, LOAD_FP, MODE_AT, NF_AT, OP_V, OPCFG,
    OPIVI, OPIVV, OPIVX, OPMVV, OPMVX, STORE_FP, STRIDED, UNIT_STRIDE, VD_AT, VM_AT, VS1_AT,
    VS2_AT, VSETIVLI, VSETIVLI_AT, VSETVL, VSETVL_AT, WIDTH_8, WIDTH_16, WIDTH_32, ZIMM_AT,
};
use crate::instruction::{ConfigOp, Form, MemoryOp, OpiOp, OpmOp, VInstr};

/// The word of an integer, fixed-point or permutation instruction of this name.
pub(crate) fn opi_word(op: OpiOp, i: &VInstr) -> u32
    requires { IsInRange i.now }
    ensures { result ≡ arithmetic_fixed (opi_funct3 i.now.form) (opi_funct6 op) + placed (arithmetic i.now.form) i.now }
{
    let funct3 = match i.form {
        Form::V => OPIVV,
        Form::X => OPIVX,
        Form::I => OPIVI,
    };
    arithmetic_word(funct3, opi_funct6(op), i)
}

/// The word of a multiply, divide, reduction, mask or widening instruction of this name.
pub(crate) fn opm_word(op: OpmOp, i: &VInstr) -> u32
    requires { IsInRange i.now }
    ensures { result ≡ arithmetic_fixed (opm_funct3 i.now.form) (opm_funct6 op) + placed (arithmetic i.now.form) i.now }
{
    let funct3 = match i.form {
        Form::X => OPMVX,
        _ => OPMVV,
    };
    arithmetic_word(funct3, opm_funct6(op), i)
}

/// The word of a load or store of this name.
pub(crate) fn memory_word(op: MemoryOp, i: &VInstr) -> u32
    requires fields { IsInRange i.now }
    requires layout { FitsLayout (memory i.now.eew) i.now }
    ensures { result ≡ memory_fixed op i.now.eew + placed (memory i.now.eew) i.now }
{
    let width = match i.eew {
        8 => WIDTH_8,
        16 => WIDTH_16,
        _ => WIDTH_32,
    };
    let word = masked_word(memory_opcode(op), width, i);
    let word = with_field(word, MODE_AT, addressing_mode(op));
    with_field(word, NF_AT, u32::from(i.nf) - 1)
}

/// The word of a configuration instruction of this name.
pub(crate) fn config_word(op: ConfigOp, i: &VInstr) -> u32
    requires fields { IsInRange i.now }
    requires layout { FitsLayout (config_layout op) i.now }
    ensures { result ≡ config_fixed op + placed (config_layout op) i.now }
{
    let word = base_word(OP_V, OPCFG, i);
    match op {
        ConfigOp::Vsetvli => with_field(word, ZIMM_AT, u32::from(i.zimm)),
        ConfigOp::Vsetivli => with_field(
            with_field(word, ZIMM_AT, u32::from(i.zimm)),
            VSETIVLI_AT,
            VSETIVLI,
        ),
        ConfigOp::Vsetvl => with_field(
            with_field(word, VS2_AT, u32::from(i.vs2)),
            VSETVL_AT,
            VSETVL,
        ),
    }
}

fn arithmetic_word(funct3: u32, funct6: u32, i: &VInstr) -> u32
    requires funct3 { funct3 < 2 ^ 3 }
    requires funct6 { funct6 < 2 ^ 6 }
    requires fields { IsInRange i.now }
    ensures { result ≡ arithmetic_fixed funct3 funct6 + placed (arithmetic i.now.form) i.now }
{
    with_field(masked_word(OP_V, funct3, i), FUNCT6_AT, funct6)
}

// The lower 26 bits of a word that may be masked.
fn masked_word(opcode: u32, funct3: u32, i: &VInstr) -> u32
    requires opcode { opcode < 2 ^ 7 }
    requires funct3 { funct3 < 2 ^ 3 }
    requires fields { IsInRange i.now }
    ensures { result ≡ opcode + funct3 * 2 ^ 12 + placed (arithmetic i.now.form) i.now }
{
    let word = base_word(opcode, funct3, i);
    let word = with_field(word, VS2_AT, u32::from(i.vs2));
    with_field(word, VM_AT, u32::from(i.vm))
}

// The lower 20 bits of a word.
fn base_word(opcode: u32, funct3: u32, i: &VInstr) -> u32
    requires opcode { opcode < 2 ^ 7 }
    requires funct3 { funct3 < 2 ^ 3 }
    requires fields { IsInRange i.now }
    ensures { result ≡ opcode + i.now.vd * 2 ^ 7 + funct3 * 2 ^ 12 + i.now.vs1 * 2 ^ 15 }
{
    let word = with_field(opcode, VD_AT, u32::from(i.vd));
    let word = with_field(word, FUNCT3_AT, funct3);
    with_field(word, VS1_AT, u32::from(i.vs1))
}

// A word with a field put above the bits that it has.
fn with_field(word: u32, low: u32, field: u32) -> u32
    requires low { low < 32 }
    requires above { word < 2 ^ low }
    requires fits { field * 2 ^ low < 2 ^ 32 }
    ensures { result ≡ word + field * 2 ^ low }
{
    word | field << low
}

fn memory_opcode(op: MemoryOp) -> u32
    ensures code { result ≡ memory_opcode op }
    ensures small { result < 2 ^ 7 }
{
    match op {
        MemoryOp::LoadUnitStride
        | MemoryOp::LoadWholeRegister
        | MemoryOp::LoadMask
        | MemoryOp::LoadFaultOnlyFirst
        | MemoryOp::LoadIndexedUnordered
        | MemoryOp::LoadStrided
        | MemoryOp::LoadIndexedOrdered => LOAD_FP,
        MemoryOp::StoreUnitStride
        | MemoryOp::StoreWholeRegister
        | MemoryOp::StoreMask
        | MemoryOp::StoreIndexedUnordered
        | MemoryOp::StoreStrided
        | MemoryOp::StoreIndexedOrdered => STORE_FP,
    }
}

fn addressing_mode(op: MemoryOp) -> u32
    ensures code { result ≡ addressing_mode op }
    ensures small { result < 2 ^ 2 }
{
    match op {
        MemoryOp::LoadUnitStride
        | MemoryOp::LoadWholeRegister
        | MemoryOp::LoadMask
        | MemoryOp::LoadFaultOnlyFirst
        | MemoryOp::StoreUnitStride
        | MemoryOp::StoreWholeRegister
        | MemoryOp::StoreMask => UNIT_STRIDE,
        MemoryOp::LoadIndexedUnordered | MemoryOp::StoreIndexedUnordered => INDEXED_UNORDERED,
        MemoryOp::LoadStrided | MemoryOp::StoreStrided => STRIDED,
        MemoryOp::LoadIndexedOrdered | MemoryOp::StoreIndexedOrdered => INDEXED_ORDERED,
    }
}

fn opi_funct6(op: OpiOp) -> u32
    ensures code { result ≡ opi_funct6 op }
    ensures small { result < 2 ^ 6 }
{
    match op {
        OpiOp::Vadd => 0b000000,
        OpiOp::Vsub => 0b000010,
        OpiOp::Vrsub => 0b000011,
        OpiOp::Vminu => 0b000100,
        OpiOp::Vmin => 0b000101,
        OpiOp::Vmaxu => 0b000110,
        OpiOp::Vmax => 0b000111,
        OpiOp::Vand => 0b001001,
        OpiOp::Vor => 0b001010,
        OpiOp::Vxor => 0b001011,
        OpiOp::Vrgather => 0b001100,
        OpiOp::Vrgatherei16 => 0b001110,
        OpiOp::Vslideup => 0b001110,
        OpiOp::Vslidedown => 0b001111,
        OpiOp::Vadc => 0b010000,
        OpiOp::Vmadc => 0b010001,
        OpiOp::Vsbc => 0b010010,
        OpiOp::Vmsbc => 0b010011,
        OpiOp::Vmerge => 0b010111,
        OpiOp::VmvV => 0b010111,
        OpiOp::Vmseq => 0b011000,
        OpiOp::Vmsne => 0b011001,
        OpiOp::Vmsltu => 0b011010,
        OpiOp::Vmslt => 0b011011,
        OpiOp::Vmsleu => 0b011100,
        OpiOp::Vmsle => 0b011101,
        OpiOp::Vmsgtu => 0b011110,
        OpiOp::Vmsgt => 0b011111,
        OpiOp::Vsaddu => 0b100000,
        OpiOp::Vsadd => 0b100001,
        OpiOp::Vssubu => 0b100010,
        OpiOp::Vssub => 0b100011,
        OpiOp::Vsll => 0b100101,
        OpiOp::Vsmul => 0b100111,
        OpiOp::VmvWhole => 0b100111,
        OpiOp::Vsrl => 0b101000,
        OpiOp::Vsra => 0b101001,
        OpiOp::Vssrl => 0b101010,
        OpiOp::Vssra => 0b101011,
        OpiOp::Vnsrl => 0b101100,
        OpiOp::Vnsra => 0b101101,
        OpiOp::Vnclipu => 0b101110,
        OpiOp::Vnclip => 0b101111,
        OpiOp::Vwredsumu => 0b110000,
        OpiOp::Vwredsum => 0b110001,
    }
}

fn opm_funct6(op: OpmOp) -> u32
    ensures code { result ≡ opm_funct6 op }
    ensures small { result < 2 ^ 6 }
{
    match op {
        OpmOp::Vredsum => 0b000000,
        OpmOp::Vredand => 0b000001,
        OpmOp::Vredor => 0b000010,
        OpmOp::Vredxor => 0b000011,
        OpmOp::Vredminu => 0b000100,
        OpmOp::Vredmin => 0b000101,
        OpmOp::Vredmaxu => 0b000110,
        OpmOp::Vredmax => 0b000111,
        OpmOp::Vaaddu => 0b001000,
        OpmOp::Vaadd => 0b001001,
        OpmOp::Vasubu => 0b001010,
        OpmOp::Vasub => 0b001011,
        OpmOp::Vslide1up => 0b001110,
        OpmOp::Vslide1down => 0b001111,
        OpmOp::VmvXS => 0b010000,
        OpmOp::Vcpop => 0b010000,
        OpmOp::Vfirst => 0b010000,
        OpmOp::VmvSX => 0b010000,
        OpmOp::VzextVf4 => 0b010010,
        OpmOp::VsextVf4 => 0b010010,
        OpmOp::VzextVf2 => 0b010010,
        OpmOp::VsextVf2 => 0b010010,
        OpmOp::Vmsbf => 0b010100,
        OpmOp::Vmsof => 0b010100,
        OpmOp::Vmsif => 0b010100,
        OpmOp::Viota => 0b010100,
        OpmOp::Vid => 0b010100,
        OpmOp::Vcompress => 0b010111,
        OpmOp::Vmandn => 0b011000,
        OpmOp::Vmand => 0b011001,
        OpmOp::Vmor => 0b011010,
        OpmOp::Vmxor => 0b011011,
        OpmOp::Vmorn => 0b011100,
        OpmOp::Vmnand => 0b011101,
        OpmOp::Vmnor => 0b011110,
        OpmOp::Vmxnor => 0b011111,
        OpmOp::Vdivu => 0b100000,
        OpmOp::Vdiv => 0b100001,
        OpmOp::Vremu => 0b100010,
        OpmOp::Vrem => 0b100011,
        OpmOp::Vmulhu => 0b100100,
        OpmOp::Vmul => 0b100101,
        OpmOp::Vmulhsu => 0b100110,
        OpmOp::Vmulh => 0b100111,
        OpmOp::Vmadd => 0b101001,
        OpmOp::Vnmsub => 0b101011,
        OpmOp::Vmacc => 0b101101,
        OpmOp::Vnmsac => 0b101111,
        OpmOp::Vwaddu => 0b110000,
        OpmOp::Vwadd => 0b110001,
        OpmOp::Vwsubu => 0b110010,
        OpmOp::Vwsub => 0b110011,
        OpmOp::VwadduW => 0b110100,
        OpmOp::VwaddW => 0b110101,
        OpmOp::VwsubuW => 0b110110,
        OpmOp::VwsubW => 0b110111,
        OpmOp::Vwmulu => 0b111000,
        OpmOp::Vwmulsu => 0b111010,
        OpmOp::Vwmul => 0b111011,
        OpmOp::Vwmaccu => 0b111100,
        OpmOp::Vwmacc => 0b111101,
        OpmOp::Vwmaccus => 0b111110,
        OpmOp::Vwmaccsu => 0b111111,
    }
}
