//! Words of the multiply, divide, reduction, mask and widening instructions: OPMVV and OPMVX.
ghost use Rattle.std.specs.Prelude.{◌≡◌};
ghost use Rattle.std.specs.Option.{option_map};
ghost use Rattle.rvv_decode.specs.Layouts.{opm_kind};
ghost use Rattle.rvv_decode.specs.FieldTests.{vwxunary0_found, vxunary0_found, vmunary0_found, opm_low_found, opm_high_found, opm_found};

use crate::fields::{bits_at, funct6, vm, vs1, vs2};
use crate::instruction::{Form, OpmOp};

// The values of funct6 that stand for a group of instructions, which another field tells apart.
const VWXUNARY0: u32 = 0b010000;

const VRXUNARY0: u32 = 0b010000;

const VXUNARY0: u32 = 0b010010;

const VMUNARY0: u32 = 0b010100;

/// The name of the instruction of a word whose funct3 gives it this form, vector or scalar.
#[tactic(auto, unfolding(crate::specs::FieldTests::opm_found))]
pub(crate) fn name(form: Form, word: u32) -> Option<OpmOp>
    ensures vector { form ≡ Form.V → option_map (opm_kind Form.V) result ≡ opm_found Form.V word }
    ensures scalar { form ≡ Form.X → option_map (opm_kind Form.X) result ≡ opm_found Form.X word }
{
    if bits_at(word, 31, 1) == 0 {
        name_below_32(form, word)
    } else {
        name_from_32(form, word)
    }
}

// The same, where funct6 is below 0b100000.
#[tactic(auto, unfolding(crate::specs::FieldTests::opm_low_found, crate::specs::OpmRows::opm_rows))]
fn name_below_32(form: Form, word: u32) -> Option<OpmOp>
    ensures vector { form ≡ Form.V → option_map (opm_kind Form.V) result ≡ opm_low_found Form.V word }
    ensures scalar { form ≡ Form.X → option_map (opm_kind Form.X) result ≡ opm_low_found Form.X word }
{
    let vector = form == Form::V;
    let unmasked = vm(word);
    let op = match funct6(word) {
        0b000000 if vector => OpmOp::Vredsum,
        0b000001 if vector => OpmOp::Vredand,
        0b000010 if vector => OpmOp::Vredor,
        0b000011 if vector => OpmOp::Vredxor,
        0b000100 if vector => OpmOp::Vredminu,
        0b000101 if vector => OpmOp::Vredmin,
        0b000110 if vector => OpmOp::Vredmaxu,
        0b000111 if vector => OpmOp::Vredmax,
        0b001000 => OpmOp::Vaaddu,
        0b001001 => OpmOp::Vaadd,
        0b001010 => OpmOp::Vasubu,
        0b001011 => OpmOp::Vasub,
        0b001110 if !vector => OpmOp::Vslide1up,
        0b001111 if !vector => OpmOp::Vslide1down,
        VWXUNARY0 if vector => return name_in_vwxunary0(word),
        VRXUNARY0 if unmasked && vs2(word) == 0 => OpmOp::VmvSX,
        VXUNARY0 if vector => return name_in_vxunary0(word),
        VMUNARY0 if vector => return name_in_vmunary0(word),
        0b010111 if vector && unmasked => OpmOp::Vcompress,
        0b011000 if vector && unmasked => OpmOp::Vmandn,
        0b011001 if vector && unmasked => OpmOp::Vmand,
        0b011010 if vector && unmasked => OpmOp::Vmor,
        0b011011 if vector && unmasked => OpmOp::Vmxor,
        0b011100 if vector && unmasked => OpmOp::Vmorn,
        0b011101 if vector && unmasked => OpmOp::Vmnand,
        0b011110 if vector && unmasked => OpmOp::Vmnor,
        0b011111 if vector && unmasked => OpmOp::Vmxnor,
        _ => return None,
    };
    Some(op)
}

// Moves to a scalar register and counts of mask bits.
#[tactic(auto, unfolding(crate::specs::FieldTests::vwxunary0_found, crate::specs::OpmRows::opm_rows))]
fn name_in_vwxunary0(word: u32) -> Option<OpmOp>
    ensures { option_map (opm_kind Form.V) result ≡ vwxunary0_found word }
{
    match vs1(word) {
        0b00000 if vm(word) => Some(OpmOp::VmvXS),
        0b10000 => Some(OpmOp::Vcpop),
        0b10001 => Some(OpmOp::Vfirst),
        _ => None,
    }
}

// Extensions of elements.
#[tactic(auto, unfolding(crate::specs::FieldTests::vxunary0_found, crate::specs::OpmRows::opm_rows))]
fn name_in_vxunary0(word: u32) -> Option<OpmOp>
    ensures { option_map (opm_kind Form.V) result ≡ vxunary0_found word }
{
    match vs1(word) {
        0b00100 => Some(OpmOp::VzextVf4),
        0b00101 => Some(OpmOp::VsextVf4),
        0b00110 => Some(OpmOp::VzextVf2),
        0b00111 => Some(OpmOp::VsextVf2),
        _ => None,
    }
}

// Masks made from one mask, and indices.
#[tactic(auto, unfolding(crate::specs::FieldTests::vmunary0_found, crate::specs::OpmRows::opm_rows))]
fn name_in_vmunary0(word: u32) -> Option<OpmOp>
    ensures { option_map (opm_kind Form.V) result ≡ vmunary0_found word }
{
    match vs1(word) {
        0b00001 => Some(OpmOp::Vmsbf),
        0b00010 => Some(OpmOp::Vmsof),
        0b00011 => Some(OpmOp::Vmsif),
        0b10000 => Some(OpmOp::Viota),
        0b10001 if vs2(word) == 0 => Some(OpmOp::Vid),
        _ => None,
    }
}

// The name where funct6 is 0b100000 or above.
#[tactic(auto, unfolding(crate::specs::FieldTests::opm_high_found, crate::specs::OpmRows::opm_rows))]
fn name_from_32(form: Form, word: u32) -> Option<OpmOp>
    ensures vector { form ≡ Form.V → option_map (opm_kind Form.V) result ≡ opm_high_found Form.V word }
    ensures scalar { form ≡ Form.X → option_map (opm_kind Form.X) result ≡ opm_high_found Form.X word }
{
    let scalar = form == Form::X;
    let op = match funct6(word) {
        0b100000 => OpmOp::Vdivu,
        0b100001 => OpmOp::Vdiv,
        0b100010 => OpmOp::Vremu,
        0b100011 => OpmOp::Vrem,
        0b100100 => OpmOp::Vmulhu,
        0b100101 => OpmOp::Vmul,
        0b100110 => OpmOp::Vmulhsu,
        0b100111 => OpmOp::Vmulh,
        0b101001 => OpmOp::Vmadd,
        0b101011 => OpmOp::Vnmsub,
        0b101101 => OpmOp::Vmacc,
        0b101111 => OpmOp::Vnmsac,
        0b110000 => OpmOp::Vwaddu,
        0b110001 => OpmOp::Vwadd,
        0b110010 => OpmOp::Vwsubu,
        0b110011 => OpmOp::Vwsub,
        0b110100 => OpmOp::VwadduW,
        0b110101 => OpmOp::VwaddW,
        0b110110 => OpmOp::VwsubuW,
        0b110111 => OpmOp::VwsubW,
        0b111000 => OpmOp::Vwmulu,
        0b111010 => OpmOp::Vwmulsu,
        0b111011 => OpmOp::Vwmul,
        0b111100 => OpmOp::Vwmaccu,
        0b111101 => OpmOp::Vwmacc,
        0b111110 if scalar => OpmOp::Vwmaccus,
        0b111111 => OpmOp::Vwmaccsu,
        _ => return None,
    };
    Some(op)
}
