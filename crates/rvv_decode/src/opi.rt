//! Words of the integer, fixed-point and permutation instructions: OPIVV, OPIVX and OPIVI.
ghost use Rattle.std.specs.Prelude.{◌≡◌};
ghost use Rattle.std.specs.Option.{option_map};
ghost use Rattle.rvv_decode.specs.Layouts.{opi_kind};
ghost use Rattle.rvv_decode.specs.FieldTests.{opi_low_found, opi_high_found, opi_found};

use crate::fields::{bits_at, funct6, is_register_count, vm, vs1, vs2};
use crate::instruction::{Form, OpiOp};

/// The name of the instruction of a word whose funct3 gives it this form.
#[tactic(auto, unfolding(crate::specs::FieldTests::opi_found))]
pub(crate) fn name(form: Form, word: u32) -> Option<OpiOp>
    ensures vector { form ≡ Form.V → option_map (opi_kind Form.V) result ≡ opi_found Form.V word }
    ensures scalar { form ≡ Form.X → option_map (opi_kind Form.X) result ≡ opi_found Form.X word }
    ensures immediate { form ≡ Form.I → option_map (opi_kind Form.I) result ≡ opi_found Form.I word }
{
    if bits_at(word, 31, 1) == 0 {
        name_below_32(form, word)
    } else {
        name_from_32(form, word)
    }
}

// The same, where funct6 is below 0b100000.
#[tactic(auto, unfolding(crate::specs::FieldTests::opi_low_found, crate::specs::OpiRows::opi_rows))]
fn name_below_32(form: Form, word: u32) -> Option<OpiOp>
    ensures vector { form ≡ Form.V → option_map (opi_kind Form.V) result ≡ opi_low_found Form.V word }
    ensures scalar { form ≡ Form.X → option_map (opi_kind Form.X) result ≡ opi_low_found Form.X word }
    ensures immediate { form ≡ Form.I → option_map (opi_kind Form.I) result ≡ opi_low_found Form.I word }
{
    let vector = form == Form::V;
    let immediate = form == Form::I;
    let masked = !vm(word);
    let op = match funct6(word) {
        0b000000 => OpiOp::Vadd,
        0b000010 if !immediate => OpiOp::Vsub,
        0b000011 if !vector => OpiOp::Vrsub,
        0b000100 if !immediate => OpiOp::Vminu,
        0b000101 if !immediate => OpiOp::Vmin,
        0b000110 if !immediate => OpiOp::Vmaxu,
        0b000111 if !immediate => OpiOp::Vmax,
        0b001001 => OpiOp::Vand,
        0b001010 => OpiOp::Vor,
        0b001011 => OpiOp::Vxor,
        0b001100 => OpiOp::Vrgather,
        0b001110 if vector => OpiOp::Vrgatherei16,
        0b001110 => OpiOp::Vslideup,
        0b001111 if !vector => OpiOp::Vslidedown,
        0b010000 if masked => OpiOp::Vadc,
        0b010001 => OpiOp::Vmadc,
        0b010010 if masked && !immediate => OpiOp::Vsbc,
        0b010011 if !immediate => OpiOp::Vmsbc,
        0b010111 if masked => OpiOp::Vmerge,
        0b010111 if vs2(word) == 0 => OpiOp::VmvV,
        0b011000 => OpiOp::Vmseq,
        0b011001 => OpiOp::Vmsne,
        0b011010 if !immediate => OpiOp::Vmsltu,
        0b011011 if !immediate => OpiOp::Vmslt,
        0b011100 => OpiOp::Vmsleu,
        0b011101 => OpiOp::Vmsle,
        0b011110 if !vector => OpiOp::Vmsgtu,
        0b011111 if !vector => OpiOp::Vmsgt,
        _ => return None,
    };
    Some(op)
}

// The same, where funct6 is 0b100000 or above.
#[tactic(auto, unfolding(crate::specs::FieldTests::opi_high_found, crate::specs::OpiRows::opi_rows))]
fn name_from_32(form: Form, word: u32) -> Option<OpiOp>
    ensures vector { form ≡ Form.V → option_map (opi_kind Form.V) result ≡ opi_high_found Form.V word }
    ensures scalar { form ≡ Form.X → option_map (opi_kind Form.X) result ≡ opi_high_found Form.X word }
    ensures immediate { form ≡ Form.I → option_map (opi_kind Form.I) result ≡ opi_high_found Form.I word }
{
    let vector = form == Form::V;
    let immediate = form == Form::I;
    let op = match funct6(word) {
        0b100000 => OpiOp::Vsaddu,
        0b100001 => OpiOp::Vsadd,
        0b100010 if !immediate => OpiOp::Vssubu,
        0b100011 if !immediate => OpiOp::Vssub,
        0b100101 => OpiOp::Vsll,
        0b100111 if !immediate => OpiOp::Vsmul,
        0b100111 if vm(word) && is_register_count(vs1(word)) => OpiOp::VmvWhole,
        0b101000 => OpiOp::Vsrl,
        0b101001 => OpiOp::Vsra,
        0b101010 => OpiOp::Vssrl,
        0b101011 => OpiOp::Vssra,
        0b101100 => OpiOp::Vnsrl,
        0b101101 => OpiOp::Vnsra,
        0b101110 => OpiOp::Vnclipu,
        0b101111 => OpiOp::Vnclip,
        0b110000 if vector => OpiOp::Vwredsumu,
        0b110001 if vector => OpiOp::Vwredsum,
        _ => return None,
    };
    Some(op)
}
