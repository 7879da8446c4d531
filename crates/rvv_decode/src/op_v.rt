//! Words of arithmetic and configuration (version 1.0 of the vector extension, sections 6 and 10.1).
ghost use Rattle.std.specs.Prelude.{◌≡◌};
ghost use Rattle.rvv_decode.specs.Layouts.{instruction, instruction_of, arithmetic, setting};
ghost use Rattle.rvv_decode.specs.FieldTests.{opi_found, opm_found, config_found, op_v_found};

use crate::fields::{
    OPCFG, OPIVI, OPIVV, OPIVX, OPMVV, OPMVX, VSETIVLI, VSETIVLI_AT, VSETVL, VSETVL_AT, VSETVLI_AT,
    ZIMM_AT, bits_at, funct3, vd, vm, vs1, vs2,
};
use crate::instruction::{ConfigOp, Form, VInstr, VOp};
use crate::{opi, opm};

/// The instruction that a word of the opcode OP_V means.
#[tactic(auto, unfolding(crate::specs::FieldTests::op_v_found))]
pub(crate) fn decode(word: u32) -> Option<VInstr>
    ensures { result ≡ instruction_of (op_v_found word) word }
{
    match funct3(word) {
        OPIVV => opi_instruction(Form::V, word),
        OPIVX => opi_instruction(Form::X, word),
        OPIVI => opi_instruction(Form::I, word),
        OPMVV => opm_instruction(Form::V, word),
        OPMVX => opm_instruction(Form::X, word),
        OPCFG => configuration(word),
        _ => None,
    }
}

fn opi_instruction(form: Form, word: u32) -> Option<VInstr>
    ensures vector { form ≡ Form.V → result ≡ instruction_of (opi_found Form.V word) word }
    ensures scalar { form ≡ Form.X → result ≡ instruction_of (opi_found Form.X word) word }
    ensures immediate { form ≡ Form.I → result ≡ instruction_of (opi_found Form.I word) word }
{
    let op = opi::name(form, word)?;
    Some(arithmetic(VOp::Opi(op), form, word))
}

fn opm_instruction(form: Form, word: u32) -> Option<VInstr>
    ensures vector { form ≡ Form.V → result ≡ instruction_of (opm_found Form.V word) word }
    ensures scalar { form ≡ Form.X → result ≡ instruction_of (opm_found Form.X word) word }
{
    let op = opm::name(form, word)?;
    Some(arithmetic(VOp::Opm(op), form, word))
}

fn arithmetic(op: VOp, form: Form, word: u32) -> VInstr
    ensures { result ≡ instruction (arithmetic form) op word }
{
    VInstr {
        op,
        form,
        vd: vd(word),
        vs1: vs1(word),
        vs2: vs2(word),
        vm: vm(word),
        nf: 0,
        eew: 0,
        zimm: 0,
    }
}

#[tactic(auto, unfolding(crate::specs::FieldTests::config_found, crate::specs::ConfigRows::config_rows))]
fn configuration(word: u32) -> Option<VInstr>
    ensures { result ≡ instruction_of (config_found word) word }
{
    if bits_at(word, VSETVLI_AT, 1) == 0 {
        let zimm = bits_at(word, ZIMM_AT, 11) as u16;
        return Some(setting(ConfigOp::Vsetvli, 0, zimm, word));
    }
    if bits_at(word, VSETIVLI_AT, 2) == VSETIVLI {
        let zimm = bits_at(word, ZIMM_AT, 10) as u16;
        return Some(setting(ConfigOp::Vsetivli, 0, zimm, word));
    }
    if bits_at(word, VSETVL_AT, 7) == VSETVL {
        return Some(setting(ConfigOp::Vsetvl, vs2(word), 0, word));
    }
    None
}

fn setting(op: ConfigOp, vs2: u8, zimm: u16, word: u32) -> VInstr
    ensures { result ≡ setting (VOp.Config op) vs2 zimm word }
{
    VInstr {
        op: VOp::Config(op),
        form: Form::V,
        vd: vd(word),
        vs1: vs1(word),
        vs2,
        vm: false,
        nf: 0,
        eew: 0,
        zimm,
    }
}
