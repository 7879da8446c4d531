// The listing of vector instructions.
ghost use Rattle.std.specs.Prelude.{◌≡◌, ◌≤◌, ◌+◌, ◌<◌, ◌^◌, ◌++◌, [], ◌∷◌, All, length, decimal};
ghost use Rattle.arrayvec.specs.ArrayString.{array_string_len};
ghost use Rattle.arrayvec.specs.ArrayVec.{array_vec_len};
ghost use Rattle.rvv_decode.specs.Ranges.{IsInRange};
ghost use Rattle.code_list.specs.Operands.{IsWritable};
ghost use Rattle.code_list.specs.Spelling.{vector_spelling, vector_operands, vector_operands_of, vector_name, memory_name, config_name, config_operands, source_operand, signed_immediate, mask_operands, suffix, form_letter, elements_name, offset_operands, text_of};

use crate::forms::VectorForm;
use crate::names::{opi_row, opm_row};
use crate::operand::{Operand, Operands, push_operands};
use itoa::Buffer;
use line_text::LineBuf;
use rvv_decode::{ConfigOp, Form, MemoryOp, VInstr, VOp};

// An immediate of five bits, with its sign.
fn signed_immediate(n: u8) -> Operand
    requires { n < 32 }
    ensures value { result ≡ signed_immediate n }
    ensures writable { IsWritable result }
{
    let n = u32::from(n);
    if n < 16 {
        Operand::Integer(n)
    } else {
        Operand::Integer(n + 0xffff_ffe0)
    }
}

// The second source of a form.
fn source_operand(form: Form, immediate: Operand, n: u8) -> Operand
    requires { IsWritable immediate }
    ensures value { result ≡ source_operand form immediate n }
    ensures writable { IsWritable result }
{
    match form {
        Form::V => Operand::V(n),
        Form::X => Operand::X(n),
        Form::I => immediate,
    }
}

// Adds the mask of an instruction, where it has one.
fn add_mask(operands: &mut Operands, mask: Operand, unmasked: bool)
    requires writable { IsWritable mask }
    requires all { All IsWritable operands.old.items }
    requires room { array_vec_len operands.old ≤ 4 }
    ensures items { operands.new.items ≡ operands.old.items ++ mask_operands mask unmasked }
    ensures all { All IsWritable operands.new.items }
{
    if !unmasked {
        operands.push(mask);
    }
}

// Three operands and the mask.
fn three_operands(
    first: Operand,
    second: Operand,
    third: Operand,
    mask: Operand,
    unmasked: bool,
) -> Operands
    requires first { IsWritable first }
    requires second { IsWritable second }
    requires third { IsWritable third }
    requires mask { IsWritable mask }
    ensures items { result.items ≡ first ∷ second ∷ third ∷ mask_operands mask unmasked }
    ensures writable { All IsWritable result.items }
{
    let mut operands = Operands::new();
    operands.push(first);
    operands.push(second);
    operands.push(third);
    add_mask(&mut operands, mask, unmasked);
    operands
}

// Two operands and the mask.
fn two_operands(first: Operand, second: Operand, unmasked: bool) -> Operands
    requires first { IsWritable first }
    requires second { IsWritable second }
    ensures items { result.items ≡ first ∷ second ∷ mask_operands Operand.Mask unmasked }
    ensures writable { All IsWritable result.items }
{
    let mut operands = Operands::new();
    operands.push(first);
    operands.push(second);
    add_mask(&mut operands, Operand::Mask, unmasked);
    operands
}

// The operands of an instruction on vectors.
fn operands(form: VectorForm, i: &VInstr) -> Operands
    requires { IsInRange i.now }
    ensures items { result.items ≡ vector_operands form i.now }
    ensures writable { All IsWritable result.items }
{
    let (vd, vs2) = (Operand::V(i.vd), Operand::V(i.vs2));
    let signed = source_operand(i.form, signed_immediate(i.vs1), i.vs1);
    let unsigned = source_operand(i.form, Operand::Number(i.vs1), i.vs1);
    match form {
        VectorForm::SignedSource => three_operands(vd, vs2, signed, Operand::Mask, i.vm),
        VectorForm::UnsignedSource | VectorForm::WideSource => {
            three_operands(vd, vs2, unsigned, Operand::Mask, i.vm)
        }
        VectorForm::CarryIn | VectorForm::CarryOut => three_operands(
            vd,
            vs2,
            signed,
            Operand::Carry,
            i.vm,
        ),
        VectorForm::Move => two_operands(vd, signed, true),
        VectorForm::WholeMove => two_operands(vd, vs2, true),
        VectorForm::ThreeVectors => three_operands(vd, vs2, Operand::V(i.vs1), Operand::Mask, i.vm),
        VectorForm::TwoVectors => two_operands(vd, vs2, i.vm),
        VectorForm::Destination => destination(i),
        VectorForm::ToScalar => two_operands(Operand::X(i.vd), vs2, i.vm),
        VectorForm::FromScalar => two_operands(vd, Operand::X(i.vs1), i.vm),
        VectorForm::MultiplyAdd => three_operands(vd, unsigned, vs2, Operand::Mask, i.vm),
    }
}

// The operands of an instruction that has a destination alone.
fn destination(i: &VInstr) -> Operands
    ensures items { result.items ≡ Operand.V i.now.vd ∷ mask_operands Operand.Mask i.now.vm }
    ensures writable { All IsWritable result.items }
{
    let mut operands = Operands::new();
    operands.push(Operand::V(i.vd));
    add_mask(&mut operands, Operand::Mask, i.vm);
    operands
}

// Appends a number.
fn push_number(line: &mut LineBuf, n: u8)
    requires { array_string_len line.old ≤ 200 }
    ensures text { line.new.bytes ≡ line.old.bytes ++ decimal n }
    ensures room { array_string_len line.new ≤ array_string_len line.old + 3 }
{
    let mut digits = Buffer::new();
    line.push_str(digits.format(n));
}

// The letter of a form.
fn form_letter(form: Form) -> &'static str
    ensures text { result.now ≡ form_letter form }
    ensures short { length result.now ≤ 1 }
{
    match form {
        Form::V => "v",
        Form::X => "x",
        Form::I => "i",
    }
}

// Appends the suffix of an instruction on vectors.
fn push_suffix(line: &mut LineBuf, form: VectorForm, i: &VInstr)
    requires fields { IsInRange i.now }
    requires room { array_string_len line.old ≤ 20 }
    ensures text { line.new.bytes ≡ line.old.bytes ++ suffix form i.now }
    ensures room { array_string_len line.new ≤ array_string_len line.old + 7 }
{
    match form {
        VectorForm::SignedSource | VectorForm::UnsignedSource | VectorForm::MultiplyAdd => {
            line.push_str(".v");
            line.push_str(form_letter(i.form));
        }
        VectorForm::WideSource => {
            line.push_str(".w");
            line.push_str(form_letter(i.form));
        }
        VectorForm::CarryIn => {
            line.push_str(".v");
            line.push_str(form_letter(i.form));
            line.push_str("m");
        }
        VectorForm::CarryOut => {
            line.push_str(".v");
            line.push_str(form_letter(i.form));
            line.push_str(if i.vm { "" } else { "m" });
        }
        VectorForm::Move => {
            line.push_str(".");
            line.push_str(form_letter(i.form));
        }
        VectorForm::WholeMove => {
            push_number(line, i.vs1 + 1);
            line.push_str("r.v");
        }
        VectorForm::ThreeVectors
        | VectorForm::TwoVectors
        | VectorForm::Destination
        | VectorForm::ToScalar
        | VectorForm::FromScalar => {}
    }
}

// Appends the name of a load or store of elements, without its end.
fn push_elements_name(line: &mut LineBuf, name: &str, i: &VInstr, rest: &str)
    requires name { length name.now ≤ 4 }
    requires rest { length rest.now ≤ 2 }
    requires room { array_string_len line.old ≤ 20 }
    ensures text { line.new.bytes ≡ line.old.bytes ++ elements_name name.now i.now rest.now }
    ensures room { array_string_len line.new ≤ array_string_len line.old + 15 }
{
    line.push_str(name);
    if i.nf != 1 {
        line.push_str("seg");
        push_number(line, i.nf);
    }
    line.push_str(rest);
    push_number(line, i.eew);
}

// Appends the name of a load or store to an empty line.
fn push_memory_name(line: &mut LineBuf, op: MemoryOp, i: &VInstr)
    requires empty { line.old.bytes ≡ [] }
    ensures text { line.new.bytes ≡ memory_name op i.now }
    ensures room { array_string_len line.new ≤ 20 }
{
    match op {
        MemoryOp::LoadUnitStride => {
            push_elements_name(line, "vl", i, "e");
            line.push_str(".v");
        }
        MemoryOp::LoadFaultOnlyFirst => {
            push_elements_name(line, "vl", i, "e");
            line.push_str("ff.v");
        }
        MemoryOp::LoadStrided => {
            push_elements_name(line, "vls", i, "e");
            line.push_str(".v");
        }
        MemoryOp::LoadIndexedUnordered => {
            push_elements_name(line, "vlux", i, "ei");
            line.push_str(".v");
        }
        MemoryOp::LoadIndexedOrdered => {
            push_elements_name(line, "vlox", i, "ei");
            line.push_str(".v");
        }
        MemoryOp::LoadWholeRegister => {
            line.push_str("vl");
            push_number(line, i.nf);
            line.push_str("re");
            push_number(line, i.eew);
            line.push_str(".v");
        }
        MemoryOp::LoadMask => line.push_str("vlm.v"),
        MemoryOp::StoreUnitStride => {
            push_elements_name(line, "vs", i, "e");
            line.push_str(".v");
        }
        MemoryOp::StoreStrided => {
            push_elements_name(line, "vss", i, "e");
            line.push_str(".v");
        }
        MemoryOp::StoreIndexedUnordered => {
            push_elements_name(line, "vsux", i, "ei");
            line.push_str(".v");
        }
        MemoryOp::StoreIndexedOrdered => {
            push_elements_name(line, "vsox", i, "ei");
            line.push_str(".v");
        }
        MemoryOp::StoreWholeRegister => {
            line.push_str("vs");
            push_number(line, i.nf);
            line.push_str("r.v");
        }
        MemoryOp::StoreMask => line.push_str("vsm.v"),
    }
}

// The operands of a load or store.
fn memory_operands(op: MemoryOp, i: &VInstr) -> Operands
    ensures items { result.items ≡ Operand.V i.now.vd ∷ Operand.Address i.now.vs1 ∷ (offset_operands op i.now ++ mask_operands Operand.Mask i.now.vm) }
    ensures writable { All IsWritable result.items }
{
    let (vd, at) = (Operand::V(i.vd), Operand::Address(i.vs1));
    match op {
        MemoryOp::LoadStrided | MemoryOp::StoreStrided => {
            three_operands(vd, at, Operand::X(i.vs2), Operand::Mask, i.vm)
        }
        MemoryOp::LoadIndexedUnordered
        | MemoryOp::LoadIndexedOrdered
        | MemoryOp::StoreIndexedUnordered
        | MemoryOp::StoreIndexedOrdered => three_operands(
            vd,
            at,
            Operand::V(i.vs2),
            Operand::Mask,
            i.vm,
        ),
        MemoryOp::LoadUnitStride
        | MemoryOp::LoadFaultOnlyFirst
        | MemoryOp::LoadWholeRegister
        | MemoryOp::LoadMask
        | MemoryOp::StoreUnitStride
        | MemoryOp::StoreWholeRegister
        | MemoryOp::StoreMask => two_operands(vd, at, i.vm),
    }
}

// The mnemonic of a configuration.
fn config_name(op: ConfigOp) -> &'static str
    ensures text { result.now ≡ config_name op }
    ensures short { length result.now ≤ 10 }
{
    match op {
        ConfigOp::Vsetvli => "vsetvli",
        ConfigOp::Vsetivli => "vsetivli",
        ConfigOp::Vsetvl => "vsetvl",
    }
}

// The operands of a configuration.
fn config_operands(op: ConfigOp, i: &VInstr) -> Operands
    ensures items { result.items ≡ config_operands op i.now }
    ensures writable { All IsWritable result.items }
{
    let mut operands = Operands::new();
    operands.push(Operand::X(i.vd));
    match op {
        ConfigOp::Vsetvli => {
            operands.push(Operand::X(i.vs1));
            operands.push(Operand::Hex(3, u32::from(i.zimm)));
        }
        ConfigOp::Vsetivli => {
            operands.push(Operand::Number(i.vs1));
            operands.push(Operand::Hex(3, u32::from(i.zimm)));
        }
        ConfigOp::Vsetvl => {
            operands.push(Operand::X(i.vs1));
            operands.push(Operand::X(i.vs2));
        }
    }
    operands
}

// Appends the mnemonic of a vector instruction to an empty line, and gives its operands.
fn push_name(line: &mut LineBuf, i: &VInstr) -> Operands
    requires fields { IsInRange i.now }
    requires empty { line.old.bytes ≡ [] }
    ensures name { line.new.bytes ≡ vector_name i.now.op i.now }
    ensures room { array_string_len line.new ≤ 20 }
    ensures operands { result.items ≡ vector_operands_of i.now.op i.now }
    ensures writable { All IsWritable result.items }
{
    match i.op {
        VOp::Opi(op) => {
            let (stem, form) = opi_row(op);
            line.push_str(stem);
            push_suffix(line, form, i);
            operands(form, i)
        }
        VOp::Opm(op) => {
            let (stem, form) = opm_row(op);
            line.push_str(stem);
            push_suffix(line, form, i);
            operands(form, i)
        }
        VOp::Config(op) => {
            line.push_str(config_name(op));
            config_operands(op, i)
        }
        VOp::Memory(op) => {
            push_memory_name(line, op, i);
            memory_operands(op, i)
        }
    }
}

// Appends the listing of a vector instruction to an empty line.
#[tactic(auto, unfolding(crate::specs::Spelling::vector_spelling))]
pub(crate) fn push_vector(line: &mut LineBuf, i: &VInstr)
    requires fields { IsInRange i.now }
    requires empty { line.old.bytes ≡ [] }
    ensures text { line.new.bytes ≡ text_of (vector_spelling i.now) }
    ensures room { array_string_len line.new ≤ 130 }
{
    let operands = push_name(line, i);
    push_operands(line, &operands);
}
