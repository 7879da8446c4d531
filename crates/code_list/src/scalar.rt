// The listing of scalar instructions.
ghost use Rattle.std.specs.Prelude.{◌≡◌, ◌≤◌, ◌+◌, ◌++◌, [], ◌∷◌, All};
ghost use Rattle.arrayvec.specs.ArrayString.{array_string_len};
ghost use Rattle.code_list.specs.Operands.{IsWritable};
ghost use Rattle.code_list.specs.Spelling.{scalar_spelling, scalar_operands, text_of};

use crate::forms::ScalarForm;
use crate::names::scalar_row;
use crate::operand::{Operand, Operands, push_operands};
use line_text::LineBuf;
use rv32_decode::Instr;

// The operands of a scalar instruction.
fn operands(form: ScalarForm, i: &Instr) -> Operands
    ensures items { result.items ≡ scalar_operands form i.now }
    ensures writable { All IsWritable result.items }
{
    let mut operands = Operands::new();
    match form {
        ScalarForm::Registers => {
            operands.push(Operand::X(i.rd));
            operands.push(Operand::X(i.rs1));
            operands.push(Operand::X(i.rs2));
        }
        ScalarForm::Immediate => {
            operands.push(Operand::X(i.rd));
            operands.push(Operand::X(i.rs1));
            operands.push(Operand::Integer(i.imm));
        }
        ScalarForm::Load => {
            operands.push(Operand::X(i.rd));
            operands.push(Operand::Offset(i.imm, i.rs1));
        }
        ScalarForm::Store => {
            operands.push(Operand::X(i.rs2));
            operands.push(Operand::Offset(i.imm, i.rs1));
        }
        ScalarForm::Branch => {
            operands.push(Operand::X(i.rs1));
            operands.push(Operand::X(i.rs2));
            operands.push(Operand::Integer(i.imm));
        }
        ScalarForm::Upper => {
            operands.push(Operand::X(i.rd));
            operands.push(Operand::Hex(5, i.imm >> 12));
        }
        ScalarForm::Jump => {
            operands.push(Operand::X(i.rd));
            operands.push(Operand::Integer(i.imm));
        }
        ScalarForm::Csr => {
            operands.push(Operand::X(i.rd));
            operands.push(Operand::Hex(3, i.imm));
            operands.push(Operand::X(i.rs1));
        }
        ScalarForm::CsrImmediate => {
            operands.push(Operand::X(i.rd));
            operands.push(Operand::Hex(3, i.imm));
            operands.push(Operand::Number(i.rs1));
        }
        ScalarForm::NoOperands => {}
    }
    operands
}

// Appends the listing of a scalar instruction to an empty line.
#[tactic(auto, unfolding(crate::specs::Spelling::scalar_spelling))]
pub(crate) fn push_scalar(line: &mut LineBuf, i: &Instr)
    requires empty { line.old.bytes ≡ [] }
    ensures text { line.new.bytes ≡ text_of (scalar_spelling i.now) }
    ensures room { array_string_len line.new ≤ 130 }
{
    let (name, form) = scalar_row(i.op);
    line.push_str(name);
    push_operands(line, &operands(form, i));
}
