//! What is told of kinds of operation.
ghost use Rattle.std.specs.Prelude.{◌≡◌, ◌≤◌, ◌++◌, true, length, OnOk, IfOk, string_bytes};
ghost use Rattle.micro_ir.specs.WorkRows.{IsOperandRow};
ghost use Rattle.gen_div.specs.Rows.{IsSignedRow};
ghost use Rattle.library_probe.specs.Texts.{is_operand, is_place, ops_text, list_text, told_text};

use crate::kinds::{kind_named, size_named};
use crate::lists::list_of;
use itoa::Buffer;
use micro_ir::{LineBuf, MicroOp, Place, SCALAR_ROW, listing};
use std::alloc::{AllocError, Global};

// The rows below are registers.
const REGISTERS: u8 = 32;

// What is told of a line of another form.
pub(crate) const NO_FORM: &str = "form\n";

/// Whether a row may hold an operand of any kind: a register, or the row of the scalar.
fn is_operand(row: u8) -> bool
    ensures value { result ≡ is_operand row }
    ensures holds { result ≡ true → IsOperandRow row }
    ensures divides { result ≡ true → IsSignedRow row }
{
    row < REGISTERS || row == SCALAR_ROW
}

/// Appends a line for each operation.
fn push_ops(text: &mut String, ops: &[MicroOp]) -> Result<(), AllocError>
    ensures { OnOk result (string_bytes text.new ≡ string_bytes text.old ++ ops_text ops.now) }
{
    let mut line = LineBuf::new();
    for op in ops {
        listing(op, &mut line);
        text.push_str(line.as_str())?;
        text.push_str("\n")?;
    }
    Ok(())
}

/// The text of a list.
fn list_text(alloc: Global, name: &str, width: &str, ops: &[MicroOp]) -> Result<String, AllocError>
    requires { length ops.now ≤ 262144 }
    ensures { IfOk result (λ text. string_bytes text ≡ list_text name.now width.now ops.now) }
{
    let mut digits = Buffer::new();
    let mut text = String::new(alloc);
    text.push_str("kind ")?;
    text.push_str(name)?;
    text.push_str(" width ")?;
    text.push_str(width)?;
    text.push_str(" operations ")?;
    text.push_str(digits.format(ops.len()))?;
    text.push_str("\n")?;
    push_ops(&mut text, ops)?;
    Ok(text)
}

/// What is told of a name, a width and a place.
pub(crate) fn told_of(
    alloc: Global,
    name: &str,
    width: &str,
    at: &Place,
) -> Result<String, AllocError>
    ensures { IfOk result (λ text. string_bytes text ≡ told_text name.now width.now at.now) }
{
    let (Some(kind), Some(size)) = (kind_named(name), size_named(width)) else {
        return String::from_str(alloc, NO_FORM);
    };
    if is_operand(at.a) && is_operand(at.b) && is_operand(at.addend) && at.to < REGISTERS {
        let buf = list_of(alloc, kind, size, at)?;
        list_text(alloc, name, width, buf.ops())
    } else {
        String::from_str(alloc, NO_FORM)
    }
}
