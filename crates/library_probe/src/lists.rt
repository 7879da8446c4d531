//! The list of a kind.
ghost use Rattle.std.specs.Prelude.{◌≡◌, ◌+◌, ◌*◌, ◌<◌, ◌≤◌, ◌++◌, IfOk};
ghost use lib.Dec.{ltb};
ghost use Rattle.micro_ir.specs.Steps.{micros};
ghost use Rattle.micro_ir.specs.WorkRows.{IsOperandRow};
ghost use Rattle.gen_div.specs.Rows.{IsSignedRow};
ghost use Rattle.library_probe.specs.Lists.{bitwise_steps, added_steps, told_steps, chosen_steps, shifted_steps, source_bits, extended_steps, multiplied_steps, divided_steps, kind_steps, kind_ops};

use crate::kinds::{
    Added, Bitwise, Choice, Divided, Kind, Multiplied, Shifted, Size, Source, Truth,
};
use bit_laws::{W8, W16, W32, Width};
use gen_arith::{
    emit_adc, emit_add, emit_eq, emit_gt, emit_gtu, emit_le, emit_leu, emit_lt, emit_ltu,
    emit_madc, emit_madc_in, emit_max, emit_maxu, emit_min, emit_minu, emit_msbc, emit_msbc_in,
    emit_ne, emit_sbc, emit_sub,
};
use gen_div::{emit_div, emit_divu, emit_rem, emit_remu};
use gen_logic::{
    emit_and, emit_andn, emit_merge, emit_move, emit_nand, emit_nor, emit_or, emit_orn, emit_xnor,
    emit_xor,
};
use gen_mul::{emit_macc, emit_mul, emit_mulh, emit_mulhsu, emit_mulhu, emit_nmsac};
use gen_shift::{emit_sext, emit_sll, emit_sra, emit_sra_raw, emit_srl, emit_srl_raw};
use micro_ir::{MicroBuf, Place};
use std::alloc::{AllocError, Global};

// No list of a kind is longer.
const MOST_OPS: u32 = 32768;

// The rounding mode that rounds down.
const ROUNDS_DOWN: u8 = 2;

/// Appends the list of a kind that acts bit by bit.
fn emit_bitwise<W: Width>(buf: &mut MicroBuf, kind: Bitwise, at: &Place)
    requires a { IsOperandRow at.now.a }
    requires b { IsOperandRow at.now.b }
    requires to { at.now.to < 32 }
    requires room { 12 * W.BITS + 11 ≤ buf.old.spare }
    ensures { buf.new.ops ≡ buf.old.ops ++ micros W.BITS (bitwise_steps kind W.BITS at.now) }
{
    W::laws();
    match kind {
        Bitwise::And => emit_and::<W>(buf, at),
        Bitwise::Or => emit_or::<W>(buf, at),
        Bitwise::Xor => emit_xor::<W>(buf, at),
        Bitwise::Nand => emit_nand::<W>(buf, at),
        Bitwise::Nor => emit_nor::<W>(buf, at),
        Bitwise::Xnor => emit_xnor::<W>(buf, at),
        Bitwise::Andn => emit_andn::<W>(buf, at),
        Bitwise::Orn => emit_orn::<W>(buf, at),
        Bitwise::Move => emit_move::<W>(buf, at),
        Bitwise::Merge => emit_merge::<W>(buf, at),
    }
}

/// Appends the list of a sum or a difference.
fn emit_added<W: Width>(buf: &mut MicroBuf, kind: Added, at: &Place)
    requires a { IsOperandRow at.now.a }
    requires b { IsOperandRow at.now.b }
    requires to { at.now.to < 32 }
    requires room { 12 * W.BITS + 11 ≤ buf.old.spare }
    ensures { buf.new.ops ≡ buf.old.ops ++ micros W.BITS (added_steps kind W.BITS at.now) }
{
    match kind {
        Added::Add => emit_add::<W>(buf, at),
        Added::Sub => emit_sub::<W>(buf, at),
        Added::Adc => emit_adc::<W>(buf, at),
        Added::Sbc => emit_sbc::<W>(buf, at),
    }
}

/// Appends the list of a comparison or a carry.
fn emit_told<W: Width>(buf: &mut MicroBuf, kind: Truth, at: &Place)
    requires a { IsOperandRow at.now.a }
    requires b { IsOperandRow at.now.b }
    requires to { at.now.to < 32 }
    requires room { 12 * W.BITS + 11 ≤ buf.old.spare }
    ensures { buf.new.ops ≡ buf.old.ops ++ micros W.BITS (told_steps kind W.BITS at.now) }
{
    match kind {
        Truth::Madc => emit_madc::<W>(buf, at),
        Truth::MadcIn => emit_madc_in::<W>(buf, at),
        Truth::Msbc => emit_msbc::<W>(buf, at),
        Truth::MsbcIn => emit_msbc_in::<W>(buf, at),
        Truth::Eq => emit_eq::<W>(buf, at),
        Truth::Ne => emit_ne::<W>(buf, at),
        Truth::Ltu => emit_ltu::<W>(buf, at),
        Truth::Lt => emit_lt::<W>(buf, at),
        Truth::Leu => emit_leu::<W>(buf, at),
        Truth::Le => emit_le::<W>(buf, at),
        Truth::Gtu => emit_gtu::<W>(buf, at),
        Truth::Gt => emit_gt::<W>(buf, at),
    }
}

/// Appends the list of the lesser or the greater of two.
fn emit_chosen<W: Width>(buf: &mut MicroBuf, kind: Choice, at: &Place)
    requires a { IsOperandRow at.now.a }
    requires b { IsOperandRow at.now.b }
    requires to { at.now.to < 32 }
    requires room { 12 * W.BITS + 11 ≤ buf.old.spare }
    ensures { buf.new.ops ≡ buf.old.ops ++ micros W.BITS (chosen_steps kind W.BITS at.now) }
{
    match kind {
        Choice::Minu => emit_minu::<W>(buf, at),
        Choice::Min => emit_min::<W>(buf, at),
        Choice::Maxu => emit_maxu::<W>(buf, at),
        Choice::Max => emit_max::<W>(buf, at),
    }
}

/// Appends the list of a shift. One without a commit rounds down.
fn emit_shifted<W: Width>(buf: &mut MicroBuf, kind: Shifted, at: &Place)
    requires a { IsOperandRow at.now.a }
    requires b { IsOperandRow at.now.b }
    requires to { at.now.to < 32 }
    requires room { W.LOG * (3 * W.BITS + 15) + (3 * W.BITS + 9) ≤ buf.old.spare }
    ensures { buf.new.ops
        ≡ buf.old.ops ++ micros W.BITS (shifted_steps kind W.BITS W.LOG at.now) }
{
    let raw = Place {
        mode: ROUNDS_DOWN,
        ..*at
    };
    match kind {
        Shifted::Sll => emit_sll::<W>(buf, at),
        Shifted::Srl => emit_srl::<W>(buf, at),
        Shifted::Sra => emit_sra::<W>(buf, at),
        Shifted::SrlRaw => emit_srl_raw::<W>(buf, &raw),
        Shifted::SraRaw => emit_sra_raw::<W>(buf, &raw),
    }
}

/// The bits of the numbers that are extended.
fn bits_of(source: Source) -> u8
    ensures value { result ≡ source_bits source }
    ensures some { 0 < result }
{
    match source {
        Source::Eight => 8,
        Source::Sixteen => 16,
    }
}

/// Whether elements are wider than the numbers that are extended.
fn is_wider<W: Width>(source: Source) -> bool
    ensures { result ≡ ltb (source_bits source) W.BITS }
{
    usize::from(bits_of(source)) < W::BITS
}

/// Appends the list of an extension of the numbers in row `at.a`: nothing where they are as wide as
/// the elements.
fn emit_extended<W: Width>(buf: &mut MicroBuf, source: Source, at: &Place)
    requires a { IsOperandRow at.now.a }
    requires room { 12 * W.BITS + 11 ≤ buf.old.spare }
    ensures { buf.new.ops ≡ buf.old.ops ++ micros W.BITS (extended_steps source W.BITS at.now) }
{
    if is_wider::<W>(source) {
        emit_sext::<W>(buf, at, bits_of(source));
    }
}

/// Appends the list of a product.
fn emit_multiplied<W: Width>(buf: &mut MicroBuf, kind: Multiplied, at: &Place)
    requires a { IsOperandRow at.now.a }
    requires b { IsOperandRow at.now.b }
    requires addend { IsOperandRow at.now.addend }
    requires to { at.now.to < 32 }
    requires room { W.BITS * (20 * W.BITS + 61) + 8 ≤ buf.old.spare }
    ensures { buf.new.ops ≡ buf.old.ops ++ micros W.BITS (multiplied_steps kind W.BITS at.now) }
{
    match kind {
        Multiplied::Mul => emit_mul::<W>(buf, at),
        Multiplied::Mulhu => emit_mulhu::<W>(buf, at),
        Multiplied::Mulhsu => emit_mulhsu::<W>(buf, at),
        Multiplied::Mulh => emit_mulh::<W>(buf, at),
        Multiplied::Macc => emit_macc::<W>(buf, at),
        Multiplied::Nmsac => emit_nmsac::<W>(buf, at),
    }
}

/// Appends the list of a quotient or a remainder.
fn emit_divided<W: Width>(buf: &mut MicroBuf, kind: Divided, at: &Place)
    requires a { IsOperandRow at.now.a }
    requires b { IsOperandRow at.now.b }
    requires dividend { IsSignedRow at.now.a }
    requires divisor { IsSignedRow at.now.b }
    requires to { at.now.to < 32 }
    requires room { W.BITS * (14 * W.BITS + 75) + 19 ≤ buf.old.spare }
    ensures { buf.new.ops ≡ buf.old.ops ++ micros W.BITS (divided_steps kind W.BITS at.now) }
{
    match kind {
        Divided::Divu => emit_divu::<W>(buf, at),
        Divided::Remu => emit_remu::<W>(buf, at),
        Divided::Div => emit_div::<W>(buf, at),
        Divided::Rem => emit_rem::<W>(buf, at),
    }
}

/// Appends the list of a kind.
fn emit_kind<W: Width>(buf: &mut MicroBuf, kind: Kind, at: &Place)
    requires a { IsOperandRow at.now.a }
    requires b { IsOperandRow at.now.b }
    requires addend { IsOperandRow at.now.addend }
    requires dividend { IsSignedRow at.now.a }
    requires divisor { IsSignedRow at.now.b }
    requires to { at.now.to < 32 }
    requires room { 12 * W.BITS + 11 ≤ buf.old.spare }
    requires stages { W.LOG * (3 * W.BITS + 15) + (3 * W.BITS + 9) ≤ buf.old.spare }
    requires products { W.BITS * (20 * W.BITS + 61) + 8 ≤ buf.old.spare }
    requires quotients { W.BITS * (14 * W.BITS + 75) + 19 ≤ buf.old.spare }
    ensures { buf.new.ops ≡ buf.old.ops ++ micros W.BITS (kind_steps kind W.BITS W.LOG at.now) }
{
    match kind {
        Kind::Bits(kind) => emit_bitwise::<W>(buf, kind, at),
        Kind::Sum(kind) => emit_added::<W>(buf, kind, at),
        Kind::Tells(kind) => emit_told::<W>(buf, kind, at),
        Kind::Chooses(kind) => emit_chosen::<W>(buf, kind, at),
        Kind::Shifts(kind) => emit_shifted::<W>(buf, kind, at),
        Kind::Extends(source) => emit_extended::<W>(buf, source, at),
        Kind::Multiplies(kind) => emit_multiplied::<W>(buf, kind, at),
        Kind::Divides(kind) => emit_divided::<W>(buf, kind, at),
    }
}

/// The list of a kind.
pub(crate) fn list_of(
    alloc: Global,
    kind: Kind,
    size: Size,
    at: &Place,
) -> Result<MicroBuf, AllocError>
    requires a { IsOperandRow at.now.a }
    requires b { IsOperandRow at.now.b }
    requires addend { IsOperandRow at.now.addend }
    requires dividend { IsSignedRow at.now.a }
    requires divisor { IsSignedRow at.now.b }
    requires to { at.now.to < 32 }
    ensures { IfOk result (λ buf. buf.ops ≡ kind_ops kind size at.now) }
{
    let mut buf = MicroBuf::new(alloc, MOST_OPS)?;
    match size {
        Size::Byte => emit_kind::<W8>(&mut buf, kind, at),
        Size::Half => emit_kind::<W16>(&mut buf, kind, at),
        Size::Word => emit_kind::<W32>(&mut buf, kind, at),
    }
    Ok(buf)
}
