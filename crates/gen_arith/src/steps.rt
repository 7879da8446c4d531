// The parts of lists that carry from bit to bit.
ghost use Rattle.std.specs.Prelude.{◌≡◌, ◌+◌, ◌-◌, ◌*◌, ◌<◌, ◌≤◌, [], ◌∷◌, ◌++◌, length};
ghost use Rattle.micro_ir.specs.Steps.{micro, micros};
ghost use Rattle.micro_ir.specs.Pieces.{above};
ghost use Rattle.micro_ir.specs.WorkRows.{IsOperandRow, carry_row, result_row, truth_row};
ghost use Rattle.gen_arith.specs.Recipes.{ripple};
ghost use Rattle.gen_arith.specs.Starts.{rows_from, values_from, start_count};

use bit_laws::Width;
use micro_ir::{CARRY_ROW, MASK_ROW, MicroBuf, RESULT_ROW, emit_above};

// What is carried into the lowest bit: nothing, one, the mask bit, or one less the mask bit.
#[derive(Clone, Copy)]
pub(crate) enum Start {
    Zero,
    One,
    Mask,
    NotMask,
}

// What is carried into the lowest bit, into the cleared carry row.
pub(crate) fn emit_start<W: Width>(buf: &mut MicroBuf, start: Start)
    requires room { start_count start ≤ buf.old.spare }
    ensures ops { buf.new.ops ≡ buf.old.ops ++ micro W.BITS (above (rows_from start) (values_from start) carry_row 0 0) }
    ensures spare { buf.new.spare + start_count start ≡ buf.old.spare }
{
    match start {
        Start::Zero => {}
        Start::One => emit_above::<W>(buf, &[], &[0], CARRY_ROW, 0, 0),
        Start::Mask => emit_above::<W>(buf, &[MASK_ROW], &[1], CARRY_ROW, 0, 0),
        Start::NotMask => emit_above::<W>(buf, &[MASK_ROW], &[0], CARRY_ROW, 0, 0),
    }
}

// A table of the carry and the operands at one bit, which writes `times` bits above it.
pub(crate) fn emit_table_at<W: Width>(
    buf: &mut MicroBuf,
    a: u8,
    b: u8,
    on: &[u8],
    out: u8,
    bit: u8,
    times: u8,
)
    requires a { IsOperandRow a }
    requires b { IsOperandRow b }
    requires some { 0 < length on.now }
    requires out { out < 64 }
    requires bit { bit + times < W.BITS }
    requires times { times ≤ 1 }
    requires room { length on.now + (1 + times) ≤ buf.old.spare }
    ensures ops { buf.new.ops
        ≡ buf.old.ops ++ micro W.BITS (above (carry_row ∷ a ∷ b ∷ []) on.now out bit times) }
    ensures spare { buf.new.spare + (length on.now + (1 + times)) ≡ buf.old.spare }
{
    emit_above::<W>(buf, &[CARRY_ROW, a, b], on, out, bit, times);
}

// The carries into all bits but the lowest, in rising order.
pub(crate) fn emit_carries<W: Width>(buf: &mut MicroBuf, a: u8, b: u8, carries: &[u8])
    requires a { IsOperandRow a }
    requires b { IsOperandRow b }
    requires some { 0 < length carries.now }
    requires room { (W.BITS - 1) * (length carries.now + 2) ≤ buf.old.spare }
    ensures ops { buf.new.ops ≡ buf.old.ops ++ micros W.BITS
        (ripple W.BITS (carry_row ∷ a ∷ b ∷ []) [] carries.now carry_row truth_row (W.BITS - 1)) }
    ensures spare { buf.new.spare + (W.BITS - 1) * (length carries.now + 2) ≡ buf.old.spare }
{
    for bit in 0..W::BITS as u8 - 1 {
        emit_table_at::<W>(buf, a, b, carries, CARRY_ROW, bit, 1);
    }
}

// The digits of all bits, in rising order, each before the carry out of its bit.
pub(crate) fn emit_digits<W: Width>(buf: &mut MicroBuf, a: u8, b: u8, digits: &[u8], carries: &[u8])
    requires a { IsOperandRow a }
    requires b { IsOperandRow b }
    requires digits { length digits.now ≡ 4 }
    requires carries { length carries.now ≡ 4 }
    requires room { 11 * W.BITS - 6 ≤ buf.old.spare }
    ensures ops { buf.new.ops ≡ buf.old.ops ++ micros W.BITS
        (ripple W.BITS (carry_row ∷ a ∷ b ∷ []) digits.now carries.now carry_row result_row W.BITS) }
    ensures spare { buf.new.spare + (11 * W.BITS - 6) ≡ buf.old.spare }
{
    let last = W::BITS as u8 - 1;
    for bit in 0..last {
        emit_table_at::<W>(buf, a, b, digits, RESULT_ROW, bit, 0);
        emit_table_at::<W>(buf, a, b, carries, CARRY_ROW, bit, 1);
    }
    emit_table_at::<W>(buf, a, b, digits, RESULT_ROW, last, 0);
}
