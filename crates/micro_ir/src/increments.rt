// The list that adds a bit to each element of a row.
ghost use Rattle.std.specs.Prelude.{◌≡◌, ◌≢◌, ◌+◌, ◌-◌, ◌*◌, ◌^◌, ◌<◌, ◌≤◌, [], ◌∷◌, ◌++◌, IsTrue, take, length};
ghost use Rattle.cam_chain.specs.KeyPairs.{are_keys, is_new_row, keys_of};
ghost use Rattle.micro_ir.specs.Steps.{micros};
ghost use Rattle.micro_ir.specs.Tables.{values_of};
ghost use Rattle.micro_ir.specs.Effects.{Costs};
ghost use Rattle.micro_ir.specs.Increments.{half_sums, increment_ops, step_inputs, lowest_subs, Increments};

use crate::buf::MicroBuf;
use crate::pieces::{emit_above, emit_clear};
use crate::tables::{TableStep, emit_table};
use crate::work_rows::{CARRY_ROW, RESULT_ROW};
use bit_laws::Width;

// The tables of the sum of two bits: its digit, and the carry out of it.
const DIGITS: [u8; 2] = [1, 2];

const CARRIES: [u8; 1] = [3];

/// Appends what adds a bit to each element of the row `from`, modulo 2 to the power of its width:
/// the result row gets the sum. The step makes the bit in the carry row, at the lowest bit of each
/// element.
pub fn emit_increment<W: Width>(buf: &mut MicroBuf, from: u8, step: &TableStep)
    requires row { from < 64 }
    requires apart_carry { from ≢ 35 }
    requires apart_result { from ≢ 36 }
    requires few { step.now.n ≤ 4 }
    requires inputs { IsTrue (are_keys (keys_of (step_inputs step.now) 0)) }
    requires out { step.now.out ≡ 35 }
    requires apart { IsTrue (is_new_row step.now.out (keys_of (step_inputs step.now) 0)) }
    requires some { 0 < length (values_of step.now.on) }
    requires values { step.now.on < 2 ^ 2 ^ step.now.n }
    requires lowest { step.now.subs ≡ lowest_subs W.BITS }
    requires still { step.now.times ≡ 0 }
    requires room { 6 * W.BITS + 2 + length (values_of step.now.on) ≤ buf.old.spare }
    ensures ops { buf.new.ops ≡ buf.old.ops ++ increment_ops W.BITS from step.now }
    ensures spare { buf.new.spare + (6 * W.BITS + 2 + length (values_of step.now.on))
        ≡ buf.old.spare }
    ensures effect { Increments W.BITS from (step_inputs step.now) (values_of step.now.on)
        (increment_ops W.BITS from step.now) }
    ensures cost { Costs (3 * W.BITS + 1 + length (values_of step.now.on)) (2 * W.BITS + 2) (W.BITS - 1)
        (increment_ops W.BITS from step.now) }
{
    emit_clear(buf, CARRY_ROW);
    emit_table(buf, step);
    emit_clear(buf, RESULT_ROW);
    emit_half_sums::<W>(buf, from);
}

// The sums of the row and the carry, from bit to bit, into the result row.
fn emit_half_sums<W: Width>(buf: &mut MicroBuf, from: u8)
    requires row { from < 64 }
    requires room { 6 * W.BITS - 3 ≤ buf.old.spare }
    ensures ops { buf.new.ops ≡ buf.old.ops ++ micros W.BITS (half_sums W.BITS from W.BITS) }
    ensures spare { buf.new.spare + (6 * W.BITS - 3) ≡ buf.old.spare }
{
    let rows = [from, CARRY_ROW];
    let last = W::BITS as u8 - 1;
    for bit in 0..last {
        emit_above::<W>(buf, &rows, &DIGITS, RESULT_ROW, bit, 0);
        emit_above::<W>(buf, &rows, &CARRIES, CARRY_ROW, bit, 1);
    }
    emit_above::<W>(buf, &rows, &DIGITS, RESULT_ROW, last, 0);
}
