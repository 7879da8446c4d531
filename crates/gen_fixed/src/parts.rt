// The parts of lists of fixed point.
ghost use Rattle.std.specs.Prelude.{◌≡◌, ◌≢◌, false, ◌+◌, ◌-◌, ◌*◌, ◌<◌, ◌≤◌, [], ◌∷◌, ◌++◌, length};
ghost use Rattle.micro_ir.specs.Steps.{micros};
ghost use Rattle.micro_ir.specs.WorkRows.{IsOperandRow};
ghost use Rattle.row_views.specs.Clips.{clip_test};
ghost use Rattle.row_sums.specs.Sums.{total_row, sum_from};
ghost use Rattle.gen_arith.specs.Recipes.{odd_on};
ghost use Rattle.gen_fixed.specs.Lists.{operands, carries_of, beyond_on, beyond, bounded, overflowing};

use crate::kinds::{ODD, beyond, carries, overflow};
use crate::rows::OVERFLOW_ROW;
use bit_laws::Width;
use cam_chain::Keys;
use micro_ir::{
    ACTIVE_ROW, BROADCAST_ROW, BitRange, CARRY_ROW, MicroBuf, MicroOp, TRUTH_ROW, emit_above,
    emit_clear, emit_downs, emit_rows, lanes,
};
use reduce_tree::How;
use row_sums::{TOTAL_ROW, emit_ripple};

// The values of an overflow, a sign and a bit that give 1: where it overflows the inverse of the sign,
// or the sign itself, and else the bit.
const NOT_SIGN_OR_BIT: [u8; 4] = [1, 4, 5, 6];

const SIGN_OR_BIT: [u8; 4] = [3, 4, 6, 7];

// The digits of a sum or a difference, and the bit beyond them at the highest bit of the row of truths.
pub(crate) fn emit_beyond<W: Width>(buf: &mut MicroBuf, a: u8, b: u8, sign: bool, sub: bool)
    requires a { IsOperandRow a }
    requires b { IsOperandRow b }
    requires room { 11 * W.BITS + 5 ≤ buf.old.spare }
    ensures ops { buf.new.ops
        ≡ buf.old.ops ++ micros W.BITS (beyond (carries_of sub) (beyond_on sign sub) W.BITS a b) }
    ensures spare { buf.new.spare + (11 * W.BITS + 5) ≡ buf.old.spare }
{
    let inputs = [CARRY_ROW, a, b];
    emit_clear(buf, CARRY_ROW);
    emit_clear(buf, TOTAL_ROW);
    emit_clear(buf, TRUTH_ROW);
    emit_ripple::<W>(buf, &inputs, &ODD, carries(sub), TOTAL_ROW);
    emit_above::<W>(
        buf,
        &inputs,
        beyond(sign, sub),
        TRUTH_ROW,
        W::BITS as u8 - 1,
        0,
    );
}

// The digits alone.
pub(crate) fn emit_digits<W: Width>(buf: &mut MicroBuf, a: u8, b: u8, sub: bool)
    requires a { IsOperandRow a }
    requires b { IsOperandRow b }
    requires room { 11 * W.BITS - 2 ≤ buf.old.spare }
    ensures ops { buf.new.ops ≡ buf.old.ops ++ micros W.BITS
        (sum_from W.BITS [] [] (operands a b) odd_on (carries_of sub) total_row) }
    ensures spare { buf.new.spare + (11 * W.BITS - 2) ≡ buf.old.spare }
{
    let inputs = [CARRY_ROW, a, b];
    emit_clear(buf, CARRY_ROW);
    emit_clear(buf, TOTAL_ROW);
    emit_ripple::<W>(buf, &inputs, &ODD, carries(sub), TOTAL_ROW);
}

// Whether the digits overflow, by the signs of the operands and their own, in each bit.
pub(crate) fn emit_overflow<W: Width>(buf: &mut MicroBuf, a: u8, b: u8, sub: bool)
    requires a { IsOperandRow a }
    requires b { IsOperandRow b }
    requires room { 3 * W.BITS + 2 ≤ buf.old.spare }
    ensures ops { buf.new.ops ≡ buf.old.ops ++ micros W.BITS (overflowing sub W.BITS a b) }
    ensures spare { buf.new.spare + (3 * W.BITS + 2) ≡ buf.old.spare }
{
    let last = W::BITS as u8 - 1;
    emit_clear(buf, OVERFLOW_ROW);
    emit_above::<W>(
        buf,
        &[a, b, TOTAL_ROW],
        overflow(sub),
        OVERFLOW_ROW,
        last,
        0,
    );
    emit_downs::<W>(buf, OVERFLOW_ROW, last);
}

// The low bits of a row, `bits` of them, into the row `out`, or the bound on the side of the sign where
// the row overflows.
pub(crate) fn emit_bounded<L: Width>(buf: &mut MicroBuf, bits: u8, row: u8, out: u8)
    requires some { 0 < bits }
    requires bits { bits ≤ L.BITS }
    requires row { row < 64 }
    requires out { out < 64 }
    requires room { 12 ≤ buf.old.spare }
    ensures ops { buf.new.ops ≡ buf.old.ops ++ micros L.BITS (bounded L.BITS bits row out) }
    ensures spare { buf.new.spare + 12 ≡ buf.old.spare }
{
    let inputs = [OVERFLOW_ROW, BROADCAST_ROW, row];
    let below = BitRange {
        from: 0,
        to: bits - 1,
        up: true,
        times: 0,
    };
    emit_clear(buf, out);
    emit_rows::<L>(buf, &inputs, &NOT_SIGN_OR_BIT, out, below);
    emit_above::<L>(buf, &inputs, &SIGN_OR_BIT, out, bits - 1, 0);
}

// What looks for an active element whose lowest bit of a row is 1, and then sets the clip flag.
pub(crate) fn emit_test<W: Width>(buf: &mut MicroBuf, row: u8)
    requires row { row < 64 }
    requires apart { row ≢ 32 }
    requires room { 2 ≤ buf.old.spare }
    ensures ops { buf.new.ops ≡ buf.old.ops ++ clip_test W.BITS row }
    ensures spare { buf.new.spare + 2 ≡ buf.old.spare }
{
    let subs = lanes::<W>(0, 1);
    let Some(keys) = Keys::new(&[(ACTIVE_ROW, true), (row, true)]) else {
        unreachable!();
    };
    buf.push(MicroOp::Search {
        subs,
        keys,
        join: false,
    });
    buf.push(MicroOp::Count {
        subs,
        bit: 0,
        how: How::Clip,
    });
}
