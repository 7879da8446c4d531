// The product of two numbers with signs over 2^(w - 1), rounded by a mode and clipped: what follows the
// two halves of the product.
ghost use Rattle.std.specs.Prelude.{◌≡◌, ◌≢◌, ◌+◌, ◌-◌, ◌*◌, ◌<◌, ◌≤◌, ◌++◌};
ghost use Rattle.micro_ir.specs.Steps.{micros};
ghost use Rattle.row_views.specs.Clips.{clip_test};
ghost use Rattle.gen_mul.specs.Fractions.{clipping, flagging, left_length, left_over, lower, overflow_row, rounded_row, rounding, rounding_length};

use crate::finish::low_row;
use crate::rows::{CLIPPED_ROW, CORRECTED_ROW, OVERFLOW_ROW};
use bit_laws::Width;
use cam_chain::Keys;
use gen_shift::{DOWN, LAST_ROW, MORE_ROW, MOVED_ROW, emit_mode};
use micro_ir::{
    ACTIVE_ROW, BitRange, MicroBuf, MicroOp, RESULT_ROW, emit_above, emit_below, emit_clear,
    emit_downs, emit_rows, lanes,
};
use reduce_tree::How;

// The value of one row whose bit is 1, and those of two rows: where the first one's alone is 1, where
// the second one's alone is, and where one of them is.
const ONE_ON: [u8; 1] = [1];

const SECOND_ON: [u8; 1] = [2];

const EITHER_ON: [u8; 3] = [1, 2, 3];

// The lowest bits of the low half, as many as `count`, into the row of the bits below the last one.
fn emit_lower<W: Width>(buf: &mut MicroBuf, count: u8)
    requires count { count ≤ W.BITS }
    requires room { 3 * count - 1 ≤ buf.old.spare }
    ensures ops { buf.new.ops ≡ buf.old.ops ++ micros W.BITS (lower W.BITS count) }
    ensures spare { buf.new.spare + (3 * count - 1) ≡ buf.old.spare }
{
    let low = low_row::<W>();
    for bit in 0..count {
        emit_below::<W>(buf, &[low], &ONE_ON, MORE_ROW, bit, bit);
    }
}

// The bits below the quotient: the last one, and whether a lower one is 1.
fn emit_left_over<W: Width>(buf: &mut MicroBuf)
    requires room { left_length W.BITS ≤ buf.old.spare }
    ensures ops { buf.new.ops ≡ buf.old.ops ++ micros W.BITS (left_over W.BITS) }
    ensures spare { buf.new.spare + left_length W.BITS ≡ buf.old.spare }
{
    let below = W::BITS as u8 - 2;
    emit_clear(buf, LAST_ROW);
    emit_below::<W>(buf, &[low_row::<W>()], &ONE_ON, LAST_ROW, below, below);
    emit_clear(buf, MORE_ROW);
    emit_lower::<W>(buf, below);
}

// What a mode adds to the quotient, which stands in the moved row.
pub(crate) fn emit_rounding<W: Width>(buf: &mut MicroBuf, mode: u8)
    requires mode { mode ≤ 3 }
    requires room { rounding_length mode W.BITS ≤ buf.old.spare }
    ensures ops { buf.new.ops ≡ buf.old.ops ++ micros W.BITS (rounding mode W.BITS) }
    ensures spare { buf.new.spare + rounding_length mode W.BITS ≡ buf.old.spare }
{
    if mode != DOWN {
        emit_left_over::<W>(buf);
        emit_mode::<W>(buf, mode, MOVED_ROW, LAST_ROW, MORE_ROW);
    }
}

// Where the rounded quotient stands.
pub(crate) fn quotient_row(mode: u8) -> u8
    ensures role { result ≡ rounded_row mode }
    ensures row { result < 64 }
{
    if mode == DOWN { MOVED_ROW } else { RESULT_ROW }
}

// The flag that the quotient is too large, into every bit of its row.
pub(crate) fn emit_flagging<W: Width>(buf: &mut MicroBuf)
    requires room { 3 * W.BITS + 1 ≤ buf.old.spare }
    ensures ops { buf.new.ops ≡ buf.old.ops ++ micros W.BITS (flagging W.BITS) }
    ensures spare { buf.new.spare + (3 * W.BITS + 1) ≡ buf.old.spare }
{
    let last = W::BITS as u8 - 1;
    emit_clear(buf, OVERFLOW_ROW);
    emit_above::<W>(
        buf,
        &[CORRECTED_ROW, MOVED_ROW],
        &SECOND_ON,
        OVERFLOW_ROW,
        last,
        0,
    );
    emit_downs::<W>(buf, OVERFLOW_ROW, last);
}

// The number of the row `from`, or the largest one where the flag is 1.
pub(crate) fn emit_clipping<W: Width>(buf: &mut MicroBuf, from: u8)
    requires row { from < 64 }
    requires room { 8 ≤ buf.old.spare }
    ensures ops { buf.new.ops ≡ buf.old.ops ++ micros W.BITS (clipping W.BITS from) }
    ensures spare { buf.new.spare + 8 ≡ buf.old.spare }
{
    let last = W::BITS as u8 - 1;
    let below = BitRange {
        from: 0,
        to: last,
        up: true,
        times: 0,
    };
    emit_clear(buf, CLIPPED_ROW);
    emit_rows::<W>(buf, &[from, OVERFLOW_ROW], &EITHER_ON, CLIPPED_ROW, below);
    emit_above::<W>(buf, &[from, OVERFLOW_ROW], &ONE_ON, CLIPPED_ROW, last, 0);
}

// A look for an active element whose flag is 1.
pub(crate) fn emit_test<W: Width>(buf: &mut MicroBuf)
    requires room { 2 ≤ buf.old.spare }
    ensures ops { buf.new.ops ≡ buf.old.ops ++ clip_test W.BITS overflow_row }
    ensures spare { buf.new.spare + 2 ≡ buf.old.spare }
{
    let subs = lanes::<W>(0, 1);
    let Some(keys) = Keys::new(&[(ACTIVE_ROW, true), (OVERFLOW_ROW, true)]) else {
        unreachable!();
    };
    buf.push(MicroOp::Search {
        subs,
        keys,
        join: false,
    });
    buf.push(MicroOp::Count {
        subs,
        bit: 0,
        how: How::Clip,
    });
}
