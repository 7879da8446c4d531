// The division of two rows without signs: a round takes the dividend's next bit into the remainder,
// and takes the divisor from it where it fits.
ghost use Rattle.std.specs.Prelude.{◌≡◌, not, ◌+◌, ◌*◌, ◌<◌, ◌≤◌, ◌++◌};
ghost use Rattle.micro_ir.specs.Steps.{micros};
ghost use Rattle.micro_ir.specs.WorkRows.{IsOperandRow};
ghost use Rattle.row_sums.specs.Sums.{half_role};
ghost use Rattle.gen_div.specs.Lists.{entering, choosing, division_round, division_rounds, dividing};
ghost use Rattle.gen_div.specs.Kinds.{choosing_length, round_length, dividing_length};

use crate::rows::{BORROW_ROW, MOVED_ROW, REST_ROW};
use bit_laws::Width;
use micro_ir::{
    BROADCAST_ROW, CARRY_ROW, MicroBuf, TRUTH_ROW, emit_above, emit_clear, emit_downs,
    emit_everywhere,
};
use row_sums::{HALF_ROW, TOTAL_ROW, emit_doubled, emit_moved, emit_total, half_row};

// The value of one row whose bit is 1.
const ONE_ON: [u8; 1] = [1];

// The values of two bits and a carry, the carry highest, of which one or three are 1, and those of the
// borrow of the first less the second.
const ODD: [u8; 4] = [1, 2, 4, 7];

const BORROW: [u8; 4] = [2, 4, 6, 7];

// The values of the bit that left the remainder and of the borrow of the divisor: the divisor fits.
const FITS: [u8; 3] = [0, 1, 3];

// The values of a bit and two others, the first lowest, that give 1: the second where the first is 1,
// and else the third.
const SECOND_OR_THIRD: [u8; 4] = [3, 4, 6, 7];

// The dividend's next bit into the remainder, and what is left of the dividend above a clear bit.
fn emit_entering<W: Width>(buf: &mut MicroBuf, former: u8, next: u8)
    requires former { former < 64 }
    requires next { next < 64 }
    requires room { 17 ≤ buf.old.spare }
    ensures ops { buf.new.ops ≡ buf.old.ops ++ micros W.BITS (entering W.BITS former next) }
    ensures spare { buf.new.spare + 17 ≡ buf.old.spare }
{
    emit_doubled::<W>(buf, REST_ROW, MOVED_ROW, former);
    emit_clear(buf, TRUTH_ROW);
    emit_above::<W>(buf, &[REST_ROW], &ONE_ON, TRUTH_ROW, W::BITS as u8 - 1, 0);
    emit_moved::<W>(buf, former, next, true);
}

// Whether the divisor fits, in all bits of the broadcast row, and the remainder that is left.
fn emit_choosing<W: Width>(buf: &mut MicroBuf, next: u8)
    requires next { next < 64 }
    requires room { choosing_length W.BITS ≤ buf.old.spare }
    ensures ops { buf.new.ops ≡ buf.old.ops ++ micros W.BITS (choosing W.BITS next) }
    ensures spare { buf.new.spare + choosing_length W.BITS ≡ buf.old.spare }
{
    let last = W::BITS as u8 - 1;
    let inputs = [BROADCAST_ROW, TOTAL_ROW, MOVED_ROW];
    emit_clear(buf, BROADCAST_ROW);
    emit_above::<W>(buf, &[TRUTH_ROW, BORROW_ROW], &FITS, BROADCAST_ROW, last, 0);
    emit_downs::<W>(buf, BROADCAST_ROW, last);
    emit_clear(buf, REST_ROW);
    emit_everywhere(buf, &inputs, &SECOND_OR_THIRD, REST_ROW);
    emit_above::<W>(buf, &[BROADCAST_ROW], &ONE_ON, next, 0, 0);
}

// A round.
fn emit_round<W: Width>(buf: &mut MicroBuf, b: u8, odd: bool)
    requires b { IsOperandRow b }
    requires room { round_length W.BITS ≤ buf.old.spare }
    ensures ops { buf.new.ops ≡ buf.old.ops ++ micros W.BITS
        (division_round W.BITS b (half_role odd) (half_role (not odd))) }
    ensures spare { buf.new.spare + round_length W.BITS ≡ buf.old.spare }
{
    let next = half_row(!odd);
    let inputs = [MOVED_ROW, b, CARRY_ROW];
    emit_entering::<W>(buf, half_row(odd), next);
    emit_total::<W>(buf, &inputs, &ODD, &BORROW, TOTAL_ROW, BORROW_ROW);
    emit_choosing::<W>(buf, next);
}

// All rounds.
fn emit_rounds<W: Width>(buf: &mut MicroBuf, b: u8)
    requires b { IsOperandRow b }
    requires room { W.BITS * round_length W.BITS ≤ buf.old.spare }
    ensures ops { buf.new.ops ≡ buf.old.ops ++ micros W.BITS (division_rounds W.BITS b W.BITS) }
    ensures spare { buf.new.spare + W.BITS * round_length W.BITS ≡ buf.old.spare }
{
    for round in 0..W::BITS as u8 {
        emit_round::<W>(buf, b, round % 2 == 1);
    }
}

// The quotient and the remainder of two rows.
pub(crate) fn emit_dividing<W: Width>(buf: &mut MicroBuf, a: u8, b: u8)
    requires a { IsOperandRow a }
    requires b { IsOperandRow b }
    requires room { dividing_length W.BITS ≤ buf.old.spare }
    ensures ops { buf.new.ops ≡ buf.old.ops ++ micros W.BITS (dividing W.BITS a b) }
    ensures spare { buf.new.spare + dividing_length W.BITS ≡ buf.old.spare }
{
    emit_clear(buf, REST_ROW);
    emit_clear(buf, HALF_ROW);
    emit_everywhere(buf, &[a], &ONE_ON, HALF_ROW);
    emit_rounds::<W>(buf, b);
}
