// The product of two rows without a sign: round j adds the first where bit j of the second is 1, and
// moves the sum down by one place into two halves.
ghost use Rattle.std.specs.Prelude.{◌≡◌, not, ◌+◌, ◌*◌, ◌<◌, ◌≤◌, ◌++◌};
ghost use Rattle.micro_ir.specs.Steps.{micros};
ghost use Rattle.micro_ir.specs.WorkRows.{IsOperandRow};
ghost use Rattle.row_sums.specs.Sums.{half_role};
ghost use Rattle.gen_mul.specs.Lists.{product_round, product_rounds, multiplying};
ghost use Rattle.gen_mul.specs.Kinds.{round_length, multiplying_length};

use crate::rows::HIGH_ROW;
use bit_laws::Width;
use micro_ir::{BROADCAST_ROW, CARRY_ROW, MicroBuf, TRUTH_ROW, emit_broadcast, emit_clear};
use row_sums::{HALF_ROW, TOTAL_ROW, emit_halved, emit_total, half_row};

// The values of a carry, a bit and two bits that count together where both are 1, the carry lowest,
// that give 1: one or three of the three are 1, two or three are, and the borrow of the bit less the
// two.
pub(crate) const GATED_SUM: [u8; 8] = [1, 2, 5, 6, 9, 10, 12, 15];

const GATED_CARRY: [u8; 6] = [3, 7, 11, 13, 14, 15];

pub(crate) const GATED_BORROW: [u8; 6] = [1, 5, 9, 12, 13, 15];

// A round, by one bit of row `b`.
fn emit_round<W: Width>(buf: &mut MicroBuf, a: u8, b: u8, odd: bool, bit: u8)
    requires a { IsOperandRow a }
    requires b { IsOperandRow b }
    requires bit { bit < W.BITS }
    requires room { round_length W.BITS ≤ buf.old.spare }
    ensures ops { buf.new.ops ≡ buf.old.ops ++ micros W.BITS
        (product_round W.BITS a b (half_role odd) (half_role (not odd)) bit) }
    ensures spare { buf.new.spare + round_length W.BITS ≡ buf.old.spare }
{
    let last = W::BITS as u8 - 1;
    let inputs = [CARRY_ROW, HIGH_ROW, a, BROADCAST_ROW];
    emit_broadcast::<W>(buf, b, bit);
    emit_total::<W>(buf, &inputs, &GATED_SUM, &GATED_CARRY, TOTAL_ROW, TRUTH_ROW);
    emit_halved::<W>(buf, TOTAL_ROW, HIGH_ROW, TRUTH_ROW, last, 0);
    emit_halved::<W>(buf, half_row(odd), half_row(!odd), TOTAL_ROW, 0, last);
}

// All rounds, by the bits of row `b` in rising order.
fn emit_rounds<W: Width>(buf: &mut MicroBuf, a: u8, b: u8)
    requires a { IsOperandRow a }
    requires b { IsOperandRow b }
    requires room { W.BITS * round_length W.BITS ≤ buf.old.spare }
    ensures ops { buf.new.ops ≡ buf.old.ops ++ micros W.BITS (product_rounds W.BITS a b W.BITS) }
    ensures spare { buf.new.spare + W.BITS * round_length W.BITS ≡ buf.old.spare }
{
    for bit in 0..W::BITS as u8 {
        emit_round::<W>(buf, a, b, bit % 2 == 1, bit);
    }
}

// The product of two rows, in two halves.
pub(crate) fn emit_multiplying<W: Width>(buf: &mut MicroBuf, a: u8, b: u8)
    requires a { IsOperandRow a }
    requires b { IsOperandRow b }
    requires room { multiplying_length W.BITS ≤ buf.old.spare }
    ensures ops { buf.new.ops ≡ buf.old.ops ++ micros W.BITS (multiplying W.BITS a b) }
    ensures spare { buf.new.spare + multiplying_length W.BITS ≡ buf.old.spare }
{
    emit_clear(buf, HIGH_ROW);
    emit_clear(buf, HALF_ROW);
    emit_rounds::<W>(buf, a, b);
}
