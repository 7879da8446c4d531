// Signs: numbers without theirs are divided, and the quotient or the remainder gets its own.
ghost use Rattle.std.specs.Prelude.{◌≡◌, ◌+◌, ◌-◌, ◌*◌, ◌<◌, ◌≤◌, ◌++◌};
ghost use Rattle.micro_ir.specs.Steps.{micros};
ghost use Rattle.gen_div.specs.Rows.{IsSignedRow};
ghost use Rattle.gen_div.specs.Lists.{negating, by_sign, magnitudes, gathering, quotient_signs, nonzero_row};
ghost use Rattle.gen_div.specs.Kinds.{negating_length, by_sign_length, magnitudes_length, gathering_length, signs_length};

use crate::rounds::emit_dividing;
use crate::rows::NONZERO_ROW;
use bit_laws::Width;
use micro_ir::{
    BROADCAST_ROW, CARRY_ROW, LEFT_ROW, MicroBuf, RIGHT_ROW, emit_above, emit_broadcast,
    emit_clear, emit_downs,
};
use row_sums::emit_ripple;

// The value of one row whose bit is 1.
const ONE_ON: [u8; 1] = [1];

// The values of a bit, a sign and a carry, the bit lowest: one or three are 1, and the carry of the
// carry and the bit, which the sign inverts.
const ODD: [u8; 4] = [1, 2, 4, 7];

const NEGATE: [u8; 2] = [5, 6];

// The values of two bits of which one is 1.
const EITHER: [u8; 3] = [1, 2, 3];

// The values of two signs and of whether lower bits of the divisor are 1, the dividend's sign lowest:
// the quotient is negative. The divisor is not 0 where its sign or a lower bit is 1.
const UNLIKE: [u8; 3] = [2, 5, 6];

// The number of row `x`, or its negative where the broadcast row is 1.
pub(crate) fn emit_negating<W: Width>(buf: &mut MicroBuf, x: u8, out: u8)
    requires x { x < 64 }
    requires out { out < 64 }
    requires room { negating_length W.BITS ≤ buf.old.spare }
    ensures ops { buf.new.ops ≡ buf.old.ops ++ micros W.BITS (negating W.BITS x out) }
    ensures spare { buf.new.spare + negating_length W.BITS ≡ buf.old.spare }
{
    let inputs = [x, BROADCAST_ROW, CARRY_ROW];
    emit_clear(buf, CARRY_ROW);
    emit_above::<W>(buf, &[BROADCAST_ROW], &ONE_ON, CARRY_ROW, 0, 0);
    emit_clear(buf, out);
    emit_ripple::<W>(buf, &inputs, &ODD, &NEGATE, out);
}

// The number of row `x`, or its negative where row `y` is negative.
pub(crate) fn emit_by_sign<W: Width>(buf: &mut MicroBuf, y: u8, x: u8, out: u8)
    requires y { IsSignedRow y }
    requires x { x < 64 }
    requires out { out < 64 }
    requires room { by_sign_length W.BITS ≤ buf.old.spare }
    ensures ops { buf.new.ops ≡ buf.old.ops ++ micros W.BITS (by_sign W.BITS y x out) }
    ensures spare { buf.new.spare + by_sign_length W.BITS ≡ buf.old.spare }
{
    emit_broadcast::<W>(buf, y, W::BITS as u8 - 1);
    emit_negating::<W>(buf, x, out);
}

// The quotient and the remainder of two rows without their signs.
pub(crate) fn emit_magnitudes<W: Width>(buf: &mut MicroBuf, a: u8, b: u8)
    requires a { IsSignedRow a }
    requires b { IsSignedRow b }
    requires room { magnitudes_length W.BITS ≤ buf.old.spare }
    ensures ops { buf.new.ops ≡ buf.old.ops ++ micros W.BITS (magnitudes W.BITS a b) }
    ensures spare { buf.new.spare + magnitudes_length W.BITS ≡ buf.old.spare }
{
    emit_by_sign::<W>(buf, a, a, LEFT_ROW);
    emit_by_sign::<W>(buf, b, b, RIGHT_ROW);
    emit_dividing::<W>(buf, LEFT_ROW, RIGHT_ROW);
}

// Whether bits of row `b` are 1, above each bit.
fn emit_gathering<W: Width>(buf: &mut MicroBuf, b: u8)
    requires b { IsSignedRow b }
    requires room { gathering_length W.BITS ≤ buf.old.spare }
    ensures ops { buf.new.ops
        ≡ buf.old.ops ++ micros W.BITS (gathering nonzero_row b (W.BITS - 1)) }
    ensures spare { buf.new.spare + gathering_length W.BITS ≡ buf.old.spare }
{
    for bit in 0..W::BITS as u8 - 1 {
        emit_above::<W>(buf, &[NONZERO_ROW, b], &EITHER, NONZERO_ROW, bit, 1);
    }
}

// The sign of the quotient into all bits of the broadcast row: it is 0 where the divisor is.
pub(crate) fn emit_quotient_signs<W: Width>(buf: &mut MicroBuf, a: u8, b: u8)
    requires a { IsSignedRow a }
    requires b { IsSignedRow b }
    requires room { signs_length W.BITS ≤ buf.old.spare }
    ensures ops { buf.new.ops ≡ buf.old.ops ++ micros W.BITS (quotient_signs W.BITS a b) }
    ensures spare { buf.new.spare + signs_length W.BITS ≡ buf.old.spare }
{
    let last = W::BITS as u8 - 1;
    emit_clear(buf, NONZERO_ROW);
    emit_gathering::<W>(buf, b);
    emit_clear(buf, BROADCAST_ROW);
    emit_above::<W>(buf, &[a, b, NONZERO_ROW], &UNLIKE, BROADCAST_ROW, last, 0);
    emit_downs::<W>(buf, BROADCAST_ROW, last);
}
