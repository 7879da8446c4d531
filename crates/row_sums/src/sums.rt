// Sums of rows, which carry from bit to bit.
ghost use Rattle.std.specs.Prelude.{◌≡◌, ◌+◌, ◌<◌, ◌≤◌, ◌++◌, IsTrue, length};
ghost use Rattle.micro_ir.specs.Folding.{are_rows};
ghost use Rattle.micro_ir.specs.Steps.{micros};
ghost use Rattle.micro_ir.specs.WorkRows.{carry_row};
ghost use Rattle.gen_arith.specs.Recipes.{ripple};
ghost use Rattle.row_sums.specs.Sums.{ripple_length, total, total_length};

use bit_laws::Width;
use micro_ir::{CARRY_ROW, MicroBuf, emit_above, emit_clear};

/// Appends the digits of all bits of a sum, in rising order, into the row `out`, each before the
/// carry out of its bit into the row of carries, one bit above. Both are tables of the same rows.
/// There are no errors.
pub fn emit_ripple<W: Width>(
    buf: &mut MicroBuf,
    inputs: &[u8],
    digits: &[u8],
    carries: &[u8],
    out: u8,
)
    requires rows { IsTrue (are_rows inputs.now) }
    requires digits { 0 < length digits.now }
    requires carries { 0 < length carries.now }
    requires out { out < 64 }
    requires room { ripple_length W.BITS digits.now carries.now ≤ buf.old.spare }
    ensures ops { buf.new.ops ≡ buf.old.ops ++ micros W.BITS
        (ripple W.BITS inputs.now digits.now carries.now carry_row out W.BITS) }
    ensures spare { buf.new.spare + ripple_length W.BITS digits.now carries.now ≡ buf.old.spare }
{
    let last = W::BITS as u8 - 1;
    for bit in 0..last {
        emit_above::<W>(buf, inputs, digits, out, bit, 0);
        emit_above::<W>(buf, inputs, carries, CARRY_ROW, bit, 1);
    }
    emit_above::<W>(buf, inputs, digits, out, last, 0);
}

/// Appends the same, from nothing carried in, and the carry out of the highest bit into that bit of
/// the row `top`. The two rows and that of carries are cleared first. There are no errors.
pub fn emit_total<W: Width>(
    buf: &mut MicroBuf,
    inputs: &[u8],
    digits: &[u8],
    carries: &[u8],
    out: u8,
    top: u8,
)
    requires rows { IsTrue (are_rows inputs.now) }
    requires digits { 0 < length digits.now }
    requires carries { 0 < length carries.now }
    requires out { out < 64 }
    requires top { top < 64 }
    requires room { total_length W.BITS digits.now carries.now ≤ buf.old.spare }
    ensures ops { buf.new.ops ≡ buf.old.ops ++ micros W.BITS
        (total W.BITS inputs.now digits.now carries.now out top) }
    ensures spare { buf.new.spare + total_length W.BITS digits.now carries.now ≡ buf.old.spare }
{
    emit_clear(buf, CARRY_ROW);
    emit_clear(buf, out);
    emit_clear(buf, top);
    emit_ripple::<W>(buf, inputs, digits, carries, out);
    emit_above::<W>(buf, inputs, carries, top, W::BITS as u8 - 1, 0);
}
