// What a shift that rounds keeps of the bits that go out: the last one, and whether one below it is 1.
// Both stand at the lowest bit of each element.
ghost use Rattle.std.specs.Prelude.{◌≡◌, ◌+◌, ◌-◌, ◌*◌, ◌<◌, ◌≤◌, ◌++◌};
ghost use Rattle.micro_ir.specs.Steps.{micros};
ghost use Rattle.gen_shift.specs.Lists.{keeping, outs, starting, strays};
ghost use Rattle.gen_shift.specs.Kinds.{out_length, start_length};

use crate::rows::{LAST_ROW, MORE_ROW, last_row, shift_row};
use bit_laws::Width;
use micro_ir::{BROADCAST_ROW, MicroBuf, emit_above, emit_below, emit_clear};

// The value of two rows whose bits are 1, and that where the second one's alone is.
const BOTH_ON: [u8; 1] = [3];

const SECOND_ON: [u8; 1] = [2];

// Nothing is out yet, where it is kept.
pub(crate) fn emit_starting<W: Width>(buf: &mut MicroBuf, keeps: bool)
    requires room { start_length keeps ≤ buf.old.spare }
    ensures ops { buf.new.ops ≡ buf.old.ops ++ micros W.BITS (starting keeps W.BITS) }
    ensures spare { buf.new.spare + start_length keeps ≡ buf.old.spare }
{
    if keeps {
        emit_clear(buf, MORE_ROW);
        emit_clear(buf, LAST_ROW);
    }
}

// The lowest bits of the row `former`, as many as `count`, into the row of the bits below the last one,
// where a bit of the amount is 1.
fn emit_strays<W: Width>(buf: &mut MicroBuf, former: u8, count: u8)
    requires former { former < 64 }
    requires count { count ≤ W.BITS }
    requires room { 3 * count - 1 ≤ buf.old.spare }
    ensures ops { buf.new.ops ≡ buf.old.ops ++ micros W.BITS (strays former count) }
    ensures spare { buf.new.spare + (3 * count - 1) ≡ buf.old.spare }
{
    for bit in 0..count {
        emit_below::<W>(buf, &[BROADCAST_ROW, former], &BOTH_ON, MORE_ROW, bit, bit);
    }
}

// What goes out at a stage of so many places.
fn emit_outs<W: Width>(buf: &mut MicroBuf, odd: bool, by: u8)
    requires some { 0 < by }
    requires by { by < W.BITS }
    requires room { 3 * by + 5 ≤ buf.old.spare }
    ensures ops { buf.new.ops ≡ buf.old.ops ++ micros W.BITS (outs W.BITS odd by) }
    ensures spare { buf.new.spare + (3 * by + 5) ≡ buf.old.spare }
{
    let former = shift_row(odd);
    let last = last_row(odd);
    let next = last_row(!odd);
    let top = by - 1;
    emit_above::<W>(buf, &[BROADCAST_ROW, last], &BOTH_ON, MORE_ROW, 0, 0);
    emit_strays::<W>(buf, former, top);
    emit_clear(buf, next);
    emit_below::<W>(buf, &[BROADCAST_ROW, former], &BOTH_ON, next, top, top);
    emit_above::<W>(buf, &[BROADCAST_ROW, last], &SECOND_ON, next, 0, 0);
}

// The same, where it is kept.
pub(crate) fn emit_keeping<W: Width>(buf: &mut MicroBuf, odd: bool, by: u8, keeps: bool)
    requires some { 0 < by }
    requires by { by < W.BITS }
    requires room { out_length keeps by ≤ buf.old.spare }
    ensures ops { buf.new.ops ≡ buf.old.ops ++ micros W.BITS (keeping keeps W.BITS odd by) }
    ensures spare { buf.new.spare + out_length keeps by ≡ buf.old.spare }
{
    if keeps {
        emit_outs::<W>(buf, odd, by);
    }
}
