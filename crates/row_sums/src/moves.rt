// Rows moved by one place inside each element.
ghost use Rattle.std.specs.Prelude.{◌≡◌, true, ◌+◌, ◌-◌, ◌<◌, ◌≤◌, ◌++◌, length};
ghost use Rattle.micro_ir.specs.Steps.{micros, pass_of};
ghost use Rattle.gen_shift.specs.Lists.{move_range};
ghost use Rattle.row_sums.specs.Sums.{shifted_once, halved, doubled};

use bit_laws::Width;
use micro_ir::{BitRange, MicroBuf, emit_above, emit_below, emit_clear, emit_rows};

// The value of one row whose bit is 1.
const ONE_ON: [u8; 1] = [1];

// The bits of an element that a move by one place keeps, and where they go.
fn once(up: bool, width: u8) -> BitRange
    requires { 0 < width }
    ensures { result ≡ move_range up width 1 }
{
    if up {
        BitRange {
            from: 0,
            to: width - 1,
            up: true,
            times: 1,
        }
    } else {
        BitRange {
            from: 1,
            to: width,
            up: false,
            times: 1,
        }
    }
}

/// Appends what puts the row `from`, moved by one place inside each element, into the row `out`,
/// which is cleared first. There are no errors.
pub fn emit_moved<W: Width>(buf: &mut MicroBuf, from: u8, out: u8, up: bool)
    requires from { from < 64 }
    requires out { out < 64 }
    requires room { 5 ≤ buf.old.spare }
    ensures ops { buf.new.ops ≡ buf.old.ops ++ micros W.BITS (shifted_once W.BITS up from out) }
    ensures spare { buf.new.spare + 5 ≡ buf.old.spare }
{
    emit_clear(buf, out);
    emit_rows::<W>(buf, &[from], &ONE_ON, out, once(up, W::BITS as u8));
}

/// Appends what puts the row `from`, moved down by one place, into the row `out`, and into its
/// highest bit the bit `bit` of the row `other`, `times` places below it. There are no errors.
pub fn emit_halved<W: Width>(buf: &mut MicroBuf, from: u8, out: u8, other: u8, bit: u8, times: u8)
    requires from { from < 64 }
    requires out { out < 64 }
    requires other { other < 64 }
    requires bit { bit + times < W.BITS }
    requires room { 7 + length (pass_of true times) ≤ buf.old.spare }
    ensures ops { buf.new.ops
        ≡ buf.old.ops ++ micros W.BITS (halved W.BITS from out other bit times) }
    ensures spare { buf.new.spare + (7 + length (pass_of true times)) ≡ buf.old.spare }
{
    emit_moved::<W>(buf, from, out, false);
    emit_above::<W>(buf, &[other], &ONE_ON, out, bit, times);
}

/// Appends what puts the row `from`, moved up by one place, into the row `out`, and into its lowest
/// bit the highest bit of the row `other`. There are no errors.
pub fn emit_doubled<W: Width>(buf: &mut MicroBuf, from: u8, out: u8, other: u8)
    requires from { from < 64 }
    requires out { out < 64 }
    requires other { other < 64 }
    requires room { 8 ≤ buf.old.spare }
    ensures ops { buf.new.ops ≡ buf.old.ops ++ micros W.BITS (doubled W.BITS from out other) }
    ensures spare { buf.new.spare + 8 ≡ buf.old.spare }
{
    let last = W::BITS as u8 - 1;
    emit_moved::<W>(buf, from, out, true);
    emit_below::<W>(buf, &[other], &ONE_ON, out, last, last);
}
