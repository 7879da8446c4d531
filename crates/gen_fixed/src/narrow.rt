// The lists of clips of numbers that are twice as wide as their results.
ghost use Rattle.std.specs.Prelude.{◌≡◌, ◌≢◌, ℕ, false, ◌+◌, ◌-◌, ◌*◌, ◌<◌, ◌≤◌, ◌++◌};
ghost use Rattle.micro_ir.specs.Measures.{counts, Measured};
ghost use Rattle.micro_ir.specs.Steps.{micros};
ghost use Rattle.gen_shift.specs.Rows.{is_among};
ghost use Rattle.row_views.specs.Clips.{ClipsWhere, clip_test};
ghost use Rattle.gen_fixed.specs.Lists.{high_bits, differing, clipping_unsigned, clipping_signed};
ghost use Rattle.gen_fixed.specs.Kinds.{clip_ops, clip_counts, clip_length, row_tells};
ghost use Rattle.gen_fixed.specs.Laws.{LeavesClipped, LeavesFlag, LeavesRows, clip_rows};

use crate::kinds::Clipping;
use crate::parts::{emit_bounded, emit_test};
use crate::rows::{CLIPPED_ROW, OVERFLOW_ROW};
use bit_laws::Width;
use micro_ir::{
    BROADCAST_ROW, MicroBuf, Place, emit_below, emit_broadcast, emit_clear, emit_downs,
    emit_everywhere,
};

// The value of one row whose bit is 1, the values of two rows whose bits differ, and those of two rows
// of which one bit is 1.
const ONE_ON: [u8; 1] = [1];

const UNLIKE: [u8; 2] = [1, 2];

const EITHER: [u8; 3] = [1, 2, 3];

// Whether one of the `bits` high bits of a row is 1, into the highest of the low bits of the overflow.
fn emit_high<L: Width>(buf: &mut MicroBuf, bits: u8, row: u8)
    requires wide { L.BITS ≡ 2 * bits }
    requires few { bits ≤ 16 }
    requires row { row < 64 }
    requires room { 3 * bits ≤ buf.old.spare }
    ensures ops { buf.new.ops ≡ buf.old.ops ++ micros L.BITS (high_bits row bits bits) }
    ensures spare { buf.new.spare + 3 * bits ≡ buf.old.spare }
{
    for done in 0..bits {
        emit_below::<L>(buf, &[row], &ONE_ON, OVERFLOW_ROW, bits + done, done + 1);
    }
}

// Whether the highest of the low bits of a row, or one of the high bits, differs from the sign, into
// the highest of the low bits of the overflow.
fn emit_differing<L: Width>(buf: &mut MicroBuf, bits: u8, row: u8)
    requires wide { L.BITS ≡ 2 * bits }
    requires few { bits ≤ 16 }
    requires row { row < 64 }
    requires room { 4 * bits - 1 ≤ buf.old.spare }
    ensures ops { buf.new.ops ≡ buf.old.ops ++ micros L.BITS (differing row (bits - 1) bits) }
    ensures spare { buf.new.spare + (4 * bits - 1) ≡ buf.old.spare }
{
    let inputs = [row, BROADCAST_ROW];
    for done in 0..bits {
        emit_below::<L>(buf, &inputs, &UNLIKE, OVERFLOW_ROW, bits - 1 + done, done);
    }
}

// The clip of numbers without a sign.
fn emit_clip_unsigned<L: Width>(buf: &mut MicroBuf, bits: u8, row: u8)
    requires wide { L.BITS ≡ 2 * bits }
    requires few { bits ≤ 16 }
    requires row { row < 64 }
    requires room { 6 * bits + 5 ≤ buf.old.spare }
    ensures ops { buf.new.ops ≡ buf.old.ops ++ micros (2 * bits) (clipping_unsigned bits row) }
    ensures spare { buf.new.spare + (6 * bits + 5) ≡ buf.old.spare }
{
    emit_clear(buf, OVERFLOW_ROW);
    emit_high::<L>(buf, bits, row);
    emit_downs::<L>(buf, OVERFLOW_ROW, bits - 1);
    emit_clear(buf, CLIPPED_ROW);
    emit_everywhere(buf, &[row, OVERFLOW_ROW], &EITHER, CLIPPED_ROW);
}

// The clip of numbers with a sign.
fn emit_clip_signed<L: Width>(buf: &mut MicroBuf, bits: u8, row: u8)
    requires wide { L.BITS ≡ 2 * bits }
    requires few { bits ≤ 16 }
    requires row { row < 64 }
    requires apart { row ≢ 37 }
    requires room { 13 * bits + 11 ≤ buf.old.spare }
    ensures ops { buf.new.ops ≡ buf.old.ops ++ micros (2 * bits) (clipping_signed bits row) }
    ensures spare { buf.new.spare + (13 * bits + 11) ≡ buf.old.spare }
{
    emit_broadcast::<L>(buf, row, L::BITS as u8 - 1);
    emit_clear(buf, OVERFLOW_ROW);
    emit_differing::<L>(buf, bits, row);
    emit_downs::<L>(buf, OVERFLOW_ROW, bits - 1);
    emit_bounded::<L>(buf, bits, row, CLIPPED_ROW);
}

/// Appends what clips the numbers of a row, each of twice `bits` bits, to `bits` bits: the row
/// `CLIPPED_ROW` gets them in the low half of each element, and the row `OVERFLOW_ROW` ones in the low
/// half of those that were clipped, active or not (vector extension 1.0, section 12.5). The row is none
/// of these two, nor the one of broadcasts. No other row changes. There are no errors.
pub fn emit_clipping<L: Width>(buf: &mut MicroBuf, bits: u8, row: u8, kind: Clipping)
    requires wide { L.BITS ≡ 2 * bits }
    requires few { bits ≤ 16 }
    requires row { row < 64 }
    requires apart { is_among clip_rows row ≡ false }
    requires room { clip_length kind bits ≤ buf.old.spare }
    ensures ops { buf.new.ops ≡ buf.old.ops ++ clip_ops kind bits row }
    ensures spare { buf.new.spare + clip_length kind bits ≡ buf.old.spare }
    ensures leaves { LeavesClipped kind bits row }
    ensures flags { LeavesFlag kind bits row }
    ensures cost { Measured (clip_counts kind bits) (clip_length kind bits) (clip_ops kind bits row) }
{
    match kind {
        Clipping::Clipu => emit_clip_unsigned::<L>(buf, bits, row),
        Clipping::Clip => emit_clip_signed::<L>(buf, bits, row),
    }
}

/// Appends what looks for an active element whose lowest bit of row `at.a` is 1, and then sets the clip
/// flag (vector extension 1.0, section 3.9). No row changes. There are no errors.
pub fn emit_sat<W: Width>(buf: &mut MicroBuf, at: &Place)
    requires a { at.now.a < 64 }
    requires apart { at.now.a ≢ 32 }
    requires room { 2 ≤ buf.old.spare }
    ensures ops { buf.new.ops ≡ buf.old.ops ++ clip_test W.BITS at.now.a }
    ensures spare { buf.new.spare + 2 ≡ buf.old.spare }
    ensures rows { LeavesRows (clip_test W.BITS at.now.a) }
    ensures clips { ClipsWhere W.BITS (λ n. row_tells (n at.now.a)) (clip_test W.BITS at.now.a) }
    ensures cost { Measured (counts 1 0 0) 2 (clip_test W.BITS at.now.a) }
{
    emit_test::<W>(buf, at.a);
}
