// The stages of a shift: stage k moves by 2^k places where bit k of the amount is 1.
ghost use Rattle.std.specs.Prelude.{◌≡◌, ℕ, ◌+◌, ◌*◌, ◌^◌, ◌<◌, ◌≤◌, ◌++◌};
ghost use Rattle.micro_ir.specs.Steps.{micro, micros};
ghost use Rattle.micro_ir.specs.WorkRows.{IsOperandRow};
ghost use Rattle.gen_shift.specs.Rows.{moved_row, sign_row};
ghost use Rattle.gen_shift.specs.Lists.{filling, goes_up, sign_steps, signing, slide, stage, stages, top_bits};
ghost use Rattle.gen_shift.specs.Kinds.{fill_length, out_length, sign_length, stage_length, stages_length};

use crate::kinds::{Shift, is_left, is_signed, kept_bits};
use crate::outs::emit_keeping;
use crate::rows::{MOVED_ROW, SIGN_ROW, shift_row};
use bit_laws::Width;
use micro_ir::{
    BROADCAST_ROW, BitRange, MicroBuf, emit_above, emit_broadcast, emit_clear, emit_downs,
    emit_everywhere, emit_rows,
};

// The value of one row whose bit is 1.
const ONE_ON: [u8; 1] = [1];

// The values of a bit of the amount and of the moved and the former bit, the amount's lowest, that
// give 1: the moved bit where the amount's is 1, and else the former one.
const MOVED_OR_FORMER: [u8; 4] = [3, 4, 6, 7];

// The sign of row `a` into all bits of the row of the sign.
fn emit_sign<W: Width>(buf: &mut MicroBuf, a: u8)
    requires a { IsOperandRow a }
    requires room { 3 * W.BITS + 1 ≤ buf.old.spare }
    ensures ops { buf.new.ops ≡ buf.old.ops ++ micros W.BITS (sign_steps W.BITS a) }
    ensures spare { buf.new.spare + (3 * W.BITS + 1) ≡ buf.old.spare }
{
    let last = W::BITS as u8 - 1;
    emit_clear(buf, SIGN_ROW);
    emit_above::<W>(buf, &[a], &ONE_ON, SIGN_ROW, last, 0);
    emit_downs::<W>(buf, SIGN_ROW, last);
}

// The same, where the sign comes in.
pub(crate) fn emit_signing<W: Width>(buf: &mut MicroBuf, a: u8, kind: Shift)
    requires a { IsOperandRow a }
    requires room { sign_length kind W.BITS ≤ buf.old.spare }
    ensures ops { buf.new.ops ≡ buf.old.ops ++ micros W.BITS (signing kind W.BITS a) }
    ensures spare { buf.new.spare + sign_length kind W.BITS ≡ buf.old.spare }
{
    if is_signed(kind) {
        emit_sign::<W>(buf, a);
    }
}

// The sign into the highest bits of the moved row.
fn emit_top<W: Width>(buf: &mut MicroBuf, by: u8)
    requires by { by ≤ W.BITS }
    requires room { 2 ≤ buf.old.spare }
    ensures ops { buf.new.ops ≡ buf.old.ops ++ micro W.BITS (top_bits W.BITS sign_row moved_row by) }
    ensures spare { buf.new.spare + 2 ≡ buf.old.spare }
{
    let width = W::BITS as u8;
    let highest = BitRange {
        from: width - by,
        to: width,
        up: true,
        times: 0,
    };
    emit_rows::<W>(buf, &[SIGN_ROW], &ONE_ON, MOVED_ROW, highest);
}

// The same, where the sign comes in.
fn emit_filling<W: Width>(buf: &mut MicroBuf, by: u8, kind: Shift)
    requires by { by ≤ W.BITS }
    requires room { fill_length kind ≤ buf.old.spare }
    ensures ops { buf.new.ops ≡ buf.old.ops ++ micros W.BITS (filling kind W.BITS by) }
    ensures spare { buf.new.spare + fill_length kind ≡ buf.old.spare }
{
    if is_signed(kind) {
        emit_top::<W>(buf, by);
    }
}

// Row `former`, moved by so many places, into the moved row, which is clear.
fn emit_slide<W: Width>(buf: &mut MicroBuf, former: u8, by: u8, kind: Shift)
    requires former { former < 64 }
    requires some { 0 < by }
    requires by { by < W.BITS }
    requires room { 3 ≤ buf.old.spare }
    ensures ops { buf.new.ops
        ≡ buf.old.ops ++ micro W.BITS (slide W.BITS (goes_up kind) former moved_row by) }
    ensures spare { buf.new.spare + 3 ≡ buf.old.spare }
{
    let kept = kept_bits(is_left(kind), W::BITS as u8, by);
    emit_rows::<W>(buf, &[former], &ONE_ON, MOVED_ROW, kept);
}

// A stage that moves by so many places where a bit of row `b` is 1, and keeps what goes out or not.
fn emit_stage<W: Width>(
    buf: &mut MicroBuf,
    b: u8,
    odd: bool,
    bit: u8,
    by: u8,
    kind: Shift,
    keeps: bool,
)
    requires b { IsOperandRow b }
    requires bit { bit < W.BITS }
    requires some { 0 < by }
    requires by { by < W.BITS }
    requires room { stage_length kind W.BITS + out_length keeps by ≤ buf.old.spare }
    ensures ops { buf.new.ops
        ≡ buf.old.ops ++ micros W.BITS (stage kind keeps W.BITS b odd bit by) }
    ensures spare { buf.new.spare + (stage_length kind W.BITS + out_length keeps by)
        ≡ buf.old.spare }
{
    let former = shift_row(odd);
    let next = shift_row(!odd);
    emit_broadcast::<W>(buf, b, bit);
    emit_clear(buf, MOVED_ROW);
    emit_slide::<W>(buf, former, by, kind);
    emit_filling::<W>(buf, by, kind);
    emit_clear(buf, next);
    emit_keeping::<W>(buf, odd, by, keeps);
    emit_everywhere(
        buf,
        &[BROADCAST_ROW, MOVED_ROW, former],
        &MOVED_OR_FORMER,
        next,
    );
}

// All stages of a shift by the low bits of row `b`.
pub(crate) fn emit_stages<W: Width>(buf: &mut MicroBuf, b: u8, kind: Shift, keeps: bool)
    requires b { IsOperandRow b }
    requires room { stages_length kind keeps W.BITS W.LOG ≤ buf.old.spare }
    ensures ops { buf.new.ops ≡ buf.old.ops ++ micros W.BITS (stages kind keeps W.BITS b W.LOG) }
    ensures spare { buf.new.spare + stages_length kind keeps W.BITS W.LOG ≡ buf.old.spare }
{
    for bit in 0..W::LOG as u8 {
        emit_stage::<W>(buf, b, bit % 2 == 1, bit, 1 << bit, kind, keeps);
    }
}
