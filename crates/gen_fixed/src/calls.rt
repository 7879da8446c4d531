// A call for each kind: a row of the tables of averages, of sums and differences that are clipped, and
// of clips.
ghost use Rattle.std.specs.Prelude.{◌≡◌, ◌+◌, ◌-◌, ◌*◌, ◌<◌, ◌≤◌, ◌⊎◌, false, ◌++◌};
ghost use Rattle.micro_ir.specs.Measures.{counts, Measured};
ghost use Rattle.micro_ir.specs.WorkRows.{IsOperandRow};
ghost use Rattle.gen_shift.specs.Rows.{is_among};
ghost use Rattle.gen_fixed.specs.declared.kinds.Average.TheVariants.{Avgu, Avg};
ghost use Rattle.gen_fixed.specs.declared.kinds.Saturating.TheVariants.{Saddu, Sadd, Ssubu, Ssub};
ghost use Rattle.gen_fixed.specs.declared.kinds.Clipping.TheVariants.{Clipu, Clip};
ghost use Rattle.gen_fixed.specs.Kinds.{average_ops, average_counts, average_length, saturating_ops, saturating_counts, clip_ops, clip_counts, clip_length};
ghost use Rattle.gen_fixed.specs.Laws.{RealisesAverage, RealisesSaturating, ClipsSaturating, LeavesClipped, LeavesFlag, clip_rows};

use crate::kinds::{Average, Clipping, Saturating};
use crate::lists::{emit_average, emit_saturating};
use crate::narrow::emit_clipping;
use bit_laws::{W16, W32, Width};
use micro_ir::{MicroBuf, Place};

/// Half of the sum of two rows, or of their difference where `at.sub`, without a sign and rounded by
/// `at.mode`, into the active elements of a register (vector extension 1.0, section 12.2).
pub fn emit_avgu<W: Width>(buf: &mut MicroBuf, at: &Place)
    requires a { IsOperandRow at.now.a }
    requires b { IsOperandRow at.now.b }
    requires to { at.now.to < 32 }
    requires room { average_length at.now.mode W.BITS ≤ buf.old.spare }
    ensures ops { buf.new.ops ≡ buf.old.ops ++ average_ops Avgu W.BITS at.now }
    ensures spare { buf.new.spare + average_length at.now.mode W.BITS ≡ buf.old.spare }
    ensures realises { RealisesAverage Avgu W.BITS at.now }
    ensures cost { Measured (average_counts at.now.mode W.BITS)
        (average_length at.now.mode W.BITS) (average_ops Avgu W.BITS at.now) }
{
    emit_average::<W>(buf, at, Average::Avgu);
}

/// The same with a sign (vector extension 1.0, section 12.2).
pub fn emit_avg<W: Width>(buf: &mut MicroBuf, at: &Place)
    requires a { IsOperandRow at.now.a }
    requires b { IsOperandRow at.now.b }
    requires to { at.now.to < 32 }
    requires room { average_length at.now.mode W.BITS ≤ buf.old.spare }
    ensures ops { buf.new.ops ≡ buf.old.ops ++ average_ops Avg W.BITS at.now }
    ensures spare { buf.new.spare + average_length at.now.mode W.BITS ≡ buf.old.spare }
    ensures realises { RealisesAverage Avg W.BITS at.now }
    ensures cost { Measured (average_counts at.now.mode W.BITS)
        (average_length at.now.mode W.BITS) (average_ops Avg W.BITS at.now) }
{
    emit_average::<W>(buf, at, Average::Avg);
}

/// The sum of two rows without a sign, clipped, into the active elements of a register; the clip
/// flag is set where one of these was clipped (vector extension 1.0, section 12.1).
pub fn emit_saddu<W: Width>(buf: &mut MicroBuf, at: &Place)
    requires a { IsOperandRow at.now.a }
    requires b { IsOperandRow at.now.b }
    requires to { at.now.to < 32 }
    requires room { 14 * W.BITS + 14 ≤ buf.old.spare }
    ensures ops { buf.new.ops ≡ buf.old.ops ++ saturating_ops Saddu W.BITS at.now }
    ensures spare { buf.new.spare + (14 * W.BITS + 14) ≡ buf.old.spare }
    ensures realises { RealisesSaturating Saddu W.BITS at.now }
    ensures clips { ClipsSaturating Saddu W.BITS at.now }
    ensures cost { Measured (saturating_counts Saddu W.BITS) (14 * W.BITS + 14) (saturating_ops Saddu W.BITS at.now) }
{
    emit_saturating::<W>(buf, at, Saturating::Saddu);
}

/// The sum of two rows with a sign, clipped, into the active elements of a register; the clip
/// flag is set where one of these was clipped (vector extension 1.0, section 12.1).
pub fn emit_sadd<W: Width>(buf: &mut MicroBuf, at: &Place)
    requires a { IsOperandRow at.now.a }
    requires b { IsOperandRow at.now.b }
    requires to { at.now.to < 32 }
    requires room { 17 * W.BITS + 19 ≤ buf.old.spare }
    ensures ops { buf.new.ops ≡ buf.old.ops ++ saturating_ops Sadd W.BITS at.now }
    ensures spare { buf.new.spare + (17 * W.BITS + 19) ≡ buf.old.spare }
    ensures realises { RealisesSaturating Sadd W.BITS at.now }
    ensures clips { ClipsSaturating Sadd W.BITS at.now }
    ensures cost { Measured (saturating_counts Sadd W.BITS) (17 * W.BITS + 19) (saturating_ops Sadd W.BITS at.now) }
{
    emit_saturating::<W>(buf, at, Saturating::Sadd);
}

/// The difference of two rows without a sign, clipped, into the active elements of a register; the clip
/// flag is set where one of these was clipped (vector extension 1.0, section 12.1).
pub fn emit_ssubu<W: Width>(buf: &mut MicroBuf, at: &Place)
    requires a { IsOperandRow at.now.a }
    requires b { IsOperandRow at.now.b }
    requires to { at.now.to < 32 }
    requires room { 14 * W.BITS + 12 ≤ buf.old.spare }
    ensures ops { buf.new.ops ≡ buf.old.ops ++ saturating_ops Ssubu W.BITS at.now }
    ensures spare { buf.new.spare + (14 * W.BITS + 12) ≡ buf.old.spare }
    ensures realises { RealisesSaturating Ssubu W.BITS at.now }
    ensures clips { ClipsSaturating Ssubu W.BITS at.now }
    ensures cost { Measured (saturating_counts Ssubu W.BITS) (14 * W.BITS + 12) (saturating_ops Ssubu W.BITS at.now) }
{
    emit_saturating::<W>(buf, at, Saturating::Ssubu);
}

/// The difference of two rows with a sign, clipped, into the active elements of a register; the clip
/// flag is set where one of these was clipped (vector extension 1.0, section 12.1).
pub fn emit_ssub<W: Width>(buf: &mut MicroBuf, at: &Place)
    requires a { IsOperandRow at.now.a }
    requires b { IsOperandRow at.now.b }
    requires to { at.now.to < 32 }
    requires room { 17 * W.BITS + 19 ≤ buf.old.spare }
    ensures ops { buf.new.ops ≡ buf.old.ops ++ saturating_ops Ssub W.BITS at.now }
    ensures spare { buf.new.spare + (17 * W.BITS + 19) ≡ buf.old.spare }
    ensures realises { RealisesSaturating Ssub W.BITS at.now }
    ensures clips { ClipsSaturating Ssub W.BITS at.now }
    ensures cost { Measured (saturating_counts Ssub W.BITS) (17 * W.BITS + 19) (saturating_ops Ssub W.BITS at.now) }
{
    emit_saturating::<W>(buf, at, Saturating::Ssub);
}

/// The numbers without a sign of row `at.a`, each twice as wide as an element of this width, clipped to it:
/// the row `CLIPPED_ROW` gets them in the low half of each wide element, and the row `OVERFLOW_ROW` ones
/// in the low half of those that were clipped, active or not (vector extension 1.0, section 12.5). The
/// width is 8 or 16. No other row changes but the one of broadcasts.
pub fn emit_clipu<W: Width>(buf: &mut MicroBuf, at: &Place)
    requires width { (W.BITS ≡ 8) ⊎ (W.BITS ≡ 16) }
    requires a { at.now.a < 64 }
    requires apart { is_among clip_rows at.now.a ≡ false }
    requires room { 6 * W.BITS + 5 ≤ buf.old.spare }
    ensures ops { buf.new.ops ≡ buf.old.ops ++ clip_ops Clipu W.BITS at.now.a }
    ensures spare { buf.new.spare + (6 * W.BITS + 5) ≡ buf.old.spare }
    ensures leaves { LeavesClipped Clipu W.BITS at.now.a }
    ensures flags { LeavesFlag Clipu W.BITS at.now.a }
    ensures cost { Measured (clip_counts Clipu W.BITS) (6 * W.BITS + 5) (clip_ops Clipu W.BITS at.now.a) }
{
    emit_narrow::<W>(buf, at.a, Clipping::Clipu);
}

/// The numbers with a sign of row `at.a`, each twice as wide as an element of this width, clipped to it:
/// the row `CLIPPED_ROW` gets them in the low half of each wide element, and the row `OVERFLOW_ROW` ones
/// in the low half of those that were clipped, active or not (vector extension 1.0, section 12.5). The
/// width is 8 or 16. No other row changes but the one of broadcasts.
pub fn emit_clip<W: Width>(buf: &mut MicroBuf, at: &Place)
    requires width { (W.BITS ≡ 8) ⊎ (W.BITS ≡ 16) }
    requires a { at.now.a < 64 }
    requires apart { is_among clip_rows at.now.a ≡ false }
    requires room { 13 * W.BITS + 11 ≤ buf.old.spare }
    ensures ops { buf.new.ops ≡ buf.old.ops ++ clip_ops Clip W.BITS at.now.a }
    ensures spare { buf.new.spare + (13 * W.BITS + 11) ≡ buf.old.spare }
    ensures leaves { LeavesClipped Clip W.BITS at.now.a }
    ensures flags { LeavesFlag Clip W.BITS at.now.a }
    ensures cost { Measured (clip_counts Clip W.BITS) (13 * W.BITS + 11) (clip_ops Clip W.BITS at.now.a) }
{
    emit_narrow::<W>(buf, at.a, Clipping::Clip);
}

// A clip by the width of its results.
fn emit_narrow<W: Width>(buf: &mut MicroBuf, row: u8, kind: Clipping)
    requires width { (W.BITS ≡ 8) ⊎ (W.BITS ≡ 16) }
    requires row { row < 64 }
    requires apart { is_among clip_rows row ≡ false }
    requires room { clip_length kind W.BITS ≤ buf.old.spare }
    ensures ops { buf.new.ops ≡ buf.old.ops ++ clip_ops kind W.BITS row }
    ensures spare { buf.new.spare + clip_length kind W.BITS ≡ buf.old.spare }
    ensures leaves { LeavesClipped kind W.BITS row }
    ensures flags { LeavesFlag kind W.BITS row }
    ensures cost { Measured (clip_counts kind W.BITS) (clip_length kind W.BITS) (clip_ops kind W.BITS row) }
{
    if W::BITS == 8 {
        emit_clipping::<W16>(buf, 8, row, kind);
    } else {
        emit_clipping::<W32>(buf, 16, row, kind);
    }
}
