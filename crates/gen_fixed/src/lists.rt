// The lists of averages and of sums and differences that are clipped: one emitter for each family.
ghost use Rattle.std.specs.Prelude.{◌≡◌, ℕ, true, false, ◌+◌, ◌-◌, ◌*◌, ◌^◌, ◌<◌, ◌≤◌, ◌++◌, IsTrue, length};
ghost use Rattle.cam_chain.specs.KeyPairs.{are_keys, is_new_row, keys_of};
ghost use Rattle.micro_ir.specs.Increments.{step_inputs, lowest_subs};
ghost use Rattle.micro_ir.specs.Measures.{Measured};
ghost use Rattle.micro_ir.specs.Steps.{micros};
ghost use Rattle.micro_ir.specs.Tables.{values_of};
ghost use Rattle.micro_ir.specs.WorkRows.{IsOperandRow};
ghost use Rattle.gen_fixed.specs.declared.kinds.Saturating.{Saturating};
ghost use Rattle.gen_fixed.specs.Lists.{half_rows, half_on, is_down, rounding, average_row, saturating_unsigned, saturating_signed};
ghost use Rattle.gen_fixed.specs.Kinds.{average_ops, average_counts, average_length, rounding_length, saturating, flag_row, saturated_length, saturating_ops, saturating_counts, saturating_length};
ghost use Rattle.gen_fixed.specs.Laws.{RealisesAverage, RealisesSaturating, ClipsSaturating};

use crate::kinds::{Average, Saturating, bound, is_less, is_signed, is_signed_average};
use crate::parts::{emit_beyond, emit_bounded, emit_digits, emit_overflow, emit_test};
use crate::rows::OVERFLOW_ROW;
use bit_laws::Width;
use gen_shift::MOVED_ROW;
use micro_ir::{
    CARRY_ROW, MicroBuf, Place, RESULT_ROW, TRUTH_ROW, TableStep, emit_broadcast, emit_clear,
    emit_commit, emit_downs, emit_everywhere, emit_increment, lanes,
};
use row_sums::{TOTAL_ROW, emit_halved};

// The modes that round to the nearest, a tie up or to the even one, and the mode that rounds down
// (vector extension 1.0, section 3.8).
const NEAREST_UP: u8 = 0;

const NEAREST_EVEN: u8 = 1;

const DOWN: u8 = 2;

// The step that makes the bit that a mode adds to half of a total: from the bit that is halved away,
// and from the lowest one of the half.
fn half_step<W: Width>(mode: u8) -> TableStep
    ensures inputs { step_inputs result ≡ half_rows mode }
    ensures values { values_of result.on ≡ half_on mode }
    ensures few { result.n ≤ 4 }
    ensures keys { IsTrue (are_keys (keys_of (step_inputs result) 0)) }
    ensures apart { IsTrue (is_new_row result.out (keys_of (step_inputs result) 0)) }
    ensures small { result.on < 2 ^ 2 ^ result.n }
    ensures out { result.out ≡ 35 }
    ensures lowest { result.subs ≡ lowest_subs W.BITS }
    ensures still { result.times ≡ 0 }
{
    let (n, on) = match mode {
        NEAREST_UP => (1, 1 << 1),
        NEAREST_EVEN => (2, 1 << 3),
        _ => (2, 1 << 1),
    };
    TableStep {
        inputs: [TOTAL_ROW, MOVED_ROW, 0, 0],
        n,
        on,
        out: CARRY_ROW,
        subs: lanes::<W>(0, 1),
        up: true,
        times: 0,
    }
}

// What a mode adds to half of a total, which is rounded down.
fn emit_rounding<W: Width>(buf: &mut MicroBuf, mode: u8)
    requires room { rounding_length mode W.BITS ≤ buf.old.spare }
    ensures ops { buf.new.ops ≡ buf.old.ops ++ micros W.BITS (rounding mode W.BITS) }
    ensures spare { buf.new.spare + rounding_length mode W.BITS ≡ buf.old.spare }
{
    if mode != DOWN {
        let step = half_step::<W>(mode);
        emit_increment::<W>(buf, MOVED_ROW, &step);
    }
}

// Where an average stands before it is committed.
fn averaged_row(mode: u8) -> u8
    ensures row { result ≡ average_row mode }
    ensures below { result < 64 }
    ensures apart { 36 ≤ result }
{
    if mode == DOWN { MOVED_ROW } else { RESULT_ROW }
}

/// Appends what puts half of the sum of rows `at.a` and `at.b`, or of their difference where `at.sub`,
/// rounded by `at.mode`, into the active elements of register `at.to` (vector extension 1.0, section
/// 12.2). An operand row is a register or the row of the mask bits, of the scalar or of a wide operand.
/// There are no errors.
pub fn emit_average<W: Width>(buf: &mut MicroBuf, at: &Place, kind: Average)
    requires a { IsOperandRow at.now.a }
    requires b { IsOperandRow at.now.b }
    requires to { at.now.to < 32 }
    requires room { average_length at.now.mode W.BITS ≤ buf.old.spare }
    ensures ops { buf.new.ops ≡ buf.old.ops ++ average_ops kind W.BITS at.now }
    ensures spare { buf.new.spare + average_length at.now.mode W.BITS ≡ buf.old.spare }
    ensures realises { RealisesAverage kind W.BITS at.now }
    ensures cost { Measured (average_counts at.now.mode W.BITS)
        (average_length at.now.mode W.BITS) (average_ops kind W.BITS at.now) }
{
    let last = W::BITS as u8 - 1;
    emit_beyond::<W>(buf, at.a, at.b, is_signed_average(kind), at.sub);
    emit_halved::<W>(buf, TOTAL_ROW, MOVED_ROW, TRUTH_ROW, last, 0);
    emit_rounding::<W>(buf, at.mode);
    emit_commit(buf, averaged_row(at.mode), at.to);
}

// A sum or a difference without a sign, clipped, in the result row.
fn emit_unsigned<W: Width>(buf: &mut MicroBuf, a: u8, b: u8, sub: bool)
    requires a { IsOperandRow a }
    requires b { IsOperandRow b }
    requires room { saturated_length false sub W.BITS ≤ buf.old.spare }
    ensures ops { buf.new.ops ≡ buf.old.ops ++ micros W.BITS (saturating_unsigned sub W.BITS a b) }
    ensures spare { buf.new.spare + saturated_length false sub W.BITS ≡ buf.old.spare }
{
    emit_beyond::<W>(buf, a, b, false, sub);
    emit_downs::<W>(buf, TRUTH_ROW, W::BITS as u8 - 1);
    emit_clear(buf, RESULT_ROW);
    emit_everywhere(buf, &[TOTAL_ROW, TRUTH_ROW], bound(sub), RESULT_ROW);
}

// A sum or a difference with a sign, clipped, in the result row.
fn emit_signed<W: Width>(buf: &mut MicroBuf, a: u8, b: u8, sub: bool)
    requires a { IsOperandRow a }
    requires b { IsOperandRow b }
    requires room { saturated_length true sub W.BITS ≤ buf.old.spare }
    ensures ops { buf.new.ops ≡ buf.old.ops ++ micros W.BITS (saturating_signed sub W.BITS a b) }
    ensures spare { buf.new.spare + saturated_length true sub W.BITS ≡ buf.old.spare }
{
    let width = W::BITS as u8;
    emit_digits::<W>(buf, a, b, sub);
    emit_overflow::<W>(buf, a, b, sub);
    emit_broadcast::<W>(buf, a, width - 1);
    emit_bounded::<W>(buf, width, TOTAL_ROW, RESULT_ROW);
}

// A sum or a difference, clipped, in the result row.
fn emit_clipped<W: Width>(buf: &mut MicroBuf, a: u8, b: u8, sign: bool, sub: bool)
    requires a { IsOperandRow a }
    requires b { IsOperandRow b }
    requires room { saturated_length sign sub W.BITS ≤ buf.old.spare }
    ensures ops { buf.new.ops ≡ buf.old.ops ++ micros W.BITS (saturating sign sub W.BITS a b) }
    ensures spare { buf.new.spare + saturated_length sign sub W.BITS ≡ buf.old.spare }
{
    if sign {
        emit_signed::<W>(buf, a, b, sub);
    } else {
        emit_unsigned::<W>(buf, a, b, sub);
    }
}

// The row that tells whether a sum or a difference was clipped.
fn told_row(sign: bool) -> u8
    ensures row { result ≡ flag_row sign }
    ensures below { result < 64 }
    ensures apart { 36 < result }
{
    if sign { OVERFLOW_ROW } else { TRUTH_ROW }
}

/// Appends what puts the sum or the difference of rows `at.a` and `at.b`, clipped to the range of an
/// element, into the active elements of register `at.to`, and sets the clip flag where one of these
/// was clipped (vector extension 1.0, section 12.1). An operand row is a register or the row of the
/// mask bits, of the scalar or of a wide operand. There are no errors.
pub fn emit_saturating<W: Width>(buf: &mut MicroBuf, at: &Place, kind: Saturating)
    requires a { IsOperandRow at.now.a }
    requires b { IsOperandRow at.now.b }
    requires to { at.now.to < 32 }
    requires room { saturating_length kind W.BITS ≤ buf.old.spare }
    ensures ops { buf.new.ops ≡ buf.old.ops ++ saturating_ops kind W.BITS at.now }
    ensures spare { buf.new.spare + saturating_length kind W.BITS ≡ buf.old.spare }
    ensures realises { RealisesSaturating kind W.BITS at.now }
    ensures clips { ClipsSaturating kind W.BITS at.now }
    ensures cost { Measured (saturating_counts kind W.BITS)
        (saturating_length kind W.BITS) (saturating_ops kind W.BITS at.now) }
{
    let sign = is_signed(kind);
    emit_clipped::<W>(buf, at.a, at.b, sign, is_less(kind));
    emit_test::<W>(buf, told_row(sign));
    emit_commit(buf, RESULT_ROW, at.to);
}

/// Does nothing. It shows that no list of an average, and none of a sum or a difference that is
/// clipped, is longer.
pub fn fixed_length_law()
    ensures averages { (mode w : ℕ) → average_length mode w ≤ 17 * w + 19 }
    ensures sums { (kind : Saturating) (w : ℕ) → saturating_length kind w ≤ 17 * w + 19 }
{}
