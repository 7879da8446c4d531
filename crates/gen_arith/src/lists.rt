// The lists of the kinds: one emitter for each family.
ghost use Rattle.std.specs.Prelude.{◌≡◌, ℕ, ◌+◌, ◌-◌, ◌*◌, ◌<◌, ◌≤◌, ◌++◌, length};
ghost use Rattle.micro_ir.specs.Measures.{Measured};
ghost use Rattle.micro_ir.specs.WorkRows.{IsOperandRow};
ghost use Rattle.gen_arith.specs.declared.kinds.Sum.{Sum};
ghost use Rattle.gen_arith.specs.declared.kinds.Truth.{Truth};
ghost use Rattle.gen_arith.specs.Kinds.{sum_ops, sum_counts, sum_length, truth_ops, truth_counts, truth_length, choice_ops, choice_counts, choice_length};
ghost use Rattle.gen_arith.specs.Laws.{RealisesSum, TellsTruth, RealisesChoice};

use crate::kinds::{
    Choice, Sum, Truth, order, picks, sum_carries, sum_digits, sum_start, truth_carries,
    truth_last, truth_start,
};
use crate::steps::{emit_carries, emit_digits, emit_start, emit_table_at};
use bit_laws::Width;
use micro_ir::{
    CARRY_ROW, MicroBuf, Place, RESULT_ROW, TRUTH_ROW, emit_clear, emit_commit, emit_downs,
    emit_everywhere,
};

/// Appends what puts a sum or a difference of rows `at.a` and `at.b` into the active elements of
/// register `at.to` (vector extension 1.0, sections 11.1 and 11.4). An operand row is a register or
/// the row of the mask bits, of the scalar or of a wide operand. There are no errors.
pub fn emit_sum<W: Width>(buf: &mut MicroBuf, at: &Place, kind: Sum)
    requires a { IsOperandRow at.now.a }
    requires b { IsOperandRow at.now.b }
    requires to { at.now.to < 32 }
    requires room { sum_length kind W.BITS ≤ buf.old.spare }
    ensures ops { buf.new.ops ≡ buf.old.ops ++ sum_ops kind W.BITS at.now }
    ensures spare { buf.new.spare + sum_length kind W.BITS ≡ buf.old.spare }
    ensures realises { RealisesSum kind W.BITS at.now }
    ensures cost { Measured (sum_counts kind W.BITS) (sum_length kind W.BITS) (sum_ops kind W.BITS at.now) }
{
    emit_clear(buf, CARRY_ROW);
    emit_start::<W>(buf, sum_start(kind));
    emit_clear(buf, RESULT_ROW);
    emit_digits::<W>(buf, at.a, at.b, sum_digits(kind), sum_carries(kind));
    emit_commit(buf, RESULT_ROW, at.to);
}

/// Appends what tells a truth of rows `at.a` and `at.b` of each element, active or not, at the
/// highest bit of the row of truths (vector extension 1.0, sections 11.4 and 11.8). An operand row is
/// a register or the row of the mask bits, of the scalar or of a wide operand. There are no errors.
pub fn emit_truth<W: Width>(buf: &mut MicroBuf, at: &Place, kind: Truth)
    requires a { IsOperandRow at.now.a }
    requires b { IsOperandRow at.now.b }
    requires room { truth_length kind W.BITS ≤ buf.old.spare }
    ensures ops { buf.new.ops ≡ buf.old.ops ++ truth_ops kind W.BITS at.now }
    ensures spare { buf.new.spare + truth_length kind W.BITS ≡ buf.old.spare }
    ensures tells { TellsTruth kind W.BITS at.now }
    ensures cost { Measured (truth_counts kind W.BITS) (truth_length kind W.BITS) (truth_ops kind W.BITS at.now) }
{
    emit_clear(buf, CARRY_ROW);
    emit_clear(buf, TRUTH_ROW);
    emit_start::<W>(buf, truth_start(kind));
    emit_carries::<W>(buf, at.a, at.b, truth_carries(kind));
    emit_table_at::<W>(
        buf,
        at.a,
        at.b,
        truth_last(kind),
        TRUTH_ROW,
        W::BITS as u8 - 1,
        0,
    );
}

/// Appends what puts the lesser or the greater of rows `at.a` and `at.b` into the active elements of
/// register `at.to` (vector extension 1.0, section 11.9). An operand row is a register or the row of
/// the mask bits, of the scalar or of a wide operand. There are no errors.
pub fn emit_choice<W: Width>(buf: &mut MicroBuf, at: &Place, kind: Choice)
    requires a { IsOperandRow at.now.a }
    requires b { IsOperandRow at.now.b }
    requires to { at.now.to < 32 }
    requires room { choice_length W.BITS ≤ buf.old.spare }
    ensures ops { buf.new.ops ≡ buf.old.ops ++ choice_ops kind W.BITS at.now }
    ensures spare { buf.new.spare + choice_length W.BITS ≡ buf.old.spare }
    ensures realises { RealisesChoice kind W.BITS at.now }
    ensures cost { Measured (choice_counts W.BITS) (choice_length W.BITS) (choice_ops kind W.BITS at.now) }
{
    emit_truth::<W>(buf, at, order(kind));
    emit_downs::<W>(buf, TRUTH_ROW, W::BITS as u8 - 1);
    emit_clear(buf, RESULT_ROW);
    emit_everywhere(buf, &[TRUTH_ROW, at.a, at.b], picks(kind), RESULT_ROW);
    emit_commit(buf, RESULT_ROW, at.to);
}

/// Does nothing. It shows that no list of a kind is longer.
pub fn arith_length_law()
    ensures sums { (kind : Sum) (w : ℕ) → sum_length kind w ≤ 11 * w + 4 }
    ensures truths { (kind : Truth) (w : ℕ) → truth_length kind w ≤ 8 * w + 5 }
{}
