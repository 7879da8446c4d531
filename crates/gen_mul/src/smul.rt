// The call for the product over 2^(w - 1).
ghost use Rattle.std.specs.Prelude.{◌≡◌, Bool, ◌+◌, ◌<◌, ◌≤◌, ◌++◌};
ghost use Rattle.micro_ir.specs.Kinds.{Realises};
ghost use Rattle.micro_ir.specs.Measures.{Measured};
ghost use Rattle.micro_ir.specs.WorkRows.{IsOperandRow};
ghost use Rattle.row_views.specs.Clips.{ClipsWhere};
ghost use Rattle.gen_mul.specs.Fractions.{smul_clips, smul_counts, smul_length, smul_ops, smul_value};

use crate::finish::{emit_both, low_row};
use crate::fractions::{emit_clipping, emit_flagging, emit_rounding, emit_test, quotient_row};
use crate::rounds::emit_multiplying;
use crate::rows::{CLIPPED_ROW, CORRECTED_ROW};
use bit_laws::Width;
use gen_shift::MOVED_ROW;
use micro_ir::{MicroBuf, Place, emit_commit};
use row_sums::emit_doubled;

/// Puts the product of rows `at.a` and `at.b`, both with a sign, over 2 to the power of the width less
/// one, rounded by `at.mode` and clipped, into the active elements of register `at.to` (vector extension
/// 1.0, section 12.3). The clip flag is set where an active element is clipped: where both are the least
/// number. An operand row is a register or the row of the mask bits, of the scalar or of a wide operand.
/// There are no errors.
pub fn emit_smul<W: Width>(buf: &mut MicroBuf, at: &Place)
    requires a { IsOperandRow at.now.a }
    requires b { IsOperandRow at.now.b }
    requires to { at.now.to < 32 }
    requires mode { at.now.mode ≤ 3 }
    requires room { smul_length at.now.mode W.BITS ≤ buf.old.spare }
    ensures ops { buf.new.ops ≡ buf.old.ops ++ smul_ops W.BITS at.now }
    ensures spare { buf.new.spare + smul_length at.now.mode W.BITS ≡ buf.old.spare }
    ensures realises { (reads : Bool) → Realises W.BITS at.now.to reads
        (λ n c. smul_value at.now.mode W.BITS (n at.now.a) (n at.now.b)) (smul_ops W.BITS at.now) }
    ensures clips { ClipsWhere W.BITS
        (λ n. smul_clips at.now.mode W.BITS (n at.now.a) (n at.now.b)) (smul_ops W.BITS at.now) }
    ensures cost { Measured (smul_counts at.now.mode W.BITS)
        (smul_length at.now.mode W.BITS) (smul_ops W.BITS at.now) }
{
    emit_multiplying::<W>(buf, at.a, at.b);
    emit_both::<W>(buf, at.a, at.b);
    emit_doubled::<W>(buf, CORRECTED_ROW, MOVED_ROW, low_row::<W>());
    emit_rounding::<W>(buf, at.mode);
    emit_flagging::<W>(buf);
    emit_clipping::<W>(buf, quotient_row(at.mode));
    emit_test::<W>(buf);
    emit_commit(buf, CLIPPED_ROW, at.to);
}
