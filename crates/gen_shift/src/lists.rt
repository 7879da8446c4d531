// The lists of shifts: one emitter for the three ways, with a commit and without.
ghost use Rattle.std.specs.Prelude.{◌≡◌, ℕ, ◌+◌, ◌*◌, ◌<◌, ◌≤◌, ◌++◌};
ghost use Rattle.micro_ir.specs.Measures.{Measured};
ghost use Rattle.micro_ir.specs.Steps.{micros};
ghost use Rattle.micro_ir.specs.WorkRows.{IsOperandRow};
ghost use Rattle.gen_shift.specs.declared.kinds.Shift.{Shift};
ghost use Rattle.gen_shift.specs.Rows.{shifted_row};
ghost use Rattle.gen_shift.specs.Kinds.{shift_ops, shift_counts, shift_length, raw_ops, raw_counts, raw_length, shifting_length};
ghost use Rattle.gen_shift.specs.Lists.{shifting};
ghost use Rattle.gen_shift.specs.Laws.{RealisesShift, LeavesShift};

use crate::kinds::Shift;
use crate::outs::emit_starting;
use crate::rows::{SHIFTED_ROW, shift_row};
use crate::stages::{emit_signing, emit_stages};
use bit_laws::Width;
use micro_ir::{MicroBuf, Place, emit_clear, emit_commit, emit_everywhere};

// The value of one row whose bit is 1.
const ONE_ON: [u8; 1] = [1];

/// The row where a shift that is not committed leaves its result.
pub fn raw_row<W: Width>() -> u8
    ensures { result ≡ shifted_row W.LOG }
{
    shift_row(W::LOG % 2 == 1)
}

// Appends what moves row `at.a` by the low bits of row `at.b`, and keeps what goes out or not.
pub(crate) fn emit_shifting<W: Width>(buf: &mut MicroBuf, at: &Place, kind: Shift, keeps: bool)
    requires a { IsOperandRow at.now.a }
    requires b { IsOperandRow at.now.b }
    requires room { shifting_length kind keeps W.BITS W.LOG ≤ buf.old.spare }
    ensures ops { buf.new.ops
        ≡ buf.old.ops ++ micros W.BITS (shifting kind keeps W.BITS W.LOG at.now.a at.now.b) }
    ensures spare { buf.new.spare + shifting_length kind keeps W.BITS W.LOG ≡ buf.old.spare }
{
    emit_starting::<W>(buf, keeps);
    emit_signing::<W>(buf, at.a, kind);
    emit_clear(buf, SHIFTED_ROW);
    emit_everywhere(buf, &[at.a], &ONE_ON, SHIFTED_ROW);
    emit_stages::<W>(buf, at.b, kind, keeps);
}

/// Appends what moves row `at.a` by the low bits of row `at.b`, and leaves the result in the row that
/// `raw_row` names, of active elements and of others (vector extension 1.0, sections 11.6 and 11.7).
/// An operand row is a register or the row of the mask bits, of the scalar or of a wide operand. No
/// register changes. There are no errors.
pub fn emit_raw<W: Width>(buf: &mut MicroBuf, at: &Place, kind: Shift)
    requires a { IsOperandRow at.now.a }
    requires b { IsOperandRow at.now.b }
    requires room { raw_length kind W.BITS W.LOG ≤ buf.old.spare }
    ensures ops { buf.new.ops ≡ buf.old.ops ++ raw_ops kind W.BITS W.LOG at.now }
    ensures spare { buf.new.spare + raw_length kind W.BITS W.LOG ≡ buf.old.spare }
    ensures leaves { LeavesShift kind W.BITS W.LOG at.now }
    ensures cost { Measured (raw_counts kind W.BITS W.LOG) (raw_length kind W.BITS W.LOG) (raw_ops kind W.BITS W.LOG at.now) }
{
    emit_shifting::<W>(buf, at, kind, false);
}

/// Appends what puts row `at.a`, moved by the low bits of row `at.b`, into the active elements of
/// register `at.to` (vector extension 1.0, section 11.6). An operand row is a register or the row of
/// the mask bits, of the scalar or of a wide operand. There are no errors.
pub fn emit_shift<W: Width>(buf: &mut MicroBuf, at: &Place, kind: Shift)
    requires a { IsOperandRow at.now.a }
    requires b { IsOperandRow at.now.b }
    requires to { at.now.to < 32 }
    requires room { shift_length kind W.BITS W.LOG ≤ buf.old.spare }
    ensures ops { buf.new.ops ≡ buf.old.ops ++ shift_ops kind W.BITS W.LOG at.now }
    ensures spare { buf.new.spare + shift_length kind W.BITS W.LOG ≡ buf.old.spare }
    ensures realises { RealisesShift kind W.BITS W.LOG at.now }
    ensures cost { Measured (shift_counts kind W.BITS W.LOG) (shift_length kind W.BITS W.LOG) (shift_ops kind W.BITS W.LOG at.now) }
{
    emit_raw::<W>(buf, at, kind);
    emit_commit(buf, raw_row::<W>(), at.to);
}

/// Does nothing. It shows that no list of a shift is longer.
pub fn shift_length_law()
    ensures { (kind : Shift) (w l : ℕ) → shift_length kind w l ≤ l * (3 * w + 15) + (3 * w + 9) }
{}
