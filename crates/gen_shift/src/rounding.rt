// The lists of shifts to the right that round, with a commit and without.
ghost use Rattle.std.specs.Prelude.{◌≡◌, ◌≢◌, false, ◌+◌, ◌<◌, ◌≤◌, ◌++◌};
ghost use Rattle.micro_ir.specs.Measures.{Measured};
ghost use Rattle.micro_ir.specs.Steps.{micros};
ghost use Rattle.micro_ir.specs.WorkRows.{IsOperandRow};
ghost use Rattle.gen_shift.specs.Rows.{shifted_row, last_row, more_row, rounded_row};
ghost use Rattle.gen_shift.specs.Lists.{goes_up, mode_steps};
ghost use Rattle.gen_shift.specs.Kinds.{adding_length, rounding_ops, rounding_counts, rounding_length, rounded_ops, rounded_counts, rounded_length};
ghost use Rattle.gen_shift.specs.Laws.{LeavesRounded, RealisesRounded};

use crate::kinds::Shift;
use crate::lists::{emit_raw, emit_shifting, raw_row};
use crate::modes::{DOWN, emit_mode};
use crate::rows::{MORE_ROW, last_row};
use bit_laws::Width;
use micro_ir::{MicroBuf, Place, RESULT_ROW, emit_commit};

/// The row where a shift that rounds and is not committed leaves its result, by the mode.
pub fn rounding_row<W: Width>(mode: u8) -> u8
    ensures { result ≡ rounded_row mode W.LOG }
{
    if mode == DOWN {
        raw_row::<W>()
    } else {
        RESULT_ROW
    }
}

// Appends what adds to a shifted row what a mode adds that does not round down.
fn emit_rest<W: Width>(buf: &mut MicroBuf, mode: u8)
    requires mode { mode ≤ 3 }
    requires adds { mode ≢ 2 }
    requires room { adding_length mode W.BITS ≤ buf.old.spare }
    ensures ops { buf.new.ops ≡ buf.old.ops
        ++ micros W.BITS (mode_steps W.BITS mode (shifted_row W.LOG) (last_row W.LOG) more_row) }
    ensures spare { buf.new.spare + adding_length mode W.BITS ≡ buf.old.spare }
{
    let quotient = raw_row::<W>();
    let last = last_row(W::LOG % 2 == 1);
    emit_mode::<W>(buf, mode, quotient, last, MORE_ROW);
}

/// Appends what moves row `at.a` to the right by the low bits of row `at.b` and rounds it by `at.mode`,
/// and leaves the result in the row that `rounding_row` names, of active elements and of others (vector
/// extension 1.0, sections 12.4 and 12.5). An operand row is a register or the row of the mask bits, of
/// the scalar or of a wide operand. No register changes. There are no errors.
pub fn emit_rounding<W: Width>(buf: &mut MicroBuf, at: &Place, kind: Shift)
    requires right { goes_up kind ≡ false }
    requires a { IsOperandRow at.now.a }
    requires b { IsOperandRow at.now.b }
    requires mode { at.now.mode ≤ 3 }
    requires room { rounding_length kind at.now.mode W.BITS W.LOG ≤ buf.old.spare }
    ensures ops { buf.new.ops ≡ buf.old.ops ++ rounding_ops kind W.BITS W.LOG at.now }
    ensures spare { buf.new.spare + rounding_length kind at.now.mode W.BITS W.LOG ≡ buf.old.spare }
    ensures leaves { LeavesRounded kind W.BITS W.LOG at.now }
    ensures cost { Measured (rounding_counts kind at.now.mode W.BITS W.LOG)
        (rounding_length kind at.now.mode W.BITS W.LOG) (rounding_ops kind W.BITS W.LOG at.now) }
{
    if at.mode == DOWN {
        emit_raw::<W>(buf, at, kind);
    } else {
        emit_shifting::<W>(buf, at, kind, true);
        emit_rest::<W>(buf, at.mode);
    }
}

/// Appends what puts row `at.a`, moved to the right by the low bits of row `at.b` and rounded by
/// `at.mode`, into the active elements of register `at.to` (vector extension 1.0, section 12.4). An
/// operand row is a register or the row of the mask bits, of the scalar or of a wide operand. There are
/// no errors.
pub fn emit_rounded<W: Width>(buf: &mut MicroBuf, at: &Place, kind: Shift)
    requires right { goes_up kind ≡ false }
    requires a { IsOperandRow at.now.a }
    requires b { IsOperandRow at.now.b }
    requires to { at.now.to < 32 }
    requires mode { at.now.mode ≤ 3 }
    requires room { rounded_length kind at.now.mode W.BITS W.LOG ≤ buf.old.spare }
    ensures ops { buf.new.ops ≡ buf.old.ops ++ rounded_ops kind W.BITS W.LOG at.now }
    ensures spare { buf.new.spare + rounded_length kind at.now.mode W.BITS W.LOG ≡ buf.old.spare }
    ensures realises { RealisesRounded kind W.BITS W.LOG at.now }
    ensures cost { Measured (rounded_counts kind at.now.mode W.BITS W.LOG)
        (rounded_length kind at.now.mode W.BITS W.LOG) (rounded_ops kind W.BITS W.LOG at.now) }
{
    emit_rounding::<W>(buf, at, kind);
    emit_commit(buf, rounding_row::<W>(at.mode), at.to);
}
