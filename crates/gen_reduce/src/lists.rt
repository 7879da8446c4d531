// The lists of reductions that count bits: one emitter for all kinds.
ghost use Rattle.std.specs.Prelude.{◌≡◌, true, ◌+◌, ◌*◌, ◌<◌, ◌≤◌, ◌≢◌, ◌++◌};
ghost use Rattle.micro_ir.specs.WorkRows.{IsOperandRow};
ghost use Rattle.row_counts.specs.Spans.{IsSpan};
ghost use Rattle.row_counts.specs.Lists.{count_first};
ghost use Rattle.gen_reduce.specs.Kinds.{is_wide, reduction_ops, reduction_length};
ghost use Rattle.gen_reduce.specs.Laws.{SpendsReduction};
ghost use Rattle.gen_reduce.specs.Folding.{FoldsAs};

use crate::kinds::{Reduction, counting_of, first_counting_of, start_of, width_of};
use bit_laws::Width;
use micro_ir::{MicroBuf, MicroOp, Place};
use row_counts::{Counting, Span, emit_counts, emit_first_element, emit_group, push_first_window};

// The counts of the bits of element 0 of a row, of `width` bits.
fn emit_first_counts(buf: &mut MicroBuf, width: u8, row: u8, span: &Span, counting: &Counting)
    requires row { row < 64 }
    requires apart { row ≢ 32 }
    requires room { 2 * width + 1 ≤ buf.old.spare }
    ensures ops { buf.new.ops ≡ buf.old.ops ++ count_first width row span.now counting.now }
    ensures spare { buf.new.spare + (2 * width + 1) ≡ buf.old.spare }
{
    push_first_window(buf, width, span);
    emit_counts(buf, width, row, counting);
}

/// Appends what puts a reduction of the active elements of a group, and of element 0 of row `at.b`,
/// into element 0 of register `at.to` (vector extension 1.0, chapter 14). Elements of a sum in twice
/// as many bits have at most 16. There are no errors.
pub fn emit_reduction<W: Width>(buf: &mut MicroBuf, at: &Place, span: &Span, kind: Reduction)
    requires b { IsOperandRow at.now.b }
    requires to { at.now.to < 32 }
    requires span { IsSpan span.now }
    requires wide { is_wide kind ≡ true → W.BITS ≤ 16 }
    requires room { reduction_length kind W.BITS span.now ≤ buf.old.spare }
    ensures ops { buf.new.ops ≡ buf.old.ops ++ reduction_ops kind W.BITS at.now span.now }
    ensures spare { buf.new.spare + reduction_length kind W.BITS span.now ≡ buf.old.spare }
    ensures cost { SpendsReduction kind W.BITS at.now span.now }
    ensures folds { FoldsAs kind W.BITS at.now.b span.now }
{
    let width = width_of::<W>(kind);
    buf.push(MicroOp::SetNum {
        num: start_of::<W>(kind),
    });
    emit_group(buf, W::BITS as u8, span, &counting_of(kind));
    emit_first_counts(buf, width, at.b, span, &first_counting_of(kind));
    emit_first_element(buf, width, span, at.to);
}
