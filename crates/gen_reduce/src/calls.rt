// A call for each kind of reduction: a row of the table.
ghost use Rattle.std.specs.Prelude.{◌≡◌, ◌+◌, ◌*◌, ◌<◌, ◌≤◌, ◌++◌};
ghost use Rattle.micro_ir.specs.WorkRows.{IsOperandRow};
ghost use Rattle.row_counts.specs.Spans.{IsSpan};
ghost use Rattle.gen_reduce.specs.declared.kinds.Reduction.TheVariants.{Redsum, Redand, Redor, Redxor, Wredsumu, Wredsum};
ghost use Rattle.gen_reduce.specs.Kinds.{reduction_ops};
ghost use Rattle.gen_reduce.specs.Laws.{SpendsReduction};
ghost use Rattle.gen_reduce.specs.Folding.{FoldsAs};

use crate::kinds::Reduction;
use crate::lists::emit_reduction;
use bit_laws::Width;
use micro_ir::{MicroBuf, Place};
use row_counts::Span;

/// Puts the sum of the active elements of a group and of element 0 of row `at.b`
/// into element 0 of register `at.to` (vector extension 1.0, section 14.1).
pub fn emit_redsum<W: Width>(buf: &mut MicroBuf, at: &Place, span: &Span)
    requires b { IsOperandRow at.now.b }
    requires to { at.now.to < 32 }
    requires span { IsSpan span.now }
    requires room { span.now.regs * (2 * W.BITS + 1) + (2 * W.BITS + 11) ≤ buf.old.spare }
    ensures ops { buf.new.ops ≡ buf.old.ops ++ reduction_ops Redsum W.BITS at.now span.now }
    ensures spare { buf.new.spare + (span.now.regs * (2 * W.BITS + 1) + (2 * W.BITS + 11)) ≡ buf.old.spare }
    ensures cost { SpendsReduction Redsum W.BITS at.now span.now }
    ensures folds { FoldsAs Redsum W.BITS at.now.b span.now }
{
    emit_reduction::<W>(buf, at, span, Reduction::Redsum);
}

/// Puts the bits that are 1 in all active elements of a group and in element 0 of row `at.b`
/// into element 0 of register `at.to` (vector extension 1.0, section 14.1).
pub fn emit_redand<W: Width>(buf: &mut MicroBuf, at: &Place, span: &Span)
    requires b { IsOperandRow at.now.b }
    requires to { at.now.to < 32 }
    requires span { IsSpan span.now }
    requires room { span.now.regs * (2 * W.BITS + 1) + (2 * W.BITS + 11) ≤ buf.old.spare }
    ensures ops { buf.new.ops ≡ buf.old.ops ++ reduction_ops Redand W.BITS at.now span.now }
    ensures spare { buf.new.spare + (span.now.regs * (2 * W.BITS + 1) + (2 * W.BITS + 11)) ≡ buf.old.spare }
    ensures cost { SpendsReduction Redand W.BITS at.now span.now }
    ensures folds { FoldsAs Redand W.BITS at.now.b span.now }
{
    emit_reduction::<W>(buf, at, span, Reduction::Redand);
}

/// Puts the bits that are 1 in an active element of a group or in element 0 of row `at.b`
/// into element 0 of register `at.to` (vector extension 1.0, section 14.1).
pub fn emit_redor<W: Width>(buf: &mut MicroBuf, at: &Place, span: &Span)
    requires b { IsOperandRow at.now.b }
    requires to { at.now.to < 32 }
    requires span { IsSpan span.now }
    requires room { span.now.regs * (2 * W.BITS + 1) + (2 * W.BITS + 11) ≤ buf.old.spare }
    ensures ops { buf.new.ops ≡ buf.old.ops ++ reduction_ops Redor W.BITS at.now span.now }
    ensures spare { buf.new.spare + (span.now.regs * (2 * W.BITS + 1) + (2 * W.BITS + 11)) ≡ buf.old.spare }
    ensures cost { SpendsReduction Redor W.BITS at.now span.now }
    ensures folds { FoldsAs Redor W.BITS at.now.b span.now }
{
    emit_reduction::<W>(buf, at, span, Reduction::Redor);
}

/// Puts the exclusive or of the active elements of a group and of element 0 of row `at.b`
/// into element 0 of register `at.to` (vector extension 1.0, section 14.1).
pub fn emit_redxor<W: Width>(buf: &mut MicroBuf, at: &Place, span: &Span)
    requires b { IsOperandRow at.now.b }
    requires to { at.now.to < 32 }
    requires span { IsSpan span.now }
    requires room { span.now.regs * (2 * W.BITS + 1) + (2 * W.BITS + 11) ≤ buf.old.spare }
    ensures ops { buf.new.ops ≡ buf.old.ops ++ reduction_ops Redxor W.BITS at.now span.now }
    ensures spare { buf.new.spare + (span.now.regs * (2 * W.BITS + 1) + (2 * W.BITS + 11)) ≡ buf.old.spare }
    ensures cost { SpendsReduction Redxor W.BITS at.now span.now }
    ensures folds { FoldsAs Redxor W.BITS at.now.b span.now }
{
    emit_reduction::<W>(buf, at, span, Reduction::Redxor);
}

/// Puts the sum, in twice as many bits, of the active elements of a group without signs and of element
/// 0 of row `at.b`, which has these bits already,
/// into element 0 of register `at.to` (vector extension 1.0, section 14.2).
pub fn emit_wredsumu<W: Width>(buf: &mut MicroBuf, at: &Place, span: &Span)
    requires b { IsOperandRow at.now.b }
    requires to { at.now.to < 32 }
    requires span { IsSpan span.now }
    requires width { W.BITS ≤ 16 }
    requires room { span.now.regs * (2 * W.BITS + 1) + (4 * W.BITS + 11) ≤ buf.old.spare }
    ensures ops { buf.new.ops ≡ buf.old.ops ++ reduction_ops Wredsumu W.BITS at.now span.now }
    ensures spare { buf.new.spare + (span.now.regs * (2 * W.BITS + 1) + (4 * W.BITS + 11)) ≡ buf.old.spare }
    ensures cost { SpendsReduction Wredsumu W.BITS at.now span.now }
    ensures folds { FoldsAs Wredsumu W.BITS at.now.b span.now }
{
    emit_reduction::<W>(buf, at, span, Reduction::Wredsumu);
}

/// Puts the sum, in twice as many bits, of the active elements of a group with signs and of element 0
/// of row `at.b`, which has these bits already,
/// into element 0 of register `at.to` (vector extension 1.0, section 14.2).
pub fn emit_wredsum<W: Width>(buf: &mut MicroBuf, at: &Place, span: &Span)
    requires b { IsOperandRow at.now.b }
    requires to { at.now.to < 32 }
    requires span { IsSpan span.now }
    requires width { W.BITS ≤ 16 }
    requires room { span.now.regs * (2 * W.BITS + 1) + (4 * W.BITS + 11) ≤ buf.old.spare }
    ensures ops { buf.new.ops ≡ buf.old.ops ++ reduction_ops Wredsum W.BITS at.now span.now }
    ensures spare { buf.new.spare + (span.now.regs * (2 * W.BITS + 1) + (4 * W.BITS + 11)) ≡ buf.old.spare }
    ensures cost { SpendsReduction Wredsum W.BITS at.now span.now }
    ensures folds { FoldsAs Wredsum W.BITS at.now.b span.now }
{
    emit_reduction::<W>(buf, at, span, Reduction::Wredsum);
}
