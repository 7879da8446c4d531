// A call for each order.
ghost use Rattle.std.specs.Prelude.{◌≡◌, ◌+◌, ◌*◌, ◌<◌, ◌≤◌, ◌++◌};
ghost use Rattle.micro_ir.specs.WorkRows.{IsOperandRow};
ghost use Rattle.row_counts.specs.Spans.{IsSpan};
ghost use Rattle.row_orders.specs.declared.orders.Order.TheVariants.{Minu, Min, Maxu, Max};
ghost use Rattle.row_orders.specs.Kinds.{order_ops};
ghost use Rattle.row_orders.specs.Folds.{FoldsOrder};
ghost use Rattle.row_orders.specs.Laws.{SpendsOrder};

use bit_laws::Width;
use micro_ir::{MicroBuf, Place};
use row_counts::Span;
use row_orders::{Order, emit_order};

/// Puts the least, without signs, of the active elements of a group and of element 0 of row `at.b`
/// into element 0 of register `at.to` (vector extension 1.0, section 14.1).
pub fn emit_redminu<W: Width>(buf: &mut MicroBuf, at: &Place, span: &Span)
    requires b { IsOperandRow at.now.b }
    requires to { at.now.to < 32 }
    requires span { IsSpan span.now }
    requires room { W.BITS * (7 * (span.now.regs + 1) + 4) + 10 ≤ buf.old.spare }
    ensures ops { buf.new.ops ≡ buf.old.ops ++ order_ops Minu W.BITS at.now span.now }
    ensures spare { buf.new.spare + (W.BITS * (7 * (span.now.regs + 1) + 4) + 10) ≡ buf.old.spare }
    ensures cost { SpendsOrder Minu W.BITS at.now span.now }
    ensures folds { FoldsOrder Minu W.BITS at.now.b span.now }
{
    emit_order::<W>(buf, at, span, Order::Minu);
}

/// Puts the least, with signs, of the active elements of a group and of element 0 of row `at.b`
/// into element 0 of register `at.to` (vector extension 1.0, section 14.1).
pub fn emit_redmin<W: Width>(buf: &mut MicroBuf, at: &Place, span: &Span)
    requires b { IsOperandRow at.now.b }
    requires to { at.now.to < 32 }
    requires span { IsSpan span.now }
    requires room { W.BITS * (7 * (span.now.regs + 1) + 4) + 10 ≤ buf.old.spare }
    ensures ops { buf.new.ops ≡ buf.old.ops ++ order_ops Min W.BITS at.now span.now }
    ensures spare { buf.new.spare + (W.BITS * (7 * (span.now.regs + 1) + 4) + 10) ≡ buf.old.spare }
    ensures cost { SpendsOrder Min W.BITS at.now span.now }
    ensures folds { FoldsOrder Min W.BITS at.now.b span.now }
{
    emit_order::<W>(buf, at, span, Order::Min);
}

/// Puts the greatest, without signs, of the active elements of a group and of element 0 of row `at.b`
/// into element 0 of register `at.to` (vector extension 1.0, section 14.1).
pub fn emit_redmaxu<W: Width>(buf: &mut MicroBuf, at: &Place, span: &Span)
    requires b { IsOperandRow at.now.b }
    requires to { at.now.to < 32 }
    requires span { IsSpan span.now }
    requires room { W.BITS * (7 * (span.now.regs + 1) + 4) + 10 ≤ buf.old.spare }
    ensures ops { buf.new.ops ≡ buf.old.ops ++ order_ops Maxu W.BITS at.now span.now }
    ensures spare { buf.new.spare + (W.BITS * (7 * (span.now.regs + 1) + 4) + 10) ≡ buf.old.spare }
    ensures cost { SpendsOrder Maxu W.BITS at.now span.now }
    ensures folds { FoldsOrder Maxu W.BITS at.now.b span.now }
{
    emit_order::<W>(buf, at, span, Order::Maxu);
}

/// Puts the greatest, with signs, of the active elements of a group and of element 0 of row `at.b`
/// into element 0 of register `at.to` (vector extension 1.0, section 14.1).
pub fn emit_redmax<W: Width>(buf: &mut MicroBuf, at: &Place, span: &Span)
    requires b { IsOperandRow at.now.b }
    requires to { at.now.to < 32 }
    requires span { IsSpan span.now }
    requires room { W.BITS * (7 * (span.now.regs + 1) + 4) + 10 ≤ buf.old.spare }
    ensures ops { buf.new.ops ≡ buf.old.ops ++ order_ops Max W.BITS at.now span.now }
    ensures spare { buf.new.spare + (W.BITS * (7 * (span.now.regs + 1) + 4) + 10) ≡ buf.old.spare }
    ensures cost { SpendsOrder Max W.BITS at.now span.now }
    ensures folds { FoldsOrder Max W.BITS at.now.b span.now }
{
    emit_order::<W>(buf, at, span, Order::Max);
}
