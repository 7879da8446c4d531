// The lists of orders: one emitter for all.
ghost use Rattle.std.specs.Prelude.{◌≡◌, ◌+◌, ◌*◌, ◌<◌, ◌≤◌, ◌++◌};
ghost use Rattle.micro_ir.specs.WorkRows.{IsOperandRow};
ghost use Rattle.row_counts.specs.Spans.{IsSpan};
ghost use Rattle.row_orders.specs.Kinds.{start_of, order_ops, order_length};
ghost use Rattle.row_orders.specs.Folds.{FoldsOrder};
ghost use Rattle.row_orders.specs.Laws.{SpendsOrder};

use crate::bits::emit_order_bits;
use crate::candidates::emit_beginnings;
use bit_laws::Width;
use micro_ir::{MicroBuf, MicroOp, Place};
use row_counts::{Span, emit_first_element};

/// Which of some elements is wanted.
#[derive(Clone, Copy, Debug, PartialEq, Eq)]
pub enum Order {
    /// The least, without signs.
    Minu,
    /// The least, with signs.
    Min,
    /// The greatest, without signs.
    Maxu,
    /// The greatest, with signs.
    Max,
}

// The control number before the first comparison: the number that every other one comes before.
fn start_of<W: Width>(kind: Order) -> u64
    ensures { result ≡ start_of kind W.BITS }
{
    let highest = 1u64 << (W::BITS as u8 - 1);
    match kind {
        Order::Minu => 2 * highest - 1,
        Order::Min => highest - 1,
        Order::Maxu => 0,
        Order::Max => highest,
    }
}

/// Appends what puts the least or the greatest of the active elements of a group and of element 0 of
/// row `at.b` into element 0 of register `at.to` (vector extension 1.0, section 14.1). There are no
/// errors.
pub fn emit_order<W: Width>(buf: &mut MicroBuf, at: &Place, span: &Span, kind: Order)
    requires b { IsOperandRow at.now.b }
    requires to { at.now.to < 32 }
    requires span { IsSpan span.now }
    requires room { order_length W.BITS span.now ≤ buf.old.spare }
    ensures ops { buf.new.ops ≡ buf.old.ops ++ order_ops kind W.BITS at.now span.now }
    ensures spare { buf.new.spare + order_length W.BITS span.now ≡ buf.old.spare }
    ensures cost { SpendsOrder kind W.BITS at.now span.now }
    ensures folds { FoldsOrder kind W.BITS at.now.b span.now }
{
    let start = start_of::<W>(kind);
    buf.push(MicroOp::SetNum { num: start });
    emit_beginnings::<W>(buf, span, at.b);
    emit_order_bits::<W>(buf, span, at.b, start);
    emit_first_element(buf, W::BITS as u8, span, at.to);
}
