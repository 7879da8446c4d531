// The control number in element 0 of a register.
ghost use Rattle.std.specs.Prelude.{◌≡◌, false, min, ◌+◌, ◌<◌, ◌≤◌, [], ◌∷◌, ◌++◌};
ghost use Rattle.micro_ir.specs.WorkRows.{scalar_row};
ghost use Rattle.row_views.specs.Lists.{spread_num};
ghost use Rattle.row_counts.specs.Lists.{first_window, first_element};

use crate::span::Span;
use cam_chain::Keys;
use micro_ir::{ACTIVE_ROW, MicroBuf, MicroOp, SCALAR_ROW, emit_clear, emit_commit};

// The element above the only one that a window of element 0 has.
pub fn first_end(to: u32) -> u32
    ensures { result ≡ min 1 to }
{
    if to > 0 { 1 } else { 0 }
}

/// Appends the window of element 0 of a register: it is active where the window of the span is not
/// empty, whatever its mask bit is.
pub fn push_first_window(buf: &mut MicroBuf, width: u8, span: &Span)
    requires room { 1 ≤ buf.old.spare }
    ensures ops { buf.new.ops ≡ buf.old.ops ++ first_window width span.now ∷ [] }
    ensures spare { buf.new.spare + 1 ≡ buf.old.spare }
{
    buf.push(MicroOp::Window {
        row: ACTIVE_ROW,
        width,
        first: 0,
        from: span.from,
        to: first_end(span.to),
        masked: false,
    });
}

/// Appends what brings the control number into every element of `width` bits of a row.
pub fn emit_spread(buf: &mut MicroBuf, width: u8, row: u8)
    requires width { 0 < width }
    requires row { row < 64 }
    requires room { 4 ≤ buf.old.spare }
    ensures ops { buf.new.ops ≡ buf.old.ops ++ spread_num width row }
    ensures spare { buf.new.spare + 4 ≡ buf.old.spare }
{
    let Some(keys) = Keys::new(&[]) else {
        unreachable!();
    };
    emit_clear(buf, row);
    buf.push(MicroOp::Search {
        subs: u32::MAX,
        keys,
        join: false,
    });
    buf.push(MicroOp::UpdateBy { row, width });
}

/// Appends what brings the control number into element 0, of `width` bits, of a register, where
/// that element is active. The scalar row holds it on the way.
pub fn emit_first_element(buf: &mut MicroBuf, width: u8, span: &Span, to: u8)
    requires width { 0 < width }
    requires to { to < 32 }
    requires room { 9 ≤ buf.old.spare }
    ensures ops { buf.new.ops ≡ buf.old.ops ++ first_element width span.now to }
    ensures spare { buf.new.spare + 9 ≡ buf.old.spare }
{
    emit_spread(buf, width, SCALAR_ROW);
    push_first_window(buf, width, span);
    emit_commit(buf, SCALAR_ROW, to);
}
