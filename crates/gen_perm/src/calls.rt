// A call for each kind.
ghost use Rattle.std.specs.Prelude.{◌≡◌, ℕ, ◌+◌, ◌<◌, ◌≤◌, ◌++◌};
ghost use Rattle.micro_ir.specs.Steps.{micros};
ghost use Rattle.micro_ir.specs.Pieces.{commit};
ghost use Rattle.micro_ir.specs.WorkRows.{scalar_row};
ghost use Rattle.gen_perm.specs.Moves.{IsSlide, IsPick, IsIndex, IsWindow};
ghost use Rattle.gen_perm.specs.Lists.{move_ops, single_ops};
ghost use Rattle.gen_perm.specs.Laws.{MovesAll, PutsAll, RealisesMove, RealisesScalar, MeasuredWith};

use bit_laws::Width;
use micro_ir::{MicroBuf, MicroOp, Place, RESULT_ROW, SCALAR_ROW, emit_commit};

/// Appends what puts the elements of a group of registers into the active elements of register
/// `at.to`, each from so many places below or above (vslideup, vslidedown, vslide1up and
/// vslide1down, vector extension 1.0, section 16.3). `op` is the Slide into the result row that the
/// list begins with; the row of active elements is made before. It uses the result row. There are
/// no errors.
pub fn emit_slide<W: Width>(buf: &mut MicroBuf, at: &Place, op: &MicroOp)
    requires slides { IsSlide W.BITS op.now }
    requires to { at.now.to < 32 }
    requires room { 5 ≤ buf.old.spare }
    ensures ops { buf.new.ops ≡ buf.old.ops ++ move_ops W.BITS op.now at.now.to }
    ensures spare { buf.new.spare + 5 ≡ buf.old.spare }
    ensures moves { MovesAll op.now W.BITS at.now.to (move_ops W.BITS op.now at.now.to) }
    ensures realised { RealisesMove op.now W.BITS at.now.to (move_ops W.BITS op.now at.now.to) }
    ensures measured { MeasuredWith op.now (move_ops W.BITS op.now at.now.to) }
{
    let MicroOp::Slide {
        to,
        base,
        width,
        first,
        up,
        by,
        limit,
    } = *op
    else {
        unreachable!();
    };
    buf.push(MicroOp::Slide {
        to,
        base,
        width,
        first,
        up,
        by,
        limit,
    });
    emit_commit(buf, RESULT_ROW, at.to);
}

/// Appends what puts one element of a group of registers into all active elements of register
/// `at.to` (vrgather with a scalar index, vector extension 1.0, section 16.4). `op` is the Pick into
/// the result row that the list begins with; the row of active elements is made before. It uses the
/// result row. There are no errors.
pub fn emit_pick<W: Width>(buf: &mut MicroBuf, at: &Place, op: &MicroOp)
    requires picks { IsPick W.BITS op.now }
    requires to { at.now.to < 32 }
    requires room { 5 ≤ buf.old.spare }
    ensures ops { buf.new.ops ≡ buf.old.ops ++ move_ops W.BITS op.now at.now.to }
    ensures spare { buf.new.spare + 5 ≡ buf.old.spare }
    ensures moves { MovesAll op.now W.BITS at.now.to (move_ops W.BITS op.now at.now.to) }
    ensures realised { RealisesMove op.now W.BITS at.now.to (move_ops W.BITS op.now at.now.to) }
    ensures measured { MeasuredWith op.now (move_ops W.BITS op.now at.now.to) }
{
    let MicroOp::Pick {
        to,
        base,
        width,
        index,
        limit,
    } = *op
    else {
        unreachable!();
    };
    buf.push(MicroOp::Pick {
        to,
        base,
        width,
        index,
        limit,
    });
    emit_commit(buf, RESULT_ROW, at.to);
}

/// Appends what puts the number of each active element of register `at.to` into it (vid, vector
/// extension 1.0, section 15.9). `op` is the Index into the result row that the list begins with;
/// the row of active elements is made before. It uses the result row. There are no errors.
pub fn emit_index<W: Width>(buf: &mut MicroBuf, at: &Place, op: &MicroOp)
    requires numbers { IsIndex W.BITS op.now }
    requires to { at.now.to < 32 }
    requires room { 5 ≤ buf.old.spare }
    ensures ops { buf.new.ops ≡ buf.old.ops ++ move_ops W.BITS op.now at.now.to }
    ensures spare { buf.new.spare + 5 ≡ buf.old.spare }
    ensures moves { MovesAll op.now W.BITS at.now.to (move_ops W.BITS op.now at.now.to) }
    ensures realised { RealisesMove op.now W.BITS at.now.to (move_ops W.BITS op.now at.now.to) }
    ensures measured { MeasuredWith op.now (move_ops W.BITS op.now at.now.to) }
{
    let MicroOp::Index { to, width, first } = *op else {
        unreachable!();
    };
    buf.push(MicroOp::Index { to, width, first });
    emit_commit(buf, RESULT_ROW, at.to);
}

/// Appends what puts the scalar's row into the elements of register `at.to` that a window holds
/// (vmv.s.x, vslide1up and vslide1down, vector extension 1.0, sections 16.1 and 16.3). `op` is the
/// Window in the row of active elements that the list begins with. It uses no other row. There are
/// no errors.
pub fn emit_single<W: Width>(buf: &mut MicroBuf, at: &Place, op: &MicroOp)
    requires window { IsWindow W.BITS op.now }
    requires to { at.now.to < 32 }
    requires room { 5 ≤ buf.old.spare }
    ensures ops { buf.new.ops ≡ buf.old.ops ++ single_ops W.BITS op.now at.now.to }
    ensures spare { buf.new.spare + 5 ≡ buf.old.spare }
    ensures puts { PutsAll op.now W.BITS at.now.to (single_ops W.BITS op.now at.now.to) }
    ensures realised { RealisesScalar W.BITS at.now.to
        (micros W.BITS (commit W.BITS scalar_row at.now.to)) }
    ensures measured { MeasuredWith op.now (single_ops W.BITS op.now at.now.to) }
{
    let MicroOp::Window {
        row,
        width,
        first,
        from,
        to,
        masked,
    } = *op
    else {
        unreachable!();
    };
    buf.push(MicroOp::Window {
        row,
        width,
        first,
        from,
        to,
        masked,
    });
    emit_commit(buf, SCALAR_ROW, at.to);
}
