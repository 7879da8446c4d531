// The lists of divisions: one emitter for all kinds.
ghost use Rattle.std.specs.Prelude.{◌≡◌, true, ℕ, ◌+◌, ◌*◌, ◌<◌, ◌≤◌, ◌++◌};
ghost use Rattle.micro_ir.specs.Measures.{Measured};
ghost use Rattle.micro_ir.specs.Steps.{micros};
ghost use Rattle.row_sums.specs.Sums.{half_after};
ghost use Rattle.gen_div.specs.declared.kinds.Division.{Division};
ghost use Rattle.gen_div.specs.Rows.{IsSignedRow, IsRowOf};
ghost use Rattle.gen_div.specs.Lists.{starting, signed_quotient, finishing, result_row};
ghost use Rattle.gen_div.specs.Kinds.{starting_length, quotient_length, finishing_length, division_ops, division_counts, division_length};
ghost use Rattle.gen_div.specs.Laws.{RealisesDivision};

use crate::kinds::Division;
use crate::rounds::emit_dividing;
use crate::rows::REST_ROW;
use crate::signs::{emit_by_sign, emit_magnitudes, emit_negating, emit_quotient_signs};
use bit_laws::Width;
use micro_ir::{MicroBuf, Place, emit_commit};
use row_sums::{TOTAL_ROW, half_row};

// The division without signs.
fn emit_starting<W: Width>(buf: &mut MicroBuf, a: u8, b: u8, kind: Division)
    requires a { IsRowOf kind a }
    requires b { IsRowOf kind b }
    requires room { starting_length kind W.BITS ≤ buf.old.spare }
    ensures ops { buf.new.ops ≡ buf.old.ops ++ micros W.BITS (starting kind W.BITS a b) }
    ensures spare { buf.new.spare + starting_length kind W.BITS ≡ buf.old.spare }
{
    match kind {
        Division::Divu => emit_dividing::<W>(buf, a, b),
        Division::Remu => emit_dividing::<W>(buf, a, b),
        Division::Div => emit_magnitudes::<W>(buf, a, b),
        Division::Rem => emit_magnitudes::<W>(buf, a, b),
    }
}

// Where the quotient without a sign stands.
fn quotient_row<W: Width>() -> u8
    ensures role { result ≡ half_after W.BITS }
    ensures row { result < 64 }
{
    half_row(W::BITS % 2 == 1)
}

// The quotient with its sign.
fn emit_quotient<W: Width>(buf: &mut MicroBuf, a: u8, b: u8)
    requires a { IsSignedRow a }
    requires b { IsSignedRow b }
    requires room { quotient_length W.BITS ≤ buf.old.spare }
    ensures ops { buf.new.ops ≡ buf.old.ops ++ micros W.BITS (signed_quotient W.BITS a b) }
    ensures spare { buf.new.spare + quotient_length W.BITS ≡ buf.old.spare }
{
    emit_quotient_signs::<W>(buf, a, b);
    emit_negating::<W>(buf, quotient_row::<W>(), TOTAL_ROW);
}

// What a kind makes of the quotient and the remainder without signs.
fn emit_finishing<W: Width>(buf: &mut MicroBuf, a: u8, b: u8, kind: Division)
    requires a { IsRowOf kind a }
    requires b { IsRowOf kind b }
    requires room { finishing_length kind W.BITS ≤ buf.old.spare }
    ensures ops { buf.new.ops ≡ buf.old.ops ++ micros W.BITS (finishing kind W.BITS a b) }
    ensures spare { buf.new.spare + finishing_length kind W.BITS ≡ buf.old.spare }
{
    match kind {
        Division::Divu => {}
        Division::Remu => {}
        Division::Div => emit_quotient::<W>(buf, a, b),
        Division::Rem => emit_by_sign::<W>(buf, a, REST_ROW, TOTAL_ROW),
    }
}

// Where a kind leaves its result.
fn finished_row<W: Width>(kind: Division) -> u8
    ensures row { result ≡ result_row kind W.BITS }
    ensures below { result < 64 }
{
    match kind {
        Division::Divu => quotient_row::<W>(),
        Division::Remu => REST_ROW,
        Division::Div | Division::Rem => TOTAL_ROW,
    }
}

/// Appends what puts the quotient of row `at.a` by row `at.b`, or the remainder, into the active
/// elements of register `at.to` (vector extension 1.0, section 11.11). An operand row of a division
/// without signs is a register or the row of the mask bits, of the scalar or of a wide operand, and
/// else a register or the row of the scalar. There are no errors.
pub fn emit_division<W: Width>(buf: &mut MicroBuf, at: &Place, kind: Division)
    requires a { IsRowOf kind at.now.a }
    requires b { IsRowOf kind at.now.b }
    requires to { at.now.to < 32 }
    requires room { division_length kind W.BITS ≤ buf.old.spare }
    ensures ops { buf.new.ops ≡ buf.old.ops ++ division_ops kind W.BITS at.now }
    ensures spare { buf.new.spare + division_length kind W.BITS ≡ buf.old.spare }
    ensures realises { RealisesDivision kind W.BITS at.now }
    ensures cost { Measured (division_counts kind W.BITS) (division_length kind W.BITS) (division_ops kind W.BITS at.now) }
{
    emit_starting::<W>(buf, at.a, at.b, kind);
    emit_finishing::<W>(buf, at.a, at.b, kind);
    emit_commit(buf, finished_row::<W>(kind), at.to);
}

/// Does nothing. It shows that no list of a division is longer.
pub fn division_length_law()
    ensures { (kind : Division) (w : ℕ) → division_length kind w ≤ w * (14 * w + 75) + 19 }
{}
