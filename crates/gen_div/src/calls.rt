// A call for each kind: a row of the table of divisions.
ghost use Rattle.std.specs.Prelude.{◌≡◌, Bool, ◌+◌, ◌*◌, ◌<◌, ◌≤◌, ◌++◌};
ghost use Rattle.micro_ir.specs.Kinds.{Realises};
ghost use Rattle.micro_ir.specs.Measures.{Measured};
ghost use Rattle.micro_ir.specs.WorkRows.{IsOperandRow};
ghost use Rattle.gen_div.specs.declared.kinds.Division.TheVariants.{Divu, Remu, Div, Rem};
ghost use Rattle.gen_div.specs.Rows.{IsSignedRow};
ghost use Rattle.gen_div.specs.Kinds.{quotient, remainder, signed_quotient_of, signed_remainder, division_ops, division_counts};

use crate::kinds::Division;
use crate::lists::emit_division;
use bit_laws::Width;
use micro_ir::{MicroBuf, Place};

/// Puts the quotient of row `at.a` by row `at.b`, without signs, into the active elements of
/// register `at.to` (vector extension 1.0, section 11.11).
pub fn emit_divu<W: Width>(buf: &mut MicroBuf, at: &Place)
    requires a { IsOperandRow at.now.a }
    requires b { IsOperandRow at.now.b }
    requires to { at.now.to < 32 }
    requires room { W.BITS * (14 * W.BITS + 34) + 10 ≤ buf.old.spare }
    ensures ops { buf.new.ops ≡ buf.old.ops ++ division_ops Divu W.BITS at.now }
    ensures spare { buf.new.spare + (W.BITS * (14 * W.BITS + 34) + 10) ≡ buf.old.spare }
    ensures realises { (reads : Bool) → Realises W.BITS at.now.to reads
        (λ n c. quotient W.BITS (n at.now.a) (n at.now.b)) (division_ops Divu W.BITS at.now) }
    ensures cost { Measured (division_counts Divu W.BITS)
        (W.BITS * (14 * W.BITS + 34) + 10) (division_ops Divu W.BITS at.now) }
{
    emit_division::<W>(buf, at, Division::Divu);
}

/// Puts the remainder of row `at.a` by row `at.b`, without signs, into the active elements of
/// register `at.to` (vector extension 1.0, section 11.11).
pub fn emit_remu<W: Width>(buf: &mut MicroBuf, at: &Place)
    requires a { IsOperandRow at.now.a }
    requires b { IsOperandRow at.now.b }
    requires to { at.now.to < 32 }
    requires room { W.BITS * (14 * W.BITS + 34) + 10 ≤ buf.old.spare }
    ensures ops { buf.new.ops ≡ buf.old.ops ++ division_ops Remu W.BITS at.now }
    ensures spare { buf.new.spare + (W.BITS * (14 * W.BITS + 34) + 10) ≡ buf.old.spare }
    ensures realises { (reads : Bool) → Realises W.BITS at.now.to reads
        (λ n c. remainder W.BITS (n at.now.a) (n at.now.b)) (division_ops Remu W.BITS at.now) }
    ensures cost { Measured (division_counts Remu W.BITS)
        (W.BITS * (14 * W.BITS + 34) + 10) (division_ops Remu W.BITS at.now) }
{
    emit_division::<W>(buf, at, Division::Remu);
}

/// Puts the quotient of row `at.a` by row `at.b`, with signs, into the active elements of register
/// `at.to` (vector extension 1.0, section 11.11).
pub fn emit_div<W: Width>(buf: &mut MicroBuf, at: &Place)
    requires a { IsSignedRow at.now.a }
    requires b { IsSignedRow at.now.b }
    requires to { at.now.to < 32 }
    requires room { W.BITS * (14 * W.BITS + 75) + 18 ≤ buf.old.spare }
    ensures ops { buf.new.ops ≡ buf.old.ops ++ division_ops Div W.BITS at.now }
    ensures spare { buf.new.spare + (W.BITS * (14 * W.BITS + 75) + 18) ≡ buf.old.spare }
    ensures realises { (reads : Bool) → Realises W.BITS at.now.to reads
        (λ n c. signed_quotient_of W.BITS (n at.now.a) (n at.now.b)) (division_ops Div W.BITS at.now) }
    ensures cost { Measured (division_counts Div W.BITS)
        (W.BITS * (14 * W.BITS + 75) + 18) (division_ops Div W.BITS at.now) }
{
    emit_division::<W>(buf, at, Division::Div);
}

/// Puts the remainder of row `at.a` by row `at.b`, with signs, into the active elements of
/// register `at.to` (vector extension 1.0, section 11.11).
pub fn emit_rem<W: Width>(buf: &mut MicroBuf, at: &Place)
    requires a { IsSignedRow at.now.a }
    requires b { IsSignedRow at.now.b }
    requires to { at.now.to < 32 }
    requires room { W.BITS * (14 * W.BITS + 70) + 19 ≤ buf.old.spare }
    ensures ops { buf.new.ops ≡ buf.old.ops ++ division_ops Rem W.BITS at.now }
    ensures spare { buf.new.spare + (W.BITS * (14 * W.BITS + 70) + 19) ≡ buf.old.spare }
    ensures realises { (reads : Bool) → Realises W.BITS at.now.to reads
        (λ n c. signed_remainder W.BITS (n at.now.a) (n at.now.b)) (division_ops Rem W.BITS at.now) }
    ensures cost { Measured (division_counts Rem W.BITS)
        (W.BITS * (14 * W.BITS + 70) + 19) (division_ops Rem W.BITS at.now) }
{
    emit_division::<W>(buf, at, Division::Rem);
}
