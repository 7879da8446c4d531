// The kinds that count the ones of a mask, or find the first: an element is one bit.
ghost use Rattle.std.specs.Prelude.{◌≡◌, true, false, ◌+◌, ◌<◌, ◌≤◌, [], ◌∷◌, ◌++◌};
ghost use Rattle.micro_ir.specs.Measures.{Measured, counts};
ghost use Rattle.micro_ir.specs.WorkRows.{IsOperandRow};
ghost use Rattle.steer_net.specs.declared.reach.Reach.TheVariants.{Before, Upto, At};
ghost use Rattle.gen_reduce.specs.Masks.{cpop_ops, first_ops, prefix_ops, MakesNumber, set_count, first_set, MarksPrefix};

use bit_laws::Width;
use cam_chain::Keys;
use micro_ir::{ACTIVE_ROW, MicroBuf, MicroOp, Place, RESULT_ROW, emit_commit};
use reduce_tree::How;
use row_counts::push_counted;
use steer_net::Reach;

/// Counts the active ones of row `at.a` into the control number, which is to be 0 before (vector
/// extension 1.0, section 15.2).
pub fn emit_cpop<W: Width>(buf: &mut MicroBuf, at: &Place)
    requires a { IsOperandRow at.now.a }
    requires room { 2 ≤ buf.old.spare }
    ensures ops { buf.new.ops ≡ buf.old.ops ++ cpop_ops at.now.a }
    ensures spare { buf.new.spare + 2 ≡ buf.old.spare }
    ensures number { MakesNumber (set_count at.now.a) (cpop_ops at.now.a) }
    ensures cost { Measured (counts 1 0 0) 2 (cpop_ops at.now.a) }
{
    push_counted(
        buf,
        u32::MAX,
        &[(ACTIVE_ROW, true), (at.a, true)],
        0,
        How::Sum,
    );
}

/// Puts the number of the first active one of row `at.a` into the control number, or 2^32 - 1 where
/// there is none (vector extension 1.0, section 15.3).
pub fn emit_first<W: Width>(buf: &mut MicroBuf, at: &Place)
    requires a { IsOperandRow at.now.a }
    requires room { 2 ≤ buf.old.spare }
    ensures ops { buf.new.ops ≡ buf.old.ops ++ first_ops at.now.a }
    ensures spare { buf.new.spare + 2 ≡ buf.old.spare }
    ensures number { MakesNumber (first_set at.now.a) (first_ops at.now.a) }
    ensures cost { Measured (counts 1 0 0) 2 (first_ops at.now.a) }
{
    let Some(keys) = Keys::new(&[(ACTIVE_ROW, true), (at.a, true)]) else {
        unreachable!();
    };
    buf.push(MicroOp::Search {
        subs: u32::MAX,
        keys,
        join: false,
    });
    buf.push(MicroOp::First);
}

// The bits that stand so to the first active one of row `at.a`.
fn emit_prefix(buf: &mut MicroBuf, at: &Place, how: Reach)
    requires a { IsOperandRow at.now.a }
    requires to { at.now.to < 32 }
    requires room { 7 ≤ buf.old.spare }
    ensures ops { buf.new.ops ≡ buf.old.ops ++ prefix_ops at.now.a how at.now.to }
    ensures spare { buf.new.spare + 7 ≡ buf.old.spare }
{
    let Some(keys) = Keys::new(&[(ACTIVE_ROW, true), (at.a, true)]) else {
        unreachable!();
    };
    buf.push(MicroOp::Search {
        subs: u32::MAX,
        keys,
        join: false,
    });
    buf.push(MicroOp::First);
    buf.push(MicroOp::Below {
        to: RESULT_ROW,
        how,
    });
    emit_commit(buf, RESULT_ROW, at.to);
}

/// Sets the active bits of register `at.to` before the first active one of row `at.a`, and clears
/// its other active bits (vector extension 1.0, section 15.4).
pub fn emit_sbf<W: Width>(buf: &mut MicroBuf, at: &Place)
    requires a { IsOperandRow at.now.a }
    requires to { at.now.to < 32 }
    requires room { 7 ≤ buf.old.spare }
    ensures ops { buf.new.ops ≡ buf.old.ops ++ prefix_ops at.now.a Before at.now.to }
    ensures spare { buf.new.spare + 7 ≡ buf.old.spare }
    ensures marks { MarksPrefix at.now.a Before at.now.to (prefix_ops at.now.a Before at.now.to) }
    ensures cost { Measured (counts 3 2 0) 7 (prefix_ops at.now.a Before at.now.to) }
{
    emit_prefix(buf, at, Reach::Before);
}

/// Sets the active bits of register `at.to` up to the first active one of row `at.a`, and clears its
/// other active bits (vector extension 1.0, section 15.5).
pub fn emit_sif<W: Width>(buf: &mut MicroBuf, at: &Place)
    requires a { IsOperandRow at.now.a }
    requires to { at.now.to < 32 }
    requires room { 7 ≤ buf.old.spare }
    ensures ops { buf.new.ops ≡ buf.old.ops ++ prefix_ops at.now.a Upto at.now.to }
    ensures spare { buf.new.spare + 7 ≡ buf.old.spare }
    ensures marks { MarksPrefix at.now.a Upto at.now.to (prefix_ops at.now.a Upto at.now.to) }
    ensures cost { Measured (counts 3 2 0) 7 (prefix_ops at.now.a Upto at.now.to) }
{
    emit_prefix(buf, at, Reach::Upto);
}

/// Sets the bit of register `at.to` at the first active one of row `at.a`, and clears its other
/// active bits (vector extension 1.0, section 15.6).
pub fn emit_sof<W: Width>(buf: &mut MicroBuf, at: &Place)
    requires a { IsOperandRow at.now.a }
    requires to { at.now.to < 32 }
    requires room { 7 ≤ buf.old.spare }
    ensures ops { buf.new.ops ≡ buf.old.ops ++ prefix_ops at.now.a At at.now.to }
    ensures spare { buf.new.spare + 7 ≡ buf.old.spare }
    ensures marks { MarksPrefix at.now.a At at.now.to (prefix_ops at.now.a At at.now.to) }
    ensures cost { Measured (counts 3 2 0) 7 (prefix_ops at.now.a At at.now.to) }
{
    emit_prefix(buf, at, Reach::At);
}
