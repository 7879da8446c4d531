// A call for each kind: a row of the tables of kinds.
ghost use Rattle.std.specs.Prelude.{◌≡◌, Bool, ◌+◌, ◌-◌, ◌*◌, ◌^◌, ◌<◌, ◌≤◌, not, eqb, int_lt, int_le, true, ◌++◌};
ghost use lib.Dec.{ltb, leb};
ghost use Rattle.std.specs.Int.{from_bool};
ghost use Rattle.bit_laws.specs.Signed.{signed};
ghost use Rattle.micro_ir.specs.Kinds.{Realises, Tells};
ghost use Rattle.micro_ir.specs.Measures.{counts, Measured};
ghost use Rattle.micro_ir.specs.WorkRows.{IsOperandRow};
ghost use Rattle.gen_arith.specs.Kinds.{sum_ops, truth_ops, lesser, greater, signed_lesser, signed_greater, choice_ops};
ghost use Rattle.gen_arith.specs.declared.kinds.Sum.TheVariants.{Add, Sub, Adc, Sbc};
ghost use Rattle.gen_arith.specs.declared.kinds.Truth.TheVariants.{Madc, MadcIn, Msbc, MsbcIn, Eq, Ne, Ltu, Lt, Leu, Le, Gtu, Gt};
ghost use Rattle.gen_arith.specs.declared.kinds.Choice.TheVariants.{Minu, Min, Maxu, Max};

use crate::kinds::{Choice, Sum, Truth};
use crate::lists::{emit_choice, emit_sum, emit_truth};
use bit_laws::Width;
use micro_ir::{MicroBuf, Place};

/// The sum of two rows, into the active elements of a register (vector extension 1.0, section
/// 11.1).
pub fn emit_add<W: Width>(buf: &mut MicroBuf, at: &Place)
    requires a { IsOperandRow at.now.a }
    requires b { IsOperandRow at.now.b }
    requires to { at.now.to < 32 }
    requires room { 11 * W.BITS + 2 ≤ buf.old.spare }
    ensures ops { buf.new.ops ≡ buf.old.ops ++ sum_ops Add W.BITS at.now }
    ensures spare { buf.new.spare + (11 * W.BITS + 2) ≡ buf.old.spare }
    ensures realises { (reads : Bool) → Realises W.BITS at.now.to reads
        (λ n c. n at.now.a + n at.now.b) (sum_ops Add W.BITS at.now) }
    ensures cost { Measured (counts (8 * W.BITS) (2 * W.BITS + 3) (W.BITS - 1)) (11 * W.BITS + 2) (sum_ops Add W.BITS at.now) }
{
    emit_sum::<W>(buf, at, Sum::Add);
}

/// The difference of two rows, modulo two to the power of the width, into the active elements of a
/// register (vector extension 1.0, section 11.1).
pub fn emit_sub<W: Width>(buf: &mut MicroBuf, at: &Place)
    requires a { IsOperandRow at.now.a }
    requires b { IsOperandRow at.now.b }
    requires to { at.now.to < 32 }
    requires room { 11 * W.BITS + 4 ≤ buf.old.spare }
    ensures ops { buf.new.ops ≡ buf.old.ops ++ sum_ops Sub W.BITS at.now }
    ensures spare { buf.new.spare + (11 * W.BITS + 4) ≡ buf.old.spare }
    ensures realises { (reads : Bool) → Realises W.BITS at.now.to reads
        (λ n c. n at.now.a + (2 ^ W.BITS - n at.now.b)) (sum_ops Sub W.BITS at.now) }
    ensures cost { Measured (counts (8 * W.BITS + 1) (2 * W.BITS + 4) (W.BITS - 1)) (11 * W.BITS + 4) (sum_ops Sub W.BITS at.now) }
{
    emit_sum::<W>(buf, at, Sum::Sub);
}

/// The sum of two rows and the mask bit, into the active elements of a register (vector extension
/// 1.0, section 11.4).
pub fn emit_adc<W: Width>(buf: &mut MicroBuf, at: &Place)
    requires a { IsOperandRow at.now.a }
    requires b { IsOperandRow at.now.b }
    requires to { at.now.to < 32 }
    requires room { 11 * W.BITS + 4 ≤ buf.old.spare }
    ensures ops { buf.new.ops ≡ buf.old.ops ++ sum_ops Adc W.BITS at.now }
    ensures spare { buf.new.spare + (11 * W.BITS + 4) ≡ buf.old.spare }
    ensures realises { Realises W.BITS at.now.to true
        (λ n c. n at.now.a + n at.now.b + from_bool c) (sum_ops Adc W.BITS at.now) }
    ensures cost { Measured (counts (8 * W.BITS + 1) (2 * W.BITS + 4) (W.BITS - 1)) (11 * W.BITS + 4) (sum_ops Adc W.BITS at.now) }
{
    emit_sum::<W>(buf, at, Sum::Adc);
}

/// The difference of two rows less the mask bit, modulo two to the power of the width, into the
/// active elements of a register (vector extension 1.0, section 11.4).
pub fn emit_sbc<W: Width>(buf: &mut MicroBuf, at: &Place)
    requires a { IsOperandRow at.now.a }
    requires b { IsOperandRow at.now.b }
    requires to { at.now.to < 32 }
    requires room { 11 * W.BITS + 4 ≤ buf.old.spare }
    ensures ops { buf.new.ops ≡ buf.old.ops ++ sum_ops Sbc W.BITS at.now }
    ensures spare { buf.new.spare + (11 * W.BITS + 4) ≡ buf.old.spare }
    ensures realises { Realises W.BITS at.now.to true
        (λ n c. n at.now.a + (2 ^ W.BITS - (n at.now.b + from_bool c))) (sum_ops Sbc W.BITS at.now) }
    ensures cost { Measured (counts (8 * W.BITS + 1) (2 * W.BITS + 4) (W.BITS - 1)) (11 * W.BITS + 4) (sum_ops Sbc W.BITS at.now) }
{
    emit_sum::<W>(buf, at, Sum::Sbc);
}

/// The carry out of the sum of two rows: the truth of each element, active or not, at the highest
/// bit of the row of truths (vector extension 1.0, section 11.4).
pub fn emit_madc<W: Width>(buf: &mut MicroBuf, at: &Place)
    requires a { IsOperandRow at.now.a }
    requires b { IsOperandRow at.now.b }
    requires room { 6 * W.BITS + 3 ≤ buf.old.spare }
    ensures ops { buf.new.ops ≡ buf.old.ops ++ truth_ops Madc W.BITS at.now }
    ensures spare { buf.new.spare + (6 * W.BITS + 3) ≡ buf.old.spare }
    ensures tells { (reads : Bool) → Tells W.BITS reads
        (λ n c. leb (2 ^ W.BITS) (n at.now.a + n at.now.b)) (truth_ops Madc W.BITS at.now) }
    ensures cost { Measured (counts (4 * W.BITS + 2) (W.BITS + 2) (W.BITS - 1)) (6 * W.BITS + 3) (truth_ops Madc W.BITS at.now) }
{
    emit_truth::<W>(buf, at, Truth::Madc);
}

/// The carry out of the sum of two rows and the mask bit: the truth of each element, active or not,
/// at the highest bit of the row of truths (vector extension 1.0, section 11.4).
pub fn emit_madc_in<W: Width>(buf: &mut MicroBuf, at: &Place)
    requires a { IsOperandRow at.now.a }
    requires b { IsOperandRow at.now.b }
    requires room { 6 * W.BITS + 5 ≤ buf.old.spare }
    ensures ops { buf.new.ops ≡ buf.old.ops ++ truth_ops MadcIn W.BITS at.now }
    ensures spare { buf.new.spare + (6 * W.BITS + 5) ≡ buf.old.spare }
    ensures tells { Tells W.BITS true
        (λ n c. leb (2 ^ W.BITS) (n at.now.a + n at.now.b + from_bool c)) (truth_ops MadcIn W.BITS at.now) }
    ensures cost { Measured (counts (4 * W.BITS + 3) (W.BITS + 3) (W.BITS - 1)) (6 * W.BITS + 5) (truth_ops MadcIn W.BITS at.now) }
{
    emit_truth::<W>(buf, at, Truth::MadcIn);
}

/// The borrow out of the difference of two rows: the truth of each element, active or not, at the
/// highest bit of the row of truths (vector extension 1.0, section 11.4).
pub fn emit_msbc<W: Width>(buf: &mut MicroBuf, at: &Place)
    requires a { IsOperandRow at.now.a }
    requires b { IsOperandRow at.now.b }
    requires room { 6 * W.BITS + 3 ≤ buf.old.spare }
    ensures ops { buf.new.ops ≡ buf.old.ops ++ truth_ops Msbc W.BITS at.now }
    ensures spare { buf.new.spare + (6 * W.BITS + 3) ≡ buf.old.spare }
    ensures tells { (reads : Bool) → Tells W.BITS reads
        (λ n c. ltb (n at.now.a) (n at.now.b)) (truth_ops Msbc W.BITS at.now) }
    ensures cost { Measured (counts (4 * W.BITS + 2) (W.BITS + 2) (W.BITS - 1)) (6 * W.BITS + 3) (truth_ops Msbc W.BITS at.now) }
{
    emit_truth::<W>(buf, at, Truth::Msbc);
}

/// The borrow out of the difference of two rows less the mask bit: the truth of each element,
/// active or not, at the highest bit of the row of truths (vector extension 1.0, section 11.4).
pub fn emit_msbc_in<W: Width>(buf: &mut MicroBuf, at: &Place)
    requires a { IsOperandRow at.now.a }
    requires b { IsOperandRow at.now.b }
    requires room { 6 * W.BITS + 5 ≤ buf.old.spare }
    ensures ops { buf.new.ops ≡ buf.old.ops ++ truth_ops MsbcIn W.BITS at.now }
    ensures spare { buf.new.spare + (6 * W.BITS + 5) ≡ buf.old.spare }
    ensures tells { Tells W.BITS true
        (λ n c. ltb (n at.now.a) (n at.now.b + from_bool c)) (truth_ops MsbcIn W.BITS at.now) }
    ensures cost { Measured (counts (4 * W.BITS + 3) (W.BITS + 3) (W.BITS - 1)) (6 * W.BITS + 5) (truth_ops MsbcIn W.BITS at.now) }
{
    emit_truth::<W>(buf, at, Truth::MsbcIn);
}

/// Whether two rows are equal: the truth of each element, active or not, at the highest bit of the
/// row of truths (vector extension 1.0, section 11.8).
pub fn emit_eq<W: Width>(buf: &mut MicroBuf, at: &Place)
    requires a { IsOperandRow at.now.a }
    requires b { IsOperandRow at.now.b }
    requires room { 8 * W.BITS - 1 ≤ buf.old.spare }
    ensures ops { buf.new.ops ≡ buf.old.ops ++ truth_ops Eq W.BITS at.now }
    ensures spare { buf.new.spare + (8 * W.BITS - 1) ≡ buf.old.spare }
    ensures tells { (reads : Bool) → Tells W.BITS reads
        (λ n c. eqb (n at.now.a) (n at.now.b)) (truth_ops Eq W.BITS at.now) }
    ensures cost { Measured (counts (6 * W.BITS - 2) (W.BITS + 2) (W.BITS - 1)) (8 * W.BITS - 1) (truth_ops Eq W.BITS at.now) }
{
    emit_truth::<W>(buf, at, Truth::Eq);
}

/// Whether two rows differ: the truth of each element, active or not, at the highest bit of the row
/// of truths (vector extension 1.0, section 11.8).
pub fn emit_ne<W: Width>(buf: &mut MicroBuf, at: &Place)
    requires a { IsOperandRow at.now.a }
    requires b { IsOperandRow at.now.b }
    requires room { 8 * W.BITS + 3 ≤ buf.old.spare }
    ensures ops { buf.new.ops ≡ buf.old.ops ++ truth_ops Ne W.BITS at.now }
    ensures spare { buf.new.spare + (8 * W.BITS + 3) ≡ buf.old.spare }
    ensures tells { (reads : Bool) → Tells W.BITS reads
        (λ n c. not (eqb (n at.now.a) (n at.now.b))) (truth_ops Ne W.BITS at.now) }
    ensures cost { Measured (counts (6 * W.BITS + 2) (W.BITS + 2) (W.BITS - 1)) (8 * W.BITS + 3) (truth_ops Ne W.BITS at.now) }
{
    emit_truth::<W>(buf, at, Truth::Ne);
}

/// Whether the first of two rows is less: the truth of each element, active or not, at the highest
/// bit of the row of truths (vector extension 1.0, section 11.8).
pub fn emit_ltu<W: Width>(buf: &mut MicroBuf, at: &Place)
    requires a { IsOperandRow at.now.a }
    requires b { IsOperandRow at.now.b }
    requires room { 6 * W.BITS + 3 ≤ buf.old.spare }
    ensures ops { buf.new.ops ≡ buf.old.ops ++ truth_ops Ltu W.BITS at.now }
    ensures spare { buf.new.spare + (6 * W.BITS + 3) ≡ buf.old.spare }
    ensures tells { (reads : Bool) → Tells W.BITS reads
        (λ n c. ltb (n at.now.a) (n at.now.b)) (truth_ops Ltu W.BITS at.now) }
    ensures cost { Measured (counts (4 * W.BITS + 2) (W.BITS + 2) (W.BITS - 1)) (6 * W.BITS + 3) (truth_ops Ltu W.BITS at.now) }
{
    emit_truth::<W>(buf, at, Truth::Ltu);
}

/// Whether the first of two rows is less, as numbers with a sign: the truth of each element, active
/// or not, at the highest bit of the row of truths (vector extension 1.0, section 11.8).
pub fn emit_lt<W: Width>(buf: &mut MicroBuf, at: &Place)
    requires a { IsOperandRow at.now.a }
    requires b { IsOperandRow at.now.b }
    requires room { 6 * W.BITS + 3 ≤ buf.old.spare }
    ensures ops { buf.new.ops ≡ buf.old.ops ++ truth_ops Lt W.BITS at.now }
    ensures spare { buf.new.spare + (6 * W.BITS + 3) ≡ buf.old.spare }
    ensures tells { (reads : Bool) → Tells W.BITS reads
        (λ n c. int_lt (signed W.BITS (n at.now.a)) (signed W.BITS (n at.now.b))) (truth_ops Lt W.BITS at.now) }
    ensures cost { Measured (counts (4 * W.BITS + 2) (W.BITS + 2) (W.BITS - 1)) (6 * W.BITS + 3) (truth_ops Lt W.BITS at.now) }
{
    emit_truth::<W>(buf, at, Truth::Lt);
}

/// Whether the first of two rows is at most the second: the truth of each element, active or not,
/// at the highest bit of the row of truths (vector extension 1.0, section 11.8).
pub fn emit_leu<W: Width>(buf: &mut MicroBuf, at: &Place)
    requires a { IsOperandRow at.now.a }
    requires b { IsOperandRow at.now.b }
    requires room { 6 * W.BITS + 3 ≤ buf.old.spare }
    ensures ops { buf.new.ops ≡ buf.old.ops ++ truth_ops Leu W.BITS at.now }
    ensures spare { buf.new.spare + (6 * W.BITS + 3) ≡ buf.old.spare }
    ensures tells { (reads : Bool) → Tells W.BITS reads
        (λ n c. leb (n at.now.a) (n at.now.b)) (truth_ops Leu W.BITS at.now) }
    ensures cost { Measured (counts (4 * W.BITS + 2) (W.BITS + 2) (W.BITS - 1)) (6 * W.BITS + 3) (truth_ops Leu W.BITS at.now) }
{
    emit_truth::<W>(buf, at, Truth::Leu);
}

/// Whether the first of two rows is at most the second, as numbers with a sign: the truth of each
/// element, active or not, at the highest bit of the row of truths (vector extension 1.0, section
/// 11.8).
pub fn emit_le<W: Width>(buf: &mut MicroBuf, at: &Place)
    requires a { IsOperandRow at.now.a }
    requires b { IsOperandRow at.now.b }
    requires room { 6 * W.BITS + 3 ≤ buf.old.spare }
    ensures ops { buf.new.ops ≡ buf.old.ops ++ truth_ops Le W.BITS at.now }
    ensures spare { buf.new.spare + (6 * W.BITS + 3) ≡ buf.old.spare }
    ensures tells { (reads : Bool) → Tells W.BITS reads
        (λ n c. int_le (signed W.BITS (n at.now.a)) (signed W.BITS (n at.now.b))) (truth_ops Le W.BITS at.now) }
    ensures cost { Measured (counts (4 * W.BITS + 2) (W.BITS + 2) (W.BITS - 1)) (6 * W.BITS + 3) (truth_ops Le W.BITS at.now) }
{
    emit_truth::<W>(buf, at, Truth::Le);
}

/// Whether the first of two rows is greater: the truth of each element, active or not, at the
/// highest bit of the row of truths (vector extension 1.0, section 11.8).
pub fn emit_gtu<W: Width>(buf: &mut MicroBuf, at: &Place)
    requires a { IsOperandRow at.now.a }
    requires b { IsOperandRow at.now.b }
    requires room { 6 * W.BITS + 3 ≤ buf.old.spare }
    ensures ops { buf.new.ops ≡ buf.old.ops ++ truth_ops Gtu W.BITS at.now }
    ensures spare { buf.new.spare + (6 * W.BITS + 3) ≡ buf.old.spare }
    ensures tells { (reads : Bool) → Tells W.BITS reads
        (λ n c. ltb (n at.now.b) (n at.now.a)) (truth_ops Gtu W.BITS at.now) }
    ensures cost { Measured (counts (4 * W.BITS + 2) (W.BITS + 2) (W.BITS - 1)) (6 * W.BITS + 3) (truth_ops Gtu W.BITS at.now) }
{
    emit_truth::<W>(buf, at, Truth::Gtu);
}

/// Whether the first of two rows is greater, as numbers with a sign: the truth of each element,
/// active or not, at the highest bit of the row of truths (vector extension 1.0, section 11.8).
pub fn emit_gt<W: Width>(buf: &mut MicroBuf, at: &Place)
    requires a { IsOperandRow at.now.a }
    requires b { IsOperandRow at.now.b }
    requires room { 6 * W.BITS + 3 ≤ buf.old.spare }
    ensures ops { buf.new.ops ≡ buf.old.ops ++ truth_ops Gt W.BITS at.now }
    ensures spare { buf.new.spare + (6 * W.BITS + 3) ≡ buf.old.spare }
    ensures tells { (reads : Bool) → Tells W.BITS reads
        (λ n c. int_lt (signed W.BITS (n at.now.b)) (signed W.BITS (n at.now.a))) (truth_ops Gt W.BITS at.now) }
    ensures cost { Measured (counts (4 * W.BITS + 2) (W.BITS + 2) (W.BITS - 1)) (6 * W.BITS + 3) (truth_ops Gt W.BITS at.now) }
{
    emit_truth::<W>(buf, at, Truth::Gt);
}

/// The lesser of two rows, into the active elements of a register (vector extension 1.0, section
/// 11.9).
pub fn emit_minu<W: Width>(buf: &mut MicroBuf, at: &Place)
    requires a { IsOperandRow at.now.a }
    requires b { IsOperandRow at.now.b }
    requires to { at.now.to < 32 }
    requires room { 9 * W.BITS + 11 ≤ buf.old.spare }
    ensures ops { buf.new.ops ≡ buf.old.ops ++ choice_ops Minu W.BITS at.now }
    ensures spare { buf.new.spare + (9 * W.BITS + 11) ≡ buf.old.spare }
    ensures realises { (reads : Bool) → Realises W.BITS at.now.to reads
        (λ n c. lesser (n at.now.a) (n at.now.b)) (choice_ops Minu W.BITS at.now) }
    ensures cost { Measured (counts (5 * W.BITS + 8) (2 * W.BITS + 5) (2 * (W.BITS - 1))) (9 * W.BITS + 11) (choice_ops Minu W.BITS at.now) }
{
    emit_choice::<W>(buf, at, Choice::Minu);
}

/// The lesser of two rows, as numbers with a sign, into the active elements of a register (vector
/// extension 1.0, section 11.9).
pub fn emit_min<W: Width>(buf: &mut MicroBuf, at: &Place)
    requires a { IsOperandRow at.now.a }
    requires b { IsOperandRow at.now.b }
    requires to { at.now.to < 32 }
    requires room { 9 * W.BITS + 11 ≤ buf.old.spare }
    ensures ops { buf.new.ops ≡ buf.old.ops ++ choice_ops Min W.BITS at.now }
    ensures spare { buf.new.spare + (9 * W.BITS + 11) ≡ buf.old.spare }
    ensures realises { (reads : Bool) → Realises W.BITS at.now.to reads
        (λ n c. signed_lesser W.BITS (n at.now.a) (n at.now.b)) (choice_ops Min W.BITS at.now) }
    ensures cost { Measured (counts (5 * W.BITS + 8) (2 * W.BITS + 5) (2 * (W.BITS - 1))) (9 * W.BITS + 11) (choice_ops Min W.BITS at.now) }
{
    emit_choice::<W>(buf, at, Choice::Min);
}

/// The greater of two rows, into the active elements of a register (vector extension 1.0, section
/// 11.9).
pub fn emit_maxu<W: Width>(buf: &mut MicroBuf, at: &Place)
    requires a { IsOperandRow at.now.a }
    requires b { IsOperandRow at.now.b }
    requires to { at.now.to < 32 }
    requires room { 9 * W.BITS + 11 ≤ buf.old.spare }
    ensures ops { buf.new.ops ≡ buf.old.ops ++ choice_ops Maxu W.BITS at.now }
    ensures spare { buf.new.spare + (9 * W.BITS + 11) ≡ buf.old.spare }
    ensures realises { (reads : Bool) → Realises W.BITS at.now.to reads
        (λ n c. greater (n at.now.a) (n at.now.b)) (choice_ops Maxu W.BITS at.now) }
    ensures cost { Measured (counts (5 * W.BITS + 8) (2 * W.BITS + 5) (2 * (W.BITS - 1))) (9 * W.BITS + 11) (choice_ops Maxu W.BITS at.now) }
{
    emit_choice::<W>(buf, at, Choice::Maxu);
}

/// The greater of two rows, as numbers with a sign, into the active elements of a register (vector
/// extension 1.0, section 11.9).
pub fn emit_max<W: Width>(buf: &mut MicroBuf, at: &Place)
    requires a { IsOperandRow at.now.a }
    requires b { IsOperandRow at.now.b }
    requires to { at.now.to < 32 }
    requires room { 9 * W.BITS + 11 ≤ buf.old.spare }
    ensures ops { buf.new.ops ≡ buf.old.ops ++ choice_ops Max W.BITS at.now }
    ensures spare { buf.new.spare + (9 * W.BITS + 11) ≡ buf.old.spare }
    ensures realises { (reads : Bool) → Realises W.BITS at.now.to reads
        (λ n c. signed_greater W.BITS (n at.now.a) (n at.now.b)) (choice_ops Max W.BITS at.now) }
    ensures cost { Measured (counts (5 * W.BITS + 8) (2 * W.BITS + 5) (2 * (W.BITS - 1))) (9 * W.BITS + 11) (choice_ops Max W.BITS at.now) }
{
    emit_choice::<W>(buf, at, Choice::Max);
}
