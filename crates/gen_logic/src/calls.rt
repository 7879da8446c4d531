// A call for each kind: a row of the table of kinds.
ghost use Rattle.std.specs.Prelude.{◌≡◌, ℕ, ◌+◌, ◌<◌, ◌≤◌, cond, ◌&&◌, ◌||◌, Bool, true, ◌++◌, bit_and, bit_or, bit_xor};
ghost use Rattle.micro_ir.specs.Kinds.{Realises, RealisesBits};
ghost use Rattle.micro_ir.specs.Measures.{counts, Measured};
ghost use Rattle.micro_ir.specs.WorkRows.{IsOperandRow, mask_row};
ghost use Rattle.gen_logic.specs.Recipes.{logic_ops};
ghost use Rattle.gen_logic.specs.Values.{differs, nand, nor, xnor, and_not, or_not, bitwise};
ghost use Rattle.gen_logic.specs.declared.kinds.Logic.TheVariants.{And, Or, Xor, Nand, Nor, Xnor, Andn, Orn, Second, Merge};

use crate::kinds::{Logic, emit_logic};
use bit_laws::Width;
use micro_ir::{MicroBuf, Place};

/// Appends what puts the bitwise and of rows `at.a` and `at.b` into the active elements of register
/// `at.to` (vand, vector extension 1.0, section 11.5). An operand row is a register or the row of
/// the mask bits, of the scalar or of a wide operand. It uses the result row. There are no errors.
pub fn emit_and<W: Width>(buf: &mut MicroBuf, at: &Place)
    requires a { IsOperandRow at.now.a }
    requires b { IsOperandRow at.now.b }
    requires to { at.now.to < 32 }
    requires room { 8 ≤ buf.old.spare }
    ensures ops { (w : ℕ) → 0 < w → buf.new.ops
        ≡ buf.old.ops ++ logic_ops And w at.now }
    ensures spare { buf.new.spare + 8 ≡ buf.old.spare }
    ensures realises { (reads : Bool) → Realises W.BITS at.now.to reads
        (λ n m. bit_and (n at.now.a) (n at.now.b))
        (logic_ops And W.BITS at.now) }
    ensures bits { (w : ℕ) → RealisesBits w at.now.to (λ n. n at.now.a && n at.now.b)
        (logic_ops And w at.now) }
    ensures cost { (w : ℕ) → Measured (counts 4 4 0) 8
        (logic_ops And w at.now) }
{
    emit_logic::<W>(buf, at, Logic::And);
}

/// Appends what puts the bitwise or of rows `at.a` and `at.b` into the active elements of register
/// `at.to` (vor, vector extension 1.0, section 11.5). An operand row is a register or the row of
/// the mask bits, of the scalar or of a wide operand. It uses the result row. There are no errors.
pub fn emit_or<W: Width>(buf: &mut MicroBuf, at: &Place)
    requires a { IsOperandRow at.now.a }
    requires b { IsOperandRow at.now.b }
    requires to { at.now.to < 32 }
    requires room { 10 ≤ buf.old.spare }
    ensures ops { (w : ℕ) → 0 < w → buf.new.ops
        ≡ buf.old.ops ++ logic_ops Or w at.now }
    ensures spare { buf.new.spare + 10 ≡ buf.old.spare }
    ensures realises { (reads : Bool) → Realises W.BITS at.now.to reads
        (λ n m. bit_or (n at.now.a) (n at.now.b))
        (logic_ops Or W.BITS at.now) }
    ensures bits { (w : ℕ) → RealisesBits w at.now.to (λ n. n at.now.a || n at.now.b)
        (logic_ops Or w at.now) }
    ensures cost { (w : ℕ) → Measured (counts 6 4 0) 10
        (logic_ops Or w at.now) }
{
    emit_logic::<W>(buf, at, Logic::Or);
}

/// Appends what puts the bitwise exclusive or of rows `at.a` and `at.b` into the active elements of
/// register `at.to` (vxor, vector extension 1.0, section 11.5). An operand row is a register or the
/// row of the mask bits, of the scalar or of a wide operand. It uses the result row. There are no
/// errors.
pub fn emit_xor<W: Width>(buf: &mut MicroBuf, at: &Place)
    requires a { IsOperandRow at.now.a }
    requires b { IsOperandRow at.now.b }
    requires to { at.now.to < 32 }
    requires room { 9 ≤ buf.old.spare }
    ensures ops { (w : ℕ) → 0 < w → buf.new.ops
        ≡ buf.old.ops ++ logic_ops Xor w at.now }
    ensures spare { buf.new.spare + 9 ≡ buf.old.spare }
    ensures realises { (reads : Bool) → Realises W.BITS at.now.to reads
        (λ n m. bit_xor (n at.now.a) (n at.now.b))
        (logic_ops Xor W.BITS at.now) }
    ensures bits { (w : ℕ) → RealisesBits w at.now.to (λ n. differs (n at.now.a) (n at.now.b))
        (logic_ops Xor w at.now) }
    ensures cost { (w : ℕ) → Measured (counts 5 4 0) 9
        (logic_ops Xor w at.now) }
{
    emit_logic::<W>(buf, at, Logic::Xor);
}

/// Appends what puts the complement of the bitwise and of rows `at.a` and `at.b` into the active
/// elements of register `at.to` (vmnand, vector extension 1.0, section 15.1). An operand row is a
/// register or the row of the mask bits, of the scalar or of a wide operand. It uses the result
/// row. There are no errors.
pub fn emit_nand<W: Width>(buf: &mut MicroBuf, at: &Place)
    requires a { IsOperandRow at.now.a }
    requires b { IsOperandRow at.now.b }
    requires to { at.now.to < 32 }
    requires room { 10 ≤ buf.old.spare }
    ensures ops { (w : ℕ) → 0 < w → buf.new.ops
        ≡ buf.old.ops ++ logic_ops Nand w at.now }
    ensures spare { buf.new.spare + 10 ≡ buf.old.spare }
    ensures realises { (reads : Bool) → Realises W.BITS at.now.to reads
        (λ n m. bitwise nand W.BITS (n at.now.a) (n at.now.b))
        (logic_ops Nand W.BITS at.now) }
    ensures bits { (w : ℕ) → RealisesBits w at.now.to (λ n. nand (n at.now.a) (n at.now.b))
        (logic_ops Nand w at.now) }
    ensures cost { (w : ℕ) → Measured (counts 6 4 0) 10
        (logic_ops Nand w at.now) }
{
    emit_logic::<W>(buf, at, Logic::Nand);
}

/// Appends what puts the complement of the bitwise or of rows `at.a` and `at.b` into the active
/// elements of register `at.to` (vmnor, vector extension 1.0, section 15.1). An operand row is a
/// register or the row of the mask bits, of the scalar or of a wide operand. It uses the result
/// row. There are no errors.
pub fn emit_nor<W: Width>(buf: &mut MicroBuf, at: &Place)
    requires a { IsOperandRow at.now.a }
    requires b { IsOperandRow at.now.b }
    requires to { at.now.to < 32 }
    requires room { 8 ≤ buf.old.spare }
    ensures ops { (w : ℕ) → 0 < w → buf.new.ops
        ≡ buf.old.ops ++ logic_ops Nor w at.now }
    ensures spare { buf.new.spare + 8 ≡ buf.old.spare }
    ensures realises { (reads : Bool) → Realises W.BITS at.now.to reads
        (λ n m. bitwise nor W.BITS (n at.now.a) (n at.now.b))
        (logic_ops Nor W.BITS at.now) }
    ensures bits { (w : ℕ) → RealisesBits w at.now.to (λ n. nor (n at.now.a) (n at.now.b))
        (logic_ops Nor w at.now) }
    ensures cost { (w : ℕ) → Measured (counts 4 4 0) 8
        (logic_ops Nor w at.now) }
{
    emit_logic::<W>(buf, at, Logic::Nor);
}

/// Appends what puts the complement of the bitwise exclusive or of rows `at.a` and `at.b` into the
/// active elements of register `at.to` (vmxnor, vector extension 1.0, section 15.1). An operand row
/// is a register or the row of the mask bits, of the scalar or of a wide operand. It uses the
/// result row. There are no errors.
pub fn emit_xnor<W: Width>(buf: &mut MicroBuf, at: &Place)
    requires a { IsOperandRow at.now.a }
    requires b { IsOperandRow at.now.b }
    requires to { at.now.to < 32 }
    requires room { 9 ≤ buf.old.spare }
    ensures ops { (w : ℕ) → 0 < w → buf.new.ops
        ≡ buf.old.ops ++ logic_ops Xnor w at.now }
    ensures spare { buf.new.spare + 9 ≡ buf.old.spare }
    ensures realises { (reads : Bool) → Realises W.BITS at.now.to reads
        (λ n m. bitwise xnor W.BITS (n at.now.a) (n at.now.b))
        (logic_ops Xnor W.BITS at.now) }
    ensures bits { (w : ℕ) → RealisesBits w at.now.to (λ n. xnor (n at.now.a) (n at.now.b))
        (logic_ops Xnor w at.now) }
    ensures cost { (w : ℕ) → Measured (counts 5 4 0) 9
        (logic_ops Xnor w at.now) }
{
    emit_logic::<W>(buf, at, Logic::Xnor);
}

/// Appends what puts the bitwise and of row `at.a` and the complement of row `at.b` into the active
/// elements of register `at.to` (vmandn, vector extension 1.0, section 15.1). An operand row is a
/// register or the row of the mask bits, of the scalar or of a wide operand. It uses the result
/// row. There are no errors.
pub fn emit_andn<W: Width>(buf: &mut MicroBuf, at: &Place)
    requires a { IsOperandRow at.now.a }
    requires b { IsOperandRow at.now.b }
    requires to { at.now.to < 32 }
    requires room { 8 ≤ buf.old.spare }
    ensures ops { (w : ℕ) → 0 < w → buf.new.ops
        ≡ buf.old.ops ++ logic_ops Andn w at.now }
    ensures spare { buf.new.spare + 8 ≡ buf.old.spare }
    ensures realises { (reads : Bool) → Realises W.BITS at.now.to reads
        (λ n m. bitwise and_not W.BITS (n at.now.a) (n at.now.b))
        (logic_ops Andn W.BITS at.now) }
    ensures bits { (w : ℕ) → RealisesBits w at.now.to (λ n. and_not (n at.now.a) (n at.now.b))
        (logic_ops Andn w at.now) }
    ensures cost { (w : ℕ) → Measured (counts 4 4 0) 8
        (logic_ops Andn w at.now) }
{
    emit_logic::<W>(buf, at, Logic::Andn);
}

/// Appends what puts the bitwise or of row `at.a` and the complement of row `at.b` into the active
/// elements of register `at.to` (vmorn, vector extension 1.0, section 15.1). An operand row is a
/// register or the row of the mask bits, of the scalar or of a wide operand. It uses the result
/// row. There are no errors.
pub fn emit_orn<W: Width>(buf: &mut MicroBuf, at: &Place)
    requires a { IsOperandRow at.now.a }
    requires b { IsOperandRow at.now.b }
    requires to { at.now.to < 32 }
    requires room { 10 ≤ buf.old.spare }
    ensures ops { (w : ℕ) → 0 < w → buf.new.ops
        ≡ buf.old.ops ++ logic_ops Orn w at.now }
    ensures spare { buf.new.spare + 10 ≡ buf.old.spare }
    ensures realises { (reads : Bool) → Realises W.BITS at.now.to reads
        (λ n m. bitwise or_not W.BITS (n at.now.a) (n at.now.b))
        (logic_ops Orn W.BITS at.now) }
    ensures bits { (w : ℕ) → RealisesBits w at.now.to (λ n. or_not (n at.now.a) (n at.now.b))
        (logic_ops Orn w at.now) }
    ensures cost { (w : ℕ) → Measured (counts 6 4 0) 10
        (logic_ops Orn w at.now) }
{
    emit_logic::<W>(buf, at, Logic::Orn);
}

/// Appends what copies row `at.b` into the active elements of register `at.to` (vmv.v, vector
/// extension 1.0, section 11.16). The row is a register or the row of the mask bits, of the scalar
/// or of a wide operand. It uses the result row. There are no errors.
pub fn emit_move<W: Width>(buf: &mut MicroBuf, at: &Place)
    requires b { IsOperandRow at.now.b }
    requires to { at.now.to < 32 }
    requires room { 8 ≤ buf.old.spare }
    ensures ops { (w : ℕ) → 0 < w → buf.new.ops
        ≡ buf.old.ops ++ logic_ops Second w at.now }
    ensures spare { buf.new.spare + 8 ≡ buf.old.spare }
    ensures realises { (reads : Bool) → Realises W.BITS at.now.to reads (λ n m. n at.now.b)
        (logic_ops Second W.BITS at.now) }
    ensures bits { (w : ℕ) → RealisesBits w at.now.to (λ n. n at.now.b)
        (logic_ops Second w at.now) }
    ensures cost { (w : ℕ) → Measured (counts 4 4 0) 8
        (logic_ops Second w at.now) }
{
    emit_logic::<W>(buf, &Place { a: at.b, ..*at }, Logic::Second);
}

/// Appends what puts row `at.b` where the mask bit is 1, and else row `at.a`, into the active
/// elements of register `at.to` (vmerge, vector extension 1.0, section 11.15). The mask bits stand
/// in their row. An operand row is a register or the row of the mask bits, of the scalar or of a
/// wide operand. It uses the result row. There are no errors.
pub fn emit_merge<W: Width>(buf: &mut MicroBuf, at: &Place)
    requires a { IsOperandRow at.now.a }
    requires b { IsOperandRow at.now.b }
    requires to { at.now.to < 32 }
    requires room { 11 ≤ buf.old.spare }
    ensures ops { (w : ℕ) → 0 < w → buf.new.ops
        ≡ buf.old.ops ++ logic_ops Merge w at.now }
    ensures spare { buf.new.spare + 11 ≡ buf.old.spare }
    ensures realises { Realises W.BITS at.now.to true (λ n m. cond m (n at.now.b) (n at.now.a))
        (logic_ops Merge W.BITS at.now) }
    ensures bits { (w : ℕ) → RealisesBits w at.now.to
        (λ n. cond (n mask_row) (n at.now.b) (n at.now.a))
        (logic_ops Merge w at.now) }
    ensures cost { (w : ℕ) → Measured (counts 7 4 0) 11
        (logic_ops Merge w at.now) }
{
    emit_logic::<W>(buf, at, Logic::Merge);
}
