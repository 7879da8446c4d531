// A call for each kind: a row of the table of products.
ghost use Rattle.std.specs.Prelude.{◌≡◌, Bool, pos, ◌*ℤ◌, ◌+◌, ◌-◌, ◌*◌, ◌/◌, ◌^◌, ◌<◌, ◌≤◌, ◌++◌};
ghost use Rattle.bit_laws.specs.Signed.{signed};
ghost use Rattle.micro_ir.specs.Kinds.{Realises};
ghost use Rattle.micro_ir.specs.Measures.{Measured};
ghost use Rattle.micro_ir.specs.WorkRows.{IsOperandRow};
ghost use Rattle.gen_mul.specs.declared.kinds.Product.TheVariants.{Mul, Mulhu, Mulhsu, Mulh, Macc, Nmsac};
ghost use Rattle.gen_mul.specs.Kinds.{high_part, product_ops, product_counts, signed_high, less_product};

use crate::kinds::Product;
use crate::lists::emit_product;
use bit_laws::Width;
use micro_ir::{MicroBuf, Place};

/// Puts the low half of the product of rows `at.a` and `at.b` into the active elements of register
/// `at.to` (vector extension 1.0, section 11.10).
pub fn emit_mul<W: Width>(buf: &mut MicroBuf, at: &Place)
    requires a { IsOperandRow at.now.a }
    requires b { IsOperandRow at.now.b }
    requires to { at.now.to < 32 }
    requires room { W.BITS * (20 * W.BITS + 21) + 8 ≤ buf.old.spare }
    ensures ops { buf.new.ops ≡ buf.old.ops ++ product_ops Mul W.BITS at.now }
    ensures spare { buf.new.spare + (W.BITS * (20 * W.BITS + 21) + 8) ≡ buf.old.spare }
    ensures realises { (reads : Bool) → Realises W.BITS at.now.to reads
        (λ n c. n at.now.a * n at.now.b) (product_ops Mul W.BITS at.now) }
    ensures cost { Measured (product_counts Mul W.BITS)
        (W.BITS * (20 * W.BITS + 21) + 8) (product_ops Mul W.BITS at.now) }
{
    emit_product::<W>(buf, at, Product::Mul);
}

/// Puts the high half of the product of rows `at.a` and `at.b`, neither with a sign, into the
/// active elements of register `at.to` (vector extension 1.0, section 11.10).
pub fn emit_mulhu<W: Width>(buf: &mut MicroBuf, at: &Place)
    requires a { IsOperandRow at.now.a }
    requires b { IsOperandRow at.now.b }
    requires to { at.now.to < 32 }
    requires room { W.BITS * (20 * W.BITS + 21) + 8 ≤ buf.old.spare }
    ensures ops { buf.new.ops ≡ buf.old.ops ++ product_ops Mulhu W.BITS at.now }
    ensures spare { buf.new.spare + (W.BITS * (20 * W.BITS + 21) + 8) ≡ buf.old.spare }
    ensures realises { (reads : Bool) → Realises W.BITS at.now.to reads
        (λ n c. n at.now.a * n at.now.b / 2 ^ W.BITS) (product_ops Mulhu W.BITS at.now) }
    ensures cost { Measured (product_counts Mulhu W.BITS)
        (W.BITS * (20 * W.BITS + 21) + 8) (product_ops Mulhu W.BITS at.now) }
{
    emit_product::<W>(buf, at, Product::Mulhu);
}

/// Puts the high half of the product of row `at.a` with a sign and row `at.b` without into the
/// active elements of register `at.to` (vector extension 1.0, section 11.10).
pub fn emit_mulhsu<W: Width>(buf: &mut MicroBuf, at: &Place)
    requires a { IsOperandRow at.now.a }
    requires b { IsOperandRow at.now.b }
    requires to { at.now.to < 32 }
    requires room { W.BITS * (20 * W.BITS + 41) + 5 ≤ buf.old.spare }
    ensures ops { buf.new.ops ≡ buf.old.ops ++ product_ops Mulhsu W.BITS at.now }
    ensures spare { buf.new.spare + (W.BITS * (20 * W.BITS + 41) + 5) ≡ buf.old.spare }
    ensures realises { (reads : Bool) → Realises W.BITS at.now.to reads
        (λ n c. high_part W.BITS (signed W.BITS (n at.now.a) *ℤ pos (n at.now.b))) (product_ops Mulhsu W.BITS at.now) }
    ensures cost { Measured (product_counts Mulhsu W.BITS)
        (W.BITS * (20 * W.BITS + 41) + 5) (product_ops Mulhsu W.BITS at.now) }
{
    emit_product::<W>(buf, at, Product::Mulhsu);
}

/// Puts the high half of the product of rows `at.a` and `at.b`, both with a sign, into the active
/// elements of register `at.to` (vector extension 1.0, section 11.10).
pub fn emit_mulh<W: Width>(buf: &mut MicroBuf, at: &Place)
    requires a { IsOperandRow at.now.a }
    requires b { IsOperandRow at.now.b }
    requires to { at.now.to < 32 }
    requires room { W.BITS * (20 * W.BITS + 61) + 2 ≤ buf.old.spare }
    ensures ops { buf.new.ops ≡ buf.old.ops ++ product_ops Mulh W.BITS at.now }
    ensures spare { buf.new.spare + (W.BITS * (20 * W.BITS + 61) + 2) ≡ buf.old.spare }
    ensures realises { (reads : Bool) → Realises W.BITS at.now.to reads
        (λ n c. signed_high W.BITS (n at.now.a) (n at.now.b)) (product_ops Mulh W.BITS at.now) }
    ensures cost { Measured (product_counts Mulh W.BITS)
        (W.BITS * (20 * W.BITS + 61) + 2) (product_ops Mulh W.BITS at.now) }
{
    emit_product::<W>(buf, at, Product::Mulh);
}

/// Puts row `at.addend` and the product of rows `at.a` and `at.b` together into the active
/// elements of register `at.to` (vector extension 1.0, section 11.13).
pub fn emit_macc<W: Width>(buf: &mut MicroBuf, at: &Place)
    requires a { IsOperandRow at.now.a }
    requires b { IsOperandRow at.now.b }
    requires addend { IsOperandRow at.now.addend }
    requires to { at.now.to < 32 }
    requires room { W.BITS * (20 * W.BITS + 32) + 6 ≤ buf.old.spare }
    ensures ops { buf.new.ops ≡ buf.old.ops ++ product_ops Macc W.BITS at.now }
    ensures spare { buf.new.spare + (W.BITS * (20 * W.BITS + 32) + 6) ≡ buf.old.spare }
    ensures realises { (reads : Bool) → Realises W.BITS at.now.to reads
        (λ n c. n at.now.a * n at.now.b + n at.now.addend) (product_ops Macc W.BITS at.now) }
    ensures cost { Measured (product_counts Macc W.BITS)
        (W.BITS * (20 * W.BITS + 32) + 6) (product_ops Macc W.BITS at.now) }
{
    emit_product::<W>(buf, at, Product::Macc);
}

/// Puts row `at.addend` less the product of rows `at.a` and `at.b` into the active elements of
/// register `at.to` (vector extension 1.0, section 11.13).
pub fn emit_nmsac<W: Width>(buf: &mut MicroBuf, at: &Place)
    requires a { IsOperandRow at.now.a }
    requires b { IsOperandRow at.now.b }
    requires addend { IsOperandRow at.now.addend }
    requires to { at.now.to < 32 }
    requires room { W.BITS * (20 * W.BITS + 32) + 8 ≤ buf.old.spare }
    ensures ops { buf.new.ops ≡ buf.old.ops ++ product_ops Nmsac W.BITS at.now }
    ensures spare { buf.new.spare + (W.BITS * (20 * W.BITS + 32) + 8) ≡ buf.old.spare }
    ensures realises { (reads : Bool) → Realises W.BITS at.now.to reads
        (λ n c. less_product W.BITS (n at.now.a) (n at.now.b) (n at.now.addend)) (product_ops Nmsac W.BITS at.now) }
    ensures cost { Measured (product_counts Nmsac W.BITS)
        (W.BITS * (20 * W.BITS + 32) + 8) (product_ops Nmsac W.BITS at.now) }
{
    emit_product::<W>(buf, at, Product::Nmsac);
}
