// The lists of products: one emitter for all kinds.
ghost use Rattle.std.specs.Prelude.{◌≡◌, true, ℕ, ◌+◌, ◌*◌, ◌<◌, ◌≤◌, ◌++◌};
ghost use Rattle.micro_ir.specs.Measures.{Measured};
ghost use Rattle.micro_ir.specs.WorkRows.{IsOperandRow};
ghost use Rattle.gen_mul.specs.declared.kinds.Product.{Product};
ghost use Rattle.gen_mul.specs.Lists.{adds};
ghost use Rattle.gen_mul.specs.Kinds.{product_ops, product_counts, product_length};
ghost use Rattle.gen_mul.specs.Laws.{RealisesProduct};

use crate::finish::{emit_finishing, finished_row};
use crate::kinds::Product;
use crate::rounds::emit_multiplying;
use bit_laws::Width;
use micro_ir::{MicroBuf, Place, emit_commit};

/// Appends what puts a product of rows `at.a` and `at.b`, or a half of it, into the active elements
/// of register `at.to`; it is added to row `at.addend` or taken from it, as the kind says (vector
/// extension 1.0, sections 11.10 to 11.14). An operand row is a register or the row of the mask bits,
/// of the scalar or of a wide operand. There are no errors.
pub fn emit_product<W: Width>(buf: &mut MicroBuf, at: &Place, kind: Product)
    requires a { IsOperandRow at.now.a }
    requires b { IsOperandRow at.now.b }
    requires addend { adds kind ≡ true → IsOperandRow at.now.addend }
    requires to { at.now.to < 32 }
    requires room { product_length kind W.BITS ≤ buf.old.spare }
    ensures ops { buf.new.ops ≡ buf.old.ops ++ product_ops kind W.BITS at.now }
    ensures spare { buf.new.spare + product_length kind W.BITS ≡ buf.old.spare }
    ensures realises { RealisesProduct kind W.BITS at.now }
    ensures cost { Measured (product_counts kind W.BITS) (product_length kind W.BITS) (product_ops kind W.BITS at.now) }
{
    emit_multiplying::<W>(buf, at.a, at.b);
    emit_finishing::<W>(buf, at, kind);
    emit_commit(buf, finished_row::<W>(kind), at.to);
}

/// Does nothing. It shows that no list of a product is longer.
pub fn product_length_law()
    ensures { (kind : Product) (w : ℕ) → product_length kind w ≤ w * (20 * w + 61) + 8 }
{}
