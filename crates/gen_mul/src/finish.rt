// What the kinds of product make of the product without a sign.
ghost use Rattle.std.specs.Prelude.{◌≡◌, true, ◌+◌, ◌<◌, ◌≤◌, ◌++◌};
ghost use Rattle.micro_ir.specs.Steps.{micros};
ghost use Rattle.micro_ir.specs.WorkRows.{IsOperandRow};
ghost use Rattle.row_sums.specs.Sums.{half_after};
ghost use Rattle.gen_mul.specs.Lists.{correcting, both_corrections, adding, taking, finishing, result_row, adds};
ghost use Rattle.gen_mul.specs.Kinds.{correcting_length, adding_length, taking_length, finishing_length};

use crate::kinds::Product;
use crate::rounds::{GATED_BORROW, GATED_SUM};
use crate::rows::{CORRECTED_ROW, HIGH_ROW};
use bit_laws::Width;
use micro_ir::{BROADCAST_ROW, CARRY_ROW, MicroBuf, Place, emit_above, emit_broadcast, emit_clear};
use row_sums::{TOTAL_ROW, emit_ripple, half_row};

// The values of a carry and two bits, the carry lowest, of which one or three are 1, and of which two
// or three are.
const ODD: [u8; 4] = [1, 2, 4, 7];

const MOST: [u8; 4] = [3, 5, 6, 7];

// The same with the first of the two bits inverted.
const ODD_NOT: [u8; 4] = [0, 3, 5, 6];

const MOST_NOT: [u8; 4] = [1, 4, 5, 7];

// Row `x` is taken from the row `high` where row `y` is negative.
fn emit_correcting<W: Width>(buf: &mut MicroBuf, x: u8, y: u8, high: u8, out: u8)
    requires x { IsOperandRow x }
    requires y { IsOperandRow y }
    requires high { high < 64 }
    requires out { out < 64 }
    requires room { correcting_length W.BITS ≤ buf.old.spare }
    ensures ops { buf.new.ops ≡ buf.old.ops ++ micros W.BITS (correcting W.BITS x y high out) }
    ensures spare { buf.new.spare + correcting_length W.BITS ≡ buf.old.spare }
{
    let inputs = [CARRY_ROW, high, x, BROADCAST_ROW];
    emit_broadcast::<W>(buf, y, W::BITS as u8 - 1);
    emit_clear(buf, CARRY_ROW);
    emit_clear(buf, out);
    emit_ripple::<W>(buf, &inputs, &GATED_SUM, &GATED_BORROW, out);
}

// Where the low half of the product stands.
pub(crate) fn low_row<W: Width>() -> u8
    ensures role { result ≡ half_after W.BITS }
    ensures row { result < 64 }
{
    half_row(W::BITS % 2 == 1)
}

// The low half of the product added to the addend.
fn emit_adding<W: Width>(buf: &mut MicroBuf, addend: u8)
    requires addend { IsOperandRow addend }
    requires room { adding_length W.BITS ≤ buf.old.spare }
    ensures ops { buf.new.ops ≡ buf.old.ops ++ micros W.BITS (adding W.BITS addend) }
    ensures spare { buf.new.spare + adding_length W.BITS ≡ buf.old.spare }
{
    let inputs = [CARRY_ROW, low_row::<W>(), addend];
    emit_clear(buf, CARRY_ROW);
    emit_clear(buf, TOTAL_ROW);
    emit_ripple::<W>(buf, &inputs, &ODD, &MOST, TOTAL_ROW);
}

// The low half of the product taken from the addend: inverted, the addend and 1.
fn emit_taking<W: Width>(buf: &mut MicroBuf, addend: u8)
    requires addend { IsOperandRow addend }
    requires room { taking_length W.BITS ≤ buf.old.spare }
    ensures ops { buf.new.ops ≡ buf.old.ops ++ micros W.BITS (taking W.BITS addend) }
    ensures spare { buf.new.spare + taking_length W.BITS ≡ buf.old.spare }
{
    let inputs = [CARRY_ROW, low_row::<W>(), addend];
    emit_clear(buf, CARRY_ROW);
    emit_above::<W>(buf, &[], &[0], CARRY_ROW, 0, 0);
    emit_clear(buf, TOTAL_ROW);
    emit_ripple::<W>(buf, &inputs, &ODD_NOT, &MOST_NOT, TOTAL_ROW);
}

// Both corrections of the high half.
pub(crate) fn emit_both<W: Width>(buf: &mut MicroBuf, a: u8, b: u8)
    requires a { IsOperandRow a }
    requires b { IsOperandRow b }
    requires room { correcting_length W.BITS + correcting_length W.BITS ≤ buf.old.spare }
    ensures ops { buf.new.ops ≡ buf.old.ops ++ micros W.BITS (both_corrections W.BITS a b) }
    ensures spare { buf.new.spare + (correcting_length W.BITS + correcting_length W.BITS) ≡ buf.old.spare }
{
    emit_correcting::<W>(buf, b, a, HIGH_ROW, TOTAL_ROW);
    emit_correcting::<W>(buf, a, b, TOTAL_ROW, CORRECTED_ROW);
}

// What a kind makes of the product of rows `at.a` and `at.b`.
pub(crate) fn emit_finishing<W: Width>(buf: &mut MicroBuf, at: &Place, kind: Product)
    requires a { IsOperandRow at.now.a }
    requires b { IsOperandRow at.now.b }
    requires addend { adds kind ≡ true → IsOperandRow at.now.addend }
    requires room { finishing_length kind W.BITS ≤ buf.old.spare }
    ensures ops { buf.new.ops
        ≡ buf.old.ops ++ micros W.BITS (finishing kind W.BITS at.now.a at.now.b at.now.addend) }
    ensures spare { buf.new.spare + finishing_length kind W.BITS ≡ buf.old.spare }
{
    match kind {
        Product::Mul => {}
        Product::Mulhu => {}
        Product::Mulhsu => emit_correcting::<W>(buf, at.b, at.a, HIGH_ROW, TOTAL_ROW),
        Product::Mulh => emit_both::<W>(buf, at.a, at.b),
        Product::Macc => emit_adding::<W>(buf, at.addend),
        Product::Nmsac => emit_taking::<W>(buf, at.addend),
    }
}

// Where a kind leaves its result.
pub(crate) fn finished_row<W: Width>(kind: Product) -> u8
    ensures row { result ≡ result_row kind W.BITS }
    ensures below { result < 64 }
{
    match kind {
        Product::Mul => low_row::<W>(),
        Product::Mulhu => HIGH_ROW,
        Product::Mulhsu | Product::Macc | Product::Nmsac => TOTAL_ROW,
        Product::Mulh => CORRECTED_ROW,
    }
}
