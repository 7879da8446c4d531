// The bits of the result, from the highest one down.
ghost use Rattle.std.specs.Prelude.{◌≡◌, ◌+◌, ◌*◌, ◌<◌, ◌≤◌, ◌++◌};
ghost use Rattle.micro_ir.specs.WorkRows.{IsOperandRow};
ghost use Rattle.row_counts.specs.Spans.{IsSpan};
ghost use Rattle.row_orders.specs.Lists.{sources, cand, how_of, compare_rows, stays_to, order_bit, order_bits, stays_length, bit_length, bits_length};

use crate::candidates::emit_stayings;
use crate::sources::{bit_of, candidate_row, source_of};
use bit_laws::Width;
use micro_ir::{FREE_ROW, MicroBuf};
use reduce_tree::How;
use row_counts::{Span, emit_spread, lane, push_counted};

// What a candidate with the wanted bit makes of the start's bit: the other one.
fn how_of(start_bit: bool) -> How
    ensures { result ≡ how_of start_bit }
{
    if start_bit { How::Clear } else { How::Or }
}

// The bit of the result: whether a candidate of a row has the wanted one.
fn emit_comparing<W: Width>(buf: &mut MicroBuf, span: &Span, b: u8, start: u64, bit: u8)
    requires span { IsSpan span.now }
    requires b { IsOperandRow b }
    requires bit { bit < W.BITS }
    requires room { 2 * (span.now.regs + 1) ≤ buf.old.spare }
    ensures ops { buf.new.ops
        ≡ buf.old.ops ++ compare_rows W.BITS (sources span.now b) start bit (span.now.regs + 1) }
    ensures spare { buf.new.spare + 2 * (span.now.regs + 1) ≡ buf.old.spare }
{
    let start_bit = bit_of(start, bit);
    for i in 0..span.regs + 1 {
        let row = source_of(span, b, i).row;
        let keys = [(candidate_row(i), true), (row, !start_bit)];
        push_counted(buf, lane(W::BITS as u8, bit), &keys, bit, how_of(start_bit));
    }
}

// The candidates at the bit below, where there is one.
fn emit_stays_to<W: Width>(buf: &mut MicroBuf, span: &Span, b: u8, start: u64, bit: u8)
    requires span { IsSpan span.now }
    requires b { IsOperandRow b }
    requires bit { bit < W.BITS }
    requires room { stays_length span.now bit ≤ buf.old.spare }
    ensures ops { buf.new.ops
        ≡ buf.old.ops ++ stays_to W.BITS (span.now.regs + 1) (sources span.now b) start bit }
    ensures spare { buf.new.spare + stays_length span.now bit ≡ buf.old.spare }
{
    if bit > 0 {
        emit_stayings::<W>(buf, span, b, start, bit - 1);
    }
}

// One bit of the result, in every element of the free row, and the candidates that it leaves.
fn emit_order_bit<W: Width>(buf: &mut MicroBuf, span: &Span, b: u8, start: u64, bit: u8)
    requires span { IsSpan span.now }
    requires b { IsOperandRow b }
    requires bit { bit < W.BITS }
    requires room { bit_length span.now bit ≤ buf.old.spare }
    ensures ops { buf.new.ops
        ≡ buf.old.ops ++ order_bit W.BITS (span.now.regs + 1) (sources span.now b) start bit }
    ensures spare { buf.new.spare + bit_length span.now bit ≡ buf.old.spare }
{
    emit_comparing::<W>(buf, span, b, start, bit);
    emit_spread(buf, W::BITS as u8, FREE_ROW);
    emit_stays_to::<W>(buf, span, b, start, bit);
}

// All bits.
pub(crate) fn emit_order_bits<W: Width>(buf: &mut MicroBuf, span: &Span, b: u8, start: u64)
    requires span { IsSpan span.now }
    requires b { IsOperandRow b }
    requires room { bits_length span.now W.BITS ≤ buf.old.spare }
    ensures ops { buf.new.ops
        ≡ buf.old.ops ++ order_bits W.BITS (span.now.regs + 1) (sources span.now b) start W.BITS }
    ensures spare { buf.new.spare + bits_length span.now W.BITS ≡ buf.old.spare }
{
    for done in 0..W::BITS as u8 {
        emit_order_bit::<W>(buf, span, b, start, W::BITS as u8 - 1 - done);
    }
}
