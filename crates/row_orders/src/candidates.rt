// The candidates: all active elements at the highest bit, and those whose bits agree with the result's below it.
ghost use Rattle.std.specs.Prelude.{◌≡◌, [], ◌∷◌, ◌+◌, ◌*◌, ◌<◌, ◌≤◌, ◌++◌};
ghost use Rattle.micro_ir.specs.Steps.{micros};
ghost use Rattle.micro_ir.specs.WorkRows.{IsOperandRow};
ghost use Rattle.row_counts.specs.Spans.{IsSpan};
ghost use Rattle.row_orders.specs.Lists.{IsSourceRow, sources, begin_row, begin_rows, stay_on, stay_step, stay_rows};

use crate::sources::{Source, bit_of, candidate_row, source_of};
use bit_laws::Width;
use micro_ir::{ACTIVE_ROW, FREE_ROW, MicroBuf, MicroOp, emit_above, emit_below, emit_clear};
use row_counts::Span;

// The value of one row whose bit is 1.
const ONE_ON: [u8; 1] = [1];

// The values of a candidate, its bit and the result's bit, the candidate lowest, where it stays: its bit is the wanted one or
// the result's is not. The bit that is wanted is 1, and 0.
const STAYS_BY_ONE: [u8; 3] = [1, 3, 7];

const STAYS_BY_ZERO: [u8; 3] = [1, 5, 7];

// The values where a candidate stays, by the start's bit: what is wanted is the other one.
fn staying(bit: bool) -> [u8; 3]
    ensures { result ≡ stay_on bit }
{
    if bit { STAYS_BY_ZERO } else { STAYS_BY_ONE }
}

// The window of row number `i`, and its active elements at the highest bit of its candidates.
fn emit_beginning<W: Width>(buf: &mut MicroBuf, source: &Source, i: u8)
    requires i { i ≤ 8 }
    requires room { 5 ≤ buf.old.spare }
    ensures ops { buf.new.ops ≡ buf.old.ops ++ begin_row W.BITS source.now i }
    ensures spare { buf.new.spare + 5 ≡ buf.old.spare }
{
    let candidates = candidate_row(i);
    buf.push(MicroOp::Window {
        row: ACTIVE_ROW,
        width: W::BITS as u8,
        first: source.first,
        from: source.from,
        to: source.to,
        masked: source.masked,
    });
    emit_clear(buf, candidates);
    emit_above::<W>(
        buf,
        &[ACTIVE_ROW],
        &ONE_ON,
        candidates,
        W::BITS as u8 - 1,
        0,
    );
}

// The same for all rows.
pub(crate) fn emit_beginnings<W: Width>(buf: &mut MicroBuf, span: &Span, b: u8)
    requires span { IsSpan span.now }
    requires b { IsOperandRow b }
    requires room { 5 * (span.now.regs + 1) ≤ buf.old.spare }
    ensures ops { buf.new.ops
        ≡ buf.old.ops ++ begin_rows W.BITS (sources span.now b) (span.now.regs + 1) }
    ensures spare { buf.new.spare + 5 * (span.now.regs + 1) ≡ buf.old.spare }
{
    for i in 0..span.regs + 1 {
        emit_beginning::<W>(buf, &source_of(span, b, i), i);
    }
}

// The candidates of row number `i` that stay at the bit below `above`, where the start has this bit at `above`.
fn emit_staying<W: Width>(buf: &mut MicroBuf, row: u8, i: u8, above: u8, start_bit: bool)
    requires row { IsSourceRow row }
    requires i { i ≤ 8 }
    requires some { 0 < above }
    requires above { above < W.BITS }
    requires room { 5 ≤ buf.old.spare }
    ensures ops { buf.new.ops
        ≡ buf.old.ops ++ micros W.BITS (stay_step row i start_bit above ∷ []) }
    ensures spare { buf.new.spare + 5 ≡ buf.old.spare }
{
    let candidates = candidate_row(i);
    let inputs = [candidates, row, FREE_ROW];
    emit_below::<W>(buf, &inputs, &staying(start_bit), candidates, above, 1);
}

// The same for all rows.
pub(crate) fn emit_stayings<W: Width>(buf: &mut MicroBuf, span: &Span, b: u8, start: u64, below: u8)
    requires span { IsSpan span.now }
    requires b { IsOperandRow b }
    requires below { below + 1 < W.BITS }
    requires room { 5 * (span.now.regs + 1) ≤ buf.old.spare }
    ensures ops { buf.new.ops
        ≡ buf.old.ops ++ stay_rows W.BITS (sources span.now b) start below (span.now.regs + 1) }
    ensures spare { buf.new.spare + 5 * (span.now.regs + 1) ≡ buf.old.spare }
{
    for i in 0..span.regs + 1 {
        let row = source_of(span, b, i).row;
        emit_staying::<W>(buf, row, i, below + 1, bit_of(start, below + 1));
    }
}
