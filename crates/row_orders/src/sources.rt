// The rows that an order compares.
ghost use Rattle.std.specs.Prelude.{◌≡◌, ◌<◌, ◌≤◌};
ghost use Rattle.bit_laws.specs.Numbers.{bit_of};
ghost use Rattle.micro_ir.specs.WorkRows.{IsOperandRow};
ghost use Rattle.row_counts.specs.Spans.{IsSpan};
ghost use Rattle.row_orders.specs.Lists.{IsSourceRow, sources, cand};

use row_counts::{Span, first_end};

/// A row, and the window of its active elements.
#[derive(Clone, Copy, Debug, PartialEq, Eq)]
pub struct Source {
    /// The row.
    pub row: u8,
    /// The number of its first element.
    pub first: u32,
    /// The first element that may be active.
    pub from: u32,
    /// The element above the last one that may be active.
    pub to: u32,
    /// Whether an element is active only where its bit of the mask is 1.
    pub masked: bool,
}

// The row of the candidates of the first row that is compared; those of the others stand above it.
const CANDIDATE_ROW: u8 = 38;

// The registers of a group in their order, and then element 0 of row `b`.
pub(crate) fn source_of(span: &Span, b: u8, i: u8) -> Source
    requires span { IsSpan span.now }
    requires b { IsOperandRow b }
    ensures value { result ≡ sources span.now b i }
    ensures row { IsSourceRow result.row }
{
    if i < span.regs {
        Source {
            row: span.base + i,
            first: u32::from(i) * span.per,
            from: span.from,
            to: span.to,
            masked: span.masked,
        }
    } else {
        Source {
            row: b,
            first: 0,
            from: span.from,
            to: first_end(span.to),
            masked: false,
        }
    }
}

// The row of its candidates.
pub(crate) fn candidate_row(i: u8) -> u8
    requires few { i ≤ 8 }
    ensures { result ≡ cand i }
{
    CANDIDATE_ROW + i
}

// A bit of a number.
pub(crate) fn bit_of(number: u64, bit: u8) -> bool
    requires { bit < 64 }
    ensures { result ≡ bit_of number bit }
{
    (number >> bit) & 1 == 1
}
