//! What counts of the bits of elements make of the control number: the lists that count the bits of registers, element by
//! element, and those that bring the number into element 0 of a register.
#![tactic(auto)]

mod counts;
mod first;
mod span;

pub use counts::{Counting, emit_counts, emit_group, lane, push_counted};
pub use first::{emit_first_element, emit_spread, first_end, push_first_window};
pub use span::Span;
