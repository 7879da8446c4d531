//! The kinds of operation that move elements between places: slides, gathers of one element, the
//! numbers of elements, and a scalar into one element. Each call appends the list of
//! micro-operations of its kind.
#![tactic(auto)]

mod calls;

pub use calls::{emit_index, emit_pick, emit_single, emit_slide};
