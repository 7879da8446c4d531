//! The kinds of operation that divide: quotients and remainders, with signs and without. Each call
//! appends the list of micro-operations of its kind.
#![tactic(auto)]

mod calls;
mod kinds;
mod lists;
mod rounds;
mod rows;
mod signs;

pub use calls::{emit_div, emit_divu, emit_rem, emit_remu};
pub use kinds::Division;
pub use lists::{division_length_law, emit_division};
pub use rows::{BORROW_ROW, MOVED_ROW, NONZERO_ROW, REST_ROW};
