//! The kinds of operation that reduce a group of elements to one number, and those that count the ones of a mask or find
//! the first of them. Each call appends the list of micro-operations of its kind.
#![tactic(auto)]

mod calls;
mod kinds;
mod lists;
mod masks;
mod orders;

pub use calls::{emit_redand, emit_redor, emit_redsum, emit_redxor, emit_wredsum, emit_wredsumu};
pub use kinds::Reduction;
pub use lists::emit_reduction;
pub use masks::{emit_cpop, emit_first, emit_sbf, emit_sif, emit_sof};
pub use orders::{emit_redmax, emit_redmaxu, emit_redmin, emit_redminu};
