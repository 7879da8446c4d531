//! The kinds of operation that multiply: products, their high halves, products added to or taken from
//! an addend, and products of fractions. Each call appends the list of micro-operations of its kind.
#![tactic(auto)]

mod calls;
mod finish;
mod fractions;
mod kinds;
mod lists;
mod rounds;
mod rows;
mod smul;

pub use calls::{emit_macc, emit_mul, emit_mulh, emit_mulhsu, emit_mulhu, emit_nmsac};
pub use kinds::Product;
pub use lists::{emit_product, product_length_law};
pub use rows::{CLIPPED_ROW, CORRECTED_ROW, HIGH_ROW, OVERFLOW_ROW};
pub use smul::emit_smul;
