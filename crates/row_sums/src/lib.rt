//! The parts that lists of products and of quotients are made of: sums of rows, which carry from bit
//! to bit, and rows moved by one place.
#![tactic(auto)]

mod moves;
mod rows;
mod sums;

pub use moves::{emit_doubled, emit_halved, emit_moved};
pub use rows::{HALF_ROW, OTHER_HALF_ROW, TOTAL_ROW, half_row};
pub use sums::{emit_ripple, emit_total};
