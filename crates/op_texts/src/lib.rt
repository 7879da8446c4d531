//! Micro-operations that are read from their listings, and whether a chain can run them.
#![tactic(auto)]

mod fields;
mod ranges;
mod reading;

pub use ranges::{ROWS, are_in_range, is_in_range};
pub use reading::op_of;
