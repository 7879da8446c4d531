//! Plans of vector instructions: the list of micro-operations by which an associative memory carries one out.
#![tactic(auto)]

mod halves;
mod laying;
mod moving;
mod operands;
mod planning;
mod recipes;
mod registers;

pub use moving::permute;
pub use planning::{engine, plan};
