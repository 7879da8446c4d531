//! Plans of the vector instructions that make one number of a whole mask or a whole group: how many
//! places of a mask are set, the first of them, and reductions.
#![tactic(auto)]

mod kinds;
mod numbers;
mod planning;
mod reductions;

pub use kinds::{Folding, Kind, MaskNumber, kind_of};
pub use planning::plan;
