//! Plans of the vector instructions that read whole groups or whole masks and write elements: the
//! logic of masks, the places that stand to the first one of a mask, the numbers of elements, slides,
//! gathers of one element, a scalar into element 0, and whole registers.
#![tactic(auto)]

mod bodies;
mod frames;
mod kinds;
mod marks;
mod moves;
mod planning;
mod written;

pub use kinds::{Kind, kind_of};
pub use moves::Move;
pub use planning::plan;
