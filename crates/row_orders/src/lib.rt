//! The greatest and the least of a group of elements and one more, with signs and without: an element is a candidate while
//! its bits agree with the result's, from the highest bit down.
#![tactic(auto)]

mod bits;
mod candidates;
mod orders;
mod sources;

pub use orders::{Order, emit_order};
pub use sources::Source;
