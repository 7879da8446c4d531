//! The tree that counts the tags of a chain and finds the first.
#![tactic(auto)]

mod tags;
mod weights;

pub use tags::{any, count, first};
pub use weights::{How, weighted};
