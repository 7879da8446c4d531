//! A chain of 32 subarrays of bits that search their columns by content.
#![tactic(auto)]

mod chain;
mod counts;
mod key_match;
mod keys;
mod row_moves;
mod subarray_sets;

pub use chain::Chain;
pub use counts::Counts;
pub use keys::Keys;
