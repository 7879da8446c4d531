//! Texts about a run: the lines of what it took, and the work rows and tags of its slices.
#![tactic(auto)]

mod counts;
mod work;

pub use counts::{bench_line, counts_lines};
pub use work::{write_slice, write_tags, write_work};
