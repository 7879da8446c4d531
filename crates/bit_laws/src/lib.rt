//! Widths of elements, and laws of numbers of bits and of bytes.
#![tactic(auto)]

mod width;

pub use width::{W8, W16, W32, Width};
