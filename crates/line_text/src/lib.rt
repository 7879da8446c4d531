//! Lines of text, and hexadecimal numbers in them.
#![tactic(auto)]

mod pieces;

pub use pieces::{LineBuf, push_hex};
