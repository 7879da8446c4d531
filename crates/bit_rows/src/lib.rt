//! Rows of bits, and what a chain of them shows to those who move and count bits.
#![tactic(auto)]

mod kernels;
mod planes;
mod row;
mod sizes;

pub use kernels::{
    and_words, copy_words, count_words, fill_words, first_bit, flip_words, match_words,
    match_words_from, or_words,
};
pub use planes::Planes;
pub use row::Row;
pub use sizes::{MAX_COLUMNS, MAX_WORDS, SUBARRAYS, WORD_BITS};
