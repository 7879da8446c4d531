// Columns that are copied along a subarray, word by word.
ghost use Rattle.std.specs.Prelude.{◌≡◌, ℕ, ◌+◌, ◌-◌, ◌*◌, ◌<◌, ◌≤◌, eqb, slice_index};
ghost use Rattle.std.specs.Int.{bit_at};
ghost use Rattle.bit_rows.specs.Words.{word_bit};
ghost use Rattle.steer_net.specs.Runs.{copied_bit};

use crate::ranges::range_word;
use bit_rows::{MAX_WORDS, WORD_BITS};

// Copies the bits of a row from the column `at` on into the columns from `from` on and below `to`.
pub(crate) fn copy_columns(row: &[u64], at: u32, words: &mut [u64; MAX_WORDS], from: u32, to: u32)
    requires order { from ≤ to }
    requires few { to ≤ 2048 }
    requires near { at ≤ 2048 }
    ensures { (c : ℕ) → word_bit words.new c ≡ copied_bit (word_bit row.now) at from to (word_bit words.old) c }
{
    for i in from / WORD_BITS..to.div_ceil(WORD_BITS) {
        let range = range_word(from, to, i);
        let moved = moved_word(row, at + WORD_BITS * i, from);
        let kept = words[i as usize] & (range ^ u64::MAX);
        words[i as usize] = kept | (moved & range);
    }
}

// The bits of a row from the column `at` less `from` on. Those before its first column are of no account.
fn moved_word(row: &[u64], at: u32, from: u32) -> u64
    requires { from < at + 64 }
    ensures { (j : ℕ) → j < 64 → from ≤ at + j → eqb (bit_at result j) 1 ≡ word_bit row.now (at + j - from) }
{
    if at >= from {
        word_from(row, at - from)
    } else {
        word_at(row, 0) << (from - at)
    }
}

// The bits of a row from a column on.
fn word_from(row: &[u64], start: u32) -> u64
    ensures { (j : ℕ) → j < 64 → eqb (bit_at result j) 1 ≡ word_bit row.now (start + j) }
{
    let place = start % WORD_BITS;
    let i = (start / WORD_BITS) as usize;
    let low = word_at(row, i) >> place;
    if place == 0 {
        low
    } else {
        low | (word_at(row, i + 1) << (WORD_BITS - place))
    }
}

// A word of a row, which has none past its end.
fn word_at(row: &[u64], i: usize) -> u64
    ensures { result ≡ slice_index row.now i }
{
    match row.get(i) {
        Some(word) => *word,
        None => 0,
    }
}
