//! What is done to packed bits: to one word at once, and else to four words at a time and then word by word.
ghost use Rattle.std.specs.Prelude.{◌≡◌, ℕ, ◌*◌, ◌<◌, ◌≤◌, true, false, not, ◌&&◌, ◌||◌, length, replicate, IfSome, IfNone};
ghost use Rattle.std.specs.List.{count_by};
ghost use Rattle.bit_rows.specs.Words.{word_bit, flip_of};
ghost use Rattle.bit_rows.specs.Rows.{bits_of};
ghost use mathlib.Core.Bool.{beq};

use std::simd::prelude::*;

// So many words are taken together.
const LANES: usize = 4;

/// Keeps each bit where the other bit is set. The words are equally many.
pub fn and_words(into: &mut [u64], with: &[u64])
    requires { length into.old ≡ length with.now }
    ensures { (k : ℕ) → word_bit into.new k ≡ word_bit into.old k && word_bit with.now k }
{
    if into.len() == 1 {
        into[0] &= with[0];
    } else {
        and_lanes(into, with);
    }
}

/// Sets each bit where the other bit is set. The words are equally many.
pub fn or_words(into: &mut [u64], with: &[u64])
    requires { length into.old ≡ length with.now }
    ensures { (k : ℕ) → word_bit into.new k ≡ word_bit into.old k || word_bit with.now k }
{
    if into.len() == 1 {
        into[0] |= with[0];
    } else {
        or_lanes(into, with);
    }
}

/// Clears in `into` each bit where the bit of the row is not `want`. The words are equally many.
pub fn match_words(row: &[u64], want: bool, into: &mut [u64])
    requires { length row.now ≡ length into.old }
    ensures { (k : ℕ) → word_bit into.new k ≡ word_bit into.old k && beq (word_bit row.now k) want }
{
    if into.len() == 1 {
        into[0] &= row[0] ^ flip_of(want);
    } else {
        match_lanes(row, want, into);
    }
}

/// Becomes the matched bits of the row: a bit is set where that of the row is `want`. The words are
/// equally many.
pub fn match_words_from(row: &[u64], want: bool, into: &mut [u64])
    requires { length row.now ≡ length into.old }
    ensures { (k : ℕ) → k < 64 * length into.old → word_bit into.new k ≡ beq (word_bit row.now k) want }
{
    if into.len() == 1 {
        into[0] = row[0] ^ flip_of(want);
    } else {
        match_lanes_from(row, want, into);
    }
}

/// Turns each bit into the other one.
pub fn flip_words(words: &mut [u64])
    ensures { (k : ℕ) → k < 64 * length words.old → word_bit words.new k ≡ not (word_bit words.old k) }
{
    for i in 0..words.len() {
        words[i] ^= u64::MAX;
    }
}

/// Becomes the other words, which are equally many.
pub fn copy_words(into: &mut [u64], from: &[u64])
    requires { length into.old ≡ length from.now }
    ensures { into.new ≡ from.now }
{
    if into.len() == 1 {
        into[0] = from[0];
    } else {
        into.copy_from_slice(from);
    }
}

/// Makes each word this one.
pub fn fill_words(words: &mut [u64], word: u64)
    ensures { words.new ≡ replicate (length words.old) word }
{
    if words.len() == 1 {
        words[0] = word;
    } else {
        words.fill(word);
    }
}

/// The first bit that is set in at most 32 words, or `None` where none is.
pub fn first_bit(words: &[u64]) -> Option<u32>
    requires { length words.now ≤ 32 }
    ensures set { IfSome result (λ i. word_bit words.now i ≡ true) }
    ensures first { IfSome result (λ i. (k : ℕ) → k < i → word_bit words.now k ≡ false) }
    ensures none { IfNone result ((k : ℕ) → word_bit words.now k ≡ false) }
{
    for i in 0..words.len() {
        let word = words[i];
        if word != 0 {
            return Some(i as u32 * 64 + word.trailing_zeros());
        }
    }
    None
}

/// How many bits are set in at most 32 words.
pub fn count_words(words: &[u64]) -> u32
    requires { length words.now ≤ 32 }
    ensures { result ≡ count_by (λ bit. bit) (bits_of (64 * length words.now) words.now) }
{
    let mut count = 0;
    let whole = words.len() / LANES;
    for k in 0..whole {
        let i = k * LANES;
        count += u64x4::from_slice(&words[i..]).count_ones().reduce_sum() as u32;
    }
    for i in whole * LANES..words.len() {
        count += words[i].count_ones();
    }
    count
}

// `and_words` for any number of words.
fn and_lanes(into: &mut [u64], with: &[u64])
    requires { length into.old ≡ length with.now }
    ensures { (k : ℕ) → word_bit into.new k ≡ word_bit into.old k && word_bit with.now k }
{
    let whole = into.len() / LANES;
    for k in 0..whole {
        let i = k * LANES;
        (u64x4::from_slice(&into[i..]) & u64x4::from_slice(&with[i..])).copy_to_slice(
            &mut into[i..],
        );
    }
    for i in whole * LANES..into.len() {
        into[i] &= with[i];
    }
}

// `or_words` for any number of words.
fn or_lanes(into: &mut [u64], with: &[u64])
    requires { length into.old ≡ length with.now }
    ensures { (k : ℕ) → word_bit into.new k ≡ word_bit into.old k || word_bit with.now k }
{
    let whole = into.len() / LANES;
    for k in 0..whole {
        let i = k * LANES;
        (u64x4::from_slice(&into[i..]) | u64x4::from_slice(&with[i..])).copy_to_slice(
            &mut into[i..],
        );
    }
    for i in whole * LANES..into.len() {
        into[i] |= with[i];
    }
}

// `match_words` for any number of words.
fn match_lanes(row: &[u64], want: bool, into: &mut [u64])
    requires { length row.now ≡ length into.old }
    ensures { (k : ℕ) → word_bit into.new k ≡ word_bit into.old k && beq (word_bit row.now k) want }
{
    let flip = flip_of(want);
    let flips = u64x4::splat(flip);
    let whole = into.len() / LANES;
    for k in 0..whole {
        let i = k * LANES;
        (u64x4::from_slice(&into[i..]) & (u64x4::from_slice(&row[i..]) ^ flips)).copy_to_slice(
            &mut into[i..],
        );
    }
    for i in whole * LANES..into.len() {
        into[i] &= row[i] ^ flip;
    }
}

// `match_words_from` for any number of words.
fn match_lanes_from(row: &[u64], want: bool, into: &mut [u64])
    requires { length row.now ≡ length into.old }
    ensures { (k : ℕ) → k < 64 * length into.old → word_bit into.new k ≡ beq (word_bit row.now k) want }
{
    let flip = flip_of(want);
    let flips = u64x4::splat(flip);
    let whole = into.len() / LANES;
    for k in 0..whole {
        let i = k * LANES;
        (u64x4::from_slice(&row[i..]) ^ flips).copy_to_slice(&mut into[i..]);
    }
    for i in whole * LANES..into.len() {
        into[i] = row[i] ^ flip;
    }
}

// What a word is flipped by, so that its bits that are as wanted become 1.
fn flip_of(want: bool) -> u64
    ensures { result ≡ flip_of want }
{
    if want { 0 } else { u64::MAX }
}
