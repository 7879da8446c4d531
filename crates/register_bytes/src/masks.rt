// The same bit of many bytes.
ghost use Rattle.std.specs.Prelude.{◌≡◌, ℕ, ◌+◌, ◌*◌, ◌^◌, ◌<◌, ◌≤◌, cond, length, slice_index};
ghost use Rattle.bit_laws.specs.Numbers.{bit_of};
ghost use Rattle.bit_rows.specs.Words.{word_bit};

use bit_rows::{MAX_WORDS, WORD_BITS};
use std::simd::prelude::*;

// The bytes whose bits are one word.
const WORD: usize = WORD_BITS as usize;

// So many bits of a word are spread at once.
const STEP: usize = 8;

// Bit `bit` of each byte, as a word.
fn bits_of_lanes(lanes: u8x64, bit: u8) -> u64
    requires all { length lanes ≡ 64 }
    requires bit { bit < 8 }
    ensures { (k : ℕ) → k < 64 → bit_of result k ≡ bit_of (slice_index lanes k) bit }
{
    (lanes & u8x64::splat(1 << bit))
        .simd_ne(u8x64::splat(0))
        .to_bitmask()
}

// Bit `bit` of each byte, as so many words.
pub(crate) fn plane_of(lane: &[u8], bit: u8, count: usize) -> [u64; MAX_WORDS]
    requires all { length lane.now ≡ 2048 }
    requires bit { bit < 8 }
    requires few { count ≤ 32 }
    requires past { (c : ℕ) → 64 * count ≤ c → slice_index lane.now c ≡ 0 }
    ensures all { length result ≡ 32 }
    ensures bits { (c : ℕ) → word_bit result c ≡ bit_of (slice_index lane.now c) bit }
{
    let mut words = [0; MAX_WORDS];
    for k in 0..count {
        words[k] = bits_of_lanes(u8x64::from_slice(&lane[k * WORD..]), bit);
    }
    words
}

// The value of a bit in each of eight bytes, where the bit of so many in a row is set.
fn spread(bits: u8, bit: u8) -> u8x8
    requires bit { bit < 8 }
    ensures all { length result ≡ 8 }
    ensures bits { (k : ℕ) → k < 8 → slice_index result k ≡ cond (bit_of bits k) (2 ^ bit) 0 }
{
    let each = u8x8::from_array([1, 2, 4, 8, 16, 32, 64, 128]);
    (u8x8::splat(bits) & each)
        .simd_ne(u8x8::splat(0))
        .select(u8x8::splat(1 << bit), u8x8::splat(0))
}

// Adds the value of a bit to the bytes whose bit of the words is set.
pub(crate) fn add_plane(words: &[u64], bit: u8, lane: &mut [u8])
    requires all { length lane.old ≡ 2048 }
    requires bit { bit < 8 }
    requires few { length words.now ≤ 32 }
    requires small { (c : ℕ) → slice_index lane.old c < 2 ^ bit }
    ensures { (c : ℕ) → slice_index lane.new c ≡ slice_index lane.old c + cond (word_bit words.now c) (2 ^ bit) 0 }
{
    for k in 0..words.len() * STEP {
        let bits = (words[k / STEP] >> (k % STEP * STEP)) % 256;
        let at = k * STEP;
        (u8x8::from_slice(&lane[at..]) + spread(bits as u8, bit)).copy_to_slice(&mut lane[at..]);
    }
}
