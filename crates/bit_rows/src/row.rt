ghost use Rattle.std.specs.Prelude.{◌≡◌, ℕ, ◌+◌, ◌*◌, ◌/◌, ◌<◌, ◌≤◌, Bool, true, false, not, ◌&&◌, ◌||◌, List, length, map, slice_index_or, slice_set, replicate, IfOk, if◌then◌else◌, ltb};
ghost use Rattle.std.specs.List.{count_by, position};
ghost use Rattle.bit_rows.specs.Words.{word_bit, words_for, IsTrimmed};
ghost use Rattle.bit_rows.specs.Rows.{zip_with};
ghost use mathlib.Core.Bool.{beq};

use crate::kernels::{
    and_words, copy_words, count_words, fill_words, first_bit, flip_words, match_words,
    match_words_from, or_words,
};
use crate::sizes::{MAX_WORDS, WORD_BITS};
use std::alloc::{AllocError as NoMemory, Global};
use std::marker::Model;

/// A row of at most 2,048 bits.
#[derive(Drop)]
pub struct Row {
    len: u32,
    // Bit i mod 64 of word i div 64 is the bit at place i; the bits past the row are 0.
    words: [u64; MAX_WORDS],
}

impl Model for Row {
    ghost use Rattle.std.specs.Prelude.{Bool, List, ◌≤◌};
    ghost use Rattle.bit_rows.specs.Words.{IsTrimmed};
    ghost use Rattle.bit_rows.specs.Rows.{bits_of};

    ghost Value = { List Bool };

    ghost view = { λ row. bits_of row.len row.words };

    ghost invariant = { λ row. record { few : row.len ≤ 2048; trimmed : IsTrimmed row.len row.words } };
}

impl Row {
    /// A row of `len` zeros.
    pub fn new(_alloc: Global, len: u32) -> Result<Row, NoMemory>
        requires some { 1 ≤ len }
        requires few { len ≤ 2048 }
        ensures { IfOk result (λ row. row ≡ replicate len false) }
    {
        Ok(Row {
            len,
            words: [0; MAX_WORDS],
        })
    }

    /// The bit at place `i`.
    pub fn get(&self, i: u32) -> bool
        requires { i < length self.now }
        ensures { result ≡ slice_index_or self.now i false }
    {
        (self.words[(i / WORD_BITS) as usize] >> (i % WORD_BITS)) & 1 == 1
    }

    /// Writes the bit at place `i`.
    pub fn set(&mut self, i: u32, bit: bool)
        requires { i < length self.old }
        ensures { self.new ≡ slice_set self.old i bit }
    {
        let word = self.words[(i / WORD_BITS) as usize];
        let place = 1 << (i % WORD_BITS);
        self.words[(i / WORD_BITS) as usize] = if bit { word | place } else { word & !place };
    }

    /// The number of places, up to 2,048.
    pub fn len(&self) -> u32
        ensures value { result ≡ length self.now }
        ensures few { result ≤ 2048 }
    {
        self.len
    }

    /// The packed words: bit i mod 64 of word i div 64 is the bit at place i, and the bits past the
    /// row are 0.
    pub fn words(&self) -> &[u64]
        ensures len { length result.now ≡ words_for (length self.now) }
        ensures few { length result.now ≤ 32 }
        ensures bits { (k : ℕ) → word_bit result.now k ≡ slice_index_or self.now k false }
    {
        &self.words[..words_of(self.len)]
    }

    /// Becomes the packed words, whose bits past the row are 0.
    pub fn set_words(&mut self, words: &[u64])
        requires len { length words.now ≡ words_for (length self.old) }
        requires trimmed { IsTrimmed (length self.old) words.now }
        ensures len { length self.new ≡ length self.old }
        ensures bits { (k : ℕ) → slice_index_or self.new k false ≡ word_bit words.now k }
    {
        let count = words_of(self.len);
        copy_words(&mut self.words[..count], words);
    }

    /// Sets each bit.
    pub fn fill(&mut self)
        ensures len { length self.new ≡ length self.old }
        ensures bits { self.new ≡ replicate (length self.old) true }
    {
        let len = self.len;
        fill_words(&mut self.words[..words_of(len)], u64::MAX);
        trim(&mut self.words, len);
    }

    /// Clears each bit.
    pub fn clear(&mut self)
        ensures len { length self.new ≡ length self.old }
        ensures bits { self.new ≡ replicate (length self.old) false }
    {
        let count = words_of(self.len);
        fill_words(&mut self.words[..count], 0);
    }

    /// Turns each bit into the other one.
    pub fn invert(&mut self)
        ensures len { length self.new ≡ length self.old }
        ensures bits { self.new ≡ map not self.old }
    {
        let len = self.len;
        flip_words(&mut self.words[..words_of(len)]);
        trim(&mut self.words, len);
    }

    /// Keeps each bit where the other row's is set, and clears it elsewhere. The rows are equally
    /// long.
    pub fn and_with(&mut self, other: &Row)
        requires { length self.old ≡ length other.now }
        ensures len { length self.new ≡ length self.old }
        ensures bits { self.new ≡ zip_with (λ bit with. bit && with) self.old other.now }
    {
        let count = words_of(self.len);
        and_words(&mut self.words[..count], &other.words[..count]);
    }

    /// Sets each place where the other row's bit is set. The rows are equally long.
    pub fn or_with(&mut self, other: &Row)
        requires { length self.old ≡ length other.now }
        ensures len { length self.new ≡ length self.old }
        ensures bits { self.new ≡ zip_with (λ bit with. bit || with) self.old other.now }
    {
        let count = words_of(self.len);
        or_words(&mut self.words[..count], &other.words[..count]);
    }

    /// Clears in `into` each place where the bit is not `want`. The rows are equally long.
    pub fn match_into(&self, want: bool, into: &mut Row)
        requires { length self.now ≡ length into.old }
        ensures len { length into.new ≡ length into.old }
        ensures bits { into.new ≡ zip_with (λ matched bit. matched && beq bit want) into.old self.now }
    {
        let count = words_of(self.len);
        match_words(&self.words[..count], want, &mut into.words[..count]);
    }

    /// Becomes the matched bits of the other row: a bit is set where that one's is `want`. The rows
    /// are equally long.
    pub fn match_from(&mut self, row: &Row, want: bool)
        requires { length self.old ≡ length row.now }
        ensures len { length self.new ≡ length self.old }
        ensures bits { self.new ≡ map (λ bit. beq bit want) row.now }
    {
        let len = self.len;
        let count = words_of(len);
        match_words_from(&row.words[..count], want, &mut self.words[..count]);
        trim(&mut self.words, len);
    }

    /// Writes the bit at each place where the mask's bit is set. The rows are equally long.
    pub fn write_where(&mut self, mask: &Row, bit: bool)
        requires { length self.old ≡ length mask.now }
        ensures len { length self.new ≡ length self.old }
        ensures bits { self.new ≡ zip_with (λ old chosen. if chosen then bit else old) self.old mask.now }
    {
        let count = words_of(self.len);
        if bit {
            or_words(&mut self.words[..count], &mask.words[..count]);
        } else {
            match_words(&mask.words[..count], false, &mut self.words[..count]);
        }
    }

    /// Becomes the other row, which is equally long.
    pub fn copy_from(&mut self, other: &Row)
        requires { length self.old ≡ length other.now }
        ensures len { length self.new ≡ length self.old }
        ensures bits { self.new ≡ other.now }
    {
        let count = words_of(self.len);
        copy_words(&mut self.words[..count], &other.words[..count]);
    }

    /// How many bits are set.
    pub fn count(&self) -> u32
        ensures { result ≡ count_by (λ bit. bit) self.now }
    {
        count_words(&self.words[..words_of(self.len)])
    }

    /// The first place whose bit is set, or `None` where none is.
    pub fn first(&self) -> Option<u32>
        ensures { result ≡ position (λ bit. bit) self.now }
    {
        first_bit(&self.words[..words_of(self.len)])
    }
}

// Clears the bits from place `len` on, of which those past the word of `len` are 0.
fn trim(words: &mut [u64; MAX_WORDS], len: u32)
    requires few { len ≤ 2048 }
    requires past { IsTrimmed (64 * words_for len) words.old }
    ensures { (k : ℕ) → word_bit words.new k ≡ (ltb k len && word_bit words.old k) }
{
    if len % WORD_BITS != 0 {
        words[(len / WORD_BITS) as usize] &= (1 << (len % WORD_BITS)) - 1;
    }
}

// How many words hold so many bits.
fn words_of(len: u32) -> usize
    requires { len ≤ 2048 }
    ensures value { result ≡ words_for len }
    ensures few { result ≤ 32 }
{
    len.div_ceil(WORD_BITS) as usize
}
