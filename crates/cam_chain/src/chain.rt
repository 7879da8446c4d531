ghost use Rattle.std.specs.Prelude.{◌≡◌, ℕ, ◌+◌, ◌*◌, ◌^◌, ◌<◌, ◌≤◌, List, Bool, true, false, eqb, length, replicate, slice_index_or, IfOk};
ghost use Rattle.std.specs.Int.{bit_at};
ghost use Rattle.bit_rows.specs.Slices.{blank};
ghost use Rattle.cam_chain.specs.Slices.{searched, updated, passed, word_written};
ghost use Rattle.cam_chain.specs.ChainValue.{slices_of, no_counts};

use crate::counts::Counts;
use crate::key_match::search_subarray;
use crate::keys::Keys;
use crate::row_moves::{copy_rows, shift_down, shift_up};
use crate::subarray_sets::{lowest_of, without};
use bit_rows::{Planes, Row};
use std::alloc::{AllocError as NoMemory, Global};
use std::marker::Model;

/// 32 subarrays of 64 rows of bits, with a tag for each column of each subarray.
#[derive(Drop)]
pub struct Chain {
    columns: u32,
    // Row 64 * sub + row is the row of the subarray.
    rows: Vec<Row>,
    tags: Vec<Row>,
    // The match of one subarray that is to be joined with its tags, kept here so that a search takes
    // no memory.
    scratch: Row,
    counts: Counts,
}

impl Model for Chain {
    ghost use Rattle.std.specs.Prelude.{◌≡◌, ◌≤◌, length};
    ghost use Rattle.cam_chain.specs.ChainValue.{ChainValue, EachLong};

    ghost Value = { ChainValue };

    ghost view = { λ c. record {
      columns = c.columns;
      rows = c.rows.items;
      tags = c.tags.items;
      counts = c.counts;
    } };

    ghost invariant = { λ c. record {
      some_columns : 1 ≤ c.columns;
      few_columns : c.columns ≤ 2048;
      row_count : length c.rows.items ≡ 2048;
      tag_count : length c.tags.items ≡ 32;
      rows_long : EachLong c.columns c.rows.items;
      tags_long : EachLong c.columns c.tags.items;
      scratch_long : length c.scratch ≡ c.columns;
    } };
}

impl Chain {
    /// A chain of so many columns, with all bits, tags and counts zero.
    pub fn new(alloc: Global, columns: u32) -> Result<Chain, NoMemory>
        requires some { 1 ≤ columns }
        requires few { columns ≤ 2048 }
        ensures slices { IfOk result (λ chain. slices_of chain ≡ blank columns) }
        ensures columns { IfOk result (λ chain. chain.columns ≡ columns) }
        ensures counted { IfOk result (λ chain. chain.counts ≡ no_counts) }
    {
        Ok(Chain {
            columns,
            rows: zero_rows(alloc, 2048, columns)?,
            tags: zero_rows(alloc, 32, columns)?,
            scratch: Row::new(alloc, columns)?,
            counts: Counts {
                searches: 0,
                updates: 0,
                passes: 0,
            },
        })
    }

    /// The number of columns.
    pub fn columns(&self) -> u32
        ensures value { result ≡ self.now.columns }
        ensures some { 1 ≤ result }
        ensures few { result ≤ 2048 }
    {
        self.columns
    }

    /// The searches, updates and passes made so far.
    pub fn counts(&self) -> Counts
        ensures { result ≡ self.now.counts }
    {
        self.counts
    }

    /// The row of a subarray.
    pub fn row(&self, sub: u8, row: u8) -> &Row
        requires sub { sub < 32 }
        requires row { row < 64 }
        ensures len { length result.now ≡ self.now.columns }
        ensures bits { (c : ℕ) → c < self.now.columns
            → slice_index_or result.now c false ≡ (slices_of self.now).bit sub row c }
    {
        &self.rows[sub as usize * 64 + row as usize]
    }

    /// The tags of a subarray.
    pub fn tags(&self, sub: u8) -> &Row
        requires { sub < 32 }
        ensures len { length result.now ≡ self.now.columns }
        ensures bits { (c : ℕ) → c < self.now.columns
            → slice_index_or result.now c false ≡ (slices_of self.now).tag sub c }
    {
        &self.tags[sub as usize]
    }

    /// The word of a column of the row: bit s of it is the bit in subarray s. Nothing is counted.
    pub fn read_word(&self, row: u8, col: u32) -> u32
        requires row { row < 64 }
        requires column { col < self.now.columns }
        ensures { (s : ℕ) → s < 32 → eqb (bit_at result s) 1 ≡ (slices_of self.now).bit s row col }
    {
        let mut word = 0u32;
        for sub in 0..32u32 {
            if self.rows[sub as usize * 64 + row as usize].get(col) {
                word |= 1 << sub;
            }
        }
        word
    }

    /// Writes a word into a column of the row: bit s of it into subarray s. Nothing is counted.
    pub fn write_word(&mut self, row: u8, col: u32, word: u32)
        requires row { row < 64 }
        requires column { col < self.old.columns }
        ensures slices { slices_of self.new ≡ word_written row col word (slices_of self.old) }
        ensures columns { self.new.columns ≡ self.old.columns }
        ensures counted { self.new.counts ≡ self.old.counts }
    {
        for sub in 0..32u32 {
            self.rows[sub as usize * 64 + row as usize].set(col, (word >> sub) & 1 == 1);
        }
    }

    /// The tags of each selected subarray become the match, or are or-ed with it where `join`. Bit
    /// s of `subs` selects subarray s; the tags of the others stay. One search is counted.
    pub fn search(&mut self, subs: u32, keys: &Keys, join: bool)
        requires { self.old.counts.searches < 2 ^ 100 }
        ensures slices { slices_of self.new ≡ searched subs keys.now join (slices_of self.old) }
        ensures columns { self.new.columns ≡ self.old.columns }
        ensures counted { self.new.counts
            ≡ record self.old.counts { searches = self.old.counts.searches + 1 } }
    {
        let mut rest = subs;
        while rest != 0 {
            let sub = lowest_of(rest);
            search_subarray(
                self.rows.as_slice(),
                sub as usize * 64,
                keys,
                join,
                &mut self.scratch,
                &mut self.tags[sub as usize],
            );
            rest = without(rest, sub);
        }
        self.counts.searches += 1;
    }

    /// Writes the bit into the row of each selected subarray, in its tagged columns. Bit s of
    /// `subs` selects subarray s. One update is counted.
    pub fn update(&mut self, subs: u32, row: u8, bit: bool)
        requires row { row < 64 }
        requires counter { self.old.counts.updates < 2 ^ 100 }
        ensures slices { slices_of self.new ≡ updated subs row bit (slices_of self.old) }
        ensures columns { self.new.columns ≡ self.old.columns }
        ensures counted { self.new.counts
            ≡ record self.old.counts { updates = self.old.counts.updates + 1 } }
    {
        let mut rest = subs;
        while rest != 0 {
            let sub = lowest_of(rest);
            self.rows[sub as usize * 64 + row as usize].write_where(&self.tags[sub as usize], bit);
            rest = without(rest, sub);
        }
        self.counts.updates += 1;
    }

    /// Moves the tags `times` subarrays up or down. Vacated tags become 0, and tags that leave the
    /// chain are lost. So many passes are counted.
    pub fn pass(&mut self, up: bool, times: u8)
        requires some { 1 ≤ times }
        requires few { times ≤ 31 }
        requires counter { self.old.counts.passes < 2 ^ 100 }
        ensures slices { slices_of self.new ≡ passed up times (slices_of self.old) }
        ensures columns { self.new.columns ≡ self.old.columns }
        ensures counted { self.new.counts
            ≡ record self.old.counts { passes = self.old.counts.passes + times } }
    {
        if up {
            self.pass_up(times);
        } else {
            self.pass_down(times);
        }
    }

    /// Becomes the other chain, which has as many columns: the rows, tags and counts are equal.
    pub fn copy_from(&mut self, other: &Chain)
        requires { self.old.columns ≡ other.now.columns }
        ensures { self.new ≡ other.now }
    {
        copy_rows(self.rows.as_mut_slice(), other.rows.as_slice());
        copy_rows(self.tags.as_mut_slice(), other.tags.as_slice());
        self.counts = other.counts;
    }

    fn pass_up(&mut self, times: u8)
        requires some { 1 ≤ times }
        requires few { times ≤ 31 }
        requires counter { self.old.counts.passes < 2 ^ 100 }
        ensures slices { slices_of self.new ≡ passed true times (slices_of self.old) }
        ensures columns { self.new.columns ≡ self.old.columns }
        ensures counted { self.new.counts
            ≡ record self.old.counts { passes = self.old.counts.passes + times } }
    {
        shift_up(self.tags.as_mut_slice(), times as usize);
        self.counts.passes += times as u128;
    }

    fn pass_down(&mut self, times: u8)
        requires some { 1 ≤ times }
        requires few { times ≤ 31 }
        requires counter { self.old.counts.passes < 2 ^ 100 }
        ensures slices { slices_of self.new ≡ passed false times (slices_of self.old) }
        ensures columns { self.new.columns ≡ self.old.columns }
        ensures counted { self.new.counts
            ≡ record self.old.counts { passes = self.old.counts.passes + times } }
    {
        shift_down(self.tags.as_mut_slice(), times as usize);
        self.counts.passes += times as u128;
    }
}

/// A network sees the chain's bits and tags, and leaves its counts.
impl Planes for Chain {
    ghost slices = { slices_of };

    ghost searches = { λ chain. chain.counts.searches };

    ghost updates = { λ chain. chain.counts.updates };

    ghost passes = { λ chain. chain.counts.passes };

    fn columns(&self) -> u32 {
        self.columns
    }

    fn bit(&self, sub: u8, row: u8, col: u32) -> bool {
        self.row(sub, row).get(col)
    }

    fn set_bit(&mut self, sub: u8, row: u8, col: u32, bit: bool) {
        self.rows[sub as usize * 64 + row as usize].set(col, bit);
    }

    fn tag(&self, sub: u8, col: u32) -> bool {
        self.tags(sub).get(col)
    }

    fn words(&self, sub: u8, row: u8) -> &[u64] {
        self.row(sub, row).words()
    }

    fn tag_words(&self, sub: u8) -> &[u64] {
        self.tags(sub).words()
    }

    fn set_words(&mut self, sub: u8, row: u8, words: &[u64]) {
        self.rows[sub as usize * 64 + row as usize].set_words(words);
    }
}

/// So many rows of zeros.
fn zero_rows(alloc: Global, count: u32, columns: u32) -> Result<Vec<Row>, NoMemory>
    requires some { 1 ≤ columns }
    requires few { columns ≤ 2048 }
    ensures { IfOk result (λ rows. rows.items ≡ replicate count (replicate columns false)) }
{
    let mut rows = Vec::with_capacity(alloc, count as usize)?;
    for _ in 0..count {
        rows.push(Row::new(alloc, columns)?)?;
    }
    Ok(rows)
}
