// Rows that are read and written column by column, for those that are held as words of their columns.
ghost use Rattle.std.specs.Prelude.{◌≡◌, ℕ, ◌+◌, ◌*◌, ◌/◌, ◌<◌, ◌≤◌, ◌^◌, true, eqb};
ghost use Rattle.std.specs.Int.{bit_at};
ghost use Rattle.steer_net.specs.Network.{numbered, bit_in, is_width, MaskReaches};
ghost use Rattle.steer_net.specs.Rows.{mask_bit, is_one, partly, is_between};

use crate::windows::{MASK, Ones};
use bit_rows::{MAX_COLUMNS, Planes, SUBARRAYS};

// Writes a row that may be the mask itself, by a copy of the mask as it stands before, which is made only
// where it counts.
pub(crate) fn write_over_mask<P: Planes>(p: &mut P, row: u8, width: u8, first: u32, ones: Ones)
    requires row { row < 64 }
    requires width { is_width width ≡ true }
    requires mask { (ones.on ≡ ones.off → ⊥)
        → MaskReaches (P.slices p.old).columns width first ones.from ones.to }
    ensures slices { P.slices p.new
        ≡ numbered row width first (is_one ones (bit_in (P.slices p.old) 0)) (P.slices p.old) }
    ensures searches { P.searches p.new ≡ P.searches p.old }
    ensures updates { P.updates p.new ≡ P.updates p.old }
    ensures passes { P.passes p.new ≡ P.passes p.old }
{
    let mut mask = [0; MAX_COLUMNS];
    if ones.on != ones.off {
        read_row(p, MASK, &mut mask);
    }
    write_row(p, row, width, first, ones, &mask);
}

// Reads a row into words of its columns.
pub(crate) fn read_row<P: Planes>(p: &P, row: u8, words: &mut [u32; MAX_COLUMNS])
    requires { row < 64 }
    ensures { (e : ℕ) → e < 32 * (P.slices p.now).columns
        → mask_bit words.new e ≡ bit_in (P.slices p.now) row e }
{
    for col in 0..p.columns() {
        words[col as usize] = row_word(p, row, col);
    }
}

// The word of a column of a row: bit s of it is the bit in subarray s.
fn row_word<P: Planes>(p: &P, row: u8, col: u32) -> u32
    requires row { row < 64 }
    requires column { col < (P.slices p.now).columns }
    ensures { (s : ℕ) → s < 32 → eqb (bit_at result s) 1 ≡ (P.slices p.now).bit s row col }
{
    let mut word = 0u32;
    for sub in 0..SUBARRAYS {
        if p.bit(sub, row, col) {
            word |= 1 << sub;
        }
    }
    word
}

// Writes a row by the words of its columns.
pub(crate) fn write_words<P: Planes>(p: &mut P, row: u8, words: &[u32; MAX_COLUMNS])
    requires { row < 64 }
    ensures slices { P.slices p.new ≡ numbered row 1 0 (mask_bit words.now) (P.slices p.old) }
    ensures searches { P.searches p.new ≡ P.searches p.old }
    ensures updates { P.updates p.new ≡ P.updates p.old }
    ensures passes { P.passes p.new ≡ P.passes p.old }
{
    let ones = Ones {
        from: 0,
        to: u32::from(SUBARRAYS) * p.columns(),
        on: true,
        off: false,
        tail: false,
    };
    write_row(p, row, 1, 0, ones, words);
}

// Writes the row by a mask.
fn write_row<P: Planes>(
    p: &mut P,
    row: u8,
    width: u8,
    first: u32,
    ones: Ones,
    mask: &[u32; MAX_COLUMNS],
)
    requires row { row < 64 }
    requires width { is_width width ≡ true }
    ensures slices { P.slices p.new
        ≡ numbered row width first (is_one ones (mask_bit mask.now)) (P.slices p.old) }
    ensures searches { P.searches p.new ≡ P.searches p.old }
    ensures updates { P.updates p.new ≡ P.updates p.old }
    ensures passes { P.passes p.new ≡ P.passes p.old }
{
    let per_column = u32::from(SUBARRAYS / width);
    for col in 0..p.columns() {
        // The sum of two u32 may not fit one.
        let number = u64::from(first) + u64::from(col * per_column);
        write_column(p, row, width, col, number, ones, mask);
    }
}

// Writes one column of the row, whose first element has the number `number`.
fn write_column<P: Planes>(
    p: &mut P,
    row: u8,
    width: u8,
    col: u32,
    number: u64,
    ones: Ones,
    mask: &[u32; MAX_COLUMNS],
)
    requires row { row < 64 }
    requires width { is_width width ≡ true }
    requires column { col < (P.slices p.old).columns }
    requires number { number < 2 ^ 63 }
    ensures slices { P.slices p.new
        ≡ partly (λ sub c. eqb c col) row (λ sub c. is_one ones (mask_bit mask.now) (number + sub / width)) (P.slices p.old) }
    ensures searches { P.searches p.new ≡ P.searches p.old }
    ensures updates { P.updates p.new ≡ P.updates p.old }
    ensures passes { P.passes p.new ≡ P.passes p.old }
{
    for k in 0..SUBARRAYS / width {
        let bit = ones.hold(mask, number + u64::from(k));
        write_element(p, row, width, col, k * width, bit);
    }
}

// Writes a bit into an element: into `width` subarrays of a column, from the subarray `low` on.
fn write_element<P: Planes>(p: &mut P, row: u8, width: u8, col: u32, low: u8, bit: bool)
    requires row { row < 64 }
    requires room { low + width ≤ 32 }
    requires column { col < (P.slices p.old).columns }
    ensures slices { P.slices p.new
        ≡ partly (is_between col low (low + width)) row (λ sub c. bit) (P.slices p.old) }
    ensures searches { P.searches p.new ≡ P.searches p.old }
    ensures updates { P.updates p.new ≡ P.updates p.old }
    ensures passes { P.passes p.new ≡ P.passes p.old }
{
    for sub in low..low + width {
        p.set_bit(sub, row, col, bit);
    }
}

impl Ones {
    // Whether the element of a number becomes ones.
    fn hold(&self, mask: &[u32; MAX_COLUMNS], number: u64) -> bool
        ensures { result ≡ is_one self.now (mask_bit mask.now) number }
    {
        if number >= u64::from(self.to) {
            self.tail
        } else if number < u64::from(self.from) {
            false
        } else if is_set(mask, number) {
            self.on
        } else {
            self.off
        }
    }
}

// A bit of the mask; the numbers past its end have none.
fn is_set(mask: &[u32; MAX_COLUMNS], number: u64) -> bool
    ensures { result ≡ mask_bit mask.now number }
{
    match mask.get((number / u64::from(SUBARRAYS)) as usize) {
        Some(word) => (*word >> (number % u64::from(SUBARRAYS)) as u32) & 1 == 1,
        None => false,
    }
}
