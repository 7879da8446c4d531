ghost use Rattle.std.specs.Prelude.{◌≡◌, ℕ, ◌+◌, ◌-◌, ◌*◌, ◌/◌, ◌<◌, ◌≤◌, cond, true, not, ◌&&◌, eqb, ltb};
ghost use Rattle.bit_rows.specs.Words.{word_bit};
ghost use Rattle.steer_net.specs.Network.{packed, is_packed, top_bit, bit_in, is_width, PackReaches};
ghost use Rattle.steer_net.specs.Rows.{mask_bit, packed_bit, packed_column};

use crate::columns::{read_row, write_words};
use crate::lanes::write_lane;
use bit_rows::{MAX_COLUMNS, MAX_WORDS, Planes, SUBARRAYS, WORD_BITS};

/// Packs a bit of each element into bits of a row: each element of `width` bits, which is 1, 8, 16
/// or 32, whose highest bit in the row `under` is set writes its highest bit in the row `from` into
/// the bit of the row `to` that its number names. The other bits of `to` stay. The first element has
/// the number `first`, and bit i of a row is in subarray i mod 32 of column i div 32. The rows are
/// read as they stand before, so they need not differ.
pub fn pack_mask<P: Planes>(p: &mut P, from: u8, under: u8, to: u8, width: u8, first: u32)
    requires from { from < 64 }
    requires under { under < 64 }
    requires to { to < 64 }
    requires width { is_width width ≡ true }
    requires reach { PackReaches (P.slices p.old).columns width first }
    ensures slices { P.slices p.new ≡ packed from under to width first (P.slices p.old) }
    ensures searches { P.searches p.new ≡ P.searches p.old }
    ensures updates { P.updates p.new ≡ P.updates p.old }
    ensures passes { P.passes p.new ≡ P.passes p.old }
{
    if is_apart(to, from, under) {
        pack_subarrays(p, from, under, to, width, first);
    } else {
        pack_over_source(p, from, under, to, width, first);
    }
}

// Whether a row that is written is none of those that are read.
fn is_apart(to: u8, from: u8, under: u8) -> bool
    ensures { result ≡ (not (eqb to from) && not (eqb to under)) }
{
    to != from && to != under
}

// Packs into a row that is none of those that are read, subarray by subarray.
fn pack_subarrays<P: Planes>(p: &mut P, from: u8, under: u8, to: u8, width: u8, first: u32)
    requires from { from < 64 }
    requires under { under < 64 }
    requires to { to < 64 }
    requires apart_from { to ≡ from → ⊥ }
    requires apart_under { to ≡ under → ⊥ }
    requires width { is_width width ≡ true }
    requires reach { PackReaches (P.slices p.old).columns width first }
    ensures slices { P.slices p.new ≡ packed from under to width first (P.slices p.old) }
    ensures searches { P.searches p.new ≡ P.searches p.old }
    ensures updates { P.updates p.new ≡ P.updates p.old }
    ensures passes { P.passes p.new ≡ P.passes p.old }
{
    for sub in 0..SUBARRAYS {
        let words = packed_words(p, from, under, to, width, first, sub);
        write_lane(p, to, sub, 1, &words);
    }
}

// The bits of one subarray of the row: those of the columns that elements name, and the old ones of the
// others.
fn packed_words<P: Planes>(
    p: &P,
    from: u8,
    under: u8,
    to: u8,
    width: u8,
    first: u32,
    sub: u8,
) -> [u64; MAX_WORDS]
    requires from { from < 64 }
    requires under { under < 64 }
    requires to { to < 64 }
    requires width { is_width width ≡ true }
    requires sub { sub < 32 }
    requires reach { PackReaches (P.slices p.now).columns width first }
    ensures { (c : ℕ) → word_bit result c
        ≡ (ltb c (P.slices p.now).columns && packed_bit from under to width first (P.slices p.now) (c * 32 + sub)) }
{
    let subarrays = u32::from(SUBARRAYS);
    let mut words = row_words(p, sub, to);
    let named = first + p.columns() * u32::from(SUBARRAYS / width);
    let end = p.columns().min(named / subarrays + 1);
    for col in first / subarrays..end {
        pack_column(p, from, under, width, first, sub, col, &mut words);
    }
    words
}

// Writes the bit of one column, where an element names it that counts.
fn pack_column<P: Planes>(
    p: &P,
    from: u8,
    under: u8,
    width: u8,
    first: u32,
    sub: u8,
    col: u32,
    words: &mut [u64; MAX_WORDS],
)
    requires from { from < 64 }
    requires under { under < 64 }
    requires width { is_width width ≡ true }
    requires sub { sub < 32 }
    requires column { col < (P.slices p.now).columns }
    requires few { (P.slices p.now).columns ≤ 2048 }
    ensures { (c : ℕ) → word_bit words.new c
        ≡ packed_column from under width first sub col (P.slices p.now) (word_bit words.old) c }
{
    let number = col * u32::from(SUBARRAYS) + u32::from(sub);
    if is_named(p, under, width, first, number) {
        let top = (number - first) * u32::from(width) + u32::from(width - 1);
        put_column(words, col, row_bit(p, from, top));
    }
}

// Whether an element that counts names the bit of a number.
fn is_named<P: Planes>(p: &P, under: u8, width: u8, first: u32, number: u32) -> bool
    requires under { under < 64 }
    requires width { is_width width ≡ true }
    ensures { result ≡ is_packed under width first (P.slices p.now) number }
{
    number >= first
        && number - first < p.columns() * u32::from(SUBARRAYS / width)
        && row_bit(
            p,
            under,
            (number - first) * u32::from(width) + u32::from(width - 1),
        )
}

// Writes a bit of a row of a subarray that is held as words.
pub(crate) fn put_column(words: &mut [u64; MAX_WORDS], col: u32, bit: bool)
    requires { col < 2048 }
    ensures { (c : ℕ) → word_bit words.new c ≡ cond (eqb c col) bit (word_bit words.old c) }
{
    let word = words[(col / WORD_BITS) as usize];
    let place = 1 << (col % WORD_BITS);
    words[(col / WORD_BITS) as usize] = if bit { word | place } else { word & !place };
}

// A row of a subarray as words.
pub(crate) fn row_words<P: Planes>(p: &P, sub: u8, row: u8) -> [u64; MAX_WORDS]
    requires sub { sub < 32 }
    requires row { row < 64 }
    ensures { (c : ℕ) → word_bit result c ≡ (ltb c (P.slices p.now).columns && (P.slices p.now).bit sub row c) }
{
    let row = p.words(sub, row);
    let mut words = [0; MAX_WORDS];
    words[..row.len()].copy_from_slice(row);
    words
}

// Packs into a row that may be read, which is held as words of its columns until all are read.
fn pack_over_source<P: Planes>(p: &mut P, from: u8, under: u8, to: u8, width: u8, first: u32)
    requires from { from < 64 }
    requires under { under < 64 }
    requires to { to < 64 }
    requires width { is_width width ≡ true }
    requires reach { PackReaches (P.slices p.old).columns width first }
    ensures slices { P.slices p.new ≡ packed from under to width first (P.slices p.old) }
    ensures searches { P.searches p.new ≡ P.searches p.old }
    ensures updates { P.updates p.new ≡ P.updates p.old }
    ensures passes { P.passes p.new ≡ P.passes p.old }
{
    let mut words = [0; MAX_COLUMNS];
    read_row(p, to, &mut words);
    pack_words(p, from, under, width, first, &mut words);
    write_words(p, to, &words);
}

// Packs the bits into the words of a row.
fn pack_words<P: Planes>(
    p: &P,
    from: u8,
    under: u8,
    width: u8,
    first: u32,
    words: &mut [u32; MAX_COLUMNS],
)
    requires from { from < 64 }
    requires under { under < 64 }
    requires width { is_width width ≡ true }
    requires reach { PackReaches (P.slices p.now).columns width first }
    ensures { (i : ℕ) → mask_bit words.new i
        ≡ cond (is_packed under width first (P.slices p.now) i) (top_bit width (P.slices p.now) from (i - first)) (mask_bit words.old i) }
{
    for element in 0..p.columns() * u32::from(SUBARRAYS / width) {
        let top = element * u32::from(width) + u32::from(width - 1);
        if row_bit(p, under, top) {
            put_bit(words, first + element, row_bit(p, from, top));
        }
    }
}

// A bit of a row.
fn row_bit<P: Planes>(p: &P, row: u8, number: u32) -> bool
    requires row { row < 64 }
    requires number { number < 32 * (P.slices p.now).columns }
    ensures { result ≡ bit_in (P.slices p.now) row number }
{
    let subarrays = u32::from(SUBARRAYS);
    p.bit((number % subarrays) as u8, row, number / subarrays)
}

// Writes a bit of a row that is held as words.
fn put_bit(words: &mut [u32; MAX_COLUMNS], number: u32, bit: bool)
    requires { number < 32 * 2048 }
    ensures { (i : ℕ) → mask_bit words.new i ≡ cond (eqb i number) bit (mask_bit words.old i) }
{
    let subarrays = u32::from(SUBARRAYS);
    let word = words[(number / subarrays) as usize];
    let place = 1 << (number % subarrays);
    words[(number / subarrays) as usize] = if bit { word | place } else { word & !place };
}
