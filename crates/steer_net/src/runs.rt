// Runs of bits of a group of registers.
ghost use Rattle.std.specs.Prelude.{◌≡◌, ℕ, ◌+◌, ◌-◌, ◌*◌, ◌<◌, ◌≤◌};
ghost use Rattle.bit_rows.specs.Words.{word_bit};
ghost use Rattle.steer_net.specs.Moves.{bit_in_group, row_bits};
ghost use Rattle.steer_net.specs.Runs.{RunReaches, run_bit, copied_bit};

use crate::copies::copy_columns;
use crate::packing::put_column;
use crate::ranges::all_bits;
use bit_rows::{MAX_WORDS, Planes, SUBARRAYS};

// The bits that the columns from `from` on and below `to` of a subarray get: bit `start` of the registers
// from `base` on, counted through, and in each further column the bit `step` places on.
#[derive(Clone, Copy)]
pub(crate) struct Run {
    pub(crate) base: u8,
    pub(crate) start: u64,
    pub(crate) step: u32,
    pub(crate) from: u32,
    pub(crate) to: u32,
}

// Writes the bits of a run into the words of a subarray.
pub(crate) fn write_run<P: Planes>(p: &P, run: Run, words: &mut [u64; MAX_WORDS])
    requires few { (P.slices p.now).columns ≤ 2048 }
    requires order { run.from ≤ run.to }
    requires end { run.to ≤ (P.slices p.now).columns }
    requires rows { RunReaches (P.slices p.now) run }
    ensures { (c : ℕ) → word_bit words.new c ≡ run_bit (P.slices p.now) run (word_bit words.old) c }
{
    if run.from < run.to && run.step == u32::from(SUBARRAYS) {
        write_along(p, run, words);
    } else if run.from < run.to && run.step == 0 {
        write_same(p, run, words);
    } else {
        write_bits(p, run, words);
    }
}

// The same, bit by bit.
fn write_bits<P: Planes>(p: &P, run: Run, words: &mut [u64; MAX_WORDS])
    requires few { (P.slices p.now).columns ≤ 2048 }
    requires order { run.from ≤ run.to }
    requires end { run.to ≤ (P.slices p.now).columns }
    requires rows { RunReaches (P.slices p.now) run }
    ensures { (c : ℕ) → word_bit words.new c ≡ run_bit (P.slices p.now) run (word_bit words.old) c }
{
    for col in run.from..run.to {
        let number = run.start + u64::from((col - run.from) * run.step);
        put_column(words, col, group_bit(p, run.base, number as u32));
    }
}

// The same for a run that has one bit.
fn write_same<P: Planes>(p: &P, run: Run, words: &mut [u64; MAX_WORDS])
    requires few { (P.slices p.now).columns ≤ 2048 }
    requires some { run.from < run.to }
    requires end { run.to ≤ (P.slices p.now).columns }
    requires step { run.step ≡ 0 }
    requires rows { RunReaches (P.slices p.now) run }
    ensures { (c : ℕ) → word_bit words.new c ≡ run_bit (P.slices p.now) run (word_bit words.old) c }
{
    let bit = group_bit(p, run.base, run.start as u32);
    copy_columns(&[all_bits(bit); MAX_WORDS], 0, words, run.from, run.to);
}

// The same for a run along one subarray: it goes from column to column, and into the next register.
fn write_along<P: Planes>(p: &P, run: Run, words: &mut [u64; MAX_WORDS])
    requires few { (P.slices p.now).columns ≤ 2048 }
    requires some { run.from < run.to }
    requires end { run.to ≤ (P.slices p.now).columns }
    requires step { run.step ≡ 32 }
    requires rows { RunReaches (P.slices p.now) run }
    ensures { (c : ℕ) → word_bit words.new c ≡ run_bit (P.slices p.now) run (word_bit words.old) c }
{
    let subarrays = u32::from(SUBARRAYS);
    let columns = p.columns();
    let start = run.start as u32;
    let sub = (start % subarrays) as u8;
    let row = u32::from(run.base) + start / subarrays / columns;
    let at = start / subarrays % columns;
    let split = run.to.min(run.from + (columns - at));
    write_register(p, sub, row, at, words, run.from, split);
    write_register(p, sub, row + 1, 0, words, split, run.to);
}

// Copies columns of a row, where there are some.
fn write_register<P: Planes>(
    p: &P,
    sub: u8,
    row: u32,
    at: u32,
    words: &mut [u64; MAX_WORDS],
    from: u32,
    to: u32,
)
    requires sub { sub < 32 }
    requires row { from < to → row < 64 }
    requires few { (P.slices p.now).columns ≤ 2048 }
    requires order { from ≤ to }
    requires end { to ≤ (P.slices p.now).columns }
    requires inside { at + (to - from) ≤ (P.slices p.now).columns }
    ensures { (c : ℕ) → word_bit words.new c
        ≡ copied_bit ((P.slices p.now).bit sub row) at from to (word_bit words.old) c }
{
    if from < to {
        let source = p.words(sub, row as u8);
        copy_columns(source, at, words, from, to);
    }
}

// A bit of the registers from `base` on, counted through.
fn group_bit<P: Planes>(p: &P, base: u8, number: u32) -> bool
    requires { number < (64 - base) * row_bits (P.slices p.now) }
    ensures { result ≡ bit_in_group (P.slices p.now) base number }
{
    let subarrays = u32::from(SUBARRAYS);
    let bits = subarrays * p.columns();
    // Most bits lie in the first register, and a division takes long.
    let (row, place) = if number < bits {
        (base, number)
    } else {
        (base + (number / bits) as u8, number % bits)
    };
    p.bit((place % subarrays) as u8, row, place / subarrays)
}
