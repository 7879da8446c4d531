// Rows that are written lane by lane. A lane is the subarrays of one element of each column: lane k of a
// row of `width` bits has those from k times `width` on, and in column c the element with number k plus
// c times the number of lanes.
ghost use Rattle.std.specs.Prelude.{◌≡◌, ℕ, ◌+◌, ◌*◌, ◌^◌, ◌<◌, ◌≤◌, true, ◌&&◌, ltb};
ghost use Rattle.bit_rows.specs.Words.{word_bit, IsTrimmed};
ghost use Rattle.steer_net.specs.Network.{numbered, bit_in, is_width, MaskReaches};
ghost use Rattle.steer_net.specs.Rows.{is_one, partly, spans, HoldsMask, mask_within};

use crate::ranges::lane_words;
use crate::windows::{MASK, Ones};
use bit_rows::{MAX_WORDS, Planes, SUBARRAYS, WORD_BITS};

// Writes a row that is not the mask.
pub(crate) fn write_lanes<P: Planes>(p: &mut P, row: u8, width: u8, first: u32, ones: Ones)
    requires row { row < 64 }
    requires apart { 1 ≤ row }
    requires width { is_width width ≡ true }
    requires mask { (ones.on ≡ ones.off → ⊥)
        → MaskReaches (P.slices p.old).columns width first ones.from ones.to }
    ensures slices { P.slices p.new
        ≡ numbered row width first (is_one ones (bit_in (P.slices p.old) 0)) (P.slices p.old) }
    ensures searches { P.searches p.new ≡ P.searches p.old }
    ensures updates { P.updates p.new ≡ P.updates p.old }
    ensures passes { P.passes p.new ≡ P.passes p.old }
{
    let lanes = SUBARRAYS / width;
    for lane in 0..lanes {
        // The sum of two u32 may not fit one.
        let number = u64::from(first) + u64::from(lane);
        let mask = mask_lane(p, number, u32::from(lanes), ones.on != ones.off);
        let words = lane_words(p.columns(), number, u32::from(lanes), ones, &mask);
        write_lane(p, row, lane * width, width, &words);
    }
}

// Writes the words into `width` subarrays of a row, from the subarray `low` on.
pub(crate) fn write_lane<P: Planes>(
    p: &mut P,
    row: u8,
    low: u8,
    width: u8,
    words: &[u64; MAX_WORDS],
)
    requires row { row < 64 }
    requires room { low + width ≤ 32 }
    requires trimmed { IsTrimmed (P.slices p.old).columns words.now }
    ensures slices { P.slices p.new
        ≡ partly (spans low (low + width)) row (λ sub c. word_bit words.now c) (P.slices p.old) }
    ensures searches { P.searches p.new ≡ P.searches p.old }
    ensures updates { P.updates p.new ≡ P.updates p.old }
    ensures passes { P.passes p.new ≡ P.passes p.old }
{
    let count = p.columns().div_ceil(WORD_BITS) as usize;
    for sub in low..low + width {
        p.set_words(sub, row, &words[..count]);
    }
}

// The bits of the mask of a lane, column by column, where they count: the first column's element has the
// number `number`, and each further one a number that is higher by `step`.
fn mask_lane<P: Planes>(p: &P, number: u64, step: u32, counts: bool) -> [u64; MAX_WORDS]
    requires number { number < 2 ^ 33 }
    requires step { step ≤ 32 }
    ensures { counts ≡ true → HoldsMask (P.slices p.now) result number step }
{
    if counts {
        mask_bits(p, number, step)
    } else {
        [0; MAX_WORDS]
    }
}

// The same, bit by bit.
fn mask_bits<P: Planes>(p: &P, number: u64, step: u32) -> [u64; MAX_WORDS]
    requires number { number < 2 ^ 33 }
    requires step { step ≤ 32 }
    ensures { (c : ℕ) → c < (P.slices p.now).columns
        → word_bit result c ≡ mask_within (P.slices p.now) (number + c * step) }
{
    let mut words = [0; MAX_WORDS];
    for col in 0..p.columns() {
        if mask_bit(p, number + u64::from(col * step)) {
            words[(col / WORD_BITS) as usize] |= 1 << (col % WORD_BITS);
        }
    }
    words
}

// A bit of the mask; the numbers past its end have none.
fn mask_bit<P: Planes>(p: &P, number: u64) -> bool
    ensures { result ≡ mask_within (P.slices p.now) number }
{
    let subarrays = u64::from(SUBARRAYS);
    number < subarrays * u64::from(p.columns())
        && p.bit(
            (number % subarrays) as u8,
            MASK,
            (number / subarrays) as u32,
        )
}
