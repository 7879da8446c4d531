// What the columns of a row that is rewritten get, subarray by subarray. A subarray has one bit of one
// element of each column.
ghost use Rattle.std.specs.Prelude.{◌≡◌, ℕ, ◌+◌, ◌-◌, ◌*◌, ◌/◌, ◌%◌, ◌^◌, ◌<◌, ◌≤◌, true, cond, ◌&&◌, eqb, ltb, leb};
ghost use Rattle.std.specs.Int.{bit_at};
ghost use Rattle.bit_rows.specs.Words.{word_bit};
ghost use Rattle.steer_net.specs.Network.{is_width, position};
ghost use Rattle.steer_net.specs.Moves.{GroupReaches, in_part};
ghost use Rattle.steer_net.specs.Runs.{column_bit, IsSource, run_number, narrowed_number};
ghost use Rattle.steer_net.specs.declared.sources.Source.TheVariants.{Widened, Narrowed, Slid, Picked, Indexed};

use crate::packing::{put_column, row_words};
use crate::ranges::count_below;
use crate::runs::{Run, write_run};
use bit_rows::{MAX_WORDS, Planes, SUBARRAYS};

// What each element of a row gets.
#[derive(Clone, Copy)]
pub(crate) enum Source {
    // The element of its part of a narrower row, and zeros above it.
    Widened {
        from: u8,
        narrow: u8,
        part: u8,
    },
    // In one half of the row, the low half of an element of a row of twice the width; else its own.
    Narrowed {
        from: u8,
        to: u8,
        part: u8,
    },
    // The element so many places off in a group of registers.
    Slid {
        base: u8,
        first: u32,
        up: bool,
        by: u32,
        limit: u32,
    },
    // One element of a group of registers.
    Picked {
        base: u8,
        index: u32,
        limit: u32,
    },
    // Its number.
    Indexed {
        first: u32,
    },
}

// The words of one subarray.
pub(crate) fn source_words<P: Planes>(p: &P, width: u8, source: Source, sub: u8) -> [u64; MAX_WORDS]
    requires width { is_width width ≡ true }
    requires sub { sub < 32 }
    requires reads { IsSource source width (P.slices p.now).columns }
    ensures { (c : ℕ) → word_bit result c
        ≡ column_bit source width (P.slices p.now) sub c }
{
    match source {
        Source::Widened { from, narrow, part } => widened_words(p, from, narrow, width, part, sub),
        Source::Narrowed { from, to, part } => narrowed_words(p, from, to, width, part, sub),
        Source::Slid {
            base,
            first,
            up,
            by,
            limit,
        } => slid_words(p, base, width, first, up, by, limit, sub),
        Source::Picked { base, index, limit } => picked_words(p, base, width, index, limit, sub),
        Source::Indexed { first } => {
            let number = u64::from(first) + u64::from(sub / width);
            number_words(
                p.columns(),
                number,
                u32::from(SUBARRAYS / width),
                sub % width,
            )
        }
    }
}

fn widened_words<P: Planes>(
    p: &P,
    from: u8,
    narrow: u8,
    wide: u8,
    part: u8,
    sub: u8,
) -> [u64; MAX_WORDS]
    requires wide { is_width wide ≡ true }
    requires sub { sub < 32 }
    requires reads { IsSource (Widened from narrow part) wide (P.slices p.now).columns }
    ensures { (c : ℕ) → word_bit result c
        ≡ column_bit (Widened from narrow part) wide (P.slices p.now) sub c }
{
    let mut words = [0; MAX_WORDS];
    let place = sub % wide;
    if place < narrow {
        let elements = u32::from(SUBARRAYS / wide);
        let element = u32::from(part) * (p.columns() * elements) + u32::from(sub / wide);
        let run = Run {
            base: from,
            start: u64::from(element * u32::from(narrow) + u32::from(place)),
            step: elements * u32::from(narrow),
            from: 0,
            to: p.columns(),
        };
        write_run(p, run, &mut words);
    }
    words
}

fn narrowed_words<P: Planes>(
    p: &P,
    from: u8,
    to: u8,
    width: u8,
    part: u8,
    sub: u8,
) -> [u64; MAX_WORDS]
    requires width { is_width width ≡ true }
    requires sub { sub < 32 }
    requires reads { IsSource (Narrowed from to part) width (P.slices p.now).columns }
    ensures { (c : ℕ) → word_bit result c
        ≡ column_bit (Narrowed from to part) width (P.slices p.now) sub c }
{
    let mut words = row_words(p, sub, to);
    let run = narrowed_run(p.columns(), from, width, part, sub);
    write_run(p, run, &mut words);
    words
}

// The columns of a subarray whose elements belong to the part, and their bits in the row `from`.
fn narrowed_run(columns: u32, from: u8, width: u8, part: u8, sub: u8) -> Run
    requires few { columns ≤ 2048 }
    requires width { is_width width ≡ true }
    requires narrow { width ≤ 16 }
    requires part { part ≤ 1 }
    requires sub { sub < 32 }
    ensures base { result.base ≡ from }
    ensures order { result.from ≤ result.to }
    ensures end { result.to ≤ columns }
    ensures columns { (c : ℕ) → c < columns
        → (leb result.from c && ltb c result.to) ≡ in_part part (columns * (32 / (width * 2))) (position width sub c) }
    ensures bits { (c : ℕ) → c < columns → result.from ≤ c → c < result.to
        → run_number result c ≡ narrowed_number width part columns sub c }
{
    let lanes = u32::from(SUBARRAYS / width);
    let lane = u32::from(sub / width);
    let wide = u32::from(width * 2);
    let place = u32::from(sub % width);
    // The lower half of the row ends before the column `split`.
    let half = columns * (u32::from(SUBARRAYS) / wide);
    let split = count_below(u64::from(lane), lanes, half).min(columns);
    let step = 2 * u32::from(SUBARRAYS);
    if part == 0 {
        Run {
            base: from,
            start: u64::from(lane * wide + place),
            step,
            from: 0,
            to: split,
        }
    } else {
        Run {
            base: from,
            start: u64::from((split * lanes + lane - half) * wide + place),
            step,
            from: split,
            to: columns,
        }
    }
}

fn slid_words<P: Planes>(
    p: &P,
    base: u8,
    width: u8,
    first: u32,
    up: bool,
    by: u32,
    limit: u32,
    sub: u8,
) -> [u64; MAX_WORDS]
    requires width { is_width width ≡ true }
    requires sub { sub < 32 }
    requires reach { GroupReaches (P.slices p.now).columns base width limit }
    ensures { (c : ℕ) → word_bit result c
        ≡ column_bit (Slid base first up by limit) width (P.slices p.now) sub c }
{
    let lanes = u32::from(SUBARRAYS / width);
    // The sum of two u32 may not fit one.
    let number = u64::from(first) + u64::from(sub / width);
    let from = slide_start(number, lanes, up, by);
    let mut words = [0; MAX_WORDS];
    if from < p.columns() {
        let element = slid_element(number + u64::from(from) * u64::from(lanes), up, by);
        let count = count_below(element, lanes, limit).min(p.columns() - from);
        let run = Run {
            base,
            start: element * u64::from(width) + u64::from(sub % width),
            step: u32::from(SUBARRAYS),
            from,
            to: from + count,
        };
        write_run(p, run, &mut words);
    }
    words
}

// How many columns have no element so many places below theirs.
fn slide_start(number: u64, lanes: u32, up: bool, by: u32) -> u32
    requires { 1 ≤ lanes }
    ensures { (c : ℕ) → ltb c result ≡ (up && ltb (number + c * lanes) by) }
{
    if up {
        count_below(number, lanes, by)
    } else {
        0
    }
}

// The number of the element that slides to this one.
fn slid_element(number: u64, up: bool, by: u32) -> u64
    requires small { number < 2 ^ 63 }
    requires there { up ≡ true → by ≤ number }
    ensures { result ≡ cond up (number - by) (number + by) }
{
    if up {
        number - u64::from(by)
    } else {
        number + u64::from(by)
    }
}

fn picked_words<P: Planes>(
    p: &P,
    base: u8,
    width: u8,
    index: u32,
    limit: u32,
    sub: u8,
) -> [u64; MAX_WORDS]
    requires width { is_width width ≡ true }
    requires sub { sub < 32 }
    requires reach { GroupReaches (P.slices p.now).columns base width limit }
    ensures { (c : ℕ) → word_bit result c
        ≡ column_bit (Picked base index limit) width (P.slices p.now) sub c }
{
    let mut words = [0; MAX_WORDS];
    if index < limit {
        let run = Run {
            base,
            start: u64::from(index) * u64::from(width) + u64::from(sub % width),
            step: 0,
            from: 0,
            to: p.columns(),
        };
        write_run(p, run, &mut words);
    }
    words
}

// Bit `place` of the numbers that columns have: the first one's is `number`, and each further one has a
// number that is higher by `step`.
fn number_words(columns: u32, number: u64, step: u32, place: u8) -> [u64; MAX_WORDS]
    requires few { columns ≤ 2048 }
    requires number { number < 2 ^ 33 }
    requires step { step ≤ 32 }
    requires place { place < 32 }
    ensures { (c : ℕ) → word_bit result c ≡ (ltb c columns && eqb (bit_at (number + c * step) place) 1) }
{
    let mut words = [0; MAX_WORDS];
    for col in 0..columns {
        let number = number + u64::from(col * step);
        put_column(&mut words, col, has_bit(number, place));
    }
    words
}

fn has_bit(number: u64, place: u8) -> bool
    requires { place < 32 }
    ensures { result ≡ eqb (bit_at number place) 1 }
{
    (number >> place) & 1 == 1
}
