// Rows that are copied and moved, each as its words alone.
ghost use Rattle.std.specs.Prelude.{◌≡◌, ℕ, ◌+◌, ◌-◌, ◌<◌, ◌≤◌, List, [], Bool, false, length, slice_index_or, slice_set};
ghost use Rattle.cam_chain.specs.ChainValue.{EachLong};

use bit_rows::Row;

// Each row becomes the one at its place in `from`.
pub(crate) fn copy_rows(rows: &mut [Row], from: &[Row])
    requires len { length rows.old ≡ length from.now }
    requires long { (k : ℕ) → k < length from.now
        → length (slice_index_or rows.old k []) ≡ length (slice_index_or from.now k []) }
    ensures { rows.new ≡ from.now }
{
    for i in 0..rows.len() {
        rows[i].copy_from(&from[i]);
    }
}

// Each row becomes the one that stands `times` below it; the first ones become zero.
pub(crate) fn shift_up(rows: &mut [Row], times: usize)
    requires some { 1 ≤ times }
    requires few { times ≤ length rows.old }
    requires long { EachLong (length (slice_index_or rows.old 0 [])) rows.old }
    ensures len { length rows.new ≡ length rows.old }
    ensures vacated { (s c : ℕ) → s < times
        → slice_index_or (slice_index_or rows.new s []) c false ≡ false }
    ensures moved { (s : ℕ) → times ≤ s → s < length rows.old
        → slice_index_or rows.new s [] ≡ slice_index_or rows.old (s - times) [] }
    ensures long { (n : ℕ) → EachLong n rows.old → EachLong n rows.new }
{
    move_up(rows, times);
    for i in 0..times {
        rows[i].clear();
    }
}

// Each row becomes the one that stands `times` above it; the last ones become zero.
pub(crate) fn shift_down(rows: &mut [Row], times: usize)
    requires some { 1 ≤ times }
    requires few { times ≤ length rows.old }
    requires long { EachLong (length (slice_index_or rows.old 0 [])) rows.old }
    ensures len { length rows.new ≡ length rows.old }
    ensures vacated { (s c : ℕ) → length rows.old ≤ s + times → s < length rows.old
        → slice_index_or (slice_index_or rows.new s []) c false ≡ false }
    ensures moved { (s : ℕ) → s + times < length rows.old
        → slice_index_or rows.new s [] ≡ slice_index_or rows.old (s + times) [] }
    ensures long { (n : ℕ) → EachLong n rows.old → EachLong n rows.new }
{
    let kept = rows.len() - times;
    move_down(rows, times);
    for i in kept..rows.len() {
        rows[i].clear();
    }
}

// Each row from place `times` on becomes the one that stands `times` below it.
fn move_up(rows: &mut [Row], times: usize)
    requires some { 1 ≤ times }
    requires few { times ≤ length rows.old }
    requires long { EachLong (length (slice_index_or rows.old 0 [])) rows.old }
    ensures len { length rows.new ≡ length rows.old }
    ensures moved { (s : ℕ) → times ≤ s → s < length rows.old
        → slice_index_or rows.new s [] ≡ slice_index_or rows.old (s - times) [] }
    ensures long { (n : ℕ) → EachLong n rows.old → EachLong n rows.new }
{
    let count = rows.len();
    for k in 0..count - times {
        // From the last row on, so that each is read before it is written.
        copy_up(rows, count - times - 1 - k, count - 1 - k);
    }
}

// Each row that has one `times` above it becomes that.
fn move_down(rows: &mut [Row], times: usize)
    requires some { 1 ≤ times }
    requires few { times ≤ length rows.old }
    requires long { EachLong (length (slice_index_or rows.old 0 [])) rows.old }
    ensures len { length rows.new ≡ length rows.old }
    ensures moved { (s : ℕ) → s + times < length rows.old
        → slice_index_or rows.new s [] ≡ slice_index_or rows.old (s + times) [] }
    ensures long { (n : ℕ) → EachLong n rows.old → EachLong n rows.new }
{
    for k in 0..rows.len() - times {
        copy_down(rows, k + times, k);
    }
}

// The row `to` becomes the row `from`, which stands below it.
fn copy_up(rows: &mut [Row], from: usize, to: usize)
    requires order { from < to }
    requires room { to < length rows.old }
    requires long { EachLong (length (slice_index_or rows.old 0 [])) rows.old }
    ensures { rows.new ≡ slice_set rows.old to (slice_index_or rows.old from []) }
{
    let (below, above) = rows.split_at_mut(to);
    above[0].copy_from(&below[from]);
}

// The row `to` becomes the row `from`, which stands above it.
fn copy_down(rows: &mut [Row], from: usize, to: usize)
    requires order { to < from }
    requires room { from < length rows.old }
    requires long { EachLong (length (slice_index_or rows.old 0 [])) rows.old }
    ensures { rows.new ≡ slice_set rows.old to (slice_index_or rows.old from []) }
{
    let (below, above) = rows.split_at_mut(from);
    below[to].copy_from(&above[0]);
}
