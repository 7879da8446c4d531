// The match of keys in the rows of one subarray.
ghost use Rattle.std.specs.Prelude.{◌≡◌, ℕ, ◌+◌, ◌<◌, ◌≤◌, List, [], Bool, false, ◌&&◌, ◌||◌, length, slice_index_or};
ghost use Rattle.cam_chain.specs.ChainValue.{found_at, EachLong};

use crate::keys::Keys;
use bit_rows::Row;

// The tags become the match, or are or-ed with it where `join`.
pub(crate) fn search_subarray(
    rows: &[Row],
    base: usize,
    keys: &Keys,
    join: bool,
    scratch: &mut Row,
    tags: &mut Row,
)
    requires room { base + 64 ≤ length rows.now }
    requires long { EachLong (length tags.old) rows.now }
    requires scratch { length scratch.old ≡ length tags.old }
    ensures scratch { length scratch.new ≡ length scratch.old }
    ensures len { length tags.new ≡ length tags.old }
    ensures each { (c : ℕ) → c < length tags.old
        → slice_index_or tags.new c false
        ≡ (found_at rows.now base keys.now c || (join && slice_index_or tags.old c false)) }
{
    if join {
        match_keys(rows, base, keys, scratch);
        tags.or_with(scratch);
    } else {
        match_keys(rows, base, keys, tags);
    }
}

// Leaves in `into` the columns where each key's row has the wanted bit.
fn match_keys(rows: &[Row], base: usize, keys: &Keys, into: &mut Row)
    requires room { base + 64 ≤ length rows.now }
    requires long { EachLong (length into.old) rows.now }
    ensures len { length into.new ≡ length into.old }
    ensures each { (c : ℕ) → c < length into.old
        → slice_index_or into.new c false ≡ found_at rows.now base keys.now c }
{
    let pairs = keys.as_slice();
    if pairs.is_empty() {
        into.fill();
        return;
    }
    into.match_from(&rows[base + pairs[0].0 as usize], pairs[0].1);
    for i in 1..pairs.len() {
        rows[base + pairs[i].0 as usize].match_into(pairs[i].1, into);
    }
}
