// The keys of a table's values, whichever of its rows are one row: a search names a row once.
ghost use Rattle.std.specs.Prelude.{◌≡◌, ◌+◌, ◌<◌, ◌≤◌, IsTrue, IfSome, IfNone, length, take};
ghost use Rattle.cam_chain.specs.KeyPairs.{are_keys};
ghost use Rattle.micro_ir.specs.Folding.{are_rows, wanted, with_row, keys_once, first_whole, stand_in, search_keys};

use cam_chain::Keys;

// A search names at most so many rows.
const MAX_ROWS: usize = 4;

// The bit that pairs want of a row, where they name it.
fn wanted(pairs: &[(u8, bool)], row: u8) -> Option<bool>
    ensures { result ≡ wanted pairs.now row }
{
    for pair in pairs {
        if pair.0 == row {
            return Some(pair.1);
        }
    }
    None
}

// Adds a row to the first `count` pairs, where they do not name it, and returns how many pairs there
// are now; `None` where they want the other bit of it.
fn add_row(pairs: &mut [(u8, bool)], count: usize, row: u8, bit: bool) -> Option<usize>
    requires { count < length pairs.old }
    ensures some { IfSome result (λ n. with_row (wanted (take count pairs.old) row) (take count pairs.old) row bit
        ≡ Some (take n pairs.new)) }
    ensures none { IfNone result (with_row (wanted (take count pairs.old) row) (take count pairs.old) row bit
        ≡ None) }
    ensures few { IfSome result (λ n. n ≤ count + 1) }
{
    match wanted(&pairs[..count], row) {
        None => {
            pairs[count] = (row, bit);
            Some(count + 1)
        }
        Some(other) => { if other == bit { Some(count) } else { None } }
    }
}

// Pairs as keys.
fn as_keys(pairs: &[(u8, bool)]) -> Keys
    requires { IsTrue (are_keys pairs.now) }
    ensures { result ≡ pairs.now }
{
    let Some(keys) = Keys::new(pairs) else {
        unreachable!();
    };
    keys
}

// The keys of a value, each row once: the first row takes the lowest bit. `None` where the value
// wants both bits of a row.
fn keys_once(rows: &[u8], value: u8) -> Option<Keys>
    requires { IsTrue (are_rows rows.now) }
    ensures { result ≡ keys_once rows.now value }
{
    let mut pairs = [(0, false); MAX_ROWS];
    let mut count = 0;
    let mut rest = value;
    for row in rows {
        match add_row(&mut pairs, count, *row, rest % 2 == 1) {
            Some(more) => count = more,
            None => return None,
        }
        rest /= 2;
    }
    Some(as_keys(&pairs[..count]))
}

// The keys of the first value that wants no two bits of a row.
fn first_whole(rows: &[u8], on: &[u8]) -> Option<Keys>
    requires { IsTrue (are_rows rows.now) }
    ensures { result ≡ first_whole rows.now on.now }
{
    for value in on {
        match keys_once(rows, *value) {
            Some(keys) => return Some(keys),
            None => {}
        }
    }
    None
}

// What is searched for in place of a value that wants both bits of a row: the first value of the
// table that does not or, where there is none, the row that is written.
fn stand_in(rows: &[u8], on: &[u8], out: u8) -> Keys
    requires rows { IsTrue (are_rows rows.now) }
    requires out { out < 64 }
    ensures { result ≡ stand_in rows.now on.now out }
{
    match first_whole(rows, on) {
        Some(keys) => keys,
        None => as_keys(&[(out, true)]),
    }
}

// The keys that are searched for at a value of a table.
pub(crate) fn search_keys(rows: &[u8], on: &[u8], out: u8, value: u8) -> Keys
    requires rows { IsTrue (are_rows rows.now) }
    requires out { out < 64 }
    ensures { result ≡ search_keys rows.now on.now out value }
{
    match keys_once(rows, value) {
        Some(keys) => keys,
        None => stand_in(rows, on, out),
    }
}
