ghost use Rattle.std.specs.Prelude.{◌≡◌, ◌↔◌, ℕ, ◌<◌, ◌≤◌, IsSome, IsTrue, IfSome, length, slice_index_or};
ghost use Rattle.cam_chain.specs.KeyPairs.{are_apart, are_keys, is_new_row};

use std::marker::Model;

/// Up to four pairs of a row below 64 and the bit wanted in it; no row is named twice.
#[derive(Drop)]
pub struct Keys {
    pairs: [(u8, bool); 4],
    count: u8,
}

impl Model for Keys {
    ghost use Rattle.std.specs.Prelude.{ℕ, Bool, List, take, ◌≤◌, IsTrue};
    ghost use Rattle.cam_chain.specs.KeyPairs.{are_keys};

    ghost Value = { List (ℕ × Bool) };

    ghost view = { λ keys. take keys.count keys.pairs };

    ghost invariant = { λ keys. (keys.count ≤ 4) × IsTrue (are_keys (take keys.count keys.pairs)) };
}

impl Keys {
    /// The keys of the pairs, or `None` where there are more than four, a row is 64 or more, or a row
    /// is repeated. No pairs match every column.
    pub fn new(pairs: &[(u8, bool)]) -> Option<Keys>
        ensures variant { IsSome result ↔ IsTrue (are_keys pairs.now) }
        ensures value { IfSome result (λ keys. keys ≡ pairs.now) }
    {
        if pairs.len() > 4 || !are_apart(pairs) {
            return None;
        }
        let mut kept = [(0, false); 4];
        kept[..pairs.len()].copy_from_slice(pairs);
        Some(Keys {
            pairs: kept,
            count: pairs.len() as u8,
        })
    }

    /// The pairs.
    pub fn as_slice(&self) -> &[(u8, bool)]
        ensures value { result.now ≡ self.now }
        ensures keys { IsTrue (are_keys result.now) }
    {
        &self.pairs[..self.count as usize]
    }
}

/// Whether each row is below 64 and none is repeated.
fn are_apart(pairs: &[(u8, bool)]) -> bool
    ensures { result ≡ are_apart pairs.now }
{
    for i in 0..pairs.len() {
        let row = pairs[i].0;
        if row >= 64 || !is_new_row(row, &pairs[i + 1..]) {
            return false;
        }
    }
    true
}

/// Whether none of the pairs names the row.
fn is_new_row(row: u8, pairs: &[(u8, bool)]) -> bool
    ensures { result ≡ is_new_row row pairs.now }
{
    for pair in pairs {
        if pair.0 == row {
            return false;
        }
    }
    true
}
