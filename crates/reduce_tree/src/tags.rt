ghost use Rattle.std.specs.Prelude.{◌≡◌, ◌+◌, ◌*◌, ◌<◌, ◌≤◌, ◌↔◌, ◌&&◌, IsTrue, MatchOption, eqb};
ghost use Rattle.std.specs.Int.{bit_at};
ghost use Rattle.reduce_tree.specs.Tags.{places, is_tagged, is_selected, tags_in, HasTag, NoTagBelow, IsFirstTag, IsFirstOf, lesser_of};

use bit_rows::{Planes, count_words, first_bit};

// Each column has a tag in each subarray.
const SUBARRAYS: u32 = bit_rows::SUBARRAYS as u32;

/// The number of tags in the selected subarrays: bit s of `subs` selects subarray s.
pub fn count<P: Planes>(p: &P, subs: u32) -> u32
    ensures value { result ≡ tags_in subs (P.slices p.now) }
    ensures few { result ≤ 65536 }
{
    let mut tags = 0;
    for sub in 0..SUBARRAYS {
        if is_chosen(subs, sub) {
            tags += count_words(p.tag_words(sub as u8));
        }
    }
    tags
}

/// Whether there is a tag in the selected subarrays: bit s of `subs` selects subarray s.
pub fn any<P: Planes>(p: &P, subs: u32) -> bool
    ensures tag { IsTrue result ↔ HasTag subs (P.slices p.now) }
    ensures counted { IsTrue result ↔ (0 < tags_in subs (P.slices p.now)) }
{
    count(p, subs) > 0
}

/// The least place whose tag is set, or `None` where no tag is. The place of a column in a subarray
/// is 32 times the column plus the subarray.
pub fn first<P: Planes>(p: &P) -> Option<u32>
    ensures { MatchOption result (NoTagBelow (places (P.slices p.now)) (P.slices p.now)) (λ n. IsFirstTag n (P.slices p.now)) }
{
    let mut least = None;
    for sub in 0..SUBARRAYS {
        least = lesser(least, first_in(p, sub));
    }
    least
}

// The least place of a tag in one subarray, or `None` where it has none.
fn first_in<P: Planes>(p: &P, sub: u32) -> Option<u32>
    requires { sub < 32 }
    ensures { IsFirstOf sub result (P.slices p.now) }
{
    match first_bit(p.tag_words(sub as u8)) {
        Some(col) => Some(SUBARRAYS * col + sub),
        None => None,
    }
}

// The lesser of two places, where there are two.
fn lesser(a: Option<u32>, b: Option<u32>) -> Option<u32>
    ensures { result ≡ lesser_of a b }
{
    match (a, b) {
        (Some(x), Some(y)) => Some(x.min(y)),
        (Some(x), None) => Some(x),
        (None, y) => y,
    }
}

// Whether a subarray is selected.
fn is_chosen(subs: u32, sub: u32) -> bool
    requires { sub < 32 }
    ensures { result ≡ eqb (bit_at subs sub) 1 }
{
    (subs >> sub) & 1 == 1
}
