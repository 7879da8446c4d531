ghost use Rattle.std.specs.Prelude.{◌≡◌, ℕ, ◌/◌, ◌^◌, ◌<◌, ◌≤◌, Bool, true};
ghost use Rattle.steer_net.specs.Network.{is_width};
ghost use Rattle.steer_net.specs.Moves.{widened, narrowed, is_wide, slid, picked, GroupReaches, indexed, marked, reaches};
ghost use Rattle.steer_net.specs.Rows.{is_one};

use crate::reach::Reach;
use crate::rewriting::rewrite;
use crate::sources::Source;
use crate::windows::{Ones, write_ones};
use bit_rows::{Planes, SUBARRAYS};

/// Widens elements: each element of the row `to`, of `wide` bits, becomes the zero extension of the
/// element of its part of the row `from`, whose elements have `narrow` bits. The rows have as many
/// parts as narrow elements fit a wide one.
pub fn spread<P: Planes>(p: &mut P, from: u8, to: u8, narrow: u8, wide: u8, part: u8)
    requires from { from < 64 }
    requires to { to < 64 }
    requires narrow { is_width narrow ≡ true }
    requires wide { is_width wide ≡ true }
    requires narrower { narrow < wide }
    requires part { part < wide / narrow }
    ensures slices { P.slices p.new ≡ widened from to narrow wide part (P.slices p.old) }
    ensures searches { P.searches p.new ≡ P.searches p.old }
    ensures updates { P.updates p.new ≡ P.updates p.old }
    ensures passes { P.passes p.new ≡ P.passes p.old }
{
    rewrite(p, to, wide, Source::Widened { from, narrow, part });
}

/// Narrows elements: each element of one part, the lower or the upper half of the row `to`, becomes
/// the low half of an element of the row `from`, which has `wide` bits, 16 or 32. The other part of
/// `to` stays.
pub fn narrow<P: Planes>(p: &mut P, from: u8, to: u8, wide: u8, part: u8)
    requires from { from < 64 }
    requires to { to < 64 }
    requires wide { is_wide wide ≡ true }
    requires part { part ≤ 1 }
    ensures slices { P.slices p.new ≡ narrowed from to wide part (P.slices p.old) }
    ensures searches { P.searches p.new ≡ P.searches p.old }
    ensures updates { P.updates p.new ≡ P.updates p.old }
    ensures passes { P.passes p.new ≡ P.passes p.old }
{
    rewrite(p, to, wide / 2, Source::Narrowed { from, to, part });
}

/// Moves elements along a group of registers, whose first is `base`: each element of the row `to`
/// becomes the element of the group that lies `by` places below it, where `up`, or above it. The
/// first element of the row has the number `first` in the group. Where the group has no such element
/// below `limit`, it becomes 0.
pub fn slide<P: Planes>(
    p: &mut P,
    to: u8,
    base: u8,
    width: u8,
    first: u32,
    up: bool,
    by: u32,
    limit: u32,
)
    requires to { to < 64 }
    requires width { is_width width ≡ true }
    requires reach { GroupReaches (P.slices p.old).columns base width limit }
    ensures slices { P.slices p.new ≡ slid to base width first up by limit (P.slices p.old) }
    ensures searches { P.searches p.new ≡ P.searches p.old }
    ensures updates { P.updates p.new ≡ P.updates p.old }
    ensures passes { P.passes p.new ≡ P.passes p.old }
{
    let source = Source::Slid {
        base,
        first,
        up,
        by,
        limit,
    };
    rewrite(p, to, width, source);
}

/// Spreads one element over a row: each element of the row `to` becomes the element `index` of the
/// group of registers whose first is `base`, or 0 where `index` is not below `limit`.
pub fn pick<P: Planes>(p: &mut P, to: u8, base: u8, width: u8, index: u32, limit: u32)
    requires to { to < 64 }
    requires width { is_width width ≡ true }
    requires reach { GroupReaches (P.slices p.old).columns base width limit }
    ensures slices { P.slices p.new ≡ picked to base width index limit (P.slices p.old) }
    ensures searches { P.searches p.new ≡ P.searches p.old }
    ensures updates { P.updates p.new ≡ P.updates p.old }
    ensures passes { P.passes p.new ≡ P.passes p.old }
{
    rewrite(p, to, width, Source::Picked { base, index, limit });
}

/// Numbers the elements of the row `to`: each becomes its number modulo 2 to the power `width`. The
/// first one has the number `first`.
pub fn index<P: Planes>(p: &mut P, to: u8, width: u8, first: u32)
    requires to { to < 64 }
    requires width { is_width width ≡ true }
    ensures slices { P.slices p.new ≡ indexed to width first (P.slices p.old) }
    ensures searches { P.searches p.new ≡ P.searches p.old }
    ensures updates { P.updates p.new ≡ P.updates p.old }
    ensures passes { P.passes p.new ≡ P.passes p.old }
{
    rewrite(p, to, width, Source::Indexed { first });
}

/// Writes into the row `to` how the number of each of its bits stands to `num`, the control number:
/// bit i of a row is in subarray i mod 32 of column i div 32.
pub fn below<P: Planes>(p: &mut P, to: u8, how: Reach, num: u64)
    requires { to < 64 }
    ensures slices { P.slices p.new ≡ marked to how num (P.slices p.old) }
    ensures searches { P.searches p.new ≡ P.searches p.old }
    ensures updates { P.updates p.new ≡ P.updates p.old }
    ensures passes { P.passes p.new ≡ P.passes p.old }
{
    let bits = u32::from(SUBARRAYS) * p.columns();
    write_ones(p, to, 1, 0, reached(how, num, bits));
}

// The range of the bits that are told, of so many.
fn reached(how: Reach, num: u64, bits: u32) -> Ones
    requires { bits < 2 ^ 31 }
    ensures { (f : ℕ → Bool) → (e : ℕ) → e < bits → is_one result f e ≡ reaches how num e }
{
    // No bit has a number from `bits` on, and one more than that fits a u32.
    let num = num.min(u64::from(bits)) as u32;
    let (from, to) = match how {
        Reach::Before => (0, num),
        Reach::Upto => (0, num + 1),
        Reach::At => (num, num + 1),
    };
    Ones {
        from,
        to,
        on: true,
        off: true,
        tail: false,
    }
}
