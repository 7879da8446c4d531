// Rows that are rewritten whole.
ghost use Rattle.std.specs.Prelude.{◌≡◌, ℕ, ◌<◌, true, [], slice_index_or};
ghost use Rattle.bit_rows.specs.Words.{IsTrimmed};
ghost use Rattle.steer_net.specs.Network.{is_width};
ghost use Rattle.steer_net.specs.Moves.{rewritten};
ghost use Rattle.steer_net.specs.Rows.{partly, spans};
ghost use Rattle.steer_net.specs.Runs.{source_bit, IsSource, subarray_bit, HoldsSource};

use crate::lanes::write_lane;
use crate::sources::{Source, source_words};
use bit_rows::{MAX_WORDS, Planes, SUBARRAYS};

// The words of each subarray of a row.
type Subarrays = [[u64; MAX_WORDS]; SUBARRAYS as usize];

// Writes a row whose elements have `width` bits. All of it is read before it is written, since it may be
// one of the rows that are read.
pub(crate) fn rewrite<P: Planes>(p: &mut P, row: u8, width: u8, source: Source)
    requires row { row < 64 }
    requires width { is_width width ≡ true }
    requires reads { IsSource source width (P.slices p.old).columns }
    ensures slices { P.slices p.new
        ≡ rewritten row width (source_bit source width (P.slices p.old)) (P.slices p.old) }
    ensures searches { P.searches p.new ≡ P.searches p.old }
    ensures updates { P.updates p.new ≡ P.updates p.old }
    ensures passes { P.passes p.new ≡ P.passes p.old }
{
    let mut subarrays = [[0; MAX_WORDS]; SUBARRAYS as usize];
    read_source(p, width, source, &mut subarrays);
    write_subarrays(p, row, &subarrays);
}

// Reads what a row gets.
fn read_source<P: Planes>(p: &P, width: u8, source: Source, subarrays: &mut Subarrays)
    requires width { is_width width ≡ true }
    requires reads { IsSource source width (P.slices p.now).columns }
    ensures { (sub : ℕ) → sub < 32 → HoldsSource subarrays.new source width (P.slices p.now) sub }
{
    for sub in 0..SUBARRAYS {
        subarrays[sub as usize] = source_words(p, width, source, sub);
    }
}

// Writes a row whole.
fn write_subarrays<P: Planes>(p: &mut P, row: u8, subarrays: &Subarrays)
    requires row { row < 64 }
    requires trimmed { (sub : ℕ) → sub < 32
        → IsTrimmed (P.slices p.old).columns (slice_index_or subarrays.now sub []) }
    ensures slices { P.slices p.new
        ≡ partly (spans 0 32) row (subarray_bit subarrays.now) (P.slices p.old) }
    ensures searches { P.searches p.new ≡ P.searches p.old }
    ensures updates { P.updates p.new ≡ P.updates p.old }
    ensures passes { P.passes p.new ≡ P.passes p.old }
{
    for sub in 0..SUBARRAYS {
        write_lane(p, row, sub, 1, &subarrays[sub as usize]);
    }
}
