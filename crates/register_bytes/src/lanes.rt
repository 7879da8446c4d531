// The bytes of a register in four lanes: those at one place of the words of all columns.
ghost use Rattle.std.specs.Prelude.{◌≡◌, ℕ, ◌+◌, ◌*◌, ◌<◌, ◌≤◌, ◌%◌, length, slice_index};
ghost use Rattle.bit_laws.specs.Numbers.{bit_of, number};
ghost use Rattle.cam_chain.specs.ChainValue.{slices_of};
ghost use Rattle.register_bytes.specs.Rows.{bits_written};

use crate::masks::{add_plane, plane_of};
use bit_rows::{MAX_COLUMNS, Planes, WORD_BITS};
use cam_chain::Chain;

// The bytes of a word.
pub(crate) const BYTES: u8 = 4;

// The bits of a byte.
const BITS: u8 = 8;

// A byte for each column.
type Lane = [u8; MAX_COLUMNS];

// The bytes at a place of the words of all columns; 0 past them.
pub(crate) fn gather(bytes: &[u8], place: usize, columns: usize) -> Lane
    requires place { place < 4 }
    requires few { columns ≤ 2048 }
    requires words { length bytes.now ≡ 4 * columns }
    ensures all { length result ≡ 2048 }
    ensures inside { (c : ℕ) → c < columns → slice_index result c ≡ slice_index bytes.now (4 * c + place) }
    ensures past { (c : ℕ) → columns ≤ c → slice_index result c ≡ 0 }
{
    let mut lane = [0; MAX_COLUMNS];
    for c in 0..columns {
        lane[c] = bytes[4 * c + place];
    }
    lane
}

// Puts the bytes of a lane at a place of the words of all columns.
pub(crate) fn scatter(lane: &[u8], place: usize, columns: usize, into: &mut [u8])
    requires all { length lane.now ≡ 2048 }
    requires place { place < 4 }
    requires few { columns ≤ 2048 }
    requires words { length into.old ≡ 4 * columns }
    ensures at { (c : ℕ) → c < columns → slice_index into.new (4 * c + place) ≡ slice_index lane.now c }
    ensures others { (j : ℕ) → (j % 4 ≡ place → ⊥) → slice_index into.new j ≡ slice_index into.old j }
{
    for c in 0..columns {
        into[4 * c + place] = lane[c];
    }
}

// The bytes at a place of the words of a register.
pub(crate) fn read_lane(chain: &Chain, register: u8, place: u8) -> Lane
    requires register { register < 32 }
    requires place { place < 4 }
    ensures all { length result ≡ 2048 }
    ensures bytes { (c : ℕ) → c < chain.now.columns
        → slice_index result c ≡ number 8 (λ b. (slices_of chain.now).bit (8 * place + b) register c) }
{
    let mut lane = [0; MAX_COLUMNS];
    for bit in 0..BITS {
        add_plane(chain.words(BITS * place + bit, register), bit, &mut lane);
    }
    lane
}

// Writes them.
pub(crate) fn write_lane(chain: &mut Chain, register: u8, place: u8, lane: &[u8])
    requires all { length lane.now ≡ 2048 }
    requires register { register < 32 }
    requires place { place < 4 }
    requires past { (c : ℕ) → chain.old.columns ≤ c → slice_index lane.now c ≡ 0 }
    ensures slices { slices_of chain.new
        ≡ bits_written (8 * place) (8 * place + 8) register (λ sub c. bit_of (slice_index lane.now c) (sub % 8)) (slices_of chain.old) }
    ensures columns { chain.new.columns ≡ chain.old.columns }
    ensures counts { chain.new.counts ≡ chain.old.counts }
{
    let count = chain.columns().div_ceil(WORD_BITS) as usize;
    for bit in 0..BITS {
        let words = plane_of(lane, bit, count);
        chain.set_words(BITS * place + bit, register, &words[..count]);
    }
}
