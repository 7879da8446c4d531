// Counts of the bits of elements.
ghost use Rattle.std.specs.Prelude.{◌≡◌, ◌≢◌, false, ◌+◌, ◌*◌, ◌<◌, ◌≤◌, [], ◌∷◌, ◌++◌, IsTrue};
ghost use Rattle.cam_chain.specs.KeyPairs.{are_keys};
ghost use Rattle.micro_ir.specs.declared.op.MicroOp.TheVariants.{Search, Count};
ghost use Rattle.row_views.specs.Lists.{lane};
ghost use Rattle.row_counts.specs.Spans.{IsSpan};
ghost use Rattle.row_counts.specs.Lists.{how_at, count_bits, count_rows};

use crate::span::Span;
use bit_rows::SUBARRAYS;
use cam_chain::Keys;
use micro_ir::{ACTIVE_ROW, MicroBuf, MicroOp};
use reduce_tree::How;

/// What is made of the tags that a bit of each element sets.
#[derive(Clone, Copy, Debug, PartialEq, Eq)]
pub struct Counting {
    /// The bit that sets a tag.
    pub wanted: bool,
    /// How the tags of a bit are taken into the control number.
    pub how: How,
    /// How those of the highest bit are.
    pub top: How,
}

impl Counting {
    // How the tags of a bit of elements of `width` bits are taken.
    fn how_at(&self, width: u8, bit: u8) -> How
        requires { 0 < width }
        ensures { result ≡ how_at self.now width bit }
    {
        if bit == width - 1 { self.top } else { self.how }
    }
}

/// The subarrays that hold the bit at place `bit` of elements of `width` bits.
pub fn lane(width: u8, bit: u8) -> u32
    requires { 0 < width }
    ensures { result ≡ lane width bit }
{
    let mut subs: u32 = 0;
    for sub in 0..SUBARRAYS {
        if sub % width == bit {
            subs += 1 << sub;
        }
    }
    subs
}

/// Appends a search for one set of keys, and a count of the tags that it sets.
pub fn push_counted(buf: &mut MicroBuf, subs: u32, pairs: &[(u8, bool)], bit: u8, how: How)
    requires keys { IsTrue (are_keys pairs.now) }
    requires room { 2 ≤ buf.old.spare }
    ensures ops { buf.new.ops
        ≡ buf.old.ops ++ (Search subs pairs.now false ∷ Count subs bit how ∷ []) }
    ensures spare { buf.new.spare + 2 ≡ buf.old.spare }
{
    let Some(keys) = Keys::new(pairs) else {
        unreachable!();
    };
    buf.push(MicroOp::Search {
        subs,
        keys,
        join: false,
    });
    buf.push(MicroOp::Count { subs, bit, how });
}

/// Appends the counts of the bits of the active elements of row `row`, the lowest bit first. An
/// element has `width` bits.
pub fn emit_counts(buf: &mut MicroBuf, width: u8, row: u8, counting: &Counting)
    requires row { row < 64 }
    requires apart { row ≢ 32 }
    requires room { 2 * width ≤ buf.old.spare }
    ensures ops { buf.new.ops ≡ buf.old.ops ++ count_bits width row counting.now width }
    ensures spare { buf.new.spare + 2 * width ≡ buf.old.spare }
{
    let keys = [(ACTIVE_ROW, true), (row, counting.wanted)];
    for bit in 0..width {
        let how = counting.how_at(width, bit);
        push_counted(buf, lane(width, bit), &keys, bit, how);
    }
}

/// Appends the counts of the bits of all active elements of a group of registers, each register's
/// after its window.
pub fn emit_group(buf: &mut MicroBuf, width: u8, span: &Span, counting: &Counting)
    requires span { IsSpan span.now }
    requires room { span.now.regs * (2 * width + 1) ≤ buf.old.spare }
    ensures ops { buf.new.ops
        ≡ buf.old.ops ++ count_rows width span.now counting.now span.now.regs }
    ensures spare { buf.new.spare + span.now.regs * (2 * width + 1) ≡ buf.old.spare }
{
    for register in 0..span.regs {
        buf.push(MicroOp::Window {
            row: ACTIVE_ROW,
            width,
            first: u32::from(register) * span.per,
            from: span.from,
            to: span.to,
            masked: span.masked,
        });
        emit_counts(buf, width, span.base + register, counting);
    }
}
