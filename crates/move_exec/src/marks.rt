// The lists that mark the places that stand so to the first one of a mask.
ghost use Rattle.std.specs.Prelude.{◌≡◌, ◌+◌, ◌<◌, ◌≤◌, ◌++◌};
ghost use Rattle.gen_reduce.specs.Masks.{prefix_ops};

use crate::bodies::at_rows;
use bit_laws::Width;
use gen_reduce::{emit_sbf, emit_sif, emit_sof};
use micro_ir::MicroBuf;
use steer_net::Reach;

/// Appends the list that marks, in register `to`, the active places that stand so to the first active
/// one of register `source`.
pub fn emit_marked<W: Width>(source: u8, how: Reach, to: u8, buf: &mut MicroBuf)
    requires source { source < 32 }
    requires to { to < 32 }
    requires room { 7 ≤ buf.old.spare }
    ensures ops { buf.new.ops ≡ buf.old.ops ++ prefix_ops source how to }
    ensures spare { buf.new.spare + 7 ≡ buf.old.spare }
{
    let place = at_rows(source, source, to);
    match how {
        Reach::Before => emit_sbf::<W>(buf, &place),
        Reach::Upto => emit_sif::<W>(buf, &place),
        Reach::At => emit_sof::<W>(buf, &place),
    }
}
