// A call for each kind: a row of the table of shifts, and the extension by a sign.
ghost use Rattle.std.specs.Prelude.{◌≡◌, Bool, ◌+◌, ◌-◌, ◌*◌, ◌/◌, ◌^◌, ◌<◌, ◌≤◌, ◌++◌};
ghost use Rattle.bit_laws.specs.Numbers.{low};
ghost use Rattle.micro_ir.specs.Kinds.{Realises};
ghost use Rattle.micro_ir.specs.Measures.{counts, Measured};
ghost use Rattle.micro_ir.specs.WorkRows.{IsOperandRow};
ghost use Rattle.gen_shift.specs.declared.kinds.Shift.TheVariants.{Sll, Srl, Sra};
ghost use Rattle.gen_shift.specs.Kinds.{signed_shifted, ssrl_value, ssra_value, shift_ops, shift_counts, rounding_ops, rounding_counts, rounding_length, rounded_ops, rounded_counts, rounded_length, extension_ops};
ghost use Rattle.gen_shift.specs.Laws.{LeavesRounded, ExtendsSign};

use crate::kinds::Shift;
use crate::lists::emit_shift;
use crate::rounding::{emit_rounded, emit_rounding};
use bit_laws::Width;
use micro_ir::{MicroBuf, Place, emit_ups};

/// A row moved to the left by the low bits of another one, into the active elements of a register
/// (vector extension 1.0, section 11.6).
pub fn emit_sll<W: Width>(buf: &mut MicroBuf, at: &Place)
    requires a { IsOperandRow at.now.a }
    requires b { IsOperandRow at.now.b }
    requires to { at.now.to < 32 }
    requires room { W.LOG * (3 * W.BITS + 13) + 8 ≤ buf.old.spare }
    ensures ops { buf.new.ops ≡ buf.old.ops ++ shift_ops Sll W.BITS W.LOG at.now }
    ensures spare { buf.new.spare + (W.LOG * (3 * W.BITS + 13) + 8) ≡ buf.old.spare }
    ensures realises { (reads : Bool) → Realises W.BITS at.now.to reads
        (λ n c. n at.now.a * 2 ^ low W.LOG (n at.now.b)) (shift_ops Sll W.BITS W.LOG at.now) }
    ensures cost { Measured (shift_counts Sll W.BITS W.LOG)
        (W.LOG * (3 * W.BITS + 13) + 8) (shift_ops Sll W.BITS W.LOG at.now) }
{
    emit_shift::<W>(buf, at, Shift::Sll);
}

/// A row moved to the right by the low bits of another one, zeros coming in, into the active
/// elements of a register (vector extension 1.0, section 11.6).
pub fn emit_srl<W: Width>(buf: &mut MicroBuf, at: &Place)
    requires a { IsOperandRow at.now.a }
    requires b { IsOperandRow at.now.b }
    requires to { at.now.to < 32 }
    requires room { W.LOG * (3 * W.BITS + 13) + 8 ≤ buf.old.spare }
    ensures ops { buf.new.ops ≡ buf.old.ops ++ shift_ops Srl W.BITS W.LOG at.now }
    ensures spare { buf.new.spare + (W.LOG * (3 * W.BITS + 13) + 8) ≡ buf.old.spare }
    ensures realises { (reads : Bool) → Realises W.BITS at.now.to reads
        (λ n c. n at.now.a / 2 ^ low W.LOG (n at.now.b)) (shift_ops Srl W.BITS W.LOG at.now) }
    ensures cost { Measured (shift_counts Srl W.BITS W.LOG)
        (W.LOG * (3 * W.BITS + 13) + 8) (shift_ops Srl W.BITS W.LOG at.now) }
{
    emit_shift::<W>(buf, at, Shift::Srl);
}

/// A row moved to the right by the low bits of another one, the sign coming in, into the active
/// elements of a register (vector extension 1.0, section 11.6).
pub fn emit_sra<W: Width>(buf: &mut MicroBuf, at: &Place)
    requires a { IsOperandRow at.now.a }
    requires b { IsOperandRow at.now.b }
    requires to { at.now.to < 32 }
    requires room { W.LOG * (3 * W.BITS + 15) + (3 * W.BITS + 9) ≤ buf.old.spare }
    ensures ops { buf.new.ops ≡ buf.old.ops ++ shift_ops Sra W.BITS W.LOG at.now }
    ensures spare { buf.new.spare + (W.LOG * (3 * W.BITS + 15) + (3 * W.BITS + 9)) ≡ buf.old.spare }
    ensures realises { (reads : Bool) → Realises W.BITS at.now.to reads
        (λ n c. signed_shifted W.BITS W.LOG (n at.now.a) (n at.now.b))
        (shift_ops Sra W.BITS W.LOG at.now) }
    ensures cost { Measured (shift_counts Sra W.BITS W.LOG)
        (W.LOG * (3 * W.BITS + 15) + (3 * W.BITS + 9)) (shift_ops Sra W.BITS W.LOG at.now) }
{
    emit_shift::<W>(buf, at, Shift::Sra);
}

/// A row moved to the right by the low bits of another one, zeros coming in, and rounded by the mode
/// of the place, into the active elements of a register (vector extension 1.0, section 12.4).
pub fn emit_ssrl<W: Width>(buf: &mut MicroBuf, at: &Place)
    requires a { IsOperandRow at.now.a }
    requires b { IsOperandRow at.now.b }
    requires to { at.now.to < 32 }
    requires mode { at.now.mode ≤ 3 }
    requires room { rounded_length Srl at.now.mode W.BITS W.LOG ≤ buf.old.spare }
    ensures ops { buf.new.ops ≡ buf.old.ops ++ rounded_ops Srl W.BITS W.LOG at.now }
    ensures spare { buf.new.spare + rounded_length Srl at.now.mode W.BITS W.LOG ≡ buf.old.spare }
    ensures realises { (reads : Bool) → Realises W.BITS at.now.to reads
        (λ n c. ssrl_value at.now.mode W.BITS W.LOG (n at.now.a) (n at.now.b))
        (rounded_ops Srl W.BITS W.LOG at.now) }
    ensures cost { Measured (rounded_counts Srl at.now.mode W.BITS W.LOG)
        (rounded_length Srl at.now.mode W.BITS W.LOG) (rounded_ops Srl W.BITS W.LOG at.now) }
{
    emit_rounded::<W>(buf, at, Shift::Srl);
}

/// A row moved to the right by the low bits of another one, the sign coming in, and rounded by the mode
/// of the place, into the active elements of a register (vector extension 1.0, section 12.4).
pub fn emit_ssra<W: Width>(buf: &mut MicroBuf, at: &Place)
    requires a { IsOperandRow at.now.a }
    requires b { IsOperandRow at.now.b }
    requires to { at.now.to < 32 }
    requires mode { at.now.mode ≤ 3 }
    requires room { rounded_length Sra at.now.mode W.BITS W.LOG ≤ buf.old.spare }
    ensures ops { buf.new.ops ≡ buf.old.ops ++ rounded_ops Sra W.BITS W.LOG at.now }
    ensures spare { buf.new.spare + rounded_length Sra at.now.mode W.BITS W.LOG ≡ buf.old.spare }
    ensures realises { (reads : Bool) → Realises W.BITS at.now.to reads
        (λ n c. ssra_value at.now.mode W.BITS W.LOG (n at.now.a) (n at.now.b))
        (rounded_ops Sra W.BITS W.LOG at.now) }
    ensures cost { Measured (rounded_counts Sra at.now.mode W.BITS W.LOG)
        (rounded_length Sra at.now.mode W.BITS W.LOG) (rounded_ops Sra W.BITS W.LOG at.now) }
{
    emit_rounded::<W>(buf, at, Shift::Sra);
}

/// A row moved to the right by the low bits of another one, zeros coming in, and rounded by the mode
/// of the place, in the row of work that `rounding_row` names (vector extension 1.0, sections 11.7 and
/// 12.5). The mode 2 rounds down.
pub fn emit_srl_raw<W: Width>(buf: &mut MicroBuf, at: &Place)
    requires a { IsOperandRow at.now.a }
    requires b { IsOperandRow at.now.b }
    requires mode { at.now.mode ≤ 3 }
    requires room { rounding_length Srl at.now.mode W.BITS W.LOG ≤ buf.old.spare }
    ensures ops { buf.new.ops ≡ buf.old.ops ++ rounding_ops Srl W.BITS W.LOG at.now }
    ensures spare { buf.new.spare + rounding_length Srl at.now.mode W.BITS W.LOG ≡ buf.old.spare }
    ensures leaves { LeavesRounded Srl W.BITS W.LOG at.now }
    ensures cost { Measured (rounding_counts Srl at.now.mode W.BITS W.LOG)
        (rounding_length Srl at.now.mode W.BITS W.LOG) (rounding_ops Srl W.BITS W.LOG at.now) }
{
    emit_rounding::<W>(buf, at, Shift::Srl);
}

/// A row moved to the right by the low bits of another one, the sign coming in, and rounded by the mode
/// of the place, in the row of work that `rounding_row` names (vector extension 1.0, sections 11.7 and
/// 12.5). The mode 2 rounds down.
pub fn emit_sra_raw<W: Width>(buf: &mut MicroBuf, at: &Place)
    requires a { IsOperandRow at.now.a }
    requires b { IsOperandRow at.now.b }
    requires mode { at.now.mode ≤ 3 }
    requires room { rounding_length Sra at.now.mode W.BITS W.LOG ≤ buf.old.spare }
    ensures ops { buf.new.ops ≡ buf.old.ops ++ rounding_ops Sra W.BITS W.LOG at.now }
    ensures spare { buf.new.spare + rounding_length Sra at.now.mode W.BITS W.LOG ≡ buf.old.spare }
    ensures leaves { LeavesRounded Sra W.BITS W.LOG at.now }
    ensures cost { Measured (rounding_counts Sra at.now.mode W.BITS W.LOG)
        (rounding_length Sra at.now.mode W.BITS W.LOG) (rounding_ops Sra W.BITS W.LOG at.now) }
{
    emit_rounding::<W>(buf, at, Shift::Sra);
}

/// Appends what extends the numbers of `source` bits in the elements of row `at.a` by their sign
/// (vector extension 1.0, section 11.3). The bits of each element above those are 0 before. Every
/// element is extended, active or not. There are no errors.
pub fn emit_sext<W: Width>(buf: &mut MicroBuf, at: &Place, source: u8)
    requires a { at.now.a < 64 }
    requires some { 0 < source }
    requires source { source < W.BITS }
    requires room { 3 * (W.BITS - source) ≤ buf.old.spare }
    ensures ops { buf.new.ops ≡ buf.old.ops ++ extension_ops source W.BITS at.now.a }
    ensures spare { buf.new.spare + 3 * (W.BITS - source) ≡ buf.old.spare }
    ensures extends { ExtendsSign source W.BITS at.now.a (extension_ops source W.BITS at.now.a) }
    ensures cost { Measured (counts (W.BITS - source) (W.BITS - source) (W.BITS - source))
        (3 * (W.BITS - source)) (extension_ops source W.BITS at.now.a) }
{
    emit_ups::<W>(buf, at.a, source - 1, W::BITS as u8 - source);
}
