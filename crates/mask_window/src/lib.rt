//! The operations that mark the elements of a register by their places: those that an instruction computes, and those
//! that it leaves agnostic.
#![tactic(auto)]

ghost use Rattle.std.specs.Prelude.{◌≡◌, ◌+◌, ◌<◌, [], ◌∷◌, ◌++◌};
ghost use Rattle.mask_window.specs.Operations.{active_operation, free_operation, MarksActive, MarksAgnostic};

use micro_ir::{ACTIVE_ROW, FREE_ROW, MicroBuf, MicroOp};
use vtype_cfg::Cfg;

/// Marks the active elements of a register, whose first element has the number `first` and whose
/// elements have `width` bits: those from `vstart` on and below `vl` and, where `masked`, with their
/// mask bit set (vector extension 1.0, section 5.4).
pub fn active(buf: &mut MicroBuf, cfg: &Cfg, width: u8, first: u32, masked: bool)
    requires room { 0 < buf.old.spare }
    ensures ops { buf.new.ops ≡ buf.old.ops ++ active_operation cfg.now width first masked ∷ [] }
    ensures spare { buf.new.spare + 1 ≡ buf.old.spare }
    ensures places { MarksActive cfg.now masked }
{
    buf.push(MicroOp::Window {
        row: ACTIVE_ROW,
        width,
        first,
        from: cfg.vstart,
        to: cfg.vl,
        masked,
    });
}

/// Marks the agnostic elements of a register: those that the mask leaves out, where `vma` is set, and those of the tail,
/// where `tail` says so and `vstart` is below `vl` (vector extension 1.0, section 3.4.3).
pub fn free(buf: &mut MicroBuf, cfg: &Cfg, width: u8, first: u32, masked: bool, tail: bool)
    requires room { 0 < buf.old.spare }
    ensures ops { buf.new.ops
        ≡ buf.old.ops ++ free_operation cfg.now width first masked tail ∷ [] }
    ensures spare { buf.new.spare + 1 ≡ buf.old.spare }
    ensures places { MarksAgnostic cfg.now masked tail }
{
    buf.push(MicroOp::Free {
        row: FREE_ROW,
        width,
        first,
        from: cfg.vstart,
        to: cfg.vl,
        masked,
        tail: cfg.vstart < cfg.vl && tail,
        off: masked && cfg.vtype.vma,
    });
}
