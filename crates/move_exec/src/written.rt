// The registers that instructions write.
ghost use Rattle.std.specs.Prelude.{◌≡◌, ℕ, ◌<◌, ◌≤◌};
ghost use Rattle.rvv_meaning.specs.Elementwise.{is_ones};
ghost use Rattle.move_exec.specs.Written.{Sits, group_registers, mask_frame, group_frame, offset_frame, first_frame, whole_frame, whole_width};

use crate::frames::Frame;
use rvv_decode::VInstr;
use vtype_cfg::{Cfg, Policy};

// LMUL counts eighths of a register.
const EIGHTHS: u8 = 8;

// The elements of whole registers are bytes where no setting is in force.
const BYTE_BITS: u8 = 8;

// Whether agnostic elements become ones.
fn makes_ones(cfg: &Cfg) -> bool
    ensures { result ≡ is_ones cfg.now.policy }
{
    matches!(cfg.policy, Policy::Ones)
}

// How many registers a group takes.
fn registers(cfg: &Cfg) -> u8
    requires sew { 0 < cfg.now.vtype.sew }
    requires few { group_registers cfg.now ≤ 8 }
    ensures { result ≡ group_registers cfg.now }
{
    let eighths = u32::from(cfg.vtype.lmul8) * u32::from(cfg.vtype.sew) / u32::from(cfg.vtype.sew);
    (eighths / u32::from(EIGHTHS)).max(1) as u8
}

/// The bits of the mask in vd.
pub fn mask_frame(masked: bool, i: &VInstr, cfg: &Cfg) -> Frame
    ensures { result ≡ mask_frame masked i.now cfg.now }
{
    Frame {
        vd: i.vd,
        registers: 1,
        width: 1,
        masked,
        ones: makes_ones(cfg),
        tail: cfg.vstart < cfg.vl,
        from: cfg.vstart,
        len: cfg.vl,
        until: cfg.vl,
    }
}

/// The elements of the group from vd on.
pub fn group_frame(i: &VInstr, cfg: &Cfg) -> Frame
    requires sits { Sits (group_frame i.now cfg.now) }
    ensures { result ≡ group_frame i.now cfg.now }
{
    Frame {
        vd: i.vd,
        registers: registers(cfg),
        width: cfg.vtype.sew,
        masked: !i.vm,
        ones: makes_ones(cfg),
        tail: cfg.vstart < cfg.vl && cfg.vtype.vta,
        from: cfg.vstart,
        len: cfg.vl,
        until: cfg.vl,
    }
}

/// The elements of the group from vd on, from the amount on.
pub fn offset_frame(i: &VInstr, cfg: &Cfg, amount: u32) -> Frame
    requires sits { Sits (offset_frame i.now cfg.now amount) }
    ensures { result ≡ offset_frame i.now cfg.now amount }
{
    let frame = group_frame(i, cfg);
    Frame {
        from: cfg.vstart.max(amount),
        vd: frame.vd,
        registers: frame.registers,
        width: frame.width,
        masked: frame.masked,
        ones: frame.ones,
        tail: frame.tail,
        len: frame.len,
        until: frame.until,
    }
}

/// Element 0 of the register vd.
pub fn first_frame(i: &VInstr, cfg: &Cfg) -> Frame
    ensures { result ≡ first_frame i.now cfg.now }
{
    let len = cfg.vl.min(1);
    Frame {
        vd: i.vd,
        registers: 1,
        width: cfg.vtype.sew,
        masked: false,
        ones: makes_ones(cfg),
        tail: cfg.vstart < cfg.vl && cfg.vtype.vta,
        from: cfg.vstart,
        len,
        until: cfg.vstart.max(len),
    }
}

// The bits of an element of whole registers.
fn whole_width(cfg: &Cfg) -> u8
    ensures { result ≡ whole_width cfg.now }
{
    if cfg.vtype.vill {
        BYTE_BITS
    } else {
        cfg.vtype.sew
    }
}

/// All elements of whole registers.
pub fn whole_frame(i: &VInstr, cfg: &Cfg) -> Frame
    requires sits { Sits (whole_frame i.now cfg.now) }
    requires length { cfg.now.vlen ≤ 65536 }
    ensures { result ≡ whole_frame i.now cfg.now }
{
    let registers = i.vs1 + 1;
    let width = whole_width(cfg);
    let len = u32::from(registers) * (cfg.vlen / u32::from(width));
    Frame {
        vd: i.vd,
        registers,
        width,
        masked: false,
        ones: false,
        tail: cfg.vstart < len && cfg.vtype.vta,
        from: cfg.vstart,
        len,
        until: len,
    }
}
