// The kinds of instruction, and what computes them.
ghost use Rattle.std.specs.Prelude.{◌≡◌, ◌+◌, ◌≤◌, ◌++◌, Some, IsTrue, true};
ghost use Rattle.vtype_cfg.specs.Legality.{is_legal};
ghost use Rattle.vtype_cfg.specs.Settings.{is_valid};
ghost use Rattle.rvv_decode.specs.Ranges.{IsInRange};
ghost use Rattle.move_exec.specs.Kinds.{kind_for, has_program, frame_for, body_for, takes_scalar, last_list, last_length, HasLastList};

use crate::bodies::Body;
use crate::frames::Frame;
use crate::moves::{Move, body_of_move, emit_single_of, frame_of_move, moves_scalar};
use crate::written::{group_frame, mask_frame};
use bit_laws::Width;
use gen_logic::Logic;
use micro_ir::MicroBuf;
use rvv_decode::{OpiOp, OpmOp, VInstr, VOp};
use steer_net::Reach;
use vtype_cfg::Cfg;

/// A kind of instruction that reads whole groups or whole masks, and whose program this crate has.
#[derive(Clone, Copy, Debug, PartialEq, Eq)]
pub enum Kind {
    /// A truth of the bits of two masks (vector extension 1.0, section 15.1).
    Masks(Logic),
    /// The places that stand so to the first one of a mask (sections 15.4 to 15.6).
    Marks(Reach),
    /// The numbers of elements (section 15.9).
    Numbers,
    /// Elements that move between places (chapter 16).
    Moves(Move),
}

/// The kind of an instruction, where it has one.
#[tactic(auto, unfolding(crate::specs::Kinds::kind_for))]
pub fn kind_of(op: VOp) -> Option<Kind>
    ensures { result ≡ kind_for op }
{
    match op {
        VOp::Opm(op) => match op {
            OpmOp::Vmand => Some(Kind::Masks(Logic::And)),
            OpmOp::Vmor => Some(Kind::Masks(Logic::Or)),
            OpmOp::Vmxor => Some(Kind::Masks(Logic::Xor)),
            OpmOp::Vmnand => Some(Kind::Masks(Logic::Nand)),
            OpmOp::Vmnor => Some(Kind::Masks(Logic::Nor)),
            OpmOp::Vmxnor => Some(Kind::Masks(Logic::Xnor)),
            OpmOp::Vmandn => Some(Kind::Masks(Logic::Andn)),
            OpmOp::Vmorn => Some(Kind::Masks(Logic::Orn)),
            OpmOp::Vmsbf => Some(Kind::Marks(Reach::Before)),
            OpmOp::Vmsif => Some(Kind::Marks(Reach::Upto)),
            OpmOp::Vmsof => Some(Kind::Marks(Reach::At)),
            OpmOp::Vid => Some(Kind::Numbers),
            OpmOp::Vslide1up => Some(Kind::Moves(Move::UpByOne)),
            OpmOp::Vslide1down => Some(Kind::Moves(Move::DownByOne)),
            OpmOp::VmvSX => Some(Kind::Moves(Move::ScalarIn)),
            _ => None,
        },
        VOp::Opi(op) => match op {
            OpiOp::Vslideup => Some(Kind::Moves(Move::Up)),
            OpiOp::Vslidedown => Some(Kind::Moves(Move::Down)),
            OpiOp::Vrgather => Some(Kind::Moves(Move::Gathered)),
            OpiOp::VmvWhole => Some(Kind::Moves(Move::Whole)),
            _ => None,
        },
        VOp::Config(_) | VOp::Memory(_) => None,
    }
}

/// The registers that an instruction of the kind writes. `scalar` is the value of x[rs1], where it
/// takes it.
pub fn frame_of(kind: Kind, i: &VInstr, cfg: &Cfg, scalar: u32) -> Frame
    requires kind { kind_for i.now.op ≡ Some kind }
    requires form { has_program kind i.now.form ≡ true }
    requires fields { IsInRange i.now }
    requires legal { is_legal i.now cfg.now.vtype cfg.now.vstart ≡ true }
    requires valid { IsTrue (is_valid cfg.now) }
    ensures { result ≡ frame_for kind i.now cfg.now scalar }
{
    match kind {
        Kind::Masks(_) => mask_frame(false, i, cfg),
        Kind::Marks(_) => mask_frame(!i.vm, i, cfg),
        Kind::Numbers => group_frame(i, cfg),
        Kind::Moves(how) => frame_of_move(how, i, cfg, scalar),
    }
}

/// What computes them.
pub fn body_of(kind: Kind, i: &VInstr, cfg: &Cfg, scalar: u32) -> Body
    requires valid { IsTrue (is_valid cfg.now) }
    ensures { result ≡ body_for kind i.now cfg.now scalar }
{
    match kind {
        Kind::Masks(kind) => Body::Bits {
            kind,
            a: i.vs2,
            b: i.vs1,
        },
        Kind::Marks(how) => Body::Marked { source: i.vs2, how },
        Kind::Numbers => Body::Numbers,
        Kind::Moves(how) => body_of_move(how, i, cfg, scalar),
    }
}

/// Whether the program of an instruction of the kind begins with the scalar.
pub const fn takes_scalar(kind: Kind) -> bool
    ensures { result ≡ takes_scalar kind }
{
    match kind {
        Kind::Moves(how) => moves_scalar(how),
        Kind::Masks(_) | Kind::Marks(_) | Kind::Numbers => false,
    }
}

/// Appends what stands after the registers.
pub fn emit_last<W: Width>(kind: Kind, i: &VInstr, cfg: &Cfg, buf: &mut MicroBuf)
    requires last { HasLastList kind W.BITS i.now cfg.now }
    requires length { cfg.now.vlen ≤ 65536 }
    requires room { last_length kind ≤ buf.old.spare }
    ensures ops { buf.new.ops ≡ buf.old.ops ++ last_list kind i.now cfg.now }
    ensures spare { buf.new.spare + last_length kind ≡ buf.old.spare }
{
    match kind {
        Kind::Moves(how) => emit_single_of::<W>(how, i, cfg, buf),
        Kind::Masks(_) | Kind::Marks(_) | Kind::Numbers => {}
    }
}
