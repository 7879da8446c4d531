// The instructions that move elements between places, or bring a scalar into one.
ghost use Rattle.std.specs.Prelude.{◌≡◌, ℕ, ◌+◌, ◌-◌, ◌*◌, ◌/◌, ◌<◌, ◌≤◌, ◌++◌, IsTrue, true};
ghost use Rattle.vtype_cfg.specs.Settings.{is_valid};
ghost use Rattle.move_exec.specs.Moves.{frame_of_move, body_of_move, moves_scalar, single_list, single_for, single_length, last_start, slid_body, IsPlaced, HasLast};
ghost use Rattle.move_exec.specs.Written.{Sits, amount_for};

use crate::bodies::{Body, at_rows};
use crate::frames::Frame;
use crate::written::{first_frame, group_frame, offset_frame, whole_frame};
use bit_laws::Width;
use gen_logic::Logic;
use gen_perm::emit_single;
use micro_ir::{ACTIVE_ROW, MicroBuf, MicroOp};
use rvv_decode::{Form, VInstr};
use vtype_cfg::Cfg;

/// How an instruction moves elements (vector extension 1.0, chapter 16).
#[derive(Clone, Copy, Debug, PartialEq, Eq)]
pub enum Move {
    /// So many places up, or down (section 16.3).
    Up,
    Down,
    /// One place up, or down, and the scalar into the element that none comes to.
    UpByOne,
    DownByOne,
    /// One element into all (section 16.4).
    Gathered,
    /// The scalar into element 0 (section 16.1).
    ScalarIn,
    /// Whole registers (section 16.6).
    Whole,
}

// How far a slide moves, and the index of a gather.
fn amount(i: &VInstr, scalar: u32) -> u32
    ensures { result ≡ amount_for i.now.form i.now.vs1 scalar }
{
    match i.form {
        Form::V => 0,
        Form::X => scalar,
        Form::I => u32::from(i.vs1),
    }
}

/// The registers that such an instruction writes.
pub fn frame_of_move(how: Move, i: &VInstr, cfg: &Cfg, scalar: u32) -> Frame
    requires sits { Sits (frame_of_move how i.now cfg.now scalar) }
    requires length { cfg.now.vlen ≤ 65536 }
    ensures { result ≡ frame_of_move how i.now cfg.now scalar }
{
    match how {
        Move::Up => offset_frame(i, cfg, amount(i, scalar)),
        Move::Down | Move::UpByOne | Move::DownByOne | Move::Gathered => group_frame(i, cfg),
        Move::ScalarIn => first_frame(i, cfg),
        Move::Whole => whole_frame(i, cfg),
    }
}

// A slide of the group in vs2.
fn slid(i: &VInstr, cfg: &Cfg, up: bool, by: u32) -> Body
    requires valid { IsTrue (is_valid cfg.now) }
    ensures { result ≡ slid_body i.now cfg.now up by }
{
    Body::Slid {
        base: i.vs2,
        up,
        by,
        limit: cfg.vtype.vlmax(cfg.vlen),
    }
}

/// What computes them.
pub fn body_of_move(how: Move, i: &VInstr, cfg: &Cfg, scalar: u32) -> Body
    requires valid { IsTrue (is_valid cfg.now) }
    ensures { result ≡ body_of_move how i.now cfg.now scalar }
{
    match how {
        Move::Up => slid(i, cfg, true, amount(i, scalar)),
        Move::Down => slid(i, cfg, false, amount(i, scalar)),
        Move::UpByOne => slid(i, cfg, true, 1),
        Move::DownByOne => slid(i, cfg, false, 1),
        Move::Gathered => Body::Picked {
            base: i.vs2,
            index: amount(i, scalar),
            limit: cfg.vtype.vlmax(cfg.vlen),
        },
        Move::ScalarIn => Body::Scalar,
        Move::Whole => Body::Bits {
            kind: Logic::Second,
            a: i.vs2,
            b: i.vs2,
        },
    }
}

/// Whether its program begins with the scalar.
pub const fn moves_scalar(how: Move) -> bool
    ensures { result ≡ moves_scalar how }
{
    matches!(how, Move::UpByOne | Move::DownByOne | Move::ScalarIn)
}

// The scalar into one element of the group from vd on, by a window that begins at `start`.
fn emit_element<W: Width>(number: u32, start: u32, i: &VInstr, cfg: &Cfg, buf: &mut MicroBuf)
    requires width { cfg.now.vtype.sew ≡ W.BITS }
    requires placed { IsPlaced i.now cfg.now number }
    requires length { cfg.now.vlen ≤ 65536 }
    requires room { 5 ≤ buf.old.spare }
    ensures ops { buf.new.ops ≡ buf.old.ops ++ single_list i.now cfg.now number start }
    ensures spare { buf.new.spare + 5 ≡ buf.old.spare }
{
    let each = cfg.vlen / u32::from(cfg.vtype.sew);
    let register = number / each;
    let to = i.vd + register as u8;
    emit_single::<W>(
        buf,
        &at_rows(to, to, to),
        &MicroOp::Window {
            row: ACTIVE_ROW,
            width: cfg.vtype.sew,
            first: register * each,
            from: start,
            to: cfg.vl.min(number + 1),
            masked: !i.vm,
        },
    );
}

// Where the window of the last element begins.
fn last_start(cfg: &Cfg) -> u32
    ensures { result ≡ last_start cfg.now }
{
    if cfg.vl == 0 {
        0
    } else {
        cfg.vstart.max(cfg.vl - 1)
    }
}

/// Appends what stands after the registers: the scalar into the first element or the last one, of a
/// slide by one place.
pub fn emit_single_of<W: Width>(how: Move, i: &VInstr, cfg: &Cfg, buf: &mut MicroBuf)
    requires last { HasLast how W.BITS i.now cfg.now }
    requires length { cfg.now.vlen ≤ 65536 }
    requires room { single_length how ≤ buf.old.spare }
    ensures ops { buf.new.ops ≡ buf.old.ops ++ single_for how i.now cfg.now }
    ensures spare { buf.new.spare + single_length how ≡ buf.old.spare }
{
    match how {
        Move::UpByOne => emit_element::<W>(0, cfg.vstart, i, cfg, buf),
        Move::DownByOne => {
            emit_element::<W>(cfg.vl.saturating_sub(1), last_start(cfg), i, cfg, buf);
        }
        _ => {}
    }
}
