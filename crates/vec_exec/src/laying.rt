// The operations that lay narrower operands out in rows of work.
ghost use Rattle.std.specs.Prelude.{◌≡◌, ℕ, ◌+◌, ◌-◌, ◌*◌, ◌/◌, ◌%◌, ◌<◌, ◌≤◌, ◌++◌, ◌∷◌, [], cond};
ghost use Rattle.frame_laws.specs.Classes.Operands.{Operand, narrow, laid_out};
ghost use Rattle.frame_meaning.specs.Halves.{half_in_vs1};
ghost use Rattle.frame_meaning.specs.Shapes.{narrow_in_vs1};
ghost use Rattle.legal_groups.specs.Facts.{IsElementWidth};
ghost use Rattle.micro_ir.specs.Measures.{Measured};
ghost use Rattle.vec_exec.specs.Programs.{IsPlaced, IsLayable, IsLaid, laid_length, operands_of, width_of};

use crate::operands::at_rows;
use crate::recipes::Recipe;
use bit_laws::Width;
use frame_meaning::Order;
use gen_shift::emit_sext;
use micro_ir::{LEFT_ROW, MicroBuf, MicroOp, RESULT_ROW, RIGHT_ROW};
use rvv_decode::{Form, VInstr};
use vtype_cfg::Cfg;

// A group of narrower elements: its first register, how many times narrower they are, their bits, the row in which they are
// laid out, and whether they are extended by their sign.
#[derive(Clone, Copy)]
struct Narrower {
    first: u8,
    times: u8,
    bits: u8,
    row: u8,
    signed: bool,
}

// Such a group.
const fn narrow_group(first: u8, times: u8, bits: u8, row: u8, signed: bool) -> Narrower
    ensures { result ≡ record { first = first; times = times; bits = bits; row = row; signed = signed } }
{
    Narrower {
        first,
        times,
        bits,
        row,
        signed,
    }
}

// Lays the elements of a group out for a register of elements that are wider.
fn lay_out<W: Width>(group: Narrower, register: u8, buf: &mut MicroBuf)
    requires layable { IsLayable (narrow group.signed group.times group.bits group.first group.row) W.BITS register }
    requires row { group.row < 64 }
    requires room { laid_length (narrow group.signed group.times group.bits group.first group.row) W.BITS ≤ buf.old.spare }
    ensures ops { buf.new.ops
        ≡ buf.old.ops ++ laid_out (narrow group.signed group.times group.bits group.first group.row) W.BITS register }
    ensures spare { buf.new.spare + laid_length (narrow group.signed group.times group.bits group.first group.row) W.BITS ≡ buf.old.spare }
    ensures cost { IsLaid (narrow group.signed group.times group.bits group.first group.row) W.BITS register }
{
    buf.push(MicroOp::Spread {
        from: group.first + register / group.times,
        to: group.row,
        narrow: group.bits,
        wide: W::BITS as u8,
        part: register % group.times,
    });
    if group.signed {
        let at = at_rows(group.row, group.row, group.row, group.row);
        emit_sext::<W>(buf, &at, group.bits);
    }
}

// The operations that lay the first operand of a list out, where it is narrower.
pub(crate) fn emit_first<W: Width>(
    recipe: Recipe,
    i: &VInstr,
    cfg: &Cfg,
    register: u8,
    buf: &mut MicroBuf,
)
    requires width { width_of recipe cfg.now ≡ W.BITS }
    requires placed { IsPlaced recipe i.now cfg.now register }
    requires room { laid_length (operands_of recipe i.now cfg.now).a W.BITS ≤ buf.old.spare }
    ensures ops { buf.new.ops ≡ buf.old.ops ++ laid_out (operands_of recipe i.now cfg.now).a W.BITS register }
    ensures spare { buf.new.spare + laid_length (operands_of recipe i.now cfg.now).a W.BITS ≡ buf.old.spare }
    ensures cost { IsLaid (operands_of recipe i.now cfg.now).a W.BITS register }
{
    match recipe.order {
        Order::Widening => {
            let group = narrow_group(i.vs2, 2, cfg.vtype.sew, LEFT_ROW, recipe.signs.a);
            lay_out::<W>(group, register, buf);
        }
        Order::Half => {
            let group = narrow_group(i.vs2, 2, cfg.vtype.sew / 2, RESULT_ROW, recipe.signs.a);
            lay_out::<W>(group, register, buf);
        }
        Order::Quarter => {
            let group = narrow_group(i.vs2, 4, cfg.vtype.sew / 4, RESULT_ROW, recipe.signs.a);
            lay_out::<W>(group, register, buf);
        }
        _ => {}
    }
}

// Those of what stands in the place of vs1, where it is half as wide as the destination.
fn emit_wide_second<W: Width>(
    recipe: Recipe,
    i: &VInstr,
    cfg: &Cfg,
    register: u8,
    buf: &mut MicroBuf,
)
    requires layable { IsLayable (narrow_in_vs1 i.now.form recipe.signs.b cfg.now.vtype.sew i.now.vs1) W.BITS register }
    requires room { laid_length (narrow_in_vs1 i.now.form recipe.signs.b cfg.now.vtype.sew i.now.vs1) W.BITS ≤ buf.old.spare }
    ensures ops { buf.new.ops ≡ buf.old.ops ++ laid_out (narrow_in_vs1 i.now.form recipe.signs.b cfg.now.vtype.sew i.now.vs1) W.BITS register }
    ensures spare { buf.new.spare + laid_length (narrow_in_vs1 i.now.form recipe.signs.b cfg.now.vtype.sew i.now.vs1) W.BITS ≡ buf.old.spare }
    ensures cost { IsLaid (narrow_in_vs1 i.now.form recipe.signs.b cfg.now.vtype.sew i.now.vs1) W.BITS register }
{
    match i.form {
        Form::V => {
            let group = narrow_group(i.vs1, 2, cfg.vtype.sew, RIGHT_ROW, recipe.signs.b);
            lay_out::<W>(group, register, buf);
        }
        _ => {}
    }
}

// The same for its second operand.
pub(crate) fn emit_second<W: Width>(
    recipe: Recipe,
    i: &VInstr,
    cfg: &Cfg,
    register: u8,
    buf: &mut MicroBuf,
)
    requires width { width_of recipe cfg.now ≡ W.BITS }
    requires placed { IsPlaced recipe i.now cfg.now register }
    requires room { laid_length (operands_of recipe i.now cfg.now).b W.BITS ≤ buf.old.spare }
    ensures ops { buf.new.ops ≡ buf.old.ops ++ laid_out (operands_of recipe i.now cfg.now).b W.BITS register }
    ensures spare { buf.new.spare + laid_length (operands_of recipe i.now cfg.now).b W.BITS ≡ buf.old.spare }
    ensures cost { IsLaid (operands_of recipe i.now cfg.now).b W.BITS register }
{
    match recipe.order {
        Order::Widening => emit_wide_second::<W>(recipe, i, cfg, register, buf),
        Order::WideSource => emit_wide_second::<W>(recipe, i, cfg, register, buf),
        _ => {}
    }
}

// The same for the second operand of a half of a register, whose first operand is twice as wide.
pub(crate) fn emit_half_second<D: Width>(i: &VInstr, cfg: &Cfg, part: u8, buf: &mut MicroBuf)
    requires layable { IsLayable (half_in_vs1 i.now.form cfg.now.vtype.sew i.now.vs1) D.BITS part }
    requires room { laid_length (half_in_vs1 i.now.form cfg.now.vtype.sew i.now.vs1) D.BITS ≤ buf.old.spare }
    ensures ops { buf.new.ops ≡ buf.old.ops ++ laid_out (half_in_vs1 i.now.form cfg.now.vtype.sew i.now.vs1) D.BITS part }
    ensures spare { buf.new.spare + laid_length (half_in_vs1 i.now.form cfg.now.vtype.sew i.now.vs1) D.BITS ≡ buf.old.spare }
    ensures cost { IsLaid (half_in_vs1 i.now.form cfg.now.vtype.sew i.now.vs1) D.BITS part }
{
    match i.form {
        Form::V => {
            let group = narrow_group(i.vs1, 2, cfg.vtype.sew, LEFT_ROW, false);
            lay_out::<D>(group, part, buf);
        }
        _ => {}
    }
}
