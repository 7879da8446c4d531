// The rows of an instruction's operands, and its scalar.
ghost use Rattle.std.specs.Prelude.{◌≡◌, ℕ, Bool, ◌⊎◌, ◌+◌, ◌*◌, ◌<◌};
ghost use Rattle.bit_laws.specs.Numbers.{low};
ghost use Rattle.bit_laws.specs.Signed.{extended};
ghost use Rattle.frame_laws.specs.Classes.Operands.{row_of};
ghost use Rattle.frame_meaning.specs.Halves.{half_scalar, half_in_vs1};
ghost use Rattle.frame_meaning.specs.Masks.{compare_operands};
ghost use Rattle.frame_meaning.specs.Shapes.{source_in_vs1, narrow_in_vs1, scalar_of};
ghost use Rattle.legal_groups.specs.Facts.{IsElementWidth};
ghost use Rattle.rvv_meaning.specs.Operations.{immediate_bits};
ghost use Rattle.vec_exec.specs.Programs.{IsPlaced, IsMaskPlaced, operands_of, width_of};

use crate::recipes::Recipe;
use frame_meaning::Order;
use micro_ir::{LEFT_ROW, Place, RESULT_ROW, RIGHT_ROW, SCALAR_ROW};
use rvv_decode::{Form, VInstr};
use vtype_cfg::Cfg;

// LMUL counts eighths of a register.
pub(crate) const EIGHTHS: u8 = 8;

// The bits of a word.
const WORD_BITS: u32 = 32;

// The sign of an immediate of 5 bits.
const IMMEDIATE_SIGN: u8 = 1 << 4;

// An immediate of 5 bits at `width` bits, extended by its sign or by zeros.
pub(crate) fn immediate(signed: bool, width: u8, bits: u8) -> u32
    requires width { (width ≡ 8) ⊎ ((width ≡ 16) ⊎ (width ≡ 32)) }
    requires bits { bits < 32 }
    ensures { result ≡ extended signed immediate_bits width bits }
{
    if !signed || bits < IMMEDIATE_SIGN {
        return u32::from(bits);
    }
    let missing = u32::from(2 * IMMEDIATE_SIGN - bits);
    (u32::MAX >> (WORD_BITS - u32::from(width))) - (missing - 1)
}

// The low bits of a scalar, as many as an element of SEW bits has, extended to twice as many by their sign or by zeros.
fn widened(signed: bool, width: u8, scalar: u32) -> u32
    requires width { (width ≡ 8) ⊎ (width ≡ 16) }
    ensures { result ≡ extended signed width (2 * width) (low width scalar) }
{
    let size = 1u32 << width;
    let number = scalar % size;
    if !signed || number < size / 2 {
        return number;
    }
    number + ((u32::MAX >> (WORD_BITS - 2 * u32::from(width))) - (size - 1))
}

// The width of the elements of the destination.
pub(crate) fn width(recipe: Recipe, cfg: &Cfg) -> u8
    requires sew { IsElementWidth cfg.now.vtype.sew }
    ensures { result ≡ width_of recipe cfg.now }
{
    match recipe.order {
        Order::Widening | Order::WideSource => 2 * cfg.vtype.sew,
        Order::Straight
        | Order::Reversed
        | Order::Second
        | Order::Exchanged
        | Order::Half
        | Order::Quarter => cfg.vtype.sew,
    }
}

// The number of the scalar's row, where the instruction takes a scalar from a register or an immediate.
pub(crate) fn scalar_number(recipe: Recipe, i: &VInstr, cfg: &Cfg, scalar: u32) -> u32
    requires sew { IsElementWidth cfg.now.vtype.sew }
    requires wide { IsElementWidth (width_of recipe cfg.now) }
    requires immediate { i.now.vs1 < 32 }
    ensures { result ≡ scalar_of recipe.order recipe.signs i.now cfg.now.vtype.sew scalar }
{
    match (i.form, recipe.order) {
        (Form::V, _) => 0,
        (Form::I, _) => immediate(recipe.signs.immediate, width(recipe, cfg), i.vs1),
        (Form::X, Order::Widening | Order::WideSource) => {
            widened(recipe.signs.b, cfg.vtype.sew, scalar)
        }
        (Form::X, _) => scalar,
    }
}

// The same for an instruction whose first operand is twice as wide.
pub(crate) fn half_scalar_number(i: &VInstr, cfg: &Cfg, scalar: u32) -> u32
    requires narrow { (cfg.now.vtype.sew ≡ 8) ⊎ (cfg.now.vtype.sew ≡ 16) }
    ensures { result ≡ half_scalar i.now cfg.now.vtype.sew scalar }
{
    match i.form {
        Form::V => 0,
        Form::X => widened(false, cfg.vtype.sew, scalar),
        Form::I => u32::from(i.vs1),
    }
}

// The row of the operand in the place of vs1 for a register of the group, which is as wide as the destination.
fn second_row(i: &VInstr, register: u8) -> u8
    requires { row_of (source_in_vs1 i.now.form i.now.vs1) register < 64 }
    ensures { result ≡ row_of (source_in_vs1 i.now.form i.now.vs1) register }
{
    match i.form {
        Form::V => i.vs1 + register,
        Form::X | Form::I => SCALAR_ROW,
    }
}

// The row of that operand where it is half as wide as the destination, and is laid out.
fn wide_row(i: &VInstr) -> u8
    ensures { (signed : Bool) (sew register : ℕ) → result ≡ row_of (narrow_in_vs1 i.now.form signed sew i.now.vs1) register }
{
    match i.form {
        Form::V => RIGHT_ROW,
        Form::X | Form::I => SCALAR_ROW,
    }
}

// The row of that operand where the first one is twice as wide as the destination.
fn half_row(i: &VInstr) -> u8
    ensures { (sew part : ℕ) → result ≡ row_of (half_in_vs1 i.now.form sew i.now.vs1) part }
{
    match i.form {
        Form::V => LEFT_ROW,
        Form::X | Form::I => SCALAR_ROW,
    }
}

// The row of a list's first operand for a register of the group.
fn first_source(recipe: Recipe, i: &VInstr, cfg: &Cfg, register: u8) -> u8
    requires { IsPlaced recipe i.now cfg.now register }
    ensures { result ≡ row_of (operands_of recipe i.now cfg.now).a register }
{
    match recipe.order {
        Order::Straight | Order::WideSource => i.vs2 + register,
        Order::Reversed => second_row(i, register),
        Order::Second | Order::Exchanged => i.vd + register,
        Order::Widening => LEFT_ROW,
        Order::Half | Order::Quarter => RESULT_ROW,
    }
}

// The row of its second operand.
fn second_source(recipe: Recipe, i: &VInstr, cfg: &Cfg, register: u8) -> u8
    requires { IsPlaced recipe i.now cfg.now register }
    ensures { result ≡ row_of (operands_of recipe i.now cfg.now).b register }
{
    match recipe.order {
        Order::Straight | Order::Second | Order::Exchanged => second_row(i, register),
        Order::Reversed => i.vs2 + register,
        Order::Widening | Order::WideSource => wide_row(i),
        Order::Half | Order::Quarter => i.vd + register,
    }
}

// The register of its third operand.
fn third_source(recipe: Recipe, i: &VInstr, cfg: &Cfg, register: u8) -> u8
    requires { IsPlaced recipe i.now cfg.now register }
    ensures { result ≡ (operands_of recipe i.now cfg.now).addend + register }
{
    match recipe.order {
        Order::Exchanged => i.vs2 + register,
        Order::Straight
        | Order::Reversed
        | Order::Second
        | Order::Widening
        | Order::WideSource
        | Order::Half
        | Order::Quarter => i.vd + register,
    }
}

// The rows of a list's operands for a register of the group, and the register that it writes.
pub(crate) fn place(recipe: Recipe, i: &VInstr, cfg: &Cfg, register: u8) -> Place
    requires { IsPlaced recipe i.now cfg.now register }
    ensures a { result.a ≡ row_of (operands_of recipe i.now cfg.now).a register }
    ensures b { result.b ≡ row_of (operands_of recipe i.now cfg.now).b register }
    ensures addend { result.addend ≡ (operands_of recipe i.now cfg.now).addend + register }
    ensures to { result.to ≡ i.now.vd + register }
    ensures mode { result.mode ≡ cfg.now.vxrm }
{
    let a = first_source(recipe, i, cfg, register);
    let b = second_source(recipe, i, cfg, register);
    let addend = third_source(recipe, i, cfg, register);
    rounding_at(cfg.vxrm, a, b, addend, i.vd + register)
}

// The rows of the operands of half `half` of a register of the destination, of a list that writes no register.
pub(crate) fn half_place(i: &VInstr, cfg: &Cfg, register: u8, half: u8) -> Place
    requires vs2 { i.now.vs2 + (2 * register + half) < 32 }
    ensures a { result.a ≡ i.now.vs2 + (2 * register + half) }
    ensures b { (sew : ℕ) → result.b ≡ row_of (half_in_vs1 i.now.form sew i.now.vs1) (2 * register + half) }
    ensures addend { result.addend ≡ i.now.vd }
    ensures to { result.to ≡ i.now.vd }
    ensures mode { result.mode ≡ cfg.now.vxrm }
{
    let b = half_row(i);
    rounding_at(cfg.vxrm, i.vs2 + (2 * register + half), b, i.vd, i.vd)
}

// The rows of a comparison's operands for a register of their groups.
pub(crate) fn mask_place(recipe: Recipe, i: &VInstr, register: u8) -> Place
    requires { IsMaskPlaced recipe i.now register }
    ensures a { result.a ≡ row_of (compare_operands i.now).a register }
    ensures b { result.b ≡ row_of (compare_operands i.now).b register }
    ensures addend { result.addend ≡ i.now.vd }
    ensures to { result.to ≡ i.now.vd }
    ensures mode { result.mode ≡ 0 }
{
    at_rows(i.vs2 + register, second_row(i, register), i.vd, i.vd)
}

// A place of these rows, for a list that does not round.
pub(crate) fn at_rows(a: u8, b: u8, addend: u8, to: u8) -> Place
    ensures a { result.a ≡ a }
    ensures b { result.b ≡ b }
    ensures addend { result.addend ≡ addend }
    ensures to { result.to ≡ to }
    ensures mode { result.mode ≡ 0 }
{
    rounding_at(0, a, b, addend, to)
}

// A place of these rows, with the rounding mode.
fn rounding_at(mode: u8, a: u8, b: u8, addend: u8, to: u8) -> Place
    ensures a { result.a ≡ a }
    ensures b { result.b ≡ b }
    ensures addend { result.addend ≡ addend }
    ensures to { result.to ≡ to }
    ensures mode { result.mode ≡ mode }
{
    Place {
        a,
        b,
        addend,
        to,
        sub: false,
        mode,
    }
}
