// The plan of an instruction.
ghost use Rattle.std.specs.Prelude.{◌≡◌, ℕ, ◌+◌, ◌*◌, ◌/◌, ◌<◌, ◌≤◌, ◌++◌, [], Some, None, length, true, false, cond, not, IsTrue, is_some};
ghost use Rattle.micro_ir.specs.Replay.{AllInRange, tally};
ghost use Rattle.rvv_decode.specs.Ranges.{IsInRange};
ghost use Rattle.vtype_cfg.specs.Legality.{is_legal};
ghost use Rattle.vtype_cfg.specs.Settings.{is_valid};
ghost use Rattle.legal_groups.specs.Facts.{registers_for};
ghost use Rattle.frame_meaning.specs.Realising.{RealisesInstruction};
ghost use Rattle.frame_meaning.specs.Shapes.{has_scalar};
ghost use Rattle.vec_exec.specs.Recipes.{recipe_for};
ghost use Rattle.vec_exec.specs.Recipes as lists;
ghost use Rattle.fold_exec.specs.Kinds.{kind_for as fold_for};
ghost use Rattle.vec_exec.specs.Programs.{prog, number_program, number_cost, whole_program, whole_cost, program_by, is_engine, cost, cost_by, scalar_list, width_of};

use crate::halves::emit_half_registers;
use crate::operands::{EIGHTHS, at_rows, half_scalar_number, scalar_number, width};
use crate::recipes::{Recipe, list_length_law, makes_bits, makes_halves, recipe_of};
use crate::registers::{emit_mask_fill, emit_mask_registers, emit_registers};
use bit_laws::{W8, W16, W32, Width};
use gen_logic::emit_splat;
use micro_ir::MicroBuf;
use rvv_decode::{Form, OpiOp, OpmOp, VInstr, VOp};
use vtype_cfg::Cfg;

// The widths of elements but the widest.
const BYTE_BITS: u8 = 8;

const HALF_BITS: u8 = 16;

/// Whether the instruction is carried out by a program of micro-operations: all but loads, stores, configurations,
/// `vmv.x.s`, `vrgather.vv`, `vrgatherei16`, `vcompress` and `viota`.
#[tactic(auto, unfolding(crate::specs::Programs::is_engine))]
pub fn engine(i: &VInstr) -> bool
    ensures value { result ≡ is_engine i.now }
{
    match i.op {
        VOp::Opi(OpiOp::Vrgather) => i.form != Form::V,
        VOp::Opi(OpiOp::Vrgatherei16) => false,
        VOp::Opm(OpmOp::VmvXS | OpmOp::Vcompress | OpmOp::Viota) => false,
        VOp::Opi(_) | VOp::Opm(_) => true,
        VOp::Config(_) | VOp::Memory(_) => false,
    }
}

// How many registers a group of elements of `width` bits takes.
fn registers(cfg: &Cfg, width: u8) -> u8
    requires sew { 0 < cfg.now.vtype.sew }
    requires few { registers_for cfg.now.vtype width ≤ 8 }
    ensures { result ≡ registers_for cfg.now.vtype width }
{
    let eighths = u32::from(cfg.vtype.lmul8) * u32::from(width) / u32::from(cfg.vtype.sew);
    (eighths / u32::from(EIGHTHS)).max(1) as u8
}

// The operations that put a number into the scalar's row, where the instruction has a scalar.
fn emit_scalar<W: Width>(i: &VInstr, number: u32, buf: &mut MicroBuf)
    requires room { 4 ≤ buf.old.spare }
    ensures ops { buf.new.ops ≡ buf.old.ops ++ scalar_list i.now W.BITS number }
    ensures spare { buf.new.spare + cond (has_scalar i.now.form) 4 0 ≡ buf.old.spare }
{
    match i.form {
        Form::V => {}
        Form::X | Form::I => emit_splat::<W>(buf, &at_rows(0, 0, 0, 0), number),
    }
}

// The program of an instruction whose results are elements as wide as W, where its operands are at the same places.
fn emit_element_program<W: Width>(
    recipe: Recipe,
    i: &VInstr,
    cfg: &Cfg,
    scalar: u32,
    buf: &mut MicroBuf,
)
    requires bits { lists.makes_bits recipe.masked ≡ false }
    requires whole { lists.makes_halves recipe.masked ≡ false }
    requires width { width_of recipe cfg.now ≡ W.BITS }
    requires recipe { recipe_for i.now.op ≡ Some recipe }
    requires fields { IsInRange i.now }
    requires legal { is_legal i.now cfg.now.vtype cfg.now.vstart ≡ true }
    requires valid { IsTrue (is_valid cfg.now) }
    requires empty { buf.old.ops ≡ [] }
    requires room { buf.old.spare ≡ 262144 }
    ensures program { buf.new.ops ≡ program_by recipe i.now cfg.now scalar }
    ensures realises { RealisesInstruction i.now cfg.now scalar buf.new.ops }
    ensures cost { tally buf.new.ops ≡ cost_by recipe i.now cfg.now }
    ensures range { AllInRange (cfg.now.vlen / 32) buf.new.ops }
    ensures spare { buf.new.spare + length buf.new.ops ≡ buf.old.spare }
{
    list_length_law();
    let number = scalar_number(recipe, i, cfg, scalar);
    let bits = width(recipe, cfg);
    let count = registers(cfg, bits);
    emit_scalar::<W>(i, number, buf);
    emit_registers::<W>(recipe, i, cfg, count, buf);
}

// The program of an instruction whose results are the bits of a mask.
fn emit_mask_program<W: Width>(
    recipe: Recipe,
    i: &VInstr,
    cfg: &Cfg,
    scalar: u32,
    buf: &mut MicroBuf,
)
    requires bits { lists.makes_bits recipe.masked ≡ true }
    requires width { cfg.now.vtype.sew ≡ W.BITS }
    requires recipe { recipe_for i.now.op ≡ Some recipe }
    requires fields { IsInRange i.now }
    requires legal { is_legal i.now cfg.now.vtype cfg.now.vstart ≡ true }
    requires valid { IsTrue (is_valid cfg.now) }
    requires empty { buf.old.ops ≡ [] }
    requires room { buf.old.spare ≡ 262144 }
    ensures program { buf.new.ops ≡ program_by recipe i.now cfg.now scalar }
    ensures realises { RealisesInstruction i.now cfg.now scalar buf.new.ops }
    ensures cost { tally buf.new.ops ≡ cost_by recipe i.now cfg.now }
    ensures range { AllInRange (cfg.now.vlen / 32) buf.new.ops }
    ensures spare { buf.new.spare + length buf.new.ops ≡ buf.old.spare }
{
    list_length_law();
    let number = scalar_number(recipe, i, cfg, scalar);
    let count = registers(cfg, cfg.vtype.sew);
    emit_scalar::<W>(i, number, buf);
    emit_mask_registers::<W>(recipe, i, cfg, count, buf);
    emit_mask_fill::<W>(cfg, i.vd, buf);
}

// The program of an instruction whose first operand is twice as wide as its results.
fn emit_half_program<W: Width, D: Width>(
    recipe: Recipe,
    i: &VInstr,
    cfg: &Cfg,
    scalar: u32,
    buf: &mut MicroBuf,
)
    requires bits { lists.makes_bits recipe.masked ≡ false }
    requires halves { lists.makes_halves recipe.masked ≡ true }
    requires width { cfg.now.vtype.sew ≡ W.BITS }
    requires wide { 2 * cfg.now.vtype.sew ≡ D.BITS }
    requires recipe { recipe_for i.now.op ≡ Some recipe }
    requires fields { IsInRange i.now }
    requires legal { is_legal i.now cfg.now.vtype cfg.now.vstart ≡ true }
    requires valid { IsTrue (is_valid cfg.now) }
    requires empty { buf.old.ops ≡ [] }
    requires room { buf.old.spare ≡ 262144 }
    ensures program { buf.new.ops ≡ program_by recipe i.now cfg.now scalar }
    ensures realises { RealisesInstruction i.now cfg.now scalar buf.new.ops }
    ensures cost { tally buf.new.ops ≡ cost_by recipe i.now cfg.now }
    ensures range { AllInRange (cfg.now.vlen / 32) buf.new.ops }
    ensures spare { buf.new.spare + length buf.new.ops ≡ buf.old.spare }
{
    list_length_law();
    let number = half_scalar_number(i, cfg, scalar);
    let count = registers(cfg, cfg.vtype.sew);
    emit_scalar::<D>(i, number, buf);
    emit_half_registers::<W, D>(recipe, i, cfg, count, buf);
}

// Each at the width of its elements.
fn emit_elements(recipe: Recipe, i: &VInstr, cfg: &Cfg, scalar: u32, buf: &mut MicroBuf)
    requires bits { lists.makes_bits recipe.masked ≡ false }
    requires whole { lists.makes_halves recipe.masked ≡ false }
    requires recipe { recipe_for i.now.op ≡ Some recipe }
    requires fields { IsInRange i.now }
    requires legal { is_legal i.now cfg.now.vtype cfg.now.vstart ≡ true }
    requires valid { IsTrue (is_valid cfg.now) }
    requires empty { buf.old.ops ≡ [] }
    requires room { buf.old.spare ≡ 262144 }
    ensures program { buf.new.ops ≡ program_by recipe i.now cfg.now scalar }
    ensures realises { RealisesInstruction i.now cfg.now scalar buf.new.ops }
    ensures cost { tally buf.new.ops ≡ cost_by recipe i.now cfg.now }
    ensures range { AllInRange (cfg.now.vlen / 32) buf.new.ops }
    ensures spare { buf.new.spare + length buf.new.ops ≡ buf.old.spare }
{
    let bits = width(recipe, cfg);
    if bits == BYTE_BITS {
        emit_element_program::<W8>(recipe, i, cfg, scalar, buf);
    } else if bits == HALF_BITS {
        emit_element_program::<W16>(recipe, i, cfg, scalar, buf);
    } else {
        emit_element_program::<W32>(recipe, i, cfg, scalar, buf);
    }
}

fn emit_mask(recipe: Recipe, i: &VInstr, cfg: &Cfg, scalar: u32, buf: &mut MicroBuf)
    requires bits { lists.makes_bits recipe.masked ≡ true }
    requires recipe { recipe_for i.now.op ≡ Some recipe }
    requires fields { IsInRange i.now }
    requires legal { is_legal i.now cfg.now.vtype cfg.now.vstart ≡ true }
    requires valid { IsTrue (is_valid cfg.now) }
    requires empty { buf.old.ops ≡ [] }
    requires room { buf.old.spare ≡ 262144 }
    ensures program { buf.new.ops ≡ program_by recipe i.now cfg.now scalar }
    ensures realises { RealisesInstruction i.now cfg.now scalar buf.new.ops }
    ensures cost { tally buf.new.ops ≡ cost_by recipe i.now cfg.now }
    ensures range { AllInRange (cfg.now.vlen / 32) buf.new.ops }
    ensures spare { buf.new.spare + length buf.new.ops ≡ buf.old.spare }
{
    if cfg.vtype.sew == BYTE_BITS {
        emit_mask_program::<W8>(recipe, i, cfg, scalar, buf);
    } else if cfg.vtype.sew == HALF_BITS {
        emit_mask_program::<W16>(recipe, i, cfg, scalar, buf);
    } else {
        emit_mask_program::<W32>(recipe, i, cfg, scalar, buf);
    }
}

fn emit_half_elements(recipe: Recipe, i: &VInstr, cfg: &Cfg, scalar: u32, buf: &mut MicroBuf)
    requires bits { lists.makes_bits recipe.masked ≡ false }
    requires halves { lists.makes_halves recipe.masked ≡ true }
    requires recipe { recipe_for i.now.op ≡ Some recipe }
    requires fields { IsInRange i.now }
    requires legal { is_legal i.now cfg.now.vtype cfg.now.vstart ≡ true }
    requires valid { IsTrue (is_valid cfg.now) }
    requires empty { buf.old.ops ≡ [] }
    requires room { buf.old.spare ≡ 262144 }
    ensures program { buf.new.ops ≡ program_by recipe i.now cfg.now scalar }
    ensures realises { RealisesInstruction i.now cfg.now scalar buf.new.ops }
    ensures cost { tally buf.new.ops ≡ cost_by recipe i.now cfg.now }
    ensures range { AllInRange (cfg.now.vlen / 32) buf.new.ops }
    ensures spare { buf.new.spare + length buf.new.ops ≡ buf.old.spare }
{
    if cfg.vtype.sew == BYTE_BITS {
        emit_half_program::<W8, W16>(recipe, i, cfg, scalar, buf);
    } else {
        emit_half_program::<W16, W32>(recipe, i, cfg, scalar, buf);
    }
}

// The program of an instruction with a recipe.
fn emit_program(recipe: Recipe, i: &VInstr, cfg: &Cfg, scalar: u32, buf: &mut MicroBuf)
    requires recipe { recipe_for i.now.op ≡ Some recipe }
    requires fields { IsInRange i.now }
    requires legal { is_legal i.now cfg.now.vtype cfg.now.vstart ≡ true }
    requires valid { IsTrue (is_valid cfg.now) }
    requires empty { buf.old.ops ≡ [] }
    requires room { buf.old.spare ≡ 262144 }
    ensures program { buf.new.ops ≡ program_by recipe i.now cfg.now scalar }
    ensures realises { RealisesInstruction i.now cfg.now scalar buf.new.ops }
    ensures cost { tally buf.new.ops ≡ cost_by recipe i.now cfg.now }
    ensures range { AllInRange (cfg.now.vlen / 32) buf.new.ops }
    ensures spare { buf.new.spare + length buf.new.ops ≡ buf.old.spare }
{
    if makes_bits(recipe.masked) {
        emit_mask(recipe, i, cfg, scalar, buf);
    } else if makes_halves(recipe.masked) {
        emit_half_elements(recipe, i, cfg, scalar, buf);
    } else {
        emit_elements(recipe, i, cfg, scalar, buf);
    }
}

// The program of an instruction that makes one number of a whole group or a whole mask.
fn emit_fold(i: &VInstr, cfg: &Cfg, buf: &mut MicroBuf)
    requires kind { is_some (fold_for i.now.op) ≡ true }
    requires fields { IsInRange i.now }
    requires legal { is_legal i.now cfg.now.vtype cfg.now.vstart ≡ true }
    requires valid { IsTrue (is_valid cfg.now) }
    requires empty { buf.old.ops ≡ [] }
    requires room { buf.old.spare ≡ 262144 }
    ensures program { buf.new.ops ≡ number_program i.now cfg.now }
    ensures realises { (x : ℕ) → RealisesInstruction i.now cfg.now x buf.new.ops }
    ensures cost { tally buf.new.ops ≡ number_cost i.now cfg.now }
    ensures range { AllInRange (cfg.now.vlen / 32) buf.new.ops }
    ensures spare { buf.new.spare + length buf.new.ops ≡ buf.old.spare }
{
    match fold_exec::kind_of(i.op) {
        Some(kind) => fold_exec::plan(kind, i, cfg, buf),
        None => unreachable!(),
    }
}

// The program of an instruction that reads whole groups or masks.
fn emit_whole(i: &VInstr, cfg: &Cfg, scalar: u32, buf: &mut MicroBuf)
    requires engine { is_engine i.now ≡ true }
    requires none { recipe_for i.now.op ≡ None }
    requires fields { IsInRange i.now }
    requires legal { is_legal i.now cfg.now.vtype cfg.now.vstart ≡ true }
    requires valid { IsTrue (is_valid cfg.now) }
    requires empty { buf.old.ops ≡ [] }
    requires room { buf.old.spare ≡ 262144 }
    ensures program { buf.new.ops ≡ whole_program i.now cfg.now scalar }
    ensures realises { RealisesInstruction i.now cfg.now scalar buf.new.ops }
    ensures cost { tally buf.new.ops ≡ whole_cost i.now cfg.now }
    ensures range { AllInRange (cfg.now.vlen / 32) buf.new.ops }
    ensures spare { buf.new.spare + length buf.new.ops ≡ buf.old.spare }
{
    match move_exec::kind_of(i.op) {
        Some(kind) => move_exec::plan(kind, i, cfg, scalar, buf),
        None => emit_fold(i, cfg, buf),
    }
}

// The program of an instruction, by what its operation is.
fn emit_by_operation(i: &VInstr, cfg: &Cfg, scalar: u32, buf: &mut MicroBuf)
    requires engine { is_engine i.now ≡ true }
    requires fields { IsInRange i.now }
    requires legal { is_legal i.now cfg.now.vtype cfg.now.vstart ≡ true }
    requires valid { IsTrue (is_valid cfg.now) }
    requires empty { buf.old.ops ≡ [] }
    requires room { buf.old.spare ≡ 262144 }
    ensures program { buf.new.ops ≡ prog i.now cfg.now scalar }
    ensures realises { RealisesInstruction i.now cfg.now scalar buf.new.ops }
    ensures cost { tally buf.new.ops ≡ cost i.now cfg.now }
    ensures range { AllInRange (cfg.now.vlen / 32) buf.new.ops }
    ensures spare { buf.new.spare + length buf.new.ops ≡ buf.old.spare }
{
    match recipe_of(i.op) {
        Some(recipe) => emit_program(recipe, i, cfg, scalar, buf),
        None => emit_whole(i, cfg, scalar, buf),
    }
}

/// Writes the program of an instruction into an empty buffer with room for 262,144 operations: its scalar into a row,
/// where it has one; for each register of its groups, in rising order, its active elements, their mask bits, where the
/// mask is an operand, and the list of its kind, with what lays its operands out where these are narrower; and what fills the agnostic elements, where these become ones. `scalar` is
/// the value of x[rs1], where the instruction takes it. The instruction is legal under the configuration, and has a
/// program.
pub fn plan(i: &VInstr, cfg: &Cfg, scalar: u32, buf: &mut MicroBuf)
    requires engine { is_engine i.now ≡ true }
    requires fields { IsInRange i.now }
    requires legal { is_legal i.now cfg.now.vtype cfg.now.vstart ≡ true }
    requires valid { IsTrue (is_valid cfg.now) }
    requires empty { buf.old.ops ≡ [] }
    requires room { buf.old.spare ≡ 262144 }
    ensures program { buf.new.ops ≡ prog i.now cfg.now scalar }
    ensures realises { RealisesInstruction i.now cfg.now scalar buf.new.ops }
    ensures cost { tally buf.new.ops ≡ cost i.now cfg.now }
    ensures range { AllInRange (cfg.now.vlen / 32) buf.new.ops }
    ensures searches { (tally buf.new.ops).searches ≤ 262144 }
    ensures updates { (tally buf.new.ops).updates ≤ 262144 }
    ensures passes { (tally buf.new.ops).passes ≤ 8126464 }
    ensures spare { buf.new.spare + length buf.new.ops ≡ buf.old.spare }
{
    emit_by_operation(i, cfg, scalar, buf);
}
