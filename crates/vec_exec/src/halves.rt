// The operations on the registers of a destination whose elements are half as wide as those of the first operand.
ghost use Rattle.std.specs.Prelude.{◌≡◌, ℕ, ◌+◌, ◌*◌, ◌/◌, ◌<◌, ◌≤◌, ◌++◌, ◌∷◌, [], true};
ghost use Rattle.cam_chain.specs.ChainValue.{no_counts};
ghost use Rattle.frame_laws.specs.Classes.Halved.{half_list, halves_list};
ghost use Rattle.frame_laws.specs.Costs.{counts_times};
ghost use Rattle.frame_meaning.specs.Halves.{half_count};
ghost use Rattle.micro_ir.specs.Measures.{Measured};
ghost use Rattle.micro_ir.specs.WorkRows.{IsOperandRow};
ghost use Rattle.micro_ir.specs.declared.op.MicroOp.TheVariants.{Narrow};
ghost use Rattle.steer_net.specs.Moves.{is_wide};
ghost use Rattle.vec_exec.specs.declared.recipes.Listed.TheVariants.{Clips};
ghost use Rattle.vec_exec.specs.Recipes as lists;
ghost use Rattle.vec_exec.specs.Recipes.{makes_halves, list_at, counts_of, length_of};
ghost use Rattle.vec_exec.specs.Programs.{IsHalfPlaced, IsHalfMade, LeavesHalf, LeavesPart, FlagsHalf, FlagsPart, list_for, halves_of, wide_lists, one_half_length, IsHalfMeasured, AreHalvesMeasured, flags_list, flags_length, test_list, test_length, test_counts, half_register_list, half_register_length, half_registers_list};

use crate::laying::emit_half_second;
use crate::operands::{EIGHTHS, at_rows, half_place};
use crate::recipes::{Listed, Recipe, moved_in, shift_of, tells_clips};
use crate::registers::{emit_free, emit_windows, first_of, use_of};
use bit_laws::Width;
use frame_laws::HALVES_ROW;
use gen_fixed::{CLIPPED_ROW, Clipping, OVERFLOW_ROW, emit_clipping, emit_sat};
use gen_shift::{emit_raw, emit_rounding, raw_row, rounding_row};
use micro_ir::{MicroBuf, MicroOp, Place, TRUTH_ROW, emit_commit};
use rvv_decode::VInstr;
use vtype_cfg::Cfg;

// A shift that rounds, and what clips its results to `width` bits, half of those of the numbers.
fn emit_clips<D: Width>(kind: Clipping, width: u8, at: &Place, buf: &mut MicroBuf)
    requires wide { 2 * width ≡ D.BITS }
    requires a { IsOperandRow at.now.a }
    requires b { IsOperandRow at.now.b }
    requires mode { at.now.mode ≤ 3 }
    requires room { length_of (Clips kind) width at.now.mode ≤ buf.old.spare }
    ensures ops { buf.new.ops ≡ buf.old.ops ++ list_at (Clips kind) width at.now }
    ensures spare { buf.new.spare + length_of (Clips kind) width at.now.mode ≡ buf.old.spare }
    ensures leaves { LeavesHalf (Clips kind) width at.now.mode at.now.a at.now.b (list_at (Clips kind) width at.now) }
    ensures flags { FlagsHalf (Clips kind) width at.now.mode at.now.a at.now.b (list_at (Clips kind) width at.now) }
    ensures cost { Measured (counts_of (Clips kind) width at.now.mode) (length_of (Clips kind) width at.now.mode)
        (list_at (Clips kind) width at.now) }
{
    emit_rounding::<D>(buf, at, shift_of(moved_in(kind)));
    emit_clipping::<D>(buf, width, rounding_row::<D>(at.mode), kind);
}

// A list that computes at twice the width of elements of `width` bits.
fn emit_wide<D: Width>(list: Listed, width: u8, at: &Place, buf: &mut MicroBuf)
    requires wide { 2 * width ≡ D.BITS }
    requires halves { makes_halves list ≡ true }
    requires a { IsOperandRow at.now.a }
    requires b { IsOperandRow at.now.b }
    requires mode { at.now.mode ≤ 3 }
    requires room { length_of list width at.now.mode ≤ buf.old.spare }
    ensures ops { buf.new.ops ≡ buf.old.ops ++ list_at list width at.now }
    ensures spare { buf.new.spare + length_of list width at.now.mode ≡ buf.old.spare }
    ensures leaves { LeavesHalf list width at.now.mode at.now.a at.now.b (list_at list width at.now) }
    ensures flags { FlagsHalf list width at.now.mode at.now.a at.now.b (list_at list width at.now) }
    ensures cost { Measured (counts_of list width at.now.mode) (length_of list width at.now.mode)
        (list_at list width at.now) }
{
    match list {
        Listed::Halves(kind) => emit_raw::<D>(buf, at, kind),
        Listed::Clips(kind) => emit_clips::<D>(kind, width, at, buf),
        _ => unreachable!(),
    }
}

// The row where such a list leaves what it computes.
fn value_row<D: Width>(list: Listed) -> u8
    ensures { result ≡ lists.value_row list D.LOG }
{
    match list {
        Listed::Clips(_) => CLIPPED_ROW,
        _ => raw_row::<D>(),
    }
}

// The low half of each element of a row, into a half of another one.
fn emit_low<D: Width>(from: u8, to: u8, half: u8, buf: &mut MicroBuf)
    requires wide { is_wide D.BITS ≡ true }
    requires from { from < 64 }
    requires to { to < 64 }
    requires half { half ≤ 1 }
    requires room { 1 ≤ buf.old.spare }
    ensures ops { buf.new.ops ≡ buf.old.ops ++ Narrow from to D.BITS half ∷ [] }
    ensures spare { buf.new.spare + 1 ≡ buf.old.spare }
    ensures cost { Measured no_counts 1 (Narrow from to D.BITS half ∷ []) }
{
    buf.push(MicroOp::Narrow {
        from,
        to,
        wide: D::BITS as u8,
        part: half,
    });
}

// The same of what tells which results are clipped, where the list does.
fn emit_low_flags<D: Width>(list: Listed, half: u8, buf: &mut MicroBuf)
    requires wide { is_wide D.BITS ≡ true }
    requires half { half ≤ 1 }
    requires room { flags_length list ≤ buf.old.spare }
    ensures ops { buf.new.ops ≡ buf.old.ops ++ flags_list list D.BITS half }
    ensures spare { buf.new.spare + flags_length list ≡ buf.old.spare }
    ensures cost { Measured no_counts (flags_length list) (flags_list list D.BITS half) }
{
    if tells_clips(list) {
        emit_low::<D>(OVERFLOW_ROW, TRUTH_ROW, half, buf);
    }
}

// What sets the clip flag where a result of a register is clipped, where the list tells that.
fn emit_flag_test<W: Width>(list: Listed, buf: &mut MicroBuf)
    requires room { test_length list ≤ buf.old.spare }
    ensures ops { buf.new.ops ≡ buf.old.ops ++ test_list list W.BITS }
    ensures spare { buf.new.spare + test_length list ≡ buf.old.spare }
    ensures cost { Measured (test_counts list) (test_length list) (test_list list W.BITS) }
{
    if tells_clips(list) {
        let at = at_rows(TRUTH_ROW, TRUTH_ROW, TRUTH_ROW, TRUTH_ROW);
        emit_sat::<W>(buf, &at);
    }
}

// The operations on one half of a register: its elements at twice their width, and their low halves.
fn emit_half<D: Width>(
    recipe: Recipe,
    i: &VInstr,
    cfg: &Cfg,
    register: u8,
    half: u8,
    buf: &mut MicroBuf,
)
    requires width { 2 * cfg.now.vtype.sew ≡ D.BITS }
    requires halves { makes_halves (list_for recipe i.now) ≡ true }
    requires few { register < 8 }
    requires half { half < half_count cfg.now.vtype }
    requires placed { IsHalfPlaced recipe i.now cfg.now register }
    requires room { one_half_length recipe i.now cfg.now ≤ buf.old.spare }
    ensures ops { buf.new.ops
        ≡ buf.old.ops ++ half_list cfg.now.vtype.sew (halves_of recipe i.now cfg.now) (wide_lists recipe i.now cfg.now) register half }
    ensures spare { buf.new.spare + one_half_length recipe i.now cfg.now ≡ buf.old.spare }
    ensures leaves { LeavesPart recipe i.now cfg.now register half }
    ensures flags { FlagsPart recipe i.now cfg.now register half }
    ensures cost { IsHalfMeasured recipe i.now cfg.now register half }
{
    let at = half_place(i, cfg, register, half);
    emit_half_second::<D>(i, cfg, 2 * register + half, buf);
    let list = use_of(recipe, i).list;
    emit_wide::<D>(list, cfg.vtype.sew, &at, buf);
    emit_low::<D>(value_row::<D>(list), HALVES_ROW, half, buf);
    emit_low_flags::<D>(list, half, buf);
}

// The operations on the halves of a register that hold elements.
fn emit_halves<D: Width>(
    recipe: Recipe,
    i: &VInstr,
    cfg: &Cfg,
    register: u8,
    count: u8,
    buf: &mut MicroBuf,
)
    requires width { 2 * cfg.now.vtype.sew ≡ D.BITS }
    requires halves { makes_halves (list_for recipe i.now) ≡ true }
    requires few { register < 8 }
    requires count { count ≡ half_count cfg.now.vtype }
    requires placed { IsHalfPlaced recipe i.now cfg.now register }
    requires room { count * one_half_length recipe i.now cfg.now ≤ buf.old.spare }
    ensures ops { buf.new.ops
        ≡ buf.old.ops ++ halves_list cfg.now.vtype.sew (halves_of recipe i.now cfg.now) (wide_lists recipe i.now cfg.now) register count }
    ensures spare { buf.new.spare + count * one_half_length recipe i.now cfg.now ≡ buf.old.spare }
    ensures leaves { (h : ℕ) → h < count → LeavesPart recipe i.now cfg.now register h }
    ensures flags { (h : ℕ) → h < count → FlagsPart recipe i.now cfg.now register h }
    ensures cost { AreHalvesMeasured recipe i.now cfg.now register count }
{
    for half in 0..count {
        emit_half::<D>(recipe, i, cfg, register, half, buf);
    }
}

// The operations on one register of the destination: on its halves first, which are then committed, and before that the test
// of what was clipped.
fn emit_half_register<W: Width, D: Width>(
    recipe: Recipe,
    i: &VInstr,
    cfg: &Cfg,
    register: u8,
    halves: u8,
    buf: &mut MicroBuf,
)
    requires width { cfg.now.vtype.sew ≡ W.BITS }
    requires wide { 2 * cfg.now.vtype.sew ≡ D.BITS }
    requires list { makes_halves (list_for recipe i.now) ≡ true }
    requires halves { halves ≡ half_count cfg.now.vtype }
    requires placed { IsHalfPlaced recipe i.now cfg.now register }
    requires length { cfg.now.vlen ≤ 65536 }
    requires few { register < 8 }
    requires room { half_register_length recipe i.now cfg.now ≤ buf.old.spare }
    ensures ops { buf.new.ops ≡ buf.old.ops ++ half_register_list recipe i.now cfg.now register }
    ensures spare { buf.new.spare + half_register_length recipe i.now cfg.now ≡ buf.old.spare }
    ensures made { IsHalfMade recipe i.now cfg.now register }
{
    let first = first_of::<W>(cfg, register);
    let mask = use_of(recipe, i);
    let to = i.vd + register;
    emit_windows::<W>(cfg, mask, first, buf);
    emit_halves::<D>(recipe, i, cfg, register, halves, buf);
    emit_flag_test::<W>(mask.list, buf);
    emit_commit(buf, HALVES_ROW, to);
    emit_free::<W>(cfg, first, mask.masked, to, buf);
}

// How many halves of a register hold elements.
fn filled_halves(cfg: &Cfg) -> u8
    ensures { result ≡ half_count cfg.now.vtype }
{
    if cfg.vtype.lmul8 < EIGHTHS { 1 } else { 2 }
}

// The operations on all registers of the destination, in rising order.
pub(crate) fn emit_half_registers<W: Width, D: Width>(
    recipe: Recipe,
    i: &VInstr,
    cfg: &Cfg,
    count: u8,
    buf: &mut MicroBuf,
)
    requires width { cfg.now.vtype.sew ≡ W.BITS }
    requires wide { 2 * cfg.now.vtype.sew ≡ D.BITS }
    requires list { makes_halves (list_for recipe i.now) ≡ true }
    requires placed { (g : ℕ) → g < count → IsHalfPlaced recipe i.now cfg.now g }
    requires length { cfg.now.vlen ≤ 65536 }
    requires few { count ≤ 8 }
    requires room { count * half_register_length recipe i.now cfg.now ≤ buf.old.spare }
    ensures ops { buf.new.ops ≡ buf.old.ops ++ half_registers_list recipe i.now cfg.now count }
    ensures spare { buf.new.spare + count * half_register_length recipe i.now cfg.now ≡ buf.old.spare }
    ensures made { (g : ℕ) → g < count → IsHalfMade recipe i.now cfg.now g }
{
    let halves = filled_halves(cfg);
    for register in 0..count {
        emit_half_register::<W, D>(recipe, i, cfg, register, halves, buf);
    }
}
