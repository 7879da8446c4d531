// The programs of reductions.
ghost use Rattle.std.specs.Prelude.{◌≡◌, ℕ, ◌+◌, ◌<◌, ◌≤◌, ◌++◌, [], Some, IsTrue, true};
ghost use Rattle.micro_ir.specs.WorkRows.{IsOperandRow};
ghost use Rattle.row_counts.specs.Spans.{IsSpan};
ghost use Rattle.rvv_decode.specs.Ranges.{IsInRange};
ghost use Rattle.vtype_cfg.specs.Legality.{is_legal};
ghost use Rattle.vtype_cfg.specs.Settings.{is_valid};
ghost use Rattle.fold_exec.specs.declared.kinds.Kind.TheVariants.{Fold};
ghost use Rattle.fold_exec.specs.Kinds.{kind_for, is_widening, result_bits};
ghost use Rattle.fold_exec.specs.Laws.{Fine};
ghost use Rattle.fold_exec.specs.Programs.{span_of, folding_ops, folding_length, FoldsTo, SpendsFolding, rest_list, rest_length, fold_program, fold_length};

use crate::kinds::{Folding, result_bits};
use crate::numbers::at_rows;
use bit_laws::{W8, W16, W32, Width};
use gen_logic::emit_fill;
use gen_reduce::emit_reduction;
use micro_ir::{FREE_ROW, MicroBuf, MicroOp, Place};
use row_counts::{Span, first_end};
use row_orders::emit_order;
use rvv_decode::VInstr;
use vtype_cfg::{Cfg, Policy};

// LMUL counts eighths of a register.
const EIGHTHS: u8 = 8;

// The widths of elements but the widest.
const BYTE_BITS: u8 = 8;

const HALF_BITS: u8 = 16;

// The group in vs2, and which of its elements are active.
fn span_of(i: &VInstr, cfg: &Cfg) -> Span
    requires sew { 0 < cfg.now.vtype.sew }
    ensures { result ≡ span_of i.now cfg.now }
{
    Span {
        base: i.vs2,
        regs: (cfg.vtype.lmul8 / EIGHTHS).max(1),
        per: cfg.vlen / u32::from(cfg.vtype.sew),
        from: cfg.vstart,
        to: cfg.vl,
        masked: !i.vm,
    }
}

// The list of a reduction.
fn emit_folding<W: Width>(folding: Folding, buf: &mut MicroBuf, at: &Place, span: &Span)
    requires b { IsOperandRow at.now.b }
    requires to { at.now.to < 32 }
    requires span { IsSpan span.now }
    requires wide { is_widening folding ≡ true → W.BITS ≤ 16 }
    requires room { folding_length folding W.BITS span.now ≤ buf.old.spare }
    ensures ops { buf.new.ops ≡ buf.old.ops ++ folding_ops folding W.BITS at.now span.now }
    ensures spare { buf.new.spare + folding_length folding W.BITS span.now ≡ buf.old.spare }
    ensures folds { FoldsTo folding W.BITS at.now.b span.now }
    ensures cost { SpendsFolding folding W.BITS at.now span.now }
{
    match folding {
        Folding::Counted(kind) => emit_reduction::<W>(buf, at, span, kind),
        Folding::Ordered(kind) => emit_order::<W>(buf, at, span, kind),
    }
}

// Ones into the elements of a register but the first, where agnostic elements become ones. An
// element has `bits` bits.
fn emit_rest(cfg: &Cfg, bits: u8, to: u8, buf: &mut MicroBuf)
    requires bits { 0 < bits }
    requires to { to < 32 }
    requires room { rest_length cfg.now ≤ buf.old.spare }
    ensures ops { buf.new.ops ≡ buf.old.ops ++ rest_list cfg.now bits to }
    ensures spare { buf.new.spare + rest_length cfg.now ≡ buf.old.spare }
{
    if matches!(cfg.policy, Policy::Ones) {
        buf.push(MicroOp::Free {
            row: FREE_ROW,
            width: bits,
            first: 0,
            from: cfg.vstart,
            to: first_end(cfg.vl),
            masked: false,
            tail: cfg.vstart < cfg.vl && cfg.vtype.vta,
            off: false,
        });
        emit_fill::<W8>(buf, &at_rows(to, to, to));
    }
}

// The program of a reduction of elements as wide as W: the list, and the rest of the register.
fn emit_group<W: Width>(folding: Folding, i: &VInstr, cfg: &Cfg, buf: &mut MicroBuf)
    requires kind { kind_for i.now.op ≡ Some (Fold folding) }
    requires width { cfg.now.vtype.sew ≡ W.BITS }
    requires fields { IsInRange i.now }
    requires legal { is_legal i.now cfg.now.vtype cfg.now.vstart ≡ true }
    requires valid { IsTrue (is_valid cfg.now) }
    requires empty { buf.old.ops ≡ [] }
    requires room { buf.old.spare ≡ 262144 }
    ensures program { buf.new.ops ≡ fold_program (Fold folding) i.now cfg.now }
    ensures spare { buf.new.spare + fold_length (Fold folding) i.now cfg.now ≡ buf.old.spare }
    ensures fine { (x : ℕ) → Fine (Fold folding) i.now cfg.now x }
{
    W::laws();
    let span = span_of(i, cfg);
    emit_folding::<W>(folding, buf, &at_rows(i.vs2, i.vs1, i.vd), &span);
    emit_rest(cfg, result_bits(folding, cfg.vtype.sew), i.vd, buf);
}

// The same at the width of its elements.
pub(crate) fn emit_fold(folding: Folding, i: &VInstr, cfg: &Cfg, buf: &mut MicroBuf)
    requires kind { kind_for i.now.op ≡ Some (Fold folding) }
    requires fields { IsInRange i.now }
    requires legal { is_legal i.now cfg.now.vtype cfg.now.vstart ≡ true }
    requires valid { IsTrue (is_valid cfg.now) }
    requires empty { buf.old.ops ≡ [] }
    requires room { buf.old.spare ≡ 262144 }
    ensures program { buf.new.ops ≡ fold_program (Fold folding) i.now cfg.now }
    ensures spare { buf.new.spare + fold_length (Fold folding) i.now cfg.now ≡ buf.old.spare }
    ensures fine { (x : ℕ) → Fine (Fold folding) i.now cfg.now x }
{
    if cfg.vtype.sew == BYTE_BITS {
        emit_group::<W8>(folding, i, cfg, buf);
    } else if cfg.vtype.sew == HALF_BITS {
        emit_group::<W16>(folding, i, cfg, buf);
    } else {
        emit_group::<W32>(folding, i, cfg, buf);
    }
}
