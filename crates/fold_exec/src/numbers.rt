// The programs of numbers of masks.
ghost use Rattle.std.specs.Prelude.{◌≡◌, ℕ, ◌+◌, ◌<◌, ◌≤◌, ◌++◌, [], Some, IsTrue, true};
ghost use Rattle.micro_ir.specs.Measures.{Measured, counts};
ghost use Rattle.micro_ir.specs.WorkRows.{IsOperandRow};
ghost use Rattle.rvv_decode.specs.Ranges.{IsInRange};
ghost use Rattle.vtype_cfg.specs.Legality.{is_legal};
ghost use Rattle.vtype_cfg.specs.Settings.{is_valid};
ghost use Rattle.gen_reduce.specs.Masks.{MakesNumber};
ghost use Rattle.fold_exec.specs.declared.kinds.Kind.TheVariants.{Number};
ghost use Rattle.fold_exec.specs.Kinds.{kind_for};
ghost use Rattle.fold_exec.specs.Laws.{Fine};
ghost use Rattle.fold_exec.specs.Programs.{rows_at, number_of, number_list, fold_program, fold_length};

use crate::kinds::MaskNumber;
use bit_laws::W8;
use gen_reduce::{emit_cpop, emit_first};
use mask_window::active;
use micro_ir::{MicroBuf, Place};
use rvv_decode::VInstr;
use vtype_cfg::Cfg;

// The rows of operands and destination.
pub(crate) fn at_rows(a: u8, b: u8, to: u8) -> Place
    ensures { result ≡ rows_at a b to }
{
    Place {
        a,
        b,
        addend: to,
        to,
        sub: false,
        mode: 0,
    }
}

// The list that makes a number of the active places of a register.
fn emit_number(kind: MaskNumber, row: u8, buf: &mut MicroBuf)
    requires row { IsOperandRow row }
    requires room { 2 ≤ buf.old.spare }
    ensures ops { buf.new.ops ≡ buf.old.ops ++ number_list kind row }
    ensures spare { buf.new.spare + 2 ≡ buf.old.spare }
    ensures number { MakesNumber (number_of kind row) (number_list kind row) }
    ensures cost { Measured (counts 1 0 0) 2 (number_list kind row) }
{
    let at = at_rows(row, row, row);
    match kind {
        MaskNumber::Count => emit_cpop::<W8>(buf, &at),
        MaskNumber::First => emit_first::<W8>(buf, &at),
    }
}

// The program of a number of a mask: the active places, and the list.
pub(crate) fn emit_mask(kind: MaskNumber, i: &VInstr, cfg: &Cfg, buf: &mut MicroBuf)
    requires kind { kind_for i.now.op ≡ Some (Number kind) }
    requires fields { IsInRange i.now }
    requires legal { is_legal i.now cfg.now.vtype cfg.now.vstart ≡ true }
    requires valid { IsTrue (is_valid cfg.now) }
    requires empty { buf.old.ops ≡ [] }
    requires room { buf.old.spare ≡ 262144 }
    ensures program { buf.new.ops ≡ fold_program (Number kind) i.now cfg.now }
    ensures spare { buf.new.spare + fold_length (Number kind) i.now cfg.now ≡ buf.old.spare }
    ensures fine { (x : ℕ) → Fine (Number kind) i.now cfg.now x }
{
    active(buf, cfg, 1, 0, !i.vm);
    emit_number(kind, i.vs2, buf);
}
