// The plan of an instruction of a kind.
ghost use Rattle.std.specs.Prelude.{◌≡◌, ℕ, ◌+◌, ◌/◌, ◌<◌, ◌≤◌, [], Some, length, IsTrue, true};
ghost use Rattle.micro_ir.specs.Replay.{AllInRange, tally};
ghost use Rattle.rvv_decode.specs.Ranges.{IsInRange};
ghost use Rattle.vtype_cfg.specs.Legality.{is_legal};
ghost use Rattle.vtype_cfg.specs.Settings.{is_valid};
ghost use Rattle.frame_meaning.specs.Realising.{RealisesInstruction};
ghost use Rattle.fold_exec.specs.Kinds.{kind_for};
ghost use Rattle.fold_exec.specs.Laws.{Fine};
ghost use Rattle.fold_exec.specs.Programs.{fold_program, fold_cost, fold_length};

use crate::kinds::Kind;
use crate::numbers::emit_mask;
use crate::reductions::emit_fold;
use micro_ir::MicroBuf;
use rvv_decode::VInstr;
use vtype_cfg::Cfg;

// The program of an instruction of a kind.
fn emit_kind(kind: Kind, i: &VInstr, cfg: &Cfg, buf: &mut MicroBuf)
    requires kind { kind_for i.now.op ≡ Some kind }
    requires fields { IsInRange i.now }
    requires legal { is_legal i.now cfg.now.vtype cfg.now.vstart ≡ true }
    requires valid { IsTrue (is_valid cfg.now) }
    requires empty { buf.old.ops ≡ [] }
    requires room { buf.old.spare ≡ 262144 }
    ensures program { buf.new.ops ≡ fold_program kind i.now cfg.now }
    ensures spare { buf.new.spare + fold_length kind i.now cfg.now ≡ buf.old.spare }
    ensures fine { (x : ℕ) → Fine kind i.now cfg.now x }
{
    match kind {
        Kind::Number(kind) => emit_mask(kind, i, cfg, buf),
        Kind::Fold(folding) => emit_fold(folding, i, cfg, buf),
    }
}

/// Writes the program of an instruction of a kind into an empty buffer with room for 262,144
/// operations: the active places of a mask and what makes the number of them; or the list of a
/// reduction and what fills the rest of its register, where agnostic elements become ones. The
/// instruction is legal under the configuration. There are no errors.
pub fn plan(kind: Kind, i: &VInstr, cfg: &Cfg, buf: &mut MicroBuf)
    requires kind { kind_for i.now.op ≡ Some kind }
    requires fields { IsInRange i.now }
    requires legal { is_legal i.now cfg.now.vtype cfg.now.vstart ≡ true }
    requires valid { IsTrue (is_valid cfg.now) }
    requires empty { buf.old.ops ≡ [] }
    requires room { buf.old.spare ≡ 262144 }
    ensures program { buf.new.ops ≡ fold_program kind i.now cfg.now }
    ensures realises { (x : ℕ) → RealisesInstruction i.now cfg.now x buf.new.ops }
    ensures cost { tally buf.new.ops ≡ fold_cost kind i.now cfg.now }
    ensures range { AllInRange (cfg.now.vlen / 32) buf.new.ops }
    ensures spare { buf.new.spare + length buf.new.ops ≡ buf.old.spare }
{
    emit_kind(kind, i, cfg, buf);
}
