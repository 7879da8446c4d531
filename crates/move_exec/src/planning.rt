// The plan of an instruction of a kind.
ghost use Rattle.std.specs.Prelude.{◌≡◌, ◌+◌, ◌/◌, ◌≤◌, [], ◌++◌, Some, cond, length, IsTrue, true};
ghost use Rattle.micro_ir.specs.Replay.{AllInRange, tally};
ghost use Rattle.rvv_decode.specs.Ranges.{IsInRange};
ghost use Rattle.vtype_cfg.specs.Legality.{is_legal};
ghost use Rattle.vtype_cfg.specs.Settings.{is_valid};
ghost use Rattle.frame_meaning.specs.Realising.{RealisesInstruction};
ghost use Rattle.move_exec.specs.Bodies.{emitted_at};
ghost use Rattle.move_exec.specs.Frames.{scalar_list};
ghost use Rattle.move_exec.specs.Kinds.{kind_for, has_program, takes_scalar, last_list};
ghost use Rattle.move_exec.specs.Programs.{Emittable, scalar_program, program_length, move_program, move_cost};

use crate::bodies::{Body, at_rows};
use crate::frames::{Frame, emit_registers};
use crate::kinds::{Kind, body_of, emit_last, frame_of, takes_scalar};
use bit_laws::{W8, W16, W32, Width};
use gen_logic::emit_splat;
use micro_ir::MicroBuf;
use rvv_decode::VInstr;
use vtype_cfg::Cfg;

// The widths of elements but the narrowest.
const HALF_BITS: u8 = 16;

const WORD_BITS: u8 = 32;

// The operations that put the scalar into its row, where the program takes it.
fn emit_scalar<W: Width>(takes: bool, scalar: u32, buf: &mut MicroBuf)
    requires room { cond takes 4 0 ≤ buf.old.spare }
    ensures ops { buf.new.ops ≡ buf.old.ops ++ scalar_list takes W.BITS scalar }
    ensures spare { buf.new.spare + cond takes 4 0 ≡ buf.old.spare }
{
    if takes {
        emit_splat::<W>(buf, &at_rows(0, 0, 0), scalar);
    }
}

// The parts of a program: the scalar, the registers, and what stands after them.
fn emit_parts<W: Width>(
    kind: Kind,
    frame: &Frame,
    body: Body,
    i: &VInstr,
    cfg: &Cfg,
    scalar: u32,
    buf: &mut MicroBuf,
)
    requires emittable { Emittable kind frame.now body i.now cfg.now }
    requires wide { emitted_at frame.now.width ≡ W.BITS }
    requires length { cfg.now.vlen ≤ 65536 }
    requires room { program_length kind frame.now body ≤ buf.old.spare }
    ensures ops { buf.new.ops
        ≡ buf.old.ops ++ (scalar_program frame.now body cfg.now (takes_scalar kind) W.BITS scalar ++ last_list kind i.now cfg.now) }
    ensures spare { buf.new.spare + program_length kind frame.now body ≡ buf.old.spare }
{
    emit_scalar::<W>(takes_scalar(kind), scalar, buf);
    emit_registers::<W>(frame, body, cfg, buf);
    emit_last::<W>(kind, i, cfg, buf);
}

// The program, at the width of the frame's elements.
fn emit_program(
    kind: Kind,
    frame: &Frame,
    body: Body,
    i: &VInstr,
    cfg: &Cfg,
    scalar: u32,
    buf: &mut MicroBuf,
)
    requires emittable { Emittable kind frame.now body i.now cfg.now }
    requires length { cfg.now.vlen ≤ 65536 }
    requires room { program_length kind frame.now body ≤ buf.old.spare }
    ensures ops { buf.new.ops
        ≡ buf.old.ops ++ (scalar_program frame.now body cfg.now (takes_scalar kind) frame.now.width scalar ++ last_list kind i.now cfg.now) }
    ensures spare { buf.new.spare + program_length kind frame.now body ≡ buf.old.spare }
{
    if frame.width == HALF_BITS {
        emit_parts::<W16>(kind, frame, body, i, cfg, scalar, buf);
    } else if frame.width == WORD_BITS {
        emit_parts::<W32>(kind, frame, body, i, cfg, scalar, buf);
    } else {
        emit_parts::<W8>(kind, frame, body, i, cfg, scalar, buf);
    }
}

/// Writes the program of an instruction of a kind into an empty buffer with room for 262,144
/// operations: its scalar into a row, where it takes one; for each register in rising order its active
/// elements, the list that computes it, and what fills its agnostic elements, where these become ones;
/// and, of a slide by one place, the scalar into an element. `scalar` is the value of x[rs1]. The
/// instruction is legal under the configuration. There are no errors.
pub fn plan(kind: Kind, i: &VInstr, cfg: &Cfg, scalar: u32, buf: &mut MicroBuf)
    requires kind { kind_for i.now.op ≡ Some kind }
    requires form { has_program kind i.now.form ≡ true }
    requires fields { IsInRange i.now }
    requires legal { is_legal i.now cfg.now.vtype cfg.now.vstart ≡ true }
    requires valid { IsTrue (is_valid cfg.now) }
    requires empty { buf.old.ops ≡ [] }
    requires room { buf.old.spare ≡ 262144 }
    ensures program { buf.new.ops ≡ move_program kind i.now cfg.now scalar }
    ensures realises { RealisesInstruction i.now cfg.now scalar buf.new.ops }
    ensures cost { tally buf.new.ops ≡ move_cost kind i.now cfg.now }
    ensures range { AllInRange (cfg.now.vlen / 32) buf.new.ops }
    ensures spare { buf.new.spare + length buf.new.ops ≡ buf.old.spare }
{
    let frame = frame_of(kind, i, cfg, scalar);
    let body = body_of(kind, i, cfg, scalar);
    emit_program(kind, &frame, body, i, cfg, scalar, buf);
}
