// What stands round the lists of the registers of an instruction.
ghost use Rattle.std.specs.Prelude.{◌≡◌, ℕ, ◌+◌, ◌*◌, ◌/◌, ◌<◌, ◌≤◌, ◌++◌, cond};
ghost use Rattle.move_exec.specs.Bodies.{IsOfWidth, AllThere, body_list, body_length};
ghost use Rattle.move_exec.specs.Frames.{window_of, fill_of, register_list, register_length, registers_list};

use crate::bodies::{Body, at_rows, emit_body};
use bit_laws::Width;
use gen_logic::emit_fill;
use micro_ir::{ACTIVE_ROW, FREE_ROW, MicroBuf, MicroOp};
use vtype_cfg::Cfg;

/// The registers that an instruction writes, and which of their elements it computes.
#[derive(Clone, Copy, Debug, PartialEq, Eq)]
pub struct Frame {
    /// The first register, and how many there are.
    pub vd: u8,
    pub registers: u8,
    /// The bits of an element.
    pub width: u8,
    /// Whether the mask leaves elements out.
    pub masked: bool,
    /// Whether agnostic elements become ones, and whether those of the tail are agnostic.
    pub ones: bool,
    pub tail: bool,
    /// The first element that may be computed, and the one past the last.
    pub from: u32,
    pub len: u32,
    /// The first element of the tail.
    pub until: u32,
}

// The number of the first element of a register.
fn first_of(frame: &Frame, cfg: &Cfg, register: u8) -> u32
    requires width { 0 < frame.now.width }
    requires length { cfg.now.vlen ≤ 65536 }
    requires few { register < 8 }
    ensures { result ≡ register * (cfg.now.vlen / frame.now.width) }
{
    u32::from(register) * (cfg.vlen / u32::from(frame.width))
}

// The operation that marks the active elements of a register.
fn emit_window(frame: &Frame, first: u32, buf: &mut MicroBuf)
    requires room { 1 ≤ buf.old.spare }
    ensures ops { buf.new.ops ≡ buf.old.ops ++ window_of frame.now first }
    ensures spare { buf.new.spare + 1 ≡ buf.old.spare }
{
    buf.push(MicroOp::Window {
        row: ACTIVE_ROW,
        width: frame.width,
        first,
        from: frame.from,
        to: frame.len,
        masked: frame.masked,
    });
}

// Ones into the agnostic elements of a register, where agnostic elements become ones.
fn emit_free<W: Width>(frame: &Frame, cfg: &Cfg, first: u32, to: u8, buf: &mut MicroBuf)
    requires width { 0 < frame.now.width }
    requires to { to < 32 }
    requires room { cond frame.now.ones 3 0 ≤ buf.old.spare }
    ensures ops { buf.new.ops ≡ buf.old.ops ++ fill_of frame.now cfg.now first to }
    ensures spare { buf.new.spare + cond frame.now.ones 3 0 ≡ buf.old.spare }
{
    if frame.ones {
        buf.push(MicroOp::Free {
            row: FREE_ROW,
            width: frame.width,
            first,
            from: frame.from,
            to: frame.until,
            masked: frame.masked,
            tail: frame.tail,
            off: frame.masked && cfg.vtype.vma,
        });
        emit_fill::<W>(buf, &at_rows(to, to, to));
    }
}

// The operations on one register.
fn emit_register<W: Width>(frame: &Frame, body: Body, cfg: &Cfg, register: u8, buf: &mut MicroBuf)
    requires width { 0 < frame.now.width }
    requires wide { IsOfWidth W.BITS frame.now body }
    requires there { AllThere frame.now body register }
    requires length { cfg.now.vlen ≤ 65536 }
    requires few { register < 8 }
    requires room { register_length frame.now body ≤ buf.old.spare }
    ensures ops { buf.new.ops
        ≡ buf.old.ops ++ register_list frame.now cfg.now (body_list frame.now body cfg.now register) register }
    ensures spare { buf.new.spare + register_length frame.now body ≡ buf.old.spare }
{
    let first = first_of(frame, cfg, register);
    emit_window(frame, first, buf);
    emit_body::<W>(frame, body, first, register, buf);
    emit_free::<W>(frame, cfg, first, frame.vd + register, buf);
}

/// Appends the operations on all registers of an instruction, in rising order.
pub fn emit_registers<W: Width>(frame: &Frame, body: Body, cfg: &Cfg, buf: &mut MicroBuf)
    requires width { 0 < frame.now.width }
    requires wide { IsOfWidth W.BITS frame.now body }
    requires there { (g : ℕ) → g < frame.now.registers → AllThere frame.now body g }
    requires length { cfg.now.vlen ≤ 65536 }
    requires few { frame.now.registers ≤ 8 }
    requires room { frame.now.registers * register_length frame.now body ≤ buf.old.spare }
    ensures ops { buf.new.ops
        ≡ buf.old.ops ++ registers_list frame.now cfg.now (body_list frame.now body cfg.now) frame.now.registers }
    ensures spare { buf.new.spare + frame.now.registers * register_length frame.now body ≡ buf.old.spare }
{
    for register in 0..frame.registers {
        emit_register::<W>(frame, body, cfg, register, buf);
    }
}
