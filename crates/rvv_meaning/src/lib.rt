//! What a guest program means: its words, the states of the machine, one step, a run and the texts about it. The
//! definitions stand in specs/; the types here are those that both the definitions and the code name.
#![tactic(auto)]

mod accesses;
mod policies;
mod readers;

pub use accesses::{Access, Offset};
use guest_mem::Trap;
pub use policies::{fills_masked, makes_ones};
pub use readers::{el, mask_bit};
use rv32_decode::Instr;
use rvv_decode::VInstr;
pub use vtype_cfg::Policy;

/// What a word means.
#[derive(Clone, Copy, PartialEq, Eq)]
pub enum Meaning {
    Scalar(Instr),
    Vector(VInstr),
}

/// Whether a machine runs, and how it ended.
#[derive(Clone, Copy, Debug, PartialEq, Eq)]
pub enum Mode {
    Running,
    Exited(u8),
    Trapped(Trap),
}

/// What comes at pc: the machine stops there in a mode, or an instruction is to be carried out.
#[derive(Clone, Copy, PartialEq, Eq)]
pub enum Next {
    Stop(Mode),
    Perform(Meaning),
}

/// The control registers: the vector ones, the length of a vector register in bits, and the number of retired
/// instructions. `vtype` holds the bits of that register; bit 31 is vill.
#[derive(Clone, Copy, Debug, PartialEq, Eq)]
pub struct Csrs {
    pub vstart: u32,
    pub vxrm: u8,
    pub vxsat: bool,
    pub vl: u32,
    pub vtype: u32,
    pub vlen: u32,
    pub retired: u64,
}

/// Where a program goes on after a scalar instruction: at the next word, at a target, with a call of its environment, or
/// not at all, at a trap.
#[derive(Clone, Copy, PartialEq, Eq, Debug)]
pub enum Flow {
    Next,
    Jump(u32),
    Call,
    Trap(Trap),
}

/// The calls that a guest makes of its environment. Each has the number of the call of Linux for RISC-V in brackets; the
/// number stands in x17.
#[derive(Clone, Copy, Debug, PartialEq, Eq)]
pub enum Call {
    /// read(descriptor, address, count) takes bytes of the input (63).
    Read,
    /// write(descriptor, address, count) puts bytes on an output (64).
    Write,
    /// exit(code) and exit_group(code) end the run (93 and 94).
    Exit,
    /// brk(address) asks for a break (214).
    Break,
    /// close(descriptor) closes nothing (57).
    Close,
    /// llseek(descriptor, ..) finds no place to seek (62).
    Seek,
    /// A call of any other number.
    Unknown,
}
