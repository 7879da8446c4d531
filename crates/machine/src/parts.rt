// The machine: what it holds, and how that is read.
ghost use Rattle.std.specs.Prelude.{◌≡◌, ◌*◌, ◌/◌, ◌<◌, ◌≤◌, ◌^◌, [], true, false, length, IfOk, IsTrue, slice_index, slice_index_or};
ghost use Rattle.bit_rows.specs.Slices.{blank};
ghost use Rattle.cam_chain.specs.ChainValue.{slices_of, no_counts};
ghost use Rattle.vtype_cfg.specs.Settings.{is_legal_vlen};
ghost use Rattle.rvv_meaning.specs.Images.{start_core};
ghost use Rattle.machine.specs.Answers.{step_for, halt_of};
ghost use Rattle.machine.specs.Moments.{cleared_control};
ghost use Rattle.machine.specs.Opening.{memory_of};

use crate::answers::Step;
use cam_chain::{Chain, Counts};
use elf_load::Loaded;
use guest_mem::Mem;
use micro_ir::{Control, MicroBuf};
use rv32_core::Regs;
use rvv_meaning::{Csrs, Mode, Policy};
use std::alloc::{AllocError as NoMemory, Global};
use std::marker::Model;

// The stack pointer and its place at the start.
const STACK_POINTER: u8 = 2;

const STACK_TOP: u32 = 0x7fff_ffc0;

// The bits of a register that each column of the slices holds.
const COLUMN_BITS: u32 = 32;

// The most micro-operations of one instruction.
const PROGRAM_LIMIT: u32 = 262_144;

// The control numbers that a program starts from.
pub(crate) const CLEARED: Control = Control {
    num: 0,
    clip: false,
};

// The bits of vtype where no setting is in force.
const VILL: u32 = 0x8000_0000;

// The bytes of a word.
pub(crate) const WORD_BYTES: u32 = 4;

/// A machine with its guest's memory, its slices and the program of its last step. After `new` only `map` takes memory.
#[derive(Drop)]
pub struct Machine {
    pub(crate) regs: Regs,
    pub(crate) pc: u32,
    pub(crate) csrs: Csrs,
    pub(crate) mem: Mem,
    pub(crate) chain: Chain,
    pub(crate) buf: MicroBuf,
    pub(crate) mode: Mode,
    pub(crate) policy: Policy,
    pub(crate) control: Control,
    pub(crate) live: bool,
}

impl Model for Machine {
    ghost use Rattle.std.specs.Prelude.{◌≡◌, ◌≤◌, ◌<◌, ◌+◌, ◌*◌, ◌^◌, length};
    ghost use Rattle.cam_chain.specs.ChainValue.{slices_of};
    ghost use Rattle.cam_chain.specs.Views.{registers_of};
    ghost use Rattle.std.specs.Coded.{codes};
    ghost use Rattle.guest_mem.specs.Pages.{memory_code};
    ghost use Rattle.machine.specs.Moments.{Held};

    ghost Value = { Held };

    ghost coded = { Prim.hlevel (codes, memory_code) };

    ghost view = { λ m. record {
      core = record { regs = m.regs; pc = m.pc; csrs = m.csrs; mem = m.mem; vectors = registers_of (slices_of m.chain); mode = m.mode; policy = m.policy };
      chain = m.chain;
      last = m.buf.ops;
      control = m.control;
      live = m.live;
    } };

    ghost use Rattle.std.specs.Prelude.{IsTrue};
    ghost use Rattle.vtype_cfg.specs.Settings.{is_legal_vlen, vtype_of, vlmax};

    ghost invariant = { λ m. record {
      legal : IsTrue (is_legal_vlen m.csrs.vlen);
      rounding : m.csrs.vxrm ≤ 3;
      most : m.csrs.vl ≤ vlmax (vtype_of m.csrs.vtype) m.csrs.vlen;
      starts : m.csrs.vstart < m.csrs.vlen;
      vlen : m.csrs.vlen ≡ 32 * m.chain.columns;
      room : length m.buf.ops + m.buf.spare ≡ 262144;
      retired : m.csrs.retired ≤ 2 ^ 63;
      searches : m.chain.counts.searches ≤ 2 ^ 23 * m.csrs.retired;
      updates : m.chain.counts.updates ≤ 2 ^ 23 * m.csrs.retired;
      passes : m.chain.counts.passes ≤ 2 ^ 23 * m.csrs.retired;
    } };
}

impl Machine {
    /// A machine in the opening state of the image: its registers are zero but x2, no setting of the vector unit is in
    /// force, and all slices, tags and counts are zero. A vector register has `vlen` bits, a power of two from 32 to
    /// 65,536, and `policy` says what becomes of agnostic elements.
    pub fn new(
        alloc: Global,
        loaded: Loaded,
        vlen: u32,
        policy: Policy,
    ) -> Result<Machine, NoMemory>
        requires vlen { IsTrue (is_legal_vlen vlen) }
        ensures core { IfOk result (λ machine. machine.core ≡ start_core vlen policy loaded.entry_pc (memory_of loaded.regions loaded.heap loaded.heap_end)) }
        ensures slices { IfOk result (λ machine. slices_of machine.chain ≡ blank (vlen / 32)) }
        ensures counts { IfOk result (λ machine. machine.chain.counts ≡ no_counts) }
        ensures last { IfOk result (λ machine. machine.last ≡ []) }
        ensures control { IfOk result (λ machine. machine.control ≡ cleared_control) }
        ensures live { IfOk result (λ machine. machine.live ≡ true) }
        ensures running { IfOk result (λ machine. machine.core.mode ≡ Mode.Running) }
        ensures fresh { IfOk result (λ machine. machine.core.csrs.retired ≡ 0) }
        ensures length { IfOk result (λ machine. machine.core.csrs.vlen ≡ vlen) }
    {
        let mem = Mem::new(
            alloc,
            loaded.regions.as_slice(),
            loaded.heap,
            loaded.heap_end,
        )?;
        let chain = Chain::new(alloc, vlen / COLUMN_BITS)?;
        let buf = MicroBuf::new(alloc, PROGRAM_LIMIT)?;
        let mut regs = Regs::new();
        regs.set(STACK_POINTER, STACK_TOP);
        let csrs = Csrs {
            vstart: 0,
            vxrm: 0,
            vxsat: false,
            vl: 0,
            vtype: VILL,
            vlen,
            retired: 0,
        };
        Ok(Machine {
            regs,
            pc: loaded.entry_pc,
            csrs,
            mem,
            chain,
            buf,
            mode: Mode::Running,
            policy,
            control: CLEARED,
            live: true,
        })
    }

    /// Whether no device failed in a step.
    pub fn live(&self) -> bool
        ensures { result ≡ self.now.live }
    {
        self.live
    }

    /// The number of retired instructions.
    pub fn retired(&self) -> u64
        ensures { result ≡ self.now.core.csrs.retired }
    {
        self.csrs.retired
    }

    /// The place of the next instruction.
    pub fn pc(&self) -> u32
        ensures { result ≡ self.now.core.pc }
    {
        self.pc
    }

    /// The registers x0 to x31.
    pub fn regs(&self) -> &Regs
        ensures { result.now ≡ self.now.core.regs }
    {
        &self.regs
    }

    /// The control registers.
    pub fn csrs(&self) -> &Csrs
        ensures { result.now ≡ self.now.core.csrs }
    {
        &self.csrs
    }

    /// The guest's memory.
    pub fn mem(&self) -> &Mem
        ensures { result.now ≡ self.now.core.mem }
    {
        &self.mem
    }

    /// How the machine ended, or `None` where it still runs.
    pub fn halted(&self) -> Option<Step>
        ensures { result ≡ halt_of self.now.core.mode }
    {
        match self.mode {
            Mode::Running => None,
            _ => Some(self.answer()),
        }
    }

    /// The searches, updates and passes so far. Each is at most 2^23 times the retired count.
    pub fn counts(&self) -> Counts
        ensures value { result ≡ self.now.chain.counts }
        ensures searches { result.searches ≤ 2 ^ 23 * self.now.core.csrs.retired }
        ensures updates { result.updates ≤ 2 ^ 23 * self.now.core.csrs.retired }
        ensures passes { result.passes ≤ 2 ^ 23 * self.now.core.csrs.retired }
    {
        self.chain.counts()
    }

    /// The chain of slices. Rows 0 to 31 are the vector registers.
    pub fn chain(&self) -> &Chain
        ensures { result.now ≡ self.now.chain }
    {
        &self.chain
    }

    /// The program of the last step, empty for a step that planned none.
    pub fn last(&self) -> &MicroBuf
        ensures { result.now.ops ≡ self.now.last }
    {
        &self.buf
    }

    /// The control numbers as the last program left them.
    pub fn control(&self) -> Control
        ensures { result ≡ self.now.control }
    {
        self.control
    }

    /// Byte j of vector register r, with r below 32 and j below an eighth of the register's length in bits.
    pub fn vreg_byte(&self, r: u8, j: u32) -> u8
        requires register { r < 32 }
        requires place { j < self.now.core.csrs.vlen / 8 }
        ensures { result ≡ slice_index (slice_index_or self.now.core.vectors r []) j }
    {
        let word = self.chain.read_word(r, j / 4);
        (word >> (8 * (j % 4)) & 0xff) as u8
    }

    // The answer for the mode.
    pub(crate) fn answer(&self) -> Step
        ensures { result ≡ step_for self.now.core.mode }
    {
        match self.mode {
            Mode::Running => Step::Ran,
            Mode::Exited(code) => Step::Exited(code),
            Mode::Trapped(trap) => Step::Trapped(trap),
        }
    }
}
