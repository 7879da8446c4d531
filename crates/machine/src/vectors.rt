// Vector instructions: configurations, loads and stores, and programs of micro-operations.
ghost use Rattle.std.specs.Prelude.{◌≡◌, ◌+◌, ◌<◌, ◌≤◌, ◌^◌, ℕ, List, [], Some, true, length, IsTrue, Bool, Option};
ghost use Rattle.cape_io.specs.Views.{DeviceViews};
ghost use Rattle.cam_chain.specs.ChainValue.{slices_of};
ghost use Rattle.rvv_meaning.specs.declared.Meaning.TheVariants.{Vector};
ghost use Rattle.rvv_meaning.specs.declared.Next.TheVariants.{Perform};
ghost use Rattle.rvv_decode.specs.Ranges.{IsInRange};
ghost use Rattle.vtype_cfg.specs.Settings.{is_valid};
ghost use Rattle.rvv_decode.specs.declared.instruction.VOp.TheVariants.{Config};
ghost use Rattle.rvv_meaning.specs.States.{next, cfg_at, executed_vector};
ghost use Rattle.rvv_meaning.specs.Vectors.{length_asked, length_of_register, setting_asked, scalar_operand, is_computed};
ghost use Rattle.machine.specs.Fields.{VectorFits};
ghost use Rattle.vec_exec.specs.Programs.{is_engine};
ghost use Rattle.machine.specs.Moments.{program_for, slices_by, counts_by, control_by};
ghost use Rattle.machine.specs.Carrying.{CarriesTaking};

use crate::moves::{leaves_number, take_number};
use crate::parts::{CLEARED, Machine, WORD_BYTES};
use micro_ir::replay;
use rvv_decode::{ConfigOp, Form, VInstr, VOp};
use vec_exec::{engine, plan};
use vtype_cfg::{Avl, Cfg, Vtype, set_vl};

impl Machine {
    // The configuration of the vector unit.
    pub(crate) fn cfg(&self) -> Cfg
        ensures is { result ≡ cfg_at self.now.core }
        ensures valid { IsTrue (is_valid result) }
    {
        Cfg {
            vtype: Vtype::from_bits(self.csrs.vtype),
            vl: self.csrs.vl,
            vstart: self.csrs.vstart,
            vxrm: self.csrs.vxrm,
            vlen: self.csrs.vlen,
            policy: self.policy,
        }
    }

    // How many elements a configuration asks for, where a register may say so.
    fn length_of_register(&self, i: &VInstr) -> Avl
        requires { i.now.vs1 < 32 }
        ensures { result ≡ length_of_register i.now self.now.core.regs }
    {
        if i.vs1 != 0 {
            Avl::Given(self.regs.get(i.vs1))
        } else if i.vd != 0 {
            Avl::Max
        } else {
            Avl::Keep
        }
    }

    // How many elements a configuration asks for.
    fn length_asked(&self, op: ConfigOp, i: &VInstr) -> Avl
        requires { i.now.vs1 < 32 }
        ensures { result ≡ length_asked op i.now self.now.core.regs }
    {
        match op {
            ConfigOp::Vsetivli => Avl::Given(u32::from(i.vs1)),
            ConfigOp::Vsetvli | ConfigOp::Vsetvl => self.length_of_register(i),
        }
    }

    // The bits of the vector type that a configuration asks for.
    fn setting_asked(&self, op: ConfigOp, i: &VInstr) -> u32
        requires { i.now.vs2 < 32 }
        ensures { result ≡ setting_asked op i.now self.now.core.regs }
    {
        match op {
            ConfigOp::Vsetvli | ConfigOp::Vsetivli => u32::from(i.zimm),
            ConfigOp::Vsetvl => self.regs.get(i.vs2),
        }
    }

    // A configuration of the vector unit.
    pub(crate) fn configure(&mut self, op: ConfigOp, i: &VInstr)
        requires named { i.now.op ≡ Config op }
        requires fields { IsInRange i.now }
        requires count { self.old.core.csrs.retired < 2 ^ 63 }
        ensures { self.new ≡ record self.old { core = executed_vector i.now self.old.core } }
    {
        let asked = self.length_asked(op, i);
        let setting = self.setting_asked(op, i);
        let old = Vtype::from_bits(self.csrs.vtype);
        let (vtype, vl) = set_vl(&old, self.csrs.vl, asked, setting, self.csrs.vlen);
        self.csrs.vstart = 0;
        self.csrs.vl = vl;
        self.csrs.vtype = vtype.bits();
        self.regs.set(i.vd, vl);
        self.retire_to(self.next_pc());
    }

    // The scalar that an instruction takes.
    pub(crate) fn scalar_of(&self, i: &VInstr) -> u32
        requires { i.now.vs1 < 32 }
        ensures { result ≡ scalar_operand i.now self.now.core.regs }
    {
        match i.form {
            Form::X => self.regs.get(i.vs1),
            Form::V | Form::I => 0,
        }
    }

    // An instruction with a program, which is planned into the empty buffer and replayed on the slices. Where it makes a number
    // for a scalar register, that is left in the control numbers.
    fn run_program(&mut self, i: &VInstr)
        requires fits { VectorFits self.old.core i.now }
        requires computed { is_computed i.now.op ≡ true }
        requires engine { is_engine i.now ≡ true }
        requires empty { self.old.last ≡ [] }
        requires count { self.old.core.csrs.retired < 2 ^ 63 }
        ensures core { self.new.core ≡ executed_vector i.now self.old.core }
        ensures slices { slices_of self.new.chain ≡ slices_by (Some (program_for i.now self.old.core)) (slices_of self.old.chain) }
        ensures last { self.new.last ≡ program_for i.now self.old.core }
        ensures counts { self.new.chain.counts ≡ counts_by (Some (program_for i.now self.old.core)) self.old.chain.counts }
        ensures control { self.new.control ≡ control_by (Some (program_for i.now self.old.core)) (slices_of self.old.chain) self.old.control }
        ensures live { self.new.live ≡ self.old.live }
    {
        let scalar = self.scalar_of(i);
        let cfg = self.cfg();
        plan(i, &cfg, scalar, &mut self.buf);
        let first = self.buf.ops().len() as u32;
        self.control = CLEARED;
        replay(&mut self.chain, &mut self.control, &self.buf, first);
        take_number(&mut self.regs, i, self.control.num);
        self.csrs.vstart = 0;
        self.csrs.vxsat |= self.control.clip;
        self.pc = self.pc.wrapping_add(WORD_BYTES);
        self.csrs.retired += 1;
    }

    // Carries out an instruction that computes from the vector registers.
    fn compute(&mut self, i: &VInstr)
        requires fits { VectorFits self.old.core i.now }
        requires computed { is_computed i.now.op ≡ true }
        requires there { next self.old.core ≡ Perform (Vector i.now) }
        requires empty { self.old.last ≡ [] }
        requires count { self.old.core.csrs.retired < 2 ^ 63 }
        ensures carries { (v : DeviceViews) → CarriesTaking self.old self.new [] (record { old = v; new = v }) }
        ensures count { self.new.core.csrs.retired ≤ self.old.core.csrs.retired + 1 }
        ensures length { self.new.core.csrs.vlen ≡ self.old.core.csrs.vlen }
    {
        if engine(i) {
            self.run_program(i);
        } else if leaves_number(i.op) {
            self.move_out(i);
        } else {
            self.move_elements(i);
        }
    }

    // Carries out the vector instruction at pc.
    pub(crate) fn perform_vector(&mut self, i: &VInstr)
        requires fits { VectorFits self.old.core i.now }
        requires there { next self.old.core ≡ Perform (Vector i.now) }
        requires empty { self.old.last ≡ [] }
        requires count { self.old.core.csrs.retired < 2 ^ 63 }
        ensures carries { (v : DeviceViews) → CarriesTaking self.old self.new [] (record { old = v; new = v }) }
        ensures count { self.new.core.csrs.retired ≤ self.old.core.csrs.retired + 1 }
        ensures length { self.new.core.csrs.vlen ≡ self.old.core.csrs.vlen }
    {
        match i.op {
            VOp::Config(op) => self.configure(op, i),
            VOp::Memory(op) => self.access(op, i),
            VOp::Opi(_) | VOp::Opm(_) => self.compute(i),
        }
    }
}
