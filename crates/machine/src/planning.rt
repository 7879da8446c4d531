// What comes of the slices: the program of the instruction at pc, before it is carried out.
ghost use Rattle.std.specs.Prelude.{◌≡◌, ◌+◌, ◌*◌, ◌/◌, ◌≤◌, [], Some, None, true, false, length};
ghost use Rattle.micro_ir.specs.Replay.{AllInRange};
ghost use Rattle.vec_exec.specs.Programs.{is_engine};
ghost use Rattle.machine.specs.Fields.{VectorFits};
ghost use Rattle.machine.specs.Moments.{program_at, program_for};

use crate::parts::Machine;
use micro_ir::MicroBuf;
use rvv_decode::VInstr;
use rvv_meaning::{Meaning, Next};
use vec_exec::{engine, plan};

impl Machine {
    /// How many columns the slices have: a column holds 32 bits of each vector register.
    pub fn columns(&self) -> u32
        ensures value { result ≡ self.now.chain.columns }
        ensures length { self.now.core.csrs.vlen ≡ 32 * result }
        ensures some { 1 ≤ result }
        ensures few { result ≤ 2048 }
    {
        self.chain.columns()
    }

    // The program of an instruction that a program carries out.
    fn plan_vector(&self, i: &VInstr, buf: &mut MicroBuf)
        requires fits { VectorFits self.now.core i.now }
        requires engine { is_engine i.now ≡ true }
        requires empty { buf.old.ops ≡ [] }
        requires room { buf.old.spare ≡ 262144 }
        ensures program { buf.new.ops ≡ program_for i.now self.now.core }
        ensures range { AllInRange (self.now.core.csrs.vlen / 32) buf.new.ops }
        ensures room { length buf.new.ops + buf.new.spare ≡ 262144 }
    {
        let scalar = self.scalar_of(i);
        let cfg = self.cfg();
        plan(i, &cfg, scalar, buf);
    }

    /// Writes the program of the instruction at pc, in the state that the machine is in. False, and an empty buffer, where
    /// that instruction cannot be fetched, is illegal, or is not carried out by a program. The buffer has room for 262,144
    /// operations, with those that stand in it, which are dropped.
    #[tactic(auto, using(crate::proofs::NextPrograms::stop_program, crate::proofs::NextPrograms::scalar_program, crate::proofs::NextPrograms::vector_program, crate::proofs::NextPrograms::no_vector_program, crate::proofs::NextPrograms::none_in_range))]
    pub fn plan_next(&self, buf: &mut MicroBuf) -> bool
        requires room { length buf.old.ops + buf.old.spare ≡ 262144 }
        ensures planned { result ≡ true → program_at self.now.core ≡ Some buf.new.ops }
        ensures none { result ≡ false → program_at self.now.core ≡ None }
        ensures empty { result ≡ false → buf.new.ops ≡ [] }
        ensures range { AllInRange (self.now.core.csrs.vlen / 32) buf.new.ops }
        ensures room { length buf.new.ops + buf.new.spare ≡ 262144 }
    {
        buf.clear();
        let Next::Perform(Meaning::Vector(i)) = self.next() else {
            return false;
        };
        if !engine(&i) {
            return false;
        }
        self.plan_vector(&i, buf);
        true
    }
}
