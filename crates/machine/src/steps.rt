// Steps and runs.
ghost use Rattle.std.specs.Prelude.{◌≡◌, ◌+◌, ◌<◌, ◌≤◌, ◌^◌, [], true, false, is_ok, OnOk, OnErr, IfOk, IfErr, IsErrOf};
ghost use Rattle.cape_io.specs.Views.{devices, views, KeepsFaults};
ghost use Rattle.bit_laws.specs.Numbers.{low};
ghost use Rattle.rv32_decode.specs.Spelling.{IsSpelled};
ghost use Rattle.rvv_meaning.specs.declared.Meaning.TheVariants.{Scalar};
ghost use Rattle.rvv_meaning.specs.declared.Next.TheVariants.{Perform};
ghost use Rattle.rvv_meaning.specs.States.{next, retired_to, with_effect, effect_at};
ghost use Rattle.rvv_meaning.specs.Calls.{first, second};
ghost use Rattle.guest_env.specs.Outputs.{IsWritten};
ghost use Rattle.guest_env.specs.Answers.{IsWriting};
ghost use Rattle.machine.specs.Answers.{step_for};
ghost use Rattle.machine.specs.Moments.{moment_after, moments};
ghost use Rattle.machine.specs.Resuming.{StepsOn};
ghost use Rattle.machine.specs.Views.{CallsAt, GoesBy, FaultsIn, ReadsIn, StandsIn, EachStep, AsksNothing, AddsNoOut, AddsNoErr, gains_out, gains_err};
ghost use Rattle.machine.specs.Carrying.{Carries, Calls, Fails, OneFault, LeavesAllowed, call_asked, call_out, call_err};

use crate::answers::{DeviceFault, Step};
use crate::parts::{Machine, WORD_BYTES};
use cape_io::{Sink, Source};
use guest_env::{EnvFault, EnvFlow, call};
use rv32_core::exec;
use rv32_decode::Instr;
use rvv_meaning::{Flow, Meaning, Mode, Next};

impl Machine {
    // There is no program of the last step.
    fn forget(&mut self)
        ensures { self.new ≡ record self.old { last = [] } }
    {
        self.buf.clear();
    }

    // The machine stops.
    pub(crate) fn stop(&mut self, mode: Mode)
        ensures { self.new ≡ record self.old { core = record self.old.core { mode = mode } } }
    {
        self.mode = mode;
    }

    // The instruction retires, and the next one is at a place.
    pub(crate) fn retire_to(&mut self, target: u32)
        requires { self.old.core.csrs.retired < 2 ^ 63 }
        ensures { self.new ≡ record self.old { core = retired_to target self.old.core } }
    {
        self.pc = target;
        self.csrs.retired += 1;
    }

    // The address after the word at pc.
    pub(crate) fn next_pc(&self) -> u32
        ensures { result ≡ low 32 (self.now.core.pc + 4) }
    {
        self.pc.wrapping_add(WORD_BYTES)
    }

    // What a scalar instruction does to the registers, the control registers and the memory, and where the program goes
    // on.
    fn execute(&mut self, i: &Instr) -> Flow
        requires { IsSpelled i.now }
        ensures flow { result ≡ (effect_at i.now self.old.core).flow }
        ensures core { self.new ≡ record self.old { core = with_effect (effect_at i.now self.old.core) self.old.core } }
        ensures count { self.new.core.csrs.retired ≡ self.old.core.csrs.retired }
        ensures length { self.new.core.csrs.vlen ≡ self.old.core.csrs.vlen }
    {
        exec(i, self.pc, &mut self.regs, &mut self.csrs, &mut self.mem)
    }

    // Carries out the call that the registers ask for.
    fn call<S: Source, O: Sink, E: Sink>(
        &mut self,
        input: &mut S,
        out: &mut O,
        err: &mut E,
        merged: bool,
    ) -> Result<(), DeviceFault>
        requires count { self.old.core.csrs.retired < 2 ^ 63 }
        ensures called { OnOk result (Calls self.old self.new (devices S.Source O.Sink E.Sink input.old input.new out.old out.new err.old err.new)) }
        ensures count { OnOk result (self.new.core.csrs.retired ≤ self.old.core.csrs.retired + 1) }
        ensures length { self.new.core.csrs.vlen ≡ self.old.core.csrs.vlen }
        ensures to_out { IsWritten O.Sink (second self.old.core.regs) (call_out merged self.old.core) (is_ok result) out.old out.new }
        ensures to_err { IsWritten E.Sink (second self.old.core.regs) (call_err merged self.old.core) (is_ok result) err.old err.new }
        ensures stays { OnErr result (self.new ≡ record self.old { core = record self.old.core { mem = self.new.core.mem } }) }
        ensures fails { IfErr result (Fails merged self.old.core self.new.core (devices S.Source O.Sink E.Sink input.old input.new out.old out.new err.old err.new)) }
        ensures input_stays { call_asked self.old.core ≡ 0 → input.new ≡ input.old }
    {
        match call(&mut self.regs, &mut self.mem, input, out, err, merged) {
            Ok(EnvFlow::Back) => {
                self.retire_to(self.next_pc());
                Ok(())
            }
            Ok(EnvFlow::Exit(code)) => {
                self.retire_to(self.next_pc());
                self.mode = Mode::Exited(code);
                Ok(())
            }
            Err(EnvFault::ReadFault) => Err(DeviceFault::ReadFault),
            Err(EnvFault::WriteFault) => Err(DeviceFault::WriteFault),
        }
    }

    // Carries out a scalar instruction.
    fn perform<S: Source, O: Sink, E: Sink>(
        &mut self,
        i: &Instr,
        input: &mut S,
        out: &mut O,
        err: &mut E,
        merged: bool,
    ) -> Result<(), DeviceFault>
        requires spelled { IsSpelled i.now }
        requires there { next self.old.core ≡ Perform (Scalar i.now) }
        requires empty { self.old.last ≡ [] }
        requires count { self.old.core.csrs.retired < 2 ^ 63 }
        ensures carries { OnOk result (Carries self.old self.new (devices S.Source O.Sink E.Sink input.old input.new out.old out.new err.old err.new)) }
        ensures count { OnOk result (self.new.core.csrs.retired ≤ self.old.core.csrs.retired + 1) }
        ensures length { self.new.core.csrs.vlen ≡ self.old.core.csrs.vlen }
        ensures to_out { IsWritten O.Sink (second self.old.core.regs) (gains_out merged self.old.core) (is_ok result) out.old out.new }
        ensures to_err { IsWritten E.Sink (second self.old.core.regs) (gains_err merged self.old.core) (is_ok result) err.old err.new }
        ensures stays { OnErr result (self.new ≡ record self.old { core = record self.old.core { mem = self.new.core.mem } }) }
        ensures calls { OnErr result (CallsAt self.old.core) }
        ensures fails { IfErr result (Fails merged self.old.core self.new.core (devices S.Source O.Sink E.Sink input.old input.new out.old out.new err.old err.new)) }
        ensures input_stays { AsksNothing self.old.core → input.new ≡ input.old }
    {
        match self.execute(i) {
            Flow::Next => {
                self.retire_to(self.next_pc());
                Ok(())
            }
            Flow::Jump(target) => {
                self.retire_to(target);
                Ok(())
            }
            Flow::Trap(trap) => {
                self.stop(Mode::Trapped(trap));
                Ok(())
            }
            Flow::Call => self.call(input, out, err, merged),
        }
    }

    // Carries out the instruction at pc.
    fn carry_out<S: Source, O: Sink, E: Sink>(
        &mut self,
        input: &mut S,
        out: &mut O,
        err: &mut E,
        merged: bool,
    ) -> Result<(), DeviceFault>
        requires empty { self.old.last ≡ [] }
        requires count { self.old.core.csrs.retired < 2 ^ 63 }
        ensures carries { OnOk result (Carries self.old self.new (devices S.Source O.Sink E.Sink input.old input.new out.old out.new err.old err.new)) }
        ensures count { OnOk result (self.new.core.csrs.retired ≤ self.old.core.csrs.retired + 1) }
        ensures length { self.new.core.csrs.vlen ≡ self.old.core.csrs.vlen }
        ensures to_out { IsWritten O.Sink (second self.old.core.regs) (gains_out merged self.old.core) (is_ok result) out.old out.new }
        ensures to_err { IsWritten E.Sink (second self.old.core.regs) (gains_err merged self.old.core) (is_ok result) err.old err.new }
        ensures stays { OnErr result (self.new ≡ record self.old { core = record self.old.core { mem = self.new.core.mem } }) }
        ensures calls { OnErr result (CallsAt self.old.core) }
        ensures fails { IfErr result (Fails merged self.old.core self.new.core (devices S.Source O.Sink E.Sink input.old input.new out.old out.new err.old err.new)) }
        ensures input_stays { AsksNothing self.old.core → input.new ≡ input.old }
    {
        match self.next() {
            Next::Stop(mode) => {
                self.stop(mode);
                Ok(())
            }
            Next::Perform(Meaning::Scalar(i)) => self.perform(&i, input, out, err, merged),
            Next::Perform(Meaning::Vector(i)) => {
                self.perform_vector(&i);
                Ok(())
            }
        }
    }

    /// One step. `merged` tells where the guest's bytes go: the output to `out` and the error output to `err`, or both
    /// to `err` in their order. The answer tells the mode. After a device fault `live` is false, nothing retired and
    /// all else but the memory and the last program is as before: the bytes that a read took stand in memory, or the
    /// sink has gained a front of the bytes of the call.
    pub fn step<S: Source, O: Sink, E: Sink>(
        &mut self,
        input: &mut S,
        out: &mut O,
        err: &mut E,
        merged: bool,
    ) -> Result<Step, DeviceFault>
        requires live { self.old.live ≡ true }
        requires running { self.old.core.mode ≡ Mode.Running }
        requires count { self.old.core.csrs.retired < 2 ^ 63 }

        // What the machine becomes, whatever is known of the devices.
        ensures carries { OnOk result (Carries self.old self.new (devices S.Source O.Sink E.Sink input.old input.new out.old out.new err.old err.new)) }
        ensures live { OnOk result (self.new.live ≡ true) }
        ensures count { OnOk result (self.new.core.csrs.retired ≤ self.old.core.csrs.retired + 1) }
        ensures length { self.new.core.csrs.vlen ≡ self.old.core.csrs.vlen }
        ensures answer { IfOk result (λ answer. answer ≡ step_for self.new.core.mode) }

        // Agnostic elements are as the standard permits, whatever the policy is.
        ensures allowed { OnOk result (LeavesAllowed self.old.core self.new.core (S.left input.old) (S.left input.new)) }

        // A load or a store that trapped goes on.
        ensures resumes { OnOk result (StepsOn self.old.core self.new.core) }

        // The moment after is that of one step from the moment before.
        ensures goes { OnOk result (GoesBy moment_after merged self.old self.new (devices S.Source O.Sink E.Sink input.old input.new out.old out.new err.old err.new)) }

        // What stands after a device fault, and its cause.
        ensures stays { OnErr result (self.new ≡ record self.old { core = record self.old.core { mem = self.new.core.mem }; last = []; live = false }) }
        ensures calls { OnErr result (CallsAt self.old.core) }
        ensures fails { IfErr result (Fails merged self.old.core self.new.core (devices S.Source O.Sink E.Sink input.old input.new out.old out.new err.old err.new)) }
        ensures prefixes { OnErr result (FaultsIn moment_after merged self.old (devices S.Source O.Sink E.Sink input.old input.new out.old out.new err.old err.new)) }

        // What each device is given: a device that the step does not ask stays as it was.
        ensures to_out { IsWritten O.Sink (second self.old.core.regs) (gains_out merged self.old.core) (is_ok result) out.old out.new }
        ensures to_err { IsWritten E.Sink (second self.old.core.regs) (gains_err merged self.old.core) (is_ok result) err.old err.new }
        ensures quiet { OnOk result (KeepsFaults (devices S.Source O.Sink E.Sink input.old input.new out.old out.new err.old err.new)) }
        ensures input_stays { AsksNothing self.old.core → input.new ≡ input.old }
        ensures out_stays { AddsNoOut merged self.old.core → out.new ≡ out.old }
        ensures err_stays { AddsNoErr merged self.old.core → err.new ≡ err.old }
    {
        self.forget();
        match self.carry_out(input, out, err, merged) {
            Ok(()) => Ok(self.answer()),
            Err(fault) => {
                self.live = false;
                Err(fault)
            }
        }
    }

    /// Up to n steps, as long as the machine runs: `Ran` where n instructions retired and it still runs. After a device
    /// fault the machine stands at the call that failed.
    pub fn run<S: Source, O: Sink, E: Sink>(
        &mut self,
        n: u64,
        input: &mut S,
        out: &mut O,
        err: &mut E,
        merged: bool,
    ) -> Result<Step, DeviceFault>
        requires live { self.old.live ≡ true }
        requires running { self.old.core.mode ≡ Mode.Running }
        requires budget { n ≤ 1000000000000 }
        requires count { self.old.core.csrs.retired + n ≤ 2 ^ 63 }
        ensures goes { OnOk result (GoesBy (λ m. moments m n) merged self.old self.new (devices S.Source O.Sink E.Sink input.old input.new out.old out.new err.old err.new)) }
        ensures live { OnOk result (self.new.live ≡ true) }
        ensures count { OnOk result (self.new.core.csrs.retired ≤ self.old.core.csrs.retired + n) }
        ensures length { self.new.core.csrs.vlen ≡ self.old.core.csrs.vlen }
        ensures answer { IfOk result (λ answer. answer ≡ step_for self.new.core.mode) }

        // What stands after a device fault, and its cause.
        ensures not_live { OnErr result (self.new.live ≡ false) }
        ensures no_program { OnErr result (self.new.last ≡ []) }
        ensures stands { IfErr result (StandsIn n merged self.old self.new (devices S.Source O.Sink E.Sink input.old input.new out.old out.new err.old err.new)) }
        ensures prefixes { OnErr result (FaultsIn (λ m. moments m n) merged self.old (devices S.Source O.Sink E.Sink input.old input.new out.old out.new err.old err.new)) }
        ensures reads { IsErrOf result DeviceFault.ReadFault → ReadsIn n merged self.old (views S.Source O.Sink E.Sink input.old out.old err.old) }
        ensures write_at { IsErrOf result DeviceFault.WriteFault → CallsAt self.new.core × IsWriting self.new.core.regs self.new.core.mem }

        // What each device is given: one count of faults rises by one at a fault, and none else.
        ensures quiet { OnOk result (KeepsFaults (devices S.Source O.Sink E.Sink input.old input.new out.old out.new err.old err.new)) }
        ensures cause { IfErr result (λ fault. OneFault fault merged (first self.new.core.regs) (devices S.Source O.Sink E.Sink input.old input.new out.old out.new err.old err.new)) }

        // A device that no step asks stays as it was.
        ensures input_stays { EachStep AsksNothing n merged self.old (views S.Source O.Sink E.Sink input.old out.old err.old) → input.new ≡ input.old }
        ensures out_stays { EachStep (AddsNoOut merged) n merged self.old (views S.Source O.Sink E.Sink input.old out.old err.old) → out.new ≡ out.old }
        ensures err_stays { EachStep (AddsNoErr merged) n merged self.old (views S.Source O.Sink E.Sink input.old out.old err.old) → err.new ≡ err.old }
        ensures merged_out { merged ≡ true → out.new ≡ out.old }
    {
        for i in 0..n {
            let answer = self.step(input, out, err, merged)?;
            match answer {
                Step::Ran => {}
                Step::Exited(_) | Step::Trapped(_) => return Ok(answer),
            }
        }
        Ok(Step::Ran)
    }
}
