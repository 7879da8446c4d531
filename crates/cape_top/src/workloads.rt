// Workloads: the image of one, and its run.
ghost use Rattle.std.specs.Prelude.{◌≡◌, ◌⊎◌, None, Some, true, false, IfOk, is_ok};
ghost use Rattle.cape_io.specs.Views.{Writes};
ghost use Rattle.command_words.specs.Grammar.{IsWorkloadInRange};
ghost use Rattle.rvv_meaning.specs.declared.Mode.TheVariants.{Running, Exited};
ghost use Rattle.rvv_meaning.specs.Calls.{exit_code};
ghost use Rattle.work_gen.specs.Images.{workload as image_of};
ghost use Rattle.cape_top.specs.Endings.{IsAt, Keeps, bench_text, workload_reached};
ghost use Rattle.cape_top.specs.Runs.{HasExited, OpensWorkload, run_text};

use crate::ending::Status;
use cape_io::{Failed, Sink, SureSink, SureSource};
use command_words::Workload;
use elf_load::load;
use machine::{Machine, Step};
use report_texts::write_line;
use run_texts::bench_line;
use std::alloc::{AllocError, Global};
use vtype_cfg::Policy;
use work_gen::make;

// The bits of a vector register of a workload's machine, and the most steps of its run.
const VLEN: u32 = 1024;

const STEPS: u64 = 1_000_000_000;

/// Writes the image of a workload.
pub(crate) fn write_workload<O: Sink>(alloc: Global, workload: Workload, out: &mut O) -> Status
    requires { IsWorkloadInRange workload }
    ensures only { (result ≡ Status.Done) ⊎ ((result ≡ Status.WriteFault) ⊎ (result ≡ Status.NoMemory)) }
    ensures said { result ≡ Status.Done → Writes O.Sink (image_of workload.seed workload.size) true out.old out.new }
    ensures fails { result ≡ Status.WriteFault → Writes O.Sink (image_of workload.seed workload.size) false out.old out.new }
    ensures lacks { result ≡ Status.NoMemory → out.new ≡ out.old }
{
    match make(alloc, workload.seed, workload.size) {
        Ok(image) => match out.put(image.as_slice()) {
            Ok(()) => Status::Done,
            Err(_) => Status::WriteFault,
        },
        Err(_) => Status::NoMemory,
    }
}

// The machine of a workload before its first step.
#[tactic(auto, unfolding(vtype_cfg::specs::Settings::is_legal_vlen, vtype_cfg::specs::Settings::legal_vlens))]
fn machine_for(alloc: Global, workload: Workload) -> Result<Machine, AllocError>
    requires { IsWorkloadInRange workload }
    ensures opens { IfOk result (OpensWorkload workload) }
    ensures live { IfOk result (λ machine. machine.live ≡ true) }
    ensures running { IfOk result (λ machine. machine.core.mode ≡ Running) }
    ensures fresh { IfOk result (λ machine. machine.core.csrs.retired ≡ 0) }
{
    let image = make(alloc, workload.seed, workload.size)?;
    match load(alloc, image.as_slice()) {
        Ok(loaded) => Machine::new(alloc, loaded, VLEN, Policy::Keep),
        // The image has no fault, so memory is lacking.
        Err(_) => Err(AllocError),
    }
}

// The machine of a workload after its last step. It has no input, and what it writes is dropped.
fn run_workload(alloc: Global, workload: Workload) -> Result<Machine, AllocError>
    requires { IsWorkloadInRange workload }
    ensures reaches { IfOk result (IsAt (workload_reached workload)) }
    ensures exits { IfOk result (HasExited workload) }
{
    let mut machine = machine_for(alloc, workload)?;
    let mut input = SureSource::new(alloc, &[], 1)?;
    let mut out = SureSink::new();
    let mut err = SureSink::new();
    match machine.run(STEPS, &mut input, &mut out, &mut err, false) {
        Ok(_) => Ok(machine),
        // These devices do not fail.
        Err(_) => unreachable!(),
    }
}

// The code of a machine that has exited.
fn code_of(machine: &Machine) -> u8
    requires { machine.now.core.mode ≡ Exited (exit_code machine.now.core.regs) }
    ensures { result ≡ exit_code machine.now.core.regs }
{
    match machine.halted() {
        Some(Step::Exited(code)) => code,
        // It has no other mode.
        _ => unreachable!(),
    }
}

// Writes the line about the run of a workload.
fn write_run<O: Sink>(machine: &Machine, workload: Workload, out: &mut O) -> Result<(), Failed>
    requires { HasExited workload machine.now }
    ensures { Writes O.Sink (run_text workload machine.now) (is_ok result) out.old out.new }
{
    let line = bench_line(
        workload.seed,
        workload.size,
        code_of(machine),
        machine.retired(),
        machine.counts(),
    );
    write_line(&line, out)
}

/// Runs a workload. The line about the run is written to the output, and the machine is kept.
pub(crate) fn bench<O: Sink>(
    alloc: Global,
    workload: Workload,
    out: &mut O,
    kept: &mut Option<Machine>,
) -> Status
    requires range { IsWorkloadInRange workload }
    requires none { kept.old ≡ None }
    ensures only { (result ≡ Status.Done) ⊎ ((result ≡ Status.WriteFault) ⊎ (result ≡ Status.NoMemory)) }
    ensures said { result ≡ Status.Done → Writes O.Sink (bench_text workload (workload_reached workload)) true out.old out.new }
    ensures fails { result ≡ Status.WriteFault → Writes O.Sink (bench_text workload (workload_reached workload)) false out.old out.new }
    ensures lacks { result ≡ Status.NoMemory → out.new ≡ out.old }
    ensures holds { result ≡ Status.Done → Keeps (Some (workload_reached workload)) kept.new }
    ensures keeps { (result ≡ Status.Done) ⊎ (kept.new ≡ None) }
{
    let machine = match run_workload(alloc, workload) {
        Ok(machine) => machine,
        Err(_) => return Status::NoMemory,
    };
    match write_run(&machine, workload, out) {
        Ok(()) => {
            *kept = Some(machine);
            Status::Done
        }
        Err(_) => Status::WriteFault,
    }
}
